//! The links of nodes that share a tree node.
ghost use Rattle.std.specs.Prelude.{◌≡◌, ◌↔◌, ◌≤◌, ◌++◌, IsTrue};
ghost use Rattle.std.specs.Bool.{OnTrue, OnFalse};
ghost use Rattle.gr_terms.specs.Networks.{Agrees};
ghost use Rattle.gr_terms.specs.Views.{network_of};
ghost use Rattle.gr_store.specs.Contents.{Grows};
ghost use Rattle.td_model.specs.Loads.{AreSlotsMade, slot_links, with_links};

use crate::loading::counted_slot;
use gr_store::Store;
use td_desc::DescribedNode;

/// Links the three slots of one node with those of another, with slots counted from `first`, and
/// answers true, exactly where the accepted assertions agree with these links. Else the store is as
/// it was. Takes no memory.
pub fn link_nodes(store: &mut Store, one: &DescribedNode, other: &DescribedNode, first: u32) -> bool
    requires one_made { AreSlotsMade first store.old.slots one.now }
    requires other_made { AreSlotsMade first store.old.slots other.now }
    requires room { 3 ≤ store.old.spare.assertions }
    ensures agrees { IsTrue result
        ↔ Agrees (network_of (store.old.accepted ++ slot_links first one.now other.now)) }
    ensures linked { OnTrue result (store.new ≡ with_links store.old (slot_links first one.now other.now)) }
    ensures refused { OnFalse result (store.new ≡ store.old) }
    ensures grows { Grows store.old store.new }
{
    let before = store.mark();
    let own = store.link(counted_slot(first, one.own), counted_slot(first, other.own));
    if !own {
        return false;
    }
    let top = store.link(counted_slot(first, one.top), counted_slot(first, other.top));
    if !top {
        store.undo(before);
        return false;
    }
    let bottom = store.link(counted_slot(first, one.bot), counted_slot(first, other.bot));
    if !bottom {
        store.undo(before);
        return false;
    }
    true
}
