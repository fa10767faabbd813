//! A bag put into a store.
ghost use Rattle.std.specs.Prelude.{◌≡◌, ◌↔◌, ◌+◌, ◌<◌, ◌≤◌, ◌++◌, IsTrue, length};
ghost use Rattle.std.specs.Bool.{OnTrue, OnFalse};
ghost use Rattle.gr_base.specs.Lists.{Each};
ghost use Rattle.gr_terms.specs.Networks.{Agrees};
ghost use Rattle.gr_terms.specs.Views.{network_of};
ghost use Rattle.gr_store.specs.Contents.{IsMade, Grows};
ghost use Rattle.gr_feats.specs.Loading.{counted_from, entries_of, with_entries};

use gr_store::Store;
use gr_terms::{Bag, SlotId, Term};

/// The term with its variable counted from the first one.
fn counted_from_first(first: u32, term: Term) -> Term
    requires { IsMade 4294967295 (counted_from first term) }
    ensures { result ≡ counted_from first term }
{
    match term {
        Term::Const(name) => Term::Const(name),
        Term::Var(number) => Term::Var(first + number),
    }
}

/// Puts each pair of the bag into the store as an entry of the slot, with variables counted from
/// `first`, and answers true, exactly where the accepted assertions agree with all of these
/// entries. Else the store is as it was. Takes no memory.
pub fn load_bag(store: &mut Store, slot: SlotId, bag: &Bag, first: u32) -> bool
    requires slot_made { slot.0 < store.old.slots }
    requires values_made { Each (λ p. IsMade store.old.vars (counted_from first p.1)) bag.now }
    requires room { length bag.now ≤ store.old.spare.assertions }
    requires entry_room { length bag.now ≤ store.old.spare.entries }
    ensures agrees { IsTrue result
        ↔ Agrees (network_of (store.old.accepted ++ entries_of slot first bag.now)) }
    ensures accepted { OnTrue result (store.new ≡ with_entries store.old slot first bag.now) }
    ensures refused { OnFalse result (store.new ≡ store.old) }
    ensures grows { Grows store.old store.new }
{
    let before = store.mark();
    'pairs: for place in 0..bag.len() {
        let pair = bag.at(place);
        let value = counted_from_first(first, pair.1);
        if !store.put(slot, pair.0, value) {
            store.undo(before);
            return false;
        }
    }
    true
}
