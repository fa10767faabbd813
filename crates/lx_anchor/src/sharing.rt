//! The equations of a tree and an entry in a store.
ghost use Rattle.std.specs.Prelude.{◌≡◌, ◌<◌, ◌≤◌, ◌∷◌, [], length};
ghost use Rattle.std.specs.Bool.{OnTrue, OnFalse};
ghost use Rattle.gr_store.specs.Contents.{Grows, IsMade};
ghost use Rattle.gr_feats.specs.Loading.{counted_from};
ghost use Rattle.lx_anchor.specs.Counts.{IsBagBelow};
ghost use Rattle.lx_anchor.specs.Sharing.{AreEquations, HasClash, HasRoom, IsClashing, IsSharing, counted_pairs};

use gr_store::Store;
use gr_terms::{Bag, Sym, Term};
use lx_lexicon::Entry;
use td_tree::Tree;

/// The term with its variable counted from the first one.
pub fn counted(first: u32, term: Term) -> Term
    requires { IsMade 4294967295 (counted_from first term) }
    ensures { result ≡ counted_from first term }
{
    match term {
        Term::Const(name) => Term::Const(name),
        Term::Var(number) => Term::Var(first + number),
    }
}

/// Equates the value of an attribute with that in the bag, if it is there. Answers false where they
/// don't agree.
fn share_value(store: &mut Store, bag: &Bag, attr: Sym, value: Term) -> bool
    requires bag_made { IsBagBelow store.old.vars bag.now }
    requires value_made { IsMade store.old.vars value }
    requires room { 0 < store.old.spare.assertions }
    ensures shared { OnTrue result (IsSharing bag.now ((attr, value) ∷ []) 1 store.old store.new) }
    ensures refused { OnFalse result (IsClashing bag.now ((attr, value) ∷ []) store.old) }
    ensures grows { Grows store.old store.new }
{
    match bag.get(attr) {
        Some(other) => store.equate(other, value),
        None => true,
    }
}

/// Equates the values of each attribute that both bags have, where the variables of the second one
/// are counted from `first`. Answers false where they don't agree, and then some may be equated.
fn share(store: &mut Store, bag: &Bag, added: &Bag, first: u32) -> bool
    requires bag_made { IsBagBelow store.old.vars bag.now }
    requires added_made { IsBagBelow store.old.vars (counted_pairs first added.now) }
    requires room { length added.now ≤ store.old.spare.assertions }
    ensures shared { OnTrue result (IsSharing bag.now (counted_pairs first added.now) (length added.now) store.old store.new) }
    ensures refused { OnFalse result (IsClashing bag.now (counted_pairs first added.now) store.old) }
    ensures grows { Grows store.old store.new }
{
    // Its numbers fit, so none that is counted from the first one wraps.
    store.agrees();
    'pairs: for place in 0..added.len() {
        let pair = added.at(place);
        if !share_value(store, bag, pair.0, counted(first, pair.1)) {
            return false;
        }
    }
    true
}

/// Puts the equations of a tree and an entry into an empty store, where the entry's features of the
/// anchor belong to node number `anchor` and the entry's variables are counted from `first`. Answers
/// false where they don't agree, and then some may be there.
pub fn share_all(store: &mut Store, tree: &Tree, entry: &Entry, first: u32, anchor: usize) -> bool
    requires anchor { anchor < length tree.now.nodes }
    requires room { HasRoom tree.now entry.now first store.old }
    ensures shared { OnTrue result (AreEquations tree.now entry.now first anchor store.new.accepted) }
    ensures refused { OnFalse result (HasClash tree.now entry.now first anchor) }
    ensures grows { Grows store.old store.new }
{
    if !share(store, &tree.iface, &entry.iface, first) {
        return false;
    }
    share(store, &tree.nodes.get(anchor).bot, &entry.anchor, first)
}
