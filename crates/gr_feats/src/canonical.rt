//! The canonical bag of a slot.
ghost use Rattle.std.specs.Prelude.{IfOk, MatchOption};
ghost use Rattle.gr_terms.specs.Views.{network_of};
ghost use Rattle.gr_feats.specs.CanonicalBags.{IsCanonicalBag, IsDone, IsMissing};

use gr_base::Memory;
use gr_store::Store;
use gr_terms::{Bag, SlotId, Sym, Term};
use std::alloc::Global;

/// What stands for the values of an attribute, unless the bag has it or there are none.
fn missing(store: &Store, slot: SlotId, attr: Sym, bag: &Bag) -> Option<Term>
    ensures { MatchOption result
        (IsDone (network_of store.now.accepted) slot.0 attr bag.now)
        (λ value. IsMissing (network_of store.now.accepted) slot.0 attr bag.now value) }
{
    match bag.get(attr) {
        Some(_value) => None,
        None => match store.entry(slot, attr) {
            Some(value) => Some(store.least(value)),
            None => None,
        },
    }
}

/// The entries of the slot and of those linked with it: each attribute once, and each value as the
/// name that it is linked with, or else as the least variable that it is linked with. A slot that
/// isn't made has none.
pub fn canonical_bag(alloc: Global, store: &Store, slot: SlotId) -> Result<Bag, Memory>
    ensures { IfOk result (λ bag. IsCanonicalBag (network_of store.now.accepted) slot.0 bag) }
{
    let mut bag = Bag::new(alloc);
    'entries: for at in 0..store.mark().entries {
        let attr = store.attr_at(at);
        if let Some(value) = missing(store, slot, attr, &bag) {
            let _added = bag.add(attr, value)?;
        }
    }
    Ok(bag)
}
