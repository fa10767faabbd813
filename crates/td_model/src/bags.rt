//! Canonical bags and terms, read off a store.
ghost use Rattle.std.specs.Prelude.{ℕ, map, IfOk};
ghost use Rattle.std.specs.List.{AllZip};
ghost use Rattle.gr_terms.specs.LiteralViews.{literal_of, literals_of};
ghost use Rattle.gr_terms.specs.Views.{network_of, term_of};
ghost use Rattle.gr_feats.specs.CanonicalBags.{IsCanonicalBag, StandsFor};
ghost use Rattle.gr_terms.specs.Networks.{Agrees};
ghost use Rattle.td_model.specs.CanonicalTrees.{StandsForLiteral};
ghost use Rattle.td_model.specs.Reading.{CoverAttributes};

use gr_base::{Items, Memory};
use gr_store::Store;
use gr_terms::{Bag, Literal, Literals, SlotId, Syms, Term, Terms};
use std::alloc::Global;

/// The canonical bag of a slot, whose attributes are all in the list.
pub(crate) fn bag_of(
    alloc: Global,
    store: &Store,
    slot: SlotId,
    attributes: &Syms,
) -> Result<Bag, Memory>
    requires agrees { Agrees (network_of store.now.accepted) }
    requires attributes { CoverAttributes store.now.accepted attributes.now }
    ensures { IfOk result (λ bag. IsCanonicalBag (network_of store.now.accepted) slot.0 bag) }
{
    let mut bag = Bag::new(alloc);
    'attributes: for place in 0..attributes.len() {
        let attr = *attributes.get(place);
        if let Some(value) = store.entry(slot, attr) {
            let _added = bag.add(attr, store.least(value))?;
        }
    }
    Ok(bag)
}

/// What stands for a term.
fn least_term(store: &Store, term: Term) -> Term
    ensures { StandsFor (network_of store.now.accepted) (term_of term) result }
{
    store.least(term)
}

/// What stands for each term.
fn least_terms(alloc: Global, store: &Store, terms: &Terms) -> Result<Terms, Memory>
    ensures { IfOk result (λ least. AllZip (StandsFor (network_of store.now.accepted)) (map term_of terms.now) least) }
{
    let mut least = Vec::with_capacity(alloc, terms.len())?;
    'terms: for place in 0..terms.len() {
        least.push(least_term(store, *terms.get(place)))?;
    }
    Ok(Items::from_vec(least))
}

/// The literal of what stands for its terms.
fn least_literal(alloc: Global, store: &Store, literal: &Literal) -> Result<Literal, Memory>
    ensures { IfOk result (λ least. StandsForLiteral (network_of store.now.accepted) (literal_of literal.now) least) }
{
    Ok(Literal {
        handle: least_term(store, literal.handle),
        pred: least_term(store, literal.pred),
        args: least_terms(alloc, store, &literal.args)?,
    })
}

/// The literals of what stands for their terms.
pub(crate) fn least_literals(
    alloc: Global,
    store: &Store,
    literals: &Literals,
) -> Result<Literals, Memory>
    ensures { IfOk result (λ least. AllZip (StandsForLiteral (network_of store.now.accepted)) (literals_of literals.now) least) }
{
    let mut least = Vec::with_capacity(alloc, literals.len())?;
    'literals: for place in 0..literals.len() {
        least.push(least_literal(alloc, store, literals.get(place))?)?;
    }
    Ok(Items::from_vec(least))
}
