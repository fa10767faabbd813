//! The pairs of a bag by their texts.
ghost use Rattle.std.specs.Prelude.{◌≡◌, ◌<◌, ◌≤◌, [], ◌∷◌, ◌++◌, length, map, drop, IfOk, OnOk};
ghost use Rattle.gr_base.specs.Lists.{NoneTwice};
ghost use Rattle.gr_terms.specs.Bags.{IsListed};
ghost use Rattle.gr_terms.specs.BagViews.{pairs_of};
ghost use Rattle.td_canon.specs.CanonicalTexts.{IsNamedBag, text_in};
ghost use Rattle.td_canon.specs.TreeText.{enclosed};
ghost use Rattle.td_canon.specs.Writing.{AreNamedPairs, Writes, WritesPairs, by_text, in_order, pair_values, seen_pairs, written_pairs};

use crate::draft::Draft;
use gr_base::Memory;
use gr_symbols::Symbols;
use gr_terms::{Bag, Term};
use std::alloc::Global;

/// A pair of a bag, its attribute by its text.
#[derive(Clone, Copy)]
struct Pair<'a> {
    attribute: &'a str,
    value: Term,
}

/// The pairs of a bag from a place on, in its order.
fn pairs_from<'a>(
    alloc: Global,
    bag: &Bag,
    from: usize,
    symbols: &'a Symbols,
) -> Result<Vec<Pair<'a>>, Memory>
    requires named { IsNamedBag (length symbols.now) bag.now }
    requires within { from ≤ length bag.now }
    ensures pairs { IfOk result (λ pairs. seen_pairs pairs.items ≡ by_text (text_in symbols.now) (pairs_of (drop from bag.now))) }
    ensures named { IfOk result (λ pairs. AreNamedPairs (length symbols.now) pairs.items) }
    ensures distinct { IfOk result (λ pairs. from < length bag.now → NoneTwice symbols.now) }
    ensures listed { IsListed bag.now }
{
    let mut pairs = Vec::with_capacity(alloc, bag.len() - from)?;
    for place in from..bag.len() {
        let (attribute, value) = *bag.at(place);
        pairs.push(Pair {
            attribute: symbols.text(attribute),
            value,
        })?;
    }
    Ok(pairs)
}

/// The pairs of a bag from a place on, in byte order of their attributes.
fn ordered_pairs<'a>(
    alloc: Global,
    bag: &Bag,
    from: usize,
    symbols: &'a Symbols,
) -> Result<Vec<Pair<'a>>, Memory>
    requires named { IsNamedBag (length symbols.now) bag.now }
    requires within { from ≤ length bag.now }
    ensures pairs { IfOk result (λ pairs. seen_pairs pairs.items
        ≡ by_text (text_in symbols.now) (in_order (text_in symbols.now) (pairs_of (drop from bag.now)))) }
    ensures named { IfOk result (λ pairs. AreNamedPairs (length symbols.now) pairs.items) }
    ensures distinct { IfOk result (λ pairs. from < length bag.now → NoneTwice symbols.now) }
    ensures listed { IsListed bag.now }
{
    let mut pairs = pairs_from(alloc, bag, from, symbols)?;
    pairs.sort_unstable_by(|first, second| first.attribute.cmp(second.attribute));
    Ok(pairs)
}

/// Appends pairs with commas between them, behind an opening text and before a closing one. Appends
/// nothing where there is no pair.
fn push_pairs(
    draft: &mut Draft,
    opening: &str,
    pairs: &[Pair],
    closing: &str,
    symbols: &Symbols,
) -> Result<(), Memory>
    requires { AreNamedPairs (length symbols.now) pairs.now }
    ensures { OnOk result (Writes draft.old draft.new (pair_values (seen_pairs pairs.now))
        (λ label. enclosed opening.now 44 closing.now (written_pairs (text_in symbols.now) label (seen_pairs pairs.now)))) }
{
    let mut separator = opening;
    for pair in pairs {
        draft.push(separator)?;
        draft.push(pair.attribute)?;
        draft.push("=")?;
        draft.push_value(pair.value, symbols)?;
        separator = ",";
    }
    if !pairs.is_empty() {
        draft.push(closing)?;
    }
    Ok(())
}

/// Appends the pairs of a bag from a place on, in byte order of their attributes, as `push_pairs`
/// does.
pub(crate) fn push_bag(
    alloc: Global,
    draft: &mut Draft,
    bag: &Bag,
    from: usize,
    opening: &str,
    closing: &str,
    symbols: &Symbols,
) -> Result<(), Memory>
    requires named { IsNamedBag (length symbols.now) bag.now }
    requires within { from ≤ length bag.now }
    ensures writes { OnOk result (WritesPairs (text_in symbols.now) opening.now closing.now
        (in_order (text_in symbols.now) (pairs_of (drop from bag.now))) draft.old draft.new) }
    ensures distinct { OnOk result (from < length bag.now → NoneTwice symbols.now) }
    ensures listed { IsListed bag.now }
{
    let pairs = ordered_pairs(alloc, bag, from, symbols)?;
    push_pairs(draft, opening, &pairs, closing, symbols)
}
