//! Reads a bag.
ghost use Rattle.std.specs.Prelude.{OnOk};
ghost use Rattle.gr_grammar.specs.Grammars.{alt, nil};
ghost use Rattle.gr_reader.specs.Classes.{flat};
ghost use Rattle.gr_reader.specs.Parts.{Reads};
ghost use Rattle.gr_feats.specs.Grammars.{pair_text, pair_of, next_pair_text, next_pair_of, pairs_text, pairs_of, perhaps_pairs_of, bag_text, bag_of};
ghost use Rattle.gr_feats.specs.Passing.{Later, Passes};
ghost use Rattle.gr_feats.specs.Readings.{IsPair, IsBag};
ghost use Rattle.gr_feats.specs.Tables.{PutsNames};

use crate::gathered::{Gathered, Pair};
use crate::names::Names;
use crate::terms::{number, term};
use gr_reader::class::Class;
use gr_reader::reader::{Reader, Stop};
use gr_symbols::Symbols;
use std::alloc::Global;

/// An attribute and its value.
fn pair(reader: &mut Reader<'_>, symbols: &mut Symbols, names: &mut Names) -> Result<Pair, Stop>
    ensures reads { Reads flat pair_text (λ ts rest m x. Later symbols.new (λ texts. IsPair texts names.old (pair_of m) x names.new)) reader.old reader.new result }
    ensures passes { Passes symbols.old symbols.new reader.old reader.new names.old names.new }
    ensures table { OnOk result (PutsNames pair_text symbols.old symbols.new reader.old reader.new) }
{
    let left = reader.left();
    let attr = number(reader, symbols, Class::AnyWord)?;
    let _equals = reader.take(Class::Sign("="))?;
    let value = term(reader, symbols, names)?;
    Ok(Pair { attr, value, left })
}

/// A pair behind a comma.
fn next_pair(
    reader: &mut Reader<'_>,
    symbols: &mut Symbols,
    names: &mut Names,
) -> Result<Pair, Stop>
    ensures reads { Reads flat next_pair_text (λ ts rest m x. Later symbols.new (λ texts. IsPair texts names.old (next_pair_of m) x names.new)) reader.old reader.new result }
    ensures passes { Passes symbols.old symbols.new reader.old reader.new names.old names.new }
    ensures table { OnOk result (PutsNames next_pair_text symbols.old symbols.new reader.old reader.new) }
{
    let _comma = reader.take(Class::Sign(","))?;
    let next = pair(reader, symbols, names)?;
    Ok(next)
}

/// Pairs with a comma between each two.
fn pairs(
    alloc: Global,
    reader: &mut Reader<'_>,
    symbols: &mut Symbols,
    names: &mut Names,
) -> Result<Gathered, Stop>
    ensures reads { Reads flat pairs_text (λ ts rest m x. Later symbols.new (λ texts. IsBag texts names.old (pairs_of m) x names.new)) reader.old reader.new result }
    ensures passes { Passes symbols.old symbols.new reader.old reader.new names.old names.new }
    ensures table { OnOk result (PutsNames pairs_text symbols.old symbols.new reader.old reader.new) }
{
    let mut gathered = Gathered::new(alloc);
    let first = pair(reader, symbols, names)?;
    let _first = gathered.add(first)?;
    'row: while reader.sees(Class::Sign(",")) {
        let next = next_pair(reader, symbols, names)?;
        let _next = gathered.add(next)?;
    }
    Ok(gathered)
}

/// Pairs, or none.
fn perhaps_pairs(
    alloc: Global,
    reader: &mut Reader<'_>,
    symbols: &mut Symbols,
    names: &mut Names,
) -> Result<Gathered, Stop>
    ensures reads { Reads flat (alt pairs_text nil) (λ ts rest m x. Later symbols.new (λ texts. IsBag texts names.old (perhaps_pairs_of m) x names.new)) reader.old reader.new result }
    ensures passes { Passes symbols.old symbols.new reader.old reader.new names.old names.new }
    ensures table { OnOk result (PutsNames (alt pairs_text nil) symbols.old symbols.new reader.old reader.new) }
{
    if reader.sees(Class::AnyWord) {
        let inner = pairs(alloc, reader, symbols, names)?;
        Ok(inner)
    } else {
        Ok(Gathered::new(alloc))
    }
}

/// Takes a bag: pairs in brackets. Of an attribute that stands twice the first pair is kept.
pub fn bag(
    alloc: Global,
    reader: &mut Reader<'_>,
    symbols: &mut Symbols,
    names: &mut Names,
) -> Result<Gathered, Stop>
    ensures reads { Reads flat bag_text (λ ts rest m x. Later symbols.new (λ texts. IsBag texts names.old (bag_of m) x names.new)) reader.old reader.new result }
    ensures passes { Passes symbols.old symbols.new reader.old reader.new names.old names.new }
    ensures table { OnOk result (PutsNames bag_text symbols.old symbols.new reader.old reader.new) }
{
    let _open = reader.take(Class::Sign("["))?;
    let inner = perhaps_pairs(alloc, reader, symbols, names)?;
    let _close = reader.take(Class::Sign("]"))?;
    Ok(inner)
}
