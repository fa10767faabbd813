//! Reads the parts of an entry.
ghost use Rattle.std.specs.Prelude.{OnOk, codes};
ghost use Rattle.gr_grammar.specs.Grammars.{tok, alt, star, nil};
ghost use Rattle.gr_reader.specs.Classes.{flat, any_name};
ghost use Rattle.gr_reader.specs.Parts.{Reads};
ghost use Rattle.gr_feats.specs.Passing.{Later, Passes, PassesTexts};
ghost use Rattle.gr_feats.specs.Readings.{IsBag, AreLiterals};
ghost use Rattle.gr_feats.specs.Tables.{PutsNames};
ghost use Rattle.lx_lexicon.specs.Grammars.{name_of, coanchor_text, coanchor_of, coanchors_of, word_bag_text, word_bag_of, perhaps_bag_of, sem_text, sem_of, perhaps_sem_of, head_text, head_of, body_text, body_of, entry_text, entry_of};
ghost use Rattle.lx_lexicon.specs.Reading.{IsNamed, IsCoanchor, AreCoanchors, IsHead, IsBody, IsFound};

use crate::found::{Body, Coanchor, Found, Head, Named};
use gr_base::Items;
use gr_feats::Names;
use gr_feats::bags::bag;
use gr_feats::gathered::Gathered;
use gr_feats::literals::closed_literals;
use gr_feats::terms::number;
use gr_reader::class::Class;
use gr_reader::reader::{Reader, Stop};
use gr_symbols::Symbols;
use gr_terms::Literals;
use std::alloc::Global;

/// A name with its place.
fn named(reader: &mut Reader<'_>, symbols: &mut Symbols) -> Result<Named, Stop>
    ensures reads { Reads flat (tok any_name) (λ ts rest m x. Later symbols.new (λ texts. IsNamed texts (name_of m) x)) reader.old reader.new result }
    ensures passes { PassesTexts symbols.old symbols.new reader.old reader.new }
    ensures table { OnOk result (PutsNames (tok any_name) symbols.old symbols.new reader.old reader.new) }
{
    let left = reader.left();
    let name = number(reader, symbols, Class::AnyName)?;
    Ok(Named { name, left })
}

/// A co-anchor.
fn coanchor(reader: &mut Reader<'_>, symbols: &mut Symbols) -> Result<Coanchor, Stop>
    ensures reads { Reads flat coanchor_text (λ ts rest m x. Later symbols.new (λ texts. IsCoanchor texts (coanchor_of m) x)) reader.old reader.new result }
    ensures passes { PassesTexts symbols.old symbols.new reader.old reader.new }
    ensures table { OnOk result (PutsNames coanchor_text symbols.old symbols.new reader.old reader.new) }
{
    let _word = reader.take(Class::Keyword("coanchor"))?;
    let name = named(reader, symbols)?;
    let _equals = reader.take(Class::Sign("="))?;
    let lemma = named(reader, symbols)?;
    Ok(Coanchor { name, lemma })
}

/// Co-anchors, or none.
fn coanchors(
    alloc: Global,
    reader: &mut Reader<'_>,
    symbols: &mut Symbols,
) -> Result<Items<Coanchor>, Stop>
    ensures reads { Reads flat (star coanchor_text) (λ ts rest m x. Later symbols.new (λ texts. AreCoanchors texts (coanchors_of m) x)) reader.old reader.new result }
    ensures passes { PassesTexts symbols.old symbols.new reader.old reader.new }
    ensures table { OnOk result (PutsNames (star coanchor_text) symbols.old symbols.new reader.old reader.new) }
{
    let mut row = Items::new(alloc);
    'row: while reader.sees(Class::Keyword("coanchor")) {
        let next = coanchor(reader, symbols)?;
        let _next = row.push(next)?;
    }
    Ok(row)
}

/// A bag behind a word.
fn word_bag(
    alloc: Global,
    reader: &mut Reader<'_>,
    symbols: &mut Symbols,
    names: &mut Names,
    word: &str,
) -> Result<Gathered, Stop>
    ensures reads { Reads flat (word_bag_text word.now) (λ ts rest m x. Later symbols.new (λ texts. IsBag texts names.old (word_bag_of m) x names.new)) reader.old reader.new result }
    ensures passes { Passes symbols.old symbols.new reader.old reader.new names.old names.new }
    ensures table { OnOk result (PutsNames (word_bag_text word.now) symbols.old symbols.new reader.old reader.new) }
{
    let _word = reader.take(Class::Keyword(word))?;
    let inner = bag(alloc, reader, symbols, names)?;
    Ok(inner)
}

/// A bag behind a word, or none.
fn perhaps_bag(
    alloc: Global,
    reader: &mut Reader<'_>,
    symbols: &mut Symbols,
    names: &mut Names,
    word: &str,
) -> Result<Gathered, Stop>
    ensures reads { Reads flat (alt (word_bag_text word.now) nil) (λ ts rest m x. Later symbols.new (λ texts. IsBag texts names.old (perhaps_bag_of m) x names.new)) reader.old reader.new result }
    ensures passes { Passes symbols.old symbols.new reader.old reader.new names.old names.new }
    ensures table { OnOk result (PutsNames (alt (word_bag_text word.now) nil) symbols.old symbols.new reader.old reader.new) }
{
    if reader.sees(Class::Keyword(word)) {
        let inner = word_bag(alloc, reader, symbols, names, word)?;
        Ok(inner)
    } else {
        Ok(Gathered::new(alloc))
    }
}

/// Literals in braces behind the word `sem`.
fn sem(
    alloc: Global,
    reader: &mut Reader<'_>,
    symbols: &mut Symbols,
    names: &mut Names,
) -> Result<Literals, Stop>
    ensures reads { Reads flat sem_text (λ ts rest m x. Later symbols.new (λ texts. AreLiterals texts names.old (sem_of m) x names.new)) reader.old reader.new result }
    ensures passes { Passes symbols.old symbols.new reader.old reader.new names.old names.new }
    ensures table { OnOk result (PutsNames sem_text symbols.old symbols.new reader.old reader.new) }
{
    let _word = reader.take(Class::Keyword("sem"))?;
    let _open = reader.take(Class::Sign("{"))?;
    let inner = closed_literals(alloc, reader, symbols, names)?;
    Ok(inner)
}

/// Literals in braces behind the word `sem`, or none.
fn perhaps_sem(
    alloc: Global,
    reader: &mut Reader<'_>,
    symbols: &mut Symbols,
    names: &mut Names,
) -> Result<Literals, Stop>
    ensures reads { Reads flat (alt sem_text nil) (λ ts rest m x. Later symbols.new (λ texts. AreLiterals texts names.old (perhaps_sem_of m) x names.new)) reader.old reader.new result }
    ensures passes { Passes symbols.old symbols.new reader.old reader.new names.old names.new }
    ensures table { OnOk result (PutsNames (alt sem_text nil) symbols.old symbols.new reader.old reader.new) }
{
    if reader.sees(Class::Keyword("sem")) {
        let inner = sem(alloc, reader, symbols, names)?;
        Ok(inner)
    } else {
        Ok(Items::new(alloc))
    }
}

/// The word `entry`, a lemma and a family.
fn head(reader: &mut Reader<'_>, symbols: &mut Symbols) -> Result<Head, Stop>
    ensures reads { Reads flat head_text (λ ts rest m x. Later symbols.new (λ texts. IsHead texts (head_of m) x)) reader.old reader.new result }
    ensures passes { PassesTexts symbols.old symbols.new reader.old reader.new }
    ensures table { OnOk result (PutsNames head_text symbols.old symbols.new reader.old reader.new) }
{
    let left = reader.left();
    let _word = reader.take(Class::Keyword("entry"))?;
    let lemma = named(reader, symbols)?;
    let family = number(reader, symbols, Class::AnyWord)?;
    Ok(Head {
        left,
        lemma,
        family,
    })
}

/// What stands between the braces of an entry. Its variables are its own.
fn body(alloc: Global, reader: &mut Reader<'_>, symbols: &mut Symbols) -> Result<Body, Stop>
    ensures reads { Reads flat body_text (λ ts rest m x. Later symbols.new (λ texts. IsBody texts (body_of m) x)) reader.old reader.new result }
    ensures passes { PassesTexts symbols.old symbols.new reader.old reader.new }
    ensures table { OnOk result (PutsNames body_text symbols.old symbols.new reader.old reader.new) }
{
    let mut names = Names::new(alloc);
    let iface = perhaps_bag(alloc, reader, symbols, &mut names, "iface")?;
    let anchor = perhaps_bag(alloc, reader, symbols, &mut names, "anchor")?;
    let coanchors = coanchors(alloc, reader, symbols)?;
    let sem = perhaps_sem(alloc, reader, symbols, &mut names)?;
    Ok(Body {
        iface,
        anchor,
        coanchors,
        sem,
    })
}

/// An entry.
pub fn entry(alloc: Global, reader: &mut Reader<'_>, symbols: &mut Symbols) -> Result<Found, Stop>
    ensures reads { Reads flat entry_text (λ ts rest m x. Later symbols.new (λ texts. IsFound texts (entry_of m) x)) reader.old reader.new result }
    ensures passes { PassesTexts symbols.old symbols.new reader.old reader.new }
    ensures table { OnOk result (PutsNames entry_text symbols.old symbols.new reader.old reader.new) }
{
    let head = head(reader, symbols)?;
    let _open = reader.take(Class::Sign("{"))?;
    let body = body(alloc, reader, symbols)?;
    let _close = reader.take(Class::Sign("}"))?;
    Ok(Found { head, body })
}
