//! Reads literals.
ghost use Rattle.std.specs.Prelude.{◌≡◌, ◌||◌, IfOk, OnOk};
ghost use Rattle.gr_grammar.specs.Grammars.{alt, nil};
ghost use Rattle.gr_reader.specs.Classes.{class_of, flat, sees, any_name, variable};
ghost use Rattle.gr_reader.specs.Parts.{Reads};
ghost use Rattle.gr_feats.specs.Grammars.{next_arg_text, next_arg_of, args_text, args_of, perhaps_args_of, colon_text, behind_colon_of, second_of, literal_text, literal_of, next_literal_text, next_literal_of, row_text, row_of, literals_text, literals_of, closed_literals_text, closed_literals_of};
ghost use Rattle.gr_feats.specs.Numberings.{GoesOnFrom};
ghost use Rattle.gr_feats.specs.Passing.{Later, Passes, PassesTexts};
ghost use Rattle.gr_feats.specs.Readings.{InTurn, IsTerm, IsLiteral, AreLiterals};
ghost use Rattle.gr_feats.specs.Sides.{IsSide, IsPerhapsSide, IsHead};
ghost use Rattle.gr_feats.specs.Tables.{PutsNames};

use crate::names::Names;
use crate::terms::{Side, numbered, read_side, term};
use gr_base::{Items, Memory};
use gr_reader::class::Class;
use gr_reader::reader::{Reader, Stop};
use gr_symbols::Symbols;
use gr_terms::{Literal, Literals, Term, Terms};
use std::alloc::Global;

/// Whether a term comes next.
fn sees_term(reader: &Reader<'_>) -> bool
    ensures { result ≡ (sees any_name reader.now || sees variable reader.now) }
{
    reader.sees(Class::AnyName) || reader.sees(Class::Variable)
}

/// Whether a lexeme of the class or a term comes next.
fn sees_or_term(reader: &Reader<'_>, class: Class<'_>) -> bool
    ensures { result ≡ (sees (class_of class.entry) reader.now || (sees any_name reader.now || sees variable reader.now)) }
{
    reader.sees(class) || sees_term(reader)
}

/// An argument behind others. The comma may be left out.
fn next_arg(reader: &mut Reader<'_>, symbols: &mut Symbols, names: &mut Names) -> Result<Term, Stop>
    ensures reads { Reads flat next_arg_text (λ ts rest m x. Later symbols.new (λ texts. IsTerm texts names.old (next_arg_of m) x names.new)) reader.old reader.new result }
    ensures passes { Passes symbols.old symbols.new reader.old reader.new names.old names.new }
    ensures table { OnOk result (PutsNames next_arg_text symbols.old symbols.new reader.old reader.new) }
{
    let _comma = reader.skip(Class::Sign(","));
    let next = term(reader, symbols, names)?;
    Ok(next)
}

/// Arguments.
fn args(
    alloc: Global,
    reader: &mut Reader<'_>,
    symbols: &mut Symbols,
    names: &mut Names,
) -> Result<Terms, Stop>
    ensures reads { Reads flat args_text (λ ts rest m x. Later symbols.new (λ texts. InTurn (IsTerm texts) names.old (args_of m) x names.new)) reader.old reader.new result }
    ensures passes { Passes symbols.old symbols.new reader.old reader.new names.old names.new }
    ensures table { OnOk result (PutsNames args_text symbols.old symbols.new reader.old reader.new) }
{
    let mut row = Items::new(alloc);
    let first = term(reader, symbols, names)?;
    let _first = row.push(first)?;
    'row: while sees_or_term(reader, Class::Sign(",")) {
        let next = next_arg(reader, symbols, names)?;
        let _next = row.push(next)?;
    }
    Ok(row)
}

/// Arguments, or none.
fn perhaps_args(
    alloc: Global,
    reader: &mut Reader<'_>,
    symbols: &mut Symbols,
    names: &mut Names,
) -> Result<Terms, Stop>
    ensures reads { Reads flat (alt args_text nil) (λ ts rest m x. Later symbols.new (λ texts. InTurn (IsTerm texts) names.old (perhaps_args_of m) x names.new)) reader.old reader.new result }
    ensures passes { Passes symbols.old symbols.new reader.old reader.new names.old names.new }
    ensures table { OnOk result (PutsNames (alt args_text nil) symbols.old symbols.new reader.old reader.new) }
{
    if sees_term(reader) {
        let inner = args(alloc, reader, symbols, names)?;
        Ok(inner)
    } else {
        Ok(Items::new(alloc))
    }
}

/// The predicate behind a handle and its colon.
fn behind_colon(reader: &mut Reader<'_>, symbols: &mut Symbols) -> Result<Side, Stop>
    ensures reads { Reads flat colon_text (λ ts rest m x. Later symbols.new (λ texts. IsSide texts (behind_colon_of m) x)) reader.old reader.new result }
    ensures passes { PassesTexts symbols.old symbols.new reader.old reader.new }
    ensures table { OnOk result (PutsNames colon_text symbols.old symbols.new reader.old reader.new) }
{
    let _colon = reader.take(Class::Sign(":"))?;
    let pred = read_side(reader, symbols)?;
    Ok(pred)
}

/// The predicate behind a handle, or none where what was read is the predicate.
fn second(reader: &mut Reader<'_>, symbols: &mut Symbols) -> Result<Option<Side>, Stop>
    ensures reads { Reads flat (alt colon_text nil) (λ ts rest m x. Later symbols.new (λ texts. IsPerhapsSide texts (second_of m) x)) reader.old reader.new result }
    ensures passes { PassesTexts symbols.old symbols.new reader.old reader.new }
    ensures table { OnOk result (PutsNames (alt colon_text nil) symbols.old symbols.new reader.old reader.new) }
{
    if reader.sees(Class::Sign(":")) {
        let pred = behind_colon(reader, symbols)?;
        Ok(Some(pred))
    } else {
        Ok(None)
    }
}

/// The handle and the predicate of a literal. Where there is no second side the handle was left out,
/// and is the next variable.
fn head(names: &mut Names, first: Side, second: Option<Side>) -> Result<(Term, Term), Memory>
    ensures ok { IfOk result (λ x. IsHead names.old first second x names.new) }
    ensures goes_on { GoesOnFrom names.old names.new }
{
    match second {
        None => {
            let own = names.own()?;
            let pred = numbered(names, first)?;
            Ok((Term::Var(own), pred))
        }
        Some(second) => {
            let handle = numbered(names, first)?;
            let pred = numbered(names, second)?;
            Ok((handle, pred))
        }
    }
}

/// A literal.
fn literal(
    alloc: Global,
    reader: &mut Reader<'_>,
    symbols: &mut Symbols,
    names: &mut Names,
) -> Result<Literal, Stop>
    ensures reads { Reads flat literal_text (λ ts rest m x. Later symbols.new (λ texts. IsLiteral texts names.old (literal_of m) x names.new)) reader.old reader.new result }
    ensures passes { Passes symbols.old symbols.new reader.old reader.new names.old names.new }
    ensures table { OnOk result (PutsNames literal_text symbols.old symbols.new reader.old reader.new) }
{
    let first = read_side(reader, symbols)?;
    let second = second(reader, symbols)?;
    let head = head(names, first, second)?;
    let _open = reader.take(Class::Sign("("))?;
    let args = perhaps_args(alloc, reader, symbols, names)?;
    let _close = reader.take(Class::Sign(")"))?;
    Ok(Literal {
        handle: head.0,
        pred: head.1,
        args,
    })
}

/// A literal behind others. The semicolon may be left out.
fn next_literal(
    alloc: Global,
    reader: &mut Reader<'_>,
    symbols: &mut Symbols,
    names: &mut Names,
) -> Result<Literal, Stop>
    ensures reads { Reads flat next_literal_text (λ ts rest m x. Later symbols.new (λ texts. IsLiteral texts names.old (next_literal_of m) x names.new)) reader.old reader.new result }
    ensures passes { Passes symbols.old symbols.new reader.old reader.new names.old names.new }
    ensures table { OnOk result (PutsNames next_literal_text symbols.old symbols.new reader.old reader.new) }
{
    let _semicolon = reader.skip(Class::Sign(";"));
    let next = literal(alloc, reader, symbols, names)?;
    Ok(next)
}

/// At least one literal.
fn row(
    alloc: Global,
    reader: &mut Reader<'_>,
    symbols: &mut Symbols,
    names: &mut Names,
) -> Result<Literals, Stop>
    ensures reads { Reads flat row_text (λ ts rest m x. Later symbols.new (λ texts. AreLiterals texts names.old (row_of m) x names.new)) reader.old reader.new result }
    ensures passes { Passes symbols.old symbols.new reader.old reader.new names.old names.new }
    ensures table { OnOk result (PutsNames row_text symbols.old symbols.new reader.old reader.new) }
{
    let mut row = Items::new(alloc);
    let first = literal(alloc, reader, symbols, names)?;
    let _first = row.push(first)?;
    'row: while sees_or_term(reader, Class::Sign(";")) {
        let next = next_literal(alloc, reader, symbols, names)?;
        let _next = row.push(next)?;
    }
    Ok(row)
}

/// Takes literals, or none. Semicolons between them may be left out.
pub fn literals(
    alloc: Global,
    reader: &mut Reader<'_>,
    symbols: &mut Symbols,
    names: &mut Names,
) -> Result<Literals, Stop>
    ensures reads { Reads flat literals_text (λ ts rest m x. Later symbols.new (λ texts. AreLiterals texts names.old (literals_of m) x names.new)) reader.old reader.new result }
    ensures passes { Passes symbols.old symbols.new reader.old reader.new names.old names.new }
    ensures table { OnOk result (PutsNames literals_text symbols.old symbols.new reader.old reader.new) }
{
    if sees_term(reader) {
        let inner = row(alloc, reader, symbols, names)?;
        Ok(inner)
    } else {
        Ok(Items::new(alloc))
    }
}

/// Takes literals and the brace that closes them.
pub fn closed_literals(
    alloc: Global,
    reader: &mut Reader<'_>,
    symbols: &mut Symbols,
    names: &mut Names,
) -> Result<Literals, Stop>
    ensures reads { Reads flat closed_literals_text (λ ts rest m x. Later symbols.new (λ texts. AreLiterals texts names.old (closed_literals_of m) x names.new)) reader.old reader.new result }
    ensures passes { Passes symbols.old symbols.new reader.old reader.new names.old names.new }
    ensures table { OnOk result (PutsNames closed_literals_text symbols.old symbols.new reader.old reader.new) }
{
    let inner = literals(alloc, reader, symbols, names)?;
    let _close = reader.take(Class::Sign("}"))?;
    Ok(inner)
}
