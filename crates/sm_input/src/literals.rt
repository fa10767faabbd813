//! Reads the literals of an input as they are written.
ghost use Rattle.std.specs.Prelude.{◌≡◌, ◌+◌, ◌≤◌, ◌||◌, length, IfOk, OnOk};
ghost use Rattle.std.specs.List.{AllZip};
ghost use Rattle.gr_grammar.specs.Grammars.{alt, nil};
ghost use Rattle.gr_reader.specs.Classes.{class_of, flat, sees, any_name, variable};
ghost use Rattle.gr_reader.specs.Parts.{Reads};
ghost use Rattle.gr_feats.specs.Grammars.{term_text, term_of, next_arg_text, next_arg_of, args_text, args_of, perhaps_args_of, colon_text, behind_colon_of, second_of, literal_text, literal_of, next_literal_text, next_literal_of, row_text, row_of, literals_text, literals_of, closed_literals_text, closed_literals_of};
ghost use Rattle.gr_feats.specs.Passing.{Later, PassesTexts};
ghost use Rattle.gr_feats.specs.Sides.{IsSide, IsPerhapsSide};
ghost use Rattle.gr_feats.specs.Tables.{PutsNames};
ghost use Rattle.sm_input.specs.Reading.{Apart, IsRawTerm, IsRawLiteral, AreKept, raw_term, raw_literal};

use crate::kept::keep;
use crate::raw::RawLiteral;
use gr_base::Items;
use gr_feats::terms::{Side, read_side};
use gr_reader::class::Class;
use gr_reader::reader::{Reader, Stop};
use gr_symbols::Symbols;
use gr_terms::{Term, Terms};
use std::alloc::Global;

/// The term of a side.
fn raw_term(side: Side) -> Term
    ensures { result ≡ raw_term side }
{
    match side {
        Side::Name(name) => Term::Const(name),
        Side::Variable(name) => Term::Var(name.0),
    }
}

/// The literal of one side or two.
fn raw_literal(first: Side, second: Option<Side>, args: Terms) -> RawLiteral
    ensures { result ≡ raw_literal first second args }
{
    match second {
        None => RawLiteral {
            handle: None,
            pred: raw_term(first),
            args,
        },
        Some(second) => RawLiteral {
            handle: Some(raw_term(first)),
            pred: raw_term(second),
            args,
        },
    }
}

/// Whether a term comes next.
fn sees_term(reader: &Reader<'_>) -> bool
    ensures { result ≡ (sees any_name reader.now || sees variable reader.now) }
{
    reader.sees(Class::AnyName) || reader.sees(Class::Variable)
}

/// Whether a lexeme of the class or a term comes next.
fn sees_or_term(reader: &Reader<'_>, class: Class<'_>) -> bool
    ensures { result ≡ (sees (class_of class.entry) reader.now || (sees any_name reader.now || sees variable reader.now)) }
{
    reader.sees(class) || sees_term(reader)
}

/// A name or a variable.
fn term(reader: &mut Reader<'_>, symbols: &mut Symbols) -> Result<Term, Stop>
    ensures reads { Reads flat term_text (λ ts rest m x. Later symbols.new (λ texts. IsRawTerm texts (term_of m) x)) reader.old reader.new result }
    ensures passes { PassesTexts symbols.old symbols.new reader.old reader.new }
    ensures table { OnOk result (PutsNames term_text symbols.old symbols.new reader.old reader.new) }
{
    let side = read_side(reader, symbols)?;
    Ok(raw_term(side))
}

/// An argument behind others. The comma may be left out.
fn next_arg(reader: &mut Reader<'_>, symbols: &mut Symbols) -> Result<Term, Stop>
    ensures reads { Reads flat next_arg_text (λ ts rest m x. Later symbols.new (λ texts. IsRawTerm texts (next_arg_of m) x)) reader.old reader.new result }
    ensures passes { PassesTexts symbols.old symbols.new reader.old reader.new }
    ensures table { OnOk result (PutsNames next_arg_text symbols.old symbols.new reader.old reader.new) }
{
    let _comma = reader.skip(Class::Sign(","));
    let next = term(reader, symbols)?;
    Ok(next)
}

/// Arguments.
fn args(alloc: Global, reader: &mut Reader<'_>, symbols: &mut Symbols) -> Result<Terms, Stop>
    ensures reads { Reads flat args_text (λ ts rest m x. Later symbols.new (λ texts. AllZip (IsRawTerm texts) (args_of m) x)) reader.old reader.new result }
    ensures passes { PassesTexts symbols.old symbols.new reader.old reader.new }
    ensures table { OnOk result (PutsNames args_text symbols.old symbols.new reader.old reader.new) }
{
    let mut row = Items::new(alloc);
    let first = term(reader, symbols)?;
    let _first = row.push(first)?;
    'row: while sees_or_term(reader, Class::Sign(",")) {
        let next = next_arg(reader, symbols)?;
        let _next = row.push(next)?;
    }
    Ok(row)
}

/// Arguments, or none.
fn perhaps_args(
    alloc: Global,
    reader: &mut Reader<'_>,
    symbols: &mut Symbols,
) -> Result<Terms, Stop>
    ensures reads { Reads flat (alt args_text nil) (λ ts rest m x. Later symbols.new (λ texts. AllZip (IsRawTerm texts) (perhaps_args_of m) x)) reader.old reader.new result }
    ensures passes { PassesTexts symbols.old symbols.new reader.old reader.new }
    ensures table { OnOk result (PutsNames (alt args_text nil) symbols.old symbols.new reader.old reader.new) }
{
    if sees_term(reader) {
        let inner = args(alloc, reader, symbols)?;
        Ok(inner)
    } else {
        Ok(Items::new(alloc))
    }
}

/// The predicate behind a handle and its colon.
fn behind_colon(reader: &mut Reader<'_>, symbols: &mut Symbols) -> Result<Side, Stop>
    ensures reads { Reads flat colon_text (λ ts rest m x. Later symbols.new (λ texts. IsSide texts (behind_colon_of m) x)) reader.old reader.new result }
    ensures passes { PassesTexts symbols.old symbols.new reader.old reader.new }
    ensures table { OnOk result (PutsNames colon_text symbols.old symbols.new reader.old reader.new) }
{
    let _colon = reader.take(Class::Sign(":"))?;
    let pred = read_side(reader, symbols)?;
    Ok(pred)
}

/// The predicate behind a handle, or none where what was read is the predicate.
fn second(reader: &mut Reader<'_>, symbols: &mut Symbols) -> Result<Option<Side>, Stop>
    ensures reads { Reads flat (alt colon_text nil) (λ ts rest m x. Later symbols.new (λ texts. IsPerhapsSide texts (second_of m) x)) reader.old reader.new result }
    ensures passes { PassesTexts symbols.old symbols.new reader.old reader.new }
    ensures table { OnOk result (PutsNames (alt colon_text nil) symbols.old symbols.new reader.old reader.new) }
{
    if reader.sees(Class::Sign(":")) {
        let pred = behind_colon(reader, symbols)?;
        Ok(Some(pred))
    } else {
        Ok(None)
    }
}

/// A literal. Its brackets have no number, so that there is room for a name of its own.
fn literal(
    alloc: Global,
    reader: &mut Reader<'_>,
    symbols: &mut Symbols,
) -> Result<RawLiteral, Stop>
    ensures reads { Reads flat literal_text (λ ts rest m x. Later symbols.new (λ texts. IsRawLiteral texts (literal_of m) x)) reader.old reader.new result }
    ensures passes { PassesTexts symbols.old symbols.new reader.old reader.new }
    ensures table { OnOk result (PutsNames literal_text symbols.old symbols.new reader.old reader.new) }
    ensures spare { IfOk result (λ x. length symbols.new + length reader.new + 1 ≤ length symbols.old + length reader.old) }
{
    let first = read_side(reader, symbols)?;
    let second = second(reader, symbols)?;
    let _open = reader.take(Class::Sign("("))?;
    let args = perhaps_args(alloc, reader, symbols)?;
    let _close = reader.take(Class::Sign(")"))?;
    Ok(raw_literal(first, second, args))
}

/// A literal behind others. The semicolon may be left out.
fn next_literal(
    alloc: Global,
    reader: &mut Reader<'_>,
    symbols: &mut Symbols,
) -> Result<RawLiteral, Stop>
    ensures reads { Reads flat next_literal_text (λ ts rest m x. Later symbols.new (λ texts. IsRawLiteral texts (next_literal_of m) x)) reader.old reader.new result }
    ensures passes { PassesTexts symbols.old symbols.new reader.old reader.new }
    ensures table { OnOk result (PutsNames next_literal_text symbols.old symbols.new reader.old reader.new) }
    ensures spare { IfOk result (λ x. length symbols.new + length reader.new + 1 ≤ length symbols.old + length reader.old) }
{
    let _semicolon = reader.skip(Class::Sign(";"));
    let next = literal(alloc, reader, symbols)?;
    Ok(next)
}

/// At least one literal. Each is kept once.
fn row(
    alloc: Global,
    reader: &mut Reader<'_>,
    symbols: &mut Symbols,
) -> Result<Vec<RawLiteral>, Stop>
    ensures reads { Reads flat row_text (λ ts rest m x. Apart symbols.new (λ texts. AreKept texts (row_of m) x.items)) reader.old reader.new result }
    ensures passes { PassesTexts symbols.old symbols.new reader.old reader.new }
    ensures table { OnOk result (PutsNames row_text symbols.old symbols.new reader.old reader.new) }
    ensures spare { IfOk result (λ x. length symbols.new + length reader.new + length x.items ≤ length symbols.old + length reader.old) }
{
    let mut row = Vec::new(alloc);
    let first = literal(alloc, reader, symbols)?;
    let _first = keep(&mut row, first)?;
    'row: while sees_or_term(reader, Class::Sign(";")) {
        let next = next_literal(alloc, reader, symbols)?;
        let _next = keep(&mut row, next)?;
    }
    Ok(row)
}

/// Literals, or none.
fn literals(
    alloc: Global,
    reader: &mut Reader<'_>,
    symbols: &mut Symbols,
) -> Result<Vec<RawLiteral>, Stop>
    ensures reads { Reads flat literals_text (λ ts rest m x. Apart symbols.new (λ texts. AreKept texts (literals_of m) x.items)) reader.old reader.new result }
    ensures passes { PassesTexts symbols.old symbols.new reader.old reader.new }
    ensures table { OnOk result (PutsNames literals_text symbols.old symbols.new reader.old reader.new) }
    ensures spare { IfOk result (λ x. length symbols.new + length reader.new + length x.items ≤ length symbols.old + length reader.old) }
{
    if sees_term(reader) {
        let inner = row(alloc, reader, symbols)?;
        Ok(inner)
    } else {
        Ok(Vec::new(alloc))
    }
}

/// The literals of an input and the brace that closes them. Each is kept once, and at most one more
/// than an input may have.
pub fn closed_literals(
    alloc: Global,
    reader: &mut Reader<'_>,
    symbols: &mut Symbols,
) -> Result<Vec<RawLiteral>, Stop>
    ensures reads { Reads flat closed_literals_text (λ ts rest m x. Apart symbols.new (λ texts. AreKept texts (closed_literals_of m) x.items)) reader.old reader.new result }
    ensures passes { PassesTexts symbols.old symbols.new reader.old reader.new }
    ensures table { OnOk result (PutsNames closed_literals_text symbols.old symbols.new reader.old reader.new) }
    ensures spare { IfOk result (λ x. length symbols.new + length reader.new + length x.items ≤ length symbols.old + length reader.old) }
{
    let inner = literals(alloc, reader, symbols)?;
    let _close = reader.take(Class::Sign("}"))?;
    Ok(inner)
}
