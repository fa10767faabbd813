//! Reads inputs.
ghost use Rattle.std.specs.Prelude.{◌≡◌, ◌+◌, ◌≤◌, [], ◌∷◌, ◌++◌, length, IfOk, OnOk};
ghost use Rattle.std.specs.List.{AllZip};
ghost use Rattle.gr_reader.specs.Classes.{flat};
ghost use Rattle.gr_reader.specs.Complaints.{all_noted};
ghost use Rattle.gr_reader.specs.Parts.{Reads};
ghost use Rattle.gr_symbols.specs.Numbers.{Grows, Names as Numbered, with_text, with_texts};
ghost use Rattle.gr_feats.specs.Grammars.{bag_text, bag_of};
ghost use Rattle.gr_feats.specs.Passing.{Later, PassesTexts};
ghost use Rattle.gr_feats.specs.Tables.{PutsNames};
ghost use Rattle.sm_input.specs.Complaints.{input_bad, inputs_bad};
ghost use Rattle.sm_input.specs.Grammars.{input_text, input_of, inputs_text, inputs_of, perhaps_bag_text, perhaps_bag_of};
ghost use Rattle.sm_input.specs.Inputs.{IsInput, own_name};
ghost use Rattle.sm_input.specs.Reading.{Apart, AreFaultless, HasHandle, IsFaultless, IsNamedInput, IsNamedLiteral, AreNamed, IsRawInput, IsStart, PutsInput, PutsInputs, raw_bad, raw_own_names};
ghost use Rattle.sm_input.specs.Tables.{own_if};

use crate::input::{INPUT_LIMIT, Input, LITERAL_LIMIT};
use crate::literals::closed_literals;
use crate::raw::{RawInput, RawLiteral};
use gr_base::{Items, Memory};
use gr_feats::Names;
use gr_feats::bags::bag;
use gr_feats::gathered::Gathered;
use gr_feats::terms::number;
use gr_reader::class::Class;
use gr_reader::complaints::{Complaint, Complaints, Fault};
use gr_reader::reader::{Reader, Stop};
use gr_symbols::Symbols;
use gr_terms::{Literal, Literals, Sym, Term};
use itoa::Buffer;
use std::alloc::Global;

/// The start features. Their variables are met here alone.
fn start_bag(
    alloc: Global,
    reader: &mut Reader<'_>,
    symbols: &mut Symbols,
) -> Result<Gathered, Stop>
    ensures reads { Reads flat bag_text (λ ts rest m x. Later symbols.new (λ texts. IsStart texts (bag_of m) x)) reader.old reader.new result }
    ensures passes { PassesTexts symbols.old symbols.new reader.old reader.new }
    ensures table { OnOk result (PutsNames bag_text symbols.old symbols.new reader.old reader.new) }
{
    let mut names = Names::new(alloc);
    let inner = bag(alloc, reader, symbols, &mut names)?;
    Ok(inner)
}

/// The start features, or none.
fn perhaps_bag(
    alloc: Global,
    reader: &mut Reader<'_>,
    symbols: &mut Symbols,
) -> Result<Gathered, Stop>
    ensures reads { Reads flat perhaps_bag_text (λ ts rest m x. Later symbols.new (λ texts. IsStart texts (perhaps_bag_of m) x)) reader.old reader.new result }
    ensures passes { PassesTexts symbols.old symbols.new reader.old reader.new }
    ensures table { OnOk result (PutsNames perhaps_bag_text symbols.old symbols.new reader.old reader.new) }
{
    if reader.sees(Class::Sign("[")) {
        let inner = start_bag(alloc, reader, symbols)?;
        Ok(inner)
    } else {
        Ok(Gathered::new(alloc))
    }
}

/// An input as it is written.
fn raw_input(
    alloc: Global,
    reader: &mut Reader<'_>,
    symbols: &mut Symbols,
) -> Result<RawInput, Stop>
    ensures reads { Reads flat input_text (λ ts rest m x. Apart symbols.new (λ texts. IsRawInput texts (input_of m) x)) reader.old reader.new result }
    ensures passes { PassesTexts symbols.old symbols.new reader.old reader.new }
    ensures table { OnOk result (PutsNames input_text symbols.old symbols.new reader.old reader.new) }
    ensures spare { IfOk result (λ x. length symbols.new + length reader.new + length x.literals.items ≤ length symbols.old + length reader.old) }
{
    let left = reader.left();
    let _word = reader.take(Class::Keyword("input"))?;
    let name = number(reader, symbols, Class::AnyWord)?;
    let start = perhaps_bag(alloc, reader, symbols)?;
    let _open = reader.take(Class::Sign("{"))?;
    let literals = closed_literals(alloc, reader, symbols)?;
    Ok(RawInput {
        left,
        name,
        start,
        literals,
    })
}

/// Notes what is wrong with an input, where so many stand before it.
fn complain(complaints: &mut Complaints, number: usize, input: &RawInput)
    ensures { complaints.new ≡ all_noted complaints.old (raw_bad number input.now) }
{
    let left = input.left;
    if input.literals.len() > LITERAL_LIMIT {
        let fault = Fault::InputLiterals;
        complaints.note(Complaint { fault, left });
    }
    if number == INPUT_LIMIT {
        let fault = Fault::TooManyInputs;
        complaints.note(Complaint { fault, left });
    }
    if let Some(left) = input.start.again {
        let fault = Fault::Duplicate;
        complaints.note(Complaint { fault, left });
    }
}

/// The name of its own that a handle has which was left out at the literal with this number: a line
/// feed and the number.
fn own_handle(alloc: Global, number: usize, symbols: &mut Symbols) -> Result<Sym, Memory>
    ensures named { IfOk result (λ sym. Numbered symbols.new sym.0 (own_name number)) }
    ensures grows { Grows symbols.old symbols.new }
    ensures few { length symbols.new ≤ length symbols.old + 1 }
    ensures table { OnOk result (symbols.new ≡ with_text symbols.old (own_name number)) }
{
    let mut text = String::new(alloc);
    text.push_str("\n")?;
    text.push_str(Buffer::new().format(number))?;
    symbols.intern(text.as_str())
}

/// The literal with this number, with its handle.
fn named_literal(
    alloc: Global,
    raw: RawLiteral,
    number: usize,
    symbols: &mut Symbols,
) -> Result<Literal, Memory>
    ensures named { IfOk result (λ x. IsNamedLiteral symbols.new number raw x) }
    ensures grows { Grows symbols.old symbols.new }
    ensures few { length symbols.new ≤ length symbols.old + 1 }
    ensures table { OnOk result (symbols.new ≡ with_texts symbols.old (own_if number raw.handle)) }
{
    let handle = match raw.handle {
        Some(handle) => handle,
        None => Term::Const(own_handle(alloc, number, symbols)?),
    };
    Ok(Literal {
        handle,
        pred: raw.pred,
        args: raw.args,
    })
}

/// The literals with their handles, numbered from 1.
fn named_literals(
    alloc: Global,
    row: Vec<RawLiteral>,
    symbols: &mut Symbols,
) -> Result<Literals, Memory>
    ensures named { IfOk result (λ xs. AreNamed symbols.new 1 row.items xs) }
    ensures grows { Grows symbols.old symbols.new }
    ensures few { length symbols.new ≤ length symbols.old + length row.items }
    ensures table { OnOk result (symbols.new ≡ with_texts symbols.old (raw_own_names 1 row.items)) }
{
    let mut literals = Items::new(alloc);
    'rows: for raw in row {
        let number = literals.len() + 1;
        let literal = named_literal(alloc, raw, number, symbols)?;
        let _pushed = literals.push(literal)?;
    }
    Ok(literals)
}

/// The input that is written so.
fn named_input(alloc: Global, raw: RawInput, symbols: &mut Symbols) -> Result<Input, Memory>
    ensures named { IfOk result (λ i. IsNamedInput symbols.new raw i) }
    ensures grows { Grows symbols.old symbols.new }
    ensures few { length symbols.new ≤ length symbols.old + length raw.literals.items }
    ensures table { OnOk result (symbols.new ≡ with_texts symbols.old (raw_own_names 1 raw.literals.items)) }
{
    let literals = named_literals(alloc, raw.literals, symbols)?;
    Ok(Input {
        name: raw.name,
        start: raw.start.bag,
        literals,
    })
}

/// An input, where so many stand before it. What is wrong with it is noted.
fn input(
    alloc: Global,
    reader: &mut Reader<'_>,
    symbols: &mut Symbols,
    complaints: &mut Complaints,
    number: usize,
) -> Result<Input, Stop>
    ensures reads { Reads flat input_text (λ ts rest m x. Apart symbols.new (λ texts. (complaints.new ≡ all_noted complaints.old (input_bad number (input_of m))) × (IsFaultless (input_of m) → IsInput texts (input_of m) x))) reader.old reader.new result }
    ensures passes { PassesTexts symbols.old symbols.new reader.old reader.new }
    ensures table { OnOk result (Apart symbols.new (λ texts. PutsInput symbols.old symbols.new reader.old reader.new)) }
{
    let raw = raw_input(alloc, reader, symbols)?;
    complain(complaints, number, &raw);
    let input = named_input(alloc, raw, symbols)?;
    Ok(input)
}

/// Appends an input.
fn push(row: &mut Vec<Input>, input: Input) -> Result<(), Memory>
    ensures { OnOk result (row.new.items ≡ row.old.items ++ input ∷ []) }
{
    row.push(input)?;
    Ok(())
}

/// All inputs. What is wrong with them is noted.
pub fn inputs(
    alloc: Global,
    reader: &mut Reader<'_>,
    symbols: &mut Symbols,
    complaints: &mut Complaints,
) -> Result<Vec<Input>, Stop>
    ensures reads { Reads flat inputs_text (λ ts rest m x. Apart symbols.new (λ texts. (complaints.new ≡ all_noted complaints.old (inputs_bad 0 (inputs_of m))) × AreFaultless texts (inputs_of m) x.items)) reader.old reader.new result }
    ensures passes { PassesTexts symbols.old symbols.new reader.old reader.new }
    ensures table { OnOk result (Apart symbols.new (λ texts. PutsInputs symbols.old symbols.new reader.old reader.new)) }
{
    let mut row = Vec::new(alloc);
    'row: while reader.sees(Class::Keyword("input")) {
        let next = input(alloc, reader, symbols, complaints, row.as_slice().len())?;
        let _next = push(&mut row, next)?;
    }
    Ok(row)
}
