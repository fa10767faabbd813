//! Writes the line of a refusal.
ghost use Rattle.std.specs.Prelude.{◌≡◌, ◌++◌, List, ℕ, [], ◌∷◌, map, OnOk, string_bytes};
ghost use Rattle.gr_base.specs.Lists.{Each};
ghost use Rattle.rl_refusals.specs.Lines.{HasPartText, HasTexts, HasVariableText, IsRefusalLine, IsVariableText, name_part, number, parts_of, word};
ghost use Rattle.rl_refusals.specs.Roles.{role_text};
ghost use Rattle.rl_refusals.specs.Parts.{Says, part_of};

use crate::refusal::{Refusal, Role};
use gr_base::Memory;
use gr_symbols::Symbols;
use gr_terms::Sym;
use gr_text::{Place, push_name};
use itoa::Buffer;
use mg_syntax::Ref;

/// What stands in a line behind its first word.
#[derive(Clone, Copy)]
enum Part {
    Number(usize),
    Word(Role),
    Name(Sym),
    Variable(Ref),
}

/// Appends a variable, with the one that it is read behind.
fn push_variable(out: &mut String, variable: Ref, symbols: &Symbols) -> Result<(), Memory>
    requires { HasVariableText symbols.now variable }
    ensures { OnOk result ((bytes : List ℕ) × IsVariableText symbols.now variable bytes × (string_bytes out.new ≡ string_bytes out.old ++ bytes)) }
{
    out.push_str("?")?;
    match variable.of {
        None => Ok(out.push_str(symbols.text(variable.name))?),
        Some(of) => {
            out.push_str(symbols.text(of))?;
            out.push_str(".?")?;
            Ok(out.push_str(symbols.text(variable.name))?)
        }
    }
}

/// Appends a space and a part.
fn push_part(out: &mut String, part: &Part, symbols: &Symbols) -> Result<(), Memory>
    requires { HasPartText symbols.now (part_of part.now) }
    ensures { OnOk result (Says symbols.now (part_of part.now ∷ []) (string_bytes out.old) (string_bytes out.new)) }
{
    out.push_str(" ")?;
    match *part {
        Part::Number(number) => out.push_str(Buffer::new().format(number))?,
        Part::Word(role) => out.push_str(role.word())?,
        Part::Name(name) => push_name(out, symbols.text(name))?,
        Part::Variable(variable) => push_variable(out, variable, symbols)?,
    }
    Ok(())
}

/// Appends parts, each behind a space.
fn push_parts(out: &mut String, parts: &[Part], symbols: &Symbols) -> Result<(), Memory>
    requires { Each (HasPartText symbols.now) (map part_of parts.now) }
    ensures { OnOk result (Says symbols.now (map part_of parts.now) (string_bytes out.old) (string_bytes out.new)) }
{
    match parts {
        [] => Ok(()),
        [part, rest @ ..] => {
            push_part(out, part, symbols)?;
            push_parts(out, rest, symbols)?;
            Ok(())
        }
    }
}

/// Appends names, each behind a space.
fn push_names(out: &mut String, names: &[Sym], symbols: &Symbols) -> Result<(), Memory>
    requires { Each (HasPartText symbols.now) (map name_part names.now) }
    ensures { OnOk result (Says symbols.now (map name_part names.now) (string_bytes out.old) (string_bytes out.new)) }
{
    for at in 0..names.len() {
        let name = &names[at];
        push_part(out, &Part::Name(*name), symbols)?;
    }
    Ok(())
}

/// The parts of a place in a file.
fn at_place(code: usize, role: Role, place: Place) -> [Part; 4]
    ensures { map part_of result ≡ number code ∷ word (role_text role) ∷ number place.line ∷ number place.column ∷ [] }
{
    [
        Part::Number(code),
        Part::Word(role),
        Part::Number(place.line as usize),
        Part::Number(place.column as usize),
    ]
}

/// Appends the code and the parts of a refusal.
fn push_refusal(out: &mut String, refusal: &Refusal, symbols: &Symbols) -> Result<(), Memory>
    requires { HasTexts symbols.now refusal.now }
    ensures { OnOk result (Says symbols.now (parts_of refusal.now) (string_bytes out.old) (string_bytes out.new)) }
{
    use Part::{Name, Number, Variable, Word};
    match refusal {
        Refusal::Syntax(role, place) => push_parts(out, &at_place(10, *role, *place), symbols),
        Refusal::NotUtf8(role, offset) => {
            push_parts(out, &[Number(11), Word(*role), Number(*offset)], symbols)
        }
        Refusal::TooLong(role) => push_parts(out, &[Number(12), Word(*role)], symbols),
        Refusal::UnknownClass(class) => push_parts(out, &[Number(13), Name(*class)], symbols),
        Refusal::ClassCycle(classes) => {
            push_part(out, &Number(14), symbols)?;
            push_names(out, classes.as_slice(), symbols)
        }
        Refusal::DuplicateClass(class) => push_parts(out, &[Number(15), Name(*class)], symbols),
        Refusal::UndeclaredVariable(class, variable) => {
            push_parts(
                out,
                &[Number(16), Name(*class), Variable(*variable)],
                symbols,
            )
        }
        Refusal::NotExported(class, variable) => {
            push_parts(
                out,
                &[Number(17), Name(*class), Variable(*variable)],
                symbols,
            )
        }
        Refusal::DuplicateAttribute(role, place) => {
            push_parts(out, &at_place(18, *role, *place), symbols)
        }
        Refusal::TooManyNodes(class) => push_parts(out, &[Number(20), Name(*class)], symbols),
        Refusal::TooManyClasses(role) => push_parts(out, &[Number(21), Word(*role)], symbols),
        Refusal::TooLarge(class) => push_parts(out, &[Number(24), Name(*class)], symbols),
    }
}

/// Appends the line of a refusal.
pub fn push_line(out: &mut String, refusal: &Refusal, symbols: &Symbols) -> Result<(), Memory>
    requires { HasTexts symbols.now refusal.now }
    ensures { OnOk result ((line : List ℕ) × IsRefusalLine symbols.now refusal.now line × (string_bytes out.new ≡ string_bytes out.old ++ line)) }
{
    out.push_str("refused")?;
    push_refusal(out, refusal, symbols)?;
    out.push_str("\n")?;
    Ok(())
}
