//! Terms: names and variables.
ghost use Rattle.std.specs.Prelude.{◌≡◌, IfOk, OnErr, OnOk, true};
ghost use Rattle.gr_symbols.specs.Numbers.{Names as Numbered};
ghost use Rattle.gr_grammar.specs.Grammars.{tok};
ghost use Rattle.gr_reader.specs.Classes.{class_of, flat};
ghost use Rattle.gr_reader.specs.Parts.{Reads, token_of};
ghost use Rattle.gr_feats.specs.Grammars.{term_text, term_of};
ghost use Rattle.gr_feats.specs.Numberings.{GoesOnFrom};
ghost use Rattle.gr_feats.specs.Passing.{Later, Passes, PassesTexts};
ghost use Rattle.gr_feats.specs.Readings.{IsTerm};
ghost use Rattle.gr_feats.specs.Sides.{IsSide, IsNumbered};
ghost use Rattle.gr_feats.specs.Tables.{PutsNames, is_open};

use crate::names::Names;
use gr_base::Memory;
use gr_reader::class::Class;
use gr_reader::reader::{Reader, Stop};
use gr_symbols::Symbols;
use gr_terms::{Sym, Term};

/// A term before its variable has a number.
#[derive(Clone, Copy)]
pub enum Side {
    /// A name.
    Name(Sym),
    /// A variable, by the number of its name.
    Variable(Sym),
}

/// Takes a lexeme of the class, and answers the number of its text.
pub fn number(reader: &mut Reader<'_>, symbols: &mut Symbols, class: Class<'_>) -> Result<Sym, Stop>
    ensures reads { Reads flat (tok (class_of class.entry)) (λ ts rest m x. Later symbols.new (λ texts. Numbered texts x.0 (token_of m).text)) reader.old reader.new result }
    ensures passes { PassesTexts symbols.old symbols.new reader.old reader.new }
    ensures table { OnOk result (is_open (class_of class.entry) ≡ true → PutsNames (tok (class_of class.entry)) symbols.old symbols.new reader.old reader.new) }
{
    let text = reader.take(class)?;
    let sym = symbols.intern(text)?;
    Ok(sym)
}

/// A name or a variable.
pub fn read_side(reader: &mut Reader<'_>, symbols: &mut Symbols) -> Result<Side, Stop>
    ensures reads { Reads flat term_text (λ ts rest m x. Later symbols.new (λ texts. IsSide texts (term_of m) x)) reader.old reader.new result }
    ensures passes { PassesTexts symbols.old symbols.new reader.old reader.new }
    ensures table { OnOk result (PutsNames term_text symbols.old symbols.new reader.old reader.new) }
{
    if reader.sees(Class::AnyName) {
        let name = number(reader, symbols, Class::AnyName)?;
        Ok(Side::Name(name))
    } else {
        let name = number(reader, symbols, Class::Variable)?;
        Ok(Side::Variable(name))
    }
}

/// The term of a side. A variable that is new gets the next number.
pub fn numbered(names: &mut Names, side: Side) -> Result<Term, Memory>
    ensures ok { IfOk result (λ term. IsNumbered names.old side term names.new) }
    ensures goes_on { GoesOnFrom names.old names.new }
{
    match side {
        Side::Name(name) => Ok(Term::Const(name)),
        Side::Variable(name) => {
            let number = names.number(name)?;
            Ok(Term::Var(number))
        }
    }
}

/// A name, or a variable with its number.
pub fn term(reader: &mut Reader<'_>, symbols: &mut Symbols, names: &mut Names) -> Result<Term, Stop>
    ensures reads { Reads flat term_text (λ ts rest m x. Later symbols.new (λ texts. IsTerm texts names.old (term_of m) x names.new)) reader.old reader.new result }
    ensures passes { Passes symbols.old symbols.new reader.old reader.new names.old names.new }
    ensures table { OnOk result (PutsNames term_text symbols.old symbols.new reader.old reader.new) }
{
    let side = read_side(reader, symbols)?;
    let term = numbered(names, side)?;
    Ok(term)
}
