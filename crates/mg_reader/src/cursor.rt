//! The lexemes that are left to read.
ghost use Rattle.std.specs.Prelude.{◌≡◌, [], ◌∷◌, ◌++◌, MatchResult};
ghost use Rattle.gr_grammar.specs.Grammars.{tok, is_next, is_of, Runs, took, tree_of};
ghost use Rattle.mg_reader.specs.Grammar.{system, maybe_text};
ghost use Rattle.mg_reader.specs.Values.{token_of, is_there};
ghost use Rattle.mg_reader.specs.Reading.{Takes};

use crate::lexeme::{Class, Lexeme};
use gr_terms::{Sym, Syms};
use mg_syntax::Row;

/// Why reading ends early.
#[derive(Clone, Copy, Debug, PartialEq, Eq)]
pub enum Stop {
    /// No text goes on with what is left.
    Syntax,
    /// Want of memory.
    Memory,
}

/// The lexemes that are left.
#[derive(Clone, Copy)]
pub struct Cursor<'a> {
    pub rest: &'a [Lexeme],
}

/// Whether the lexeme is of one of the classes.
fn any_has(classes: &[Class], lexeme: &Lexeme) -> bool
    ensures { result ≡ is_of system classes.now lexeme.now }
{
    match classes.split_first() {
        None => false,
        Some((class, more)) => class.has(lexeme) || any_has(more, lexeme),
    }
}

/// Appends an item.
pub fn push<T: Drop>(row: &mut Row<T>, item: T) -> Result<(), Stop>
    ensures { MatchResult result (λ u. row.new ≡ row.old ++ item ∷ []) (λ e. e ≡ Stop.Memory) }
{
    match row.push(item) {
        Ok(()) => Ok(()),
        Err(_) => Err(Stop::Memory),
    }
}

/// Appends a name.
pub fn push_name(row: &mut Syms, name: Sym) -> Result<(), Stop>
    ensures { MatchResult result (λ u. row.new ≡ row.old ++ name ∷ []) (λ e. e ≡ Stop.Memory) }
{
    match row.push(name) {
        Ok(()) => Ok(()),
        Err(_) => Err(Stop::Memory),
    }
}

impl<'a> Cursor<'a> {
    /// Whether the next lexeme is of one of the classes.
    pub fn sees(&self, classes: &[Class]) -> bool
        ensures { result ≡ is_next system classes.now self.now.rest.now }
    {
        match self.rest.first() {
            Some(lexeme) => any_has(classes, lexeme),
            None => false,
        }
    }

    /// Takes a lexeme of the class.
    pub fn take(&mut self, class: Class) -> Result<Lexeme, Stop>
        ensures { Takes (tok class) (λ ts rest m. token_of m) self.old.rest.now self.new.rest.now result }
    {
        let Some((lexeme, rest)) = self.rest.split_first() else {
            return Err(Stop::Syntax);
        };
        if !class.has(lexeme) {
            return Err(Stop::Syntax);
        }
        self.rest = rest;
        Ok(*lexeme)
    }

    /// Takes a lexeme of the class if it comes next, and says whether it did.
    pub fn skip(&mut self, class: Class) -> bool
        ensures { (r : Runs system (maybe_text class) self.old.rest.now (took self.new.rest.now)) × (result ≡ is_there (tree_of r)) }
    {
        let Some((lexeme, rest)) = self.rest.split_first() else {
            return false;
        };
        if !class.has(lexeme) {
            return false;
        }
        self.rest = rest;
        true
    }
}
