//! Literals.
ghost use Rattle.std.specs.Prelude.{◌≡◌, [], ◌∷◌};
ghost use Rattle.gr_grammar.specs.Grammars.{tok, part};
ghost use Rattle.mg_reader.specs.Grammar.{args_text, is, literal_text, literals_text, next_arg_text, next_literal_text, perhaps_args_text, perhaps_literals_text, predicate_text, sem_text};
ghost use Rattle.mg_reader.specs.Values.{args_of, literal_of, literal_with, literals_of, next_arg_of, next_literal_of, perhaps_args_of, perhaps_literals_of, predicate_of, sem_of};
ghost use Rattle.mg_reader.specs.Reading.{Takes};

use crate::cursor::{Cursor, Stop, push};
use crate::found::literal_with;
use crate::lexeme::{Class, Kind};
use mg_syntax::{Literal, Literals, Row, Side, Sides};
use std::alloc::Global;

impl<'a> Cursor<'a> {
    /// A comma, if it is there, and a value.
    fn next_arg(&mut self) -> Result<Side, Stop>
        ensures { Takes next_arg_text (λ ts rest m. next_arg_of m) self.old.rest.now self.new.rest.now result }
    {
        let _comma = self.skip(Class::Is(Kind::Comma));
        let side = self.side()?;
        Ok(side)
    }

    /// Values, with or without commas.
    fn args(&mut self, alloc: Global) -> Result<Sides, Stop>
        ensures { Takes args_text (λ ts rest m. args_of m) self.old.rest.now self.new.rest.now result }
    {
        let mut row = Row::new(alloc);
        let first = self.side()?;
        let _first = push(&mut row, first)?;
        'rows: while self.sees(&[Class::Is(Kind::Comma), Class::Name, Class::Is(Kind::Var)]) {
            let more = self.next_arg()?;
            let _more = push(&mut row, more)?;
        }
        Ok(row)
    }

    /// Values, if there are some.
    fn perhaps_args(&mut self, alloc: Global) -> Result<Sides, Stop>
        ensures { Takes perhaps_args_text (λ ts rest m. perhaps_args_of m) self.old.rest.now self.new.rest.now result }
    {
        if self.sees(&[Class::Name, Class::Is(Kind::Var)]) {
            let args = self.args(alloc)?;
            Ok(args)
        } else {
            Ok(Row::new(alloc))
        }
    }

    /// The predicate behind a handle and a colon, if they are there.
    fn predicate(&mut self) -> Result<Option<Side>, Stop>
        ensures { Takes predicate_text (λ ts rest m. predicate_of m) self.old.rest.now self.new.rest.now result }
    {
        if self.sees(&[Class::Is(Kind::Colon)]) {
            let _colon = self.take(Class::Is(Kind::Colon))?;
            let side = self.side()?;
            Ok(Some(side))
        } else {
            Ok(None)
        }
    }

    /// A literal.
    fn literal(&mut self, alloc: Global) -> Result<Literal, Stop>
        ensures { Takes literal_text (λ ts rest m. literal_of m) self.old.rest.now self.new.rest.now result }
    {
        let first = self.side()?;
        let predicate = self.predicate()?;
        let _open = self.take(Class::Is(Kind::LeftParen))?;
        let args = self.perhaps_args(alloc)?;
        let _close = self.take(Class::Is(Kind::RightParen))?;
        Ok(literal_with(first, predicate, args))
    }

    /// A semicolon, if it is there, and a literal.
    fn next_literal(&mut self, alloc: Global) -> Result<Literal, Stop>
        ensures { Takes next_literal_text (λ ts rest m. next_literal_of m) self.old.rest.now self.new.rest.now result }
    {
        let _semicolon = self.skip(Class::Is(Kind::Semicolon));
        let literal = self.literal(alloc)?;
        Ok(literal)
    }

    /// Literals, with or without semicolons.
    fn literals(&mut self, alloc: Global) -> Result<Literals, Stop>
        ensures { Takes literals_text (λ ts rest m. literals_of m) self.old.rest.now self.new.rest.now result }
    {
        let mut row = Row::new(alloc);
        let first = self.literal(alloc)?;
        let _first = push(&mut row, first)?;
        'rows: while self.sees(&[
            Class::Is(Kind::Semicolon),
            Class::Name,
            Class::Is(Kind::Var),
        ]) {
            let more = self.next_literal(alloc)?;
            let _more = push(&mut row, more)?;
        }
        Ok(row)
    }

    /// Literals, if there are some.
    pub(crate) fn perhaps_literals(&mut self, alloc: Global) -> Result<Literals, Stop>
        ensures { Takes perhaps_literals_text (λ ts rest m. perhaps_literals_of m) self.old.rest.now self.new.rest.now result }
    {
        if self.sees(&[Class::Name, Class::Is(Kind::Var)]) {
            let literals = self.literals(alloc)?;
            Ok(literals)
        } else {
            Ok(Row::new(alloc))
        }
    }

    /// What stands behind the `<` of a `<sem>` block.
    pub(crate) fn sem(&mut self, alloc: Global) -> Result<Literals, Stop>
        ensures { Takes sem_text (λ ts rest m. sem_of m) self.old.rest.now self.new.rest.now result }
    {
        let _word = self.take(Class::Is(Kind::Sem))?;
        let _greater = self.take(Class::Is(Kind::Greater))?;
        let _open = self.take(Class::Is(Kind::LeftBrace))?;
        let literals = self.perhaps_literals(alloc)?;
        let _close = self.take(Class::Is(Kind::RightBrace))?;
        Ok(literals)
    }
}
