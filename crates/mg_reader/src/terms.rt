//! Variables, values and pairs.
ghost use Rattle.std.specs.Prelude.{◌≡◌, [], ◌∷◌};
ghost use Rattle.gr_grammar.specs.Grammars.{tok, part};
ghost use Rattle.mg_reader.specs.Grammar.{is, more_pair_text, pair_text, ref_text, second_text, side_text};
ghost use Rattle.mg_reader.specs.Values.{keyed_of, more_pair_of, ref_of, ref_with, second_of, side_of};
ghost use Rattle.mg_reader.specs.Reading.{Takes};

use crate::cursor::{Cursor, Stop};
use crate::found::{Keyed, ref_with};
use crate::lexeme::{Class, Kind};
use gr_terms::Sym;
use mg_syntax::{Ref, Side};

impl<'a> Cursor<'a> {
    /// A dot and a second variable, if they are there.
    fn second(&mut self) -> Result<Option<Sym>, Stop>
        ensures { Takes second_text (λ ts rest m. second_of m) self.old.rest.now self.new.rest.now result }
    {
        if self.sees(&[Class::Is(Kind::Dot)]) {
            let _dot = self.take(Class::Is(Kind::Dot))?;
            let name = self.take(Class::Is(Kind::Var))?;
            Ok(Some(name.name))
        } else {
            Ok(None)
        }
    }

    /// A variable, or one of the call that is bound to the first.
    pub(crate) fn reference(&mut self) -> Result<Ref, Stop>
        ensures { Takes ref_text (λ ts rest m. ref_of m) self.old.rest.now self.new.rest.now result }
    {
        let first = self.take(Class::Is(Kind::Var))?;
        let second = self.second()?;
        Ok(ref_with(first.name, second))
    }

    /// A value.
    pub(crate) fn side(&mut self) -> Result<Side, Stop>
        ensures { Takes side_text (λ ts rest m. side_of m) self.old.rest.now self.new.rest.now result }
    {
        if self.sees(&[Class::Name]) {
            let name = self.take(Class::Name)?;
            Ok(Side::Name(name.name))
        } else {
            let variable = self.reference()?;
            Ok(Side::Ref(variable))
        }
    }

    /// An attribute and its value.
    pub(crate) fn pair(&mut self) -> Result<Keyed, Stop>
        ensures { Takes pair_text (λ ts rest m. keyed_of m) self.old.rest.now self.new.rest.now result }
    {
        let key = self.take(Class::Word)?;
        let _equals = self.take(Class::Is(Kind::Equals))?;
        let value = self.side()?;
        Ok(Keyed { key, value })
    }

    /// A comma and a pair.
    pub(crate) fn more_pair(&mut self) -> Result<Keyed, Stop>
        ensures { Takes more_pair_text (λ ts rest m. more_pair_of m) self.old.rest.now self.new.rest.now result }
    {
        let _comma = self.take(Class::Is(Kind::Comma))?;
        let pair = self.pair()?;
        Ok(pair)
    }
}
