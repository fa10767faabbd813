//! The lists at the head of a class, and the lines without effect.
ghost use Rattle.std.specs.Prelude.{◌≡◌, [], ◌∷◌};
ghost use Rattle.gr_grammar.specs.Grammars.{tok, part};
ghost use Rattle.mg_reader.specs.Grammar.{argument_text, arguments_text, calls_text, declares_text, domain_text, exports_text, given_text, header_text, imports_text, is, more_argument_text, more_name_text, names_text, perhaps_arguments_text, principle_text, type_text, typed_text, value_text, variables_text};
ghost use Rattle.mg_reader.specs.Values.{argument_of, arguments_of, calls_of, declares_of, domain_of, exports_of, given_of, header_of, imports_of, more_argument_of, more_name_of, names_of, perhaps_arguments_of, principle_of, type_of, typed_of, value_of, variables_of};
ghost use Rattle.mg_reader.specs.Complaints.{has};
ghost use Rattle.mg_reader.specs.Reading.{Takes};

use crate::cursor::{Cursor, Stop, push, push_name};
use crate::lexeme::{Class, Kind};
use gr_base::Items;
use gr_terms::{Sym, Syms};
use mg_syntax::{Args, Header, Row};
use std::alloc::Global;

impl<'a> Cursor<'a> {
    /// Calls of classes.
    fn calls(&mut self, alloc: Global) -> Result<Syms, Stop>
        ensures { Takes calls_text (λ ts rest m. calls_of m) self.old.rest.now self.new.rest.now result }
    {
        let mut row = Items::new(alloc);
        let first = self.call()?;
        let _first = push_name(&mut row, first)?;
        'rows: while self.sees(&[Class::Plain]) {
            let more = self.call()?;
            let _more = push_name(&mut row, more)?;
        }
        Ok(row)
    }

    /// The classes that a class imports.
    pub(crate) fn imports(&mut self, alloc: Global) -> Result<Syms, Stop>
        ensures { Takes imports_text (λ ts rest m. imports_of m) self.old.rest.now self.new.rest.now result }
    {
        if self.sees(&[Class::Is(Kind::Import)]) {
            let _import = self.take(Class::Is(Kind::Import))?;
            let calls = self.calls(alloc)?;
            Ok(calls)
        } else {
            Ok(Items::new(alloc))
        }
    }

    /// Variables.
    fn variables(&mut self, alloc: Global) -> Result<Syms, Stop>
        ensures { Takes variables_text (λ ts rest m. variables_of m) self.old.rest.now self.new.rest.now result }
    {
        let mut row = Items::new(alloc);
        let first = self.take(Class::Is(Kind::Var))?;
        let _first = push_name(&mut row, first.name)?;
        'rows: while self.sees(&[Class::Is(Kind::Var)]) {
            let more = self.take(Class::Is(Kind::Var))?;
            let _more = push_name(&mut row, more.name)?;
        }
        Ok(row)
    }

    /// The variables that a class exports.
    pub(crate) fn exports(&mut self, alloc: Global) -> Result<Syms, Stop>
        ensures { Takes exports_text (λ ts rest m. exports_of m) self.old.rest.now self.new.rest.now result }
    {
        if self.sees(&[Class::Is(Kind::Export)]) {
            let _export = self.take(Class::Is(Kind::Export))?;
            let variables = self.variables(alloc)?;
            Ok(variables)
        } else {
            Ok(Items::new(alloc))
        }
    }

    /// The variables that a class declares.
    pub(crate) fn declares(&mut self, alloc: Global) -> Result<Syms, Stop>
        ensures { Takes declares_text (λ ts rest m. declares_of m) self.old.rest.now self.new.rest.now result }
    {
        if self.sees(&[Class::Is(Kind::Declare)]) {
            let _declare = self.take(Class::Is(Kind::Declare))?;
            let variables = self.variables(alloc)?;
            Ok(variables)
        } else {
            Ok(Items::new(alloc))
        }
    }

    /// A class that is to be compiled.
    pub(crate) fn value(&mut self) -> Result<Sym, Stop>
        ensures { Takes value_text (λ ts rest m. value_of m) self.old.rest.now self.new.rest.now result }
    {
        let _value = self.take(Class::Is(Kind::Value))?;
        let name = self.take(Class::Plain)?;
        Ok(name.name)
    }

    /// A comma and a name.
    fn more_name(&mut self) -> Result<Sym, Stop>
        ensures { Takes more_name_text (λ ts rest m. more_name_of m) self.old.rest.now self.new.rest.now result }
    {
        let _comma = self.take(Class::Is(Kind::Comma))?;
        let name = self.take(Class::Name)?;
        Ok(name.name)
    }

    /// Names, with commas between them.
    fn names(&mut self, alloc: Global) -> Result<Syms, Stop>
        ensures { Takes names_text (λ ts rest m. names_of m) self.old.rest.now self.new.rest.now result }
    {
        let mut row = Items::new(alloc);
        let first = self.take(Class::Name)?;
        let _first = push_name(&mut row, first.name)?;
        'rows: while self.sees(&[Class::Is(Kind::Comma)]) {
            let more = self.more_name()?;
            let _more = push_name(&mut row, more)?;
        }
        Ok(row)
    }

    /// The values of a type, `None` for any.
    fn domain(&mut self, alloc: Global) -> Result<Option<Syms>, Stop>
        ensures { Takes domain_text (λ ts rest m. domain_of m) self.old.rest.now self.new.rest.now result }
    {
        if self.sees(&[Class::Is(Kind::Bang)]) {
            let _bang = self.take(Class::Is(Kind::Bang))?;
            Ok(None)
        } else {
            let _equals = self.take(Class::Is(Kind::Equals))?;
            let _open = self.take(Class::Is(Kind::LeftBrace))?;
            let names = self.names(alloc)?;
            let _close = self.take(Class::Is(Kind::RightBrace))?;
            Ok(Some(names))
        }
    }

    /// A `type` line.
    fn type_line(&mut self, alloc: Global) -> Result<Header, Stop>
        ensures { Takes type_text (λ ts rest m. type_of m) self.old.rest.now self.new.rest.now result }
    {
        let _type = self.take(Class::Is(Kind::Domain))?;
        let name = self.take(Class::Word)?;
        let domain = self.domain(alloc)?;
        Ok(Header::Domain(name.name, domain))
    }

    /// A `property` or `feature` line, which begins with a word of the kind.
    fn typed(&mut self, kind: Kind) -> Result<(Sym, Sym), Stop>
        ensures { Takes (typed_text kind) (λ ts rest m. typed_of m) self.old.rest.now self.new.rest.now result }
    {
        let _word = self.take(Class::Is(kind))?;
        let name = self.take(Class::Word)?;
        let _colon = self.take(Class::Is(Kind::Colon))?;
        let domain = self.take(Class::Word)?;
        Ok((name.name, domain.name))
    }

    /// The value of an argument, if it has one.
    fn given(&mut self) -> Result<Option<Sym>, Stop>
        ensures { Takes given_text (λ ts rest m. given_of m) self.old.rest.now self.new.rest.now result }
    {
        if self.sees(&[Class::Is(Kind::Equals)]) {
            let _equals = self.take(Class::Is(Kind::Equals))?;
            let name = self.take(Class::Name)?;
            Ok(Some(name.name))
        } else {
            Ok(None)
        }
    }

    /// An argument of a principle.
    fn argument(&mut self) -> Result<(Sym, Option<Sym>), Stop>
        ensures { Takes argument_text (λ ts rest m. argument_of m) self.old.rest.now self.new.rest.now result }
    {
        let name = self.take(Class::Word)?;
        let given = self.given()?;
        Ok((name.name, given))
    }

    /// A comma and an argument.
    fn more_argument(&mut self) -> Result<(Sym, Option<Sym>), Stop>
        ensures { Takes more_argument_text (λ ts rest m. more_argument_of m) self.old.rest.now self.new.rest.now result }
    {
        let _comma = self.take(Class::Is(Kind::Comma))?;
        let argument = self.argument()?;
        Ok(argument)
    }

    /// Arguments, with commas between them.
    fn arguments(&mut self, alloc: Global) -> Result<Args, Stop>
        ensures { Takes arguments_text (λ ts rest m. arguments_of m) self.old.rest.now self.new.rest.now result }
    {
        let mut row = Row::new(alloc);
        let first = self.argument()?;
        let _first = push(&mut row, first)?;
        'rows: while self.sees(&[Class::Is(Kind::Comma)]) {
            let more = self.more_argument()?;
            let _more = push(&mut row, more)?;
        }
        Ok(row)
    }

    /// Arguments, if there are some.
    fn perhaps_arguments(&mut self, alloc: Global) -> Result<Args, Stop>
        ensures { Takes perhaps_arguments_text (λ ts rest m. perhaps_arguments_of m) self.old.rest.now self.new.rest.now result }
    {
        if self.sees(&[Class::Word]) {
            let arguments = self.arguments(alloc)?;
            Ok(arguments)
        } else {
            Ok(Row::new(alloc))
        }
    }

    /// A `use` line.
    fn principle(&mut self, alloc: Global) -> Result<Header, Stop>
        ensures { Takes principle_text (λ ts rest m. principle_of m) self.old.rest.now self.new.rest.now result }
    {
        let _use = self.take(Class::Is(Kind::Use))?;
        let name = self.take(Class::Word)?;
        let _with = self.take(Class::Is(Kind::With))?;
        let _open = self.take(Class::Is(Kind::LeftParen))?;
        let arguments = self.perhaps_arguments(alloc)?;
        let _close = self.take(Class::Is(Kind::RightParen))?;
        let _dims = self.take(Class::Is(Kind::Dims))?;
        let _left = self.take(Class::Is(Kind::LeftParen))?;
        let dimension = self.take(Class::Word)?;
        let _right = self.take(Class::Is(Kind::RightParen))?;
        Ok(Header::Principle(name.name, arguments, dimension.name))
    }

    /// A line without effect.
    pub(crate) fn header(&mut self, alloc: Global) -> Result<Header, Stop>
        ensures { Takes header_text (λ ts rest m. header_of m) self.old.rest.now self.new.rest.now result }
    {
        if self.sees(&[Class::Is(Kind::Domain)]) {
            let line = self.type_line(alloc)?;
            Ok(line)
        } else if self.sees(&[Class::Is(Kind::Property)]) {
            let property = self.typed(Kind::Property)?;
            Ok(Header::Property(property.0, property.1))
        } else if self.sees(&[Class::Is(Kind::Feature)]) {
            let feature = self.typed(Kind::Feature)?;
            Ok(Header::Feature(feature.0, feature.1))
        } else {
            let principle = self.principle(alloc)?;
            Ok(principle)
        }
    }
}
