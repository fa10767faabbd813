//! Bodies of classes.
ghost use Rattle.std.specs.Prelude.{◌≡◌, [], ◌∷◌};
ghost use Rattle.gr_grammar.specs.Grammars.{tok, part};
ghost use Rattle.mg_reader.specs.Grammar.{alternative_text, alternatives_text, behind_less_text, dimension_text, group_text, iface_text, more_alternative_text, more_statement_text, statement_text, syn_text};
ghost use Rattle.mg_reader.specs.Values.{alternative_of, alternatives_of, behind_less_of, body_of, dimension_of, group_of, iface_of, more_alternative_of, more_statement_of, statement_of, syn_of};
ghost use Rattle.mg_reader.specs.Complaints.{alternative_bad, alternatives_bad, behind_less_bad, body_bad, dimension_bad, group_bad, iface_bad, more_alternative_bad, more_statement_bad, statement_bad, syn_bad};
ghost use Rattle.mg_reader.specs.Reading.{Reads};

use crate::cursor::{Stop, push};
use crate::lexeme::{Class, Kind};
use crate::reader::Reader;
use mg_syntax::{Alternative, Bag, Body, Row, Statement, SynItems};
use std::alloc::Global;

impl<'a> Reader<'a> {
    /// What stands behind the `<` of a `<syn>` block.
    fn syn(&mut self, alloc: Global) -> Result<SynItems, Stop>
        ensures { Reads syn_text (λ ts rest m. syn_of m) (λ ts rest m. syn_bad m) self.old.cursor.rest.now self.new.cursor.rest.now self.old.complaint self.new.complaint result }
    {
        let _word = self.cursor.take(Class::Is(Kind::Syn))?;
        let _greater = self.cursor.take(Class::Is(Kind::Greater))?;
        let _open = self.cursor.take(Class::Is(Kind::LeftBrace))?;
        let items = self.perhaps_syn_items(alloc)?;
        let _close = self.cursor.take(Class::Is(Kind::RightBrace))?;
        Ok(items)
    }

    /// What stands behind the `<` of an `<iface>` block.
    fn iface(&mut self, alloc: Global) -> Result<Bag, Stop>
        ensures { Reads iface_text (λ ts rest m. iface_of m) (λ ts rest m. iface_bad m) self.old.cursor.rest.now self.new.cursor.rest.now self.old.complaint self.new.complaint result }
    {
        let _word = self.cursor.take(Class::Is(Kind::Iface))?;
        let _greater = self.cursor.take(Class::Is(Kind::Greater))?;
        let _open = self.cursor.take(Class::Is(Kind::LeftBrace))?;
        let bag = self.bag(alloc)?;
        let _close = self.cursor.take(Class::Is(Kind::RightBrace))?;
        Ok(bag)
    }

    /// What stands behind `<`.
    fn behind_less(&mut self, alloc: Global) -> Result<Statement, Stop>
        ensures { Reads behind_less_text (λ ts rest m. behind_less_of m) (λ ts rest m. behind_less_bad m) self.old.cursor.rest.now self.new.cursor.rest.now self.old.complaint self.new.complaint result }
    {
        if self.cursor.sees(&[Class::Is(Kind::Syn)]) {
            let items = self.syn(alloc)?;
            Ok(Statement::Syn(items))
        } else if self.cursor.sees(&[Class::Is(Kind::Sem)]) {
            let literals = self.cursor.sem(alloc)?;
            Ok(Statement::Sem(literals))
        } else {
            let bag = self.iface(alloc)?;
            Ok(Statement::Iface(bag))
        }
    }

    /// A block of one of the three dimensions.
    fn dimension(&mut self, alloc: Global) -> Result<Statement, Stop>
        ensures { Reads dimension_text (λ ts rest m. dimension_of m) (λ ts rest m. dimension_bad m) self.old.cursor.rest.now self.new.cursor.rest.now self.old.complaint self.new.complaint result }
    {
        let _less = self.cursor.take(Class::Is(Kind::Less))?;
        let statement = self.behind_less(alloc)?;
        Ok(statement)
    }

    /// A body.
    #[cycle(bodies)]
    pub(crate) fn body(&mut self, alloc: Global) -> Result<Body, Stop>
        ensures { Reads (part 0) (λ ts rest m. body_of m) (λ ts rest m. body_bad m) self.old.cursor.rest.now self.new.cursor.rest.now self.old.complaint self.new.complaint result }
    {
        if self.cursor.sees(&[
            Class::Is(Kind::LeftBrace),
            Class::Plain,
            Class::Is(Kind::Var),
            Class::Is(Kind::Less),
        ]) {
            let alternatives = self.alternatives(alloc)?;
            Ok(alternatives)
        } else {
            Ok(Row::new(alloc))
        }
    }

    /// Alternatives, with bars between them.
    #[cycle(bodies)]
    fn alternatives(&mut self, alloc: Global) -> Result<Body, Stop>
        ensures { Reads alternatives_text (λ ts rest m. alternatives_of m) (λ ts rest m. alternatives_bad m) self.old.cursor.rest.now self.new.cursor.rest.now self.old.complaint self.new.complaint result }
    {
        let mut row = Row::new(alloc);
        let first = self.alternative(alloc)?;
        let _first = push(&mut row, first)?;
        'rows: while self.cursor.sees(&[Class::Is(Kind::Bar)]) {
            let more = self.more_alternative(alloc)?;
            let _more = push(&mut row, more)?;
        }
        Ok(row)
    }

    /// A bar and an alternative.
    #[cycle(bodies)]
    fn more_alternative(&mut self, alloc: Global) -> Result<Alternative, Stop>
        ensures { Reads more_alternative_text (λ ts rest m. more_alternative_of m) (λ ts rest m. more_alternative_bad m) self.old.cursor.rest.now self.new.cursor.rest.now self.old.complaint self.new.complaint result }
    {
        let _bar = self.cursor.take(Class::Is(Kind::Bar))?;
        let alternative = self.alternative(alloc)?;
        Ok(alternative)
    }

    /// Statements, with semicolons between them.
    #[cycle(bodies)]
    fn alternative(&mut self, alloc: Global) -> Result<Alternative, Stop>
        ensures { Reads alternative_text (λ ts rest m. alternative_of m) (λ ts rest m. alternative_bad m) self.old.cursor.rest.now self.new.cursor.rest.now self.old.complaint self.new.complaint result }
    {
        let mut row = Row::new(alloc);
        let first = self.statement(alloc)?;
        let _first = push(&mut row, first)?;
        'rows: while self.cursor.sees(&[Class::Is(Kind::Semicolon)]) {
            let more = self.more_statement(alloc)?;
            let _more = push(&mut row, more)?;
        }
        Ok(row)
    }

    /// A semicolon and a statement.
    #[cycle(bodies)]
    fn more_statement(&mut self, alloc: Global) -> Result<Statement, Stop>
        ensures { Reads more_statement_text (λ ts rest m. more_statement_of m) (λ ts rest m. more_statement_bad m) self.old.cursor.rest.now self.new.cursor.rest.now self.old.complaint self.new.complaint result }
    {
        let _semicolon = self.cursor.take(Class::Is(Kind::Semicolon))?;
        let statement = self.statement(alloc)?;
        Ok(statement)
    }

    /// A statement.
    #[cycle(bodies)]
    fn statement(&mut self, alloc: Global) -> Result<Statement, Stop>
        ensures { Reads statement_text (λ ts rest m. statement_of m) (λ ts rest m. statement_bad m) self.old.cursor.rest.now self.new.cursor.rest.now self.old.complaint self.new.complaint result }
    {
        if self.cursor.sees(&[Class::Is(Kind::LeftBrace)]) {
            let group = self.group(alloc)?;
            Ok(Statement::Group(group))
        } else if self.cursor.sees(&[Class::Plain]) {
            let call = self.cursor.call()?;
            Ok(Statement::Call(call))
        } else if self.cursor.sees(&[Class::Is(Kind::Var)]) {
            let variable = self.cursor.variable()?;
            Ok(variable)
        } else {
            let dimension = self.dimension(alloc)?;
            Ok(dimension)
        }
    }

    /// A body in braces.
    #[cycle(bodies)]
    fn group(&mut self, alloc: Global) -> Result<Body, Stop>
        ensures { Reads group_text (λ ts rest m. group_of m) (λ ts rest m. group_bad m) self.old.cursor.rest.now self.new.cursor.rest.now self.old.complaint self.new.complaint result }
    {
        let _open = self.cursor.take(Class::Is(Kind::LeftBrace))?;
        let body = self.body(alloc)?;
        let _close = self.cursor.take(Class::Is(Kind::RightBrace))?;
        Ok(body)
    }
}
