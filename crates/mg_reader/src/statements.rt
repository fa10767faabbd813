//! Calls, equations and relations, and what stands beside a node block.
ghost use Rattle.std.specs.Prelude.{◌≡◌, [], ◌∷◌};
ghost use Rattle.gr_grammar.specs.Grammars.{tok, part};
ghost use Rattle.mg_reader.specs.Grammar.{after_text, brackets_text, call_text, is, maybe_text, node_name_text, relation_text, right_text, variable_text, word_text};
ghost use Rattle.mg_reader.specs.Values.{after_of, brackets_of, call_of, descent_of, down_of, node_name_of, relate_of, relation_of, right_of, statement_with, variable_of, word_of, word_with};
ghost use Rattle.mg_reader.specs.Reading.{Takes};

use crate::cursor::{Cursor, Stop};
use crate::found::{After, descent_of, relate_of, statement_with, word_with};
use crate::lexeme::{Class, Kind};
use gr_terms::Sym;
use mg_syntax::{Ref, Relate, Side, Statement, SynItem};

impl<'a> Cursor<'a> {
    /// A call of a class.
    pub(crate) fn call(&mut self) -> Result<Sym, Stop>
        ensures { Takes call_text (λ ts rest m. call_of m) self.old.rest.now self.new.rest.now result }
    {
        let word = self.take(Class::Plain)?;
        let _open = self.take(Class::Is(Kind::LeftBracket))?;
        let _close = self.take(Class::Is(Kind::RightBracket))?;
        Ok(word.name)
    }

    /// The brackets behind the name of a class that is called, if they are there.
    fn brackets(&mut self) -> Result<bool, Stop>
        ensures { Takes brackets_text (λ ts rest m. brackets_of m) self.old.rest.now self.new.rest.now result }
    {
        if self.sees(&[Class::Is(Kind::LeftBracket)]) {
            let _open = self.take(Class::Is(Kind::LeftBracket))?;
            let _close = self.take(Class::Is(Kind::RightBracket))?;
            Ok(true)
        } else {
            Ok(false)
        }
    }

    /// A word is a name, and calls a class where brackets follow.
    fn word(&mut self) -> Result<After, Stop>
        ensures { Takes word_text (λ ts rest m. word_of m) self.old.rest.now self.new.rest.now result }
    {
        let word = self.take(Class::Plain)?;
        let call = self.brackets()?;
        Ok(word_with(word.name, call))
    }

    /// What a variable is equal to.
    fn right(&mut self) -> Result<After, Stop>
        ensures { Takes right_text (λ ts rest m. right_of m) self.old.rest.now self.new.rest.now result }
    {
        if self.sees(&[Class::Plain]) {
            let word = self.word()?;
            Ok(word)
        } else if self.sees(&[Class::Reserved]) {
            let reserved = self.take(Class::Reserved)?;
            Ok(After::Equals(Side::Name(reserved.name)))
        } else if self.sees(&[Class::Is(Kind::Str)]) {
            let text = self.take(Class::Is(Kind::Str))?;
            Ok(After::Equals(Side::Name(text.name)))
        } else {
            let variable = self.reference()?;
            Ok(After::Equals(Side::Ref(variable)))
        }
    }

    /// What stands behind the variable that begins a statement.
    fn after(&mut self) -> Result<After, Stop>
        ensures { Takes after_text (λ ts rest m. after_of m) self.old.rest.now self.new.rest.now result }
    {
        if self.sees(&[Class::Is(Kind::Dot)]) {
            let _dot = self.take(Class::Is(Kind::Dot))?;
            let name = self.take(Class::Is(Kind::Var))?;
            let _equals = self.take(Class::Is(Kind::Equals))?;
            let side = self.side()?;
            Ok(After::Dotted(name.name, side))
        } else {
            let _is = self.take(Class::Is(Kind::Equals))?;
            let right = self.right()?;
            Ok(right)
        }
    }

    /// A statement that begins with a variable.
    pub(crate) fn variable(&mut self) -> Result<Statement, Stop>
        ensures { Takes variable_text (λ ts rest m. variable_of m) self.old.rest.now self.new.rest.now result }
    {
        let first = self.take(Class::Is(Kind::Var))?;
        let after = self.after()?;
        Ok(statement_with(first.name, after))
    }

    /// A relation of two nodes.
    pub(crate) fn relation(&mut self) -> Result<SynItem, Stop>
        ensures { Takes relation_text (λ ts rest m. relation_of m) self.old.rest.now self.new.rest.now result }
    {
        let left = self.reference()?;
        let operator = self.take(Class::Operator)?;
        let right = self.reference()?;
        Ok(SynItem::Relation(left, relate_of(operator.kind), right))
    }

    /// The variable that names a node, if there is one.
    pub(crate) fn node_name(&mut self) -> Result<Option<Ref>, Stop>
        ensures { Takes node_name_text (λ ts rest m. node_name_of m) self.old.rest.now self.new.rest.now result }
    {
        if self.sees(&[Class::Is(Kind::Var)]) {
            let name = self.reference()?;
            Ok(Some(name))
        } else {
            Ok(None)
        }
    }

    /// How a kid stands under its block.
    pub(crate) fn down(&mut self) -> Result<Relate, Stop>
        ensures { Takes (maybe_text Class.Descent) (λ ts rest m. down_of m) self.old.rest.now self.new.rest.now result }
    {
        if self.sees(&[Class::Descent]) {
            let dots = self.take(Class::Descent)?;
            Ok(descent_of(dots.kind))
        } else {
            Ok(Relate::Parent)
        }
    }
}
