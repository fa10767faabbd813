//! Takes the parts of a tree's text that have no properties: bags behind a sign, literals, and the
//! interface.
ghost use Rattle.std.specs.Prelude.{◌≡◌, ◌↔◌, ◌∷◌, [], ◌++◌, ℕ, List, true, IsTrue};
ghost use Rattle.gr_grammar.specs.Grammars.{tok, nil, seq, alt, star, is_next, begins, Runs, failed};
ghost use Rattle.tg_syntax.specs.declared.class.Class.TheVariants.{Byte, WordByte};
ghost use Rattle.tg_syntax.specs.Files.{system};
ghost use Rattle.tg_syntax.specs.Trees.{arguments, behind_handle, first_item, items, label, literal, never, signed_bag};
ghost use Rattle.tg_syntax.specs.Names.{bag, term};
ghost use Rattle.tg_syntax.specs.Reading.{Ends};

use crate::class::Class;
use crate::scanner::{Fault, Scanner};

/// The bytes of a text before those that are left of it.
pub fn taken<'a>(text: &'a [u8], rest: &[u8]) -> &'a [u8]
    requires { (front : List ℕ) × (text.now ≡ front ++ rest.now) }
    ensures { text.now ≡ result.now ++ rest.now }
{
    &text[..text.len() - rest.len()]
}

/// Whether the text before the rest is this word.
pub fn begins_with(text: &[u8], rest: &[u8], word: &[u8]) -> bool
    requires { (front : List ℕ) × (text.now ≡ front ++ rest.now) }
    ensures { IsTrue result ↔ (text.now ≡ word.now ++ rest.now) }
{
    taken(text, rest) == word
}

/// What never goes on stops before any byte.
fn never(rest: &[u8]) -> Fault
    ensures { Runs system never rest.now (failed rest.now) }
{
    Fault
}

impl<'a> Scanner<'a> {
    /// Takes a category, or `-`.
    pub fn label(&mut self) -> Result<(), Fault>
        ensures { Ends label self.old.rest.now self.new.rest.now result }
    {
        if self.sees(Class::Byte(b'-')) {
            let _none = self.take(Class::Byte(b'-'))?;
            Ok(())
        } else {
            let _category = self.term()?;
            Ok(())
        }
    }

    /// Takes a bag behind its sign, if the sign comes next, with this many brackets left to open.
    pub fn signed_bag(&mut self, sign: u8, room: usize) -> Result<(), Fault>
        ensures { Ends (signed_bag sign room) self.old.rest.now self.new.rest.now result }
    {
        if !self.sees(Class::Byte(sign)) {
            return Ok(());
        }
        let _sign = self.take(Class::Byte(sign))?;
        if room == 0 {
            Err(never(self.rest))
        } else {
            self.bag()
        }
    }

    /// Takes a space and a term.
    fn next_argument(&mut self) -> Result<(), Fault>
        ensures { Ends (seq (tok (Byte 32)) term) self.old.rest.now self.new.rest.now result }
    {
        let _space = self.take(Class::Byte(b' '))?;
        let _argument = self.term()?;
        Ok(())
    }

    /// Takes terms with spaces between them.
    fn terms(&mut self) -> Result<(), Fault>
        ensures { Ends (seq term (star (seq (tok (Byte 32)) term))) self.old.rest.now self.new.rest.now result }
    {
        let _first = self.term()?;
        'row: while self.sees(Class::Byte(b' ')) {
            let _next = self.next_argument()?;
        }
        Ok(())
    }

    /// Whether a term may begin here.
    fn sees_term(&self) -> bool
        ensures { result ≡ begins system term self.now.rest.now }
    {
        self.sees(Class::WordByte) || self.sees(Class::Byte(b'"')) || self.sees(Class::Byte(b'?'))
    }

    /// Takes the arguments of a literal.
    fn arguments(&mut self) -> Result<(), Fault>
        ensures { Ends arguments self.old.rest.now self.new.rest.now result }
    {
        if self.sees_term() {
            let _terms = self.terms()?;
            Ok(())
        } else {
            Ok(())
        }
    }

    /// Takes what follows the handle of a literal.
    fn behind_handle(&mut self) -> Result<(), Fault>
        ensures { Ends behind_handle self.old.rest.now self.new.rest.now result }
    {
        let _colon = self.take(Class::Byte(b':'))?;
        let _predicate = self.term()?;
        let _opening = self.take(Class::Byte(b'('))?;
        let _arguments = self.arguments()?;
        let _closing = self.take(Class::Byte(b')'))?;
        Ok(())
    }

    /// Takes a literal.
    fn literal(&mut self) -> Result<(), Fault>
        ensures { Ends literal self.old.rest.now self.new.rest.now result }
    {
        let _handle = self.term()?;
        let _behind = self.behind_handle()?;
        Ok(())
    }

    /// Takes what stands behind the word `iface`: the bag of the interface, or what follows the
    /// handle of a literal.
    fn behind_iface(&mut self) -> Result<(), Fault>
        ensures { Ends (alt bag behind_handle) self.old.rest.now self.new.rest.now result }
    {
        if self.sees(Class::Byte(b'[')) {
            let _bag = self.bag()?;
            Ok(())
        } else {
            let _behind = self.behind_handle()?;
            Ok(())
        }
    }

    /// Takes an interface, or a literal whose handle is a word.
    fn word_item(&mut self) -> Result<(), Fault>
        requires { is_next system (WordByte ∷ []) self.old.rest.now ≡ true }
        ensures { Ends first_item self.old.rest.now self.new.rest.now result }
    {
        let text = self.rest;
        let _word = self.word()?;
        if begins_with(text, self.rest, b"iface") {
            let _behind = self.behind_iface()?;
            Ok(())
        } else {
            let _behind = self.behind_handle()?;
            Ok(())
        }
    }

    /// Takes an interface or a literal.
    fn first_item(&mut self) -> Result<(), Fault>
        ensures { Ends first_item self.old.rest.now self.new.rest.now result }
    {
        if self.sees(Class::WordByte) {
            return self.word_item();
        }
        if self.sees(Class::Byte(b'"')) {
            let _handle = self.string()?;
            let _behind = self.behind_handle()?;
            return Ok(());
        }
        let _handle = self.variable()?;
        let _behind = self.behind_handle()?;
        Ok(())
    }

    /// Takes a space and a literal.
    fn next_literal(&mut self) -> Result<(), Fault>
        ensures { Ends (seq (tok (Byte 32)) literal) self.old.rest.now self.new.rest.now result }
    {
        let _space = self.take(Class::Byte(b' '))?;
        let _literal = self.literal()?;
        Ok(())
    }

    /// Takes the interface and the literals of a tree, each behind a space.
    fn items(&mut self) -> Result<(), Fault>
        ensures { Ends items self.old.rest.now self.new.rest.now result }
    {
        let _space = self.take(Class::Byte(b' '))?;
        let _first = self.first_item()?;
        'row: while self.sees(Class::Byte(b' ')) {
            let _next = self.next_literal()?;
        }
        Ok(())
    }

    /// Takes what follows the nodes of a tree.
    pub fn behind_nodes(&mut self) -> Result<(), Fault>
        ensures { Ends (alt items nil) self.old.rest.now self.new.rest.now result }
    {
        if self.sees(Class::Byte(b' ')) {
            let _items = self.items()?;
            Ok(())
        } else {
            Ok(())
        }
    }
}
