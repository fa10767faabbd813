//! Reads values.
ghost use Rattle.std.specs.Prelude.{◌≡◌, ℕ, List, ◌<◌, ◌≤◌, ◌++◌, ◌^◌, ◌∷◌, [], ⊤, length, IfOk};
ghost use Rattle.std.specs.Fmt.{decimal};
ghost use Rattle.gr_terms.specs.declared.Term.TheVariants.{Var as AVar};
ghost use Rattle.td_canon.specs.TreeText.{label_text};
ghost use Rattle.tg_reader.specs.declared.reader.Run.TheVariants.{Word as OfWord};
ghost use Rattle.tg_reader.specs.Naming.{label_names};
ghost use Rattle.tg_reader.specs.Writable.{IsName, IsWord};
ghost use Rattle.tg_reader.specs.Reading.{CanRead, Ends, Gets, IsKnownTerm, IsNameOf, Later, Passes, StandsFor, Undoes};

use crate::reader::{Reader, Run, Stop};
use gr_symbols::Symbols;
use gr_terms::Term;
use gr_text::read_decimal;

impl<'a> Reader<'a> {
    /// Takes the number of a variable.
    fn variable(&mut self) -> Result<Term, Stop>
        ensures takes { Undoes decimal (λ k. k < 10 ^ 9) (Ends OfWord) self.old.rest.now self.new.rest.now result (λ k x. x ≡ AVar k) }
        ensures known { IfOk result (λ x. (texts : List (List ℕ)) → IsKnownTerm x texts) }
        ensures shorter { length self.new.rest.now ≤ length self.old.rest.now }
    {
        let digits = self.text(Run::Word)?;
        match read_decimal(digits) {
            Some(number) => Ok(Term::Var(number)),
            None => Err(Stop::NoTree),
        }
    }

    /// Takes a name and the `"` behind it.
    fn quoted(&mut self, symbols: &mut Symbols) -> Result<Term, Stop>
        ensures takes { Undoes (λ t. t ++ 34 ∷ []) IsName (λ rest. ⊤) self.old.rest.now self.new.rest.now result
            (λ t x. Gets symbols.old symbols.new (t ∷ []) (λ texts. IsNameOf texts t x)) }
        ensures known { IfOk result (λ x. Later symbols.new (IsKnownTerm x)) }
        ensures passes { Passes symbols.old symbols.new self.old.rest.now self.new.rest.now }
    {
        let inside = self.text(Run::Inside)?;
        self.expect(b"\"")?;
        let name = symbols.intern(inside)?;
        Ok(Term::Const(name))
    }

    /// Takes a name without `"`.
    fn bare(&mut self, symbols: &mut Symbols) -> Result<Term, Stop>
        ensures takes { Undoes (λ t. t) IsWord (Ends OfWord) self.old.rest.now self.new.rest.now result
            (λ t x. Gets symbols.old symbols.new (t ∷ []) (λ texts. IsNameOf texts t x)) }
        ensures known { IfOk result (λ x. Later symbols.new (IsKnownTerm x)) }
        ensures passes { Passes symbols.old symbols.new self.old.rest.now self.new.rest.now }
    {
        let word = self.text(Run::Word)?;
        if word.is_empty() {
            return Err(Stop::NoTree);
        }
        let name = symbols.intern(word)?;
        Ok(Term::Const(name))
    }

    /// Takes a value.
    pub fn term(&mut self, symbols: &mut Symbols) -> Result<Term, Stop>
        ensures takes { (text : ℕ → List ℕ) → Undoes (label_text text) (CanRead text) (Ends OfWord) self.old.rest.now self.new.rest.now result
            (λ v x. Gets symbols.old symbols.new (label_names text v) (λ texts. StandsFor text texts v x)) }
        ensures known { IfOk result (λ x. Later symbols.new (IsKnownTerm x)) }
        ensures passes { Passes symbols.old symbols.new self.old.rest.now self.new.rest.now }
    {
        if self.eat(b"?") {
            self.variable()
        } else if self.eat(b"\"") {
            self.quoted(symbols)
        } else {
            self.bare(symbols)
        }
    }
}
