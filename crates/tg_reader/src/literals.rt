//! Reads literals.
ghost use Rattle.std.specs.Prelude.{◌≡◌, ℕ, List, ◌++◌, ◌∷◌, [], ⊤, map, codes, IfOk, OnOk};
ghost use Rattle.std.specs.List.{join_with_byte};
ghost use Rattle.gr_base.specs.Lists.{Each, gathered};
ghost use Rattle.td_canon.specs.TreeText.{label_text, literal_text};
ghost use Rattle.tg_reader.specs.Naming.{label_names, literal_names};
ghost use Rattle.tg_reader.specs.Reading.{AppendsLiterals, AppendsValues, AreKnownLiterals, AreKnownTerms, CanRead, CanReadLiteral, Differs, EachOfSome, Gets, IsKnownLiteral, IsValuesEnd, Later, Passes, StandsForLiteral, Undoes};

use crate::reader::{Reader, Stop};
use gr_base::Items;
use gr_symbols::Symbols;
use gr_terms::{Literal, Literals, Terms};
use std::alloc::Global;

impl<'a> Reader<'a> {
    /// Takes values with spaces between them, and appends them.
    fn values(&mut self, values: &mut Terms, symbols: &mut Symbols) -> Result<(), Stop>
        ensures takes { (text : ℕ → List ℕ) → Undoes (λ vs. join_with_byte 32 (map (label_text text) vs)) (EachOfSome (CanRead text)) IsValuesEnd
            self.old.rest.now self.new.rest.now result (λ vs _. Gets symbols.old symbols.new (gathered (label_names text) vs) (λ texts. AppendsValues text texts vs values.old values.new)) }
        ensures known { OnOk result (Later symbols.old (AreKnownTerms values.old) → Later symbols.new (AreKnownTerms values.new)) }
        ensures passes { Passes symbols.old symbols.new self.old.rest.now self.new.rest.now }
    {
        let first = self.term(symbols)?;
        values.push(first)?;
        'row: while self.eat(b" ") {
            let next = self.term(symbols)?;
            values.push(next)?;
        }
        Ok(())
    }

    /// Takes arguments and the `)` behind them.
    fn arguments(&mut self, alloc: Global, symbols: &mut Symbols) -> Result<Terms, Stop>
        ensures takes { (text : ℕ → List ℕ) → Undoes (λ vs. join_with_byte 32 (map (label_text text) vs) ++ 41 ∷ []) (Each (CanRead text)) (λ rest. ⊤)
            self.old.rest.now self.new.rest.now result (λ vs found. Gets symbols.old symbols.new (gathered (label_names text) vs) (λ texts. AppendsValues text texts vs [] found)) }
        ensures known { IfOk result (λ found. Later symbols.new (AreKnownTerms found)) }
        ensures passes { Passes symbols.old symbols.new self.old.rest.now self.new.rest.now }
    {
        let mut arguments = Items::new(alloc);
        if self.eat(b")") {
            return Ok(arguments);
        }
        self.values(&mut arguments, symbols)?;
        self.expect(b")")?;
        Ok(arguments)
    }

    /// Takes a literal.
    fn literal(&mut self, alloc: Global, symbols: &mut Symbols) -> Result<Literal, Stop>
        ensures takes { (text : ℕ → List ℕ) → Undoes (literal_text text) (CanReadLiteral text) (λ rest. ⊤) self.old.rest.now self.new.rest.now result
            (λ l found. Gets symbols.old symbols.new (literal_names text l) (λ texts. StandsForLiteral text texts l found)) }
        ensures known { IfOk result (λ found. Later symbols.new (λ texts. IsKnownLiteral texts found)) }
        ensures passes { Passes symbols.old symbols.new self.old.rest.now self.new.rest.now }
    {
        let handle = self.term(symbols)?;
        self.expect(b":")?;
        let pred = self.term(symbols)?;
        self.expect(b"(")?;
        let args = self.arguments(alloc, symbols)?;
        Ok(Literal { handle, pred, args })
    }

    /// Takes literals, each behind a space.
    pub fn literals(&mut self, alloc: Global, symbols: &mut Symbols) -> Result<Literals, Stop>
        ensures takes { (text : ℕ → List ℕ) → Undoes (gathered (λ l. codes " " ++ literal_text text l)) (Each (CanReadLiteral text)) (Differs (codes " "))
            self.old.rest.now self.new.rest.now result (λ ls found. Gets symbols.old symbols.new (gathered (literal_names text) ls) (λ texts. AppendsLiterals text texts ls [] found)) }
        ensures known { IfOk result (λ found. Later symbols.new (AreKnownLiterals found)) }
        ensures passes { Passes symbols.old symbols.new self.old.rest.now self.new.rest.now }
    {
        let mut literals = Items::new(alloc);
        'row: while self.eat(b" ") {
            let next = self.literal(alloc, symbols)?;
            literals.push(next)?;
        }
        Ok(literals)
    }
}
