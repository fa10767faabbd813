//! Reads lists of pairs.
ghost use Rattle.std.specs.Prelude.{◌≡◌, ℕ, List, OnOk};
ghost use Rattle.std.specs.List.{join_with_byte};
ghost use Rattle.gr_base.specs.Lists.{gathered};
ghost use Rattle.td_canon.specs.TreeText.{enclosed as enclosed_text, pair_texts};
ghost use Rattle.tg_reader.specs.declared.reader.Run.TheVariants.{Word as OfWord};
ghost use Rattle.tg_reader.specs.Naming.{pair_names};
ghost use Rattle.tg_reader.specs.Reading.{CanReadPair, CanReadPairs, Differs, EachOfSome, Ends, Gets, IsClosing, IsKnownBag, IsPairsEnd, Later, Passes, PutsPair, PutsPairs, Undoes, pair_text};

use crate::reader::{Reader, Run, Stop};
use gr_symbols::Symbols;
use gr_terms::Bag;
use gr_text::is_bare;

impl<'a> Reader<'a> {
    /// Takes a pair, and puts it into the bag if its attribute is not there.
    fn pair(&mut self, bag: &mut Bag, symbols: &mut Symbols) -> Result<(), Stop>
        ensures takes { (text : ℕ → List ℕ) → Undoes (pair_text text) (CanReadPair text) (Ends OfWord) self.old.rest.now self.new.rest.now result
            (λ p _. Gets symbols.old symbols.new (pair_names text p) (λ texts. PutsPair text texts p bag.old bag.new)) }
        ensures known { OnOk result (Later symbols.old (IsKnownBag bag.old) → Later symbols.new (IsKnownBag bag.new)) }
        ensures passes { Passes symbols.old symbols.new self.old.rest.now self.new.rest.now }
    {
        let attribute = self.text(Run::Word)?;
        if !is_bare(attribute) {
            return Err(Stop::NoTree);
        }
        let number = symbols.intern(attribute)?;
        self.expect(b"=")?;
        let value = self.term(symbols)?;
        let _added = bag.add(number, value)?;
        Ok(())
    }

    /// Takes pairs with commas between them, and puts them into the bag.
    fn pairs(&mut self, bag: &mut Bag, symbols: &mut Symbols) -> Result<(), Stop>
        ensures takes { (text : ℕ → List ℕ) → Undoes (λ ps. join_with_byte 44 (pair_texts text ps)) (EachOfSome (CanReadPair text)) IsPairsEnd
            self.old.rest.now self.new.rest.now result (λ ps _. Gets symbols.old symbols.new (gathered (pair_names text) ps) (λ texts. PutsPairs text texts ps bag.old bag.new)) }
        ensures known { OnOk result (Later symbols.old (IsKnownBag bag.old) → Later symbols.new (IsKnownBag bag.new)) }
        ensures passes { Passes symbols.old symbols.new self.old.rest.now self.new.rest.now }
    {
        self.pair(bag, symbols)?;
        'row: while self.eat(b",") {
            self.pair(bag, symbols)?;
        }
        Ok(())
    }

    /// Takes pairs behind an opening text, with a closing one behind them, and puts them into the
    /// bag. Takes nothing where the opening text does not come next.
    pub fn enclosed(
        &mut self,
        opening: &[u8],
        bag: &mut Bag,
        closing: &[u8],
        symbols: &mut Symbols,
    ) -> Result<(), Stop>
        requires { IsClosing closing.now }
        ensures takes { (text : ℕ → List ℕ) → Undoes (λ ps. enclosed_text opening.now 44 closing.now (pair_texts text ps)) (CanReadPairs text) (Differs opening.now)
            self.old.rest.now self.new.rest.now result (λ ps _. Gets symbols.old symbols.new (gathered (pair_names text) ps) (λ texts. PutsPairs text texts ps bag.old bag.new)) }
        ensures known { OnOk result (Later symbols.old (IsKnownBag bag.old) → Later symbols.new (IsKnownBag bag.new)) }
        ensures passes { Passes symbols.old symbols.new self.old.rest.now self.new.rest.now }
    {
        if self.eat(opening) {
            self.pairs(bag, symbols)?;
            self.expect(closing)
        } else {
            Ok(())
        }
    }
}
