//! The numbers of variables.
ghost use Rattle.std.specs.Prelude.{◌≡◌, ℕ, IfOk, MatchOption, OnErr};
ghost use Rattle.gr_base.specs.Lists.{IsAmong};
ghost use Rattle.gr_feats.specs.Numberings.{none_met, with_own, Meets, IsNumbering, GoesOnFrom};

use gr_base::Memory;
use gr_terms::Sym;
use indexmap::IndexMap;
use std::alloc::Global;
use std::marker::Model;

/// The most variables of a numbering.
const VARIABLE_LIMIT: u32 = 4_294_967_295;

/// The numbers of the variables that were met, from 0 on in the order of meeting. A variable is
/// known by the number of its name. The own variable of a literal has no name.
#[derive(Drop)]
pub struct Names {
    numbers: IndexMap<u32, u32>,
    given: u32,
}

impl Model for Names {
    ghost use Rattle.std.specs.Prelude.{◌<◌, ◌^◌};
    ghost use Rattle.gr_feats.specs.Numberings.{Numbering, IsNumbering};

    ghost Value = { Numbering };

    ghost view = { λ n. record { named = n.numbers.entries; given = n.given } };

    ghost invariant = { λ n. IsNumbering (record { named = n.numbers.entries; given = n.given }) × (n.given < 2 ^ 32) };
}

impl Names {
    /// No variable was met. Takes no memory.
    pub fn new(alloc: Global) -> Names
        ensures { result ≡ none_met }
    {
        Names {
            numbers: IndexMap::new(alloc),
            given: 0,
        }
    }

    /// How many numbers were given. The next one is this number.
    pub fn count(&self) -> u32
        ensures count { result ≡ self.now.given }
        ensures numbering { IsNumbering self.now }
    {
        self.given
    }

    // The number of the variable with this name, if it was met.
    fn known(&self, name: Sym) -> Option<u32>
        ensures { MatchOption result ((k : ℕ) → IsAmong self.now.named (name.0, k) → ⊥) (λ number. IsAmong self.now.named (name.0, number)) }
    {
        self.numbers.get(&name.0).copied()
    }

    /// The number of the variable with this name, which is the next one where it is new. Without
    /// memory nothing changes; more than 4,294,967,295 variables count as more than there is memory
    /// for.
    pub fn number(&mut self, name: Sym) -> Result<u32, Memory>
        ensures ok { IfOk result (λ number. Meets self.old name.0 number self.new) }
        ensures err { OnErr result (self.new ≡ self.old) }
        ensures goes_on { GoesOnFrom self.old self.new }
        ensures numbering { IsNumbering self.new }
    {
        if let Some(number) = self.known(name) {
            return Ok(number);
        }
        let number = self.given;
        if number >= VARIABLE_LIMIT {
            return Err(Memory);
        }
        self.numbers.insert(name.0, number)?;
        self.given = number + 1;
        Ok(number)
    }

    /// The next number, for a variable without a name. Without memory nothing changes; more than
    /// 4,294,967,295 variables count as more than there is memory for.
    pub fn own(&mut self) -> Result<u32, Memory>
        ensures ok { IfOk result (λ number. (number ≡ self.old.given) × (self.new ≡ with_own self.old)) }
        ensures err { OnErr result (self.new ≡ self.old) }
        ensures goes_on { GoesOnFrom self.old self.new }
        ensures numbering { IsNumbering self.new }
    {
        let number = self.given;
        if number >= VARIABLE_LIMIT {
            return Err(Memory);
        }
        self.given = number + 1;
        Ok(number)
    }
}
