//! Variables and their numbers.
ghost use Rattle.std.specs.Prelude.{◌≡◌, ◌++◌, List, [], length, take, Some, slice_get, OnOk, OnErr, IfOk};
ghost use Rattle.gr_base.specs.Lists.{NoneTwice};
ghost use Rattle.mg_facts.specs.Numbered.{GoesOn};

use crate::variable::Variable;
use gr_base::Memory;
use indexmap::IndexSet;
use std::alloc::Global;
use std::marker::Model;

/// Variables, each once, in the order of their numbers.
#[derive(Drop)]
pub struct Names {
    variables: IndexSet<Variable>,
}

impl Model for Names {
    ghost use Rattle.std.specs.Prelude.{List};
    ghost use Rattle.gr_base.specs.Lists.{NoneTwice};
    ghost use Rattle.mg_facts.specs.declared.variable.Variable.{Variable};

    ghost Value = { List Variable };

    ghost view = { λ n. n.variables.keys };

    ghost invariant = { λ n. NoneTwice n.variables.keys };
}

impl Names {
    /// No variable.
    pub fn new(alloc: Global) -> Names
        ensures { result ≡ [] }
    {
        Names {
            variables: IndexSet::new(alloc),
        }
    }

    /// How many variables have a number. None of them stands twice.
    pub fn count(&self) -> usize
        ensures count { result ≡ length self.now }
        ensures once { NoneTwice self.now }
    {
        self.variables.len()
    }

    /// The number of a variable, which gets the next one where it is new.
    pub fn number(&mut self, x: Variable) -> Result<usize, Memory>
        ensures named { IfOk result (λ n. slice_get self.new n ≡ Some x) }
        ensures grows { OnOk result (GoesOn self.old self.new x) }
        ensures once { NoneTwice self.new }
        ensures err { OnErr result (self.new ≡ self.old) }
    {
        let (place, _) = self.variables.insert_full(x)?;
        Ok(place)
    }

    /// Takes the numbers of all but the first variables back.
    pub fn keep(&mut self, count: usize)
        ensures { self.new ≡ take count self.old }
    {
        self.variables.truncate(count);
    }
}
