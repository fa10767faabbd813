//! Sets of names, in which a name is looked up by halves.
ghost use Rattle.std.specs.Prelude.{◌≡◌, IfOk, IsTrue, ◌↔◌, [], map};
ghost use Rattle.gr_base.specs.Lists.{IsAmong};
ghost use Rattle.mg_scope.specs.Names.{number_of, AreNumbers};

use gr_base::Memory;
use gr_terms::Sym;
use std::alloc::Global;
use std::marker::Model;

/// A set of names, which contracts see as the list of their numbers, in order.
#[derive(Drop)]
pub struct Names {
    numbers: Vec<u32>,
}

impl Model for Names {
    ghost use Rattle.std.specs.Prelude.{ℕ, List};
    ghost use Rattle.mg_scope.specs.Names.{Rise};

    ghost Value = { List ℕ };

    ghost view = { λ n. n.numbers.items };

    ghost invariant = { λ n. Rise n.numbers.items };
}

// The numbers of the names, in the names' order.
fn numbers_of(alloc: Global, names: &[Sym]) -> Result<Vec<u32>, Memory>
    ensures { IfOk result (λ v. v.items ≡ map number_of names.now) }
{
    let mut numbers = Vec::with_capacity(alloc, names.len())?;
    for name in names {
        numbers.push(name.0)?;
    }
    Ok(numbers)
}

impl Names {
    /// The set without names, which takes no memory.
    pub fn none(alloc: Global) -> Names
        ensures { AreNumbers result [] }
    {
        Names {
            numbers: Vec::new(alloc),
        }
    }

    /// The set of these names, some of which may stand in the list more than once.
    pub fn of(alloc: Global, names: &[Sym]) -> Result<Names, Memory>
        ensures { IfOk result (λ n. AreNumbers n names.now) }
    {
        let mut numbers = numbers_of(alloc, names)?;
        numbers.sort_unstable();
        Ok(Names { numbers })
    }

    /// Whether the name is one of the set.
    pub fn has(&self, name: Sym) -> bool
        ensures { IsTrue result ↔ IsAmong self.now name.0 }
    {
        self.numbers.binary_search(&name.0).is_ok()
    }
}
