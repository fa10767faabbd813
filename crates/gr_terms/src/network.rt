//! Lists of assertions.
ghost use Rattle.std.specs.Prelude.{◌≡◌, ◌<◌, [], ◌∷◌, ◌++◌, length, OnOk, OnErr, slice_get};

use crate::{Assertion, Memory};
use gr_base::Items;
use std::alloc::Global;
use std::marker::Model;

/// A network, seen as the list of its assertions.
#[derive(Drop)]
pub struct Network {
    assertions: Items<Assertion>,
}

impl Model for Network {
    ghost use Rattle.std.specs.Prelude.{List};
    ghost use Rattle.gr_terms.specs.declared.Assertion.{Assertion};

    ghost Value = { List Assertion };

    ghost view = { λ n. n.assertions };
}

impl Network {
    /// The empty network, which takes no memory.
    pub fn new(alloc: Global) -> Network
        ensures { result ≡ [] }
    {
        Network {
            assertions: Items::new(alloc),
        }
    }

    /// Appends an assertion. Without memory the network stays as it was.
    pub fn push(&mut self, a: Assertion) -> Result<(), Memory>
        ensures ok { OnOk result (self.new ≡ self.old ++ a ∷ []) }
        ensures err { OnErr result (self.new ≡ self.old) }
    {
        self.assertions.push(a)
    }

    /// The number of assertions.
    pub fn len(&self) -> usize
        ensures { result ≡ length self.now }
    {
        self.assertions.len()
    }

    /// The assertion at a place, counted from 0.
    pub fn at(&self, place: usize) -> &Assertion
        requires { place < length self.now }
        ensures { slice_get self.now place ≡ Some result.now }
    {
        self.assertions.get(place)
    }
}
