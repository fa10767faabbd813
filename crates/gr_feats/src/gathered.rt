//! Pairs of attributes and values, gathered into a bag.
ghost use Rattle.std.specs.Prelude.{◌≡◌, List, [], ◌∷◌, ◌++◌, OnOk, OnErr};
ghost use Rattle.gr_feats.specs.Readings.{Gathers};
ghost use Rattle.gr_feats.specs.declared.gathered.Pair.{Pair as Read};

use gr_base::Memory;
use gr_terms::{Bag, Sym, Term};
use std::alloc::Global;

/// An attribute with its value, as it was read.
#[derive(Clone, Copy)]
pub struct Pair {
    /// The attribute.
    pub attr: Sym,
    /// The value.
    pub value: Term,
    /// How many lexemes were left at the attribute, the attribute among them.
    pub left: usize,
}

/// The first pairs of their attributes, and where an attribute first stood a second time.
#[derive(Drop)]
pub struct Gathered {
    /// The first pairs.
    pub bag: Bag,
    /// How many lexemes were left where an attribute first stood a second time, that attribute
    /// among them.
    pub again: Option<usize>,
}

impl Gathered {
    /// No pair.
    pub fn new(alloc: Global) -> Gathered
        ensures { Gathers [] result }
    {
        Gathered {
            bag: Bag::new(alloc),
            again: None,
        }
    }

    /// One pair more. Without memory nothing changes.
    pub fn add(&mut self, pair: Pair) -> Result<(), Memory>
        ensures ok { OnOk result ((pairs : List Read) → Gathers pairs self.old → Gathers (pairs ++ pair ∷ []) self.new) }
        ensures err { OnErr result (self.new ≡ self.old) }
    {
        let added = self.bag.add(pair.attr, pair.value)?;
        if added {
            return Ok(());
        }
        self.again = Some(self.again.unwrap_or(pair.left));
        Ok(())
    }
}
