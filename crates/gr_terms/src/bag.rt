//! Bags of attributes and values.
ghost use Rattle.std.specs.Prelude.{◌≡◌, ◌<◌, ◌≤◌, [], length, IsOk, IfOk, OnErr, MatchOption, MatchResult, slice_get};
ghost use Rattle.std.specs.Bool.{OnTrue, OnFalse};
ghost use Rattle.gr_base.specs.Lists.{IsAmong};
ghost use Rattle.gr_terms.specs.Bags.{IsListed, HasAttribute, LacksAttribute, Puts, StandsAt, FitsAt};

use crate::{Memory, Sym, Term};
use smallvec::SmallVec;
use std::alloc::Global;
use std::marker::Model;

/// Attributes with their values, seen as a list of pairs by rising attribute, each once. Up to two
/// pairs, as most bags of trees have, take no memory but the bag's own.
#[derive(Drop)]
pub struct Bag {
    pairs: SmallVec<(Sym, Term), 2>,
}

impl Model for Bag {
    ghost use Rattle.std.specs.Prelude.{List};
    ghost use Rattle.gr_terms.specs.declared.Sym.{Sym};
    ghost use Rattle.gr_terms.specs.declared.Term.{Term};

    ghost Value = { List (Sym × Term) };

    ghost use Rattle.gr_terms.specs.Bags.{IsListed};

    ghost view = { λ b. b.pairs.items };

    ghost invariant = { λ b. IsListed b.pairs.items };
}

/// Where an attribute stands, or else where a pair with it would keep the order.
fn find(pairs: &[(Sym, Term)], attr: Sym) -> Result<usize, usize>
    requires { IsListed pairs.now }
    ensures { MatchResult result (StandsAt pairs.now attr) (FitsAt pairs.now attr) }
{
    pairs.binary_search_by_key(&attr.0, |pair| pair.0.0)
}

impl Bag {
    /// The empty bag, which takes no memory.
    pub fn new(alloc: Global) -> Bag
        ensures { result ≡ [] }
    {
        Bag {
            pairs: SmallVec::new(alloc),
        }
    }

    /// The bag of pairs by rising attribute, made in one go. Up to two pairs take no memory.
    pub fn from_sorted(alloc: Global, pairs: &[(Sym, Term)]) -> Result<Bag, Memory>
        requires { IsListed pairs.now }
        ensures pairs { IfOk result (λ bag. bag ≡ pairs.now) }
        ensures small { length pairs.now ≤ 2 → IsOk result }
    {
        Ok(Bag {
            pairs: SmallVec::from_slice(alloc, pairs)?,
        })
    }

    /// Puts a pair in, and says `false`, with the bag unchanged, where the attribute is there
    /// already. Without memory the bag stays as it was: that may only be where the attribute is new
    /// and two pairs or more are there.
    pub fn add(&mut self, attr: Sym, value: Term) -> Result<bool, Memory>
        ensures absent { IfOk result (λ added. OnTrue added (LacksAttribute self.old attr)) }
        ensures added { IfOk result (λ added. OnTrue added (Puts self.old self.new (attr, value))) }
        ensures there { IfOk result (λ added. OnFalse added (HasAttribute self.old attr)) }
        ensures same { IfOk result (λ added. OnFalse added (self.new ≡ self.old)) }
        ensures err { OnErr result (self.new ≡ self.old) }
        ensures fresh { OnErr result (LacksAttribute self.old attr) }
        ensures small { length self.old < 2 → IsOk result }
        ensures listed { IsListed self.new }
    {
        // There is room for two pairs at least.
        let _room = self.pairs.capacity();
        match find(&self.pairs, attr) {
            Ok(_) => Ok(false),
            Err(place) => {
                self.pairs.insert(place, (attr, value))?;
                Ok(true)
            }
        }
    }

    /// The value of an attribute, or `None` where no pair has it.
    pub fn get(&self, attr: Sym) -> Option<Term>
        ensures value { MatchOption result (LacksAttribute self.now attr) (λ v. IsAmong self.now (attr, v)) }
        ensures listed { IsListed self.now }
    {
        match find(&self.pairs, attr) {
            Ok(place) => Some(self.pairs[place].1),
            Err(_) => None,
        }
    }

    /// The number of pairs.
    pub fn len(&self) -> usize
        ensures number { result ≡ length self.now }
        ensures listed { IsListed self.now }
    {
        self.pairs.len()
    }

    /// The pair at a place, counted from 0.
    pub fn at(&self, place: usize) -> &(Sym, Term)
        requires { place < length self.now }
        ensures pair { slice_get self.now place ≡ Some result.now }
        ensures listed { IsListed self.now }
    {
        &self.pairs[place]
    }
}
