//! Ranks of names, by which the names that lead back to themselves are told in one walk.
//!
//! Names that lead to one another form a group. The walk finds the groups, those first to which
//! others lead, and each name gets the number of its group as its rank. What a name mentions then
//! has no higher rank, and a name that mentions lower ones alone leads to no name of its group, so
//! not to itself. One pass over all mentions tests the first of these, and where the test failed,
//! no name would have a rank; so nothing else has to be believed of the walk.
ghost use Rattle.std.specs.Prelude.{◌≡◌, ◌≤◌, ◌<◌, length, IfOk, slice_get, take, IsTrue, Some};
ghost use Rattle.gr_base.specs.Lists.{Each};
ghost use Rattle.mg_syntax.specs.declared.item.Class.{Class};
ghost use Rattle.mg_scope.specs.Classes.{mentioned};
ghost use Rattle.mg_scope.specs.Orders.{rank_of, AreRanks, Falls};

use crate::directory::Directory;
use crate::table::Table;
use gr_base::Memory;
use gr_terms::Sym;
use mg_syntax::Item;
use std::alloc::Global;

// A name whose mentions are gone through, and the place of the next one.
#[derive(Clone, Copy, Debug, PartialEq, Eq)]
struct Frame {
    name: Sym,
    at: usize,
}

// A walk through what names mention, deepest first. The names that were met and have no rank yet
// wait, and `places` has the place of each among them. The places of those that may be the first
// of their group are `firsts`.
#[derive(Drop)]
struct Walk {
    places: Table,
    ranks: Table,
    groups: usize,
    waiting: Vec<Sym>,
    firsts: Vec<usize>,
    open: Vec<Frame>,
}

/// A rank for each name that is mentioned or is that of a class.
pub fn ranks(alloc: Global, directory: &Directory) -> Result<Table, Memory>
    ensures { IfOk result (λ t. AreRanks (mentioned directory.now) t) }
{
    let mut ranks = find_groups(alloc, directory)?;
    if all_fall(&ranks, directory) {
        return Ok(ranks);
    }
    ranks.clear();
    Ok(ranks)
}

/// The rank of a name, or 0.
pub fn rank(ranks: &Table, name: Sym) -> usize
    ensures { result ≡ rank_of ranks.now name }
{
    match ranks.get(name) {
        Some(rank) => rank,
        None => 0,
    }
}

/// Whether all the names have lower ranks than this one.
pub fn are_below(ranks: &Table, names: &[Sym], rank_above: usize) -> bool
    ensures { IsTrue result → Each (λ x. rank_of ranks.now x < rank_above) names.now }
{
    for name in names {
        if rank(ranks, *name) >= rank_above {
            return false;
        }
    }
    true
}

// Whether none of the names has a higher rank than this one.
fn are_within(ranks: &Table, names: &[Sym], highest: usize) -> bool
    ensures { IsTrue result → Each (λ x. rank_of ranks.now x ≤ highest) names.now }
{
    for name in names {
        if rank(ranks, *name) > highest {
            return false;
        }
    }
    true
}

// Whether ranks rise nowhere along mentions.
fn all_fall(ranks: &Table, directory: &Directory) -> bool
    ensures { IsTrue result → AreRanks (mentioned directory.now) ranks.now }
{
    for place in 0..directory.items().len() {
        if !falls_at(ranks, directory, place) {
            return false;
        }
    }
    true
}

// Whether they rise nowhere from the item at the place, where it is a class.
fn falls_at(ranks: &Table, directory: &Directory, place: usize) -> bool
    requires { place < length directory.now }
    ensures { IsTrue result → (k : Class) → slice_get directory.now place ≡ Some (Item.Class k) → Falls (mentioned directory.now) ranks.now (take place directory.now) k.name }
{
    match &directory.items()[place] {
        Item::Class(class) => class_falls(ranks, directory, class.name, place),
        Item::Value(_) => true,
        Item::Header(_) => true,
    }
}

// The class at the place has the name. A later class of a name mentions nothing.
fn class_falls(ranks: &Table, directory: &Directory, name: Sym, place: usize) -> bool
    requires { (k : Class) × (slice_get directory.now place ≡ Some (Item.Class k)) × (k.name ≡ name) }
    ensures { IsTrue result → Falls (mentioned directory.now) ranks.now (take place directory.now) name }
{
    if !directory.is_first(name, place) {
        return true;
    }
    are_within(ranks, directory.mentioned(name), rank(ranks, name))
}

fn find_groups(alloc: Global, directory: &Directory) -> Result<Table, Memory> {
    let mut walk = Walk {
        places: Table::new(alloc),
        ranks: Table::new(alloc),
        groups: 0,
        waiting: Vec::new(alloc),
        firsts: Vec::new(alloc),
        open: Vec::new(alloc),
    };
    let limit = directory.size().saturating_mul(2);
    for item in directory.items() {
        walk.go_from_item(directory, item, limit)?;
    }
    Ok(walk.ranks)
}

impl Walk {
    fn go_from_item(
        &mut self,
        directory: &Directory,
        item: &Item,
        limit: usize,
    ) -> Result<(), Memory> {
        match item {
            Item::Class(class) => self.go_from(directory, class.name, limit),
            Item::Value(_) => Ok(()),
            Item::Header(_) => Ok(()),
        }
    }

    // Walks from a name. Each name is closed once, and each mention is followed once, so twice as
    // many steps as there are mentions and items are enough.
    fn go_from(&mut self, directory: &Directory, name: Sym, limit: usize) -> Result<(), Memory> {
        if self.places.get(name).is_some() {
            return Ok(());
        }
        self.meet(name)?;
        for _ in 0..limit {
            let Some(frame) = self.open.pop() else {
                return Ok(());
            };
            self.step(directory, frame)?;
        }
        Ok(())
    }

    fn step(&mut self, directory: &Directory, frame: Frame) -> Result<(), Memory> {
        let names = directory.mentioned(frame.name);
        if frame.at >= names.len() {
            return self.close(frame.name);
        }
        self.open.push(Frame {
            name: frame.name,
            at: frame.at + 1,
        })?;
        self.follow(names[frame.at])
    }

    // Opens a name that was not met before, and takes one that waits into one group with all that
    // wait behind it.
    fn follow(&mut self, name: Sym) -> Result<(), Memory> {
        match self.places.get(name) {
            None => self.meet(name),
            Some(place) => {
                if self.ranks.get(name).is_some() {
                    return Ok(());
                }
                self.join(place)
            }
        }
    }

    fn meet(&mut self, name: Sym) -> Result<(), Memory> {
        let place = self.waiting.len();
        self.places.set(name, place)?;
        self.waiting.push(name)?;
        self.firsts.push(place)?;
        self.open.push(Frame { name, at: 0 })?;
        Ok(())
    }

    // The names that wait behind a place are no first ones of a group.
    fn join(&mut self, place: usize) -> Result<(), Memory> {
        while let Some(first) = self.firsts.pop() {
            if first <= place {
                self.firsts.push(first)?;
                return Ok(());
            }
        }
        Ok(())
    }

    // Gives the names of a group their rank once the first of them is gone through.
    fn close(&mut self, name: Sym) -> Result<(), Memory> {
        let Some(first) = self.firsts.pop() else {
            return Ok(());
        };
        if self.places.get(name) != Some(first) {
            self.firsts.push(first)?;
            return Ok(());
        }
        self.groups = self.groups.saturating_add(1);
        while let Some(member) = self.waiting.pop() {
            self.ranks.set(member, self.groups)?;
            if member.0 == name.0 {
                return Ok(());
            }
        }
        Ok(())
    }
}
