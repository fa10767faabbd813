//! The shortest way from a class back to itself.
ghost use Rattle.std.specs.Prelude.{◌≡◌, List, [], ◌∷◌, ◌++◌, IfOk, OnOk, MatchOption, Some};
ghost use Rattle.gr_base.specs.Lists.{gathered};
ghost use Rattle.gr_terms.specs.declared.Sym.{Sym};
ghost use Rattle.mg_scope.specs.Classes.{mentioned};
ghost use Rattle.mg_scope.specs.Cycles.{IsCycle};
ghost use Rattle.mg_scope.specs.Tables.{Cells, value_at};
ghost use Rattle.mg_scope.specs.Faults.{IsThere};
ghost use Rattle.mg_scope.specs.Orders.{callers_of, AreRanks, AreCallers, AreSteps, MeetsAll, IsBest};
ghost use Rattle.mg_scope.specs.Checks.{HasNoWayBack};

use crate::callers::{Callers, collect_callers};
use crate::directory::Directory;
use crate::ranks::{are_below, rank};
use crate::table::Table;
use gr_base::Memory;
use gr_terms::{Sym, Syms};
use std::alloc::Global;

/// The names of the shortest way from a class back to itself, which begins with it; `None` where
/// there is no way. A class that mentions lower ranks alone is on none.
pub fn cycle_of(
    alloc: Global,
    directory: &Directory,
    ranks: &Table,
    goal: Sym,
) -> Result<Option<Syms>, Memory>
    requires ranks { AreRanks (mentioned directory.now) ranks.now }
    requires there { IsThere directory.now goal }
    ensures { IfOk result (λ way. MatchOption way (HasNoWayBack (mentioned directory.now) goal) (IsCycle (mentioned directory.now) goal)) }
{
    if are_below(ranks, directory.mentioned(goal), rank(ranks, goal)) {
        return Ok(None);
    }
    let callers = collect_callers(alloc, directory)?;
    let steps = steps_to(alloc, directory, &callers, goal)?;
    way_back(alloc, directory, &steps, goal)
}

// The fewest steps by which each name leads to the goal, found level by level.
fn steps_to(
    alloc: Global,
    directory: &Directory,
    callers: &Callers,
    goal: Sym,
) -> Result<Table, Memory>
    requires callers { AreCallers (mentioned directory.now) callers.now }
    requires there { IsThere directory.now goal }
    ensures { IfOk result (λ t. AreSteps (mentioned directory.now) goal t) }
{
    let mut steps = Table::new(alloc);
    steps.set(goal, 0)?;
    let mut level = vec![in alloc; goal]?;
    for count in 0..directory.items().len() {
        if level.is_empty() {
            return Ok(steps);
        }
        level = next_level(alloc, callers, &mut steps, &level, count + 1)?;
    }
    Ok(steps)
}

// The names that lead by one step to those of a level, and have no number of steps yet.
fn next_level(
    alloc: Global,
    callers: &Callers,
    steps: &mut Table,
    level: &[Sym],
    count: usize,
) -> Result<Vec<Sym>, Memory>
    ensures { IfOk result (λ found. MeetsAll steps.old steps.new (gathered (callers_of callers.now) level.now) count [] found.items) }
{
    let mut found = Vec::new(alloc);
    for name in level {
        meet_all(steps, callers.of(*name), count, &mut found)?;
    }
    Ok(found)
}

fn meet_all(
    steps: &mut Table,
    names: &[Sym],
    count: usize,
    found: &mut Vec<Sym>,
) -> Result<(), Memory>
    ensures { OnOk result (MeetsAll steps.old steps.new names.now count found.old.items found.new.items) }
{
    for name in names {
        meet(steps, *name, count, found)?;
    }
    Ok(())
}

fn meet(steps: &mut Table, name: Sym, count: usize, found: &mut Vec<Sym>) -> Result<(), Memory>
    ensures { OnOk result (MeetsAll steps.old steps.new (name ∷ []) count found.old.items found.new.items) }
{
    match steps.get(name) {
        Some(_) => Ok(()),
        None => {
            found.push(name)?;
            steps.set(name, count)?;
            Ok(())
        }
    }
}

// The first of the names at the fewest steps, with their number.
fn nearest(steps: &Table, names: &[Sym]) -> Option<(usize, Sym)>
    ensures { IsBest steps.now names.now result }
{
    let mut best = None;
    for name in names {
        best = nearer(steps, *name, best);
    }
    best
}

// The nearest so far once one more name is looked at.
fn nearer(steps: &Table, name: Sym, best: Option<(usize, Sym)>) -> Option<(usize, Sym)>
    ensures { (seen : List Sym) → IsBest steps.now seen best → IsBest steps.now (seen ++ name ∷ []) result }
{
    match steps.get(name) {
        Some(count) => fewer(count, name, best),
        None => best,
    }
}

fn fewer(count: usize, name: Sym, best: Option<(usize, Sym)>) -> Option<(usize, Sym)>
    ensures { (t : Cells) (seen : List Sym) → value_at t name ≡ Some count → IsBest t seen best → IsBest t (seen ++ name ∷ []) result }
{
    match best {
        None => Some((count, name)),
        Some((fewest, _)) => {
            if count < fewest {
                Some((count, name))
            } else {
                best
            }
        }
    }
}

// The way from the goal back to it, where there is one.
fn way_back(
    alloc: Global,
    directory: &Directory,
    steps: &Table,
    goal: Sym,
) -> Result<Option<Syms>, Memory>
    requires { AreSteps (mentioned directory.now) goal steps.now }
    ensures { IfOk result (λ way. MatchOption way (HasNoWayBack (mentioned directory.now) goal) (IsCycle (mentioned directory.now) goal)) }
{
    let Some((mut left, mut at)) = nearest(steps, directory.mentioned(goal)) else {
        return Ok(None);
    };
    let mut names = Syms::new(alloc);
    names.push(goal)?;
    while at.0 != goal.0 {
        names.push(at)?;
        match nearest(steps, directory.mentioned(at)) {
            Some((count, next)) => {
                left = count;
                at = next;
            }
            None => unreachable!(),
        }
    }
    Ok(Some(names))
}
