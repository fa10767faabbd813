//! The search for the instances of one lexical tree.
ghost use Rattle.std.specs.Prelude.{◌≡◌, ℕ, ◌<◌, ◌≤◌, List, [], ◌∷◌, ◌++◌, length, IfOk, IfErr, OnOk, Decides, slice_get, Some};
ghost use Rattle.std.specs.Bool.{OnFalse};
ghost use Rattle.gr_base.specs.Lists.{Each, IsAmong};
ghost use Rattle.gr_terms.specs.LiteralViews.{AreConst};
ghost use Rattle.sm_match.specs.Index.{IsIndex};
ghost use Rattle.tg_model.specs.Instances.{FitsPlace, MayStandAt};
ghost use Rattle.tg_model.specs.declared.instance.TheConstants.{INSTANCE_LIMIT};
ghost use Rattle.tg_model.specs.declared.instance.Instance.{Instance};
ghost use Rattle.sm_match.specs.declared.refusal.SelectRefusal.TheVariants as refusal;
ghost use Rattle.sm_match.specs.Listings.{Finds};
ghost use Rattle.sm_match.specs.Tasks.{IsTask, IsBegun, IsFrom, Puts};

use crate::bindings::{Bound, equate_literal};
use crate::index::{Index, alike};
use crate::refusal::SelectRefusal;
use gr_base::Memory;
use gr_terms::Literal;
use std::alloc::Global;
use td_tree::Tree;
use tg_model::{INSTANCE_LIMIT, Instance, Instances, Places};

/// What a search is for.
#[derive(Drop)]
pub struct Task<'a> {
    /// The tree.
    pub tree: &'a Tree,
    /// The number of its lexical tree.
    pub number: u32,
    /// The literals of the input.
    pub input: &'a [Literal],
    pub index: &'a Index,
}

/// Where a search stands.
#[derive(Drop)]
pub struct State {
    /// The places of the first literals of the tree.
    pub places: Vec<u8>,
    /// What these bind.
    pub bindings: Vec<Bound>,
    /// The instances that were found, those of earlier trees too.
    pub found: Instances,
}

/// Whether there are as many places for each literal of a tree as the tree has literals that want
/// them, by predicate and number of arguments. Without this test a tree of 13 literals of one
/// predicate would be tried in all orders over 12 places.
pub fn has_places(tree: &Tree, input: &[Literal], index: &Index) -> bool
    requires ground { Each AreConst input.now }
    requires index { IsIndex input.now index.now }
    ensures { OnFalse result ((places : List ℕ) → MayStandAt input.now tree.now places → ⊥) }
{
    for literal in tree.sem.as_slice() {
        if index.places(literal).len() < alike(tree.sem.as_slice(), literal) {
            return false;
        }
    }
    true
}

/// Whether the place is one of these.
fn is_among(places: &[u8], place: u8) -> bool
    ensures { Decides result (IsAmong places.now place) }
{
    for used in places {
        if *used == place {
            return true;
        }
    }
    false
}

/// Puts the next literal of the tree at a place, where it is free and nothing clashes.
fn put(
    task: &Task,
    literal: &Literal,
    place: u8,
    places: &mut Vec<u8>,
    bindings: &mut Vec<Bound>,
) -> Result<bool, Memory>
    requires task { IsTask task.now }
    requires begun { IsBegun task.now.input.now task.now.tree.now.sem places.old.items bindings.old.items }
    requires next { slice_get task.now.tree.now.sem (length places.old.items) ≡ Some literal.now }
    requires within { place < length task.now.input.now }
    requires fits { FitsPlace task.now.input.now literal.now place }
    ensures { IfOk result (Puts task.now place places.old.items places.new.items bindings.old.items bindings.new.items) }
{
    if is_among(places.as_slice(), place) {
        return Ok(false);
    }
    places.push(place)?;
    equate_literal(bindings, literal, &task.input[place as usize])
}

/// The same places.
fn copied_places(alloc: Global, places: &[u8]) -> Result<Places, Memory>
    ensures { IfOk result (λ copy. copy ≡ places.now) }
{
    let mut copy = Places::new(alloc);
    for place in places {
        let _pushed = copy.push(*place)?;
    }
    Ok(copy)
}

/// Appends the instance of a tree that stands at these places.
fn add(alloc: Global, found: &mut Instances, tree: u32, places: &[u8]) -> Result<(), SelectRefusal>
    ensures { Finds (λ i. i ≡ record { tree = tree; places = places.now }) found.old found.new result }
{
    if found.len() >= INSTANCE_LIMIT {
        return Err(SelectRefusal::Over);
    }
    let places = copied_places(alloc, places)?;
    found.push(Instance { tree, places })?;
    Ok(())
}

/// Finds all instances whose places begin with those so far.
pub fn extend(task: &Task, alloc: Global, state: &mut State, at: usize) -> Result<(), SelectRefusal>
    requires task { IsTask task.now }
    requires begun { IsBegun task.now.input.now task.now.tree.now.sem state.old.places.items state.old.bindings.items }
    requires at { at ≡ length state.old.places.items }
    ensures finds { Finds (IsFrom task.now state.old.places.items) state.old.found state.new.found result }
    ensures places { OnOk result (state.new.places.items ≡ state.old.places.items) }
    ensures bindings { OnOk result (state.new.bindings.items ≡ state.old.bindings.items) }
{
    if at == task.tree.sem.len() {
        return add(
            alloc,
            &mut state.found,
            task.number,
            state.places.as_slice(),
        );
    }
    let literal = task.tree.sem.get(at);
    let before = state.bindings.len();
    for place in task.index.places(literal) {
        if put(
            task,
            literal,
            *place,
            &mut state.places,
            &mut state.bindings,
        )? {
            extend(task, alloc, state, at + 1)?;
        }
        state.places.truncate(at);
        state.bindings.truncate(before);
    }
    Ok(())
}
