//! The steps of a forest that the colour of a node and the relations of parents leave to it.
ghost use Rattle.std.specs.Prelude.{◌≡◌, ◌≢◌, ◌+◌, ◌<◌, ◌≤◌, Some, None, slice_get, IfOk, IsTrue, ◌↔◌, ℕ, List};
ghost use Rattle.std.specs.Bool.{OnTrue, OnFalse};
ghost use Rattle.td_desc.specs.Descriptions.{description_of};
ghost use Rattle.td_desc.specs.declared.Colour.{Colour};
ghost use Rattle.td_forest.specs.declared.Step.{Step};
ghost use Rattle.td_forest.specs.Names.{IsHead};
ghost use Rattle.td_forest.specs.Steps.{forest_of, kids_of, width};
ghost use Rattle.td_colour.specs.Models.{IsForestModel};
ghost use Rattle.td_colour.specs.Colours.{IsOf};
ghost use Rattle.td_solver.specs.Tasks.{IsTask, IsCandidateOf};
ghost use Rattle.td_solver.specs.Ties.{HasParentBelow};
ghost use Rattle.td_solver.specs.Candidates.{IsPushed, IsEnough, IsInsertFrom, IsInsertBelow, IsPlainBelow, IsMergeBelow, IsUnderBelow, AreTold, LeadsNowhere, NoneUnder};

use crate::task::Task;
use std::alloc::AllocError;
use td_desc::Colour;
use td_forest::{Forest, Relation, Step};

/// Adds the insertions that take over the trees from a number on.
fn add_from(all: &mut Vec<Step>, under: Option<u8>, from: u8, width: u8) -> Result<(), AllocError>
    requires low { from ≤ width }
    requires few { width ≤ 24 }
    ensures { IfOk result (λ u. IsPushed (IsInsertFrom under from (width + 1)) all.old.items all.new.items) }
{
    for to in from..width + 1 {
        all.push(Step::Insert(under, from, to))?;
    }
    Ok(())
}

/// Adds all insertions among so many trees.
fn add_among(all: &mut Vec<Step>, under: Option<u8>, width: u8) -> Result<(), AllocError>
    requires few { width ≤ 24 }
    ensures { IfOk result (λ u. IsPushed (IsInsertBelow under width (width + 1)) all.old.items all.new.items) }
{
    for from in 0..width + 1 {
        add_from(all, under, from, width)?;
    }
    Ok(())
}

/// Adds the insertions among so many trees that take over none.
fn add_plain(all: &mut Vec<Step>, under: Option<u8>, width: u8) -> Result<(), AllocError>
    requires few { width ≤ 24 }
    ensures { IfOk result (λ u. IsPushed (IsPlainBelow under (width + 1)) all.old.items all.new.items) }
{
    for at in 0..width + 1 {
        all.push(Step::Insert(under, at, at))?;
    }
    Ok(())
}

/// Whether a node stands first at its tree node: each but the whites does.
fn is_first(task: &Task, at: u8) -> bool
    requires task { IsTask task.now }
    requires low { at < task.now.count }
    ensures { IsTrue result ↔ (IsOf (description_of task.now.d.now).nodes Colour.White at → ⊥) }
{
    task.node(at).colour != Colour::White
}

/// Whether the parent of a node is told to be a node below another.
fn is_told(task: &Task, kid: u8, node: u8) -> bool
    requires task { IsTask task.now }
    requires kid { kid < task.now.count }
    ensures { OnTrue result (HasParentBelow task.now.d.now.relations node kid) }
{
    match task.parent_before(kid, node) {
        Some(_) => true,
        None => false,
    }
}

/// Whether the parent of each node under the tree node of another is told, so that no step may come
/// in between.
fn are_told(task: &Task, forest: &Forest, node: u8, at: u8) -> bool
    requires task { IsTask task.now }
    requires low { node < task.now.count }
    requires at { at < node }
    requires model { IsForestModel (description_of task.now.d.now) node (forest_of forest.now) }
    ensures { OnTrue result (AreTold task.now.d.now.relations node (forest_of forest.now) at node) }
{
    for kid in 0..node {
        if !is_told(task, kid, node) && forest.relates(at, kid, Relation::Over) {
            return false;
        }
    }
    true
}

/// Whether what is told of parents lets a node in under the tree node of another.
fn may_go_under(task: &Task, forest: &Forest, node: u8, at: u8) -> bool
    requires task { IsTask task.now }
    requires low { node < task.now.count }
    requires at { at < node }
    requires model { IsForestModel (description_of task.now.d.now) node (forest_of forest.now) }
    ensures { OnFalse result (NoneUnder (description_of task.now.d.now) node (forest_of forest.now) at) }
{
    if let Some(parent) = task.parent_before(node, node) {
        return forest.relates(at, parent, Relation::Same);
    }
    match task.kid_before(node) {
        Some(kid) => forest.relates(at, kid, Relation::Over),
        None => true,
    }
}

/// Adds the insertions under the tree node of another node.
fn add_under(
    task: &Task,
    forest: &Forest,
    node: u8,
    at: u8,
    all: &mut Vec<Step>,
) -> Result<(), AllocError>
    requires task { IsTask task.now }
    requires low { node < task.now.count }
    requires at { at < node }
    requires model { IsForestModel (description_of task.now.d.now) node (forest_of forest.now) }
    ensures { IfOk result (λ u. IsEnough (description_of task.now.d.now) node (forest_of forest.now)
        (IsInsertBelow (Some at) (width (kids_of at (forest_of forest.now))) (width (kids_of at (forest_of forest.now)) + 1)) all.old.items all.new.items) }
{
    let width = forest.width(Some(at));
    if are_told(task, forest, node, at) {
        add_plain(all, Some(at), width)
    } else {
        add_among(all, Some(at), width)
    }
}

/// Adds the insertions among the roots.
fn add_roots(task: &Task, forest: &Forest, node: u8, all: &mut Vec<Step>) -> Result<(), AllocError>
    requires task { IsTask task.now }
    requires low { node < task.now.count }
    requires model { IsForestModel (description_of task.now.d.now) node (forest_of forest.now) }
    ensures { IfOk result (λ u. IsEnough (description_of task.now.d.now) node (forest_of forest.now)
        (IsUnderBelow (forest_of forest.now) 0) all.old.items all.new.items) }
{
    if is_told(task, node, node) {
        return Ok(());
    }
    add_among(all, None, forest.width(None))
}

/// Adds the insertions that what is told of parents leaves.
fn add_insertions(
    task: &Task,
    forest: &Forest,
    node: u8,
    all: &mut Vec<Step>,
) -> Result<(), AllocError>
    requires task { IsTask task.now }
    requires low { node < task.now.count }
    requires model { IsForestModel (description_of task.now.d.now) node (forest_of forest.now) }
    ensures { IfOk result (λ u. IsEnough (description_of task.now.d.now) node (forest_of forest.now)
        (IsUnderBelow (forest_of forest.now) node) all.old.items all.new.items) }
{
    add_roots(task, forest, node, all)?;
    for at in 0..node {
        if is_first(task, at) && may_go_under(task, forest, node, at) {
            add_under(task, forest, node, at, all)?;
        }
    }
    Ok(())
}

/// Whether what is told of parents lets a node into the tree node of another.
fn may_merge(task: &Task, forest: &Forest, node: u8, at: u8) -> bool
    requires task { IsTask task.now }
    requires low { node < task.now.count }
    requires at { at < node }
    requires model { IsForestModel (description_of task.now.d.now) node (forest_of forest.now) }
    ensures { OnFalse result (LeadsNowhere (description_of task.now.d.now) node (forest_of forest.now) (Step.Merge at)) }
{
    let Some(parent) = task.parent_before(node, node) else {
        return true;
    };
    match task.parent_before(at, node) {
        Some(other) => forest.relates(other, parent, Relation::Same),
        None => forest.relates(parent, at, Relation::Over),
    }
}

/// Adds the merges that what is told of parents leaves.
fn add_merges(task: &Task, forest: &Forest, node: u8, all: &mut Vec<Step>) -> Result<(), AllocError>
    requires task { IsTask task.now }
    requires low { node < task.now.count }
    requires model { IsForestModel (description_of task.now.d.now) node (forest_of forest.now) }
    ensures { IfOk result (λ u. IsEnough (description_of task.now.d.now) node (forest_of forest.now)
        (IsMergeBelow (forest_of forest.now) node) all.old.items all.new.items) }
{
    for at in 0..node {
        if is_first(task, at) && may_merge(task, forest, node, at) {
            all.push(Step::Merge(at))?;
        }
    }
    Ok(())
}

/// Adds steps of the forest that the colour of the node leaves to it, with each that leads to a forest
/// model. Those that what is told of parents excludes are left out where that is seen at once.
pub fn add_candidates(
    task: &Task,
    forest: &Forest,
    node: u8,
    all: &mut Vec<Step>,
) -> Result<(), AllocError>
    requires task { IsTask task.now }
    requires low { node < task.now.count }
    requires model { IsForestModel (description_of task.now.d.now) node (forest_of forest.now) }
    ensures { IfOk result (λ u. IsEnough (description_of task.now.d.now) node (forest_of forest.now)
        (IsCandidateOf task.now.d.now node (forest_of forest.now)) all.old.items all.new.items) }
{
    match task.node(node).colour {
        Colour::White => add_merges(task, forest, node, all),
        Colour::Black => add_insertions(task, forest, node, all),
        Colour::Red => add_insertions(task, forest, node, all),
    }
}
