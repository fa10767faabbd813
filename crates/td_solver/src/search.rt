//! The search: it grows a forest a node at a time, through forest models alone.
ghost use Rattle.std.specs.Prelude.{◌≡◌, ◌+◌, ◌-◌, ◌<◌, ◌≤◌, ◌++◌, [], ◌∷◌, length, IfOk, OnOk};
ghost use Rattle.std.specs.Bool.{OnTrue, OnFalse};
ghost use Rattle.gr_base.specs.Forests.{IsOneTree};
ghost use Rattle.td_canon.specs.CanonicalTexts.{text_in};
ghost use Rattle.td_desc.specs.Descriptions.{description_of};
ghost use Rattle.td_forest.specs.Steps.{forest_of, after_step, CanMake};
ghost use Rattle.td_colour.specs.Models.{IsForestModel};
ghost use Rattle.td_solver.specs.Tasks.{IsTask, IsCandidateOf};
ghost use Rattle.td_solver.specs.Solutions.{GainsSome};
ghost use Rattle.td_solver.specs.Turns.{IsSpent, Keeps, IsTaken, IsRestored, HasTextOf, HasAllBelow};

use crate::Solved;
use crate::candidates::add_candidates;
use crate::holds::all_hold;
use crate::task::Task;
use gr_base::Memory;
use gr_store::Store;
use gr_text::Budget;
use std::alloc::Global;
use td_canon::TreeSet;
use td_forest::{Forest, Step};
use td_model::laws::the_text_of_a_model;
use td_model::{link_nodes, tree_of};

/// Where a search stands.
#[derive(Drop)]
pub struct State {
    /// The forest so far.
    pub forest: Forest,
    /// The network with the links of its tree nodes.
    pub store: Store,
    /// The steps that are left at each turn.
    pub steps: Vec<Step>,
}

/// Adds a node by a step.
fn make(forest: &mut Forest, node: u8, step: Step)
    requires { CanMake (forest_of forest.old) (record { node = node; step = step }) }
    ensures { forest.new ≡ forest.old ++ record { node = node; step = step } ∷ [] }
{
    match step {
        Step::Merge(at) => forest.merge(node, at),
        Step::Insert(under, from, to) => forest.insert(node, under, from, to),
    }
}

/// Makes a step, and answers true, exactly where a forest model comes of it. Else nothing changes.
fn take(task: &Task, state: &mut State, node: u8, step: Step) -> bool
    requires task { IsTask task.now }
    requires low { node < task.now.count }
    requires model { IsForestModel (description_of task.now.d.now) node (forest_of state.old.forest) }
    requires keeps { Keeps task.now.d.now node (forest_of state.old.forest) state.old.store }
    requires candidate { IsCandidateOf task.now.d.now node (forest_of state.old.forest) step }
    ensures taken { OnTrue result (IsTaken task.now.d.now node step state.old state.new) }
    ensures same { OnFalse result (IsRestored state.old state.new) }
    ensures bad { OnFalse result (IsForestModel (description_of task.now.d.now) (node + 1)
        (after_step node step (forest_of state.old.forest)) → ⊥) }
{
    make(&mut state.forest, node, step);
    if !all_hold(task, &state.forest, node) {
        state.forest.remove_last();
        return false;
    }
    match step {
        Step::Insert(_, _, _) => true,
        Step::Merge(at) => {
            if link_nodes(&mut state.store, task.node(at), task.node(node), 0) {
                return true;
            }
            state.forest.remove_last();
            false
        }
    }
}

/// Puts the tree of a model of all nodes into the set, where it is one tree.
fn add_tree(
    task: &Task,
    alloc: Global,
    forest: &Forest,
    store: &Store,
    out: &mut TreeSet,
) -> Result<(), Memory>
    requires task { IsTask task.now }
    requires model { IsForestModel (description_of task.now.d.now) task.now.count (forest_of forest.now) }
    requires keeps { Keeps task.now.d.now task.now.count (forest_of forest.now) store.now }
    ensures has { OnOk result (IsOneTree (forest_of forest.now)
        → HasTextOf (text_in task.now.symbols.now) (description_of task.now.d.now) (forest_of forest.now) out.new) }
    ensures some { GainsSome task.now.symbols.now (description_of task.now.d.now) out.old out.new }
{
    if forest.width(None) != 1 {
        return Ok(());
    }
    the_text_of_a_model();
    let tree = tree_of(alloc, task.d, &task.attributes, forest, store)?;
    let _added = out.add(tree, task.symbols)?;
    Ok(())
}

/// Searches all models that come from the forest by further nodes.
pub fn explore(
    task: &Task,
    alloc: Global,
    state: &mut State,
    node: u8,
    budget: &mut Budget,
    out: &mut TreeSet,
) -> Result<Solved, Memory>
    requires task { IsTask task.now }
    requires within { node ≤ task.now.count }
    requires model { IsForestModel (description_of task.now.d.now) node (forest_of state.old.forest) }
    requires keeps { Keeps task.now.d.now node (forest_of state.old.forest) state.old.store }
    ensures restored { IfOk result (λ s. s ≡ Solved.All → IsRestored state.old state.new) }
    ensures spent { IfOk result (λ s. IsSpent (description_of task.now.d.now) (task.now.count - node) node
        (forest_of state.old.forest) budget.old.left budget.new.left s) }
    ensures all { IfOk result (λ s. s ≡ Solved.All → HasAllBelow (text_in task.now.symbols.now)
        (description_of task.now.d.now) (task.now.count - node) node (forest_of state.old.forest) out.new) }
    ensures some { GainsSome task.now.symbols.now (description_of task.now.d.now) out.old out.new }
    ensures falls { budget.new.left ≤ budget.old.left }
{
    if node == task.count {
        add_tree(task, alloc, &state.forest, &state.store, out)?;
        return Ok(Solved::All);
    }
    let before = state.store.mark();
    let start = state.steps.len();
    add_candidates(task, &state.forest, node, &mut state.steps)?;
    let end = state.steps.len();
    for at in start..end {
        let step = state.steps[at];
        if take(task, state, node, step) {
            if !budget.spend() {
                return Ok(Solved::Cut);
            }
            match explore(task, alloc, state, node + 1, budget, out)? {
                Solved::All => {}
                Solved::Cut => return Ok(Solved::Cut),
            }
            state.forest.remove_last();
            state.store.undo(before);
        }
    }
    state.steps.truncate(start);
    Ok(Solved::All)
}
