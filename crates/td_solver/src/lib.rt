//! All minimal models of a description, or a licensed cut.
//!
//! # What it does
//!
//! [`solve`] adds the tree of each minimal model of a description to a set of trees. It grows a
//! forest of the description's nodes, a node at a time in search order, and goes on from forest
//! models alone: a node is added by a step that its colour leaves to it, the relations that the step
//! can break are tested, and the slots of nodes that share a tree node are linked in a store. A forest
//! model of all nodes that is one tree is a minimal model.
//!
//! # Model
//!
//! - `td_colour` says what forest models and minimal models are, and `td_model` what the text of a
//!   model is. `specs/Solutions` has the texts of all minimal models (`IsSolutionText`), which trees
//!   with their texts are those of one (`IsSolution`), what a set gains, and the number of forest
//!   models of the first nodes (`IsModelTotal`), which is what a budget is counted in.
//! - The other files of `specs/` serve the search: `Candidates` has the steps that a colour leaves and
//!   says when a list of them is enough, `Ties` the relations that a step is tested for and the parents
//!   that they tell, `Searches` what a search over any candidates with a parent finds, and `Turns` what
//!   the loop has done after each step.
//!
//! # What the crates above can rely on
//!
//! - [`solve`] says [`Solved::All`] with just the texts of all minimal models added, and one unit spent
//!   for each forest model of the first nodes; or [`Solved::Cut`], only where there are more of these
//!   than units, with nothing of the budget left and some of the texts added. After want of memory some
//!   were added too. The budget never grows, and a whole set stays whole.
//! - Whatever was added is the tree of a minimal model beside its text, whatever the set was before: the
//!   model and the tree have one canonical form, and the text spells it. So the tree is fixed, up to its
//!   variables, where a text alone would leave it open.
//! - [`laws`] says that a description has one number of forest models.
//!
//! # Inside
//!
//! `task` keeps the description, and for each node the relations to test and a parent that one of them
//! tells, made once. `candidates` lists the steps of a node on one stack for all turns, `holds` tests
//! relations, and `search` has the loop, which takes a step back where it has gone through all that
//! comes of it. No state is copied.
//!
//! Steps that told parents exclude aren't listed. A node whose parent is told goes only under that, or
//! is merged only with a node under that whose own told parent is no other. Where the parents of all
//! nodes under a tree node are told, a new node there takes over none of them. What is listed beyond
//! that is tried, and the relations decide.
#![tactic(auto)]

ghost use Rattle.std.specs.Prelude.{◌≡◌, ◌+◌, ◌<◌, ◌≤◌, ℕ, length, IfOk};
ghost use Rattle.td_desc.specs.Conditions.{IsNumbered};
ghost use Rattle.td_desc.specs.Descriptions.{description_of};
ghost use Rattle.td_canon.specs.TreeSets.{IsWhole};
ghost use Rattle.td_model.specs.Loads.{IsLoaded};
ghost use Rattle.td_model.specs.ModelTrees.{IsNamedDescription};
ghost use Rattle.td_solver.specs.Solutions.{IsModelTotal, GainsSome, GainsAll};

mod candidates;
mod holds;
pub mod laws;
mod search;
mod task;
mod ties;

use crate::search::{State, explore};
use crate::task::Task;
pub use gr_base::Memory;
use gr_store::Store;
use gr_symbols::Symbols;
use gr_text::Budget;
use std::alloc::Global;
use td_canon::TreeSet;
use td_desc::Description;
use td_forest::Forest;
use td_model::load;

/// How a search ended.
#[derive(Clone, Copy, Debug, PartialEq, Eq)]
pub enum Solved {
    /// All models were found.
    All,
    /// The budget was spent before that.
    Cut,
}

/// Adds the trees of all minimal models of the description to the set, and spends one unit of the
/// budget for each forest model of its first nodes. Where the budget is less than their number, it
/// is spent whole, and some of the trees were added.
pub fn solve(
    alloc: Global,
    d: &Description,
    symbols: &Symbols,
    budget: &mut Budget,
    out: &mut TreeSet,
) -> Result<Solved, Memory>
    requires few { length d.now.nodes ≤ 24 }
    requires numbered { IsNumbered d.now }
    requires named { IsNamedDescription (length symbols.now) d.now }
    ensures all { IfOk result (λ s. s ≡ Solved.All → GainsAll symbols.now (description_of d.now) out.old out.new) }
    ensures spent { IfOk result (λ s. s ≡ Solved.All → (total : ℕ)
        → IsModelTotal (description_of d.now) (length d.now.nodes) total → budget.old.left ≡ budget.new.left + total) }
    ensures cut { IfOk result (λ s. s ≡ Solved.Cut → (total : ℕ)
        → IsModelTotal (description_of d.now) (length d.now.nodes) total → budget.old.left < total) }
    ensures none_left { IfOk result (λ s. s ≡ Solved.Cut → budget.new.left ≡ 0) }
    ensures some { GainsSome symbols.now (description_of d.now) out.old out.new }
    ensures whole { IsWhole symbols.now out.old → IsWhole symbols.now out.new }
    ensures falls { budget.new.left ≤ budget.old.left }
{
    match load(alloc, d)? {
        None => Ok(Solved::All),
        Some(store) => search_from(alloc, d, symbols, store, budget, out),
    }
}

/// The same, where the description's network is in a store.
fn search_from(
    alloc: Global,
    d: &Description,
    symbols: &Symbols,
    store: Store,
    budget: &mut Budget,
    out: &mut TreeSet,
) -> Result<Solved, Memory>
    requires few { length d.now.nodes ≤ 24 }
    requires numbered { IsNumbered d.now }
    requires named { IsNamedDescription (length symbols.now) d.now }
    requires loaded { IsLoaded d.now store }
    ensures all { IfOk result (λ s. s ≡ Solved.All → GainsAll symbols.now (description_of d.now) out.old out.new) }
    ensures spent { IfOk result (λ s. s ≡ Solved.All → (total : ℕ)
        → IsModelTotal (description_of d.now) (length d.now.nodes) total → budget.old.left ≡ budget.new.left + total) }
    ensures cut { IfOk result (λ s. s ≡ Solved.Cut → (total : ℕ)
        → IsModelTotal (description_of d.now) (length d.now.nodes) total → budget.old.left < total) }
    ensures none_left { IfOk result (λ s. s ≡ Solved.Cut → budget.new.left ≡ 0) }
    ensures some { GainsSome symbols.now (description_of d.now) out.old out.new }
    ensures whole { IsWhole symbols.now out.old → IsWhole symbols.now out.new }
    ensures falls { budget.new.left ≤ budget.old.left }
{
    let task = Task::new(alloc, d, symbols)?;
    let forest = Forest::new();
    let steps = Vec::new(alloc);
    let mut state = State {
        forest,
        store,
        steps,
    };
    explore(&task, alloc, &mut state, 0, budget, out)
}
