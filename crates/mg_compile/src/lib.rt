//! Compiles a class of a metagrammar: from its name to the trees of all its models.
//!
//! # What it does
//!
//! [`compile_class`] goes through the expansions of a class in order, and adds the trees of the
//! minimal models of each to one set, each text once, under one budget. The budget pays one unit for
//! each expansion and one for each forest model of its first nodes.
//!
//! # Model
//!
//! - `specs/Compiled` says what a class compiles to: the texts of its trees (`IsCompiledList`), which
//!   trees may stand beside them (`IsCompiledTree`), its steps, which are its expansions and their
//!   forest models (`IsModelSteps`), which lists a budget allows (`IsRightList`), and which expansion
//!   the class is refused for (`IsClassFault`).
//! - `specs/Taking` says what a single answer of an expander adds to what was found so far, and
//!   `specs/Going` what was found of the first expansions: while the class isn't cut, all of their
//!   texts, for exactly their steps; once it is cut, all texts of those that were paid for and some of
//!   the next, with nothing of the budget left, and fewer units than the steps of these together.
//!
//! # What the crates above can rely on
//!
//! - [`compile_class`] answers a right list or a [`CompileRefusal`]. Beside each text stands the tree of
//!   a minimal model that has it: one with the canonical form of the model. A refusal but want of memory
//!   is the class's fault, and a class that has a fault is refused. A list is cut exactly where the
//!   budget is less than the steps of its class, and else it is whole.
//! - A cut list has all texts of the expansions that the budget pays for together with all before them.
//!   Its other texts are of the one expansion in which the budget ends; which of these it has is open.
//! - Faults are looked for in as many expansions as the budget has units, also behind the place where
//!   the list is cut. So whether a class is refused doesn't depend on how many models there are.
//! - The table of names needs a text for each number of the metagrammar, and nothing more: each name
//!   that an expansion says stands in the metagrammar, or is the category's.
//! - [`laws`] has that a class has one compiled list, one number of steps and at most one fault, that
//!   with a budget of at least the steps the right list is the whole one, and that with a smaller one it
//!   is cut.
//!
//! # How
//!
//! One walk has two budgets: one counts the expansions that may still be looked at, and the other is
//! what the search may still spend, which is 0 once the class is cut. Nothing is kept of an expansion
//! but its trees.
#![tactic(auto)]

mod class;
mod found;
pub mod laws;
mod refusal;

pub use class::compile_class;
pub use refusal::CompileRefusal;
