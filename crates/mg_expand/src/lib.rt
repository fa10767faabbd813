//! Expansions of a class: what they are, what they say, and all of them in order.
//!
//! # Model
//!
//! An expansion is a tree of calls with one choice at each disjunction that is met.
//!
//! - `specs/Walks` has expansions as walks of tasks (`Does`): an alternative is taken, a deed done,
//!   or a class called, which first calls its imports. All expansions of a class are one list, in
//!   the order of their choices, so that the choice that is met last varies fastest
//!   (`AreExpansions`).
//! - `specs/Items` has what a walk says in its order, and how many items are counted. Calls are
//!   named by how many items are counted before them. What a deed says stands in `mg_deeds`, and
//!   what follows from all that is said in `mg_facts`.
//! - `specs/Progress` has what contracts see of an [`Expander`], and `specs/Steps` what it answers:
//!   how a [`Step`] tells what an expansion is, which of the expansions is next, and what follows
//!   after one that is too large and after want of memory (`Steps`, `Fails`).
//!
//! # What the crates above can rely on
//!
//! - [`Expander::next`] gives the expansions one after another, for one unit of the budget each.
//! - [`laws`] has that each class of a metagrammar that keeps the rules of scope has a list of all
//!   its expansions with one at least, that there is one such list, and that choices tell
//!   expansions apart.
//!
//! # How
//!
//! A walk has an errand in hand, which is what is left to do in a call, and behind it a chain of
//! others, which are kept in one list and never written again. So a fork, which is a choice with
//! alternatives left, has only to note its errand and three lengths. Going on from the last fork
//! cuts the lists back to these and costs what differs from the expansion before.
//!
//! `specs/Routes` says where tasks that are left lead: to the ends of all walks through them, in
//! order (`LeadsOn`). Each step keeps where an errand leads with the forks (`specs/Errands`,
//! `specs/Walkers`, `specs/Ways`), and steps are counted by `specs/Sizes`.
#![tactic(auto)]

mod errand;
mod expander;
mod exports;
pub mod laws;
mod step;
mod walker;

pub use expander::Expander;
pub use step::Step;
