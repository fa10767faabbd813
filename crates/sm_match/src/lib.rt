//! Selects the instances of lexical trees for an input: which trees can say which of its literals.
//!
//! # What it does
//!
//! An instance is a lexical tree with a place of the input for each of its literals: all places are
//! different, and the tree's network, with each literal equated with the one at its place, agrees.
//! [`select`] gives all of them, by lexical tree and then by the list of places, or says that there
//! are more than [`tg_model::INSTANCE_LIMIT`].
//!
//! # Model
//!
//! What an instance is stands in `tg_model`. `specs/Answers` says which answer is right.
//!
//! # How it is done
//!
//! - `index`: the places of an input stand in rows, one for each predicate with a number of
//!   arguments, and one for each number of arguments. So a literal of a tree meets only the places
//!   that suit it. A tree that has more literals of one predicate and number of arguments than there
//!   are places for them is left at once, before anything is searched.
//! - `bindings`: what an input's literals equate are names, so that equating only binds variables of
//!   the tree to names. The bindings are a short list, to which a search adds and from which it takes
//!   back. A tree's own network links nothing, since its bags have each attribute once; so it agrees
//!   with the equations exactly where these agree among themselves.
//! - `search`: goes over the literals of a tree in order, and over the places of each in order, so
//!   that the instances are found in their order.
//!
//! # Contract for the layer above
//!
//! - [`select`] promises the right answer, `IsAnswer`, and that what it selects is what `tg_model` has
//!   as the condition of the layers above, `IsSelectionOf`.
//! - [`laws`]: one answer besides want of memory is right, and what an instance covers: at least one
//!   place, at most as many as the input has, all within it.
#![tactic(auto)]

mod bindings;
mod copy;
mod index;
pub mod laws;
mod matching;
mod refusal;
mod search;
#[cfg(test)]
mod tests;

pub use gr_base::Memory;
pub use matching::select;
pub use refusal::SelectRefusal;
