//! Lexical trees, and their instances over the literals of an input.
//!
//! # Model
//!
//! - A [`LexicalTree`] is a tree of a family with the lemma of an entry at its anchor, and those of
//!   the entry's co-anchors at its co-anchors. `specs/LexicalTrees` says what each one keeps: its tree
//!   is well formed and its marks are names, it has a literal, and just its leaves of mark `coanchor`
//!   have lemmas, in preorder. `specs/DenseTrees` says of a tree that its variables are numbered 0, 1, ..
//!   by where they first stand.
//! - An [`Instance`] is a lexical tree, by its number, with a place of the input for each of its
//!   literals. `specs/Instances` says which ones there are (`IsInstance`): all places are different,
//!   each literal has as many arguments as the one at its place, and the network of the tree, with
//!   each literal equated with its place term by term, agrees.
//! - A [`Selection`] is what is selected for an input: all instances in order, and its literals.
//!   `specs/Selections` says what the crates above ask of one (`IsSelectionOf`): the lexical trees are
//!   such, the literals are without variables and at most 24, and the instances are all of them, at
//!   most 4,096.
//!
//! # Why marks are names
//!
//! A node's mark says what may be put at it, and it is read off the tree's own list, where a variable
//! is no mark. Were variables allowed, two trees could show the same lists once they stand over an
//! input, the one with the mark `nadj` and the other with a variable that is `nadj` there, and only the
//! second would take an adjoined tree. So what is put together could not be told by what it shows.
//!
//! # What the crates above can rely on
//!
//! The layers that anchor trees and match them with inputs promise what `specs` says; no call here
//! does anything.
#![tactic(auto)]

mod instance;
mod lexical;

pub use gr_base::Memory;
pub use instance::{INSTANCE_LIMIT, Instance, Instances, Places, Selection};
pub use lexical::{CoLemmas, LexicalTree, LexicalTrees};

#[cfg(test)]
mod tests;
