//! Forests of description nodes, grown a node at a time in fixed arrays.
//!
//! # Model
//!
//! A tree node of a forest is a nonempty set of description nodes, and each description node is in
//! one set at most; sets are rising lists, so equal forests are equal (`specs/Nodes`). A position is
//! the list of child numbers from the list of roots down. Two nodes are at one tree node, or one is
//! over the other, or to the left of it, by their positions.
//!
//! A node is added by one of two steps (`specs/Steps`): `merge` puts it into a tree node, and
//! `insert` makes a new tree node of it alone, under another or among the roots, which takes some of
//! the children there as its own. A tree node is named by any of its nodes. Contracts see a
//! [`Forest`] as the list of the steps that made it, oldest first; `forest_of` is the forest that
//! these steps make. `specs/Moves` says what a step makes of positions, `specs/Without` what is left
//! of a forest without a node, and `specs/Walks` which tree node has which number in preorder.
//!
//! # What the crates above can rely on
//!
//! - [`Forest::merge`] and [`Forest::insert`] add just the named step, and say where each node
//!   stands after it. [`Forest::remove_last`] takes the last step back, and the forest is again what
//!   it was before that step. No call takes memory.
//! - [`Forest::has`], [`Forest::relation`] and [`Forest::relates`] answer exactly by the forest, in
//!   constant time. [`Forest::width`], [`Forest::size`], [`Forest::place`], [`Forest::head`] and
//!   [`Forest::parent`] walk it: with them a search goes through the steps of the forest, and reads
//!   its tree nodes in preorder.
//! - [`laws`] has what a search stands on: a step is taken back by `without` of its node, different
//!   steps lead to different forests, each forest comes by just one step from the one without a
//!   node, and neither a step nor taking a node out changes how the other nodes stand.
//!
//! # Inside
//!
//! For each node the number of its tree node in preorder is kept, and the number of the first tree
//! node behind its tree. Two comparisons of such spans tell a relation; a step goes over the spans of
//! all nodes once. `specs/Spans` has the invariant, and `specs/Spots` the places of steps, by which
//! the proofs go.
#![tactic(auto)]

mod forest;
pub mod laws;

pub use forest::Forest;

/// The most description nodes of a forest, and so of a description and of a tree.
pub const NODE_LIMIT: usize = 24;

/// How the tree nodes of two nodes stand to each other.
#[derive(Clone, Copy, Debug, PartialEq, Eq)]
pub enum Relation {
    /// They are one.
    Same,
    /// That of the first is over that of the second.
    Over,
    /// That of the second is over that of the first.
    Under,
    /// Neither is over the other, and that of the first stands to the left.
    Left,
    /// Neither is over the other, and that of the first stands to the right.
    Right,
}

/// How a node is added.
#[derive(Clone, Copy, Debug, PartialEq, Eq)]
pub enum Step {
    /// To the tree node of another node.
    Merge(u8),
    /// As a new tree node under that of another, or among the roots, which takes the children from
    /// one number up to another as its own. Children count from 0, and the second number is the
    /// first that is not taken.
    Insert(Option<u8>, u8, u8),
}

/// A node and how it was added.
#[derive(Clone, Copy, Debug, PartialEq, Eq)]
pub struct Made {
    /// The node, a number below [`NODE_LIMIT`].
    pub node: u8,
    /// Its step.
    pub step: Step,
}
