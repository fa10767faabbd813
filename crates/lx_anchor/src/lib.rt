//! Anchoring: the trees of a grammar with the entries of a lexicon.
//!
//! # What it does
//!
//! [`anchor_all`] gives all lexical trees: each entry with each tree of its family, where the two fit.
//!
//! # Model
//!
//! - `specs/Networks` has the network of a tree and an entry. The variables of the two are kept apart,
//!   their interfaces are linked, and the entry's features of the anchor are linked with the bottom of
//!   the tree's anchor. The literals are the tree's, then the entry's.
//! - `specs/Anchoring` says when a tree and an entry make a lexical tree (`Makes`): the names of the
//!   tree's co-anchors are the names that the entry gives lemmas, and the network agrees. It says which
//!   lexical tree that is, which list has just all of them in order (`AreLexicalTrees`), and which
//!   lexical tree is the first that has no literal (`IsFirstBare`).
//! - `specs/TreesOver` says of a tree that it has the canonical bags of a network (`IsTreeOver`): at
//!   each slot each attribute once, with the name that its value is linked with, or else with one
//!   variable for each class of linked values. Its variables are numbered 0, 1, .. by where they first
//!   stand (`IsDense` of `tg_model`), so no number of the grammar's or of the store's shows in it.
//!
//! # What the crates above can rely on
//!
//! - [`anchor_all`] gives just the lexical trees, by entry and then by tree, each as `tg_model` wants
//!   it, or refuses exactly at the first that has no literal.
//! - Classes are to have no variable as a node's `mark`: such a mark is none in the tree, but an entry
//!   could make it one. A metagrammar and grammar text write marks as words alone, so their trees have
//!   no such mark. [`has_named_marks`] decides it, and then no lexical tree has such a mark.
//! - [`laws`]: further assertions agree with the network of a lexical tree's own lists exactly where
//!   they agree with that of its tree and its entry, also where they speak of strangers, as of other
//!   trees of a derivation. So the layers above need the lexical tree alone.
//!
//! # How it is done
//!
//! An entry finds its family by name. Of the network only the two links join anything, so a store
//! needs no more than an equation for each attribute that a bag of the tree and one of the entry both
//! have (`sharing`). The tree is then written with what stands for each value (`writing`), and the
//! equations are undone. An entry's variables are numbered behind all those of the grammar's trees
//! (`counts`), so one store, which is made once, serves all entries.
#![tactic(auto)]

mod anchoring;
mod coanchors;
mod counts;
pub mod laws;
mod numbering;
mod refusal;
mod sharing;
mod writing;

pub use anchoring::anchor_all;
pub use gr_base::Memory;
pub use refusal::AnchorRefusal;
pub use tg_grammar::has_named_marks;

#[cfg(test)]
mod tests;
