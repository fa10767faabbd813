//! Canonical texts of trees, and sets of trees that hold each text once.
//!
//! # Model
//!
//! `specs/CanonicalTexts` says what a canonical text is (`IsCanonicalText`): of a tree whose slots
//! and values are those of any network, made with any exact labelling of the terms, which gives
//! equal labels exactly to terms that are linked, and to a term linked with a name that name. A tree
//! of the code has the text of the network of its lists (`HasText`). `specs/TreeText` has the
//! spelling.
//!
//! A [`TreeSet`] is seen as the list of its trees, each with the text that stands beside it, by
//! rising text (`specs/TreeSets`). No tree is moved when another one comes: the order is a list of
//! small numbers.
//!
//! # What the crates above can rely on
//!
//! - [`canonical_text`] gives the text of the tree.
//! - [`TreeSet::add`] says `false` exactly where the text is there, and puts the tree at the place of
//!   its text otherwise.
//! - [`laws`]: a tree has one text, whatever exact labelling makes it; trees with the same text are
//!   the same up to renaming of variables, where names can be spelled; more names in the table
//!   change no text.
#![tactic(auto)]

mod draft;
pub mod laws;
mod pairs;
mod tree_set;
mod writing;

pub use gr_base::Memory;
pub use tree_set::{ClassTrees, TreeSet};
pub use writing::canonical_text;
