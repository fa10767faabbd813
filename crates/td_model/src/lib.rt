//! Models of descriptions as trees: a description's network in a store, the links of merged nodes,
//! and the decorated tree of a model.
//!
//! # What it does
//!
//! - [`load`] gives a store with a description's network, for a search; [`add_description`] adds one
//!   to a store that is lent, with numbers counted from those that it has.
//! - [`link_nodes`] links the three slots of two nodes that share a tree node.
//! - [`attributes`] lists the attributes of a network, and [`tree_of`] reads the tree of a model off
//!   its forest and its store.
//!
//! # Model
//!
//! - `specs/Loads` says what is in a store after loading and linking, and `specs/Carrying` when its
//!   assertions say the same as a network (`Carries`).
//! - `specs/CanonicalTrees` has trees whose lists are the canonical bags of slots, over any network,
//!   and `specs/ModelTrees` the tree and the text of a model (`IsModelTree`, `IsModelText`).
//!   `specs/ModelEntries` says of a tree and a text together that they are a model's (`IsModelEntry`).
//! - `specs/Reading` says what single tree nodes are read as.
//!
//! # What the crates above can rely on
//!
//! - `load`, `add_description` and `link_nodes` answer by agreement of the whole list of assertions,
//!   and leave a lent store as it was where it does not agree.
//! - `tree_of` gives the tree with the canonical bags of the model.
//! - [`laws`] has what a search stands on: after loading and after each step its store carries the
//!   network of its forest; a canonical form does not depend on how the network is written, so the
//!   tree of a model has the text of the model, and beside it is an entry of the model; a model has one
//!   text and one tree.
#![tactic(auto)]

mod bags;
pub mod laws;
mod link;
mod listing;
mod loading;
mod tree;

pub use gr_base::Memory;
pub use link::link_nodes;
pub use listing::attributes;
pub use loading::{add_description, load};
pub use tree::tree_of;
