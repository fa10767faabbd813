//! The constraint store: the assertions that it accepted, which always agree, with marks and undo.
//!
//! `Store` takes all its memory when it is made. Contracts see the numbers of variables and slots
//! made, the list of accepted assertions and the spare room (`specs/Contents`), and say what is
//! linked and when the list agrees in the words of `gr_terms` on networks. What callers cite of
//! growth and of going back stands in `laws`, with its lemmas in `proofs/Growth`.
//!
//! No call goes over the list. Terms have a root each, by bindings that can be taken back
//! (`bindings`). Slots and the places of entries are nodes in classes, and the nodes of a class
//! stand in a ring (`rings`): a `put` and an `entry` walk the ring of the slot's class, a `link`
//! walks the smaller of two and looks each of its entries up in the other, and `undo` costs what
//! it takes back.
#![tactic(auto)]

mod bindings;
mod entries;
mod kept;
pub mod laws;
mod pool;
mod rings;
mod room;
mod store;

pub use gr_base::Memory;
pub use room::{Mark, Room};
pub use store::Store;
