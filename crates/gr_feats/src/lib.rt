//! Bags and literals: read from tokens, put into a store, and taken out of one.
//!
//! # What it does
//!
//! - [`read_bag`] and [`read_literals`] read the bag and the literals that begin at a token of a
//!   text. [`bags`] and [`literals`] have the same as parts, for readers whose grammar has bags and
//!   literals in it, and [`terms`] the names and variables of both.
//! - [`Names`] numbers variables by first meeting, over as many bags and literals as share it.
//! - [`load_bag`] puts a bag into a store, all of it or nothing. [`canonical_bag`] takes the bag of
//!   a slot out of a store.
//!
//! # Model
//!
//! - `specs/Grammars` has the grammar as data, and what is written in a text as functions of its
//!   tree: pairs and literals over texts.
//! - `specs/Numberings` has numberings of variables, as which [`Names`] is seen.
//! - `specs/Readings` says what a bag or literals that are written are read as, by a table of texts
//!   and a numbering: names by the numbers of their texts, variables by first meeting, of an
//!   attribute that stands twice the first pair, and the next variable for a handle that is left
//!   out.
//! - `specs/Tables` has the table of texts behind what was read: the one before, with the names and
//!   variables of the text, one after another.
//! - `specs/Answers` says which answer and which table are right for a text, a token and a numbering,
//!   and `specs/Complaints` what is wrong with a bag that can be read.
//! - `specs/Loading` has a bag's pairs as entries of a slot, and `specs/CanonicalBags` the canonical
//!   bag of a slot in a network.
//!
//! # Contract for the layer above
//!
//! - `read_bag` and `read_literals` promise the right answer and the right table, `IsBagAnswer` and
//!   `IsLiteralsAnswer`. A part promises a run of its grammar (`Reads`), its answer for every later
//!   table of texts, and the table that it leaves (`PutsNames`); `Passes` says what all parts leave as
//!   it was.
//! - `load_bag` answers by agreement of the whole list of assertions, and `canonical_bag` by the
//!   links of the network.
//! - [`laws`] has what callers cite: one answer and one new table are right, what was right stays
//!   right as texts are added, variables have numbers that were given, so a bag that was read can be
//!   loaded.
#![tactic(auto)]

pub mod bags;
mod canonical;
pub mod gathered;
pub mod laws;
pub mod literals;
mod load;
mod names;
mod read;
pub mod terms;

pub use canonical::canonical_bag;
pub use gr_base::Memory;
pub use load::load_bag;
pub use names::Names;
pub use read::{read_bag, read_literals};
