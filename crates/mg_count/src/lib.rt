//! That what is said of the facts of an expansion is never said of nothing.
//!
//! # Model
//!
//! As in `td_count`, what holds or does not hold has to be proved to be decided (`IsDecided`). The
//! words on facts are those of `mg_facts/specs/Meanings`.
//!
//! # What the crates above can rely on
//!
//! [`laws`]: it is decided which variables are one and whether facts clash, and facts have a
//! description.
//!
//! # How
//!
//! Variables and slots can be told apart (`proofs/Telling`). Variables are one where a network of
//! equations links them, which is decided (`proofs/Identified`), so each kind of clash is found by
//! going over the facts (`proofs/Clashing`). Each variable shows a colour; the first variables of the nodes are taken one by one, sorted by colour, and each relation finds
//! the places of its ends (`proofs/Describing`).
#![tactic(auto)]

pub mod laws;
