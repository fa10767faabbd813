//! That what is counted and written of descriptions exists.
//!
//! # Model
//!
//! `specs/TextsOfModels` says that the attributes of a description differ by their texts, and which
//! bytes are the text of a minimal model. That something is decided, and that values can be told
//! apart, are words of `gr_base` (`specs/Decisions`).
//!
//! # What the crates above can rely on
//!
//! [`laws`] has, for variables and slots of any types whose values can be told apart:
//!
//! - the forests of the first m nodes are finitely many, and so are the forest models and the minimal
//!   models of a description;
//! - a tree whose network agrees has a canonical text, and the texts of the minimal models of a
//!   description are finitely many, where attributes differ by their texts.
//!
//! So what is said of each number or list of these is never said of nothing.
//!
//! # How
//!
//! Each forest of one node more comes
//! by a step from one without it, and steps are finitely many; which of the forests are models is
//! decided by going over positions, sets and relations (`proofs/Placing`, `proofs/Counting`). For a
//! canonical form the pairs of each slot are sorted by the texts of their attributes
//! (`proofs/Sorting`), terms get labels by their classes in the order of a walk (`proofs/Labelling`),
//! and both make the form (`proofs/Forming`, `proofs/Solving`).
#![tactic(auto)]

pub mod laws;
