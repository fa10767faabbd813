//! That compiled lists can be written and read back, and that no mark in them is a variable.
//!
//! # Model
//!
//! A compiled class (`specs/CompiledClasses`) is a class of a metagrammar with trees that are those of
//! minimal models of its expansions, beside their texts. What can be written is said in
//! `tg_reader/specs/Writable` and `tg_text/specs/Answers`.
//!
//! # What the crates above can rely on
//!
//! [`laws`]: a compiled class of a metagrammar that was read can be written; what is written of
//! compiled classes is a text of the grammar, and reading it gives classes of which the same is
//! written; and neither in trees that were read nor in trees that were compiled is a mark a variable,
//! as anchoring wants it.
//!
//! # How
//!
//! The lexemes of a text have names that can be spelled, those of words are words, and keywords have
//! fixed numbers (`proofs/Names`). So all that the statements of a class say of attributes and names
//! can be written, and an own list gets its mark from the six words alone (`proofs/Spelled`,
//! `proofs/Sayings`). An expansion says only what its statements say (`proofs/Walks`). In the network
//! of a model, own lists are linked with own lists alone, and a term that is linked with a name is
//! that name or stands where a name that can be spelled does, so the form of the model can be written
//! (`proofs/ModelForms`), and so can a tree with that form (`proofs/FormTrees`).
#![tactic(auto)]

pub mod laws;
