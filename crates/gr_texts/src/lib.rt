//! Writes texts from lexemes, so that the tokens of a text are the lexemes that it was written
//! from.
//!
//! `specs/Lexemes` says how a lexeme is spelled, and what is printed from items of lexemes: a line
//! for each item, with one space between each two lexemes. A [`Writer`] appends
//! lexemes, and `laws` says that the tokens of what was printed are its lexemes in order.
#![tactic(auto)]

pub mod laws;
mod writer;

pub use crate::writer::Writer;
