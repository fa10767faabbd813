//! The syntax of grammar text, version 1: which bytes are a text of its grammar, and the place where
//! other bytes break off.
//!
//! A text is lines: `grammar 1`, for each class its name, its trees with their numbers, and how many
//! they are, and `end`. This layer says what the lines may be made of. Whether they are just the lines
//! that are written for some trees, with pairs in order, names spelled in their one way and right
//! numbers, is asked by the crate above.
//!
//! # Model
//!
//! - The grammar is over bytes (`specs/Names`, `specs/Trees`, `specs/Files`), and the next byte always
//!   decides. Limits are part of it: what may follow in a word or a string is a part for each number
//!   of bytes that are left, and a node is a part for each number of brackets that may still be
//!   opened. `specs/Families` numbers these parts.
//! - A bracket that stands too deep is refused at its own place. So the sign before a bag may stand
//!   inside 200 open brackets, where nothing follows it (`never`).
//! - A property isn't named `cat` or `color`, and `mark` has one of six marks as value. `specs/Breaks`
//!   says which properties break this and at which name or variable: one that is over, since a byte
//!   follows that can't go on with it. A reading from the front meets the properties in order
//!   (`specs/Visits`); the first that breaks the rule is refused at the first byte of the name or
//!   variable.
//! - `specs/Answers` says which answer is right: where no property that was met breaks the rule, the
//!   place is that of the first byte after which no text goes on.
//!
//! # How it is done
//!
//! Ordinary recursive descent without any memory: a [`Scanner`](scanner) takes names, numbers, bags
//! and literals from the front of the bytes, and a `Reader` nodes, lines and classes, with the first
//! break beside. Each function shows a run of its part of the grammar. It recurs inside parentheses
//! alone, so at most 200 deep.
//!
//! # Contract for the crates above
//!
//! - [`check_syntax`] says that the bytes are a text of the grammar in which no property breaks the
//!   rule, or the one place where a reading from the front stops.
//! - [`laws::one_answer`]: just one such answer is right for each text of bytes.
#![tactic(auto)]

mod answer;
mod breaks;
mod class;
pub mod laws;
mod reader;
mod scanner;
mod trees;

pub use answer::{check_syntax, place_with};
pub use class::Class;
