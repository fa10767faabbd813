//! Reads a metagrammar: the bytes of a file become its syntax tree, or a refusal with its place.
//!
//! # Model
//!
//! - A *lexeme* ([`Lexeme`], `specs/Lexemes`) is what the grammar sees of a token: its kind, the
//!   number of its name, and its place. Each sign and each word of the grammar is a kind of its own,
//!   and a class of lexemes is a stretch of the kinds in their order (`specs/Kinds`).
//! - `specs/Spelling` says which lexemes spell which metagrammar, by a rule for each form that a text
//!   can have. It stands apart from the reader, and is what a printer has to meet.
//! - `specs/Grammar` is the same grammar as data, in which the next lexeme decides, `specs/Values`
//!   the metagrammar of each of its trees, and `specs/Complaints` the complaints, in the order of the
//!   text: an attribute that stands a second time in a list, and the first class that is too many.
//! - `specs/Answers` says which answer is right for the bytes under a table of names.
//! - `specs/Tables` says which table of names is right behind the bytes, from the one before: the texts
//!   of words, strings and variables that are new stand behind the old ones, in the order of the text.
//!
//! # How it is done
//!
//! The tokens become lexemes, and all names get their numbers ([`read_metagrammar`] in `answer`).
//! Then ordinary recursive descent goes over the lexemes before the first bracket that opens too
//! deep: `terms`, `literals`, `statements`, `properties` and `headers` are methods of a `Cursor`,
//! which is the lexemes that are left; `lists`, `blocks`, `bodies` and `items` those of a `Reader`,
//! which keeps the first complaint beside. Each function shows a run of its part of the grammar and
//! the value of the run's tree (`specs/Reading`). It recurs inside brackets alone, so at most 200
//! deep. An attribute that stands again is found by a table, so that no list takes the square of its
//! length.
//!
//! # Contract for the crates above
//!
//! - [`read_metagrammar`] answers with `IsMetagrammar` of `specs/Answers`, or with the one refusal
//!   that is right, or for want of memory. The table of names only grows, by no more texts than there
//!   are bytes, and but for want of memory it is the one that `IsTable` of `specs/Tables` allows.
//! - [`laws`]: what is spelled is a text of the grammar without complaints, and the other way round;
//!   for a table in which no text stands twice one answer is right; and for each text and table before
//!   it just one table is right behind it, in which no text stands twice where none did before.
#![tactic(auto)]

mod answer;
mod blocks;
mod bodies;
mod cursor;
mod found;
mod headers;
mod items;
pub mod laws;
mod lexeme;
mod lists;
mod literals;
mod notes;
mod properties;
mod reader;
mod statements;
mod terms;

pub use answer::read_metagrammar;
pub use lexeme::{Class, Kind, Lexeme};
pub use notes::CLASS_LIMIT;
