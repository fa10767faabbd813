//! Refusals, and the one line that a run writes for one.
//!
//! `specs/Lines` says what the line is: the word `refused`, the code, and the parts, with one space
//! before each, and a line feed. Names are spelled as in files, and variables have a `?`.
//! [`push_line`] writes just that, and [`laws`] says that no other line is right.
#![tactic(auto)]

pub mod laws;
mod line;
mod refusal;

pub use gr_base::Memory;
pub use line::push_line;
pub use refusal::{Refusal, Role};
