//! Reads a file of inputs: the bytes become the flat meanings that are to be said, or a refusal with
//! its place.
//!
//! # What it does
//!
//! An [`Input`] has a name, the features that a sentence for it has to have, and literals.
//! [`read_inputs`] reads those of a file. Literals that are equal as they are written count once, and
//! a handle that is left out gets a name of its own that no file can spell. So whoever matches trees
//! with an input sees different literals, without variables, at most [`LITERAL_LIMIT`].
//!
//! # Model
//!
//! - `specs/Grammars` has the grammar as data, in which the next token decides, and what is written in
//!   an input as functions of its tree: texts, and how many tokens are left at its word.
//! - `specs/Firsts` says which literals are equal as they are written, and which of several no equal
//!   one stands before.
//! - `specs/Complaints` has the complaints of what is written: too many different literals, too many
//!   inputs, an attribute that stands a second time in a bag, and the first variable. They don't
//!   depend on any table. The one that stands first counts, and at one place the first of the list.
//! - `specs/Inputs` says which [`Input`] a written one is, by a table of texts: names are the numbers
//!   of their texts, and the handle that is left out at the n-th literal is that of LF and n.
//! - `specs/Tables` has the texts that inputs name, which the table of texts gets: for each input the
//!   names and variables as they stand in it, and then the names of the handles that were left out.
//! - `specs/Answers` says which answer and which table are right for the bytes, and `specs/Reading`
//!   what the parts are while they are read.
//!
//! # How it is done
//!
//! `literals` goes over the literals by recursive descent as they are written, with a variable as the
//! number of its name, and keeps each once (`kept`); behind one more than an input may have it keeps
//! none, so each literal is compared with 25 at most. `inputs` reads the rest of an input, notes what
//! is wrong with it and names the handles. The whole file is read before a complaint counts. Its
//! brackets stand two deep at most, so the limit on brackets says nothing, and isn't looked at. The
//! first variable is found among the tokens.
//!
//! # Contract for the layer above
//!
//! - [`read_inputs`] promises the right answer and the right table, `IsInputsAnswer`. After a refusal,
//!   the table has only grown, by no more texts than there are bytes.
//! - [`laws`]: behind one table one answer is right, and one new table; by one given table one answer
//!   is right (`IsInputsReading`), and stays right as it grows; inputs that were read are ground, and
//!   no name of a file is that of a handle that was left out.
#![tactic(auto)]

mod input;
mod inputs;
mod kept;
pub mod laws;
mod literals;
mod raw;
mod read;

pub use gr_base::Memory;
pub use input::{INPUT_LIMIT, Input, LITERAL_LIMIT};
pub use read::read_inputs;
