//! Reads a lexicon: the bytes of a file become its entries, or a refusal with its place.
//!
//! # What it does
//!
//! An entry says which trees a lemma has: all those of a family, once the entry's interface, the
//! features of its anchor and its co-anchors fit. It also has the literals that the lemma means.
//! [`read_lexicon`] reads the entries of a file.
//!
//! # Model
//!
//! - `specs/Grammars` has the grammar of a lexicon as data, in which the next token decides, and what
//!   is written in an entry as functions of its tree: texts, and how many tokens are left at those
//!   that may be complained of.
//! - `specs/Complaints` has the complaints of what is written, in the order of the text: an entry
//!   with more than [`LITERAL_LIMIT`] literals, an empty lemma, an attribute that stands a second time
//!   in a bag, the name of a co-anchor that stands a second time, and a co-anchor's empty lemma. They
//!   don't depend on any table.
//! - `specs/Entries` says which [`Entry`] a written one is, by a table of texts: names are the
//!   numbers of their texts, and variables are numbered by first meeting in their entry.
//! - `specs/Answers` says which answer is right for the bytes, and which table of texts is right
//!   behind it: the one before, with the names and variables of the lexicon in the order of the text.
//!
//! # How it is done
//!
//! `parts` goes over the tokens by recursive descent and gives what it found in an entry, with the
//! places (`found`); bags and literals are read by `gr_feats`. `notes` then keeps the first complaint
//! of an entry that was found, and makes the entry of it. So the whole file is read before a complaint
//! counts. Brackets of a lexicon stand at most three deep, so the limit on brackets says nothing, and
//! isn't looked at. A name that stands again is found by a table, not by a walk over those before.
//!
//! # Contract for the layer above
//!
//! - [`read_lexicon`] promises the right answer and the right table, `IsLexiconAnswer`. After a
//!   refusal, the table has only grown.
//! - [`laws`]: behind one table one answer is right, and one new table; by one given table one answer
//!   is right (`IsLexiconReading`), and stays right as it grows; and what every entry that was read
//!   keeps: few literals, co-anchors of different names, and no empty lemma.
#![tactic(auto)]

mod entry;
mod found;
pub mod laws;
mod notes;
mod parts;
mod read;

pub use entry::{CoNames, Entry, LITERAL_LIMIT, Lexicon};
pub use gr_base::Memory;
pub use read::read_lexicon;
