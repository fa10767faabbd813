//! What all readers of token files share, so that a reader is its grammar, its values and its
//! ordinary functions.
//!
//! # Model
//!
//! - A *lexeme* (`specs/Lexemes`) is what a grammar sees of a token: its kind and its text, without
//!   the `?` of a variable and the `"` of a string. `lexemes bytes tokens` is the list of them.
//! - Grammars are those of `gr_grammar`, over the classes of `specs/Classes`: a sign, a word by its
//!   text, words outside or inside a list, strings, names, variables. `system_of` makes a system of
//!   numbered parts and what is written down of them; `flat` is the one without numbered parts.
//! - A [`reader::Reader`] is the list of the lexemes that are left, no more. It tests the next one,
//!   takes it, or numbers its text, each in the time that the text takes. Nothing is copied.
//! - Places go by the numbers of tokens, counted from 0 ([`places`]): that of the token, or that of
//!   the end of the bytes. Where m lexemes are left of n, the next token has the number n - m.
//! - A [`complaints::Complaint`] has the number of lexemes that are left at its token, so that a
//!   function of a tree can say it. The one with the most left stands first.
//!
//! # Contract for the readers above
//!
//! - A function that reads a part promises `Reads` or `Takes` of `specs/Parts`: it makes a run of the
//!   part, and its answer is right for the run's tree. `proofs/Steps` has a lemma for each step:
//!   `token_run`, `token_stops`, `number_names`, `skip_run`, `first_stops`, `then_stops` and more.
//! - A whole file: [`brackets::shallow`] counts the tokens before the first bracket that opens inside
//!   200 open ones, the reader goes over those, and `proofs/Files` turns how its run ends into
//!   `IsFileAnswer` of `specs/Files`: a text without complaints and its value, the place where it
//!   breaks off, or the first complaint.
//! - Where the grammar of a file has no numbered parts and opens no bracket too deep, its reader goes
//!   over all tokens and ends by [`whole::whole_file`]: what is left, a stop or the first complaint
//!   becomes the refusal. `whole_answer` of `proofs/WholeFiles` makes `IsFileAnswer` of that, and
//!   `answer_map` and `answer_has` what the reader says of it.
//! - A front of the tokens, as a bag in the middle of a file: `IsFrontReading` of `specs/Fronts`,
//!   given by a run (`front_took` and `front_failed` of `proofs/Fronts`), and given back as a run
//!   to the reader around it (`front_run`, `no_front_run`).
//! - Where a grammar without numbered parts opens no bracket too deep, which `level_behind` computes,
//!   the limit says nothing (`proofs/Levels`).
//! - [`laws`] has the theorems as contracts.
#![tactic(auto)]

pub mod brackets;
pub mod class;
pub mod complaints;
pub mod laws;
pub mod places;
pub mod reader;
pub mod whole;
