//! Grammars as data, and readers that are exact about the first place where a text breaks off.
//!
//! This layer says once, for tokens of any type, what a reader of a grammar must answer, and proves
//! that ordinary recursive descent with one token of lookahead answers so. Tokens may be words or
//! bytes. The readers of files stand on it.
//!
//! The limit on brackets sees a token alone. So where a byte inside a string may look like a
//! bracket, the tokens have to tell the two apart. And a place is always that of the first token
//! after which no text goes on: a reader that owes an earlier one, as the first byte of a name that
//! breaks a rule, needs an answer of its own beside `IsReading`.
//!
//! # Model
//!
//! - A grammar is a term (`Grammar` of `specs/Grammars`): a token of a class, nothing, two parts one
//!   after another, a choice, a row, or a numbered part. A `System` has the numbered parts, which
//!   may lead back to themselves, and says which token is of which class.
//! - A tree (`Matches`) shows that a front of the tokens is a text; `IsText` asks for all of them.
//!   What a text means is a function of its tree.
//! - `IsFault` is the first place after which no text goes on: the tokens before it begin a text, and
//!   with the next token they don't, or there is no next token and they are no text.
//!   `IsShallowFault` is the same where brackets may stand inside each other up to a limit only; an
//!   opening bracket inside as many open ones as the limit is then the place, if none is before it.
//! - `is_clear` computes whether the next token always decides. `IsSystem` lists what is shown once
//!   of a system; most of it is by computation.
//! - `Runs` is what recursive descent does, choice by choice, and how it ends.
//! - `IsReading` of `specs/Readings` is the one definition of a reader's answer.
//!
//! # Contract for the readers above
//!
//! - A parse function of a part shows a run of that part, and its value as the value of the run's
//!   tree. It speaks of no text and no place.
//! - The public function of a reader promises `IsReading`. Its proof puts the run of the tokens
//!   before the first deep bracket into `taken`, `stopped`, `left_over` or `at_deep` of
//!   `proofs/Answers`; `proofs/Cuts` makes that cut, `proofs/Loops` makes a row's run of a loop.
//! - [`laws`] has the theorems as contracts: each list of tokens has one run, which takes exactly a
//!   text or stops at exactly the first place, with the limit and without; a text has one tree, so
//!   one value; there is one place, and one answer.
//! - [`brackets`] counts the open brackets. [`balanced`] is a small reader over bytes, written as the
//!   readers above are.
#![tactic(auto)]

pub mod balanced;
pub mod brackets;
pub mod laws;
