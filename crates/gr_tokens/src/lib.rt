//! Cuts a text into its tokens, each with its place.
//!
//! `specs/Tokens` says what the tokens of a text are, and `specs/Answers` which answer is right
//! for a text; `laws` says that there is just one. Inside, `fronts` has a function for each class
//! of tokens, and `cut` goes over the text.
#![tactic(auto)]

mod cut;
mod fronts;
pub mod laws;

ghost use Rattle.std.specs.Prelude.{◌≡◌, ◌⊎◌, IfOk, IfErr};
ghost use Rattle.gr_tokens.specs.Answers.{AreTokens, IsRefused};
ghost use Rattle.gr_text.specs.Limits.{IsShort};

use crate::cut::cut;
use gr_base::Memory;
use gr_text::Place;
use std::alloc::Global;
use std::str;

/// What a token is.
#[derive(Clone, Copy, Debug, PartialEq, Eq)]
pub enum Kind {
    /// A word.
    Word,
    /// A string, between `"` and `"`.
    Str,
    /// A variable, `?` and a word.
    Var,
    /// A sign, as `->` or `{`.
    Punct,
}

/// A token of a text. Its bytes are those from `from` on, before `to`.
#[derive(Clone, Copy, Debug, PartialEq, Eq)]
pub struct Token {
    /// What the token is.
    pub kind: Kind,
    /// How many bytes of the text stand before the token.
    pub from: usize,
    /// How many bytes of the text stand before its end.
    pub to: usize,
    /// The place of its first byte.
    pub place: Place,
}

/// Why a reader doesn't read a text. [`tokens`] answers with `NotUtf8`, `Syntax` and `Memory`
/// alone; the others are those of the readers of tokens.
#[derive(Clone, Copy, Debug, PartialEq, Eq)]
pub enum ReadRefusal {
    /// Cutting into tokens, or the grammar, stops at this place.
    Syntax(Place),
    /// The text isn't UTF-8. The longest front of it that is has this length.
    NotUtf8(usize),
    /// An attribute is given twice, the second time at this place.
    Duplicate(Place),
    /// There are too many classes.
    TooManyClasses(Place),
    /// The grammar text has this version.
    Version(u32),
    /// This line of a grammar text isn't the canonical one.
    NotCanonical(u32),
    /// A word or a lemma is empty.
    EmptyWord(Place),
    /// An entry has too many literals.
    EntryLiterals(Place),
    /// A variable stands in an input.
    Variable(Place),
    /// An input has too many literals.
    InputLiterals(Place),
    /// There are too many inputs.
    TooManyInputs(Place),
    /// Want of memory.
    Memory,
}

impl From<Memory> for ReadRefusal {
    ghost use Rattle.gr_tokens.specs.declared.ReadRefusal.TheVariants.{Memory as NoMemory};

    ghost from_gives = { λ _ e. e ≡ NoMemory };

    fn from(_memory: Memory) -> ReadRefusal {
        ReadRefusal::Memory
    }
}

/// The tokens of a text of at most 1,048,576 bytes, in order.
///
/// A text that isn't UTF-8 is refused as `NotUtf8` with the length of its longest front that is.
/// Another one is refused as `Syntax` at the place of the first byte that begins no token, of a
/// string without its end, or of a token with a text of more than 255 bytes, whichever stands
/// first. Want of memory may stand in place of any answer.
pub fn tokens(alloc: Global, bytes: &[u8]) -> Result<Vec<Token>, ReadRefusal>
    requires { IsShort bytes.now }
    ensures ok { IfOk result (λ found. AreTokens bytes.now found.items) }
    ensures err { IfErr result (λ refusal. (refusal ≡ ReadRefusal.Memory) ⊎ IsRefused bytes.now refusal) }
{
    match str::from_utf8(bytes) {
        Ok(_text) => cut(alloc, bytes),
        Err(error) => Err(ReadRefusal::NotUtf8(error.valid_up_to())),
    }
}
