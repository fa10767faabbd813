//! The lexemes that are left to read.
ghost use Rattle.std.specs.Prelude.{◌≡◌, ◌≤◌, length, false, slice_range, MatchOption, MatchResult, OnErr};
ghost use Rattle.gr_base.specs.Lists.{NoneTwice};
ghost use Rattle.gr_symbols.specs.Numbers.{Grows};
ghost use Rattle.gr_tokens.specs.Answers.{AreTokens};
ghost use Rattle.gr_reader.specs.Lexemes.{HasText, Lexeme, lexeme_of, lexemes, text_from, text_to};
ghost use Rattle.gr_reader.specs.Classes.{class_of, sees, test};
ghost use Rattle.gr_reader.specs.Parts.{Skips, Stands, Stays, StaysFor, TookNumber, TookText};

use crate::class::Class;
use gr_base::Memory;
use gr_symbols::Symbols;
use gr_terms::Sym;
use gr_tokens::{Kind, Token};
use std::marker::Model;
use std::str;

/// Why reading a part ends early.
#[derive(Clone, Copy, Debug, PartialEq, Eq)]
pub enum Stop {
    /// No text goes on with the next token.
    Syntax,
    /// Want of memory.
    Memory,
}

impl From<Memory> for Stop {
    ghost use Rattle.gr_reader.specs.declared.reader.Stop.TheVariants.{Memory as NoMemory};

    ghost from_gives = { λ _ e. e ≡ NoMemory };

    fn from(_memory: Memory) -> Stop {
        Stop::Memory
    }
}

/// The text of a token: of a string what stands inside, of a variable its word.
pub fn text_of<'a>(bytes: &'a [u8], token: &Token) -> &'a [u8]
    requires { HasText bytes.now token.now }
    ensures { result.now ≡ slice_range bytes.now (text_from token.now) (text_to token.now) }
{
    match token.kind {
        Kind::Word => &bytes[token.from..token.to],
        Kind::Str => &bytes[token.from + 1..token.to - 1],
        Kind::Var => &bytes[token.from + 1..token.to],
        Kind::Punct => &bytes[token.from..token.to],
    }
}

/// The lexemes that are left to read, which contracts see as the list of them.
#[derive(Drop)]
pub struct Reader<'a> {
    bytes: &'a [u8],
    rest: &'a [Token],
}

impl<'a> Model for Reader<'a> {
    ghost use Rattle.std.specs.Prelude.{List};
    ghost use Rattle.gr_base.specs.Lists.{Each};
    ghost use Rattle.gr_reader.specs.Lexemes.{HasText, Lexeme, lexemes};

    ghost Value = { List Lexeme };

    ghost view = { λ r. lexemes r.bytes.now r.rest.now };

    ghost invariant = { λ r. Each (HasText r.bytes.now) r.rest.now };
}

impl<'a> Reader<'a> {
    /// The lexemes of the tokens from one number on, before another one. The tokens are those of
    /// the bytes.
    pub fn between(bytes: &'a [u8], tokens: &'a [Token], from: usize, to: usize) -> Reader<'a>
        requires tokens { AreTokens bytes.now tokens.now }
        requires order { from ≤ to }
        requires within { to ≤ length tokens.now }
        ensures { result ≡ lexemes bytes.now (slice_range tokens.now from to) }
    {
        Reader {
            bytes,
            rest: &tokens[from..to],
        }
    }

    /// How many lexemes are left.
    pub fn left(&self) -> usize
        ensures { result ≡ length self.now }
    {
        self.rest.len()
    }

    /// Whether the next lexeme is of the class.
    pub fn sees(&self, class: Class<'_>) -> bool
        ensures { result ≡ sees (class_of class.entry) self.now }
    {
        match self.rest.first() {
            None => false,
            Some(token) => class.has_kind(token.kind) && class.has_text(text_of(self.bytes, token)),
        }
    }

    /// The text of the next lexeme, if it is of the class.
    pub fn text(&self, class: Class<'_>) -> Option<&'a str>
        ensures { MatchOption result (sees (class_of class.entry) self.now ≡ false)
            (λ text. Stands (class_of class.entry) self.now text.now) }
    {
        let (token, _more) = self.rest.split_first()?;
        let text = text_of(self.bytes, token);
        if !class.has_kind(token.kind) || !class.has_text(text) {
            return None;
        }
        match str::from_utf8(text) {
            Ok(text) => Some(text),
            Err(_) => unreachable!(),
        }
    }

    /// Takes the next lexeme if it is of the class, and answers its text. Else nothing changes.
    pub fn take(&mut self, class: Class<'_>) -> Result<&'a str, Stop>
        ensures { MatchResult result (λ text. TookText (class_of class.entry) self.old self.new text.now)
            (λ e. (e ≡ Stop.Syntax) × Stays (class_of class.entry) self.old self.new) }
    {
        let Some(text) = self.text(class) else {
            return Err(Stop::Syntax);
        };
        self.rest = &self.rest[1..];
        Ok(text)
    }

    /// Takes the next lexeme if it is of the class, and answers the number of its text, which may be
    /// new to the table. Else, and for want of memory, nothing changes.
    pub fn take_number(&mut self, class: Class<'_>, symbols: &mut Symbols) -> Result<Sym, Stop>
        ensures takes { MatchResult result (λ sym. TookNumber (class_of class.entry) self.old self.new symbols.new sym.0)
            (λ e. StaysFor (class_of class.entry) self.old self.new e) }
        ensures grows { Grows symbols.old symbols.new }
        ensures kept { OnErr result (symbols.new ≡ symbols.old) }
    {
        let Some(text) = self.text(class) else {
            return Err(Stop::Syntax);
        };
        let sym = symbols.intern(text)?;
        self.rest = &self.rest[1..];
        Ok(sym)
    }

    /// Skips the next lexeme if it is of the class, and says whether it did.
    pub fn skip(&mut self, class: Class<'_>) -> bool
        ensures { Skips (class_of class.entry) self.old self.new result }
    {
        if !self.sees(class) {
            return false;
        }
        self.rest = &self.rest[1..];
        true
    }
}
