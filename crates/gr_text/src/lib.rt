//! Places in a text, names and their spelling, a cursor over bytes, words, decimals, and budgets.
//!
//! `specs/Limits` says which texts are short enough to be read, `specs/Places` has lines and columns, `specs/Cursors` what a cursor is to its callers,
//! `specs/Words` what a word is and how a name is spelled, and `specs/Decimals` what a decimal is.
#![tactic(auto)]

ghost use Rattle.std.specs.Prelude.{◌≡◌, ℕ, ◌<◌, ◌≤◌, ◌↔◌, List, [], ◌∷◌, ◌++◌, length, string_bytes, IsTrue, IsNone, IfSome, IfNone, IfOk, OnOk, OnErr, SomeIff};

mod budget;
pub mod laws;

pub use crate::budget::Budget;
pub use gr_base::Memory;
use std::alloc::Global;
use std::marker::Model;

/// A place in a text, as people count it: the first byte stands at line 1, column 1, columns count
/// bytes, and only LF ends a line.
#[derive(Clone, Copy, Debug, PartialEq, Eq)]
pub struct Place {
    /// The line, from 1 on.
    pub line: u32,
    /// The column in bytes, from 1 on.
    pub column: u32,
}

/// A name that owns its text, which contracts see as the list of its bytes.
#[derive(Debug, Drop)]
pub struct Name {
    text: String,
}

impl Model for Name {
    ghost use Rattle.std.specs.Prelude.{List, ℕ, string_bytes};

    ghost Value = { List ℕ };

    ghost view = { λ n. string_bytes n.text };
}

impl Name {
    /// The name with a copy of this text.
    pub fn new(alloc: Global, text: &str) -> Result<Name, Memory>
        ensures { IfOk result (λ name. name ≡ text.now) }
    {
        let text = String::from_str(alloc, text)?;
        Ok(Name { text })
    }

    /// The text of the name.
    pub fn as_str(&self) -> &str
        ensures { result.now ≡ self.now }
    {
        self.text.as_str()
    }
}

ghost use Rattle.gr_text.specs.Limits.{IsShort, byte_limit};

/// The most bytes of a text that is read.
pub const BYTE_LIMIT: usize = 1_048_576;

/// Whether the text has at most [`BYTE_LIMIT`] bytes.
pub fn is_short(bytes: &[u8]) -> bool
    ensures { IsTrue result ↔ IsShort bytes.now }
{
    bytes.len() <= BYTE_LIMIT
}

// The only byte that ends a line.
const LINE_FEED: u8 = b'\n';

/// Reads bytes one by one and knows the place of the next one. No call takes memory.
///
/// Contracts see it as the bytes that were read and those that are left.
#[derive(Drop)]
pub struct Cursor<'a> {
    bytes: &'a [u8],
    at: usize,
    line: u32,
    column: u32,
}

impl<'a> Model for Cursor<'a> {
    ghost use Rattle.std.specs.Prelude.{take, drop};
    ghost use Rattle.gr_text.specs.Cursors.{Progress, StandsAt};

    ghost Value = { Progress };

    ghost view = { λ c. record { read = take c.at c.bytes.now; left = drop c.at c.bytes.now } };

    ghost invariant = { λ c. StandsAt c.bytes.now c.at c.line c.column };
}

impl<'a> Cursor<'a> {
    ghost use Rattle.gr_text.specs.Places.{place_after};

    /// A cursor at the first byte.
    pub fn new(bytes: &'a [u8]) -> Cursor<'a>
        requires { IsShort bytes.now }
        ensures { result ≡ record { read = []; left = bytes.now } }
    {
        Cursor {
            bytes,
            at: 0,
            line: 1,
            column: 1,
        }
    }

    /// Takes the next byte. `None` comes exactly at the end, where nothing changes.
    pub fn next(&mut self) -> Option<u8>
        ensures end { IsNone result ↔ (self.old.left ≡ []) }
        ensures unchanged { IfNone result (self.new ≡ self.old) }
        ensures left { IfSome result (λ b. self.old.left ≡ b ∷ self.new.left) }
        ensures read { IfSome result (λ b. self.new.read ≡ self.old.read ++ b ∷ []) }
    {
        if self.at >= self.bytes.len() {
            return None;
        }
        let byte = self.bytes[self.at];
        self.at += 1;
        if byte == LINE_FEED {
            self.line += 1;
            self.column = 1;
        } else {
            self.column += 1;
        }
        Some(byte)
    }

    /// The place of the next byte, or at the end the place behind the last one.
    pub fn place(&self) -> Place
        ensures { result ≡ place_after self.now.read }
    {
        Place {
            line: self.line,
            column: self.column,
        }
    }
}

ghost use Rattle.gr_text.specs.Words.{is_word_byte, FitsWordAt, IsBareWord, Spells};
ghost use Rattle.gr_text.specs.Decimals.{IsDecimal};
ghost use Rattle.std.specs.Str.Parse.{digits_value};

/// Whether the byte may stand in a word: an ASCII letter, an ASCII digit, `_`, or a byte of at
/// least 0x80.
pub fn is_word_byte(b: u8) -> bool
    ensures { result ≡ is_word_byte b }
{
    b.is_ascii_alphanumeric() || b == b'_' || b >= 0x80
}

// Whether the byte at this index is a word byte, or `-` right before one.
fn fits_word(bytes: &[u8], at: usize) -> bool
    requires { at < length bytes.now }
    ensures { IsTrue result ↔ FitsWordAt bytes.now at }
{
    if is_word_byte(bytes[at]) {
        return true;
    }
    bytes[at] == b'-' && at + 1 < bytes.len() && is_word_byte(bytes[at + 1])
}

/// Whether the text is exactly one word. A word begins with a word byte, and each of its bytes is a
/// word byte or a `-` that stands right before one. The empty text is no word.
pub fn is_bare(text: &str) -> bool
    ensures { IsTrue result ↔ IsBareWord text.now }
{
    let bytes = text.as_bytes();
    if bytes.is_empty() || !is_word_byte(bytes[0]) {
        return false;
    }
    for at in 0..bytes.len() {
        if !fits_word(bytes, at) {
            return false;
        }
    }
    true
}

/// Appends the one spelling of a name: the text itself where it is one word, and else the text
/// between `"`. For want of memory `out` keeps its old text.
pub fn push_name(out: &mut String, text: &str) -> Result<(), Memory>
    ensures ok { OnOk result ((spelling : List ℕ) × Spells spelling text.now
        × (string_bytes out.new ≡ string_bytes out.old ++ spelling)) }
    ensures err { OnErr result (string_bytes out.new ≡ string_bytes out.old) }
{
    if is_bare(text) {
        out.push_str(text)?;
        return Ok(());
    }
    out.reserve(text.len() + 2)?;
    out.push('"')?;
    out.push_str(text)?;
    out.push('"')?;
    Ok(())
}

// The most digits that a decimal has.
const MOST_DIGITS: usize = 9;

/// The number that the text spells. `None` comes exactly where the text is neither `0` nor one to
/// nine ASCII digits of which the first isn't `0`.
pub fn read_decimal(text: &str) -> Option<u32>
    ensures { SomeIff result (IsDecimal text.now) (digits_value 10 text.now) }
{
    let bytes = text.as_bytes();
    if bytes.is_empty() || bytes.len() > MOST_DIGITS || !bytes[0].is_ascii_digit() {
        return None;
    }
    if bytes[0] == b'0' && bytes.len() > 1 {
        return None;
    }
    match text.parse() {
        Ok(number) => Some(number),
        Err(_) => None,
    }
}

#[cfg(test)]
mod tests {
    use super::*;
    use std::test::Fail;

    #[test]
    fn a_cursor_gives_bytes_and_places(rt: HostRuntime) {
        // `ä` is two bytes, and CR is a byte like any other.
        let steps = [
            (1, 1, Some(0xc3)),
            (1, 2, Some(0xa4)),
            (1, 3, Some(b'\n')),
            (2, 1, Some(b'\r')),
            (2, 2, Some(b'\n')),
            (3, 1, Some(b'x')),
            (3, 2, None),
            (3, 2, None),
        ];
        let mut cursor = Cursor::new("ä\n\r\nx".as_bytes());
        for (line, column, byte) in steps {
            assert_eq!(rt; cursor.place(), Place { line, column });
            assert_eq!(rt; cursor.next(), byte, "at line {line}, column {column}");
        }
    }

    #[test]
    fn a_name_is_its_bytes(rt: HostRuntime) -> Result<(), Fail> {
        let name = Name::new(rt.alloc(), "np")?;
        assert_eq!(rt; name.as_str().as_bytes(), [110, 112].as_slice());
        Ok(())
    }

    #[test]
    fn a_word_has_no_dash_at_an_end(rt: HostRuntime) {
        let table = [
            ("x", true),
            ("x-y", true),
            ("x-y-z", true),
            ("ä", true),
            ("0_A", true),
            ("-x", false),
            ("x-", false),
            ("x--y", false),
            ("x--", false),
            ("-", false),
            ("", false),
            ("a b", false),
            ("x\"", false),
        ];
        for (text, bare) in table {
            assert_eq!(rt; is_bare(text), bare, "text {text}");
        }
    }

    #[test]
    fn names_are_words_or_stand_in_quotes(rt: HostRuntime) -> Result<(), Fail> {
        let mut out = String::new(rt.alloc());
        for text in ["np", "x-y", "-x", "", "ä", "a b"] {
            push_name(&mut out, text)?;
            out.push('.')?;
        }
        assert_eq!(rt; out.as_str(), "np.x-y.\"-x\".\"\".ä.\"a b\".");
        Ok(())
    }

    #[test]
    fn decimals_have_one_spelling(rt: HostRuntime) {
        let table = [
            ("0", Some(0)),
            ("9", Some(9)),
            ("10", Some(10)),
            ("123456789", Some(123_456_789)),
            ("999999999", Some(999_999_999)),
            ("00", None),
            ("01", None),
            ("1234567890", None),
            ("", None),
            ("1a", None),
            ("+1", None),
            ("-1", None),
            (" 1", None),
        ];
        for (text, number) in table {
            assert_eq!(rt; read_decimal(text), number, "text {text}");
        }
    }

    #[test]
    fn words_have_letters_digits_and_bytes_from_0x80(rt: HostRuntime) {
        for b in *b"azAZ09_\x80\xff" {
            assert!(rt; is_word_byte(b), "byte {b}");
        }
        for b in *b"-.?\"\\ \n\0/:@[`{\x7f" {
            assert!(rt; !is_word_byte(b), "byte {b}");
        }
    }
}
