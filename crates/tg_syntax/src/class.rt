//! Classes of bytes.
ghost use Rattle.std.specs.Prelude.{◌≡◌};
ghost use Rattle.tg_syntax.specs.Bytes.{is_string_byte as is_inside, test};

use gr_text::is_word_byte;

/// A class of bytes, as the grammar of grammar text has them.
#[derive(Clone, Copy, Debug, PartialEq, Eq)]
pub enum Class {
    /// This byte.
    Byte(u8),
    /// A byte that may stand in a word.
    WordByte,
    /// A byte that may stand in a word, but not this one.
    WordByteBut(u8),
    /// A byte that may stand inside a string.
    StringByte,
    /// A digit.
    Digit,
    /// A digit that isn't `0`.
    HighDigit,
}

/// Whether the byte may stand inside a string.
fn is_string_byte(b: u8) -> bool
    ensures { result ≡ is_inside b }
{
    b >= 0x20 && (b != b'"' && (b != b'\\' && b != 0x7f))
}

impl Class {
    /// Whether the byte is of the class.
    pub fn has(self, b: u8) -> bool
        ensures { result ≡ test self b }
    {
        match self {
            Class::Byte(only) => b == only,
            Class::WordByte => is_word_byte(b),
            Class::WordByteBut(other) => is_word_byte(b) && b != other,
            Class::StringByte => is_string_byte(b),
            Class::Digit => b'0' <= b && b <= b'9',
            Class::HighDigit => b'1' <= b && b <= b'9',
        }
    }
}
