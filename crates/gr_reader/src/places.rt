//! Places by the numbers of tokens, for what is refused at a token or at the end.
ghost use Rattle.std.specs.Prelude.{◌≡◌};
ghost use Rattle.gr_reader.specs.Places.{place_of_token};
ghost use Rattle.gr_text.specs.Limits.{IsShort};
ghost use Rattle.gr_text.specs.Places.{place_after};

use gr_text::{Cursor, Place};
use gr_tokens::{ReadRefusal, Token};

/// The place behind the last byte.
pub fn end_place(bytes: &[u8]) -> Place
    requires { IsShort bytes.now }
    ensures { result ≡ place_after bytes.now }
{
    let mut cursor = Cursor::new(bytes);
    while let Some(_byte) = cursor.next() {}
    cursor.place()
}

/// The place of the token with this number, counted from 0, or that of the end of the bytes where
/// there is no such token.
pub fn place_of_token(bytes: &[u8], tokens: &[Token], number: usize) -> Place
    requires { IsShort bytes.now }
    ensures { result ≡ place_of_token bytes.now tokens.now number }
{
    match tokens.get(number) {
        Some(token) => token.place,
        None => end_place(bytes),
    }
}

/// The refusal of a text that breaks off before the token with this number, counted from 0, or at
/// the end of the bytes where there is no such token.
pub fn breaks_off(bytes: &[u8], tokens: &[Token], number: usize) -> ReadRefusal
    requires { IsShort bytes.now }
    ensures { result ≡ ReadRefusal.Syntax (place_of_token bytes.now tokens.now number) }
{
    ReadRefusal::Syntax(place_of_token(bytes, tokens, number))
}
