//! The syntax of a whole file of grammar text.
ghost use Rattle.std.specs.Prelude.{◌≡◌, ◌-◌, List, ℕ, length, take, MatchOption};
ghost use Rattle.gr_text.specs.Limits.{IsShort};
ghost use Rattle.gr_text.specs.Places.{place_after};
ghost use Rattle.tg_syntax.specs.Answers.{BreaksAt, IsGrammarFile, IsSyntaxAnswer};

use crate::reader::Reader;
use crate::scanner::Scanner;
use gr_text::{Cursor, Place};

/// The place in a text of at most 1,048,576 bytes where this many bytes are left.
pub fn place_with(bytes: &[u8], left: usize) -> Place
    requires { IsShort bytes.now }
    ensures { result ≡ place_after (take (length bytes.now - left) bytes.now) }
{
    let mut cursor = Cursor::new(bytes);
    for _at in 0..bytes.len().saturating_sub(left) {
        let _byte = cursor.next();
    }
    cursor.place()
}

/// How many bytes are left where a reading from the front stops: at the first byte of the first name
/// or variable that breaks the rule on properties, else at the first byte after which no text goes
/// on. `None` where the bytes are a text.
fn stop_in(bytes: &[u8]) -> Option<usize>
    ensures { MatchOption result (IsGrammarFile bytes.now) (λ left. (at : List ℕ) × BreaksAt bytes.now at × (left ≡ length at)) }
{
    let mut reader = Reader {
        scanner: Scanner { rest: bytes },
        broken: None,
    };
    let outcome = reader.file();
    if let Some(left) = reader.broken {
        return Some(left);
    }
    match outcome {
        Ok(()) => {
            if reader.scanner.rest.len() == 0 {
                return None;
            }
            Some(reader.scanner.rest.len())
        }
        Err(_) => Some(reader.scanner.rest.len()),
    }
}

/// Whether the bytes are a text of the grammar, version 1, in which no property breaks the rule on
/// names. Otherwise the answer is the place where a reading from the front stops: the first byte of
/// the first name or variable that breaks the rule and that another byte follows, or else the first
/// byte after which no text goes on, or the end of bytes that are too few. A name that is too long,
/// and a bracket inside 200 open ones, are such bytes.
///
/// Whether the bytes are UTF-8, and whether they have another version, is not asked here; nor
/// whether the text is the canonical one. It takes no memory.
pub fn check_syntax(bytes: &[u8]) -> Result<(), Place>
    requires { IsShort bytes.now }
    ensures { IsSyntaxAnswer bytes.now result }
{
    match stop_in(bytes) {
        None => Ok(()),
        Some(left) => Err(place_with(bytes, left)),
    }
}
