//! Bags and literals that begin at a token.
ghost use Rattle.std.specs.Prelude.{◌≡◌, ◌+◌, ◌-◌, ◌≤◌, length, IfOk};
ghost use Rattle.gr_symbols.specs.Numbers.{Grows};
ghost use Rattle.gr_tokens.specs.Answers.{AreTokens};
ghost use Rattle.gr_reader.specs.Places.{place_of_token as token_place};
ghost use Rattle.gr_feats.specs.Answers.{IsBagAnswer, IsLiteralsAnswer, place_of_left};
ghost use Rattle.gr_feats.specs.Numberings.{GoesOnFrom};
ghost use Rattle.gr_text.specs.Limits.{IsShort};

use crate::bags::bag;
use crate::literals::closed_literals;
use crate::names::Names;
use gr_reader::places::{breaks_off, place_of_token};
use gr_reader::reader::{Reader, Stop};
use gr_symbols::Symbols;
use gr_terms::{Bag, Literals};
use gr_text::Place;
use gr_tokens::{ReadRefusal, Token};
use std::alloc::Global;

/// The place where so many tokens are left.
fn place_where_left(bytes: &[u8], tokens: &[Token], left: Option<usize>) -> Option<Place>
    requires { IsShort bytes.now }
    ensures { result ≡ place_of_left bytes.now tokens.now left }
{
    match left {
        None => None,
        Some(left) => Some(place_of_token(bytes, tokens, tokens.len().saturating_sub(left))),
    }
}

/// The refusal for a stop before the token with this number.
fn refusal(bytes: &[u8], tokens: &[Token], number: usize, stop: Stop) -> ReadRefusal
    requires { IsShort bytes.now }
    ensures syntax { stop ≡ Stop.Syntax → result ≡ ReadRefusal.Syntax (token_place bytes.now tokens.now number) }
    ensures memory { stop ≡ Stop.Memory → result ≡ ReadRefusal.Memory }
{
    match stop {
        Stop::Syntax => breaks_off(bytes, tokens, number),
        Stop::Memory => ReadRefusal::Memory,
    }
}

/// Reads the bag that begins at the token number `at`, counted from 0. The tokens are those of the
/// bytes, which are at most 1,048,576, and `at` is at most their number.
///
/// The answer is the bag, with the first pair of an attribute that stands twice; the number of the
/// token behind the bag; and the place where an attribute first stands a second time, or `None`
/// where none does. Where no bag begins there, the refusal is `Syntax` at the first token after
/// which no bag goes on, or at the end of the bytes. Any other refusal is `Memory`, also for more
/// texts or more variables than have numbers.
///
/// Texts and variables keep their numbers. Behind an answer the table has the names and variables
/// that were passed, which were taken in their order, and nothing more. After a refusal at most as
/// many texts are new as there are tokens from `at` on.
pub fn read_bag(
    alloc: Global,
    bytes: &[u8],
    tokens: &[Token],
    at: usize,
    symbols: &mut Symbols,
    names: &mut Names,
) -> Result<(Bag, usize, Option<Place>), ReadRefusal>
    requires bytes { IsShort bytes.now }
    requires tokens { AreTokens bytes.now tokens.now }
    requires at { at ≤ length tokens.now }
    ensures answer { IsBagAnswer bytes.now tokens.now at symbols.old symbols.new names.old names.new result }
    ensures grows { Grows symbols.old symbols.new }
    ensures goes_on { GoesOnFrom names.old names.new }
    ensures few { length symbols.new + at ≤ length symbols.old + length tokens.now }
    ensures few_passed { IfOk result (λ r. length symbols.new + at ≤ length symbols.old + r.1) }
{
    let mut reader = Reader::between(bytes, tokens, at, tokens.len());
    match bag(alloc, &mut reader, symbols, names) {
        Ok(gathered) => {
            let next = tokens.len() - reader.left();
            let second = place_where_left(bytes, tokens, gathered.again);
            Ok((gathered.bag, next, second))
        }
        Err(stop) => {
            let number = tokens.len() - reader.left();
            Err(refusal(bytes, tokens, number, stop))
        }
    }
}

/// Reads the literals that begin at the token number `at`, counted from 0, up to the brace that
/// closes them. The tokens are those of the bytes, which are at most 1,048,576, and `at` is at most
/// their number.
///
/// The answer is the literals and the number of the brace's token. A literal without a handle has
/// the next variable as handle. Where no literals with a brace behind them begin there, the refusal
/// is `Syntax` at the first token after which no such text goes on, or at the end of the bytes. Any
/// other refusal is `Memory`, also for more texts or more variables than have numbers.
///
/// Texts and variables keep their numbers. Behind an answer the table has the names and variables
/// that were passed, which were taken in their order, and nothing more. After a refusal at most as
/// many texts are new as there are tokens from `at` on.
pub fn read_literals(
    alloc: Global,
    bytes: &[u8],
    tokens: &[Token],
    at: usize,
    symbols: &mut Symbols,
    names: &mut Names,
) -> Result<(Literals, usize), ReadRefusal>
    requires bytes { IsShort bytes.now }
    requires tokens { AreTokens bytes.now tokens.now }
    requires at { at ≤ length tokens.now }
    ensures answer { IsLiteralsAnswer bytes.now tokens.now at symbols.old symbols.new names.old names.new result }
    ensures grows { Grows symbols.old symbols.new }
    ensures goes_on { GoesOnFrom names.old names.new }
    ensures few { length symbols.new + at ≤ length symbols.old + length tokens.now }
    ensures few_passed { IfOk result (λ r. length symbols.new + at ≤ length symbols.old + r.1 + 1) }
{
    let mut reader = Reader::between(bytes, tokens, at, tokens.len());
    match closed_literals(alloc, &mut reader, symbols, names) {
        Ok(literals) => {
            let behind = tokens.len() - reader.left();
            Ok((literals, behind - 1))
        }
        Err(stop) => {
            let number = tokens.len() - reader.left();
            Err(refusal(bytes, tokens, number, stop))
        }
    }
}
