//! Brackets of all three shapes, and how many tokens stand before one that opens too deep.
ghost use Rattle.std.specs.Prelude.{◌≡◌, ◌≤◌, length};
ghost use Rattle.gr_tokens.specs.Answers.{AreTokens};
ghost use Rattle.gr_reader.specs.Lexemes.{HasText, lexeme_of};
ghost use Rattle.gr_reader.specs.Brackets.{turn, shallow_tokens};

use crate::class::{is_among, number};
use crate::reader::text_of;
use gr_grammar::brackets::{Turn, depth_behind};
use gr_tokens::Token;

/// How many brackets may be open where another one opens.
pub const BRACKET_LIMIT: usize = 200;

/// What the token does to the brackets that are open.
fn turn_of(bytes: &[u8], token: &Token) -> Turn
    requires { HasText bytes.now token.now }
    ensures { result ≡ turn (lexeme_of bytes.now token.now) }
{
    if number(token.kind) != 3 {
        return Turn::Neither;
    }
    let text = text_of(bytes, token);
    if is_among(&["(", "[", "{"], text) {
        Turn::Opens
    } else if is_among(&[")", "]", "}"], text) {
        Turn::Closes
    } else {
        Turn::Neither
    }
}

/// How many of the tokens of a text stand before the first bracket that opens inside 200 open ones.
pub fn shallow(bytes: &[u8], tokens: &[Token]) -> usize
    requires { AreTokens bytes.now tokens.now }
    ensures number { result ≡ shallow_tokens bytes.now tokens.now }
    ensures within { result ≤ length tokens.now }
{
    let mut rest = tokens;
    let mut level = 0;
    let mut count = 0;
    'cut: while let Some((token, more)) = rest.split_first() {
        let Some(next) = depth_behind(level, turn_of(bytes, token), BRACKET_LIMIT) else {
            return count;
        };
        level = next;
        count += 1;
        rest = more;
    }
    count
}
