//! Goes over a text from gap to token.
ghost use Rattle.std.specs.Prelude.{◌≡◌, ◌≢◌, ◌⊎◌, ◌+◌, ◌<◌, ◌≤◌, length, take, drop, slice_index, IfOk, IfErr, MatchOption, IsTrue};
ghost use Rattle.std.specs.Str.{IsUtf8};
ghost use Rattle.gr_tokens.specs.Answers.{AreTokens, IsRefused};
ghost use Rattle.gr_tokens.specs.Fronts.{IsHere, Passes, Skips};
ghost use Rattle.gr_tokens.specs.Tokens.{HasNoGap, HasNoToken, is_blank as is_blank_byte};
ghost use Rattle.gr_text.specs.Limits.{IsShort, byte_limit};

use crate::fronts::{is_blank, line_len, next_token};
use crate::{ReadRefusal, Token};
use gr_text::Place;
use std::alloc::Global;

/// A byte of a text: how many stand before it, and its place.
#[derive(Clone, Copy)]
pub struct Here {
    pub at: usize,
    pub place: Place,
}

/// Behind this many bytes, of which none is LF.
fn along(here: Here, len: usize) -> Here
    requires at { here.at + len ≤ byte_limit }
    requires column { here.place.column ≤ 1048577 }
    ensures at { result.at ≡ here.at + len }
    ensures line { result.place.line ≡ here.place.line }
    ensures column { result.place.column ≡ here.place.column + len }
{
    Here {
        at: here.at + len,
        place: Place {
            line: here.place.line,
            column: here.place.column + len as u32,
        },
    }
}

/// Behind one blank.
fn past_blank(bytes: &[u8], here: Here) -> Here
    requires here { IsHere bytes.now here }
    requires within { here.at < length bytes.now }
    requires blank { IsTrue (is_blank_byte (slice_index bytes.now here.at)) }
    ensures skips { Skips bytes.now here result }
    ensures on { here.at < result.at }
{
    if bytes[here.at] == b'\n' {
        Here {
            at: here.at + 1,
            place: Place {
                line: here.place.line + 1,
                column: 1,
            },
        }
    } else {
        along(here, 1)
    }
}

/// Behind the comment that begins here.
fn past_comment(bytes: &[u8], here: Here) -> Here
    requires here { IsHere bytes.now here }
    requires within { here.at < length bytes.now }
    requires comment { slice_index bytes.now here.at ≡ 37 }
    ensures skips { Skips bytes.now here result }
    ensures on { here.at < result.at }
{
    let len = line_len(&bytes[here.at..]);
    along(here, len)
}

/// Behind all blanks and comments that begin here.
fn past_gaps(bytes: &[u8], from: Here) -> Here
    requires { IsHere bytes.now from }
    ensures skips { Skips bytes.now from result }
    ensures past { HasNoGap (drop result.at bytes.now) }
{
    let mut here = from;
    while here.at < bytes.len() {
        if is_blank(bytes[here.at]) {
            here = past_blank(bytes, here);
        } else if bytes[here.at] == b'%' {
            here = past_comment(bytes, here);
        } else {
            return here;
        }
    }
    here
}

/// The token that begins here, and the place behind it.
fn token_at(bytes: &[u8], here: Here) -> Option<(Token, Here)>
    requires { IsHere bytes.now here }
    ensures { MatchOption result (HasNoToken (drop here.at bytes.now)) (λ r. Passes bytes.now here r.0 r.1) }
{
    let (kind, len) = next_token(&bytes[here.at..])?;
    let next = along(here, len);
    let token = Token {
        kind,
        from: here.at,
        to: next.at,
        place: here.place,
    };
    Some((token, next))
}

/// The tokens of a text that is UTF-8.
pub fn cut(alloc: Global, bytes: &[u8]) -> Result<Vec<Token>, ReadRefusal>
    requires length { IsShort bytes.now }
    requires utf8 { IsUtf8 bytes.now }
    ensures ok { IfOk result (λ found. AreTokens bytes.now found.items) }
    ensures err { IfErr result (λ refusal. (refusal ≡ ReadRefusal.Memory) ⊎ IsRefused bytes.now refusal) }
{
    let start = Here {
        at: 0,
        place: Place { line: 1, column: 1 },
    };
    let mut found = Vec::new(alloc);
    let mut here = past_gaps(bytes, start);
    while here.at < bytes.len() {
        let Some((token, next)) = token_at(bytes, here) else {
            return Err(ReadRefusal::Syntax(here.place));
        };
        if found.push(token).is_err() {
            return Err(ReadRefusal::Memory);
        }
        here = past_gaps(bytes, next);
    }
    Ok(found)
}
