//! What some bytes begin with: a function for each class of tokens, and for blanks and comments.
ghost use Rattle.std.specs.Prelude.{◌≡◌, ◌≢◌, ◌↔◌, ◌+◌, ◌<◌, ◌≤◌, [], ◌∷◌, IsTrue, false, length, take, drop, slice_index, MatchOption};
ghost use Rattle.gr_base.specs.Lists.{Each};
ghost use Rattle.gr_text.specs.Limits.{IsShort, byte_limit};
ghost use Rattle.gr_text.specs.Words.{begins_with_word_byte, is_word_rest, IsStringByte};
ghost use Rattle.gr_tokens.specs.Fronts.{BeginsWith, EndsInside, EndsWord, is_lone_sign, repeat_width, sign_width};
ghost use Rattle.gr_tokens.specs.Tokens.{EndsLine, HasNoToken, is_blank as is_blank_byte};

use crate::Kind;
use gr_text::is_word_byte;

/// The most bytes of the text of a token.
const TEXT_LIMIT: usize = 255;

/// A space, a tab, CR or LF.
pub fn is_blank(b: u8) -> bool
    ensures { result ≡ is_blank_byte b }
{
    b == b' ' || (b == b'\t' || (b == b'\r' || b == b'\n'))
}

/// A byte that may stand inside a string.
fn is_string_byte(b: u8) -> bool
    ensures { IsTrue result ↔ IsStringByte b }
{
    b >= 0x20 && b != b'"' && b != b'\\' && b != 0x7f
}

/// How many bytes a word goes on with: one, or two where a dash stands first, or none.
fn word_step(bytes: &[u8]) -> usize
    ensures within { result ≤ length bytes.now }
    ensures rest { IsTrue (is_word_rest (take result bytes.now)) }
    ensures ends { result ≡ 0 → EndsWord bytes.now }
{
    let Some((first, behind)) = bytes.split_first() else {
        return 0;
    };
    if is_word_byte(*first) {
        return 1;
    }
    let Some((second, _behind)) = behind.split_first() else {
        return 0;
    };
    if *first == b'-' && is_word_byte(*second) {
        return 2;
    }
    0
}

/// How many bytes a word goes on with, to its end.
fn word_len(bytes: &[u8]) -> usize
    ensures within { result ≤ length bytes.now }
    ensures rest { IsTrue (is_word_rest (take result bytes.now)) }
    ensures ends { EndsWord (drop result bytes.now) }
{
    let mut len = 0;
    loop {
        let step = word_step(&bytes[len..]);
        if step == 0 {
            return len;
        }
        len += step;
    }
}

/// The word that the bytes begin with.
fn word(bytes: &[u8]) -> Option<(Kind, usize)>
    requires { IsTrue (begins_with_word_byte bytes.now) }
    ensures { MatchOption result (HasNoToken bytes.now) (λ r. BeginsWith bytes.now r.0 r.1) }
{
    let len = word_len(bytes);
    if TEXT_LIMIT < len {
        return None;
    }
    Some((Kind::Word, len))
}

/// The variable that begins with `?` and these bytes.
fn variable(behind: &[u8]) -> Option<(Kind, usize)>
    ensures { MatchOption result (HasNoToken (63 ∷ behind.now)) (λ r. BeginsWith (63 ∷ behind.now) r.0 r.1) }
{
    let Some((first, _behind)) = behind.split_first() else {
        return None;
    };
    if !is_word_byte(*first) {
        return None;
    }
    let len = word_len(behind);
    if TEXT_LIMIT < len {
        return None;
    }
    Some((Kind::Var, 1 + len))
}

/// How many bytes stand inside a string that begins before these.
fn inside_len(bytes: &[u8]) -> usize
    ensures within { result ≤ length bytes.now }
    ensures inside { Each IsStringByte (take result bytes.now) }
    ensures ends { EndsInside (drop result bytes.now) }
{
    let mut len = 0;
    while len < bytes.len() && is_string_byte(bytes[len]) {
        len += 1;
    }
    len
}

/// The string that begins with `"` and these bytes.
fn string(behind: &[u8]) -> Option<(Kind, usize)>
    requires { length behind.now < byte_limit }
    ensures { MatchOption result (HasNoToken (34 ∷ behind.now)) (λ r. BeginsWith (34 ∷ behind.now) r.0 r.1) }
{
    let len = inside_len(behind);
    if len >= behind.len() || behind[len] != b'"' || TEXT_LIMIT < len {
        return None;
    }
    Some((Kind::Str, len + 2))
}

/// The byte at a place, 0 behind the end.
fn byte_at(bytes: &[u8], at: usize) -> u8
    ensures { result ≡ slice_index bytes.now at }
{
    if at < bytes.len() { bytes[at] } else { 0 }
}

/// `*` or `+`.
fn repeats(b: u8) -> usize
    ensures { result ≡ repeat_width b }
{
    if b == b'*' || b == b'+' { 1 } else { 0 }
}

/// A sign of one byte that begins no longer one.
fn is_lone(b: u8) -> bool
    ensures { result ≡ is_lone_sign b }
{
    match b {
        b'<' | b';' | b':' | b'=' | b'|' | b'!' | b'(' | b')' | b'[' | b']' | b'{' | b'}' => true,
        _ => false,
    }
}

/// The width of the longest sign that four bytes begin with, 0 where there is none.
fn sign_len(a: u8, b: u8, c: u8, d: u8) -> usize
    ensures { result ≡ sign_width a b c d }
{
    if a == b'-' {
        if b == b'>' { 2 + repeats(c) } else { 0 }
    } else if a == b'>' {
        if b == b'>' { 2 + repeats(c) } else { 1 }
    } else if a == b'.' {
        if b == b'.' && c == b'.' {
            if d == b'+' { 4 } else { 3 }
        } else {
            1
        }
    } else if a == b',' {
        if b == b',' && c == b',' { 3 } else { 1 }
    } else if is_lone(a) {
        1
    } else {
        0
    }
}

/// The sign that the bytes begin with, where no other token may begin them.
fn sign(bytes: &[u8]) -> Option<(Kind, usize)>
    requires word { begins_with_word_byte bytes.now ≡ false }
    requires var { slice_index bytes.now 0 ≢ 63 }
    requires string { slice_index bytes.now 0 ≢ 34 }
    ensures { MatchOption result (HasNoToken bytes.now) (λ r. BeginsWith bytes.now r.0 r.1) }
{
    let len = sign_len(
        byte_at(bytes, 0),
        byte_at(bytes, 1),
        byte_at(bytes, 2),
        byte_at(bytes, 3),
    );
    if len == 0 {
        return None;
    }
    Some((Kind::Punct, len))
}

/// The kind and the length of the token that the bytes begin with, `None` where there is none
/// that isn't too long.
pub fn next_token(bytes: &[u8]) -> Option<(Kind, usize)>
    requires { IsShort bytes.now }
    ensures { MatchOption result (HasNoToken bytes.now) (λ r. BeginsWith bytes.now r.0 r.1) }
{
    let Some((first, behind)) = bytes.split_first() else {
        return None;
    };
    if is_word_byte(*first) {
        return word(bytes);
    }
    if *first == b'?' {
        return variable(behind);
    }
    if *first == b'"' {
        return string(behind);
    }
    sign(bytes)
}

/// How many bytes stand before the next LF or the end.
pub fn line_len(bytes: &[u8]) -> usize
    ensures within { result ≤ length bytes.now }
    ensures inside { Each (λ b. b ≢ 10) (take result bytes.now) }
    ensures ends { EndsLine (drop result bytes.now) }
{
    let mut len = 0;
    while len < bytes.len() && bytes[len] != b'\n' {
        len += 1;
    }
    len
}
