//! Finds the name or variable of a property that breaks the rule on properties.
ghost use Rattle.std.specs.Prelude.{◌≡◌, ◌⊎◌, ◌↔◌, ◌∷◌, ◌++◌, ℕ, List, length, map, codes, IsTrue, MatchOption};
ghost use Rattle.tg_syntax.specs.Breaks.{Breaks, HasName, HasNoMark, HasReserved, IsDashed, Obeys, is_one_of};

use crate::scanner::Scanner;
use crate::trees::{begins_with, taken};

/// The names that no property has.
const RESERVED: [&str; 2] = ["cat", "color"];

/// How the marks may be written.
const MARKS: [&str; 12] = [
    "anchor",
    "coanchor",
    "subst",
    "foot",
    "lex",
    "nadj",
    "\"anchor\"",
    "\"coanchor\"",
    "\"subst\"",
    "\"foot\"",
    "\"lex\"",
    "\"nadj\"",
];

/// Whether the text is one of these.
fn is_among(texts: &[&str], text: &[u8]) -> bool
    ensures { result ≡ is_one_of (map (λ t. t.now) texts.now) text.now }
{
    match texts.split_first() {
        None => false,
        Some((first, more)) => first.as_bytes() == text || is_among(more, text),
    }
}

/// The bytes of a text before a dash behind which the rest is left, or `None` where nothing of the
/// text was taken.
fn before_dash<'a>(text: &'a [u8], rest: &[u8]) -> Option<&'a [u8]>
    requires { (text.now ≡ rest.now) ⊎ ((name : List ℕ) × (text.now ≡ name ++ 45 ∷ rest.now)) }
    ensures { MatchOption result (text.now ≡ rest.now) (λ name. text.now ≡ name.now ++ 45 ∷ rest.now) }
{
    if text.len() == rest.len() {
        return None;
    }
    Some(&text[..text.len() - rest.len() - 1])
}

/// The word before a dash that no word byte follows, at the front of some bytes, and what is left
/// behind the dash.
fn dashed_name(bytes: &[u8]) -> Option<(&[u8], &[u8])>
    ensures { MatchOption result ((text rest : List ℕ) → IsDashed bytes.now text rest → ⊥) (λ found. IsDashed bytes.now found.0.now found.1.now) }
{
    let mut scanner = Scanner { rest: bytes };
    match scanner.word() {
        Ok(()) => None,
        Err(_) => {
            let name = before_dash(bytes, scanner.rest)?;
            Some((name, scanner.rest))
        }
    }
}

/// The name or variable at the front of some bytes, and what is left from the first byte that can't
/// go on with it.
fn name_at(bytes: &[u8]) -> Option<(&[u8], &[u8])>
    ensures { MatchOption result ((text rest : List ℕ) → HasName bytes.now text rest → ⊥) (λ found. HasName bytes.now found.0.now found.1.now) }
{
    let mut scanner = Scanner { rest: bytes };
    match scanner.term() {
        Ok(()) => Some((taken(bytes, scanner.rest), scanner.rest)),
        Err(_) => dashed_name(bytes),
    }
}

/// Whether a name that no property may have stands at the front of some bytes, and another byte
/// follows it.
fn has_reserved(bytes: &[u8]) -> bool
    ensures { IsTrue result ↔ HasReserved bytes.now }
{
    let Some((name, rest)) = name_at(bytes) else {
        return false;
    };
    if rest.len() == 0 {
        return false;
    }
    is_among(&RESERVED, name)
}

/// Whether a name or a variable that is no mark stands at the front of some bytes, and another byte
/// follows it.
fn has_no_mark(bytes: &[u8]) -> bool
    ensures { IsTrue result ↔ HasNoMark bytes.now }
{
    let Some((name, rest)) = name_at(bytes) else {
        return false;
    };
    if rest.len() == 0 {
        return false;
    }
    !is_among(&MARKS, name)
}

/// What stands behind `mark=`.
fn behind_mark(bytes: &[u8]) -> Option<&[u8]>
    ensures { MatchOption result ((value : List ℕ) → bytes.now ≡ codes "mark=" ++ value → ⊥) (λ value. bytes.now ≡ codes "mark=" ++ value.now) }
{
    if bytes.len() < 5 {
        return None;
    }
    let (_mark, value) = bytes.split_at(5);
    if begins_with(bytes, value, b"mark=") {
        Some(value)
    } else {
        None
    }
}

/// How many bytes are left at the name or variable that breaks the rule in the property that begins
/// these bytes, or `None` where it breaks none.
pub fn break_in(bytes: &[u8]) -> Option<usize>
    ensures { MatchOption result (Obeys bytes.now) (λ left. (at : List ℕ) × Breaks bytes.now at × (left ≡ length at)) }
{
    if has_reserved(bytes) {
        return Some(bytes.len());
    }
    let value = behind_mark(bytes)?;
    if has_no_mark(value) {
        return Some(value.len());
    }
    None
}
