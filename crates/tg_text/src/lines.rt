//! What stands at the front of a text, and what is left behind it.
ghost use Rattle.std.specs.Prelude.{◌≡◌, ◌↔◌, ℕ, suc, List, ◌∷◌, ◌++◌, [], Bool, length, codes, MatchOption, IsTrue};
ghost use Rattle.std.specs.Fmt.{decimal};
ghost use Rattle.td_canon.specs.Spelling.{Lacks};
ghost use Rattle.tg_reader.specs.Writable.{IsWord};
ghost use Rattle.tg_text.specs.Answers.{SaysVersion};
ghost use Rattle.tg_text.specs.GrammarText.{closing_word, ended, tree_line};

use gr_text::{is_bare, read_decimal};
use itoa::Buffer;

/// The most bytes of a name.
const NAME_LIMIT: usize = 255;

/// What is left behind these bytes.
pub fn behind<'a>(text: &'a str, front: &str) -> Option<&'a str>
    ensures { MatchOption result ((rest : List ℕ) → text.now ≡ front.now ++ rest → ⊥)
        (λ rest. text.now ≡ front.now ++ rest.now) }
{
    text.strip_prefix(front)
}

/// The first line, without its end, and what is left behind it.
pub fn first_line(text: &str) -> Option<(&str, &str)>
    ensures { MatchOption result (Lacks 10 text.now)
        (λ r. Lacks 10 r.0.now × (text.now ≡ ended r.0.now ++ r.1.now)) }
{
    text.split_once('\n')
}

/// The text of the tree with this number, whose line comes first, and what is left behind it.
pub fn tree_in(text: &str, number: usize) -> Option<(&str, &str)>
    ensures { MatchOption result ((t more : List ℕ) → Lacks 10 t → text.now ≡ tree_line number t ++ more → ⊥)
        (λ r. Lacks 10 r.0.now × (text.now ≡ tree_line number r.0.now ++ r.1.now)) }
{
    let tree = behind(text, "tree ")?;
    let space = behind(tree, Buffer::new().format(number))?;
    let rest = behind(space, " ")?;
    first_line(rest)
}

/// What is left behind the line that closes a class, whole or cut, with this number of trees.
fn past_count(text: &str, cut: bool, count: usize) -> Option<&str>
    ensures { MatchOption result ((more : List ℕ) → text.now ≡ ended (closing_word cut ++ decimal count) ++ more → ⊥)
        (λ rest. text.now ≡ ended (closing_word cut ++ decimal count) ++ rest.now) }
{
    let number = behind(text, if cut { "cut " } else { "trees " })?;
    let end = behind(number, Buffer::new().format(count))?;
    behind(end, "\n")
}

/// Whether the class is cut whose closing line comes first, with this number of trees, and what is
/// left behind it.
pub fn past_closing(text: &str, count: usize) -> Option<(bool, &str)>
    ensures { MatchOption result ((cut : Bool) (more : List ℕ) → text.now ≡ ended (closing_word cut ++ decimal count) ++ more → ⊥)
        (λ r. text.now ≡ ended (closing_word r.0 ++ decimal count) ++ r.1.now) }
{
    if let Some(rest) = past_count(text, false, count) {
        return Some((false, rest));
    }
    let rest = past_count(text, true, count)?;
    Some((true, rest))
}

/// Whether the text is a word that may be a name.
fn is_word(text: &str) -> bool
    ensures { IsTrue result ↔ IsWord text.now }
{
    text.len() <= NAME_LIMIT && is_bare(text)
}

/// The name of the class whose first line comes first, and what is left behind it.
pub fn class_in(text: &str) -> Option<(&str, &str)>
    ensures { MatchOption result ((name more : List ℕ) → IsWord name → text.now ≡ ended (codes "class " ++ name) ++ more → ⊥)
        (λ r. IsWord r.0.now × (text.now ≡ ended (codes "class " ++ r.0.now) ++ r.1.now)) }
{
    let rest = behind(text, "class ")?;
    let (name, more) = first_line(rest)?;
    if is_word(name) {
        Some((name, more))
    } else {
        None
    }
}

/// The version that the first line says.
pub fn version_of(text: &str) -> Option<u32>
    ensures { MatchOption result ((n : ℕ) → SaysVersion text.now n → ⊥)
        (λ version. SaysVersion text.now version × ((n : ℕ) → SaysVersion text.now n → n ≡ version)) }
{
    let rest = behind(text, "grammar ")?;
    let (number, _more) = first_line(rest)?;
    read_decimal(number)
}
