//! The words of the command line: what they ask, or that they ask nothing that there is.
//!
//! `specs/Requests` has the table: which words ask to compile which file under which budget
//! (`AsksCompile`). A command, its files in order, and its options at any place behind the command.
//! [`compile_request`] answers exactly by it. The words are read by hand, since an option parser
//! would take spellings that the table doesn't have.
#![tactic(auto)]

ghost use Rattle.std.specs.Prelude.{◌≡◌, ◌↔◌, ℕ, List, None, IsTrue, MatchOption};
ghost use Rattle.std.specs.Option.{option_map};
ghost use Rattle.rl_words.specs.Requests.{AsksCompile, IsBudget, IsFileWord, models_word};
ghost use Rattle.rl_words.specs.Reading.{AsksBehind};

use gr_text::{Name, read_decimal};

/// The budget of models where the words give none.
pub const DEFAULT_MODELS: u32 = 20_000;

/// The highest budget.
const MOST_MODELS: u32 = 50_000;

/// What the words of `compile` ask.
#[derive(Clone, Copy)]
pub struct CompileRequest<'a> {
    /// The metagrammar's file.
    pub file: &'a Name,
    /// The budget of each class, at most 50,000.
    pub models: u32,
}

/// Whether a word may name a file: it isn't empty and doesn't begin with `-`.
fn is_file_word(word: &str) -> bool
    ensures { IsTrue result ↔ IsFileWord word.now }
{
    match word.as_bytes() {
        [] => false,
        [first, ..] => *first != b'-',
    }
}

/// The budget that a word spells, or `None` where it is no decimal of at most 50,000.
fn budget(word: &str) -> Option<u32>
    ensures { MatchOption result ((n : ℕ) → IsBudget word.now n → ⊥) (λ n. IsBudget word.now n) }
{
    let number = read_decimal(word)?;
    if number <= MOST_MODELS {
        Some(number)
    } else {
        None
    }
}

/// What the words behind a command ask, where a file and a budget may have been found before.
fn read_on<'a>(
    words: &'a [Name],
    file: Option<&'a Name>,
    models: Option<u32>,
) -> Option<CompileRequest<'a>>
    ensures { MatchOption result
        ((f : List ℕ) (n : ℕ) → AsksBehind (option_map (λ name. name.now) file.entry) models words.now f n → ⊥)
        (λ r. AsksBehind (option_map (λ name. name.now) file.entry) models words.now r.file.now r.models) }
{
    match words {
        [] => Some(CompileRequest {
            file: file?,
            models: models.unwrap_or(DEFAULT_MODELS),
        }),
        [word, rest @ ..] => {
            if word.as_str() == "--models" {
                return match (models, rest) {
                    (None, [value, behind @ ..]) => {
                        read_on(behind, file, Some(budget(value.as_str())?))
                    }
                    _ => None,
                };
            }
            if file.is_some() || !is_file_word(word.as_str()) {
                return None;
            }
            read_on(rest, Some(word), models)
        }
    }
}

/// The file that the words ask to compile, and the budget; `None` where they don't ask this.
pub fn compile_request(words: &[Name]) -> Option<CompileRequest<'_>>
    ensures { MatchOption result
        ((f : List ℕ) (n : ℕ) → AsksCompile words.now f n → ⊥)
        (λ r. AsksCompile words.now r.file.now r.models) }
{
    match words {
        [command, rest @ ..] if command.as_str() == "compile" => read_on(rest, None, None),
        _ => None,
    }
}
