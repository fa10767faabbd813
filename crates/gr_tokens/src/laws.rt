//! Laws of tokens, as contracts of functions that do nothing.
ghost use Rattle.std.specs.Prelude.{◌≡◌, ◌≤◌, ℕ, List, Result, length};
ghost use Rattle.std.specs.Str.{IsUtf8};
ghost use Rattle.gr_base.specs.Lists.{Each};
ghost use Rattle.gr_tokens.specs.Answers.{AreTokens, IsRight};
ghost use Rattle.gr_text.specs.Words.{IsBareWord, IsStringByte, Spells};
ghost use Rattle.gr_tokens.specs.Spans.{InOrder, IsNameRead, IsSliceOf, slice_of};
ghost use Rattle.gr_tokens.specs.declared.ReadRefusal.{ReadRefusal as Refused};
ghost use Rattle.gr_tokens.specs.declared.Token.{Token as Cut};

use crate::Kind;

/// For each text at most one answer is right.
pub fn one_answer()
    ensures { (bytes : List ℕ) (a b : Result (List Cut) Refused) → IsRight bytes a → IsRight bytes b → a ≡ b }
{}

/// For each text an answer is right.
pub fn some_answer()
    ensures { (bytes : List ℕ) → (answer : Result (List Cut) Refused) × IsRight bytes answer }
{}

/// The tokens of a text are slices of it, which are UTF-8, and stand in order.
pub fn slices_in_order()
    ensures slices { (bytes : List ℕ) (found : List Cut) → AreTokens bytes found → Each (IsSliceOf bytes) found }
    ensures utf8 { (bytes : List ℕ) (found : List Cut) → AreTokens bytes found → Each (λ t. IsUtf8 (slice_of bytes t)) found }
    ensures order { (bytes : List ℕ) (found : List Cut) → AreTokens bytes found → InOrder found }
{}

/// The spelling of a name is read back: a text that is a word is one word of it, and another one
/// without bytes that no string may have is one string.
pub fn spellings_are_read()
    ensures word { (s t : List ℕ) → IsUtf8 t → length t ≤ 255 → IsBareWord t → Spells s t → IsNameRead Kind.Word t s }
    ensures string { (s t : List ℕ) → IsUtf8 t → length t ≤ 255 → ¬ (IsBareWord t) → Each IsStringByte t → Spells s t
        → IsNameRead Kind.Str t s }
{}
