//! Laws of the syntax of grammar text.
ghost use Rattle.std.specs.Prelude.{◌≡◌, ℕ, List, Result, ⊤};
ghost use Rattle.gr_text.specs.declared.Place.{Place};
ghost use Rattle.tg_syntax.specs.Answers.{IsSyntaxAnswer};

/// One answer is right for each text of bytes: it is a text of the grammar in which no property
/// breaks the rule, or a reading from the front stops, and then at one place.
pub fn one_answer()
    ensures { (bytes : List ℕ) (x y : Result ⊤ Place) → IsSyntaxAnswer bytes x → IsSyntaxAnswer bytes y → x ≡ y }
{}
