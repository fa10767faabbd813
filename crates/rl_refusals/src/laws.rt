//! Laws of the lines of refusals, as contracts of functions that do nothing.
ghost use Rattle.std.specs.Prelude.{◌≡◌, ℕ, List};
ghost use Rattle.rl_refusals.specs.Lines.{IsRefusalLine};
ghost use Rattle.rl_refusals.specs.declared.refusal.Refusal.{Refusal as Refused};

/// Under a table a refusal has at most one line.
pub fn one_line()
    ensures { (texts : List (List ℕ)) (refusal : Refused) (a b : List ℕ) → IsRefusalLine texts refusal a → IsRefusalLine texts refusal b → a ≡ b }
{}
