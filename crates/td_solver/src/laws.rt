//! Laws of what a solver answers.
ghost use Rattle.std.specs.Prelude.{◌≡◌, ℕ};
ghost use Rattle.td_desc.specs.Descriptions.{Description};
ghost use Rattle.td_solver.specs.Solutions.{IsModelTotal};

/// A description has one number of forest models of its first nodes.
pub fn one_total()
    ensures { (d : Description ℕ ℕ) (n a b : ℕ) → IsModelTotal d n a → IsModelTotal d n b → a ≡ b }
{}
