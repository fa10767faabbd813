//! Laws of what statements say, as contracts of functions that do nothing.
ghost use Rattle.std.specs.Prelude.{◌≡◌, ℕ, ◌+◌, [], Some, None};
ghost use Rattle.mg_syntax.specs.declared.body.Statement.{Statement};
ghost use Rattle.mg_deeds.specs.Deeds.{Deed, deed_of};
ghost use Rattle.mg_deeds.specs.Places.{deed_places, AreBetween};
ghost use Rattle.mg_deeds.specs.Weights.{deed_weight, statement_weight};
ghost use Rattle.mg_deeds.specs.Sayings.{deed_said, statement_said};

/// A statement that is a deed says and weighs what the deed does, and any other one nothing.
pub fn deeds_say_their_facts()
    ensures weight { (s : Statement) (d : Deed) → deed_of s ≡ Some d → statement_weight s ≡ deed_weight d }
    ensures facts { (here n : ℕ) (s : Statement) (d : Deed) → deed_of s ≡ Some d
        → statement_said here n s ≡ deed_said here n d }
    ensures no_weight { (s : Statement) → deed_of s ≡ None → statement_weight s ≡ 0 }
    ensures no_facts { (here n : ℕ) (s : Statement) → deed_of s ≡ None → statement_said here n s ≡ [] }
{}

/// The places of the node blocks and literals of a deed rise from the place of the deed on and stay
/// below its end. So no two of them have one variable, in whatever deeds of an expansion they
/// stand.
pub fn places_rise()
    ensures { (n : ℕ) (d : Deed) → AreBetween n (n + deed_weight d) (deed_places n d) }
{}
