//! Laws that callers cite: a store that went on from another can go back to it, and is then what
//! it was; the first value of a slot is a value.
ghost use Rattle.std.specs.Prelude.{◌≡◌, ◌<◌, ◌≤◌, ℕ, List, [], ◌∷◌};
ghost use Rattle.gr_terms.specs.Networks as net;
ghost use Rattle.gr_terms.specs.Networks.{HasValue};
ghost use Rattle.gr_terms.specs.declared.Assertion.{Assertion};
ghost use Rattle.gr_store.specs.Contents.{Contents, Grows, IsEarlier, IsFirstValue, mark_of, first_part, accepting, entry_count};

/// What a store was when it was marked is an earlier state of all that it grows to, and `undo`
/// gives back just that.
pub fn undo_is_exact()
    ensures earlier { (old new : Contents) → Grows old new → IsEarlier old (mark_of old) → IsEarlier new (mark_of old) }
    ensures exact { (old new : Contents) → Grows old new → first_part new (mark_of old) ≡ old }
{}

/// A store grows by nothing, by one growth after another, and by each assertion that it has room
/// for.
pub fn growth_adds_up()
    ensures nothing { (c : Contents) → Grows c c }
    ensures after { (a b c : Contents) → Grows a b → Grows b c → Grows a c }
    ensures accepted { (c : Contents) (x : Assertion) → 0 < c.spare.assertions
        → entry_count (x ∷ []) ≤ c.spare.entries → Grows c (accepting c x) }
{}

/// What `entry` answers is a value that the slot has.
pub fn first_is_a_value()
    ensures { (N : List (net.Assertion ℕ ℕ)) (s a : ℕ) (x : net.Term ℕ)
        → IsFirstValue N s a x → HasValue N s a x }
{}
