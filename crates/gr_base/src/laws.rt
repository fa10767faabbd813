//! Laws of the words on lists that contracts cite.
ghost use Rattle.std.specs.Prelude.{◌≡◌, ℕ, List};
ghost use Rattle.gr_base.specs.Lists.{InByteOrder, IsWithin};

/// A list of texts in byte order is fixed by its members.
pub fn one_order()
    ensures { (xs ys : List (List ℕ)) → InByteOrder xs → InByteOrder ys
        → IsWithin xs ys → IsWithin ys xs → xs ≡ ys }
{}
