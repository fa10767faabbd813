//! Laws of the texts that a tree names.
ghost use Rattle.std.specs.Prelude.{◌≡◌, ℕ, List};
ghost use Rattle.tg_reader.specs.Naming.{PutsTreeNames, names_in};
ghost use Rattle.tg_reader.specs.Writable.{IsTreeText};
ghost use Rattle.gr_text.specs.Limits.{IsShort};

/// The text of a tree, of at most 1,048,576 bytes, tells which texts the tree names, by whatever table
/// and tree it is a tree's text. So behind a tree that was read the table is a function of the old one
/// and the text.
pub fn a_text_tells_its_names()
    ensures names { (text : List ℕ) (is other : IsTreeText text) → IsShort text → names_in is ≡ names_in other }
    ensures table { (text : List ℕ) (old new others : List (List ℕ)) → IsShort text
        → PutsTreeNames text old new → PutsTreeNames text old others → new ≡ others }
{}
