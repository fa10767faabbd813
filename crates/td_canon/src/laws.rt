//! Laws of canonical texts.
ghost use Rattle.std.specs.Prelude.{◌≡◌, ℕ, List};
ghost use Rattle.gr_base.specs.Lists.{NoneTwice};
ghost use Rattle.gr_terms.specs.Canonical.{Decorated};
ghost use Rattle.gr_terms.specs.Networks as net;
ghost use Rattle.td_tree.specs.declared.Tree.{Tree};
ghost use Rattle.td_canon.specs.CanonicalTexts.{HasText, IsCanonicalText, TellsAttributesApart};
ghost use Rattle.td_canon.specs.Renaming.{AreRenamed};
ghost use Rattle.gr_symbols.specs.Numbers.{Grows};
ghost use Rattle.td_canon.specs.TreeSets.{Entry, IsWhole};
ghost use Rattle.td_canon.specs.Spelling.{IsSpellableTree};

/// The canonical text does not depend on which exact labelling of the terms it is made with: a tree
/// over a network has one, where the texts of its attributes differ, and so has a tree of the code.
pub fn the_labelling_is_free()
    ensures network { (text : ℕ → List ℕ) (N : List (net.Assertion ℕ ℕ)) (t : Decorated ℕ (net.Term ℕ)) (x y : List ℕ)
        → TellsAttributesApart text N t → IsCanonicalText text N t x → IsCanonicalText text N t y → x ≡ y }
    ensures tree { (texts : List (List ℕ)) (t : Tree) (x y : List ℕ) → NoneTwice texts
        → HasText texts t x → HasText texts t y → x ≡ y }
{}

/// Trees with the same canonical text are the same up to renaming of variables, where the texts of
/// their attributes have no `=`, those of their names no `"`, and their values are fewer than
/// 1,000,000,000. So the text of a tree determines it up to renaming.
pub fn text_tells_the_tree()
    ensures { (texts : List (List ℕ)) (t u : Tree) (x : List ℕ) → NoneTwice texts → IsSpellableTree texts t
        → IsSpellableTree texts u → HasText texts t x → HasText texts u x → AreRenamed t u }
{}

/// More names in the table change no text: a text stays that of its tree, and a whole set stays
/// whole.
pub fn more_names_change_no_text()
    ensures text { (old new : List (List ℕ)) (t : Tree) (x : List ℕ) → NoneTwice new → Grows old new
        → HasText old t x → HasText new t x }
    ensures set { (old new : List (List ℕ)) (set : List Entry) → NoneTwice new → Grows old new
        → IsWhole old set → IsWhole new set }
{}
