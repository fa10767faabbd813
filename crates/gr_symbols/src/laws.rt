//! Laws of numbers and texts.
ghost use Rattle.std.specs.Prelude.{◌≡◌, ℕ, List, ◌↔◌, [], codes};
ghost use Rattle.gr_base.specs.Lists.{NoneTwice};
ghost use Rattle.gr_symbols.specs.Numbers.{Names, first_texts};

use gr_terms::{ANCHOR, CAT, COANCHOR, EMPTY, FOOT, LEX, MARK, NADJ, NAME, SUBST};

/// Where no text stands twice, equal numbers are just those of equal texts.
pub fn numbers_tell_texts_apart()
    ensures { (texts : List (List ℕ)) (m n : ℕ) (t u : List ℕ) → NoneTwice texts → Names texts m t → Names texts n u
        → ((m ≡ n) ↔ (t ≡ u)) }
{}

/// The constants of `gr_terms` are the numbers of the first texts.
pub fn constants_name_first_texts()
    ensures cat { Names first_texts CAT.0 (codes "cat") }
    ensures mark { Names first_texts MARK.0 (codes "mark") }
    ensures name { Names first_texts NAME.0 (codes "name") }
    ensures anchor { Names first_texts ANCHOR.0 (codes "anchor") }
    ensures coanchor { Names first_texts COANCHOR.0 (codes "coanchor") }
    ensures subst { Names first_texts SUBST.0 (codes "subst") }
    ensures foot { Names first_texts FOOT.0 (codes "foot") }
    ensures lex { Names first_texts LEX.0 (codes "lex") }
    ensures nadj { Names first_texts NADJ.0 (codes "nadj") }
    ensures empty { Names first_texts EMPTY.0 [] }
{}
