//! Laws of expansions, as contracts of functions that do nothing.
ghost use Rattle.std.specs.Prelude.{◌≡◌, ◌<◌, List, Some, length};
ghost use Rattle.gr_terms.specs.declared.Sym.{Sym};
ghost use Rattle.mg_syntax.specs.declared.item.Class.{Class};
ghost use Rattle.mg_syntax.specs.declared.item.Item.{Item};
ghost use Rattle.mg_scope.specs.Classes.{class_of};
ghost use Rattle.mg_scope.specs.Faults.{IsScoped};
ghost use Rattle.mg_expand.specs.Walks.{Walk, IsExpansion, AreExpansions, choices, IsEarlier};

/// Expansions of a class with the same choices are the same, and of two different ones one is
/// earlier.
pub fn choices_tell_expansions_apart()
    ensures same { (m : List Item) (c : Sym) (w v : Walk) → IsExpansion m c w → IsExpansion m c v
        → choices w ≡ choices v → w ≡ v }
    ensures order { (m : List Item) (c : Sym) (w v : Walk) → IsExpansion m c w → IsExpansion m c v
        → (w ≡ v → ⊥) → (IsEarlier w v → ⊥) → IsEarlier v w }
    ensures once { (w : Walk) → IsEarlier w w → ⊥ }
    ensures through { (w v u : Walk) → IsEarlier w v → IsEarlier v u → IsEarlier w u }
{}

/// There is one list of all expansions of a class.
pub fn expansions_are_one_list()
    ensures { (m : List Item) (c : Sym) (ws vs : List Walk) → AreExpansions m c ws
        → AreExpansions m c vs → ws ≡ vs }
{}

/// Each class of a metagrammar that keeps the rules of scope has a list of all its expansions.
pub fn expansions_are_finite()
    ensures { (m : List Item) (c : Sym) (k : Class) → IsScoped m → class_of m c ≡ Some k
        → (ws : List Walk) × AreExpansions m c ws }
{}

/// Each class of a metagrammar that keeps the rules of scope has an expansion.
pub fn each_class_has_an_expansion()
    ensures { (m : List Item) (c : Sym) (k : Class) (ws : List Walk) → IsScoped m → class_of m c ≡ Some k
        → AreExpansions m c ws → 0 < length ws }
{}
