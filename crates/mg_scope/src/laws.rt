//! Laws of scope.
ghost use Rattle.std.specs.Prelude.{◌≡◌, ℕ, ◌<◌, ◌⊎◌, List, Some};
ghost use Rattle.gr_base.specs.Lists.{IsAmong, Each};
ghost use Rattle.gr_terms.specs.declared.Sym.{Sym};
ghost use Rattle.mg_syntax.specs.declared.item.Class.{Class};
ghost use Rattle.mg_syntax.specs.declared.item.Item.{Item};
ghost use Rattle.mg_scope.specs.declared.refusal.ScopeRefusal.{ScopeRefusal};
ghost use Rattle.mg_scope.specs.Classes.{class_of, mentioned};
ghost use Rattle.mg_scope.specs.Faults.{IsScoped, IsThere, IsFirstFault};

/// A metagrammar keeps all rules or has a first fault, and not both. It has one first fault at most.
pub fn one_answer()
    ensures either { (m : List Item) → IsScoped m ⊎ ((f : ScopeRefusal) × IsFirstFault m f) }
    ensures one { (m : List Item) (f g : ScopeRefusal) → IsFirstFault m f → IsFirstFault m g → f ≡ g }
    ensures none { (m : List Item) (f : ScopeRefusal) → IsScoped m → IsFirstFault m f → ⊥ }
{}

/// Where a metagrammar keeps all rules, each class is the first of its name, and what it mentions
/// is there.
pub fn names_are_bound()
    ensures first { (m : List Item) (k : Class) → IsScoped m → IsAmong m (Item.Class k) → class_of m k.name ≡ Some k }
    ensures mentioned { (m : List Item) (c : Sym) → IsScoped m → Each (IsThere m) (mentioned m c) }
{}

/// Where a metagrammar keeps all rules, its names have depths, and what a class mentions has a
/// lower one. So going from classes to those that they mention ends.
pub fn mentions_have_depths()
    ensures { (m : List Item) → IsScoped m → (depth : Sym → ℕ) × ((a b : Sym) → IsAmong (mentioned m a) b → depth b < depth a) }
{}
