//! Laws of compiled classes, as contracts of functions that do nothing.
ghost use Rattle.std.specs.Prelude.{◌≡◌, ℕ, ◌<◌, ◌≤◌, ◌⊎◌, ◌↔◌, List, [], Bool, true, false, Some};
ghost use Rattle.gr_base.specs.Lists.{NoneTwice};
ghost use Rattle.gr_terms.specs.declared.Sym.{Sym};
ghost use Rattle.mg_syntax.specs.declared.item.Class.{Class};
ghost use Rattle.mg_syntax.specs.declared.item.Item.{Item};
ghost use Rattle.mg_syntax.specs.Names.{HasTexts};
ghost use Rattle.mg_scope.specs.Classes.{class_of};
ghost use Rattle.mg_scope.specs.Faults.{IsScoped};
ghost use Rattle.td_canon.specs.CanonicalTexts.{text_in};
ghost use Rattle.mg_compile.specs.Compiled.{IsCompiledList, IsModelSteps, IsRightList, IsClassFault};
ghost use Rattle.mg_compile.specs.declared.refusal.CompileRefusal.{CompileRefusal};

use gr_base::laws::one_order;
use mg_expand::laws::{each_class_has_an_expansion, expansions_are_finite};
use mg_facts::laws::one_description;

/// A class has one compiled list.
pub fn one_compiled_list()
    ensures { (text : ℕ → List ℕ) (m : List Item) (c : Sym) (xs ys : List (List ℕ))
        → IsCompiledList text m c xs → IsCompiledList text m c ys → xs ≡ ys }
{
    one_order();
}

/// A class has one number of steps.
pub fn one_number_of_steps()
    ensures { (m : List Item) (c : Sym) (a b : ℕ) → IsModelSteps m c a → IsModelSteps m c b → a ≡ b }
{
    one_description();
}

/// Each class of a metagrammar that keeps the rules of scope has a number of steps.
pub fn each_class_has_steps()
    ensures { (m : List Item) (c : Sym) (k : Class) → IsScoped m → class_of m c ≡ Some k
        → (steps : ℕ) × IsModelSteps m c steps }
{
    expansions_are_finite();
}

/// Under each budget a class of such a metagrammar has a fault, or it has none and there is a right
/// list, where each name has a text of its own.
pub fn each_class_has_an_answer()
    ensures { (texts : List (List ℕ)) (m : List Item) (c : Sym) (k : Class) (budget : ℕ)
        → NoneTwice texts → HasTexts texts m → IsScoped m → class_of m c ≡ Some k
        → ((e : CompileRefusal) × IsClassFault m c budget e)
        ⊎ (((e : CompileRefusal) → IsClassFault m c budget e → ⊥)
        × ((list : List (List ℕ)) × (cut : Bool) × IsRightList (text_in texts) m c budget list cut)) }
{
    expansions_are_finite();
    each_class_has_an_expansion();
    one_description();
}

/// A class has at most one fault under a budget.
pub fn one_fault()
    ensures { (m : List Item) (c : Sym) (budget : ℕ) (e f : CompileRefusal)
        → IsClassFault m c budget e → IsClassFault m c budget f → e ≡ f }
{}

/// Where the budget is at least 1 and at least the steps of the class, the right list isn't cut, so
/// it is the whole one.
pub fn steps_are_enough()
    ensures { (text : ℕ → List ℕ) (m : List Item) (c : Sym) (budget steps : ℕ) (texts : List (List ℕ)) (cut : Bool)
        → IsModelSteps m c steps → steps ≤ budget → 0 < budget → IsRightList text m c budget texts cut
        → (cut ≡ false) × IsCompiledList text m c texts }
{}

/// A right list is cut exactly where the budget is less than the steps of the class. For a budget of 0
/// it is cut, and it is empty.
pub fn cut_below_the_steps()
    ensures cut { (text : ℕ → List ℕ) (m : List Item) (c : Sym) (budget steps : ℕ) (texts : List (List ℕ)) (cut : Bool)
        → IsModelSteps m c steps → IsRightList text m c budget texts cut → (cut ≡ true) ↔ (budget < steps) }
    ensures none { (text : ℕ → List ℕ) (m : List Item) (c : Sym) (texts : List (List ℕ)) (cut : Bool)
        → IsRightList text m c 0 texts cut → (texts ≡ []) × (cut ≡ true) }
{}
