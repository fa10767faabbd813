//! Laws that callers cite, as contracts of functions that do nothing.
ghost use Rattle.std.specs.Prelude.{◌≡◌, ◌≢◌, ◌<◌, ◌≤◌, ℕ, List, [], length, Result, Err};
ghost use Rattle.gr_base.specs.Lists.{Each};
ghost use Rattle.gr_terms.specs.declared.Literal.{Literal};
ghost use Rattle.tg_model.specs.Instances.{IsInstance};
ghost use Rattle.tg_model.specs.LexicalTrees.{AreLexical};
ghost use Rattle.tg_model.specs.declared.instance.Instance.{Instance};
ghost use Rattle.tg_model.specs.declared.instance.Selection.{Selection};
ghost use Rattle.tg_model.specs.declared.lexical.LexicalTree.{LexicalTree};
ghost use Rattle.sm_match.specs.Answers.{IsAnswer};
ghost use Rattle.sm_match.specs.declared.refusal.SelectRefusal.{SelectRefusal};
ghost use Rattle.sm_match.specs.declared.refusal.SelectRefusal.TheVariants.{Memory};

/// For lexical trees and an input one answer besides want of memory is right.
pub fn one_answer()
    ensures { (trees : List LexicalTree) (input : List Literal) (x y : Result Selection SelectRefusal)
        → (x ≡ Err Memory → ⊥) → (y ≡ Err Memory → ⊥)
        → IsAnswer trees input x → IsAnswer trees input y → x ≡ y }
{}

/// An instance covers a place at least, places of the input alone, and at most as many as it has.
pub fn instances_cover_places()
    ensures some { (trees : List LexicalTree) (input : List Literal) (i : Instance) → AreLexical trees
        → IsInstance trees input i → 0 < length i.places }
    ensures within { (trees : List LexicalTree) (input : List Literal) (i : Instance)
        → IsInstance trees input i → Each (λ p. p < length input) i.places }
    ensures few { (trees : List LexicalTree) (input : List Literal) (i : Instance)
        → IsInstance trees input i → length i.places ≤ length input }
{}
