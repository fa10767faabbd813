//! Laws of counts, as contracts of functions that do nothing.
ghost use Rattle.std.specs.Prelude.{ℕ, List, ◌↔◌};
ghost use Rattle.gr_base.specs.Lists.{IsAmong, IsListing, IsCount};
ghost use Rattle.gr_base.specs.Decisions.{AreToldApart};
ghost use Rattle.gr_base.specs.Forests.{Forest};
ghost use Rattle.gr_terms.specs.Networks.{Term, Assertion, Agrees};
ghost use Rattle.gr_terms.specs.Canonical.{Decorated};
ghost use Rattle.td_canon.specs.CanonicalTexts.{IsCanonicalText, TellsAttributesApart};
ghost use Rattle.td_forest.specs.Nodes.{IsForestOf};
ghost use Rattle.td_desc.specs.Descriptions.{Description};
ghost use Rattle.td_colour.specs.Models.{IsForestModel, IsMinimalModel};
ghost use Rattle.td_count.specs.TextsOfModels.{DifferByTexts, IsTextOfModel};

/// The forests of the first m nodes are finitely many.
pub fn forests_are_finite()
    ensures { (m : ℕ) → (Fs : List (Forest (List ℕ))) × IsListing (IsForestOf m) Fs }
{}

/// A description has finitely many forest models of its first m nodes, so a number of them, and
/// finitely many minimal models, where its variables and slots can be told apart. Nothing is asked
/// of the order of its nodes.
pub fn models_are_finite<V, S>()
    ensures models { AreToldApart V → AreToldApart S → (d : Description V S) (m : ℕ)
        → (Fs : List (Forest (List ℕ))) × IsListing (IsForestModel d m) Fs }
    ensures count { AreToldApart V → AreToldApart S → (d : Description V S) (m : ℕ)
        → (n : ℕ) × IsCount (IsForestModel d m) n }
    ensures minimal { AreToldApart V → AreToldApart S → (d : Description V S)
        → (Fs : List (Forest (List ℕ))) × IsListing (IsMinimalModel d) Fs }
{}

/// A tree whose network agrees has a canonical text, where variables and slots can be told apart and
/// the attributes at its slots differ by their texts.
pub fn trees_have_texts<V, S>()
    ensures { AreToldApart V → AreToldApart S → (text : ℕ → List ℕ) (N : List (Assertion V S)) (t : Decorated S (Term V))
        → Agrees N → TellsAttributesApart text N t → (bytes : List ℕ) × IsCanonicalText text N t bytes }
{}

/// The texts of the minimal models of a description are finitely many, where its attributes differ by
/// their texts.
pub fn texts_are_finite<V, S>()
    ensures { AreToldApart V → AreToldApart S → (text : ℕ → List ℕ) (d : Description V S) → DifferByTexts text d
        → (bs : List (List ℕ)) × ((b : List ℕ) → IsAmong bs b ↔ IsTextOfModel text d b) }
{}
