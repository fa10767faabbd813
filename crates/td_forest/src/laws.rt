//! Laws of forests and of their steps, which a search over forests stands on.
ghost use Rattle.std.specs.Prelude.{◌≡◌, ℕ, suc, ◌<◌, ◌⊎◌, ◌↔◌, List, [], ◌∷◌, ◌++◌};
ghost use Rattle.gr_base.specs.Forests.{Forest, empty, size};
ghost use Rattle.td_forest.specs.declared.Made.{Made};
ghost use Rattle.td_forest.specs.declared.Relation.{Relation};
ghost use Rattle.td_forest.specs.declared.Step.{Step};
ghost use Rattle.td_forest.specs.Names.{IsHead, IsNamedStep};
ghost use Rattle.td_forest.specs.Nodes.{Stands, IsIn, IsForest, IsForestOf, Relates};
ghost use Rattle.td_forest.specs.Steps.{IsStep, IsGrown, after_step, forest_of};
ghost use Rattle.td_forest.specs.Walks.{IsHeadAt};
ghost use Rattle.td_forest.specs.Without.{without};

/// A node that is in a forest stands at exactly one position; one that is not there, at none.
pub fn one_position()
    ensures there { (F : Forest (List ℕ)) (x : ℕ) → IsIn F x → (p : List ℕ) × Stands F x p }
    ensures only { (F : Forest (List ℕ)) (x : ℕ) (p : List ℕ) → Stands F x p → IsIn F x }
    ensures one { (F : Forest (List ℕ)) (x : ℕ) (p q : List ℕ) → IsForest F
        → Stands F x p → Stands F x q → p ≡ q }
{}

/// Two nodes of a forest stand to each other in exactly one way.
pub fn one_relation()
    ensures some { (F : Forest (List ℕ)) (x y : ℕ) → IsIn F x → IsIn F y
        → (how : Relation) × Relates F x y how }
    ensures one { (F : Forest (List ℕ)) (x y : ℕ) (how other : Relation) → IsForest F
        → Relates F x y how → Relates F x y other → how ≡ other }
{}

/// Steps that could be made in turn make a forest, one more changes it by that step, and of a new
/// node it makes a forest of the nodes before and that one.
pub fn steps_make_forests()
    ensures all { (made : List Made) → IsGrown empty made → IsForest (forest_of made) }
    ensures push { (made : List Made) (m : Made)
        → forest_of (made ++ m ∷ []) ≡ after_step m.node m.step (forest_of made) }
    ensures step { (F : Forest (List ℕ)) (x : ℕ) (s : Step) → IsForest F → (IsIn F x → ⊥)
        → IsStep F s → IsForest (after_step x s F) }
    ensures nodes { (F : Forest (List ℕ)) (x : ℕ) (s : Step) (y : ℕ) → IsForest F → IsStep F s
        → IsIn (after_step x s F) y ↔ (IsIn F y ⊎ (y ≡ x)) }
{}

/// The least nodes of the tree nodes are those that stand first at a place in preorder, each at one
/// place.
pub fn heads_have_places()
    ensures there { (F : Forest (List ℕ)) (x : ℕ) → IsHead F x
        → (place : ℕ) × (place < size F) × IsHeadAt F place x }
    ensures only { (F : Forest (List ℕ)) (place x : ℕ) → IsHeadAt F place x → IsHead F x }
    ensures one { (F : Forest (List ℕ)) (p q x : ℕ) → IsForest F → IsHeadAt F p x → IsHeadAt F q x
        → p ≡ q }
{}

/// A forest without one of its nodes is a forest of the others.
pub fn less_is_forest()
    ensures forest { (x : ℕ) (G : Forest (List ℕ)) → IsForest G → IsIn G x
        → IsForest (without x G) }
    ensures nodes { (x : ℕ) (G : Forest (List ℕ)) (y : ℕ) → IsForest G → IsIn G x
        → IsIn (without x G) y ↔ (IsIn G y × (y ≡ x → ⊥)) }
{}

/// Neither a step nor taking a node out changes how other nodes stand to each other.
pub fn others_stay()
    ensures step { (F : Forest (List ℕ)) (x : ℕ) (s : Step) (y z : ℕ) (how : Relation)
        → IsForest F → IsStep F s → (y ≡ x → ⊥) → (z ≡ x → ⊥)
        → Relates F y z how ↔ Relates (after_step x s F) y z how }
    ensures less { (x : ℕ) (G : Forest (List ℕ)) (y z : ℕ) (how : Relation)
        → IsForest G → IsIn G x → (y ≡ x → ⊥) → (z ≡ x → ⊥)
        → Relates (without x G) y z how ↔ Relates G y z how }
{}

/// A step is taken back by taking its node out.
pub fn step_taken_back()
    ensures { (F : Forest (List ℕ)) (x : ℕ) (s : Step) → IsForest F → (IsIn F x → ⊥)
        → IsStep F s → without x (after_step x s F) ≡ F }
{}

/// Each step of a forest does what one does that is named by the least node of its tree node, and
/// named steps are steps of the forest.
pub fn named_steps()
    ensures named { (F : Forest (List ℕ)) (s : Step) → IsForest F → IsStep F s
        → (t : Step) × IsNamedStep F t × ((x : ℕ) → after_step x t F ≡ after_step x s F) }
    ensures steps { (F : Forest (List ℕ)) (s : Step) → IsNamedStep F s → IsStep F s }
{}

/// Two named steps that lead to one forest are the same step.
pub fn steps_differ()
    ensures { (F : Forest (List ℕ)) (x : ℕ) (s t : Step) → IsForest F → (IsIn F x → ⊥)
        → IsNamedStep F s → IsNamedStep F t → after_step x s F ≡ after_step x t F → s ≡ t }
{}

/// A forest comes by a named step from the one without a node of it.
pub fn one_step_back()
    ensures { (x : ℕ) (G : Forest (List ℕ)) → IsForest G → IsIn G x
        → (s : Step) × IsNamedStep (without x G) s × (after_step x s (without x G) ≡ G) }
{}

/// The forests of the first m + 1 nodes are those that a step of node m makes of the forests of the
/// first m; each comes from exactly one of these by exactly one named step.
pub fn one_node_more()
    ensures forth { (m : ℕ) (F : Forest (List ℕ)) (s : Step) → IsForestOf m F → IsStep F s
        → IsForestOf (suc m) (after_step m s F) }
    ensures back { (m : ℕ) (G : Forest (List ℕ)) → IsForestOf (suc m) G
        → IsForestOf m (without m G)
        × ((s : Step) × IsNamedStep (without m G) s × (after_step m s (without m G) ≡ G)) }
    ensures once { (m : ℕ) (F E : Forest (List ℕ)) (s t : Step) → IsForestOf m F → IsForestOf m E
        → IsNamedStep F s → IsNamedStep E t → after_step m s F ≡ after_step m t E
        → (F ≡ E) × (s ≡ t) }
{}
