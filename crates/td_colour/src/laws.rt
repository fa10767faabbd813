//! Laws of forest models, which a search for them stands on.
ghost use Rattle.std.specs.Prelude.{◌≡◌, ℕ, suc, ◌↔◌, ◌++◌, List, Option, length, slice_get};
ghost use Rattle.gr_base.specs.Lists.{IsWithin, IsListing, IsCount};
ghost use Rattle.gr_base.specs.Forests.{Forest, empty};
ghost use Rattle.gr_terms.specs.Canonical.{Decorated, Pairs, Label};
ghost use Rattle.gr_terms.specs.Networks.{Agrees};
ghost use Rattle.td_desc.specs.Conditions.{IsNumbered};
ghost use Rattle.td_desc.specs.Descriptions.{Description, description_of};
ghost use Rattle.td_desc.specs.Likeness.{SayTheSame};
ghost use Rattle.td_desc.specs.declared.Description as code;
ghost use Rattle.td_forest.specs.declared.Step.{Step};
ghost use Rattle.td_forest.specs.Names.{IsHead};
ghost use Rattle.td_forest.specs.Nodes.{IsForestOf};
ghost use Rattle.td_forest.specs.Steps.{IsStep, after_step};
ghost use Rattle.td_forest.specs.Without.{without};
ghost use Rattle.td_colour.specs.Colours.{BlacksFirst, IsAllowed};
ghost use Rattle.td_colour.specs.Models.{node_links, merged_network, AllHold, IsForestModel, IsMinimalModel, HasModelForm, IsModelSpelling, ComesFrom};

use td_desc::laws::colours_stand_in_order;

/// In search order blacks stand first, in each description that the code numbers.
pub fn blacks_first()
    ensures { (d : code.Description) → IsNumbered d → BlacksFirst (description_of d).nodes }
{
    colours_stand_in_order();
}

/// The empty forest is the one forest model of no nodes, where the network agrees.
pub fn no_nodes()
    ensures { (d : Description ℕ ℕ) (F : Forest (List ℕ))
        → IsForestModel d 0 F ↔ ((F ≡ empty) × Agrees d.network) }
{}

/// A forest model of the first m + 1 nodes, with node m taken out, is a forest model of the first m:
/// its name leaves its tree node, or where it was alone there, its children come up in its place.
pub fn one_node_less()
    ensures { (d : Description ℕ ℕ) (m : ℕ) (G : Forest (List ℕ)) → BlacksFirst d.nodes
        → IsForestModel d (suc m) G → IsForestModel d m (without m G) }
{}

/// Each forest model of the first m + 1 nodes comes from exactly one forest model of the first m by
/// exactly one step, whose tree node is named by the least of its nodes.
pub fn one_node_more()
    ensures there { (d : Description ℕ ℕ) (m : ℕ) (G : Forest (List ℕ)) → BlacksFirst d.nodes
        → IsForestModel d (suc m) G → ComesFrom d m G }
    ensures before { (d : Description ℕ ℕ) (m : ℕ) (G : Forest (List ℕ)) (a b : ComesFrom d m G)
        → a.before ≡ b.before }
    ensures step { (d : Description ℕ ℕ) (m : ℕ) (G : Forest (List ℕ)) (a b : ComesFrom d m G)
        → a.step ≡ b.step }
{}

/// A step of node m to a forest model of the first m nodes makes one of the first m + 1 exactly
/// where the relations between these hold, the colour rule holds at the tree node of the new node,
/// and the network agrees.
pub fn step_decides()
    ensures { (d : Description ℕ ℕ) (m : ℕ) (F : Forest (List ℕ)) (s : Step) → IsForestModel d m F
        → IsStep F s → IsForestModel d (suc m) (after_step m s F)
        ↔ (AllHold d.relations (suc m) (after_step m s F) × IsAllowed d.nodes (after_step m s F) m
        × Agrees (merged_network d (after_step m s F))) }
{}

/// What a step of node m adds to the merged network, up to order and repetition: an insertion adds
/// nothing, and a merge the links of the three slots of the least node of the tree node with those
/// of node m.
pub fn step_links()
    ensures kept { (d : Description ℕ ℕ) (m : ℕ) (F : Forest (List ℕ)) (s : Step) → IsForestOf m F
        → IsStep F s → IsWithin (merged_network d F) (merged_network d (after_step m s F)) }
    ensures insert { (d : Description ℕ ℕ) (m : ℕ) (F : Forest (List ℕ)) (under : Option ℕ) (from to : ℕ)
        → IsForestOf m F → IsStep F (Step.Insert under from to)
        → IsWithin (merged_network d (after_step m (Step.Insert under from to) F)) (merged_network d F) }
    ensures linked { (d : Description ℕ ℕ) (m : ℕ) (F : Forest (List ℕ)) (at : ℕ) → IsForestOf m F
        → IsHead F at → IsWithin (node_links (slice_get d.nodes at) (slice_get d.nodes m))
        (merged_network d (after_step m (Step.Merge at) F)) }
    ensures merge { (d : Description ℕ ℕ) (m : ℕ) (F : Forest (List ℕ)) (at : ℕ) → IsForestOf m F
        → IsHead F at → IsWithin (merged_network d (after_step m (Step.Merge at) F))
        (merged_network d F ++ node_links (slice_get d.nodes at) (slice_get d.nodes m)) }
{}

/// Descriptions that say the same have as many nodes and the same forest models, so as many of
/// these, and the same minimal models; and the trees of their models have the same canonical forms.
/// Their variables and slots may be of any types.
pub fn models_go_by_what_is_said<V, S, W, R>()
    ensures nodes { (a : Description V S) (b : Description W R) → SayTheSame a b
        → length a.nodes ≡ length b.nodes }
    ensures models { (a : Description V S) (b : Description W R) (m : ℕ) (F : Forest (List ℕ))
        → SayTheSame a b → IsForestModel a m F ↔ IsForestModel b m F }
    ensures count { (a : Description V S) (b : Description W R) (m n : ℕ) → SayTheSame a b
        → IsCount (IsForestModel a m) n ↔ IsCount (IsForestModel b m) n }
    ensures minimal { (a : Description V S) (b : Description W R) (F : Forest (List ℕ))
        → SayTheSame a b → IsMinimalModel a F ↔ IsMinimalModel b F }
    ensures form { (text : ℕ → List ℕ) (a : Description V S) (b : Description W R)
        → (F : Forest (List ℕ)) (c : Decorated Pairs Label) → SayTheSame a b
        → HasModelForm text a F c ↔ HasModelForm text b F c }
{}

/// Descriptions that say the same have the same texts of trees of minimal models, however canonical
/// forms are spelled; so a list of all texts of one is a list of all texts of the other.
pub fn texts_go_by_what_is_said<V, S, W, R>()
    ensures text { (text : ℕ → List ℕ) (spell : Decorated Pairs Label → List ℕ)
        → (a : Description V S) (b : Description W R) (bytes : List ℕ) → SayTheSame a b
        → IsModelSpelling text spell a bytes ↔ IsModelSpelling text spell b bytes }
    ensures list { (text : ℕ → List ℕ) (spell : Decorated Pairs Label → List ℕ)
        → (a : Description V S) (b : Description W R) (texts : List (List ℕ)) → SayTheSame a b
        → IsListing (IsModelSpelling text spell a) texts ↔ IsListing (IsModelSpelling text spell b) texts }
{}
