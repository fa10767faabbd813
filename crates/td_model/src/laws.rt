//! Laws of model trees, as contracts of functions that do nothing.
ghost use Rattle.std.specs.Prelude.{◌≡◌, ◌↔◌, ◌++◌, ℕ, List, Option, Some, length, slice_get};
ghost use Rattle.gr_base.specs.Forests.{Forest, empty};
ghost use Rattle.gr_base.specs.Lists.{NoneTwice};
ghost use Rattle.gr_terms.specs.Canonical.{Decorated, IsCanonicalForm, Label, Pairs};
ghost use Rattle.gr_terms.specs.Networks as net;
ghost use Rattle.gr_terms.specs.Networks.{Agrees};
ghost use Rattle.gr_terms.specs.Views.{network_of};
ghost use Rattle.gr_terms.specs.declared.Assertion.{Assertion};
ghost use Rattle.gr_store.specs.Contents.{Contents};
ghost use Rattle.td_tree.specs.TreeNetworks.{slotted, tree_network};
ghost use Rattle.td_tree.specs.TreeViews.{decorated_of};
ghost use Rattle.td_tree.specs.declared.Tree.{Tree};
ghost use Rattle.td_canon.specs.CanonicalTexts.{HasText, IsNamedTree, text_in};
ghost use Rattle.td_forest.specs.declared.Step.{Step};
ghost use Rattle.td_forest.specs.Names.{IsHead};
ghost use Rattle.td_forest.specs.Nodes.{IsForestOf};
ghost use Rattle.td_forest.specs.Steps.{IsStep, after_step};
ghost use Rattle.td_desc.specs.Descriptions.{Description, description_of};
ghost use Rattle.td_desc.specs.declared.Description as code;
ghost use Rattle.td_desc.specs.declared.DescribedNode.{DescribedNode};
ghost use Rattle.td_colour.specs.Models.{HasModelForm, merged_network};
ghost use Rattle.td_model.specs.Loads.{IsLoaded, slot_links};
ghost use Rattle.td_model.specs.Carrying.{Carries};
ghost use Rattle.td_model.specs.CanonicalTrees.{IsCanonicalTree};
ghost use Rattle.td_model.specs.ModelEntries.{IsModelEntry};
ghost use Rattle.td_model.specs.ModelTrees.{IsModelText, IsModelTree, IsNamedDescription};

/// A store that has a description's network carries the empty forest's network. An insertion changes
/// nothing, and a merge at the least node of a tree node is carried after the links of its slots with
/// those of the new node. What is carried agrees where the accepted assertions do.
pub fn stores_carry_models()
    ensures loaded { (d : code.Description) (c : Contents) → IsLoaded d c
        → Carries c.accepted (merged_network (description_of d) empty) }
    ensures insert { (d : Description ℕ ℕ) (m : ℕ) (F : Forest (List ℕ)) (under : Option ℕ) (from to : ℕ) (accepted : List Assertion)
        → IsForestOf m F → IsStep F (Step.Insert under from to) → Carries accepted (merged_network d F)
        → Carries accepted (merged_network d (after_step m (Step.Insert under from to) F)) }
    ensures merge { (d : code.Description) (m at : ℕ) (F : Forest (List ℕ)) (n o : DescribedNode) (accepted : List Assertion)
        → IsForestOf m F → IsHead F at → slice_get d.nodes at ≡ Some n → slice_get d.nodes m ≡ Some o
        → Carries accepted (merged_network (description_of d) F)
        → Carries (accepted ++ slot_links 0 n o) (merged_network (description_of d) (after_step m (Step.Merge at) F)) }
    ensures agrees { (accepted : List Assertion) (N : List (net.Assertion ℕ ℕ)) → Carries accepted N
        → Agrees (network_of accepted) ↔ Agrees N }
{}

/// A canonical form does not depend on how the network is written: the tree with the canonical bags
/// of the slots, read as the network of its own lists, has the same canonical forms. So the tree of a
/// model has just the forms that the model has.
pub fn forms_do_not_depend_on_the_network()
    ensures trees { (N : List (net.Assertion ℕ ℕ)) (u : Decorated ℕ (net.Term ℕ)) (t : Tree) → Agrees N
        → (is : IsCanonicalTree N u t) (text : ℕ → List ℕ) (c : Decorated Pairs Label)
        → IsCanonicalForm text (tree_network (decorated_of is.nodes.forest t)) (slotted (decorated_of is.nodes.forest t)) c
        ↔ IsCanonicalForm text N u c }
    ensures models { (d : Description ℕ ℕ) (F : Forest (List ℕ)) (t : Tree) → Agrees (merged_network d F)
        → (is : IsModelTree d F t) (text : ℕ → List ℕ) (c : Decorated Pairs Label)
        → IsCanonicalForm text (tree_network (decorated_of is.nodes.forest t)) (slotted (decorated_of is.nodes.forest t)) c
        ↔ HasModelForm text d F c }
{}

/// The tree of a model has as its text, which a set of trees keeps for it, the text of the model, and
/// no other: a model has one text, whatever labels make it. So the tree beside that text is an entry of
/// the model. The tree has the names of the description alone.
pub fn the_text_of_a_model()
    ensures text { (texts : List (List ℕ)) (d : Description ℕ ℕ) (F : Forest (List ℕ)) (t : Tree) (bytes : List ℕ)
        → Agrees (merged_network d F) → IsModelTree d F t → HasText texts t bytes → IsModelText (text_in texts) d F bytes }
    ensures tree { (texts : List (List ℕ)) (d : Description ℕ ℕ) (F : Forest (List ℕ)) (t : Tree) (bytes : List ℕ)
        → Agrees (merged_network d F) → IsModelTree d F t → IsNamedTree (length texts) t
        → IsModelText (text_in texts) d F bytes → HasText texts t bytes }
    ensures entry { (texts : List (List ℕ)) (d : Description ℕ ℕ) (F : Forest (List ℕ)) (t : Tree) (bytes : List ℕ)
        → Agrees (merged_network d F) → IsModelTree d F t → HasText texts t bytes
        → IsModelEntry texts d F (record { tree = t; text = bytes }) }
    ensures one { (texts : List (List ℕ)) (d : code.Description) (F : Forest (List ℕ)) (x y : List ℕ) → NoneTwice texts
        → IsNamedDescription (length texts) d → IsModelText (text_in texts) (description_of d) F x
        → IsModelText (text_in texts) (description_of d) F y → x ≡ y }
    ensures named { (count : ℕ) (d : code.Description) (F : Forest (List ℕ)) (t : Tree) → IsNamedDescription count d
        → IsModelTree (description_of d) F t → IsNamedTree count t }
{}

/// Two trees with the canonical bags of the same slots over an agreeing network are equal.
pub fn one_canonical_tree()
    ensures { (N : List (net.Assertion ℕ ℕ)) (u : Decorated ℕ (net.Term ℕ)) (t other : Tree) → Agrees N
        → IsCanonicalTree N u t → IsCanonicalTree N u other → t ≡ other }
{}
