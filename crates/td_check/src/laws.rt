//! Laws of models that are given, as contracts of functions that do nothing.
ghost use Rattle.std.specs.Prelude.{◌≡◌, ℕ, List, length};
ghost use Rattle.gr_terms.specs.Canonical.{Decorated, Label, Pairs, IsCanonicalForm};
ghost use Rattle.gr_terms.specs.Networks as net;
ghost use Rattle.td_desc.specs.declared.Description.{Description};
ghost use Rattle.td_tree.specs.TreeNetworks.{slotted, tree_network};
ghost use Rattle.td_tree.specs.declared.Tree.{Tree};
ghost use Rattle.td_check.specs.ModelTrees.{HasEachOnce, IsTreeOf};
ghost use Rattle.td_check.specs.Models.{MakesMinimalModel};
ghost use Rattle.td_check.specs.Sets.{IsOnto};

/// A map that makes a tree a minimal model names only nodes of the tree, and each of them.
pub fn maps_are_onto()
    ensures { (d : Description) (t : Tree) (map : List ℕ) → MakesMinimalModel d t map
        → IsOnto map (length d.nodes) (length t.nodes) }
{}

/// A tree is that of a network, as the checker understands it, where both have one canonical form.
pub fn one_form_one_tree()
    ensures { (text : ℕ → List ℕ) (N : List (net.Assertion ℕ ℕ)) (t : Decorated ℕ (net.Term ℕ))
        (u : Decorated (List (ℕ × net.Term ℕ)) (net.Term ℕ)) (c : Decorated Pairs Label) → HasEachOnce u
        → IsCanonicalForm text N t c → IsCanonicalForm text (tree_network u) (slotted u) c
        → IsTreeOf N t u }
{}

/// And the other way round: where a tree is that of a network, as the checker understands it, the
/// network's tree has each canonical form that the tree has.
pub fn one_tree_one_form()
    ensures { (text : ℕ → List ℕ) (N : List (net.Assertion ℕ ℕ)) (t : Decorated ℕ (net.Term ℕ))
        (u : Decorated (List (ℕ × net.Term ℕ)) (net.Term ℕ)) (c : Decorated Pairs Label) → HasEachOnce u
        → IsTreeOf N t u → IsCanonicalForm text (tree_network u) (slotted u) c
        → IsCanonicalForm text N t c }
{}
