//! Laws of trees laid out in preorder, and of canonical forms.
ghost use Rattle.std.specs.Prelude.{◌≡◌, ℕ, ◌<◌, List, Option, Some, None, ◌↔◌, slice_get, length};
ghost use Rattle.gr_base.specs.Forests.{Forest, map_forest};
ghost use Rattle.gr_terms.specs.Canonical.{Decorated, IsCanonicalForm, Label, Node, Pairs};
ghost use Rattle.gr_terms.specs.Networks as net;
ghost use Rattle.td_tree.specs.FlatTrees.{forest_in, forest_of, listed_network};
ghost use Rattle.td_tree.specs.Forms.{AreSameTrees};
ghost use Rattle.td_tree.specs.TreeNetworks.{tree_network};
ghost use Rattle.td_tree.specs.TreeViews.{decorated_of, lists_of};
ghost use Rattle.td_tree.specs.Trees.{BagPairs, AreTreeNodes, preorder};
ghost use Rattle.td_tree.specs.declared.Tree.{Tree};
ghost use Rattle.td_tree.specs.declared.TreeNode.{TreeNode};

/// The first node of a tree alone has no parent, and each other node stands behind its parent.
pub fn the_first_alone_has_no_parent()
    ensures there { (nodes : List TreeNode) → AreTreeNodes nodes → 0 < length nodes }
    ensures root { (nodes : List TreeNode) → AreTreeNodes nodes → (i : ℕ) (x : TreeNode) → slice_get nodes i ≡ Some x
        → ((x.parent ≡ None) ↔ (i ≡ 0)) }
    ensures parents { (nodes : List TreeNode) → AreTreeNodes nodes → (i p : ℕ) (x : TreeNode) → slice_get nodes i ≡ Some x
        → x.parent ≡ Some p → p < i }
{}

/// The nodes of a tree in preorder fix the forest.
pub fn nodes_fix_the_forest()
    ensures { (f g : Forest (Node BagPairs)) → preorder 0 None f ≡ preorder 0 None g → f ≡ g }
{}

/// The forest of a tree's nodes is the one that they are laid out from.
pub fn nodes_have_their_forest()
    ensures forest { (nodes : List TreeNode) (t : AreTreeNodes nodes) → forest_of nodes ≡ t.forest }
    ensures lists { (nodes : List TreeNode) (t : AreTreeNodes nodes) → forest_in nodes ≡ map_forest lists_of t.forest }
{}

/// The list of a tree's nodes gives the tree's network.
pub fn networks_are_listed()
    ensures { (t : Tree) (nodes : AreTreeNodes t.nodes) → tree_network (decorated_of nodes.forest t) ≡ listed_network t }
{}

/// A canonical form goes from a tree to another one that answers it place by place, over whatever
/// networks.
pub fn forms_are_carried()
    ensures { (text : ℕ → List ℕ) (N M : List (net.Assertion ℕ ℕ)) (there : net.Term ℕ → net.Term ℕ)
        → (t u : Decorated ℕ (net.Term ℕ)) (c : Decorated Pairs Label) → AreSameTrees N M there t u
        → IsCanonicalForm text M u c → IsCanonicalForm text N t c }
{}
