//! Laws of well-formed trees and of grammars.
ghost use Rattle.std.specs.Prelude.{◌≡◌, ℕ, List};
ghost use Rattle.gr_base.specs.Forests.{Forest, labels, map_forest};
ghost use Rattle.gr_terms.specs.Canonical.{Node};
ghost use Rattle.gr_terms.specs.declared.Sym.{Sym};
ghost use Rattle.td_canon.specs.declared.tree_set.ClassTrees.{ClassTrees};
ghost use Rattle.td_tree.specs.Trees.{AreTreeNodes};
ghost use Rattle.td_tree.specs.TreeViews.{Pairs, lists_of};
ghost use Rattle.td_tree.specs.declared.TreeNode.{TreeNode};
ghost use Rattle.tg_grammar.specs.Facts.{HasGoodShape};
ghost use Rattle.tg_grammar.specs.Grammars.{IsFirstRefusal, IsGrammar};
ghost use Rattle.tg_grammar.specs.Marks.{first_name, node_lists};
ghost use Rattle.tg_grammar.specs.Shapes.{IsWellFormed, root_name};

/// A tree is well formed just where it has the shape that the layers above use.
pub fn well_formed_trees_have_a_good_shape()
    ensures good { (f : Forest (Node Pairs)) → IsWellFormed f → HasGoodShape f }
    ensures well_formed { (f : Forest (Node Pairs)) → HasGoodShape f → IsWellFormed f }
{}

/// The nodes of a tree of the code are the nodes of its forest in preorder, and the first is its root.
pub fn nodes_are_labels()
    ensures labels { (nodes : List TreeNode) (t : AreTreeNodes nodes) → labels (map_forest lists_of t.forest) ≡ node_lists nodes }
    ensures root { (nodes : List TreeNode) (t : AreTreeNodes nodes) → root_name (map_forest lists_of t.forest) ≡ first_name nodes }
{}

/// Classes have at most one first refusal, and those of a grammar have none.
pub fn one_refusal()
    ensures one { (classes : List ClassTrees) (code other : ℕ) (class another : Sym) (number further : ℕ) → IsFirstRefusal classes code class number
        → IsFirstRefusal classes other another further → (code ≡ other) × (class ≡ another) × (number ≡ further) }
    ensures none { (classes : List ClassTrees) (code : ℕ) (class : Sym) (number : ℕ) → IsGrammar classes → IsFirstRefusal classes code class number → ⊥ }
{}
