//! Whether the marks of nodes are names.
ghost use Rattle.std.specs.Prelude.{◌≡◌, ◌↔◌, ℕ, IsTrue, Some};
ghost use Rattle.gr_base.specs.Lists.{Each};
ghost use Rattle.gr_terms.specs.Constants.{MARK};
ghost use Rattle.gr_terms.specs.Networks.{variable};
ghost use Rattle.td_canon.specs.TreeSets.{trees_of};
ghost use Rattle.tg_grammar.specs.Marks.{lists_at, value_of};
ghost use Rattle.tg_grammar.specs.NamedMarks.{HasNamedMarks, HaveNamedMarks, IsNamedMark};

use crate::grammar::Grammar;
use gr_terms::{MARK, Term};
use td_canon::ClassTrees;
use td_tree::{Tree, TreeNode};

/// Whether the node has no variable as its mark.
fn is_named(node: &TreeNode) -> bool
    ensures { IsTrue result ↔ IsNamedMark (lists_at node.now) }
{
    match node.own.get(MARK) {
        Some(Term::Var(_)) => false,
        Some(Term::Const(_)) => true,
        None => true,
    }
}

/// Whether no node of the tree has a variable as its mark.
pub fn marks_are_named(tree: &Tree) -> bool
    ensures { IsTrue result ↔ HasNamedMarks tree.now }
{
    'nodes: for number in 0..tree.nodes.len() {
        if !is_named(tree.nodes.get(number)) {
            return false;
        }
    }
    true
}

/// The same of all trees of a class.
fn class_is_named(class: &ClassTrees) -> bool
    ensures { IsTrue result ↔ Each HasNamedMarks (trees_of class.now.trees) }
{
    'trees: for at in 0..class.trees.len() {
        if !marks_are_named(class.trees.get(at)) {
            return false;
        }
    }
    true
}

/// Whether no node of the grammar's trees has a variable as its `mark`: for grammars that are made by
/// hand.
pub fn has_named_marks(grammar: &Grammar) -> bool
    ensures { IsTrue result ↔ HaveNamedMarks grammar.now }
{
    'classes: for place in 0..grammar.len() {
        if !class_is_named(grammar.at(place)) {
            return false;
        }
    }
    true
}
