//! What is asked of a well-formed tree.
ghost use Rattle.std.specs.Prelude.{◌≡◌, ◌≤◌, ◌∷◌, [], List, Some, ℕ, length, MatchOption};
ghost use Rattle.gr_terms.specs.Constants.{ANCHOR, FOOT};
ghost use Rattle.gr_terms.specs.Networks.{name};
ghost use Rattle.tg_grammar.specs.Marks.{first_name, mark_number, marked, node_lists};
ghost use Rattle.tg_grammar.specs.Shapes.{IsWellFormedTree};
ghost use Rattle.tg_grammar.specs.Spots.{root_category};
ghost use Rattle.tg_grammar.specs.Surveys.{number_of};

use crate::marks::{Mark, category_name, has_mark};
use gr_terms::Sym;
use td_tree::{Tree, TreeNode};

/// The number of the anchor of a well-formed tree, in preorder from 0. No other node has the mark.
pub fn anchor(tree: &Tree) -> u8
    requires { IsWellFormedTree tree.now }
    ensures { marked ANCHOR (node_lists tree.now.nodes) ≡ result ∷ [] }
{
    match first_marked(tree.nodes.as_slice(), Mark::Anchor) {
        Some(number) => number,
        None => unreachable!(),
    }
}

/// The number of the foot of a well-formed tree, in preorder from 0, or `None` where the tree is
/// initial. No other node has the mark.
pub fn foot(tree: &Tree) -> Option<u8>
    requires { IsWellFormedTree tree.now }
    ensures { MatchOption result (marked FOOT (node_lists tree.now.nodes) ≡ []) (λ number. marked FOOT (node_lists tree.now.nodes) ≡ number ∷ []) }
{
    first_marked(tree.nodes.as_slice(), Mark::Foot)
}

/// The name that is the category of the root of a well-formed tree.
pub fn root_category(tree: &Tree) -> Sym
    requires { IsWellFormedTree tree.now }
    ensures name { first_name tree.now.nodes ≡ Some result.0 }
    ensures category { root_category (node_lists tree.now.nodes) ≡ Some (name result.0) }
{
    match root_name(tree.nodes.as_slice()) {
        Some(name) => name,
        None => unreachable!(),
    }
}

/// The number of the first node of a mark, or `None` where no node has it.
fn first_marked(nodes: &[TreeNode], wanted: Mark) -> Option<u8>
    requires { length nodes.now ≤ 24 }
    ensures { MatchOption result (marked (mark_number wanted) (node_lists nodes.now) ≡ [])
        (λ number. (rest : List ℕ) × (marked (mark_number wanted) (node_lists nodes.now) ≡ number ∷ rest)) }
{
    for number in 0..nodes.len() {
        if has_mark(&nodes[number], wanted) {
            return Some(number as u8);
        }
    }
    None
}

/// The name that is the category of the first node.
pub fn root_name(nodes: &[TreeNode]) -> Option<Sym>
    ensures { number_of result ≡ first_name nodes.now }
{
    match nodes.first() {
        Some(root) => category_name(root),
        None => None,
    }
}
