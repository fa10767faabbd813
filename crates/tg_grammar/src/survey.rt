//! The first flaw of a tree, found in one pass over its nodes.
ghost use Rattle.std.specs.Prelude.{◌≡◌, ◌<◌, ◌≤◌, ◌+◌, ◌^◌, ◌∷◌, ◌++◌, [], List, length, drop, IsTrue, IsFalse, ◌↔◌, ◌⊎◌, MatchOption, suc, Some, None, if◌then◌else◌};
ghost use Rattle.gr_terms.specs.Canonical.{Node};
ghost use Rattle.gr_terms.specs.Constants.{ANCHOR, FOOT};
ghost use Rattle.td_tree.specs.TreeViews.{Pairs};
ghost use Rattle.td_tree.specs.Trees.{AreTreeNodes, is_parent};
ghost use Rattle.tg_grammar.specs.declared.flaw.Flaw.TheVariants as Flaw;
ghost use Rattle.tg_grammar.specs.Marks.{first_name, is_marked, lists_at, IsMarkOf};
ghost use Rattle.tg_grammar.specs.Shapes.{AreOneName, IsFirstFlaw, IsWellFormedTree};
ghost use Rattle.tg_grammar.specs.Surveys.{begins_under, number_of, sights, HasLowest, HasNodeFlaw, HasSeenFlaw, HasRootFlaw, HasCountFlaw, IsSurvey, Sight, lower};

use crate::facts::root_name;
use crate::flaw::Flaw;
use crate::marks::{Mark, category_name, mark_of};
use gr_terms::{EMPTY, Sym};
use td_tree::{Tree, TreeNode};

/// What was seen of the nodes of a tree so far.
#[derive(Clone, Copy)]
struct Survey {
    // The name that is the root's category.
    root: Option<Sym>,
    // What is wrong with single nodes, the lowest code of it.
    lowest: Option<Flaw>,
    // How many anchors and feet there are.
    anchors: usize,
    feet: usize,
}

/// The first flaw of a tree, which is the one of the lowest code, or `None` where the tree is well
/// formed. Each node is looked at once.
pub fn first_flaw(tree: &Tree) -> Option<Flaw>
    requires { AreTreeNodes tree.now.nodes }
    ensures { MatchOption result (IsWellFormedTree tree.now) (IsFirstFlaw tree.now) }
{
    survey_of(tree.nodes.as_slice()).first_flaw()
}

/// What there is to see of the nodes of a tree.
fn survey_of(nodes: &[TreeNode]) -> Survey
    requires { length nodes.now ≤ 24 }
    ensures root { number_of result.root ≡ first_name nodes.now }
    ensures seen { IsSurvey (sights 0 nodes.now) result }
{
    let mut survey = Survey {
        root: root_name(nodes),
        lowest: None,
        anchors: 0,
        feet: 0,
    };
    for number in 0..nodes.len() {
        survey.add(&nodes[number], has_children(nodes, number));
    }
    survey
}

/// Whether a node of a tree has children: its first child would stand right behind it.
fn has_children(nodes: &[TreeNode], number: usize) -> bool
    requires { number < length nodes.now }
    ensures { result ≡ begins_under number (drop (suc number) nodes.now) }
{
    match nodes.get(number + 1) {
        Some(next) => is_under(next, number),
        None => false,
    }
}

/// Whether a node's parent has this number.
fn is_under(node: &TreeNode, number: usize) -> bool
    ensures { result ≡ is_parent node.now.parent number }
{
    match node.parent {
        Some(parent) => parent as usize == number,
        None => false,
    }
}

/// What is wrong with a node by itself, the lowest code of it, in a tree whose root has this name as
/// category.
fn node_flaw(
    node: &TreeNode,
    mark: Option<Mark>,
    has_children: bool,
    root: Option<Sym>,
) -> Option<Flaw>
    requires mark { IsMarkOf (lists_at node.now) mark }
    ensures { HasLowest (HasNodeFlaw (number_of root) (has_children, lists_at node.now)) result }
{
    let category = category_name(node);
    match mark {
        Some(Mark::Subst) => {
            if category.is_none() {
                return Some(Flaw::SubstCategory);
            }
            inner_flaw(has_children)
        }
        Some(Mark::Foot) => {
            if !are_one_name(root, category) {
                return Some(Flaw::FootCategory);
            }
            inner_flaw(has_children)
        }
        Some(Mark::Lex) => {
            if !has_children && !is_word(category) {
                return Some(Flaw::NoWord);
            }
            inner_flaw(has_children)
        }
        Some(Mark::Anchor) => inner_flaw(has_children),
        Some(Mark::Coanchor) => inner_flaw(has_children),
        Some(Mark::Nadj) => leaf_flaw(has_children),
        None => leaf_flaw(has_children),
    }
}

/// What is wrong with a node that has the mark of a leaf.
fn inner_flaw(has_children: bool) -> Option<Flaw>
    ensures { result ≡ (if has_children then Some Flaw.MarkOnInner else None) }
{
    if has_children {
        Some(Flaw::MarkOnInner)
    } else {
        None
    }
}

/// What is wrong with a node that hasn't.
fn leaf_flaw(has_children: bool) -> Option<Flaw>
    ensures { result ≡ (if has_children then None else Some Flaw.NoWord) }
{
    if has_children {
        None
    } else {
        Some(Flaw::NoWord)
    }
}

/// Whether both are the same name.
fn are_one_name(first: Option<Sym>, second: Option<Sym>) -> bool
    ensures { IsTrue result ↔ AreOneName (number_of first) (number_of second) }
{
    match (first, second) {
        (Some(a), Some(b)) => a == b,
        _ => false,
    }
}

/// Whether the category is a name that isn't empty.
fn is_word(category: Option<Sym>) -> bool
    ensures { IsFalse result ↔ ((number_of category ≡ None) ⊎ (number_of category ≡ Some EMPTY.0)) }
{
    match category {
        Some(name) => name != EMPTY,
        None => false,
    }
}

/// How many anchors and how many feet a node of this mark is.
fn tally(mark: Option<Mark>) -> (usize, usize)
    ensures few { result.0 + result.1 ≤ 1 }
    ensures anchors { (n : Node Pairs) → IsMarkOf n mark → result.0 ≡ (if is_marked ANCHOR n then 1 else 0) }
    ensures feet { (n : Node Pairs) → IsMarkOf n mark → result.1 ≡ (if is_marked FOOT n then 1 else 0) }
{
    match mark {
        Some(Mark::Anchor) => (1, 0),
        Some(Mark::Coanchor) => (0, 0),
        Some(Mark::Subst) => (0, 0),
        Some(Mark::Foot) => (0, 1),
        Some(Mark::Lex) => (0, 0),
        Some(Mark::Nadj) => (0, 0),
        None => (0, 0),
    }
}

/// The flaw of the lower code.
fn lower(first: Option<Flaw>, second: Option<Flaw>) -> Option<Flaw>
    ensures { result ≡ lower first second }
{
    match (first, second) {
        (Some(a), Some(b)) => if b.code() < a.code() {
            Some(b)
        } else {
            Some(a)
        },
        (None, flaw) => flaw,
        (flaw, None) => flaw,
    }
}

impl Survey {
    /// Adds what is to see of one more node.
    fn add(&mut self, node: &TreeNode, has_children: bool)
        requires few { self.old.anchors + self.old.feet < 2 ^ 32 }
        ensures root { self.new.root ≡ self.old.root }
        ensures seen { (seen : List Sight) → IsSurvey seen self.old
            → IsSurvey (seen ++ (has_children, lists_at node.now) ∷ []) self.new }
    {
        let mark = mark_of(node);
        let (anchors, feet) = tally(mark);
        *self = Survey {
            root: self.root,
            lowest: lower(self.lowest, node_flaw(node, mark, has_children, self.root)),
            anchors: self.anchors + anchors,
            feet: self.feet + feet,
        };
    }

    /// The flaw of the lowest code.
    fn first_flaw(&self) -> Option<Flaw>
        ensures { (seen : List Sight) → IsSurvey seen self.now → HasLowest (HasSeenFlaw (number_of self.now.root) seen) result }
    {
        lower(self.root_flaw(), lower(self.lowest, self.count_flaw()))
    }

    /// What is wrong with the root's category.
    fn root_flaw(&self) -> Option<Flaw>
        ensures { HasLowest (HasRootFlaw (number_of self.now.root)) result }
    {
        match self.root {
            Some(_) => None,
            None => Some(Flaw::RootCategory),
        }
    }

    /// What is wrong with the numbers of anchors and feet.
    fn count_flaw(&self) -> Option<Flaw>
        ensures { HasLowest (HasCountFlaw self.now.anchors self.now.feet) result }
    {
        if self.anchors != 1 {
            Some(Flaw::AnchorCount)
        } else if self.feet > 1 {
            Some(Flaw::FootCount)
        } else {
            None
        }
    }
}
