//! Categories and marks of nodes.
ghost use Rattle.std.specs.Prelude.{◌≡◌, ◌≢◌, Some, MatchOption, map};
ghost use Rattle.std.specs.Option.{option_map};
ghost use Rattle.gr_terms.specs.BagViews.{pairs_of};
ghost use Rattle.gr_terms.specs.Constants.{mark_numbers};
ghost use Rattle.tg_grammar.specs.Marks.{category_name, is_marked, lists_at, mark_number, name_of, value_of, IsMarkOf};

use gr_terms::{ANCHOR, Bag, CAT, COANCHOR, FOOT, LEX, MARK, NADJ, SUBST, Sym, Term};
use td_tree::TreeNode;

/// The mark of a node: the value of its property `mark`, where that is one of these names.
#[derive(Clone, Copy, Debug, PartialEq, Eq)]
pub enum Mark {
    /// The lemma of an entry is written here, and its features hold at the bottom of the node.
    Anchor,
    /// Another lemma of the entry is written here.
    Coanchor,
    /// An initial tree is put here.
    Subst,
    /// Where the auxiliary tree is put, the tree that stood there hangs below this node.
    Foot,
    /// The category is written here.
    Lex,
    /// Nothing is adjoined here.
    Nadj,
}

/// The name that is the value of an attribute, or `None` where the attribute isn't there or has a
/// variable.
fn name_at(bag: &Bag, attr: Sym) -> Option<Sym>
    ensures { option_map (λ name. name.0) result ≡ name_of (value_of (pairs_of bag.now) attr.0) }
{
    match bag.get(attr) {
        Some(Term::Const(name)) => Some(name),
        Some(Term::Var(_)) => None,
        None => None,
    }
}

/// The name that is the node's category, or `None` where it has no category, or a variable.
pub fn category_name(node: &TreeNode) -> Option<Sym>
    ensures { option_map (λ name. name.0) result ≡ category_name (lists_at node.now) }
{
    name_at(&node.own, CAT)
}

/// The node's mark, or `None` where its property `mark` isn't there or has another value.
pub fn mark_of(node: &TreeNode) -> Option<Mark>
    ensures { IsMarkOf (lists_at node.now) result }
{
    match name_at(&node.own, MARK) {
        Some(name) => mark_named(name),
        None => None,
    }
}

/// Whether the node has this mark.
pub fn has_mark(node: &TreeNode, wanted: Mark) -> bool
    ensures { result ≡ is_marked (mark_number wanted) (lists_at node.now) }
{
    match name_at(&node.own, MARK) {
        Some(name) => name == wanted.name(),
        None => false,
    }
}

impl Mark {
    /// All marks, in the order of the numbers of their names.
    pub fn all() -> [Mark; 6]
        ensures { map (λ mark. mark_number mark) result ≡ mark_numbers }
    {
        [
            Mark::Anchor,
            Mark::Coanchor,
            Mark::Subst,
            Mark::Foot,
            Mark::Lex,
            Mark::Nadj,
        ]
    }

    /// The name of the mark.
    pub fn name(self) -> Sym
        ensures { result.0 ≡ mark_number self }
    {
        match self {
            Mark::Anchor => ANCHOR,
            Mark::Coanchor => COANCHOR,
            Mark::Subst => SUBST,
            Mark::Foot => FOOT,
            Mark::Lex => LEX,
            Mark::Nadj => NADJ,
        }
    }
}

/// The mark of a name.
fn mark_named(name: Sym) -> Option<Mark>
    ensures { MatchOption result ((m : Mark) → mark_number m ≢ name.0) (λ m. mark_number m ≡ name.0) }
{
    if name == ANCHOR {
        Some(Mark::Anchor)
    } else if name == COANCHOR {
        Some(Mark::Coanchor)
    } else if name == SUBST {
        Some(Mark::Subst)
    } else if name == FOOT {
        Some(Mark::Foot)
    } else if name == LEX {
        Some(Mark::Lex)
    } else if name == NADJ {
        Some(Mark::Nadj)
    } else {
        None
    }
}
