//! What nodes are for derivations: where trees may be put.
ghost use Rattle.std.specs.Prelude.{◌≡◌, if◌then◌else◌};
ghost use Rattle.gr_terms.specs.Canonical.{Node};
ghost use Rattle.td_tree.specs.TreeViews.{Pairs};
ghost use Rattle.tg_grammar.specs.Marks.{lists_at, node_lists, IsMarkOf};
ghost use Rattle.tg_grammar.specs.Spots.{category_of, has_value, is_auxiliary, kind_of};

use crate::marks::{Mark, has_mark, mark_of};
use gr_terms::{CAT, Term};
use td_tree::{Tree, TreeNode};

/// What a node is for derivations.
#[derive(Clone, Copy, Debug, PartialEq, Eq)]
pub enum Kind {
    /// A substitution node: an initial tree is put here.
    Substitution,
    /// A site: auxiliary trees may be adjoined here.
    Site,
    /// Nothing is put here.
    Plain,
}

/// Whether the node has a category, be it a name or a variable.
pub fn has_category(node: &TreeNode) -> bool
    ensures { result ≡ has_value (category_of (lists_at node.now)) }
{
    match node.own.get(CAT) {
        Some(Term::Const(_)) => true,
        Some(Term::Var(_)) => true,
        None => false,
    }
}

/// What the node is for derivations. A site has a category, which may be a variable, and none of the
/// marks `subst`, `foot`, `lex` and `nadj`.
pub fn kind_of(node: &TreeNode) -> Kind
    ensures { result ≡ kind_of (lists_at node.now) }
{
    kind_by(mark_of(node), has_category(node))
}

/// What a node of this mark is, with a category or without.
fn kind_by(mark: Option<Mark>, has_category: bool) -> Kind
    ensures { (n : Node Pairs) → IsMarkOf n mark → has_category ≡ has_value (category_of n) → result ≡ kind_of n }
{
    match mark {
        Some(Mark::Subst) => Kind::Substitution,
        Some(Mark::Foot) => Kind::Plain,
        Some(Mark::Lex) => Kind::Plain,
        Some(Mark::Nadj) => Kind::Plain,
        Some(Mark::Anchor) => free_kind(has_category),
        Some(Mark::Coanchor) => free_kind(has_category),
        None => free_kind(has_category),
    }
}

/// What a node is that no mark keeps from being a site.
fn free_kind(has_category: bool) -> Kind
    ensures { result ≡ (if has_category then Kind.Site else Kind.Plain) }
{
    if has_category {
        Kind::Site
    } else {
        Kind::Plain
    }
}

/// Whether the tree is auxiliary: one of its nodes is a foot. Another tree is initial.
pub fn is_auxiliary(tree: &Tree) -> bool
    ensures { result ≡ is_auxiliary (node_lists tree.now.nodes) }
{
    'nodes: for number in 0..tree.nodes.len() {
        if has_mark(tree.nodes.get(number), Mark::Foot) {
            return true;
        }
    }
    false
}
