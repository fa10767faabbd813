//! Co-anchors: whether a tree's leaves and an entry have the same names, and the leaves' lemmas.
ghost use Rattle.std.specs.Prelude.{◌≡◌, ◌↔◌, ◌≤◌, ℕ, List, IfOk, IsTrue, MatchOption, Some, length};
ghost use Rattle.std.specs.Option.{option_map};
ghost use Rattle.gr_base.specs.Lists.{Each};
ghost use Rattle.gr_terms.specs.Constants.{COANCHOR};
ghost use Rattle.gr_terms.specs.declared.Sym.{Sym};
ghost use Rattle.std.specs.List.{AllZip};
ghost use Rattle.tg_grammar.specs.Marks.{is_marked, lists_at, name_of, value_of};
ghost use Rattle.lx_anchor.specs.Anchoring.{AreLemmas, HasLeaf, IsGiven, co_leaves, lemma_for};

use gr_base::{Items, Memory};
use gr_terms::{NAME, Sym, Term};
use lx_lexicon::{CoNames, Entry};
use std::alloc::Global;
use td_tree::{Tree, TreeNode};
use tg_grammar::{Mark, has_mark};
use tg_model::CoLemmas;

/// The name that is the node's property `name`, or `None` where it has none, or a variable.
fn node_name(node: &TreeNode) -> Option<Sym>
    ensures { option_map (λ name. name.0) result ≡ name_of (value_of (lists_at node.now).own NAME.0) }
{
    match node.own.get(NAME) {
        Some(Term::Const(name)) => Some(name),
        Some(Term::Var(_)) => None,
        None => None,
    }
}

/// The lemma that the co-anchors give a name.
fn lemma_of(coanchors: &CoNames, name: Sym) -> Option<Sym>
    ensures { result ≡ lemma_for coanchors.now name.0 }
{
    'names: for place in 0..coanchors.len() {
        let (given, lemma) = *coanchors.get(place);
        if given == name {
            return Some(lemma);
        }
    }
    None
}

/// The lemma that the co-anchors give the name of a node.
fn node_lemma(node: &TreeNode, coanchors: &CoNames) -> Option<Sym>
    ensures { MatchOption result
        ((a : ℕ) (lemma : Sym) → name_of (value_of (lists_at node.now).own NAME.0) ≡ Some a → lemma_for coanchors.now a ≡ Some lemma → ⊥)
        (λ lemma. (a : ℕ) × (name_of (value_of (lists_at node.now).own NAME.0) ≡ Some a) × (lemma_for coanchors.now a ≡ Some lemma)) }
{
    match node_name(node) {
        Some(name) => lemma_of(coanchors, name),
        None => None,
    }
}

/// Whether the node has this name as its property `name`.
fn has_name(node: &TreeNode, name: Sym) -> bool
    ensures { IsTrue result ↔ (name_of (value_of (lists_at node.now).own NAME.0) ≡ Some name.0) }
{
    match node_name(node) {
        Some(other) => other == name,
        None => false,
    }
}

/// Whether the node is a co-anchor of this name.
fn is_leaf(node: &TreeNode, name: Sym) -> bool
    ensures { IsTrue result ↔ (IsTrue (is_marked COANCHOR (lists_at node.now)) × (name_of (value_of (lists_at node.now).own NAME.0) ≡ Some name.0)) }
{
    has_mark(node, Mark::Coanchor) && has_name(node, name)
}

/// Whether the tree has a co-anchor of this name.
fn has_leaf(tree: &Tree, name: Sym) -> bool
    ensures { IsTrue result ↔ HasLeaf tree.now name.0 }
{
    'nodes: for number in 0..tree.nodes.len() {
        if is_leaf(tree.nodes.get(number), name) {
            return true;
        }
    }
    false
}

/// Whether the tree has a co-anchor for each of the names.
fn has_leaves(tree: &Tree, coanchors: &CoNames) -> bool
    ensures { IsTrue result ↔ Each (λ c. HasLeaf tree.now c.0.0) coanchors.now }
{
    'names: for place in 0..coanchors.len() {
        if !has_leaf(tree, coanchors.get(place).0) {
            return false;
        }
    }
    true
}

/// The lemmas of the tree's co-anchors, in preorder, or `None` where one has no name, or one that the
/// entry gives no lemma.
fn leaf_lemmas(alloc: Global, tree: &Tree, entry: &Entry) -> Result<Option<CoLemmas>, Memory>
    requires { length tree.now.nodes ≤ 24 }
    ensures { IfOk result (λ found. MatchOption found
        ((lemmas : List (ℕ × Sym)) → AllZip (IsGiven tree.now entry.now) (co_leaves tree.now) lemmas → ⊥)
        (AllZip (IsGiven tree.now entry.now) (co_leaves tree.now))) }
{
    let mut lemmas = Items::new(alloc);
    'nodes: for number in 0..tree.nodes.len() {
        let node = tree.nodes.get(number);
        if has_mark(node, Mark::Coanchor) {
            match node_lemma(node, &entry.coanchors) {
                Some(lemma) => lemmas.push((number as u8, lemma))?,
                None => return Ok(None),
            }
        }
    }
    Ok(Some(lemmas))
}

/// The lemmas of the tree's co-anchors, in preorder, or `None` where their names aren't just those
/// that the entry gives lemmas.
pub fn lemmas_of(alloc: Global, tree: &Tree, entry: &Entry) -> Result<Option<CoLemmas>, Memory>
    requires { length tree.now.nodes ≤ 24 }
    ensures { IfOk result (λ found. MatchOption found
        ((lemmas : List (ℕ × Sym)) → AreLemmas tree.now entry.now lemmas → ⊥)
        (AreLemmas tree.now entry.now)) }
{
    if has_leaves(tree, &entry.coanchors) {
        leaf_lemmas(alloc, tree, entry)
    } else {
        Ok(None)
    }
}
