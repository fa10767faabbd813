//! Lexical trees.

use gr_base::Items;
use gr_terms::Sym;
use td_tree::Tree;

/// The lemmas of co-anchors, each with the number of its node, in preorder from 0; seen as the list of
/// these pairs.
pub type CoLemmas = Items<(u8, Sym)>;

/// A tree of a family with an entry.
#[derive(Drop)]
pub struct LexicalTree {
    /// The number of the entry, counted from 0.
    pub entry: u32,
    /// The class that the tree is of.
    pub class: Sym,
    /// The number of the tree in its class, counted from 1.
    pub number: u32,
    /// The lemma of the anchor.
    pub lemma: Sym,
    /// The lemmas of the co-anchors.
    pub coanchors: CoLemmas,
    /// The tree, with what the entry adds to it.
    pub tree: Tree,
}

/// Lexical trees, seen as a list.
pub type LexicalTrees = Items<LexicalTree>;
