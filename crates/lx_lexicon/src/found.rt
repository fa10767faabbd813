//! What was found in an entry, with the places that a complaint may name.

use gr_base::Items;
use gr_feats::gathered::Gathered;
use gr_terms::{Literals, Sym};

/// A name, and how many lexemes were left at it, itself among them.
#[derive(Clone, Copy)]
pub struct Named {
    /// The name.
    pub name: Sym,
    /// How many lexemes were left.
    pub left: usize,
}

/// A co-anchor.
#[derive(Clone, Copy)]
pub struct Coanchor {
    /// The name of a leaf.
    pub name: Named,
    /// The lemma that is put there.
    pub lemma: Named,
}

/// What stands before the brace that opens an entry.
#[derive(Clone, Copy)]
pub struct Head {
    /// How many lexemes were left at the word `entry`, itself among them.
    pub left: usize,
    /// The lemma.
    pub lemma: Named,
    /// The family.
    pub family: Sym,
}

/// What stands between the braces.
#[derive(Drop)]
pub struct Body {
    /// The interface.
    pub iface: Gathered,
    /// The features of the anchor.
    pub anchor: Gathered,
    /// The co-anchors.
    pub coanchors: Items<Coanchor>,
    /// The literals.
    pub sem: Literals,
}

/// An entry as it was found.
#[derive(Drop)]
pub struct Found {
    /// Its head.
    pub head: Head,
    /// Its body.
    pub body: Body,
}
