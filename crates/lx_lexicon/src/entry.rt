//! Entries of a lexicon.

use gr_base::Items;
use gr_terms::{Bag, Literals, Sym};

/// The most literals of an entry.
pub const LITERAL_LIMIT: usize = 4;

/// The co-anchors of an entry, each the name of a leaf with the lemma that is put there, in the order
/// of the text; seen as the list of these pairs.
pub type CoNames = Items<(Sym, Sym)>;

/// An entry: what a lemma adds to each tree of a family.
#[derive(Drop)]
pub struct Entry {
    /// The lemma of the anchor.
    pub lemma: Sym,
    /// The class whose trees it anchors.
    pub family: Sym,
    /// Features of the tree's interface.
    pub iface: Bag,
    /// Features of the anchor's bottom.
    pub anchor: Bag,
    /// The lemmas of the co-anchors.
    pub coanchors: CoNames,
    /// What it means.
    pub sem: Literals,
}

/// The entries of a lexicon, in the order of the text; seen as a list.
pub type Lexicon = Items<Entry>;
