//! Instances of lexical trees.

use gr_base::Items;
use gr_terms::Literals;

/// The most instances of an input.
pub const INSTANCE_LIMIT: usize = 4_096;

/// Places of an input's literals, counted from 0; seen as a list.
pub type Places = Items<u8>;

/// A lexical tree with a place of the input for each of its literals.
#[derive(Drop)]
pub struct Instance {
    /// The number of the lexical tree, counted from 0.
    pub tree: u32,
    /// The places, in the order of the tree's literals.
    pub places: Places,
}

/// Instances, seen as a list.
pub type Instances = Items<Instance>;

/// What is selected for an input.
#[derive(Drop)]
pub struct Selection {
    /// All instances, by lexical tree and then by the list of places.
    pub instances: Instances,
    /// The literals of the input.
    pub literals: Literals,
}
