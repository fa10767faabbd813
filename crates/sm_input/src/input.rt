//! Inputs.
use gr_terms::{Bag, Literals, Sym};

/// The most different literals of an input.
pub const LITERAL_LIMIT: usize = 24;

/// The most inputs of a file.
pub const INPUT_LIMIT: usize = 4_096;

/// A flat meaning that is to be said.
#[derive(Drop)]
pub struct Input {
    /// Its name, which other inputs may have too.
    pub name: Sym,
    /// The features that a sentence for it has to have.
    pub start: Bag,
    /// Its literals, all different, in the order in which they first stand. One that is written
    /// without a handle has a name of its own as handle.
    pub literals: Literals,
}
