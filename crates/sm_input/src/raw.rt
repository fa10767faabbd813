//! Inputs as they are read, before their literals have names for the handles that are left out.
use gr_feats::gathered::Gathered;
use gr_terms::{Sym, Term, Terms};

/// A literal as it is written. A variable has the number of its own name.
#[derive(Drop)]
pub struct RawLiteral {
    /// The handle, unless it is left out.
    pub handle: Option<Term>,
    /// The predicate.
    pub pred: Term,
    /// The arguments.
    pub args: Terms,
}

/// An input as it is written.
#[derive(Drop)]
pub struct RawInput {
    /// How many lexemes were left at its word `input`, that word among them.
    pub left: usize,
    /// Its name.
    pub name: Sym,
    /// Its start features.
    pub start: Gathered,
    /// Its literals, each at its first place, at most one more than an input may have.
    pub literals: Vec<RawLiteral>,
}
