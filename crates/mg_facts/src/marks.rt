//! What there was before a fact.

/// The numbers of variables that had a number, of assertions and entries of the network, and of
/// pairs of variables that were made one.
#[derive(Clone, Copy, Debug, PartialEq, Eq)]
pub struct Past {
    pub names: u32,
    pub assertions: u32,
    pub entries: u32,
    pub joins: u32,
}
