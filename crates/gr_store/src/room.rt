//! Room of a store, and marks.

/// How much a store may hold.
#[derive(Clone, Copy, Debug, PartialEq, Eq)]
pub struct Room {
    /// Variables.
    pub vars: u32,
    /// Slots.
    pub slots: u32,
    /// Entries among the assertions.
    pub entries: u32,
    /// Assertions.
    pub assertions: u32,
}

/// How much a store holds, to which `Store::undo` goes back.
#[derive(Clone, Copy, Debug, PartialEq, Eq)]
pub struct Mark {
    /// Variables.
    pub vars: u32,
    /// Slots.
    pub slots: u32,
    /// Entries among the assertions.
    pub entries: u32,
    /// Assertions.
    pub assertions: u32,
}
