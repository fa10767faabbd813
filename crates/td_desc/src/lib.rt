//! Descriptions of trees: nodes with colours, relations between them, and a network.
//!
//! # Model
//!
//! - A [`Description`] is seen with its lists as lists. A node is named by its place among the
//!   nodes, counted from 0, and has three slots of the network.
//! - `specs/Descriptions` has descriptions over any type of variables and slots, for what is said
//!   of a description before it is numbered, and the numbered one read so (`description_of`).
//!
//! # What each description keeps
//!
//! `specs/Conditions` has the record `IsNumbered`: the nodes stand in search order, blacks first,
//! then whites, then reds; relations name nodes that are there; and all variables and slots are
//! below the description's numbers of them. Each call that gives a description gives one of which
//! this holds, and each call that takes a description takes only such a one.
//!
//! # What the crates above can rely on
//!
//! [`laws`] has what follows of a single node, relation, assertion and literal, that a node of an
//! earlier colour stands before one of a later colour, and that reading a description as numbers
//! keeps each node at its place.
#![tactic(auto)]

ghost use Rattle.std.specs.Prelude.{◌≡◌, length};

pub mod laws;

use gr_base::Items;
pub use gr_base::Memory;
pub use gr_terms::{Literals, Network, SlotId};

/// The colour of a node.
#[derive(Clone, Copy, Debug, PartialEq, Eq)]
pub enum Colour {
    Black,
    White,
    Red,
}

/// A relation between two nodes of a tree.
#[derive(Clone, Copy, Debug, PartialEq, Eq)]
pub enum Dominance {
    /// The first is the parent of the second.
    Parent,
    /// The first is above the second.
    Above,
    /// The first is above the second, or they are one node.
    AboveOrSame,
    /// The second is the next to the right.
    Next,
    /// The first is left of the second.
    Left,
    /// The first is left of the second, or they are one node.
    LeftOrSame,
}

/// A node: its colour, the slot of its category and properties, and those of its top and bottom
/// features.
#[derive(Clone, Copy, Debug, PartialEq, Eq)]
pub struct DescribedNode {
    pub colour: Colour,
    pub own: SlotId,
    pub top: SlotId,
    pub bot: SlotId,
}

/// Nodes, seen as a list.
pub type DescribedNodes = Items<DescribedNode>;

/// A relation between two nodes, which are named by their places from 0.
#[derive(Clone, Copy, Debug, PartialEq, Eq)]
pub struct Related {
    pub from: u32,
    pub how: Dominance,
    pub to: u32,
}

/// Relations, seen as a list.
pub type Relations = Items<Related>;

/// A description of trees.
#[derive(Drop)]
pub struct Description {
    /// The number of its variables, which count from 0.
    pub vars: u32,
    /// The number of its slots, which count from 0.
    pub slots: u32,
    /// The nodes in search order: blacks, whites, reds.
    pub nodes: DescribedNodes,
    /// What must hold between nodes.
    pub relations: Relations,
    /// What the nodes and values share.
    pub network: Network,
    /// The slot of the interface.
    pub iface: SlotId,
    /// The literals in order.
    pub sem: Literals,
}

impl Description {
    /// The number of nodes.
    pub fn count(&self) -> usize
        ensures { result ≡ length self.now.nodes }
    {
        self.nodes.len()
    }
}
