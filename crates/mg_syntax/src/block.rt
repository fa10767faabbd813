//! Node blocks and what stands beside them.
use crate::body::{Bag, Ref};
use crate::row::Row;

/// How two nodes stand to each other.
#[derive(Clone, Copy, Debug, PartialEq, Eq)]
pub enum Relate {
    /// `->`: the first is the parent of the second.
    Parent,
    /// `->+`: the first is above the second.
    Above,
    /// `->*`: the first is above the second, or they are one node.
    AboveOrSame,
    /// `>>`: the second is the next to the right.
    Next,
    /// `>>+`: the first is left of the second.
    Left,
    /// `>>*`: the first is left of the second, or they are one node.
    LeftOrSame,
    /// `=`: they are one node.
    Same,
}

/// The colour of a node.
#[derive(Clone, Copy, Debug, PartialEq, Eq)]
pub enum Paint {
    Black,
    White,
    Red,
}

/// What may stand in a `<syn>` block.
#[derive(Drop)]
pub enum SynItem {
    /// A node block.
    Node(NodeBlock),
    /// A relation of two nodes.
    Relation(Ref, Relate, Ref),
}

/// Node blocks and relations, seen as a list.
pub type SynItems = Row<SynItem>;

/// A node block.
#[cycle(blocks)]
#[derive(Drop)]
pub struct NodeBlock {
    /// The variable that names the node, if there is one.
    pub name: Option<Ref>,
    /// The value of `color`.
    pub colour: Option<Paint>,
    /// The properties but `color`, and the category as the value of `cat`, in the order of the text.
    pub own: Bag,
    /// The features at the top.
    pub top: Bag,
    /// The features at the bottom.
    pub bot: Bag,
    /// The node blocks inside.
    pub kids: Kids,
}

/// A node block inside another one.
#[cycle(blocks)]
#[derive(Drop)]
pub struct Kid {
    /// How the parent stands to the kid: `Parent`, with `...` `AboveOrSame`, with `...+` `Above`.
    pub down: Relate,
    /// Whether `,,,` stands before the kid.
    pub loose: bool,
    /// The kid's block.
    pub node: NodeBlock,
}

/// The kids of a node block, seen as a list.
pub type Kids = Row<Kid>;
