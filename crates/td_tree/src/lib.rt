//! Decorated trees: nodes with bags, in preorder.
//!
//! # Model
//!
//! A tree is seen as its nodes, its interface and its literals. The nodes stand in preorder, each
//! with the number of its parent, and a node's number is its place, counted from 0. `specs/Trees`
//! says which lists are the nodes of a tree (`AreTreeNodes`): there is one forest of one tree, whose
//! nodes laid out in preorder are these, and they are at most 24. So the first alone has no parent.
//!
//! # What the crates above can rely on
//!
//! - Each call that gives a tree gives one whose nodes are `AreTreeNodes`, and each call that takes
//!   one has this as a condition.
//! - [`Tree::children`] gives the numbers of a node's children from left to right.
//! - `specs/Positions` has the position of each node number, `specs/TreeViews` the decorated tree
//!   that a tree stands for, and `specs/TreeNetworks` the network of its lists.
//! - `specs/FlatTrees` has the same of the list of nodes alone: the forest that they are laid out from
//!   (`forest_of`, and `forest_in` with the lists of the nodes) and the network (`listed_network`).
//! - [`bags_are_listed`] tells of any tree that each of its bags has an attribute at most once.
//! - `specs/Forms` says when a tree over one network has each canonical form that a tree over another
//!   one has (`AreSameTrees`).
//! - [`laws`] says what follows: the first node alone has no parent, a parent stands before its
//!   children, the list of the nodes fixes the forest, and it gives the forest and the network; and
//!   canonical forms go from tree to tree.
#![tactic(auto)]

ghost use Rattle.std.specs.Prelude.{◌≡◌, ◌<◌, ◌↔◌, IsTrue, length};
ghost use Rattle.td_tree.specs.Trees.{AreTreeNodes, children_of, is_parent};

use gr_base::Items;
use gr_terms::{Bag, Literals};
use std::marker::Model;

mod bags;
pub mod laws;

pub use bags::bags_are_listed;

/// A node of a tree.
#[derive(Drop)]
pub struct TreeNode {
    /// The number of the parent in preorder, counted from 0; the root has none.
    pub parent: Option<u8>,
    /// The category, which is the value of `CAT`, and the properties.
    pub own: Bag,
    /// The top features.
    pub top: Bag,
    /// The bottom features.
    pub bot: Bag,
}

/// Nodes in preorder, seen as a list.
pub type TreeNodes = Items<TreeNode>;

/// A tree with its interface and its literals.
#[derive(Drop)]
pub struct Tree {
    /// The nodes in preorder.
    pub nodes: TreeNodes,
    /// The interface.
    pub iface: Bag,
    /// The semantics.
    pub sem: Literals,
}

/// The children of a node from left to right, by their numbers in preorder. Seen as the list of
/// those that are left.
#[derive(Drop)]
pub struct Children<'a> {
    nodes: &'a [TreeNode],
    parent: u8,
    at: usize,
}

impl<'a> Model for Children<'a> {
    ghost use Rattle.std.specs.Prelude.{◌≤◌, ◌<◌, ℕ, List, drop, length};
    ghost use Rattle.td_tree.specs.Trees.{children_from};

    ghost Value = { List ℕ };

    ghost view = { λ c. children_from c.at c.parent (drop c.at c.nodes.now) };

    ghost invariant = { λ c. length c.nodes.now ≤ 24 };
}

impl<'a> Iterator for Children<'a> {
    ghost use Rattle.std.specs.Iterator.{YieldsFirst, item_count};

    type Item = u8;

    ghost next_gives = { YieldsFirst (λ left. left) };

    ghost remaining = { item_count (λ left. left) };

    fn next(&mut self) -> Option<u8> {
        while self.at < self.nodes.len() {
            let place = self.at;
            self.at += 1;
            if is_under(&self.nodes[place], self.parent) {
                return Some(place as u8);
            }
        }
        None
    }
}

/// Whether a node's parent has this number.
fn is_under(node: &TreeNode, parent: u8) -> bool
    ensures { result ≡ is_parent node.now.parent parent }
{
    match node.parent {
        Some(number) => number == parent,
        None => false,
    }
}

impl Tree {
    /// The numbers of the node's children in preorder, which are its children from left to right.
    pub fn children(&self, node: u8) -> Children<'_>
        requires nodes { AreTreeNodes self.now.nodes }
        requires within { node < length self.now.nodes }
        ensures { result ≡ children_of self.now.nodes node }
    {
        Children {
            nodes: self.nodes.as_slice(),
            parent: node,
            at: 0,
        }
    }
}
