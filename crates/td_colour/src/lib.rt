//! The colour rule of forests of description nodes, and the forest models of a description.
//!
//! # Model
//!
//! `specs/Relations` says where a relation of a description holds in a forest, by the positions of
//! its two nodes. `specs/Colours` has the colour rule: a tree node is one black with any number of
//! whites, or one red alone. `specs/Models` puts them together: a forest model of the first m nodes
//! of a description is a forest of just these nodes in which each relation between two of them holds,
//! each tree node is lawful, and the network agrees with the slots of nodes that share a tree node
//! linked. A minimal model is a forest model of all nodes that is one tree.
//!
//! # What the crates above can rely on
//!
//! - [`allowed`] says exactly whether the colour rule holds at the tree node of a node, for the nodes
//!   that are there. It takes no memory.
//! - [`laws`] has what a search for models stands on: a forest model of one node more, with the last
//!   node taken out, is a forest model; each comes from exactly one by exactly one step; after a step
//!   only the relations, the tree node of the new node and the network are left to decide; and what a
//!   step adds to the network is three links or nothing.
//! - [`laws`] also says that descriptions that say the same have the same models, and trees of these
//!   with the same canonical forms and texts, whatever their variables and slots are. So what is found
//!   of a description in numbers holds of what it was made from.
//! - `specs/Models` says also what the tree of a model is and what its canonical form is, and
//!   `proofs/Twinning` has the relations by recursion on the forest, for proofs.
#![tactic(auto)]

ghost use Rattle.std.specs.Prelude.{◌≡◌, ℕ, ◌<◌, ◌↔◌, length, IsTrue};
ghost use Rattle.td_forest.specs.Nodes.{IsIn};
ghost use Rattle.td_forest.specs.Steps.{forest_of};
ghost use Rattle.td_desc.specs.Descriptions.{description_of};
ghost use Rattle.td_colour.specs.Colours.{IsAllowed, IsBeside, both};

use td_desc::{Colour, Description};
use td_forest::{Forest, Relation};

/// What two colours give together at one tree node; `None` where they may not share one.
fn merged(one: Colour, other: Colour) -> Option<Colour>
    ensures { result ≡ both one other }
{
    match (one, other) {
        (Colour::Black, Colour::White) | (Colour::White, Colour::Black) => Some(Colour::Black),
        (Colour::White, Colour::White) => Some(Colour::White),
        _ => None,
    }
}

/// Whether another node is in the tree node of a node.
fn shares(forest: &Forest, node: u8, other: u8) -> bool
    requires { IsIn (forest_of forest.now) node }
    ensures { IsTrue result ↔ IsBeside (forest_of forest.now) node other }
{
    other != node && forest.has(other) && forest.relates(node, other, Relation::Same)
}

/// Whether the colour rule holds at the tree node of a node, for the nodes that are there: it has
/// one black and else only whites, or one red alone. The node is there, and each node of the forest
/// is one of the description's.
pub fn allowed(d: &Description, forest: &Forest, node: u8) -> bool
    requires here { IsIn (forest_of forest.now) node }
    requires described { (x : ℕ) → IsIn (forest_of forest.now) x → x < length d.now.nodes }
    ensures { IsTrue result ↔ IsAllowed (description_of d.now).nodes (forest_of forest.now) node }
{
    let mut colour = d.nodes.get(node as usize).colour;
    for other in 0..forest.above() {
        if shares(forest, node, other) {
            match merged(colour, d.nodes.get(other as usize).colour) {
                Some(together) => colour = together,
                None => return false,
            }
        }
    }
    colour != Colour::White
}

pub mod laws;
