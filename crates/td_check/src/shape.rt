//! How the nodes of a tree stand to each other, by their numbers in preorder.
ghost use Rattle.std.specs.Prelude.{◌≡◌, ◌↔◌, ◌<◌, ◌≤◌, IsTrue, length};
ghost use Rattle.td_desc.specs.Conditions.{IsNumbered};
ghost use Rattle.td_tree.specs.Trees.{AreTreeNodes};
ghost use Rattle.td_check.specs.Places.{IsFrom, EndsAt, StandAt, DecidesStand, DecidesAmid, DecidesBetween, DecidesHolds, DecidesRelations};
ghost use Rattle.td_check.specs.Sets.{IsOnto};

use td_desc::{Description, Dominance};
use td_forest::Relation;
use td_tree::TreeNode;

/// Whether the node's parent has this number or one behind it.
fn is_inside(node: &TreeNode, at: u8) -> bool
    ensures { IsTrue result ↔ IsFrom at node.now.parent }
{
    match node.parent {
        Some(parent) => at <= parent,
        None => false,
    }
}

/// The number behind the last node at or under the node.
fn behind(nodes: &[TreeNode], at: u8) -> u8
    requires few { length nodes.now ≤ 24 }
    requires within { at < length nodes.now }
    ensures { EndsAt nodes.now at result }
{
    let count = nodes.len() as u8;
    for end in at + 1..count {
        if !is_inside(&nodes[end as usize], at) {
            return end;
        }
    }
    count
}

/// How two nodes stand to each other.
fn relation(nodes: &[TreeNode], a: u8, b: u8) -> Relation
    requires few { length nodes.now ≤ 24 }
    requires a_within { a < length nodes.now }
    requires b_within { b < length nodes.now }
    ensures { StandAt nodes.now a b result }
{
    if a == b {
        Relation::Same
    } else if a < b {
        if b < behind(nodes, a) {
            Relation::Over
        } else {
            Relation::Left
        }
    } else if a < behind(nodes, b) {
        Relation::Under
    } else {
        Relation::Right
    }
}

/// Whether the first node stands so to the second.
fn stands(nodes: &[TreeNode], a: u8, b: u8, how: Relation) -> bool
    requires few { length nodes.now ≤ 24 }
    requires a_within { a < length nodes.now }
    requires b_within { b < length nodes.now }
    ensures { DecidesStand nodes.now a b how result }
{
    relation(nodes, a, b) == how
}

/// Whether the first node stands so to the second, and that one so to the third.
fn stands_between(nodes: &[TreeNode], a: u8, middle: u8, b: u8, how: Relation) -> bool
    requires few { length nodes.now ≤ 24 }
    requires a_within { a < length nodes.now }
    requires middle_within { middle < length nodes.now }
    requires b_within { b < length nodes.now }
    ensures { DecidesAmid nodes.now a middle b how result }
{
    let first = stands(nodes, a, middle, how);
    let second = stands(nodes, middle, b, how);
    first & second
}

/// Whether no node stands so between two others.
fn none_between(nodes: &[TreeNode], a: u8, b: u8, how: Relation) -> bool
    requires few { length nodes.now ≤ 24 }
    requires a_within { a < length nodes.now }
    requires b_within { b < length nodes.now }
    ensures { DecidesBetween nodes.now a b how result }
{
    for middle in 0..nodes.len() as u8 {
        if stands_between(nodes, a, middle, b, how) {
            return false;
        }
    }
    true
}

/// Whether the relation holds between two nodes.
fn holds(nodes: &[TreeNode], how: Dominance, a: u8, b: u8) -> bool
    requires few { length nodes.now ≤ 24 }
    requires a_within { a < length nodes.now }
    requires b_within { b < length nodes.now }
    ensures { DecidesHolds nodes.now how a b result }
{
    match how {
        Dominance::Parent => {
            let over = stands(nodes, a, b, Relation::Over);
            let none = none_between(nodes, a, b, Relation::Over);
            over & none
        }
        Dominance::Above => stands(nodes, a, b, Relation::Over),
        Dominance::AboveOrSame => {
            let over = stands(nodes, a, b, Relation::Over);
            let same = stands(nodes, a, b, Relation::Same);
            over | same
        }
        Dominance::Next => {
            let left = stands(nodes, a, b, Relation::Left);
            let none = none_between(nodes, a, b, Relation::Left);
            left & none
        }
        Dominance::Left => stands(nodes, a, b, Relation::Left),
        Dominance::LeftOrSame => {
            let left = stands(nodes, a, b, Relation::Left);
            let same = stands(nodes, a, b, Relation::Same);
            left | same
        }
    }
}

/// Whether each relation of the description holds between the tree nodes of its two nodes.
pub fn all_hold(d: &Description, nodes: &[TreeNode], map: &[u8]) -> bool
    requires numbered { IsNumbered d.now }
    requires few { length nodes.now ≤ 24 }
    requires onto { IsOnto map.now (length d.now.nodes) (length nodes.now) }
    ensures { DecidesRelations d.now nodes.now map.now result }
{
    for place in 0..d.relations.len() {
        let related = d.relations.get(place);
        let from = map[related.from as usize];
        let to = map[related.to as usize];
        if !holds(nodes, related.how, from, to) {
            return false;
        }
    }
    true
}
