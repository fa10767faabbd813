//! The map, and the colours of the sets that it makes.
ghost use Rattle.std.specs.List.{list_any};
ghost use Rattle.std.specs.Prelude.{◌≡◌, ◌==◌, ◌↔◌, ◌<◌, ◌≤◌, ℕ, IsTrue, length};
ghost use Rattle.gr_base.specs.Lists.{IsAmong, Each};
ghost use Rattle.td_desc.specs.Conditions.{IsNumbered};
ghost use Rattle.td_desc.specs.Descriptions.{description_of};
ghost use Rattle.td_colour.specs.Colours.{IsLawful};
ghost use Rattle.td_check.specs.Places.{AreHeads, GoesWith, IsFirstSent, nodes_of};
ghost use Rattle.td_check.specs.Sets.{IsOnto, sent_to};

use td_colour::laws::blacks_first;
use td_desc::{Colour, DescribedNodes, Description};

/// Whether each entry is below a number.
fn all_within(map: &[u8], count: usize) -> bool
    ensures { IsTrue result ↔ Each (λ t. t < count) map.now }
{
    !map.iter().any(|to| *to as usize >= count)
}

/// Whether some node is sent to the tree node.
fn meets(map: &[u8], to: u8) -> bool
    ensures { result ≡ list_any (λ at. at == to) map.now }
{
    map.iter().any(|at| *at == to)
}

/// Whether some node is sent to each of so many tree nodes.
fn meets_all(map: &[u8], count: u8) -> bool
    ensures { IsTrue result ↔ ((t : ℕ) → t < count → IsAmong map.now t) }
{
    for to in 0..count {
        if !meets(map, to) {
            return false;
        }
    }
    true
}

/// Whether the map has an entry for each of so many nodes, and meets just so many tree nodes.
pub fn is_onto(map: &[u8], nodes: usize, count: usize) -> bool
    requires { count ≤ 24 }
    ensures { IsTrue result ↔ IsOnto map.now nodes count }
{
    if map.len() != nodes {
        return false;
    }
    let within = all_within(map, count);
    let met = meets_all(map, count as u8);
    within & met
}

/// The first node that is sent to a tree node that is met.
fn head(map: &[u8], to: u8) -> usize
    requires { IsAmong map.now to }
    ensures { IsFirstSent map.now to result }
{
    for (node, at) in map.iter().enumerate() {
        if *at == to {
            return node;
        }
    }
    0
}

/// The first node of each of so many tree nodes.
pub fn heads(map: &[u8], count: u8) -> [usize; 24]
    requires few { count ≤ 24 }
    requires met { (t : ℕ) → t < count → IsAmong map.now t }
    ensures { AreHeads map.now count result }
{
    let mut heads = [0; 24];
    for to in 0..count {
        heads[to as usize] = head(map, to);
    }
    heads
}

/// Whether a node may be in the set of a first node: it isn't, or it is that one, or it is white and
/// the first one black.
fn goes_with(nodes: &DescribedNodes, map: &[u8], to: u8, head: usize, node: usize) -> bool
    requires number { length map.now ≡ length nodes.now }
    requires head_within { head < length map.now }
    requires node_within { node < length map.now }
    ensures { IsTrue result ↔ GoesWith (nodes_of nodes.now) map.now to head node }
{
    if map[node] != to {
        return true;
    }
    if node == head {
        return true;
    }
    let black = nodes.get(head).colour == Colour::Black;
    let white = nodes.get(node).colour == Colour::White;
    black & white
}

/// Whether the colour rule holds of the nodes that are sent to a tree node, the first of which is
/// given.
fn is_lawful(d: &Description, map: &[u8], to: u8, head: usize) -> bool
    requires numbered { IsNumbered d.now }
    requires number { length map.now ≡ length d.now.nodes }
    requires first { IsFirstSent map.now to head }
    ensures { IsTrue result ↔ IsLawful (description_of d.now).nodes (sent_to map.now to) }
{
    blacks_first();
    if d.nodes.get(head).colour == Colour::White {
        return false;
    }
    for node in 0..map.len() {
        if !goes_with(&d.nodes, map, to, head, node) {
            return false;
        }
    }
    true
}

/// Whether the colour rule holds at so many tree nodes.
pub fn all_lawful(d: &Description, map: &[u8], count: u8, heads: &[usize; 24]) -> bool
    requires numbered { IsNumbered d.now }
    requires number { length map.now ≡ length d.now.nodes }
    requires few { count ≤ 24 }
    requires heads { AreHeads map.now count heads.now }
    ensures { IsTrue result
        ↔ ((t : ℕ) → t < count → IsLawful (description_of d.now).nodes (sent_to map.now t)) }
{
    for to in 0..count {
        if !is_lawful(d, map, to, heads[to as usize]) {
            return false;
        }
    }
    true
}
