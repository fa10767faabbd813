//! Which relations hold in a forest.
ghost use Rattle.std.specs.Prelude.{◌≡◌, ◌+◌, ◌<◌, ◌≤◌, ◌↔◌, ◌⊎◌, IsTrue};
ghost use Rattle.gr_base.specs.Lists.{Each};
ghost use Rattle.td_forest.specs.Nodes.{IsIn, IsForestOf, Relates};
ghost use Rattle.td_forest.specs.Steps.{forest_of};
ghost use Rattle.td_forest.specs.Without.{without};
ghost use Rattle.td_colour.specs.Relations.{Holds};
ghost use Rattle.td_colour.specs.Models.{AllHold};
ghost use Rattle.td_solver.specs.Tasks.{IsTask};
ghost use Rattle.td_solver.specs.Ties.{HoldsOf, IsBelow, NoneSo};

use crate::task::Task;
use td_desc::{Dominance, Related};
use td_forest::{Forest, Relation};

/// Whether no node stands so between two nodes.
fn none_between(forest: &Forest, nodes: u8, a: u8, b: u8, how: Relation) -> bool
    requires forest { IsForestOf nodes (forest_of forest.now) }
    requires a_low { a < nodes }
    requires b_low { b < nodes }
    ensures { IsTrue result ↔ NoneSo (forest_of forest.now) nodes a b how }
{
    for z in 0..nodes {
        if forest.relates(a, z, how) && forest.relates(z, b, how) {
            return false;
        }
    }
    true
}

/// Whether two nodes stand so to each other, and no node so between them.
fn directly(forest: &Forest, nodes: u8, a: u8, b: u8, how: Relation) -> bool
    requires forest { IsForestOf nodes (forest_of forest.now) }
    requires a_low { a < nodes }
    requires b_low { b < nodes }
    ensures { IsTrue result ↔ (Relates (forest_of forest.now) a b how × NoneSo (forest_of forest.now) nodes a b how) }
{
    forest.relates(a, b, how) && none_between(forest, nodes, a, b, how)
}

/// Whether two nodes stand so to each other, or are at one tree node.
fn or_same(forest: &Forest, a: u8, b: u8, how: Relation) -> bool
    requires a_here { IsIn (forest_of forest.now) a }
    requires b_here { IsIn (forest_of forest.now) b }
    ensures { IsTrue result ↔ (Relates (forest_of forest.now) a b how ⊎ Relates (forest_of forest.now) a b Relation.Same) }
{
    forest.relates(a, b, how) || forest.relates(a, b, Relation::Same)
}

/// Whether a relation between two nodes holds.
fn holds(forest: &Forest, nodes: u8, related: Related) -> bool
    requires forest { IsForestOf nodes (forest_of forest.now) }
    requires below { IsBelow nodes related }
    ensures { IsTrue result ↔ HoldsOf (forest_of forest.now) related }
{
    let (a, b) = (related.from as u8, related.to as u8);
    match related.how {
        Dominance::Parent => directly(forest, nodes, a, b, Relation::Over),
        Dominance::Above => forest.relates(a, b, Relation::Over),
        Dominance::AboveOrSame => or_same(forest, a, b, Relation::Over),
        Dominance::Next => directly(forest, nodes, a, b, Relation::Left),
        Dominance::Left => forest.relates(a, b, Relation::Left),
        Dominance::LeftOrSame => or_same(forest, a, b, Relation::Left),
    }
}

/// Whether a node stands so between two others.
fn stands_between(forest: &Forest, node: u8, a: u8, b: u8, how: Relation) -> bool
    requires node_here { IsIn (forest_of forest.now) node }
    requires a_here { IsIn (forest_of forest.now) a }
    requires b_here { IsIn (forest_of forest.now) b }
    ensures { IsTrue result ↔ (Relates (forest_of forest.now) a node how × Relates (forest_of forest.now) node b how) }
{
    forest.relates(a, node, how) && forest.relates(node, b, how)
}

/// Whether a relation between earlier nodes, which held without the newest node, holds with it.
fn still_holds(forest: &Forest, node: u8, related: Related) -> bool
    requires few { node < 24 }
    requires forest { IsForestOf (node + 1) (forest_of forest.now) }
    requires below { IsBelow node related }
    requires before { HoldsOf (without node (forest_of forest.now)) related }
    ensures { IsTrue result ↔ HoldsOf (forest_of forest.now) related }
{
    let (a, b) = (related.from as u8, related.to as u8);
    match related.how {
        Dominance::Parent => !stands_between(forest, node, a, b, Relation::Over),
        Dominance::Above => true,
        Dominance::AboveOrSame => true,
        Dominance::Next => !stands_between(forest, node, a, b, Relation::Left),
        Dominance::Left => true,
        Dominance::LeftOrSame => true,
    }
}

/// Whether each of the relations holds.
fn each_holds(forest: &Forest, nodes: u8, relations: &[Related]) -> bool
    requires forest { IsForestOf nodes (forest_of forest.now) }
    requires below { Each (IsBelow nodes) relations.now }
    ensures { IsTrue result ↔ Each (HoldsOf (forest_of forest.now)) relations.now }
{
    for related in relations {
        if !holds(forest, nodes, *related) {
            return false;
        }
    }
    true
}

/// Whether each of the relations between earlier nodes, which held without the newest node, holds
/// with it.
fn each_still_holds(forest: &Forest, node: u8, relations: &[Related]) -> bool
    requires few { node < 24 }
    requires forest { IsForestOf (node + 1) (forest_of forest.now) }
    requires below { Each (IsBelow node) relations.now }
    requires before { Each (HoldsOf (without node (forest_of forest.now))) relations.now }
    ensures { IsTrue result ↔ Each (HoldsOf (forest_of forest.now)) relations.now }
{
    for related in relations {
        if !still_holds(forest, node, *related) {
            return false;
        }
    }
    true
}

/// Whether each relation between two of the nodes holds, where those between earlier nodes held
/// without the newest one.
pub fn all_hold(task: &Task, forest: &Forest, node: u8) -> bool
    requires task { IsTask task.now }
    requires node { node < task.now.count }
    requires forest { IsForestOf (node + 1) (forest_of forest.now) }
    requires before { AllHold task.now.d.now.relations node (without node (forest_of forest.now)) }
    ensures { IsTrue result ↔ AllHold task.now.d.now.relations (node + 1) (forest_of forest.now) }
{
    each_holds(forest, node + 1, task.ties(node))
        && each_still_holds(forest, node, task.tight_before(node))
}
