//! For each node the relations that a search tests when it adds the node.
ghost use Rattle.std.specs.Prelude.{◌≡◌, filter, IfOk};
ghost use Rattle.td_solver.specs.Ties.{is_of, is_tight, is_tight_before, kept_for, ArePlaced, AreKidsTold, IsToldKid, IsToldParent, SaysKid, SaysParent};

use gr_base::{Items, Memory};
use std::alloc::Global;
use td_desc::{Dominance, Related, Relations};

/// Whether the node is the later one of the two.
fn is_of(related: Related, node: u8) -> bool
    ensures { result ≡ is_of node related }
{
    related.from.max(related.to) == u32::from(node)
}

/// Whether a tree node that comes between two others can break the relation.
fn is_tight(related: Related) -> bool
    ensures { result ≡ is_tight related }
{
    match related.how {
        Dominance::Parent | Dominance::Next => true,
        Dominance::Above | Dominance::AboveOrSame | Dominance::Left | Dominance::LeftOrSame =>
            false,
    }
}

/// Whether the relation is between nodes before this one, and a tree node that comes between them
/// can break it.
fn is_tight_before(related: Related, node: u8) -> bool
    ensures { result ≡ is_tight_before node related }
{
    let tight = is_tight(related);
    let before = related.from.max(related.to) < u32::from(node);
    tight & before
}

/// The relations whose later node it is.
fn ties(alloc: Global, relations: &[Related], node: u8) -> Result<Relations, Memory>
    ensures { IfOk result (λ ties. ties ≡ filter (is_of node) relations.now) }
{
    let mut ties = Items::new(alloc);
    for related in relations {
        if is_of(*related, node) {
            ties.push(*related)?;
        }
    }
    Ok(ties)
}

/// The relations between nodes before it that it can break.
fn tight(alloc: Global, relations: &[Related], node: u8) -> Result<Relations, Memory>
    ensures { IfOk result (λ tight. tight ≡ filter (is_tight_before node) relations.now) }
{
    let mut tight = Items::new(alloc);
    for related in relations {
        if is_tight_before(*related, node) {
            tight.push(*related)?;
        }
    }
    Ok(tight)
}

/// For each of the nodes the relations whose later node it is.
pub fn all_ties(alloc: Global, relations: &[Related], count: u8) -> Result<Items<Relations>, Memory>
    ensures { IfOk result (λ all. all ≡ kept_for is_of count relations.now) }
{
    let mut all = Items::new(alloc);
    for node in 0..count {
        let own = ties(alloc, relations, node)?;
        all.push(own)?;
    }
    Ok(all)
}

/// For each of the nodes the relations between earlier ones that it can break.
pub fn all_tight(
    alloc: Global,
    relations: &[Related],
    count: u8,
) -> Result<Items<Relations>, Memory>
    ensures { IfOk result (λ all. all ≡ kept_for is_tight_before count relations.now) }
{
    let mut all = Items::new(alloc);
    for node in 0..count {
        let own = tight(alloc, relations, node)?;
        all.push(own)?;
    }
    Ok(all)
}

/// The node that the relation says to be the parent of the other.
fn parent_in(related: Related, kid: u8) -> Option<u8>
    ensures { SaysParent related kid result }
{
    match related.how {
        Dominance::Parent => {
            if related.to == u32::from(kid) && related.from < 24 {
                Some(related.from as u8)
            } else {
                None
            }
        }
        Dominance::Above => None,
        Dominance::AboveOrSame => None,
        Dominance::Next => None,
        Dominance::Left => None,
        Dominance::LeftOrSame => None,
    }
}

/// The first node that a relation says to be the parent of a node.
fn parent_of(relations: &[Related], kid: u8) -> Option<u8>
    ensures { IsToldParent relations.now kid result }
{
    for related in relations {
        if let Some(parent) = parent_in(*related, kid) {
            return Some(parent);
        }
    }
    None
}

/// For each of the nodes the first one that a relation says to be its parent.
pub fn all_parents(
    alloc: Global,
    relations: &[Related],
    count: u8,
) -> Result<Items<Option<u8>>, Memory>
    ensures { IfOk result (ArePlaced relations.now count) }
{
    let mut all = Items::new(alloc);
    for kid in 0..count {
        all.push(parent_of(relations, kid))?;
    }
    Ok(all)
}

/// The node below another one that the relation says to be its child.
fn kid_in(related: Related, node: u8) -> Option<u8>
    ensures { SaysKid related node result }
{
    match related.how {
        Dominance::Parent => {
            if related.from == u32::from(node) && related.to < u32::from(node) {
                Some(related.to as u8)
            } else {
                None
            }
        }
        Dominance::Above => None,
        Dominance::AboveOrSame => None,
        Dominance::Next => None,
        Dominance::Left => None,
        Dominance::LeftOrSame => None,
    }
}

/// The first node below another one that a relation says to be its child.
fn kid_of(relations: &[Related], node: u8) -> Option<u8>
    ensures { IsToldKid relations.now node result }
{
    for related in relations {
        if let Some(kid) = kid_in(*related, node) {
            return Some(kid);
        }
    }
    None
}

/// For each of the nodes the first one below it that a relation says to be its child.
pub fn all_kids(
    alloc: Global,
    relations: &[Related],
    count: u8,
) -> Result<Items<Option<u8>>, Memory>
    ensures { IfOk result (AreKidsTold relations.now count) }
{
    let mut all = Items::new(alloc);
    for node in 0..count {
        all.push(kid_of(relations, node))?;
    }
    Ok(all)
}
