//! The description of facts that don't clash.
ghost use Rattle.std.specs.Prelude.{◌≡◌, ◌*◌, ◌++◌, ◌<◌, ◌^◌, map, OnOk, IfOk, MatchOption, length};
ghost use Rattle.gr_base.specs.Lists.{Each, gathered};
ghost use Rattle.mg_facts.specs.Numbered.{IsBelow, all_said, relations_in, literals_in};
ghost use Rattle.mg_facts.specs.Classes.{InRange, node_at, relation_at};
ghost use Rattle.mg_facts.specs.Meanings.{Clashes, IsDescriptionOf};

use crate::classes::{
    colours_of, firsts, has_value_node, in_order, places, roots_of, shown, standing,
};
use crate::fact::{Fact, INTERFACE, bottom_slot, own_slot, top_slot};
use crate::stated::Stated;
use gr_base::{Items, Memory};
use gr_terms::{Assertion, Literal, Literals, Network};
use std::alloc::Global;
use td_desc::{Colour, DescribedNode, DescribedNodes, Description, Related, Relations};

/// `None` exactly where the facts clash, else their description.
pub fn describe(stated: &Stated, alloc: Global) -> Result<Option<Description>, Memory>
    requires { stated.now.used ≡ length stated.now.names }
    ensures { IfOk result (λ answer. MatchOption answer
        (Clashes (all_said stated.now.names stated.now.facts))
        (λ d. (Clashes (all_said stated.now.names stated.now.facts) → ⊥)
        × IsDescriptionOf (all_said stated.now.names stated.now.facts) d)) }
{
    let facts = stated.facts();
    let Some(network) = stated.network() else {
        return Ok(None);
    };
    let roots = roots_of(alloc, stated)?;
    let Some(colours) = colours_of(alloc, &roots, facts)? else {
        return Ok(None);
    };
    let standing = standing(alloc, facts)?;
    let firsts = firsts(alloc, &roots, &standing)?;
    if has_value_node(&roots, &firsts.stands, facts) {
        return Ok(None);
    }
    let nodes = in_order(alloc, &roots, &colours, &firsts.nodes)?;
    let places = places(alloc, &roots, &nodes)?;
    let vars = stated.variables();
    Ok(Some(Description {
        vars,
        slots: 3 * vars + 1,
        nodes: described(alloc, &roots, &colours, &nodes)?,
        relations: relations(alloc, &roots, &places, facts)?,
        network: copied(alloc, network)?,
        iface: INTERFACE,
        sem: literals(alloc, facts)?,
    }))
}

/// The nodes with their colours and slots.
fn described(
    alloc: Global,
    roots: &[u32],
    colours: &[Option<Colour>],
    nodes: &[u32],
) -> Result<DescribedNodes, Memory>
    requires below { Each (λ x. x < length roots.now) nodes.now }
    requires range { InRange roots.now }
    requires size { length colours.now ≡ length roots.now }
    requires small { 3 * length roots.now < 2 ^ 32 }
    ensures { IfOk result (λ list. list ≡ map (node_at roots.now colours.now) nodes.now) }
{
    let mut list = Vec::with_capacity(alloc, nodes.len())?;
    for x in nodes {
        list.push(node(roots, colours, *x))?;
    }
    Ok(Items::from_vec(list))
}

/// The node of a variable.
fn node(roots: &[u32], colours: &[Option<Colour>], x: u32) -> DescribedNode
    requires below { x < length roots.now }
    requires range { InRange roots.now }
    requires size { length colours.now ≡ length roots.now }
    requires small { 3 * length roots.now < 2 ^ 32 }
    ensures { result ≡ node_at roots.now colours.now x }
{
    DescribedNode {
        colour: shown(roots, colours, x),
        own: own_slot(x),
        top: top_slot(x),
        bot: bottom_slot(x),
    }
}

/// The relations between places of nodes.
fn relations(
    alloc: Global,
    roots: &[u32],
    places: &[u32],
    facts: &[Fact],
) -> Result<Relations, Memory>
    requires below { Each (IsBelow (length roots.now)) facts.now }
    requires range { InRange roots.now }
    requires size { length places.now ≡ length roots.now }
    ensures { IfOk result (λ list. list ≡ map (relation_at roots.now places.now) (gathered relations_in facts.now)) }
{
    let mut list = Items::new(alloc);
    for fact in facts {
        add_relation(&mut list, roots, places, fact)?;
    }
    Ok(list)
}

/// Appends the relation that the fact says, if any.
fn add_relation(
    list: &mut Relations,
    roots: &[u32],
    places: &[u32],
    fact: &Fact,
) -> Result<(), Memory>
    requires below { IsBelow (length roots.now) fact.now }
    requires range { InRange roots.now }
    requires size { length places.now ≡ length roots.now }
    ensures { OnOk result (list.new ≡ list.old ++ map (relation_at roots.now places.now) (relations_in fact.now)) }
{
    match fact {
        Fact::Related(x, how, y) => list.push(Related {
            from: places[roots[*x as usize] as usize],
            how: *how,
            to: places[roots[*y as usize] as usize],
        }),
        _ => Ok(()),
    }
}

/// The literals in order.
fn literals(alloc: Global, facts: &[Fact]) -> Result<Literals, Memory>
    ensures { IfOk result (λ list. list ≡ gathered literals_in facts.now) }
{
    let mut list = Items::new(alloc);
    for fact in facts {
        add_literal(alloc, &mut list, fact)?;
    }
    Ok(list)
}

/// Appends the literal that the fact says, if any.
fn add_literal(alloc: Global, list: &mut Literals, fact: &Fact) -> Result<(), Memory>
    ensures { OnOk result (list.new ≡ list.old ++ literals_in fact.now) }
{
    match fact {
        Fact::Says(literal) => list.push(Literal {
            handle: literal.handle,
            pred: literal.pred,
            args: Items::from_vec(literal.args.as_slice().to_vec(alloc)?),
        }),
        _ => Ok(()),
    }
}

/// The same assertions.
fn copied(alloc: Global, assertions: &[Assertion]) -> Result<Network, Memory>
    ensures { IfOk result (λ network. network ≡ assertions.now) }
{
    let mut network = Network::new(alloc);
    for assertion in assertions {
        network.push(*assertion)?;
    }
    Ok(network)
}
