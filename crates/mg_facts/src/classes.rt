//! Classes of variables that are one: their colours, and the nodes in order.
ghost use Rattle.std.specs.Prelude.{◌≡◌, ◌↔◌, ◌++◌, ◌<◌, ℕ, List, Option, [], ◌∷◌, true, false, get_or, slice_set, IsTrue, OnOk, IfOk, MatchOption, length};
ghost use Rattle.std.specs.Bool.{OnTrue, OnFalse};
ghost use Rattle.gr_base.specs.Lists.{Each, gathered};
ghost use Rattle.td_desc.specs.Conditions.{IsTermBelow, SaysOf};
ghost use Rattle.mg_facts.specs.Numbered.{IsBelow, stand_in, colours_in, variable_in, terms_in, values_in};
ghost use Rattle.mg_facts.specs.Classes.{AreRoots, InRange, HasTwoColours, AreColours, IsPainted, IsOther, AreMarked, AreFirstOnes, HasMarked, IsShownPart, InOrder, ArePlaces, root, shown};

use crate::fact::Fact;
use crate::stated::Stated;
use gr_base::Memory;
use gr_terms::{Literal, Term};
use std::alloc::Global;
use td_desc::Colour;

/// The root of each variable.
pub fn roots_of(alloc: Global, stated: &Stated) -> Result<Vec<u32>, Memory>
    ensures { IfOk result (λ roots. AreRoots stated.now.facts (length stated.now.names) roots.items) }
{
    let count = stated.variables();
    let mut roots = Vec::with_capacity(alloc, count as usize)?;
    for x in 0..count {
        roots.push(stated.root(x))?;
    }
    Ok(roots)
}

/// The colour of each root, or none where a root has two.
pub fn colours_of(
    alloc: Global,
    roots: &[u32],
    facts: &[Fact],
) -> Result<Option<Vec<Option<Colour>>>, Memory>
    requires below { Each (IsBelow (length roots.now)) facts.now }
    requires range { InRange roots.now }
    ensures { IfOk result (λ answer. MatchOption answer
        (HasTwoColours roots.now (gathered colours_in facts.now))
        (λ table. AreColours roots.now (gathered colours_in facts.now) table.items)) }
{
    let mut table: Vec<Option<Colour>> = vec![in alloc; None; roots.len()]?;
    for fact in facts {
        if !paint(&mut table, roots, fact) {
            return Ok(None);
        }
    }
    Ok(Some(table))
}

/// Gives the colour that the fact says, if any, to its root, where the root has no other one.
fn paint(table: &mut Vec<Option<Colour>>, roots: &[u32], fact: &Fact) -> bool
    requires below { IsBelow (length roots.now) fact.now }
    requires range { InRange roots.now }
    requires size { length table.old.items ≡ length roots.now }
    ensures painted { OnTrue result (IsPainted roots.now (colours_in fact.now) table.old.items table.new.items) }
    ensures other { OnFalse result (IsOther roots.now (colours_in fact.now) table.old.items) }
{
    match fact {
        Fact::Coloured(x, c) => {
            let root = roots[*x as usize] as usize;
            if table[root].is_some_and(|d| d != *c) {
                return false;
            }
            table[root] = Some(*c);
            true
        }
        _ => true,
    }
}

/// The variables that stand as node variables.
pub fn standing(alloc: Global, facts: &[Fact]) -> Result<Vec<u32>, Memory>
    ensures { IfOk result (λ xs. xs.items ≡ gathered stand_in facts.now) }
{
    let mut standing = Vec::new(alloc);
    for fact in facts {
        add_standing(&mut standing, fact)?;
    }
    Ok(standing)
}

/// Appends the variables that stand as node variables in the fact.
fn add_standing(standing: &mut Vec<u32>, fact: &Fact) -> Result<(), Memory>
    ensures { OnOk result (standing.new.items ≡ standing.old.items ++ stand_in fact.now) }
{
    match fact {
        Fact::Block(x) => standing.push(*x)?,
        Fact::Related(x, _, y) => standing.extend_from_slice(&[*x, *y])?,
        Fact::OneNode(x, y) => standing.extend_from_slice(&[*x, *y])?,
        _ => {}
    }
    Ok(())
}

/// The first variable of each node, and which roots are those of nodes.
#[derive(Drop)]
pub struct FirstOnes {
    pub nodes: Vec<u32>,
    pub stands: Vec<bool>,
}

/// The first variable of each class, in order.
pub fn firsts(alloc: Global, roots: &[u32], standing: &[u32]) -> Result<FirstOnes, Memory>
    requires below { Each (λ x. x < length roots.now) standing.now }
    requires range { InRange roots.now }
    ensures nodes { IfOk result (λ f. AreFirstOnes roots.now [] standing.now f.nodes.items) }
    ensures stands { IfOk result (λ f. AreMarked roots.now standing.now f.stands.items) }
{
    let stands = vec![in alloc; false; roots.len()]?;
    let mut found = FirstOnes {
        nodes: Vec::new(alloc),
        stands,
    };
    for x in standing {
        meet(&mut found, roots, *x)?;
    }
    Ok(found)
}

/// Takes up a variable that is the first of its class.
fn meet(found: &mut FirstOnes, roots: &[u32], x: u32) -> Result<(), Memory>
    requires below { x < length roots.now }
    requires range { InRange roots.now }
    requires size { length found.old.stands.items ≡ length roots.now }
    ensures again { OnOk result (get_or found.old.stands.items (root roots.now x) false ≡ true
        → (found.new.nodes.items ≡ found.old.nodes.items) × (found.new.stands.items ≡ found.old.stands.items)) }
    ensures first { OnOk result (get_or found.old.stands.items (root roots.now x) false ≡ false
        → (found.new.nodes.items ≡ found.old.nodes.items ++ x ∷ [])
        × (found.new.stands.items ≡ slice_set found.old.stands.items (root roots.now x) true)) }
{
    let root = roots[x as usize] as usize;
    if !found.stands[root] {
        found.stands[root] = true;
        found.nodes.push(x)?;
    }
    Ok(())
}

/// Whether a variable of a marked root stands as a value.
pub fn has_value_node(roots: &[u32], stands: &[bool], facts: &[Fact]) -> bool
    requires below { Each (IsBelow (length roots.now)) facts.now }
    requires range { InRange roots.now }
    requires size { length stands.now ≡ length roots.now }
    ensures { IsTrue result ↔ HasMarked roots.now stands.now (gathered values_in facts.now) }
{
    for fact in facts {
        if is_value_node(roots, stands, fact) {
            return true;
        }
    }
    false
}

/// Whether a variable of a marked root stands as a value in the fact.
fn is_value_node(roots: &[u32], stands: &[bool], fact: &Fact) -> bool
    requires below { IsBelow (length roots.now) fact.now }
    requires range { InRange roots.now }
    requires size { length stands.now ≡ length roots.now }
    ensures { IsTrue result ↔ HasMarked roots.now stands.now (values_in fact.now) }
{
    match fact {
        Fact::IsName(x, _) => stands[roots[*x as usize] as usize],
        Fact::Paired(_, _, value) => is_node(roots, stands, *value),
        Fact::Says(literal) => says_node(roots, stands, literal),
        _ => false,
    }
}

/// Whether the literal has a variable of a marked root.
fn says_node(roots: &[u32], stands: &[bool], literal: &Literal) -> bool
    requires below { SaysOf (length roots.now) literal.now }
    requires range { InRange roots.now }
    requires size { length stands.now ≡ length roots.now }
    ensures { IsTrue result ↔ HasMarked roots.now stands.now (gathered variable_in (terms_in literal.now)) }
{
    is_node(roots, stands, literal.handle)
        || is_node(roots, stands, literal.pred)
        || has_node(roots, stands, literal.args.as_slice())
}

/// Whether one of the terms is a variable of a marked root.
fn has_node(roots: &[u32], stands: &[bool], terms: &[Term]) -> bool
    requires below { Each (IsTermBelow (length roots.now)) terms.now }
    requires range { InRange roots.now }
    requires size { length stands.now ≡ length roots.now }
    ensures { IsTrue result ↔ HasMarked roots.now stands.now (gathered variable_in terms.now) }
{
    for term in terms {
        if is_node(roots, stands, *term) {
            return true;
        }
    }
    false
}

/// Whether the term is a variable of a marked root.
fn is_node(roots: &[u32], stands: &[bool], term: Term) -> bool
    requires below { IsTermBelow (length roots.now) term }
    requires range { InRange roots.now }
    requires size { length stands.now ≡ length roots.now }
    ensures { IsTrue result ↔ HasMarked roots.now stands.now (variable_in term) }
{
    match term {
        Term::Const(_) => false,
        Term::Var(x) => stands[roots[x as usize] as usize],
    }
}

/// The nodes: of the first variables the black ones, the white ones and the red ones.
pub fn in_order(
    alloc: Global,
    roots: &[u32],
    colours: &[Option<Colour>],
    firsts: &[u32],
) -> Result<Vec<u32>, Memory>
    requires below { Each (λ x. x < length roots.now) firsts.now }
    requires range { InRange roots.now }
    requires size { length colours.now ≡ length roots.now }
    ensures { IfOk result (λ nodes. InOrder roots.now colours.now firsts.now nodes.items) }
{
    let mut nodes = Vec::with_capacity(alloc, firsts.len())?;
    take_shown(&mut nodes, roots, colours, firsts, Colour::Black)?;
    take_shown(&mut nodes, roots, colours, firsts, Colour::White)?;
    take_shown(&mut nodes, roots, colours, firsts, Colour::Red)?;
    Ok(nodes)
}

/// Takes up those of the variables that show the colour.
fn take_shown(
    nodes: &mut Vec<u32>,
    roots: &[u32],
    colours: &[Option<Colour>],
    firsts: &[u32],
    colour: Colour,
) -> Result<(), Memory>
    requires below { Each (λ x. x < length roots.now) firsts.now }
    requires range { InRange roots.now }
    requires size { length colours.now ≡ length roots.now }
    ensures { OnOk result ((part : List ℕ) × (nodes.new.items ≡ nodes.old.items ++ part)
        × IsShownPart roots.now colours.now colour firsts.now part) }
{
    for x in firsts {
        take_if_shown(nodes, roots, colours, *x, colour)?;
    }
    Ok(())
}

/// Takes up the variable if it shows the colour.
fn take_if_shown(
    nodes: &mut Vec<u32>,
    roots: &[u32],
    colours: &[Option<Colour>],
    x: u32,
    colour: Colour,
) -> Result<(), Memory>
    requires below { x < length roots.now }
    requires range { InRange roots.now }
    requires size { length colours.now ≡ length roots.now }
    ensures taken { OnOk result (shown roots.now colours.now x ≡ colour → nodes.new.items ≡ nodes.old.items ++ x ∷ []) }
    ensures left { OnOk result ((shown roots.now colours.now x ≡ colour → ⊥) → nodes.new.items ≡ nodes.old.items) }
{
    if shown(roots, colours, x) == colour {
        nodes.push(x)?;
    }
    Ok(())
}

/// The colour of a variable's node, which is red where none is given.
pub fn shown(roots: &[u32], colours: &[Option<Colour>], x: u32) -> Colour
    requires below { x < length roots.now }
    requires range { InRange roots.now }
    requires size { length colours.now ≡ length roots.now }
    ensures { result ≡ shown roots.now colours.now x }
{
    match colours[roots[x as usize] as usize] {
        Some(c) => c,
        None => Colour::Red,
    }
}

/// A place of each node's root among the nodes.
pub fn places(alloc: Global, roots: &[u32], nodes: &[u32]) -> Result<Vec<u32>, Memory>
    requires below { Each (λ x. x < length roots.now) nodes.now }
    requires range { InRange roots.now }
    ensures { IfOk result (λ table. ArePlaces roots.now nodes.now table.items) }
{
    let mut places = vec![in alloc; 0u32; roots.len()]?;
    let mut place: u32 = 0;
    for x in nodes {
        places[roots[*x as usize] as usize] = place;
        let Some(next) = place.checked_add(1) else {
            return Err(Memory);
        };
        place = next;
    }
    Ok(places)
}
