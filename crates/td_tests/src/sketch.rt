//! Descriptions from short texts.
ghost use Rattle.std.specs.Prelude.{◌≡◌, ◌≤◌, ◌<◌, [], length, IfOk, OnOk};
ghost use Rattle.gr_base.specs.Lists.{Each};
ghost use Rattle.td_canon.specs.CanonicalTexts.{IsNamedTerm, IsNamedLiteral};
ghost use Rattle.td_desc.specs.Conditions.{AreSlotsBelow, ArePlacesBelow, InSearchOrder, IsNumbered, IsTermBelow, Mentions, SaysOf};
ghost use Rattle.td_model.specs.ModelTrees.{IsNamedAssertion, IsNamedDescription};
ghost use Rattle.td_tests.specs.Sketches.{AddsNodes};

use gr_base::{Items, Memory};
use gr_symbols::Symbols;
use gr_terms::{Assertion, Literal, Literals, Network, SlotId, Sym, Term, Terms};
use std::alloc::Global;
use td_desc::{Colour, DescribedNode, DescribedNodes, Description, Dominance, Related, Relations};

/// A description in short. Each text but the first has spaces between its words.
#[derive(Clone, Copy)]
pub struct Sketch<'a> {
    /// A letter for each node, `b`, `w` or `r`, in search order.
    pub nodes: &'a str,
    /// Such as `0->*1`: two nodes, and between them the relation.
    pub relations: &'a str,
    /// Entries such as `o0.cat=?1`, equations such as `?0=foot` and links such as `t0~b1`. The slots
    /// of node 0 are `o0`, `t0` and `b0`, and the interface is `i`.
    pub network: &'a str,
    /// Literals such as `?0,mark,?1,foot`, with the handle first and then the predicate.
    pub literals: &'a str,
}

/// The relations by their spellings, where no front of one stands before it.
const RELATIONS: [(&str, Dominance); 6] = [
    ("->+", Dominance::Above),
    ("->*", Dominance::AboveOrSame),
    ("->", Dominance::Parent),
    (">>+", Dominance::Left),
    (">>*", Dominance::LeftOrSame),
    (">>", Dominance::Next),
];

/// A node with three slots of its own.
fn node(number: u32, colour: Colour) -> DescribedNode
    requires { number < 24 }
    ensures slots { AreSlotsBelow 73 result }
    ensures colour { result.colour ≡ colour }
{
    DescribedNode {
        colour,
        own: SlotId(3 * number),
        top: SlotId(3 * number + 1),
        bot: SlotId(3 * number + 2),
    }
}

/// Appends a node for each time that the letter stands in the text.
fn add_nodes(
    nodes: &mut DescribedNodes,
    text: &str,
    letter: u8,
    colour: Colour,
) -> Result<(), Memory>
    requires { length nodes.old ≤ 24 }
    ensures { OnOk result (AddsNodes colour nodes.old nodes.new) }
{
    for one in text.bytes() {
        if one == letter {
            let number = nodes.len();
            if number >= 24 {
                return Err(Memory);
            }
            nodes.push(node(number as u32, colour))?;
        }
    }
    Ok(())
}

/// The nodes of these letters.
fn nodes(alloc: Global, text: &str) -> Result<DescribedNodes, Memory>
    ensures few { IfOk result (λ all. length all ≤ 24) }
    ensures order { IfOk result InSearchOrder }
    ensures slots { IfOk result (λ all. Each (AreSlotsBelow 73) all) }
{
    let mut nodes = Items::new(alloc);
    add_nodes(&mut nodes, text, b'b', Colour::Black)?;
    add_nodes(&mut nodes, text, b'w', Colour::White)?;
    add_nodes(&mut nodes, text, b'r', Colour::Red)?;
    Ok(nodes)
}

/// The relation of a word.
fn relation(word: &str, count: u32) -> Result<Related, Memory>
    ensures { IfOk result (ArePlacesBelow count) }
{
    for (spelling, how) in RELATIONS {
        if let Some((from, to)) = word.split_once(spelling) {
            let (Ok(from), Ok(to)) = (from.parse::<u32>(), to.parse::<u32>()) else {
                return Err(Memory);
            };
            if from >= count || to >= count {
                return Err(Memory);
            }
            return Ok(Related { from, how, to });
        }
    }
    Err(Memory)
}

/// The relations of the words.
fn relations(alloc: Global, text: &str, count: u32) -> Result<Relations, Memory>
    ensures { IfOk result (λ all. Each (ArePlacesBelow count) all) }
{
    let mut all = Items::new(alloc);
    for word in text.split_ascii_whitespace() {
        all.push(relation(word, count)?)?;
    }
    Ok(all)
}

/// The number of a digit.
fn digit(byte: u8) -> Result<u32, Memory>
    ensures { IfOk result (λ n. n < 10) }
{
    if byte < b'0' || byte > b'9' {
        return Err(Memory);
    }
    Ok((byte - b'0') as u32)
}

/// The slot of a word.
fn slot(word: &str) -> Result<SlotId, Memory>
    ensures { IfOk result (λ s. s.0 < 73) }
{
    match word.as_bytes() {
        [b'i'] => Ok(SlotId(72)),
        [b'o', number] => Ok(SlotId(3 * digit(*number)?)),
        [b't', number] => Ok(SlotId(3 * digit(*number)? + 1)),
        [b'b', number] => Ok(SlotId(3 * digit(*number)? + 2)),
        _ => Err(Memory),
    }
}

/// The name of a word.
fn name(word: &str, symbols: &Symbols) -> Result<Sym, Memory>
    ensures { IfOk result (λ n. n.0 < length symbols.now) }
{
    match symbols.find(word) {
        Some(name) => Ok(name),
        None => Err(Memory),
    }
}

/// The name or the variable of a word.
fn term(word: &str, symbols: &Symbols) -> Result<Term, Memory>
    ensures below { IfOk result (IsTermBelow 10) }
    ensures named { IfOk result (IsNamedTerm (length symbols.now)) }
{
    match word.as_bytes() {
        [b'?', number] => Ok(Term::Var(digit(*number)?)),
        _ => Ok(Term::Const(name(word, symbols)?)),
    }
}

/// The assertion of a word.
fn assertion(word: &str, symbols: &Symbols) -> Result<Assertion, Memory>
    ensures below { IfOk result (Mentions 10 73) }
    ensures named { IfOk result (IsNamedAssertion (length symbols.now)) }
{
    if let Some((one, other)) = word.split_once("~") {
        return Ok(Assertion::Link(slot(one)?, slot(other)?));
    }
    let Some((left, right)) = word.split_once("=") else {
        return Err(Memory);
    };
    let value = term(right, symbols)?;
    match left.split_once(".") {
        Some((place, attribute)) => Ok(Assertion::Entry(
            slot(place)?,
            name(attribute, symbols)?,
            value,
        )),
        None => Ok(Assertion::Equate(term(left, symbols)?, value)),
    }
}

/// The network of the words.
fn network(alloc: Global, text: &str, symbols: &Symbols) -> Result<Network, Memory>
    ensures below { IfOk result (λ all. Each (Mentions 10 73) all) }
    ensures named { IfOk result (λ all. Each (IsNamedAssertion (length symbols.now)) all) }
{
    let mut all = Network::new(alloc);
    for word in text.split_ascii_whitespace() {
        all.push(assertion(word, symbols)?)?;
    }
    Ok(all)
}

/// The terms of the words that a text has between commas.
fn terms(alloc: Global, text: &str, symbols: &Symbols) -> Result<Terms, Memory>
    ensures below { IfOk result (λ all. Each (IsTermBelow 10) all) }
    ensures named { IfOk result (λ all. Each (IsNamedTerm (length symbols.now)) all) }
{
    let mut all = Items::new(alloc);
    for word in text.split(',') {
        all.push(term(word, symbols)?)?;
    }
    Ok(all)
}

/// The literal of a word.
fn literal(alloc: Global, word: &str, symbols: &Symbols) -> Result<Literal, Memory>
    ensures below { IfOk result (SaysOf 10) }
    ensures named { IfOk result (IsNamedLiteral (length symbols.now)) }
{
    let Some((handle, others)) = word.split_once(",") else {
        return Err(Memory);
    };
    let handle = term(handle, symbols)?;
    match others.split_once(",") {
        Some((pred, args)) => Ok(Literal {
            handle,
            pred: term(pred, symbols)?,
            args: terms(alloc, args, symbols)?,
        }),
        None => Ok(Literal {
            handle,
            pred: term(others, symbols)?,
            args: Items::new(alloc),
        }),
    }
}

/// The literals of the words.
fn literals(alloc: Global, text: &str, symbols: &Symbols) -> Result<Literals, Memory>
    ensures below { IfOk result (λ all. Each (SaysOf 10) all) }
    ensures named { IfOk result (λ all. Each (IsNamedLiteral (length symbols.now)) all) }
{
    let mut all = Items::new(alloc);
    for word in text.split_ascii_whitespace() {
        all.push(literal(alloc, word, symbols)?)?;
    }
    Ok(all)
}

/// The description of a sketch.
pub fn describe(alloc: Global, sketch: Sketch<'_>, symbols: &Symbols) -> Result<Description, Memory>
    ensures few { IfOk result (λ d. length d.nodes ≤ 24) }
    ensures numbered { IfOk result IsNumbered }
    ensures named { IfOk result (IsNamedDescription (length symbols.now)) }
{
    let nodes = nodes(alloc, sketch.nodes)?;
    let count = nodes.len() as u32;
    Ok(Description {
        vars: 10,
        slots: 73,
        nodes,
        relations: relations(alloc, sketch.relations, count)?,
        network: network(alloc, sketch.network, symbols)?,
        iface: SlotId(72),
        sem: literals(alloc, sketch.literals, symbols)?,
    })
}
