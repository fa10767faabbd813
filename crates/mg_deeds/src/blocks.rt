//! What node blocks, relations and bags say.
ghost use Rattle.std.specs.Prelude.{◌≡◌, ◌+◌, ◌^◌, ◌<◌, ◌∷◌, [], ◌++◌, Option, OnOk, OnErr, IfOk};
ghost use Rattle.mg_facts.specs.Said.{slot_of};
ghost use Rattle.mg_deeds.specs.Blocks.{block_of, head_of, forest_of};
ghost use Rattle.mg_deeds.specs.Fronts.{AddsFront};
ghost use Rattle.mg_deeds.specs.Weights.{total, head_weight, kids_weight, block_weight, syntax_weight};
ghost use Rattle.mg_deeds.specs.Sayings.{relation_said, colour_said, bag_said, head_said, kids_said, block_said, syntax_said, said_from};
ghost use Rattle.mg_deeds.specs.Kids.{kid_weight, kid_place, link_said, kid_said};

use crate::terms::{named, node, value};
use mg_facts::{Facts, Memory, Place, Variable};
use mg_syntax::{Bag, Kid, NodeBlock, Paint, Relate, SynItem};
use td_desc::{Colour, Dominance};

/// The items of a `<syn>` block, in order.
pub fn say_items(facts: &mut Facts, here: u32, first: u32, items: &[SynItem]) -> Result<(), Memory>
    requires { first + total syntax_weight items.now < 2 ^ 32 }
    ensures ok { OnOk result (facts.new ≡ facts.old ++ said_from syntax_weight (syntax_said here) first items.now) }
    ensures err { OnErr result (AddsFront facts.old facts.new (said_from syntax_weight (syntax_said here) first items.now)) }
{
    let mut at = first;
    for item in items {
        at = say_item(facts, here, at, item)?;
    }
    Ok(())
}

// The functions below answer the place behind the items.

fn say_item(facts: &mut Facts, here: u32, at: u32, item: &SynItem) -> Result<u32, Memory>
    requires { at + syntax_weight item.now < 2 ^ 32 }
    ensures next { IfOk result (λ next. next ≡ at + syntax_weight item.now) }
    ensures ok { OnOk result (facts.new ≡ facts.old ++ syntax_said here at item.now) }
    ensures err { OnErr result (AddsFront facts.old facts.new (syntax_said here at item.now)) }
{
    match item {
        SynItem::Node(block) => say_block(facts, here, at, block),
        SynItem::Relation(left, how, right) => {
            say_relation(facts, named(here, left), *how, named(here, right))?;
            Ok(at + 1)
        }
    }
}

fn say_block(facts: &mut Facts, here: u32, at: u32, block: &NodeBlock) -> Result<u32, Memory>
    requires { at + block_weight (block_of block.now) < 2 ^ 32 }
    ensures next { IfOk result (λ next. next ≡ at + block_weight (block_of block.now)) }
    ensures ok { OnOk result (facts.new ≡ facts.old ++ block_said here at (block_of block.now)) }
    ensures err { OnErr result (AddsFront facts.old facts.new (block_said here at (block_of block.now))) }
{
    let variable = node(here, at, &block.name);
    let inside = say_head(facts, here, variable, at, block)?;
    say_kids(facts, here, variable, inside, block.kids.as_slice())
}

fn say_head(
    facts: &mut Facts,
    here: u32,
    variable: Variable,
    at: u32,
    block: &NodeBlock,
) -> Result<u32, Memory>
    requires { at + head_weight (head_of block.now) < 2 ^ 32 }
    ensures next { IfOk result (λ next. next ≡ at + head_weight (head_of block.now)) }
    ensures ok { OnOk result (facts.new ≡ facts.old ++ head_said here variable (head_of block.now)) }
    ensures err { OnErr result (AddsFront facts.old facts.new (head_said here variable (head_of block.now))) }
{
    facts.state_block(variable)?;
    say_colour(facts, variable, block.colour)?;
    say_bag(facts, here, Place::Own(variable), &block.own)?;
    say_bag(facts, here, Place::Top(variable), &block.top)?;
    say_bag(facts, here, Place::Bottom(variable), &block.bot)?;
    Ok(at + head_count(block))
}

fn head_count(block: &NodeBlock) -> u32
    requires { head_weight (head_of block.now) < 2 ^ 32 }
    ensures { result ≡ head_weight (head_of block.now) }
{
    let colours = if block.colour.is_some() { 1 } else { 0 };
    let pairs = block.own.len() + block.top.len() + block.bot.len();
    1 + colours + pairs as u32
}

fn say_colour(facts: &mut Facts, variable: Variable, colour: Option<Paint>) -> Result<(), Memory>
    ensures ok { OnOk result (facts.new ≡ facts.old ++ colour_said variable colour) }
    ensures err { OnErr result (facts.new ≡ facts.old) }
{
    match colour {
        None => Ok(()),
        Some(Paint::Black) => facts.state_colour(variable, Colour::Black),
        Some(Paint::White) => facts.state_colour(variable, Colour::White),
        Some(Paint::Red) => facts.state_colour(variable, Colour::Red),
    }
}

#[cycle(kids)]
fn say_kids(
    facts: &mut Facts,
    here: u32,
    parent: Variable,
    at: u32,
    kids: &[Kid],
) -> Result<u32, Memory>
    requires { at + kids_weight (forest_of kids.now) < 2 ^ 32 }
    ensures next { IfOk result (λ next. next ≡ at + kids_weight (forest_of kids.now)) }
    ensures ok { OnOk result (facts.new ≡ facts.old ++ kids_said here parent at (forest_of kids.now)) }
    ensures err { OnErr result (AddsFront facts.old facts.new (kids_said here parent at (forest_of kids.now))) }
{
    let mut next = at;
    let mut sister = None;
    for kid in kids {
        let place = say_link(facts, here, sister, next, kid)?;
        sister = Some(node(here, place, &kid.node.name));
        next = say_kid(facts, here, parent, place, kid)?;
    }
    Ok(next)
}

#[cycle(kids)]
fn say_kid(
    facts: &mut Facts,
    here: u32,
    parent: Variable,
    at: u32,
    kid: &Kid,
) -> Result<u32, Memory>
    requires { at + kid_weight kid.now < 2 ^ 32 }
    ensures next { IfOk result (λ next. next ≡ at + kid_weight kid.now) }
    ensures ok { OnOk result (facts.new ≡ facts.old ++ kid_said here parent at kid.now) }
    ensures err { OnErr result (AddsFront facts.old facts.new (kid_said here parent at kid.now)) }
{
    let variable = node(here, at, &kid.node.name);
    let inside = say_head(facts, here, variable, at, &kid.node)?;
    say_relation(facts, parent, kid.down, variable)?;
    say_kids(facts, here, variable, inside + 1, kid.node.kids.as_slice())
}

// The relation of the kid to the one before it, if there is one, and the place of the kid.
fn say_link(
    facts: &mut Facts,
    here: u32,
    sister: Option<Variable>,
    at: u32,
    kid: &Kid,
) -> Result<u32, Memory>
    requires { at + 1 < 2 ^ 32 }
    ensures place { IfOk result (λ place. place ≡ kid_place sister at) }
    ensures ok { OnOk result (facts.new ≡ facts.old ++ link_said here sister at kid.now) }
    ensures err { OnErr result (facts.new ≡ facts.old) }
{
    let Some(left) = sister else {
        return Ok(at);
    };
    let how = if kid.loose {
        Dominance::Left
    } else {
        Dominance::Next
    };
    facts.state_relation(left, how, node(here, at + 1, &kid.node.name))?;
    Ok(at + 1)
}

fn say_relation(
    facts: &mut Facts,
    left: Variable,
    how: Relate,
    right: Variable,
) -> Result<(), Memory>
    ensures ok { OnOk result (facts.new ≡ facts.old ++ relation_said left how right ∷ []) }
    ensures err { OnErr result (facts.new ≡ facts.old) }
{
    match how {
        Relate::Parent => facts.state_relation(left, Dominance::Parent, right),
        Relate::Above => facts.state_relation(left, Dominance::Above, right),
        Relate::AboveOrSame => facts.state_relation(left, Dominance::AboveOrSame, right),
        Relate::Next => facts.state_relation(left, Dominance::Next, right),
        Relate::Left => facts.state_relation(left, Dominance::Left, right),
        Relate::LeftOrSame => facts.state_relation(left, Dominance::LeftOrSame, right),
        Relate::Same => facts.state_one_node(left, right),
    }
}

/// The pairs of a bag, at a place.
pub fn say_bag(facts: &mut Facts, here: u32, place: Place, bag: &Bag) -> Result<(), Memory>
    ensures ok { OnOk result (facts.new ≡ facts.old ++ bag_said here (slot_of place) bag.now) }
    ensures err { OnErr result (AddsFront facts.old facts.new (bag_said here (slot_of place) bag.now)) }
{
    for pair in bag.as_slice() {
        facts.state_pair(place, pair.0, value(here, &pair.1))?;
    }
    Ok(())
}
