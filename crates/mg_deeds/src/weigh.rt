//! How many items a statement has.
ghost use Rattle.std.specs.Prelude.{◌+◌, ◌-◌, ◌≤◌, length, SomeIff, Bool, true, false};
ghost use Rattle.mg_deeds.specs.Weights.{total, head_weight, kids_weight, block_weight, syntax_weight, literal_weight, statement_weight};
ghost use Rattle.mg_deeds.specs.Blocks.{block_of, head_of, forest_of};

use mg_syntax::{Kid, Literal, NodeBlock, Statement, SynItem};

/// The number of items of a statement itself, where it is at most `most`.
pub fn weight(statement: &Statement, most: u32) -> Option<u32>
    ensures { SomeIff result (statement_weight statement.now ≤ most) (statement_weight statement.now) }
{
    let left = after_statement(statement, most as usize)?;
    Some(most - left as u32)
}

// The functions below take the room for items, and answer what is left of it behind the items.

fn after_statement(statement: &Statement, room: usize) -> Option<usize>
    ensures { SomeIff result (statement_weight statement.now ≤ room) (room - statement_weight statement.now) }
{
    match statement {
        Statement::Group(_) | Statement::Call(_) | Statement::Bind(_, _) => Some(room),
        Statement::Equation(_, _) => room.checked_sub(1),
        Statement::Syn(items) => after_items(items.as_slice(), room),
        Statement::Sem(literals) => after_literals(literals.as_slice(), room),
        Statement::Iface(bag) => room.checked_sub(bag.len()),
    }
}

fn after_items(items: &[SynItem], room: usize) -> Option<usize>
    ensures { SomeIff result (total syntax_weight items.now ≤ room) (room - total syntax_weight items.now) }
{
    let mut left = room;
    for item in items {
        left = after_item(item, left)?;
    }
    Some(left)
}

fn after_item(item: &SynItem, room: usize) -> Option<usize>
    ensures { SomeIff result (syntax_weight item.now ≤ room) (room - syntax_weight item.now) }
{
    match item {
        SynItem::Node(block) => after_block(block, room),
        SynItem::Relation(_, _, _) => room.checked_sub(1),
    }
}

#[cycle(weighing)]
fn after_block(block: &NodeBlock, room: usize) -> Option<usize>
    ensures { SomeIff result (block_weight (block_of block.now) ≤ room) (room - block_weight (block_of block.now)) }
{
    let left = after_head(block, room)?;
    after_kids(block.kids.as_slice(), left)
}

#[cycle(weighing)]
fn after_kids(kids: &[Kid], room: usize) -> Option<usize>
    ensures { SomeIff result (kids_weight (forest_of kids.now) ≤ room) (room - kids_weight (forest_of kids.now)) }
{
    let mut left = room;
    let mut has_sister = false;
    for kid in kids {
        if has_sister {
            left = left.checked_sub(1)?;
        }
        left = after_block(&kid.node, left)?;
        left = left.checked_sub(1)?;
        has_sister = true;
    }
    Some(left)
}

fn after_head(block: &NodeBlock, room: usize) -> Option<usize>
    ensures { SomeIff result (head_weight (head_of block.now) ≤ room) (room - head_weight (head_of block.now)) }
{
    let colours = if block.colour.is_some() { 1 } else { 0 };
    room.checked_sub(1)?
        .checked_sub(colours)?
        .checked_sub(block.own.len())?
        .checked_sub(block.top.len())?
        .checked_sub(block.bot.len())
}

fn after_literals(literals: &[Literal], room: usize) -> Option<usize>
    ensures { SomeIff result (total literal_weight literals.now ≤ room) (room - total literal_weight literals.now) }
{
    let mut left = room;
    for literal in literals {
        left = left.checked_sub(1)?.checked_sub(literal.args.len())?;
    }
    Some(left)
}
