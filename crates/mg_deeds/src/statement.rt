//! What a statement says.
ghost use Rattle.std.specs.Prelude.{◌≡◌, ◌+◌, ◌^◌, ◌<◌, ◌++◌, OnOk, OnErr};
ghost use Rattle.mg_deeds.specs.Fronts.{AddsFront};
ghost use Rattle.mg_deeds.specs.Weights.{total, literal_weight, statement_weight};
ghost use Rattle.mg_deeds.specs.Sayings.{equation_said, literal_said, said_from, statement_said};

use crate::blocks::{say_bag, say_items};
use crate::terms::{label, named, value, values};
use mg_facts::{Facts, Memory, Place};
use mg_syntax::{Literal, Ref, Side, Statement};
use std::alloc::Global;

/// States what a statement itself says, in the call that is named by `here` and behind `first`
/// items. A call and a group say nothing.
pub fn say(
    alloc: Global,
    facts: &mut Facts,
    here: u32,
    first: u32,
    statement: &Statement,
) -> Result<(), Memory>
    requires { first + statement_weight statement.now < 2 ^ 32 }
    ensures ok { OnOk result (facts.new ≡ facts.old ++ statement_said here first statement.now) }
    ensures err { OnErr result (AddsFront facts.old facts.new (statement_said here first statement.now)) }
{
    match statement {
        Statement::Group(_) | Statement::Call(_) | Statement::Bind(_, _) => Ok(()),
        Statement::Equation(left, right) => say_equation(facts, here, left, right),
        Statement::Syn(items) => say_items(facts, here, first, items.as_slice()),
        Statement::Sem(literals) => say_literals(alloc, facts, here, first, literals.as_slice()),
        Statement::Iface(bag) => say_bag(facts, here, Place::Interface, bag),
    }
}

fn say_equation(facts: &mut Facts, here: u32, left: &Ref, right: &Side) -> Result<(), Memory>
    ensures ok { OnOk result (facts.new ≡ facts.old ++ equation_said here left.now right.now) }
    ensures err { OnErr result (facts.new ≡ facts.old) }
{
    let variable = named(here, left);
    match right {
        Side::Ref(reference) => facts.state_identity(variable, named(here, reference)),
        Side::Name(name) => facts.state_name(variable, *name),
    }
}

fn say_literals(
    alloc: Global,
    facts: &mut Facts,
    here: u32,
    first: u32,
    literals: &[Literal],
) -> Result<(), Memory>
    requires { first + total literal_weight literals.now < 2 ^ 32 }
    ensures ok { OnOk result (facts.new ≡ facts.old ++ said_from literal_weight (literal_said here) first literals.now) }
    ensures err { OnErr result (AddsFront facts.old facts.new (said_from literal_weight (literal_said here) first literals.now)) }
{
    let mut at = first;
    for literal in literals {
        say_literal(alloc, facts, here, at, literal)?;
        at += 1 + literal.args.len() as u32;
    }
    Ok(())
}

fn say_literal(
    alloc: Global,
    facts: &mut Facts,
    here: u32,
    at: u32,
    literal: &Literal,
) -> Result<(), Memory>
    ensures ok { OnOk result (facts.new ≡ facts.old ++ literal_said here at literal.now) }
    ensures err { OnErr result (facts.new ≡ facts.old) }
{
    let args = values(alloc, here, literal.args.as_slice())?;
    facts.state_literal(
        label(here, at, &literal.handle),
        value(here, &literal.pred),
        args.as_slice(),
    )
}
