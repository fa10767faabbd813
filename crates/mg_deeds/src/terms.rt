//! Variables and values, as they are written within a call.
ghost use Rattle.std.specs.Prelude.{◌≡◌, map, IfOk};
ghost use Rattle.mg_facts.specs.Said.{term_of};
ghost use Rattle.mg_deeds.specs.Sayings.{variable_of, side_term, block_variable, handle_of};

use mg_facts::{Local, Memory, Value, Variable};
use mg_syntax::{Ref, Side};
use std::alloc::Global;

/// The variable that is written.
pub fn named(here: u32, reference: &Ref) -> Variable
    ensures { result ≡ variable_of here reference.now }
{
    let local = match reference.of {
        None => Local::Name(reference.name.0),
        Some(call) => Local::Dotted(call.0, reference.name.0),
    };
    Variable { at: here, local }
}

/// The value that is written.
pub fn value(here: u32, side: &Side) -> Value
    ensures { term_of result ≡ side_term here side.now }
{
    match side {
        Side::Ref(reference) => Value::Variable(named(here, reference)),
        Side::Name(name) => Value::Name(*name),
    }
}

/// The variable of the node block at a place.
pub fn node(here: u32, at: u32, name: &Option<Ref>) -> Variable
    ensures { result ≡ block_variable here at name.now }
{
    match name {
        Some(reference) => named(here, reference),
        None => own(at),
    }
}

/// The handle of the literal at a place.
pub fn label(here: u32, at: u32, handle: &Option<Side>) -> Value
    ensures { term_of result ≡ handle_of here at handle.now }
{
    match handle {
        Some(side) => value(here, side),
        None => Value::Variable(own(at)),
    }
}

/// The values that are written.
pub fn values(alloc: Global, here: u32, sides: &[Side]) -> Result<Vec<Value>, Memory>
    ensures { IfOk result (λ vs. map term_of vs.items ≡ map (side_term here) sides.now) }
{
    let mut values = Vec::with_capacity(alloc, sides.len())?;
    for side in sides {
        values.push(value(here, side))?;
    }
    Ok(values)
}

fn own(at: u32) -> Variable
    ensures { result ≡ block_variable at at None }
{
    Variable {
        at,
        local: Local::Own,
    }
}
