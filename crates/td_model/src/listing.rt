//! The attributes of a network.
ghost use Rattle.std.specs.Prelude.{◌≡◌, map, IfOk};
ghost use Rattle.td_model.specs.CanonicalTrees.{AreAttributes};
ghost use Rattle.td_model.specs.Reading.{HasAttributesOf};

use gr_base::{Items, Memory};
use gr_terms::{Assertion, Bag, Network, Syms};
use std::alloc::Global;

/// The attributes of the network's entries, each with the value of its first entry.
fn first_values(alloc: Global, network: &Network) -> Result<Bag, Memory>
    ensures { IfOk result (HasAttributesOf network.now) }
{
    let mut bag = Bag::new(alloc);
    'network: for place in 0..network.len() {
        match *network.at(place) {
            Assertion::Entry(_slot, attr, value) => {
                let _added = bag.add(attr, value)?;
            }
            Assertion::Equate(_, _) => {}
            Assertion::Link(_, _) => {}
        }
    }
    Ok(bag)
}

/// The attributes of the bag's pairs.
fn keys(alloc: Global, bag: &Bag) -> Result<Syms, Memory>
    ensures { IfOk result (λ keys. keys ≡ map (λ p. p.0) bag.now) }
{
    let mut keys = Items::new(alloc);
    'pairs: for place in 0..bag.len() {
        keys.push(bag.at(place).0)?;
    }
    Ok(keys)
}

/// The attributes of the network's entries, each once, by rising number.
pub fn attributes(alloc: Global, network: &Network) -> Result<Syms, Memory>
    ensures { IfOk result (AreAttributes network.now) }
{
    let bag = first_values(alloc, network)?;
    keys(alloc, &bag)
}
