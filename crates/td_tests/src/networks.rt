use gr_terms::{Assertion, CAT, NAME, Network, SlotId, Sym, Term};
use std::test::Fail;
use td_model::*;

#[test]
fn attributes_stand_once_by_rising_number(rt: HostRuntime) -> Result<(), Fail> {
    let alloc = rt.alloc();
    let mut network = Network::new(alloc);
    for (slot, attr) in [(1, NAME), (2, CAT), (1, Sym(17)), (3, NAME)] {
        network.push(Assertion::Entry(SlotId(slot), attr, Term::Var(0)))?;
    }
    network.push(Assertion::Equate(Term::Var(0), Term::Var(1)))?;
    network.push(Assertion::Link(SlotId(1), SlotId(2)))?;
    let attributes = attributes(alloc, &network)?;
    assert_eq!(rt; attributes.as_slice(), [CAT, NAME, Sym(17)].as_slice());
    Ok(())
}
