use gr_terms::{Assertion, CAT, MARK, Term};
use mg_facts::*;
use std::test::Fail;
use td_desc::{Colour, Dominance, Related};

#[test]
fn a_ledger_lists_what_it_accepts(rt: HostRuntime) -> Result<(), Fail> {
    let mut ledger = Ledger::new(rt.alloc())?;
    ledger.fresh()?;
    ledger.slot()?;
    let mark = ledger.mark();
    assert_eq!(rt; mark.vars, 1);
    let cat = Assertion::Equate(Term::Var(0), Term::Const(CAT));
    assert!(rt; ledger.accept(cat)?);
    assert!(rt; !ledger.accept(Assertion::Equate(Term::Var(0), Term::Const(MARK)))?);
    assert_eq!(rt; ledger.list(), [cat].as_slice());
    assert!(rt; ledger.store().same(Term::Var(0), Term::Const(CAT)));
    ledger.undo(mark);
    assert_eq!(rt; ledger.list().len(), 0);
    Ok(())
}

#[test]
fn facts_are_described(rt: HostRuntime) -> Result<(), Fail> {
    let mut facts = Facts::new(rt.alloc())?;
    let x = Variable {
        at: 1,
        local: Local::Own,
    };
    let y = Variable {
        at: 0,
        local: Local::Name(7),
    };
    let z = Variable {
        at: 2,
        local: Local::Name(7),
    };
    facts.state_block(x)?;
    facts.state_pair(Place::Own(x), CAT, Value::Name(MARK))?;
    facts.state_colour(y, Colour::Black)?;
    facts.state_relation(x, Dominance::Above, z)?;
    facts.state_identity(y, z)?;
    facts.state_literal(Value::Name(MARK), Value::Name(CAT), &[Value::Name(CAT)])?;
    let Some(d) = facts.describe(rt.alloc())? else {
        assert!(rt; false);
        return Ok(());
    };
    assert_eq!(rt; d.count(), 2);
    assert_eq!(rt; d.vars, 3);
    assert_eq!(rt; d.slots, 10);
    assert_eq!(rt; d.nodes.get(0).colour, Colour::Black);
    assert_eq!(rt; d.nodes.get(1).colour, Colour::Red);
    assert_eq!(rt; d.relations.len(), 1);
    assert_eq!(rt;
        *d.relations.get(0),
        Related {
            from: 1,
            how: Dominance::Above,
            to: 0
        }
    );
    assert_eq!(rt; d.sem.len(), 1);
    assert_eq!(rt; d.network.len(), 5);
    // a second name for the category
    facts.state_pair(Place::Own(x), CAT, Value::Name(CAT))?;
    assert!(rt; facts.describe(rt.alloc())?.is_none());
    facts.state_block(x)?;
    facts.keep(6);
    assert!(rt; facts.describe(rt.alloc())?.is_some());
    // a second colour
    facts.state_colour(z, Colour::White)?;
    assert!(rt; facts.describe(rt.alloc())?.is_none());
    facts.keep(6);
    // a node that is a value
    facts.state_pair(Place::Interface, CAT, Value::Variable(y))?;
    assert!(rt; facts.describe(rt.alloc())?.is_none());
    Ok(())
}
