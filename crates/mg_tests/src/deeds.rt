ghost use Rattle.std.specs.Prelude.{◌≡◌, ◌+◌, ◌^◌, ◌<◌, ◌++◌, OnOk, OnErr};
ghost use Rattle.mg_deeds.specs.Weights.{statement_weight};
ghost use Rattle.mg_deeds.specs.Sayings.{statement_said};

use gr_terms::{CAT, NAME, Sym};
use mg_deeds::*;
use mg_facts::{Facts, Memory};
use mg_syntax::{
    Bag, Kid, Kids, Literal, NodeBlock, Paint, Ref, Relate, Row, Side, Statement, SynItem,
};
use std::alloc::Global;
use std::test::Fail;

#[test]
fn nested_blocks_have_items(rt: HostRuntime) -> Result<(), Fail> {
    let alloc = rt.alloc();
    let statement = nested(alloc)?;
    assert_eq!(rt; weight(&statement, 100), Some(11));
    assert_eq!(rt; weight(&statement, 11), Some(11));
    assert_eq!(rt; weight(&statement, 10), None);
    let mut facts = Facts::new(alloc)?;
    say(alloc, &mut facts, 7, 20, &statement)?;
    assert_eq!(rt; facts.count(), 11);
    Ok(())
}

#[test]
fn a_literal_is_one_fact(rt: HostRuntime) -> Result<(), Fail> {
    let alloc = rt.alloc();
    let mut args = Row::new(alloc);
    args.push(Side::Ref(plain(NAME)))?;
    args.push(Side::Name(NAME))?;
    let mut literals = Row::new(alloc);
    literals.push(Literal {
        handle: None,
        pred: Side::Name(CAT),
        args,
    })?;
    let statement = Statement::Sem(literals);
    assert_eq!(rt; weight(&statement, 3), Some(3));
    assert_eq!(rt; weight(&statement, 2), None);
    let mut facts = Facts::new(alloc)?;
    say(alloc, &mut facts, 0, 1, &statement)?;
    assert_eq!(rt; facts.count(), 1);
    Ok(())
}

#[test]
fn an_equation_is_one_fact(rt: HostRuntime) -> Result<(), Fail> {
    let alloc = rt.alloc();
    let mut facts = Facts::new(alloc)?;
    let equation = Statement::Equation(plain(CAT), Side::Name(NAME));
    assert_eq!(rt; weight(&equation, 0), None);
    state(alloc, &mut facts, 1, &equation)?;
    assert_eq!(rt; facts.count(), 1);
    Ok(())
}

#[test]
fn a_pair_of_the_interface_is_one_fact(rt: HostRuntime) -> Result<(), Fail> {
    let alloc = rt.alloc();
    let mut facts = Facts::new(alloc)?;
    let interface = Statement::Iface(category(alloc)?);
    assert_eq!(rt; weight(&interface, 9), Some(1));
    say(alloc, &mut facts, 0, 2, &interface)?;
    assert_eq!(rt; facts.count(), 1);
    Ok(())
}

#[test]
fn a_relation_is_one_fact(rt: HostRuntime) -> Result<(), Fail> {
    let alloc = rt.alloc();
    let mut facts = Facts::new(alloc)?;
    let mut items = Row::new(alloc);
    items.push(SynItem::Relation(plain(CAT), Relate::Same, plain(NAME)))?;
    let relation = Statement::Syn(items);
    assert_eq!(rt; weight(&relation, 9), Some(1));
    say(alloc, &mut facts, 0, 3, &relation)?;
    assert_eq!(rt; facts.count(), 1);
    Ok(())
}

#[test]
fn calls_say_what_is_exported(rt: HostRuntime) -> Result<(), Fail> {
    let alloc = rt.alloc();
    let mut facts = Facts::new(alloc)?;
    let call = Statement::Call(CAT);
    assert_eq!(rt; weight(&call, 0), Some(0));
    say(alloc, &mut facts, 0, 4, &call)?;
    assert_eq!(rt; facts.count(), 0);
    say_imports(&mut facts, 0, 4, &[CAT, NAME])?;
    say_dots(&mut facts, CAT, 0, 4, &[NAME])?;
    assert_eq!(rt; facts.count(), 3);
    Ok(())
}

/// All of a statement or nothing, as a caller wants it.
fn state(alloc: Global, facts: &mut Facts, first: u32, statement: &Statement) -> Result<(), Memory>
    requires { first + statement_weight statement.now < 2 ^ 32 }
    ensures ok { OnOk result (facts.new ≡ facts.old ++ statement_said 0 first statement.now) }
    ensures err { OnErr result (facts.new ≡ facts.old) }
{
    let count = facts.count();
    match say(alloc, facts, 0, first, statement) {
        Ok(()) => Ok(()),
        Err(error) => {
            facts.keep(count);
            Err(error)
        }
    }
}

/// node ?cat (color=white)[cat=name] { node [cat=name] ,,, node { ... node ?name } }
fn nested(alloc: Global) -> Result<Statement, Memory> {
    let mut inner: Kids = Row::new(alloc);
    inner.push(Kid {
        down: Relate::AboveOrSame,
        loose: false,
        node: block(
            alloc,
            Some(plain(NAME)),
            None,
            Row::new(alloc),
            Row::new(alloc),
        ),
    })?;
    let mut kids: Kids = Row::new(alloc);
    kids.push(Kid {
        down: Relate::Parent,
        loose: false,
        node: block(alloc, None, None, category(alloc)?, Row::new(alloc)),
    })?;
    kids.push(Kid {
        down: Relate::Parent,
        loose: true,
        node: block(alloc, None, None, Row::new(alloc), inner),
    })?;
    let mut items = Row::new(alloc);
    items.push(SynItem::Node(block(
        alloc,
        Some(plain(CAT)),
        Some(Paint::White),
        category(alloc)?,
        kids,
    )))?;
    Ok(Statement::Syn(items))
}

/// [cat=name]
fn category(alloc: Global) -> Result<Bag, Memory> {
    let mut bag: Bag = Row::new(alloc);
    bag.push((CAT, Side::Name(NAME)))?;
    Ok(bag)
}

fn block(
    alloc: Global,
    name: Option<Ref>,
    colour: Option<Paint>,
    own: Bag,
    kids: Kids,
) -> NodeBlock {
    NodeBlock {
        name,
        colour,
        own,
        top: Row::new(alloc),
        bot: Row::new(alloc),
        kids,
    }
}

fn plain(name: Sym) -> Ref {
    Ref { of: None, name }
}
