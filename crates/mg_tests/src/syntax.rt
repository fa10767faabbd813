use gr_terms::{CAT, MARK, NAME};
use mg_syntax::*;
use std::alloc::Global;
use std::test::Fail;

#[test]
fn a_row_takes_an_item(rt: HostRuntime) -> Result<(), Fail> {
    let mut sides: Sides = Row::new(rt.alloc());
    assert_eq!(rt; sides.len(), 0);
    sides.push(Side::Name(CAT))?;
    let variable = Ref {
        of: None,
        name: MARK,
    };
    sides.push(Side::Ref(variable))?;
    assert_eq!(rt; sides.len(), 2);
    assert_eq!(rt; *sides.get(0), Side::Name(CAT));
    assert_eq!(rt; *sides.get(1), Side::Ref(variable));
    Ok(())
}

#[test]
fn groups_and_kids_nest(rt: HostRuntime) -> Result<(), Fail> {
    let alloc = rt.alloc();
    let mut inner: Alternative = Row::new(alloc);
    inner.push(Statement::Call(NAME))?;
    let mut body: Body = Row::new(alloc);
    body.push(inner)?;
    let mut outer: Alternative = Row::new(alloc);
    outer.push(Statement::Group(body))?;
    assert_eq!(rt; outer.len(), 1);
    let kid = Kid {
        down: Relate::Parent,
        loose: false,
        node: block(alloc, Row::new(alloc)),
    };
    let mut kids: Kids = Row::new(alloc);
    kids.push(kid)?;
    let parent = block(alloc, kids);
    assert_eq!(rt; parent.kids.len(), 1);
    assert_eq!(rt; parent.kids.get(0).node.kids.len(), 0);
    Ok(())
}

#[test]
fn other_rows_take_an_item(rt: HostRuntime) -> Result<(), Fail> {
    let alloc = rt.alloc();
    let mut bag: Bag = Row::new(alloc);
    bag.push((CAT, Side::Name(NAME)))?;
    assert_eq!(rt; *bag.get(0), (CAT, Side::Name(NAME)));
    let mut literals: Literals = Row::new(alloc);
    literals.push(Literal {
        handle: None,
        pred: Side::Name(NAME),
        args: Row::new(alloc),
    })?;
    assert_eq!(rt; literals.len(), 1);
    let mut nodes: SynItems = Row::new(alloc);
    nodes.push(SynItem::Node(block(alloc, Row::new(alloc))))?;
    assert_eq!(rt; nodes.len(), 1);
    let mut args: Args = Row::new(alloc);
    args.push((NAME, None))?;
    assert_eq!(rt; args.len(), 1);
    let mut items: Metagrammar = Row::new(alloc);
    items.push(Item::Value(NAME))?;
    items.push(Item::Header(Header::Principle(NAME, args, CAT)))?;
    assert_eq!(rt; items.len(), 2);
    Ok(())
}

/// A block of nothing but kids.
fn block(alloc: Global, kids: Kids) -> NodeBlock {
    NodeBlock {
        name: None,
        colour: None,
        own: Row::new(alloc),
        top: Row::new(alloc),
        bot: Row::new(alloc),
        kids,
    }
}
