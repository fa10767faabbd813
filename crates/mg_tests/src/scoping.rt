use gr_base::Memory;
use gr_terms::{CAT, Sym, Syms};
use mg_scope::*;
use mg_syntax::{
    Alternative, Bag, Body, Class, Item, Metagrammar, NodeBlock, Ref, Relate, Row, Side, Statement,
    SynItem,
};
use std::alloc::Global;
use std::test::Fail;

const A: Sym = Sym(20);

const B: Sym = Sym(21);

const C: Sym = Sym(22);

const D: Sym = Sym(23);

const X: Sym = Sym(30);

const Y: Sym = Sym(31);

const P: Sym = Sym(40);

/// A class of these names whose body is one alternative.
fn class(
    alloc: Global,
    name: Sym,
    imports: &[Sym],
    exports: &[Sym],
    declares: &[Sym],
    statements: Vec<Statement>,
) -> Result<Item, Memory> {
    let mut body: Body = Row::new(alloc);
    body.push(Row::from_vec(statements))?;
    Ok(Item::Class(Class {
        name,
        imports: list(alloc, imports)?,
        exports: list(alloc, exports)?,
        declares: list(alloc, declares)?,
        body,
    }))
}

fn list(alloc: Global, names: &[Sym]) -> Result<Syms, Memory> {
    Ok(Syms::from_vec(Vec::from_slice(alloc, names)?))
}

/// A class that only calls others, in a group, behind its imports.
fn caller(alloc: Global, name: Sym, imports: &[Sym], calls: &[Sym]) -> Result<Item, Memory> {
    let mut inner: Alternative = Row::new(alloc);
    for call in calls {
        inner.push(Statement::Call(*call))?;
    }
    let mut group: Body = Row::new(alloc);
    group.push(inner)?;
    let statements = vec![in alloc; Statement::Group(group)]?;
    class(alloc, name, imports, &[], &[], statements)
}

fn variable(name: Sym) -> Ref {
    Ref { of: None, name }
}

fn dotted(of: Sym, name: Sym) -> Ref {
    Ref { of: Some(of), name }
}

fn block(alloc: Global, name: Option<Ref>, own: Bag) -> NodeBlock {
    NodeBlock {
        name,
        colour: None,
        own,
        top: Row::new(alloc),
        bot: Row::new(alloc),
        kids: Row::new(alloc),
    }
}

fn node(alloc: Global, name: Ref) -> SynItem {
    SynItem::Node(block(alloc, Some(name), Row::new(alloc)))
}

/// A `<syn>` block of one item.
fn syn(alloc: Global, item: SynItem) -> Result<Statement, Memory> {
    Ok(Statement::Syn(Row::from_vec(vec![in alloc; item]?)))
}

/// The code of the answer, or 0, and the names in it, or the valued classes.
fn answer(alloc: Global, items: Vec<Item>) -> Result<(u32, Syms), Memory> {
    let metagrammar: Metagrammar = Row::from_vec(items);
    match resolve(alloc, metagrammar) {
        Ok(resolved) => Ok((0, list(alloc, resolved.valued())?)),
        Err(ScopeRefusal::UnknownClass(name)) => Ok((13, list(alloc, &[name])?)),
        Err(ScopeRefusal::ClassCycle(names)) => Ok((14, names)),
        Err(ScopeRefusal::DuplicateClass(name)) => Ok((15, list(alloc, &[name])?)),
        Err(ScopeRefusal::UndeclaredVariable(name, r)) => Ok((16, refused(alloc, name, r)?)),
        Err(ScopeRefusal::NotExported(name, r)) => Ok((17, refused(alloc, name, r)?)),
        Err(ScopeRefusal::Memory) => Err(Memory),
    }
}

fn refused(alloc: Global, class: Sym, r: Ref) -> Result<Syms, Memory> {
    match r.of {
        Some(of) => list(alloc, &[class, of, r.name]),
        None => list(alloc, &[class, r.name]),
    }
}

#[test]
fn class_cycle(rt: HostRuntime) -> Result<(), Fail> {
    let alloc = rt.alloc();
    let items = vec![in alloc;
        class(alloc, A, &[B], &[], &[], Vec::new(alloc))?,
        class(alloc, B, &[A], &[], &[], Vec::new(alloc))?,
        Item::Value(A),
    ]?;
    let (code, names) = answer(alloc, items)?;
    assert_eq!(rt; code, 14);
    assert_eq!(rt; names.as_slice(), [A, B].as_slice());
    Ok(())
}

#[test]
fn shortest_cycles_through_groups(rt: HostRuntime) -> Result<(), Fail> {
    let alloc = rt.alloc();
    // D leads to the cycles, and is in none. The way over C is as short as that over B, and C is
    // mentioned first; that over D does not come back.
    let items = vec![in alloc;
        caller(alloc, D, &[A], &[])?,
        caller(alloc, A, &[P], &[C, B])?,
        caller(alloc, B, &[], &[A])?,
        caller(alloc, C, &[B], &[A])?,
        caller(alloc, P, &[B], &[])?,
    ]?;
    let (code, names) = answer(alloc, items)?;
    assert_eq!(rt; code, 14);
    assert_eq!(rt; names.as_slice(), [A, C].as_slice());
    let items = vec![in alloc; caller(alloc, A, &[A], &[B])?, caller(alloc, B, &[], &[A])?]?;
    let (code, names) = answer(alloc, items)?;
    assert_eq!(rt; code, 14);
    assert_eq!(rt; names.as_slice(), [A].as_slice());
    Ok(())
}

#[test]
fn not_exported(rt: HostRuntime) -> Result<(), Fail> {
    let alloc = rt.alloc();
    let items = vec![in alloc;
        class(alloc, A, &[], &[X], &[], Vec::new(alloc))?,
        Item::Value(A),
    ]?;
    let (code, names) = answer(alloc, items)?;
    assert_eq!(rt; code, 17);
    assert_eq!(rt; names.as_slice(), [A, X].as_slice());
    // A call variable is not exported, and what the called class does not export is not read.
    let call = vec![in alloc; Statement::Bind(X, B)]?;
    let items = vec![in alloc;
        class(alloc, A, &[], &[X], &[X], call)?,
        caller(alloc, B, &[], &[])?,
    ]?;
    let (code, names) = answer(alloc, items)?;
    assert_eq!(rt; code, 17);
    assert_eq!(rt; names.as_slice(), [A, X].as_slice());
    let reads = vec![in alloc;
        syn(alloc, node(alloc, dotted(X, Y)))?,
        Statement::Bind(X, B),
    ]?;
    let items = vec![in alloc;
        class(alloc, A, &[], &[], &[X], reads)?,
        class(alloc, B, &[], &[], &[Y], Vec::new(alloc))?,
    ]?;
    let (code, names) = answer(alloc, items)?;
    assert_eq!(rt; code, 17);
    assert_eq!(rt; names.as_slice(), [A, X, Y].as_slice());
    Ok(())
}

#[test]
fn imports_and_dots(rt: HostRuntime) -> Result<(), Fail> {
    let alloc = rt.alloc();
    let n = vec![in alloc; syn(alloc, node(alloc, variable(X)))?]?;
    let s = vec![in alloc;
        syn(alloc, node(alloc, variable(Y)))?,
        syn(
            alloc,
            SynItem::Relation(variable(Y), Relate::Parent, variable(X))
        )?,
    ]?;
    let t = vec![in alloc;
        Statement::Bind(P, A),
        syn(
            alloc,
            SynItem::Relation(variable(Y), Relate::Parent, dotted(P, X))
        )?,
    ]?;
    let items = vec![in alloc;
        Item::Value(C),
        class(alloc, A, &[], &[X], &[X], n)?,
        class(alloc, B, &[A], &[], &[Y], s)?,
        class(alloc, C, &[], &[], &[Y, P], t)?,
        Item::Value(B),
        Item::Value(C),
        Item::Value(A),
    ]?;
    let (code, names) = answer(alloc, items)?;
    assert_eq!(rt; code, 0);
    assert_eq!(rt; names.as_slice(), [C, B, A].as_slice());
    Ok(())
}

#[test]
fn metagrammar_refusals(rt: HostRuntime) -> Result<(), Fail> {
    let alloc = rt.alloc();
    let (code, names) = answer(alloc, vec![in alloc; Item::Value(P)]?)?;
    assert_eq!(rt; code, 13);
    assert_eq!(rt; names.as_slice(), [P].as_slice());
    let items = vec![in alloc; caller(alloc, A, &[], &[])?, caller(alloc, A, &[], &[])?]?;
    let (code, names) = answer(alloc, items)?;
    assert_eq!(rt; code, 15);
    assert_eq!(rt; names.as_slice(), [A].as_slice());
    let body = vec![in alloc; syn(alloc, node(alloc, variable(X)))?]?;
    let (code, names) = answer(
        alloc,
        vec![in alloc; class(alloc, A, &[], &[], &[], body)?]?,
    )?;
    assert_eq!(rt; code, 16);
    assert_eq!(rt; names.as_slice(), [A, X].as_slice());
    Ok(())
}

#[test]
fn properties_stand_before_the_category(rt: HostRuntime) -> Result<(), Fail> {
    let alloc = rt.alloc();
    let own = vec![in alloc; (CAT, Side::Ref(variable(X))), (P, Side::Ref(variable(Y)))]?;
    let item = SynItem::Node(block(alloc, None, Row::from_vec(own)));
    let body = vec![in alloc; syn(alloc, item)?]?;
    let (code, names) = answer(
        alloc,
        vec![in alloc; class(alloc, A, &[], &[], &[], body)?]?,
    )?;
    assert_eq!(rt; code, 16);
    assert_eq!(rt; names.as_slice(), [A, Y].as_slice());
    Ok(())
}

#[test]
fn variables_of_each_kind(rt: HostRuntime) -> Result<(), Fail> {
    let alloc = rt.alloc();
    // B sees what A exports, and does not export it again.
    let body = vec![in alloc; syn(alloc, node(alloc, variable(X)))?]?;
    let items = vec![in alloc;
        class(alloc, A, &[], &[X], &[X], Vec::new(alloc))?,
        class(alloc, B, &[A], &[], &[], Vec::new(alloc))?,
        class(alloc, C, &[B], &[], &[], body)?,
    ]?;
    let (code, names) = answer(alloc, items)?;
    assert_eq!(rt; code, 16);
    assert_eq!(rt; names.as_slice(), [C, X].as_slice());
    // A call variable alone, two statements of one call variable, and a dot behind no call variable.
    let alone = vec![in alloc;
        Statement::Bind(X, B),
        syn(alloc, node(alloc, variable(X)))?,
    ]?;
    let twice = vec![in alloc; Statement::Bind(X, B), Statement::Bind(X, B)]?;
    let behind = vec![in alloc; syn(alloc, node(alloc, dotted(X, Y)))?]?;
    for body in vec![in alloc; alone, twice, behind]? {
        let items = vec![in alloc;
            class(alloc, A, &[], &[], &[X], body)?,
            caller(alloc, B, &[], &[])?,
        ]?;
        let (code, names) = answer(alloc, items)?;
        assert_eq!(rt; code, 16);
        assert_eq!(rt; names.as_slice(), [A, X].as_slice());
    }
    Ok(())
}

/// The place of the first class of a name among two classes and a valuation, and its exports.
fn found(alloc: Global, name: Sym) -> Result<(Option<usize>, Option<Syms>), Memory> {
    let items = vec![in alloc;
        Item::Value(B),
        caller(alloc, A, &[], &[B])?,
        class(alloc, B, &[], &[X], &[X], Vec::new(alloc))?,
    ]?;
    let Ok(resolved) = resolve(alloc, Row::from_vec(items)) else {
        return Err(Memory);
    };
    let exports = match resolved.class(name) {
        Some(class) => Some(list(alloc, class.exports.as_slice())?),
        None => None,
    };
    Ok((resolved.place(name), exports))
}

#[test]
fn classes_by_name(rt: HostRuntime) -> Result<(), Fail> {
    let alloc = rt.alloc();
    let (place, exports) = found(alloc, A)?;
    assert_eq!(rt; place, Some(1));
    assert_eq!(rt; exports.is_some_and(|names| names.len() == 0), true);
    let (place, exports) = found(alloc, B)?;
    assert_eq!(rt; place, Some(2));
    assert_eq!(rt;
        exports.is_some_and(|names| names.as_slice() == [X].as_slice()),
        true
    );
    let (place, exports) = found(alloc, C)?;
    assert_eq!(rt; place, None);
    assert_eq!(rt; exports.is_none(), true);
    Ok(())
}

/// The answer for a class that imports another one twice, which exports three names, and has one
/// variable.
fn importer(alloc: Global, used: Sym, exports: &[Sym]) -> Result<(u32, Syms), Memory> {
    let body = vec![in alloc; syn(alloc, node(alloc, variable(used)))?]?;
    let items = vec![in alloc;
        class(alloc, A, &[], &[P, X, Y], &[Y, X, P], Vec::new(alloc))?,
        class(alloc, B, &[A, A], exports, &[], body)?,
    ]?;
    answer(alloc, items)
}

#[test]
fn few_of_many_exports(rt: HostRuntime) -> Result<(), Fail> {
    let alloc = rt.alloc();
    let (code, _) = importer(alloc, X, &[])?;
    assert_eq!(rt; code, 0);
    let (code, _) = importer(alloc, P, &[Y, Y])?;
    assert_eq!(rt; code, 0);
    let (code, names) = importer(alloc, D, &[])?;
    assert_eq!(rt; code, 16);
    assert_eq!(rt; names.as_slice(), [B, D].as_slice());
    let (code, names) = importer(alloc, X, &[Y, D])?;
    assert_eq!(rt; code, 17);
    assert_eq!(rt; names.as_slice(), [B, D].as_slice());
    Ok(())
}

#[test]
fn the_first_wrong_item(rt: HostRuntime) -> Result<(), Fail> {
    let alloc = rt.alloc();
    // An import that is not there comes before a cycle, and the first item before a lower code.
    let items = vec![in alloc; caller(alloc, A, &[A], &[P])?, Item::Value(C)]?;
    let (code, names) = answer(alloc, items)?;
    assert_eq!(rt; code, 13);
    assert_eq!(rt; names.as_slice(), [P].as_slice());
    let items = vec![in alloc; caller(alloc, A, &[A], &[])?, Item::Value(C)]?;
    let (code, names) = answer(alloc, items)?;
    assert_eq!(rt; code, 14);
    assert_eq!(rt; names.as_slice(), [A].as_slice());
    // A later class of a name is refused for its name, though it mentions itself.
    let items = vec![in alloc; caller(alloc, A, &[], &[])?, caller(alloc, A, &[A], &[])?]?;
    let (code, names) = answer(alloc, items)?;
    assert_eq!(rt; code, 15);
    assert_eq!(rt; names.as_slice(), [A].as_slice());
    Ok(())
}

#[test]
fn chains_between_cycles(rt: HostRuntime) -> Result<(), Fail> {
    let alloc = rt.alloc();
    // A leads to the cycle of C, and that of D leads to A; neither holds A or B.
    let items = vec![in alloc;
        caller(alloc, B, &[C], &[])?,
        caller(alloc, A, &[B], &[])?,
        caller(alloc, C, &[], &[P, C])?,
        caller(alloc, D, &[A], &[D])?,
        caller(alloc, P, &[], &[])?,
    ]?;
    let (code, names) = answer(alloc, items)?;
    assert_eq!(rt; code, 14);
    assert_eq!(rt; names.as_slice(), [C].as_slice());
    Ok(())
}
