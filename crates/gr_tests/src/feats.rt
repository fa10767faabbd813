ghost use Rattle.std.specs.Bool.{OnTrue};
ghost use Rattle.gr_base.specs.Lists.{Each};
ghost use Rattle.gr_store.specs.Contents.{IsMade};
ghost use Rattle.gr_feats.specs.Loading.{counted_from};

use gr_feats::*;
use gr_store::{Room, Store};
use gr_symbols::Symbols;
use gr_terms::{Bag, CAT, FOOT, LEX, Literals, MARK, NAME, SlotId, Sym, Term};
use gr_text::Place;
use gr_tokens::{ReadRefusal, tokens};
use std::alloc::Global;
use std::test::Fail;

/// Room for a few assertions.
const ROOM: Room = Room {
    vars: 4,
    slots: 3,
    entries: 8,
    assertions: 12,
};

/// Whether the term, counted from the first variable, is a name or one of so many variables.
fn is_made(term: Term, first: u32, vars: u32) -> bool
    ensures { OnTrue result (IsMade vars (counted_from first term)) }
{
    match term {
        Term::Const(_) => true,
        Term::Var(number) => first < vars && number < vars - first,
    }
}

/// Whether all values of the bag are so.
fn are_made(bag: &Bag, first: u32, vars: u32) -> bool
    ensures { OnTrue result (Each (λ p. IsMade vars (counted_from first p.1)) bag.now) }
{
    'pairs: for place in 0..bag.len() {
        if !is_made(bag.at(place).1, first, vars) {
            return false;
        }
    }
    true
}

/// Loads the bag where the store has room for it.
fn load(store: &mut Store, slot: SlotId, bag: &Bag, first: u32) -> bool {
    let used = store.mark();
    let spare = store.spare();
    if used.slots <= slot.0 || !are_made(bag, first, used.vars) {
        return false;
    }
    if (spare.assertions as usize) < bag.len() || (spare.entries as usize) < bag.len() {
        return false;
    }
    load_bag(store, slot, bag, first)
}

#[test]
fn a_bag_is_loaded_whole_or_not_at_all(rt: HostRuntime) -> Result<(), Fail> {
    let alloc = rt.alloc();
    let mut store = Store::with_room(alloc, ROOM)?;
    let (x, y) = (store.fresh(), store.fresh());
    let (s, t) = (store.slot(), store.slot());
    let mut bag = Bag::new(alloc);
    let _cat = bag.add(CAT, Term::Const(Sym(20)))?;
    let _mark = bag.add(MARK, Term::Var(0))?;
    assert!(rt; load(&mut store, s, &bag, 1));
    assert_eq!(rt; store.entry(s, MARK), Some(y));
    let mut name = Bag::new(alloc);
    let _mark = name.add(MARK, Term::Const(Sym(21)))?;
    assert!(rt; load(&mut store, s, &name, 0));
    assert_eq!(rt; store.constant_of(y), Some(Sym(21)));
    let mut other = Bag::new(alloc);
    let _mark = other.add(MARK, Term::Const(Sym(22)))?;
    let _cat = other.add(CAT, Term::Var(0))?;
    let before = store.mark();
    assert!(rt; !load(&mut store, s, &other, 0));
    assert_eq!(rt; store.mark(), before);
    assert_eq!(rt; store.constant_of(x), None);
    assert!(rt; load(&mut store, t, &other, 0));
    assert_eq!(rt; store.entry(t, CAT), Some(x));
    Ok(())
}

#[test]
fn a_canonical_bag_has_each_attribute_once(rt: HostRuntime) -> Result<(), Fail> {
    let alloc = rt.alloc();
    let mut store = Store::with_room(alloc, ROOM)?;
    let (x, y, z) = (store.fresh(), store.fresh(), store.fresh());
    let (s, t, u) = (store.slot(), store.slot(), store.slot());
    assert!(rt; store.put(s, NAME, z));
    assert!(rt; store.put(t, NAME, y));
    assert!(rt; store.put(t, CAT, x));
    assert!(rt; store.put(u, MARK, x));
    assert!(rt; store.link(t, s));
    assert!(rt; store.equate(x, Term::Const(Sym(20))));
    let bag = canonical_bag(alloc, &store, s)?;
    assert_eq!(rt; bag.len(), 2);
    assert_eq!(rt; bag.get(NAME), Some(y));
    assert_eq!(rt; bag.get(CAT), Some(Term::Const(Sym(20))));
    let other = canonical_bag(alloc, &store, t)?;
    assert_eq!(rt; other.len(), 2);
    Ok(())
}

/// The bag that begins at a token of a text.
fn bag_at(
    alloc: Global,
    text: &str,
    at: usize,
    symbols: &mut Symbols,
    names: &mut Names,
) -> Result<(Bag, usize, Option<Place>), ReadRefusal> {
    let bytes = text.as_bytes();
    if bytes.len() > 1_048_576 {
        return Err(ReadRefusal::Memory);
    }
    let found = tokens(alloc, bytes)?;
    if found.len() < at {
        return Err(ReadRefusal::Memory);
    }
    read_bag(alloc, bytes, found.as_slice(), at, symbols, names)
}

/// The literals that begin at a token of a text.
fn literals_at(
    alloc: Global,
    text: &str,
    at: usize,
    symbols: &mut Symbols,
    names: &mut Names,
) -> Result<(Literals, usize), ReadRefusal> {
    let bytes = text.as_bytes();
    if bytes.len() > 1_048_576 {
        return Err(ReadRefusal::Memory);
    }
    let found = tokens(alloc, bytes)?;
    if found.len() < at {
        return Err(ReadRefusal::Memory);
    }
    read_literals(alloc, bytes, found.as_slice(), at, symbols, names)
}

#[test]
fn a_bag_is_read(rt: HostRuntime) -> Result<(), Fail> {
    let alloc = rt.alloc();
    let mut symbols = Symbols::new(alloc)?;
    let mut names = Names::new(alloc);
    let text = "iface [num=?x, mark=\"sg\", idx=?y,\n num=?z, cat=?x, mark=pl] behind";
    let Ok((bag, next, second)) = bag_at(alloc, text, 1, &mut symbols, &mut names) else {
        assert!(rt; false, "refused");
        return Ok(());
    };
    assert_eq!(rt; bag.len(), 4);
    let num = symbols.find("num").unwrap_or(NAME);
    let idx = symbols.find("idx").unwrap_or(NAME);
    let sg = symbols.find("sg").unwrap_or(NAME);
    assert_eq!(rt; bag.get(num), Some(Term::Var(0)));
    assert_eq!(rt; bag.get(MARK), Some(Term::Const(sg)));
    assert_eq!(rt; bag.get(idx), Some(Term::Var(1)));
    assert_eq!(rt; bag.get(CAT), Some(Term::Var(0)));
    assert_eq!(rt; next, 26);
    assert_eq!(rt; second, Some(Place { line: 2, column: 2 }));
    assert_eq!(rt; names.count(), 3);
    assert_eq!(rt; symbols.find("iface"), None);
    assert_eq!(rt; symbols.find("behind"), None);
    let Ok((empty, next, second)) = bag_at(alloc, "[]", 0, &mut symbols, &mut names) else {
        assert!(rt; false, "refused");
        return Ok(());
    };
    assert_eq!(rt; empty.len(), 0);
    assert_eq!(rt; next, 2);
    assert_eq!(rt; second, None);
    let Ok((more, _next, _second)) = bag_at(alloc, "[a=?z, b=?w]", 0, &mut symbols, &mut names)
    else {
        assert!(rt; false, "refused");
        return Ok(());
    };
    let a = symbols.find("a").unwrap_or(NAME);
    let b = symbols.find("b").unwrap_or(NAME);
    assert_eq!(rt; more.get(a), Some(Term::Var(2)));
    assert_eq!(rt; more.get(b), Some(Term::Var(3)));
    Ok(())
}

#[test]
fn no_bag_begins(rt: HostRuntime) -> Result<(), Fail> {
    let alloc = rt.alloc();
    let mut symbols = Symbols::new(alloc)?;
    let mut names = Names::new(alloc);
    // A text, a token of it, and the column where no bag goes on.
    const CASES: [(&str, usize, u32); 17] = [
        ("", 0, 1),
        ("x", 0, 1),
        ("[a=b]", 1, 2),
        ("[a=b]", 5, 6),
        ("[", 0, 2),
        ("[a", 0, 3),
        ("[a=", 0, 4),
        ("[a=b", 0, 5),
        ("[a=b,", 0, 6),
        ("[a=b,]", 0, 6),
        ("[a b]", 0, 4),
        ("[a=b c=d]", 0, 6),
        ("[\"a\"=b]", 0, 2),
        ("[?a=b]", 0, 2),
        ("[=b]", 0, 2),
        ("[a=?x.?y]", 0, 6),
        ("[a=b, a=c}", 0, 10),
    ];
    for (text, at, column) in CASES {
        match bag_at(alloc, text, at, &mut symbols, &mut names) {
            Ok(_answer) => assert!(rt; false, "taken: {text}"),
            Err(refusal) => {
                let wanted = ReadRefusal::Syntax(Place { line: 1, column });
                assert_eq!(rt; refusal, wanted, "{text}");
            }
        }
    }
    Ok(())
}

#[test]
fn literals_are_read(rt: HostRuntime) -> Result<(), Fail> {
    let alloc = rt.alloc();
    let mut symbols = Symbols::new(alloc)?;
    let mut names = Names::new(alloc);
    let text = "sem { cat:mark(name) ?p(?x, ?y ?p); ?x:foot() lex(subst,?y)} behind";
    let Ok((list, closing)) = literals_at(alloc, text, 2, &mut symbols, &mut names) else {
        assert!(rt; false, "refused");
        return Ok(());
    };
    assert_eq!(rt; closing, 27);
    assert_eq!(rt; list.len(), 4);
    // The handle, the predicate, and the number of arguments.
    let wanted = [
        (Term::Const(CAT), Term::Const(MARK), 1),
        (Term::Var(0), Term::Var(1), 3),
        (Term::Var(2), Term::Const(FOOT), 0),
        (Term::Var(4), Term::Const(LEX), 2),
    ];
    for (literal, (handle, pred, args)) in list.as_slice().iter().zip(wanted) {
        assert_eq!(rt; literal.handle, handle);
        assert_eq!(rt; literal.pred, pred);
        assert_eq!(rt; literal.args.len(), args);
    }
    let Some(second) = list.as_slice().get(1) else {
        assert!(rt; false, "too few");
        return Ok(());
    };
    let args = [Term::Var(2), Term::Var(3), Term::Var(1)];
    assert_eq!(rt; second.args.as_slice(), args.as_slice());
    assert_eq!(rt; names.count(), 5);
    assert_eq!(rt; symbols.find("behind"), None);
    let Ok((none, closing)) = literals_at(alloc, "}", 0, &mut symbols, &mut names) else {
        assert!(rt; false, "refused");
        return Ok(());
    };
    assert_eq!(rt; none.len(), 0);
    assert_eq!(rt; closing, 0);
    Ok(())
}

#[test]
fn no_literals_begin(rt: HostRuntime) -> Result<(), Fail> {
    let alloc = rt.alloc();
    let mut symbols = Symbols::new(alloc)?;
    let mut names = Names::new(alloc);
    // A text, and the column where no literals with a brace behind them go on.
    const CASES: [(&str, u32); 15] = [
        ("", 1),
        ("p", 2),
        ("p()", 4),
        ("p();", 5),
        ("p();}", 5),
        ("p(),q()}", 4),
        (":p()}", 1),
        ("a:b:c()}", 4),
        ("p;q()}", 2),
        ("p(}", 3),
        ("p(a,)}", 5),
        ("p(,a)}", 3),
        ("p(a;b)}", 4),
        (";p()}", 1),
        ("p()]", 4),
    ];
    for (text, column) in CASES {
        match literals_at(alloc, text, 0, &mut symbols, &mut names) {
            Ok(_answer) => assert!(rt; false, "taken: {text}"),
            Err(refusal) => {
                let wanted = ReadRefusal::Syntax(Place { line: 1, column });
                assert_eq!(rt; refusal, wanted, "{text}");
            }
        }
    }
    Ok(())
}
