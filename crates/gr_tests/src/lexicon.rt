use gr_base::Items;
use gr_symbols::Symbols;
use gr_terms::{Bag, EMPTY, MARK, Sym, Term};
use gr_text::Place;
use gr_tokens::ReadRefusal;
use lx_lexicon::{CoNames, Entry, Lexicon, read_lexicon};
use std::alloc::Global;
use std::process::Abort;
use std::test::Fail;

/// What is read of a text.
fn read(alloc: Global, text: &str, symbols: &mut Symbols) -> Result<Lexicon, ReadRefusal> {
    let bytes = text.as_bytes();
    if bytes.len() > 1_048_576 {
        return Err(ReadRefusal::Memory);
    }
    read_lexicon(alloc, bytes, symbols)
}

/// The number of a text, or one that no text has.
fn number(symbols: &Symbols, text: &str) -> Sym {
    symbols.find(text).unwrap_or(Sym(4_294_967_295))
}

/// The place in the first line.
fn column(column: u32) -> Place {
    Place { line: 1, column }
}

/// Looks at the names of the entry of the lemma `look`.
fn check_names(rt: &impl Abort, entry: &Entry, symbols: &Symbols) {
    assert_eq!(rt; entry.lemma, number(symbols, "look"));
    assert_eq!(rt; entry.family, number(symbols, "entry"));
    let names = [
        (number(symbols, "p"), number(symbols, "up")),
        (EMPTY, number(symbols, "off")),
    ];
    assert_eq!(rt; entry.coanchors.as_slice(), names.as_slice());
}

/// Looks at its bags.
fn check_bags(rt: &impl Abort, entry: &Entry, symbols: &Symbols) {
    let i = number(symbols, "i");
    assert_eq!(rt; entry.iface.len(), 2);
    assert_eq!(rt; entry.anchor.len(), 2);
    assert_eq!(rt; entry.iface.get(number(symbols, "e")), Some(Term::Var(0)));
    assert_eq!(rt; entry.iface.get(i), Some(Term::Var(1)));
    assert_eq!(rt; entry.anchor.get(i), Some(Term::Var(1)));
    let num = entry.anchor.get(number(symbols, "num"));
    assert_eq!(rt; num, Some(Term::Const(number(symbols, "sg"))));
}

/// Looks at its literals.
fn check_literals(rt: &impl Abort, entry: &Entry, symbols: &Symbols) {
    let [look, quick] = entry.sem.as_slice() else {
        assert!(rt; false, "not two literals");
        return;
    };
    assert_eq!(rt; look.handle, Term::Var(0));
    assert_eq!(rt; look.pred, Term::Const(number(symbols, "look")));
    assert_eq!(rt; look.args.as_slice(), [Term::Var(1)].as_slice());
    assert_eq!(rt; quick.handle, Term::Var(2));
    assert_eq!(rt;
        quick.args.as_slice(),
        [Term::Var(0), Term::Var(3)].as_slice()
    );
}

#[test]
fn an_entry_is_read(rt: HostRuntime) -> Result<(), Fail> {
    let mut symbols = Symbols::new(rt.alloc())?;
    let text = "entry look entry { iface [e=?e, i=?x] anchor [num=sg, i=?x]
        coanchor p = up coanchor \"\" = off % a comment
        sem { ?e:look(?x) quick(?e, ?y) } }";
    let Ok(lexicon) = read(rt.alloc(), text, &mut symbols) else {
        assert!(rt; false, "refused");
        return Ok(());
    };
    assert_eq!(rt; lexicon.len(), 1);
    let look = lexicon.get(0);
    check_names(&rt, look, &symbols);
    check_bags(&rt, look, &symbols);
    check_literals(&rt, look, &symbols);
    Ok(())
}

#[test]
fn entries_have_variables_of_their_own(rt: HostRuntime) -> Result<(), Fail> {
    let mut symbols = Symbols::new(rt.alloc())?;
    let text =
        "entry a f { anchor [cat=?x, mark=?y] } entry a f { anchor [mark=?y] sem { p() p() p() p() } } entry a f { }";
    let Ok(lexicon) = read(rt.alloc(), text, &mut symbols) else {
        assert!(rt; false, "refused");
        return Ok(());
    };
    assert_eq!(rt; lexicon.len(), 3);
    assert_eq!(rt; lexicon.get(0).anchor.get(MARK), Some(Term::Var(1)));
    assert_eq!(rt; lexicon.get(1).anchor.get(MARK), Some(Term::Var(0)));
    assert_eq!(rt; lexicon.get(1).sem.len(), 4);
    assert_eq!(rt; lexicon.get(2).anchor.len(), 0);
    assert_eq!(rt; lexicon.get(2).sem.len(), 0);
    Ok(())
}

#[test]
fn texts_break_off(rt: HostRuntime) -> Result<(), Fail> {
    let alloc = rt.alloc();
    let mut symbols = Symbols::new(alloc)?;
    // A text, and the column where no lexicon goes on.
    const CASES: [(&str, u32); 13] = [
        ("x", 1),
        ("entry", 6),
        ("entry a \"f\" { }", 9),
        ("entry a f g { }", 11),
        ("entry a f { anchor [] iface [] }", 23),
        ("entry a f { iface }", 19),
        ("entry a f { coanchor p up }", 24),
        ("entry a f { sem { } coanchor p = up }", 21),
        ("entry a f { sem { p( } }", 22),
        ("entry a f { iface [x=?y.?z] }", 24),
        ("entry a f { } }", 15),
        ("entry a f { ", 13),
        // No complaint counts before the text is read to its end.
        (
            "entry \"\" f { iface [x=a, x=b] sem { p() p() p() p() p() } ",
            59,
        ),
    ];
    for (text, at) in CASES {
        match read(alloc, text, &mut symbols) {
            Ok(_lexicon) => assert!(rt; false, "taken: {text}"),
            Err(refusal) => assert_eq!(rt; refusal, ReadRefusal::Syntax(column(at)), "{text}"),
        }
    }
    Ok(())
}

#[test]
fn the_first_complaint_counts(rt: HostRuntime) -> Result<(), Fail> {
    let alloc = rt.alloc();
    let mut symbols = Symbols::new(alloc)?;
    const CASES: [(&str, ReadRefusal); 9] = [
        (
            "entry a f { sem { p() p() p() p() p() } }",
            ReadRefusal::EntryLiterals(Place { line: 1, column: 1 }),
        ),
        (
            "entry \"\" propN { }",
            ReadRefusal::EmptyWord(Place { line: 1, column: 7 }),
        ),
        (
            "entry a f { coanchor \"\" = \"\" }",
            ReadRefusal::EmptyWord(Place {
                line: 1,
                column: 27,
            }),
        ),
        (
            "entry a f { coanchor p = up coanchor \"p\" = up }",
            ReadRefusal::Duplicate(Place {
                line: 1,
                column: 38,
            }),
        ),
        (
            "entry a f { iface [x=a] anchor [y=a, x=b, y=c, x=d] }",
            ReadRefusal::Duplicate(Place {
                line: 1,
                column: 43,
            }),
        ),
        (
            "entry a f { coanchor p = \"\" coanchor p = up }",
            ReadRefusal::EmptyWord(Place {
                line: 1,
                column: 26,
            }),
        ),
        (
            "entry \"\" f { sem { p() p() p() p() p() } }",
            ReadRefusal::EntryLiterals(Place { line: 1, column: 1 }),
        ),
        (
            "entry a f { anchor [x=a, x=b] } entry \"\" f { }",
            ReadRefusal::Duplicate(Place {
                line: 1,
                column: 26,
            }),
        ),
        (
            "entry a f { } entry \"\" f { iface [x=a, x=b] }",
            ReadRefusal::EmptyWord(Place {
                line: 1,
                column: 21,
            }),
        ),
    ];
    for (text, wanted) in CASES {
        match read(alloc, text, &mut symbols) {
            Ok(_lexicon) => assert!(rt; false, "taken: {text}"),
            Err(refusal) => assert_eq!(rt; refusal, wanted, "{text}"),
        }
    }
    Ok(())
}

#[test]
fn bytes_without_tokens_are_refused(rt: HostRuntime) -> Result<(), Fail> {
    let mut symbols = Symbols::new(rt.alloc())?;
    match read_lexicon(rt.alloc(), b"entry a f { } \xff".as_slice(), &mut symbols) {
        Ok(_lexicon) => assert!(rt; false, "taken"),
        Err(refusal) => assert_eq!(rt; refusal, ReadRefusal::NotUtf8(14)),
    }
    match read(rt.alloc(), "entry \"\" f { } @", &mut symbols) {
        Ok(_lexicon) => assert!(rt; false, "taken"),
        Err(refusal) => assert_eq!(rt; refusal, ReadRefusal::Syntax(column(16))),
    }
    match read(rt.alloc(), "% nothing", &mut symbols) {
        Ok(lexicon) => assert_eq!(rt; lexicon.len(), 0),
        Err(_refusal) => assert!(rt; false, "refused"),
    }
    Ok(())
}

#[test]
fn lists_of_entries_take_an_item(rt: HostRuntime) -> Result<(), Fail> {
    let mut coanchors: CoNames = Items::new(rt.alloc());
    coanchors.push((MARK, EMPTY))?;
    assert_eq!(rt; coanchors.as_slice(), [(MARK, EMPTY)].as_slice());
    let mut lexicon: Lexicon = Items::new(rt.alloc());
    lexicon.push(Entry {
        lemma: Sym(20),
        family: Sym(21),
        iface: Bag::new(rt.alloc()),
        anchor: Bag::new(rt.alloc()),
        coanchors,
        sem: Items::new(rt.alloc()),
    })?;
    assert_eq!(rt; lexicon.len(), 1);
    assert_eq!(rt; lexicon.get(0).family, Sym(21));
    Ok(())
}
