//! Rows of whole texts, refusals with their places, and every construct by its spelling.
use crate::shown::shown;
use gr_symbols::Symbols;
use gr_text::Place;
use gr_tokens::ReadRefusal;
use mg_reader::*;
use mg_syntax::Metagrammar;
use std::alloc::Global;
use std::test::Fail;

/// The metagrammar of a text of at most 1,048,576 bytes, or its refusal.
fn read(alloc: Global, bytes: &[u8], symbols: &mut Symbols) -> Result<Metagrammar, ReadRefusal> {
    if bytes.len() > 1_048_576 {
        return Err(ReadRefusal::Memory);
    }
    read_metagrammar(alloc, bytes, symbols)
}

/// What the text means, one item a line, each part as a word with what it has in round brackets.
fn meaning(alloc: Global, text: &str) -> Result<Option<String>, Fail> {
    let mut symbols = Symbols::new(alloc)?;
    match read(alloc, text.as_bytes(), &mut symbols) {
        Ok(found) => Ok(Some(shown(alloc, &found, &symbols)?)),
        Err(_refusal) => Ok(None),
    }
}

#[test]
fn each_construct_has_its_meaning(rt: HostRuntime) -> Result<(), Fail> {
    const TABLE: [(&str, &str); 15] = [
        ("", ""),
        (
            "class A { } value A",
            "class(A import() export() declare() body());value(A);",
        ),
        (
            "class A import B[] C [] export ?x declare ?y ?z { }",
            "class(A import(B C) export(x) declare(y z) body());",
        ),
        ("class A { B[] ; ?x = C[] | { D[] | } }", "refused"),
        (
            "class A { B[] ; ?x = C[] | { D[] | E[] } ; { } }",
            "class(A import() export() declare() body(alt(call(B) bind(x C)) alt(group(alt(call(D)) alt(call(E))) group())));",
        ),
        (
            "class A { ?x = ?y ; ?x.?y = ?z.?w; ?x = b; ?x = node; ?x = \"a b\"; ?x.?y = class }",
            "class(A import() export() declare() body(alt(equate(x y) equate(x.y z.w) equate(x 'b) equate(x 'node) equate(x 'a b) equate(x.y 'class))));",
        ),
        (
            "class A { <syn>{ } ; <sem>{ } ; <iface>{ [ ] } }",
            "class(A import() export() declare() body(alt(syn() sem() iface())));",
        ),
        (
            "class A { <syn>{ node ; node ?x ; node ?x.?y ( ) [ ] { } } }",
            "class(A import() export() declare() body(alt(syn(node(- -) node(x -) node(x.y -)))));",
        ),
        (
            "class A { <syn>{ node (color=red, gen=?g, mark=foot)[bot=[a=b], cat=s, top=[c=?d]] ; node (mark=anchor, color=black); node(color=white) } }",
            "class(A import() export() declare() body(alt(syn(node(- red own(gen=g mark='foot cat='s) top(c=d) bot(a='b)) node(- black own(mark='anchor)) node(- white)))));",
        ),
        (
            "class A { <syn>{ node { node ... node { node } ,,, ...+ node ,,, node } } }",
            "class(A import() export() declare() body(alt(syn(node(- - kids(kid(-> node(- -)) kid(->* node(- - kids(kid(-> node(- -))))) loose(->+ node(- -)) loose(-> node(- -))))))));",
        ),
        (
            "class A { <syn>{ ?a -> ?b ; ?a ->+ ?b; ?a ->* ?b; ?a >> ?b; ?a >>+ ?b; ?a >>* ?b.?c; ?a.?d = ?b } }",
            "class(A import() export() declare() body(alt(syn(a->b a->+b a->*b a>>b a>>+b a>>*b.c a.d=b))));",
        ),
        (
            "class A { <sem>{ p() ; ?h:q(?x, b ?c.?d) \"r s\":class(node) ; ?l(?m) } }",
            "class(A import() export() declare() body(alt(sem('p() h:'q(x 'b c.d) 'r s:'class('node) l(m)))));",
        ),
        (
            "class A { <iface>{ [a=b, color=?c.?d, cat=\"\"] } }",
            "class(A import() export() declare() body(alt(iface(a='b color=c.d cat='))));",
        ),
        (
            "type T ! type CAT = { np, \"v p\", class } property color : COLOUR feature num : NUM",
            "type(T any);type(CAT np v p class);property(color COLOUR);feature(num NUM);",
        ),
        (
            "use unicity with ( rank = \"1\" , x, extra=cat ) dims ( syn ) use color with () dims(syn)",
            "use(unicity rank='1 x extra='cat syn);use(color syn);",
        ),
    ];
    for (text, wanted) in TABLE {
        match meaning(rt.alloc(), text)? {
            Some(found) => assert_eq!(rt; found.as_str(), wanted, "{text}"),
            None => assert_eq!(rt; "refused", wanted, "{text}"),
        }
    }
    Ok(())
}

#[test]
fn a_canonical_metagrammar_is_read(rt: HostRuntime) -> Result<(), Fail> {
    let alloc = rt.alloc();
    let written = meaning(alloc, "class A { <syn>{ node [cat=s] } } value A")?;
    let canonical = meaning(alloc, "class A { < syn > { node [ cat = s ] } }\nvalue A\n")?;
    match (written, canonical) {
        (Some(first), Some(second)) => assert_eq!(rt; first.as_str(), second.as_str()),
        _ => assert!(rt; false, "refused"),
    }
    Ok(())
}

#[test]
fn one_node_is_cut_anywhere(rt: HostRuntime) -> Result<(), Fail> {
    let text = "class A { <syn>{ node [cat=s] } } value A";
    // How many bytes are read, and the column of the refusal, 0 where there is none.
    const TABLE: [(usize, u32); 31] = [
        (0, 0),
        (4, 1),
        (5, 6),
        (6, 7),
        (7, 8),
        (8, 9),
        (9, 10),
        (10, 11),
        (11, 12),
        (13, 12),
        (14, 15),
        (15, 16),
        (16, 17),
        (17, 18),
        (20, 18),
        (21, 22),
        (22, 23),
        (23, 24),
        (26, 27),
        (27, 28),
        (28, 29),
        (29, 30),
        (30, 31),
        (31, 32),
        (32, 33),
        (33, 0),
        (34, 0),
        (38, 35),
        (39, 40),
        (40, 41),
        (41, 0),
    ];
    for (count, column) in TABLE {
        let mut symbols = Symbols::new(rt.alloc())?;
        let Some(front) = text.as_bytes().get(..count) else {
            assert!(rt; false, "no front of {count}");
            return Ok(());
        };
        let found = match read(rt.alloc(), front, &mut symbols) {
            Ok(_found) => 0,
            Err(ReadRefusal::Syntax(place)) => place.column,
            Err(_) => 99,
        };
        assert_eq!(rt; found, column, "behind {count} bytes");
    }
    Ok(())
}

/// A place in the first line.
fn at(column: u32) -> Place {
    Place { line: 1, column }
}

#[test]
fn refusals_have_their_places(rt: HostRuntime) -> Result<(), Fail> {
    const TABLE: [(&[u8], ReadRefusal); 20] = [
        (
            b"class A { <syn>{ node [cat=s, cat=s] } }",
            ReadRefusal::Duplicate(Place {
                line: 1,
                column: 31,
            }),
        ),
        (b"c\xff", ReadRefusal::NotUtf8(1)),
        (
            b"class A { # }",
            ReadRefusal::Syntax(Place {
                line: 1,
                column: 11,
            }),
        ),
        (
            b"class node { }",
            ReadRefusal::Syntax(Place { line: 1, column: 7 }),
        ),
        (
            b"value \"A\"",
            ReadRefusal::Syntax(Place { line: 1, column: 7 }),
        ),
        (
            b"class A { B[]; }",
            ReadRefusal::Syntax(Place {
                line: 1,
                column: 16,
            }),
        ),
        (
            b"class A { <syn>{ node (mark=\"anchor\") } }",
            ReadRefusal::Syntax(Place {
                line: 1,
                column: 29,
            }),
        ),
        (
            b"class A { <syn>{ node (mark=head) } }",
            ReadRefusal::Syntax(Place {
                line: 1,
                column: 29,
            }),
        ),
        (
            b"class A { <syn>{ node (cat=s) } }",
            ReadRefusal::Syntax(Place {
                line: 1,
                column: 24,
            }),
        ),
        (
            b"class A { <syn>{ node (color=blue) } }",
            ReadRefusal::Syntax(Place {
                line: 1,
                column: 30,
            }),
        ),
        (
            b"class A { <syn>{ node { ,,, node } } }",
            ReadRefusal::Syntax(Place {
                line: 1,
                column: 25,
            }),
        ),
        (
            b"class A { <syn>{ node (color=red, x=y, color=red) } }",
            ReadRefusal::Duplicate(Place {
                line: 1,
                column: 40,
            }),
        ),
        (
            b"class A { <syn>{ node (\"x\"=y) } }",
            ReadRefusal::Syntax(Place {
                line: 1,
                column: 24,
            }),
        ),
        (
            b"class A { <syn>{ node [top=[a=b,a=c], top=[]] } }",
            ReadRefusal::Duplicate(Place {
                line: 1,
                column: 33,
            }),
        ),
        (
            b"class A { <syn>{ node [top=[a=b], top=[c=d,c=e]] } }",
            ReadRefusal::Duplicate(Place {
                line: 1,
                column: 35,
            }),
        ),
        (
            b"class A { <iface>{ [a=b, c=d, a=b] } }",
            ReadRefusal::Duplicate(Place {
                line: 1,
                column: 31,
            }),
        ),
        (
            b"class A { <iface>{ [a=b, a=b] } } value",
            ReadRefusal::Syntax(Place {
                line: 1,
                column: 40,
            }),
        ),
        (
            b"class A { ?x = node[] }",
            ReadRefusal::Syntax(Place {
                line: 1,
                column: 20,
            }),
        ),
        (
            b"class A { ?x.?y = B[] }",
            ReadRefusal::Syntax(Place {
                line: 1,
                column: 20,
            }),
        ),
        (
            b"type T = { }",
            ReadRefusal::Syntax(Place {
                line: 1,
                column: 12,
            }),
        ),
    ];
    for (text, wanted) in TABLE {
        let mut symbols = Symbols::new(rt.alloc())?;
        match read(rt.alloc(), text, &mut symbols) {
            Ok(_found) => assert!(rt; false, "taken"),
            Err(refusal) => assert_eq!(rt; refusal, wanted),
        }
    }
    Ok(())
}

/// The text of so many classes, each on a line.
fn classes(alloc: Global, count: u32, last: &str) -> Result<String, Fail> {
    let mut text = String::new(alloc);
    for _ in 0..count {
        text.push_str("class A { }\n")?;
    }
    text.push_str(last)?;
    Ok(text)
}

#[test]
fn there_are_4096_classes_at_most(rt: HostRuntime) -> Result<(), Fail> {
    let alloc = rt.alloc();
    let text = classes(alloc, 4096, "value A")?;
    let mut symbols = Symbols::new(alloc)?;
    match read(alloc, text.as_bytes(), &mut symbols) {
        Ok(found) => assert_eq!(rt; found.len(), 4097),
        Err(_) => assert!(rt; false, "refused"),
    }
    let more = classes(alloc, 4096, "value A class A { <iface>{ [a=b, a=b] } }")?;
    match read(alloc, more.as_bytes(), &mut symbols) {
        Ok(_) => assert!(rt; false, "taken"),
        Err(refusal) => {
            let place = Place {
                line: 4097,
                column: 9,
            };
            assert_eq!(rt; refusal, ReadRefusal::TooManyClasses(place));
        }
    }
    Ok(())
}

/// A body with so many braces inside each other.
fn nested(alloc: Global, count: u32) -> Result<String, Fail> {
    let mut text = String::from_str(alloc, "class A ")?;
    for _ in 0..count {
        text.push('{')?;
    }
    for _ in 0..count {
        text.push('}')?;
    }
    Ok(text)
}

#[test]
fn brackets_nest_200_deep(rt: HostRuntime) -> Result<(), Fail> {
    let alloc = rt.alloc();
    let mut symbols = Symbols::new(alloc)?;
    match read(alloc, nested(alloc, 200)?.as_bytes(), &mut symbols) {
        Ok(found) => assert_eq!(rt; found.len(), 1),
        Err(_) => assert!(rt; false, "refused"),
    }
    match read(alloc, nested(alloc, 201)?.as_bytes(), &mut symbols) {
        Ok(_) => assert!(rt; false, "taken"),
        Err(refusal) => assert_eq!(rt; refusal, ReadRefusal::Syntax(at(209))),
    }
    Ok(())
}

#[test]
fn names_get_numbers(rt: HostRuntime) -> Result<(), Fail> {
    let alloc = rt.alloc();
    let mut symbols = Symbols::new(alloc)?;
    match read(alloc, b"value A value \xc3\xa4 value A", &mut symbols) {
        Ok(found) => assert_eq!(rt; found.len(), 3),
        Err(_) => assert!(rt; false, "refused"),
    }
    assert_eq!(rt; symbols.len(), 13);
    assert!(rt; symbols.find("value").is_some());
    assert!(rt; symbols.find("A").is_some());
    assert!(rt; symbols.find("ä").is_some());
    assert!(rt; symbols.find("class").is_none());
    Ok(())
}
