use gr_symbols::Symbols;
use gr_terms::{Literal, Term};
use gr_text::Place;
use gr_tokens::ReadRefusal;
use sm_input::*;
use std::alloc::{AllocError, Global};
use std::test::Fail;

/// The inputs of a text.
fn read(alloc: Global, text: &str, symbols: &mut Symbols) -> Result<Vec<Input>, ReadRefusal> {
    let bytes = text.as_bytes();
    if bytes.len() > 1_048_576 {
        return Err(ReadRefusal::Memory);
    }
    read_inputs(alloc, bytes, symbols)
}

/// The refusal of a text, if it is refused.
fn refusal(alloc: Global, text: &str) -> Option<ReadRefusal> {
    let Ok(mut symbols) = Symbols::new(alloc) else {
        return None;
    };
    match read(alloc, text, &mut symbols) {
        Ok(_) => None,
        Err(refusal) => Some(refusal),
    }
}

/// A place on the first line.
fn column(column: u32) -> Place {
    Place { line: 1, column }
}

/// Whether the term is the name.
fn is_name(symbols: &Symbols, term: Term, name: &str) -> bool {
    match term {
        Term::Const(sym) => symbols.find(name) == Some(sym),
        Term::Var(_) => false,
    }
}

/// Whether the literal has this handle, this predicate and this one argument.
fn is_literal(symbols: &Symbols, literal: &Literal, handle: &str, pred: &str, arg: &str) -> bool {
    let args = literal.args.as_slice();
    is_name(symbols, literal.handle, handle)
        && is_name(symbols, literal.pred, pred)
        && args.len() == 1
        && args.iter().all(|term| is_name(symbols, *term, arg))
}

/// A text so many times.
fn repeated(alloc: Global, text: &str, times: u32) -> Result<String, AllocError> {
    let mut whole = String::new(alloc);
    for _ in 0..times {
        whole.push_str(text)?;
    }
    Ok(whole)
}

#[test]
fn repeated_literal(rt: HostRuntime) -> Result<(), Fail> {
    let mut symbols = Symbols::new(rt.alloc())?;
    let text = "input j { john(j) e:sleep(j) john(j) }";
    let inputs = read(rt.alloc(), text, &mut symbols)?;
    assert_eq!(rt; inputs.len(), 1);
    let literals = inputs[0].literals.as_slice();
    assert_eq!(rt; literals.len(), 2);
    assert!(rt; is_literal(&symbols, &literals[0], "\n1", "john", "j"));
    assert!(rt; is_literal(&symbols, &literals[1], "e", "sleep", "j"));
    assert_eq!(rt; symbols.find("j"), Some(inputs[0].name));
    Ok(())
}

#[test]
fn literals_are_equal_as_written(rt: HostRuntime) -> Result<(), Fail> {
    let mut symbols = Symbols::new(rt.alloc())?;
    let text = "input a { p(a,); h:p(a) \"p\"(\"a\"); p(a); \"h\":p(a) \"\":p(a) }";
    assert_eq!(rt;
        refusal(rt.alloc(), text),
        Some(ReadRefusal::Syntax(column(15)))
    );
    let text = "input a { p(a); h:p(a) \"p\"(\"a\"); p(b) \"h\":p(a) \"\":p(a) p(a b) p(a, b) }";
    let inputs = read(rt.alloc(), text, &mut symbols)?;
    assert_eq!(rt; inputs.len(), 1);
    let literals = inputs[0].literals.as_slice();
    assert_eq!(rt; literals.len(), 5);
    assert!(rt; is_literal(&symbols, &literals[0], "\n1", "p", "a"));
    assert!(rt; is_literal(&symbols, &literals[1], "h", "p", "a"));
    assert!(rt; is_literal(&symbols, &literals[2], "\n3", "p", "b"));
    assert!(rt; is_literal(&symbols, &literals[3], "", "p", "a"));
    assert!(rt; is_name(&symbols, literals[4].handle, "\n5"));
    Ok(())
}

#[test]
fn inputs_have_names_and_features(rt: HostRuntime) -> Result<(), Fail> {
    let mut symbols = Symbols::new(rt.alloc())?;
    let text = "input a { p(x) } input a [num=sg, cat=\"s\"] { } input b [] { p(x) }";
    let inputs = read(rt.alloc(), text, &mut symbols)?;
    assert_eq!(rt; inputs.len(), 3);
    assert_eq!(rt; inputs[0].name, inputs[1].name);
    assert_eq!(rt; inputs[1].start.len(), 2);
    assert_eq!(rt; inputs[2].start.len(), 0);
    let (first, last) = (inputs[0].literals.as_slice(), inputs[2].literals.as_slice());
    assert!(rt; first.len() == 1 && last.len() == 1);
    assert!(rt; is_literal(&symbols, &first[0], "\n1", "p", "x"));
    assert!(rt; is_literal(&symbols, &last[0], "\n1", "p", "x"));
    Ok(())
}

#[test]
fn refused_inputs(rt: HostRuntime) -> Result<(), Fail> {
    const TABLE: [(&str, ReadRefusal); 9] = [
        (
            "input a { john(?x) }",
            ReadRefusal::Variable(Place {
                line: 1,
                column: 16,
            }),
        ),
        (
            "input a [x=?y] { ?z(a) }",
            ReadRefusal::Variable(Place {
                line: 1,
                column: 12,
            }),
        ),
        (
            "input a [x=b,x=?y] { }",
            ReadRefusal::Duplicate(Place {
                line: 1,
                column: 14,
            }),
        ),
        (
            "input a [x=?y,x=b] { }",
            ReadRefusal::Variable(Place {
                line: 1,
                column: 12,
            }),
        ),
        (
            "input a [x=?y,x=b] { ",
            ReadRefusal::Syntax(Place {
                line: 1,
                column: 22,
            }),
        ),
        (
            "input \"a\" { }",
            ReadRefusal::Syntax(Place { line: 1, column: 7 }),
        ),
        (
            "input a { p(b) ] }",
            ReadRefusal::Syntax(Place {
                line: 1,
                column: 16,
            }),
        ),
        (
            "input a { p } \u{7f}",
            ReadRefusal::Syntax(Place {
                line: 1,
                column: 15,
            }),
        ),
        (
            "input a { p }",
            ReadRefusal::Syntax(Place {
                line: 1,
                column: 13,
            }),
        ),
    ];
    for (text, expected) in TABLE {
        assert_eq!(rt; refusal(rt.alloc(), text), Some(expected));
    }
    Ok(())
}

/// An input at the file's begin with so many literals, all different, and something behind.
fn many(alloc: Global, head: &str, count: u32, tail: &str) -> Result<String, AllocError> {
    let mut text = String::new(alloc);
    text.push_str(head)?;
    for number in 1..=count {
        text.push_str(" p(a")?;
        text.push_str(itoa::Buffer::new().format(number))?;
        text.push_str(")")?;
    }
    text.push_str(tail)?;
    Ok(text)
}

#[test]
fn limit_of_literals(rt: HostRuntime) -> Result<(), Fail> {
    let alloc = rt.alloc();
    let at_word = Some(ReadRefusal::InputLiterals(column(1)));
    let whole = many(alloc, "input a {", 24, " p(a1) }")?;
    assert_eq!(rt; refusal(alloc, whole.as_str()), None);
    let more = many(alloc, "input a {", 25, " }")?;
    assert_eq!(rt; refusal(alloc, more.as_str()), at_word);
    let again = many(alloc, "input a [x=?y, x=?z] {", 24, " :p(?x) }")?;
    assert_eq!(rt;
        refusal(alloc, again.as_str()),
        Some(ReadRefusal::Syntax(column(183)))
    );
    let variable = many(alloc, "input a [x=?y] {", 24, " p(?x) }")?;
    assert_eq!(rt; refusal(alloc, variable.as_str()), at_word);
    let same = many(alloc, "input a {", 24, " p(a24) p(a1) }")?;
    assert_eq!(rt; refusal(alloc, same.as_str()), None);
    Ok(())
}

#[test]
fn limit_of_inputs(rt: HostRuntime) -> Result<(), Fail> {
    let alloc = rt.alloc();
    let whole = repeated(alloc, "input a { }\n", 4096)?;
    assert_eq!(rt; refusal(alloc, whole.as_str()), None);
    let mut more = repeated(alloc, "input a { }\n", 4096)?;
    more.push_str("input a { p(?x) }\ninput b { }")?;
    let place = Place {
        line: 4097,
        column: 1,
    };
    let too_many = Some(ReadRefusal::TooManyInputs(place));
    assert_eq!(rt; refusal(alloc, more.as_str()), too_many);
    Ok(())
}
