use gr_text::Place;
use gr_tokens::{Kind, ReadRefusal, Token, tokens};
use std::alloc::{AllocError, Global};
use std::test::Fail;

/// The answer of [`tokens`], where the text isn't too long for it.
fn answer(alloc: Global, bytes: &[u8]) -> Result<Vec<Token>, ReadRefusal> {
    if bytes.len() > 1_048_576 {
        return Err(ReadRefusal::Memory);
    }
    tokens(alloc, bytes)
}

/// The letter that stands for a kind in a table.
fn letter(kind: Kind) -> u8 {
    match kind {
        Kind::Word => b'w',
        Kind::Str => b's',
        Kind::Var => b'v',
        Kind::Punct => b'p',
    }
}

/// The tokens, each as the letter of its kind and its bytes, with blanks between.
fn shown(alloc: Global, bytes: &[u8], found: &[Token]) -> Result<Vec<u8>, AllocError> {
    let mut text = Vec::new(alloc);
    for token in found {
        if !text.is_empty() {
            text.push(b' ')?;
        }
        text.push(letter(token.kind))?;
        for (i, b) in bytes.iter().enumerate() {
            if token.from <= i && i < token.to {
                text.push(*b)?;
            }
        }
    }
    Ok(text)
}

#[test]
fn texts_are_cut(rt: HostRuntime) -> Result<(), Fail> {
    let alloc = rt.alloc();
    // A text, and its tokens.
    const CASES: [(&str, &str); 19] = [
        ("", ""),
        (" \t\r\n", ""),
        ("x->y", "wx p-> wy"),
        ("x-y", "wx-y"),
        ("x-y-1->*z", "wx-y-1 p->* wz"),
        ("->+->*->->", "p->+ p->* p-> p->"),
        (">>+>>*>>>", "p>>+ p>>* p>> p>"),
        ("...+...+.....", "p...+ p...+ p... p. p."),
        (",,,,,", "p,,, p, p,"),
        ("<;:=|!()[]{}", "p< p; p: p= p| p! p( p) p[ p] p{ p}"),
        ("?x?y-z.?w", "v?x v?y-z p. v?w"),
        ("\"a%b\"%c\n\"\"", "s\"a%b\" s\"\""),
        ("\"-> ?x\"\"y\"", "s\"-> ?x\" s\"y\""),
        ("a%", "wa"),
        ("a%b\"\\?", "wa"),
        ("a%b\rc\nd", "wa wd"),
        ("%%\n%\nx", "wx"),
        ("ä_9Z-ß", "wä_9Z-ß"),
        ("12", "w12"),
    ];
    for (text, wanted) in CASES {
        let bytes = text.as_bytes();
        match answer(alloc, bytes) {
            Ok(found) => {
                let text = shown(alloc, bytes, found.as_slice())?;
                assert_eq!(rt; text.as_slice(), wanted.as_bytes(), "{wanted}");
            }
            Err(_refusal) => assert!(rt; false, "refused: {text}"),
        }
    }
    Ok(())
}

#[test]
fn faults_have_their_first_place(rt: HostRuntime) {
    // A text, and the place of its fault.
    const CASES: [(&str, u32, u32); 17] = [
        ("?", 1, 1),
        ("x ? y", 1, 3),
        ("x-", 1, 2),
        ("x--y", 1, 2),
        ("-", 1, 1),
        ("a\n\r\n -y", 3, 2),
        ("ä#", 1, 3),
        ("\"abc", 1, 1),
        ("a \"b\nc\"", 1, 3),
        ("\"\\\"", 1, 1),
        ("\"\x7f\"", 1, 1),
        ("x * \"y", 1, 3),
        ("%\"\n\"", 2, 1),
        ("..+", 1, 3),
        (">+", 1, 2),
        ("\0", 1, 1),
        ("/", 1, 1),
    ];
    for (text, line, column) in CASES {
        match answer(rt.alloc(), text.as_bytes()) {
            Ok(_found) => assert!(rt; false, "taken: {text}"),
            Err(refusal) => {
                let wanted = ReadRefusal::Syntax(Place { line, column });
                assert_eq!(rt; refusal, wanted, "{text}");
            }
        }
    }
}

#[test]
fn places_and_spans(rt: HostRuntime) -> Result<(), Fail> {
    let text = "ab ?c\r\n\t\"d\" %\n>>+";
    let wanted = [
        (Kind::Word, 0, 2, 1, 1),
        (Kind::Var, 3, 5, 1, 4),
        (Kind::Str, 8, 11, 2, 2),
        (Kind::Punct, 14, 17, 3, 1),
    ];
    let Ok(found) = answer(rt.alloc(), text.as_bytes()) else {
        assert!(rt; false, "refused");
        return Ok(());
    };
    assert_eq!(rt; found.len(), wanted.len());
    for (token, (kind, from, to, line, column)) in found.iter().zip(wanted) {
        let place = Place { line, column };
        let wanted = Token {
            kind,
            from,
            to,
            place,
        };
        assert_eq!(rt; *token, wanted);
    }
    Ok(())
}

#[test]
fn other_bytes_are_refused_first(rt: HostRuntime) {
    // A text, and how many bytes of it are UTF-8.
    const CASES: [(&[u8], usize); 5] = [
        (b"\xff", 0),
        (b"x \xc3", 2),
        (b"? \xe2\x82 x", 2),
        (b"%\xc3\xa4\x80", 3),
        (b"\"\xed\xa0\x80\"", 1),
    ];
    for (text, front) in CASES {
        match answer(rt.alloc(), text) {
            Ok(_found) => assert!(rt; false, "taken at {front}"),
            Err(refusal) => assert_eq!(rt; refusal, ReadRefusal::NotUtf8(front)),
        }
    }
}

#[test]
fn tokens_have_255_bytes(rt: HostRuntime) -> Result<(), Fail> {
    // What stands before and behind the letters, the most letters, and the place of the token.
    const CASES: [(&str, &str, usize, u32); 5] = [
        ("", "", 255, 1),
        ("  ?", " x", 255, 3),
        ("a \"", "\"", 255, 3),
        ("b-", "", 253, 1),
        ("%", "", 256, 1),
    ];
    for (before, behind, most, column) in CASES {
        for more in [0, 1] {
            let mut text = String::from_str(rt.alloc(), before)?;
            for _ in 0..most + more {
                text.push('x')?;
            }
            text.push_str(behind)?;
            let wanted = more == 0 || before == "%";
            match answer(rt.alloc(), text.as_bytes()) {
                Ok(_found) => assert!(rt; wanted, "taken at {column}"),
                Err(refusal) => {
                    assert!(rt; !wanted, "refused at {column}");
                    let place = Place { line: 1, column };
                    assert_eq!(rt; refusal, ReadRefusal::Syntax(place));
                }
            }
        }
    }
    Ok(())
}
