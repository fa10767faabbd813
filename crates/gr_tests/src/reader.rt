use gr_reader::brackets::shallow;
use gr_reader::class::Class;
use gr_reader::complaints::{Complaint, Complaints, Fault};
use gr_reader::places::{breaks_off, place_of_token};
use gr_reader::reader::{Reader, Stop};
use gr_symbols::Symbols;
use gr_terms::Sym;
use gr_text::Place;
use gr_tokens::{ReadRefusal, tokens};
use std::test::Fail;

#[test]
fn a_reader_takes_what_it_sees(rt: HostRuntime) -> Result<(), Fail> {
    let bytes = b"class \"np\" ?x-y ->* Foo-1 % end".as_slice();
    let found = tokens(rt.alloc(), bytes)?;
    let mut reader = Reader::between(bytes, &found, 0, found.len());
    assert_eq!(rt; reader.left(), 5);
    assert!(rt; reader.sees(Class::Keyword("class")) && reader.sees(Class::AnyWord));
    assert!(rt; !reader.sees(Class::WordBut(&["value", "class"])));
    assert!(rt; reader.sees(Class::WordAmong("value", &["class"])));
    assert_eq!(rt; reader.take(Class::Sign("class")), Err(Stop::Syntax));
    assert_eq!(rt; reader.take(Class::Keyword("class")), Ok("class"));
    assert!(rt; !reader.sees(Class::AnyWord) && reader.sees(Class::AnyString));
    assert_eq!(rt; reader.take(Class::AnyName), Ok("np"));
    assert_eq!(rt; reader.take(Class::Variable), Ok("x-y"));
    assert!(rt; !reader.skip(Class::Sign("->")) && reader.skip(Class::Sign("->*")));
    assert_eq!(rt; reader.take(Class::WordBut(&["class"])), Ok("Foo-1"));
    assert_eq!(rt; reader.left(), 0);
    assert_eq!(rt; reader.take(Class::AnyWord), Err(Stop::Syntax));
    Ok(())
}

#[test]
fn names_get_their_numbers(rt: HostRuntime) -> Result<(), Fail> {
    let bytes = b"noun \"noun\" ?noun cat".as_slice();
    let found = tokens(rt.alloc(), bytes)?;
    let mut symbols = Symbols::new(rt.alloc())?;
    let mut reader = Reader::between(bytes, &found, 0, found.len());
    assert_eq!(rt;
        reader.take_number(Class::Variable, &mut symbols),
        Err(Stop::Syntax)
    );
    assert_eq!(rt; symbols.len(), 10);
    assert_eq!(rt;
        reader.take_number(Class::AnyWord, &mut symbols),
        Ok(Sym(10))
    );
    assert_eq!(rt;
        reader.take_number(Class::AnyName, &mut symbols),
        Ok(Sym(10))
    );
    assert_eq!(rt;
        reader.take_number(Class::Variable, &mut symbols),
        Ok(Sym(10))
    );
    assert_eq!(rt;
        reader.take_number(Class::AnyName, &mut symbols),
        Ok(Sym(0))
    );
    Ok(())
}

#[test]
fn places_go_by_numbers(rt: HostRuntime) -> Result<(), Fail> {
    let bytes = b"a\n  b c\n % d\n".as_slice();
    let found = tokens(rt.alloc(), bytes)?;
    let table = [(0, 1, 1), (1, 2, 3), (2, 2, 5), (3, 4, 1), (9, 4, 1)];
    for (number, line, column) in table {
        let place = Place { line, column };
        assert_eq!(rt; place_of_token(bytes, &found, number), place);
        assert_eq!(rt;
            breaks_off(bytes, &found, number),
            ReadRefusal::Syntax(place)
        );
    }
    let complaint = Complaint {
        fault: Fault::Duplicate,
        left: 2,
    };
    assert_eq!(rt;
        complaint.refusal(bytes, &found),
        ReadRefusal::Duplicate(Place { line: 2, column: 3 })
    );
    Ok(())
}

#[test]
fn the_first_complaint_is_kept(rt: HostRuntime) -> Result<(), Fail> {
    let mut complaints = Complaints::new();
    assert_eq!(rt; complaints.first(), None);
    let second = Complaint {
        fault: Fault::TooManyClasses,
        left: 7,
    };
    let first = Complaint {
        fault: Fault::Duplicate,
        left: 9,
    };
    complaints.note(second);
    complaints.note(first);
    complaints.note(second);
    assert_eq!(rt; complaints.first(), Some(first));
    Ok(())
}

#[test]
fn brackets_have_a_limit(rt: HostRuntime) -> Result<(), Fail> {
    let mut text = Vec::new(rt.alloc());
    for _ in 0..100u32 {
        text.push(b'{')?;
        text.push(b'[')?;
    }
    assert!(rt; text.len() < 1000);
    let open = tokens(rt.alloc(), text.as_slice())?;
    assert_eq!(rt; shallow(text.as_slice(), &open), 200);
    text.push(b']')?;
    text.push(b'"')?;
    text.push(b'(')?;
    text.push(b'"')?;
    text.push(b'(')?;
    text.push(b'(')?;
    assert!(rt; text.len() < 1000);
    let deep = tokens(rt.alloc(), text.as_slice())?;
    assert_eq!(rt; shallow(text.as_slice(), &deep), 203);
    Ok(())
}
