use gr_symbols::*;
use gr_terms::Sym;
use std::test::Fail;

#[test]
fn texts_keep_their_numbers(rt: HostRuntime) -> Result<(), Fail> {
    const TABLE: [(&str, u32); 10] = [
        ("cat", 0),
        ("coanchor", 4),
        ("", 9),
        ("noun", 10),
        ("Noun", 11),
        ("noun", 10),
        ("nou", 12),
        ("é", 13),
        ("mark", 1),
        ("Noun", 11),
    ];
    let mut symbols = Symbols::new(rt.alloc())?;
    assert_eq!(rt; symbols.len(), 10);
    assert_eq!(rt; symbols.find("noun"), None);
    for (text, number) in TABLE {
        assert_eq!(rt; symbols.intern(text)?, Sym(number), "the number of {text}");
    }
    assert_eq!(rt; symbols.len(), 14);
    for (text, number) in TABLE {
        assert_eq!(rt;
            symbols.find(text),
            Some(Sym(number)),
            "the number of {text}"
        );
        assert!(rt; (number as usize) < symbols.len());
        assert_eq!(rt; symbols.text(Sym(number)), text);
    }
    assert_eq!(rt; symbols.find("noun "), None);
    Ok(())
}
