use gr_texts::Writer;
use gr_tokens::Kind;
use std::test::Fail;

#[test]
fn items_stand_on_lines(rt: HostRuntime) -> Result<(), Fail> {
    let mut writer = Writer::new(rt.alloc());
    writer.first("class")?;
    writer.lexeme(Kind::Word, "A-b")?;
    writer.lexeme(Kind::Var, "x")?;
    writer.lexeme(Kind::Punct, "->*")?;
    writer.name("np")?;
    writer.name("a b")?;
    writer.name("")?;
    writer.end()?;
    writer.first("value")?;
    writer.lexeme(Kind::Str, "np")?;
    writer.end()?;
    let text = writer.into_text();
    assert_eq!(rt;
        text.as_str(),
        "class A-b ?x ->* np \"a b\" \"\"\nvalue \"np\"\n"
    );
    Ok(())
}
