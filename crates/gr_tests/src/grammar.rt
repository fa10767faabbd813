use gr_grammar::balanced;
use gr_grammar::brackets::{Turn, depth_behind};
use std::test::Fail;

#[test]
fn texts_have_their_value(rt: HostRuntime) -> Result<(), Fail> {
    assert_eq!(rt; balanced::read(b""), Ok(false));
    assert_eq!(rt; balanced::read(b"()(())"), Ok(false));
    assert_eq!(rt; balanced::read(b"()((x)y)"), Ok(true));
    Ok(())
}

#[test]
fn the_place_is_the_first(rt: HostRuntime) -> Result<(), Fail> {
    assert_eq!(rt; balanced::read(b"(a"), Err(2));
    assert_eq!(rt; balanced::read(b"a)b"), Err(1));
    assert_eq!(rt; balanced::read(b"(A)"), Err(1));
    assert_eq!(rt; balanced::read(b"((a)b c"), Err(5));
    Ok(())
}

#[test]
fn brackets_have_a_limit(rt: HostRuntime) -> Result<(), Fail> {
    assert_eq!(rt; depth_behind(199, Turn::Opens, 200), Some(200));
    assert_eq!(rt; depth_behind(200, Turn::Opens, 200), None);
    assert_eq!(rt; depth_behind(0, Turn::Closes, 200), Some(0));
    assert_eq!(rt; depth_behind(7, Turn::Neither, 0), Some(7));
    let open = [40u8; 201];
    assert_eq!(rt; balanced::read(&open[..200]), Err(200));
    assert_eq!(rt; balanced::read(&open), Err(200));
    Ok(())
}
