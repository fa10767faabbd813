//! Texts that are those of trees, and texts that are not.
ghost use Rattle.std.specs.Prelude.{◌≤◌, length};

use gr_symbols::Symbols;
use std::alloc::Global;
use std::test::Fail;
use tg_reader::*;

/// Whether the text is that of a tree, by a table of its own.
fn is_read(alloc: Global, text: &str) -> Result<bool, Memory>
    requires { length text.now ≤ 1048576 }
{
    let mut symbols = Symbols::new(alloc)?;
    let tree = read_tree(alloc, text, &mut symbols)?;
    Ok(tree.is_some())
}

#[test]
fn texts_of_trees_are_read(rt: HostRuntime) -> Result<(), Fail> {
    const TEXTS: [&str; 12] = [
        "-",
        "np",
        "?1",
        "\"two words\"",
        "np{mark=foot,name=n}^[idx=?1]/[idx=?1,num=?2](that{mark=lex} s/[mode=?3](vp^[mode=?3]))",
        "s iface[e=?1] ?2:?3(?1) ?4:agent(?1 ?5)",
        "s a:b()",
        "s iface:p()",
        "s iface[e=?1] iface:p(\"\" x-y ?1)",
        "?1{name=?2}(-/[z=é]) e:\"two words\"(?1 ?3 \"\") e:q()",
        "-(-(-) -)",
        "-(-(-(-(-(-(-(-(-(-(-(-(-(-(-(-(-(-(-(-(-(-(-(-)))))))))))))))))))))))",
    ];
    for text in TEXTS {
        assert!(rt; text.len() <= 1_048_576);
        assert!(rt; is_read(rt.alloc(), text)?, "{text}");
    }
    Ok(())
}

#[test]
fn other_texts_are_not(rt: HostRuntime) -> Result<(), Fail> {
    const TEXTS: [&str; 33] = [
        "",
        "np ",
        "?2",
        "?0",
        "?01",
        "?9999999999",
        "\"np\"",
        "\"np",
        "s[a=b]",
        "s^[]",
        "s{}",
        "s()",
        "s^[b=x,a=x]",
        "s^[a=x,a=x]",
        "s^[a=x,a=y]",
        "s/[a=x]^[b=x]",
        "s{color=red}",
        "s{cat=x}",
        "-{cat=x}",
        "s{mark=head}",
        "s{mark=?1}",
        "s{\"a\"=x}",
        "s(a  b)",
        "s(a b",
        "s a:b( )",
        "s a:b(x y) ",
        "s  a:b()",
        "s a:b() iface[x=y]",
        "s:b()",
        "x-",
        "\"a\\b\"",
        "s^[a=?2,b=?1]",
        "-(-(-(-(-(-(-(-(-(-(-(-(-(-(-(-(-(-(-(-(-(-(-(-(-))))))))))))))))))))))))",
    ];
    for text in TEXTS {
        assert!(rt; text.len() <= 1_048_576);
        assert!(rt; !is_read(rt.alloc(), text)?, "{text}");
    }
    Ok(())
}

#[test]
fn names_keep_their_numbers(rt: HostRuntime) -> Result<(), Fail> {
    let alloc = rt.alloc();
    let mut symbols = Symbols::new(alloc)?;
    let first = read_tree(alloc, "s^[num=sg]", &mut symbols)?;
    assert!(rt; first.is_some());
    let number = symbols.find("sg");
    let second = read_tree(alloc, "sg/[num=s]", &mut symbols)?;
    assert!(rt; second.is_some());
    assert_eq!(rt; symbols.find("sg"), number);
    assert_eq!(rt; symbols.len(), 13);
    Ok(())
}
