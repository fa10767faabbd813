//! Whole texts and texts that break off, with their places.
ghost use Rattle.std.specs.Prelude.{◌≡◌, ◌≤◌, length};

use gr_text::Place;
use std::alloc::Global;
use std::process::Abort;
use std::test::Fail;
use tg_syntax::*;

/// The text that `compile` writes for a small grammar.
const SMALL: &[u8] = b"grammar 1
class propN
tree 1 np{mark=anchor}/[idx=?1] iface[i=?1]
trees 1
class commonN
tree 1 np/[idx=?1,num=?2](the{mark=lex} n{mark=anchor}^[idx=?1]/[idx=?1,num=?2]) iface[i=?1]
trees 1
class intransV
tree 1 s(np{mark=subst}^[idx=?1,num=?2] v{mark=anchor}/[num=?2]) iface[e=?3,i=?1]
trees 1
class transV
tree 1 s(np{mark=subst}^[idx=?1,num=?2] v{mark=anchor}/[num=?2] np{mark=subst}^[idx=?3]) iface[e=?4,i=?1,j=?3]
trees 1
class adjN
tree 1 n/[idx=?1](adj{mark=anchor} n{mark=foot}^[idx=?1]) iface[i=?1]
trees 1
end
";

/// Fails the test where the bytes don't break off at this place.
fn breaks_at(rt: &impl Abort, bytes: &[u8], line: u32, column: u32)
    requires { length bytes.now ≤ 1048576 }
{
    assert_eq!(rt; check_syntax(bytes), Err(Place { line, column }));
}

/// Fails the test where the line of a tree that begins so doesn't break off at this column.
fn tree_breaks_at(rt: &impl Abort, alloc: Global, tree: &str, column: u32) -> Result<(), Fail> {
    let mut text = String::from_str(alloc, "grammar 1\nclass a\ntree 1 ")?;
    text.push_str(tree)?;
    let bytes = text.as_bytes();
    assert!(rt; bytes.len() <= 1_048_576);
    breaks_at(rt, bytes, 3, column);
    Ok(())
}

#[test]
fn a_whole_text_is_read(rt: HostRuntime) {
    assert_eq!(rt; check_syntax(SMALL), Ok(()));
    assert_eq!(rt; check_syntax(b"grammar 1\nend\n"), Ok(()));
}

#[test]
fn a_text_cut_anywhere_breaks_off_at_its_end(rt: HostRuntime) {
    let mut line: u32 = 1;
    let mut column: u32 = 1;
    for cut in 0..SMALL.len() {
        breaks_at(&rt, &SMALL[..cut], line, column);
        if SMALL[cut] == b'\n' {
            line = line.saturating_add(1);
            column = 1;
        } else {
            column = column.saturating_add(1);
        }
    }
}

#[test]
fn names_that_break_the_rule_are_refused_at_their_first_byte(rt: HostRuntime) -> Result<(), Fail> {
    const TABLE: [(&str, u32); 16] = [
        ("n{cat=", 10),
        ("n{cat;", 10),
        ("n{cat-=", 10),
        ("n{cat-", 14),
        ("n{cat", 13),
        ("n{cat-x=a}", 18),
        ("n{a=b,color=c", 14),
        ("n{mark=x}", 15),
        ("n{mark=x", 16),
        ("n{mark=x-}", 15),
        ("n{mark=?01", 15),
        ("n{mark=?0", 17),
        ("n{mark=\"anchor\"}", 24),
        ("n{mark=\"x\"}", 15),
        ("n{mark=\"x\n", 17),
        ("n^[cat=a]", 17),
    ];
    for (tree, column) in TABLE {
        tree_breaks_at(&rt, rt.alloc(), tree, column)?;
    }
    Ok(())
}

#[test]
fn other_texts_break_off_where_none_goes_on(rt: HostRuntime) -> Result<(), Fail> {
    const TABLE: [(&str, u32); 13] = [
        ("n iface[a=b] ", 21),
        ("n ifac[", 14),
        ("n iface(", 15),
        ("n iface:p(a b)", 22),
        ("n()", 10),
        ("n{}", 10),
        ("n[a=b]", 9),
        ("n x:p(a  b)", 16),
        ("n x:p()?", 15),
        ("?01", 10),
        ("?1234567890", 18),
        ("a-", 10),
        ("a-\n", 10),
    ];
    for (tree, column) in TABLE {
        tree_breaks_at(&rt, rt.alloc(), tree, column)?;
    }
    Ok(())
}

#[test]
fn lines_break_off_where_none_goes_on(rt: HostRuntime) {
    breaks_at(&rt, b"grammar 2\n", 1, 9);
    breaks_at(&rt, b"grammar 1\nclass a\ntrees 01\n", 3, 8);
    breaks_at(&rt, b"grammar 1\nclass a\ncut 0\nend\nx", 5, 1);
    breaks_at(&rt, b"grammar 1\nclass a\nend\n", 3, 1);
    breaks_at(&rt, b"grammar 1\nclass a-\n", 2, 9);
}

/// The text `count` times, and then the other.
fn repeated(alloc: Global, text: &str, count: usize, other: &str) -> Result<String, Fail> {
    let mut out = String::new(alloc);
    for _ in 0..count {
        out.push_str(text)?;
    }
    out.push_str(other)?;
    Ok(out)
}

#[test]
fn limits_are_part_of_the_grammar(rt: HostRuntime) -> Result<(), Fail> {
    let alloc = rt.alloc();
    const TABLE: [(&str, usize, &str, u32); 8] = [
        ("s(", 199, "s^[a=b]", 413),
        ("s(", 200, "s^[a=b]", 410),
        ("s(", 200, "s{a=b}", 409),
        ("s(", 200, "s(", 409),
        ("a", 254, "-", 262),
        ("a", 253, "-a^", 264),
        ("a", 255, "^", 264),
        ("a", 256, "", 263),
    ];
    for (text, count, other, column) in TABLE {
        let tree = repeated(alloc, text, count, other)?;
        tree_breaks_at(&rt, alloc, tree.as_str(), column)?;
    }
    Ok(())
}
