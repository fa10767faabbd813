//! Grammar text of small lists of classes, and what is read of it.
ghost use Rattle.std.specs.Prelude.{◌≡◌};

use gr_symbols::Symbols;
use gr_terms::{FOOT, MARK, Sym};
use gr_text::{Cursor, Place};
use std::alloc::Global;
use std::test::Fail;
use td_canon::{ClassTrees, TreeSet};
use tg_text::*;

/// The most bytes of a text.
const TEXT_LIMIT: usize = 1_048_576;

/// A grammar whose lines are all as they are written.
const SAMPLE: &str = "grammar 1
class propN
tree 1 np{mark=anchor}/[idx=?1] iface[i=?1]
trees 1
class commonN
tree 1 np/[idx=?1,num=?2](the{mark=lex} n{mark=anchor}^[idx=?1]/[idx=?1,num=?2]) iface[i=?1]
trees 1
class intransV
tree 1 s(np{mark=subst}^[idx=?1,num=?2] v{mark=anchor}/[num=?2]) iface[e=?3,i=?1]
trees 1
class transV
tree 1 s(np{mark=subst}^[idx=?1,num=?2] v{mark=anchor}/[num=?2] np{mark=subst}^[idx=?3]) iface[e=?4,i=?1,j=?3]
trees 1
class adjN
tree 1 n/[idx=?1](adj{mark=anchor} n{mark=foot}^[idx=?1]) iface[i=?1]
trees 1
end
";

/// A class without trees.
fn bare(alloc: Global, class: Sym, cut: bool) -> ClassTrees
    ensures { result.class ≡ class }
{
    ClassTrees {
        class,
        trees: TreeSet::new(alloc),
        cut,
    }
}

/// What is written of the classes that were read, or the refusal.
fn reread(alloc: Global, bytes: &[u8]) -> Result<String, Memory> {
    if bytes.len() > TEXT_LIMIT {
        return Ok(String::from_str(alloc, "too long")?);
    }
    let mut symbols = Symbols::new(alloc)?;
    match read_grammar(alloc, bytes, &mut symbols) {
        Ok(classes) => write_grammar(alloc, classes.as_slice(), &symbols),
        Err(refusal) => Ok(format!(in alloc; "{refusal:?}")?),
    }
}

/// The place behind a text.
fn end_of(bytes: &[u8]) -> Place {
    if bytes.len() > TEXT_LIMIT {
        return Place { line: 0, column: 0 };
    }
    let mut cursor = Cursor::new(bytes);
    for _at in 0..bytes.len() {
        let _byte = cursor.next();
    }
    cursor.place()
}

#[test]
fn classes_stand_in_order_with_their_closing_words(rt: HostRuntime) -> Result<(), Fail> {
    let alloc = rt.alloc();
    let symbols = Symbols::new(alloc)?;
    let classes = [bare(alloc, MARK, false), bare(alloc, FOOT, true)];
    let text = write_grammar(alloc, &classes, &symbols)?;
    let wanted = "grammar 1\nclass mark\ntrees 0\nclass foot\ncut 0\nend\n";
    assert_eq!(rt; text.as_str(), wanted);
    Ok(())
}

#[test]
fn no_class_is_two_lines(rt: HostRuntime) -> Result<(), Fail> {
    let alloc = rt.alloc();
    let symbols = Symbols::new(alloc)?;
    assert_eq!(rt;
        write_grammar(alloc, &[], &symbols)?.as_str(),
        "grammar 1\nend\n"
    );
    Ok(())
}

#[test]
fn what_is_read_is_written_as_it_was(rt: HostRuntime) -> Result<(), Fail> {
    const TEXTS: [&str; 5] = [
        SAMPLE,
        "grammar 1\nend\n",
        "grammar 1\nclass a-b\ntrees 0\nclass é\ncut 0\nend\n",
        "grammar 1\nclass c\ntree 1 a\ntree 2 a(b c)\ntree 3 a(b)\ntree 4 b\ncut 4\nclass d\ntree 1 a\ntrees 1\nend\n",
        "grammar 1\nclass cat\ntree 1 -{mark=nadj,x=\"\"}/[cat=\"a b\"] iface[y=?1] ?1:p() q:iface(?1 ?2)\ntrees 1\nend\n",
    ];
    for text in TEXTS {
        assert_eq!(rt; reread(rt.alloc(), text.as_bytes())?.as_str(), text);
    }
    Ok(())
}

#[test]
fn refusals_come_in_their_order(rt: HostRuntime) -> Result<(), Fail> {
    const TABLE: [(&[u8], &str); 15] = [
        (b"grammar 2\n\xff", "NotUtf8(10)"),
        (b"", "Syntax(Place { line: 1, column: 1 })"),
        (b"grammar 2\nwhatever", "Version(2)"),
        (b"grammar 0\n", "Version(0)"),
        (b"grammar 999999999\n", "Version(999999999)"),
        (
            b"grammar 1000000000\n",
            "Syntax(Place { line: 1, column: 10 })",
        ),
        (b"grammar 02\n", "Syntax(Place { line: 1, column: 9 })"),
        (b"grammar 2", "Syntax(Place { line: 1, column: 9 })"),
        (
            b"grammar 1\nend\nend\n",
            "Syntax(Place { line: 3, column: 1 })",
        ),
        (
            b"grammar 1\nclass c\ntree 2 a\ntrees 9\n",
            "Syntax(Place { line: 5, column: 1 })",
        ),
        (
            b"grammar 1\nclass c\ntree 1 a{cat=b}\ntrees 1\nend\n",
            "Syntax(Place { line: 3, column: 10 })",
        ),
        (
            b"grammar 1\nclass c\ntree 1 a{mark=b}\ntrees 1\nend\n",
            "Syntax(Place { line: 3, column: 15 })",
        ),
        (
            b"grammar 1\nclass c\ntree 1 a/[x=?1]^[y=b]\n",
            "Syntax(Place { line: 3, column: 16 })",
        ),
        (
            b"grammar 1\r\nend\n",
            "Syntax(Place { line: 1, column: 10 })",
        ),
        (
            b"grammar 1\nclass \"c\"\ntrees 0\nend\n",
            "Syntax(Place { line: 2, column: 7 })",
        ),
    ];
    for (text, wanted) in TABLE {
        assert_eq!(rt; reread(rt.alloc(), text)?.as_str(), wanted);
    }
    Ok(())
}

#[test]
fn the_first_line_that_may_not_stand_there_is_refused(rt: HostRuntime) -> Result<(), Fail> {
    const TABLE: [(&str, usize); 20] = [
        ("class c\ntree 2 a\ntrees 1\nend\n", 3),
        ("class c\ntree 0 a\ntrees 1\nend\n", 3),
        ("class c\ntree 1 a\ntree 1 b\ntrees 2\nend\n", 4),
        ("class c\ntree 1 a\ntree 3 b\ntrees 2\nend\n", 4),
        ("class c\ntree 1 b\ntree 2 a\ntrees 2\nend\n", 4),
        ("class c\ntree 1 a\ntree 2 a\ntrees 2\nend\n", 4),
        ("class c\ntree 1 a\ntree 2 b\ntree 3 a\ntrees 3\nend\n", 5),
        ("class c\ntrees 1\nend\n", 3),
        ("class c\ncut 1\nend\n", 3),
        ("class c\ntree 1 a\ntrees 0\nend\n", 4),
        ("class c\ntree 1 a\ncut 2\nend\n", 4),
        (
            "class c\ntrees 0\nclass d\ntrees 0\nclass c\ntrees 0\nend\n",
            6,
        ),
        ("class c\ntrees 0\nclass c\ntrees 1\nend\n", 4),
        ("class c\ntree 1 a{y=b,x=c}\ntrees 1\nend\n", 3),
        ("class c\ntree 1 a/[x=b,x=c]\ntrees 1\nend\n", 3),
        ("class c\ntree 1 a{mark=\"anchor\"}\ntrees 1\nend\n", 3),
        ("class c\ntree 1 \"a\"\ntrees 1\nend\n", 3),
        ("class c\ntree 1 a/[x=?2]\ntrees 1\nend\n", 3),
        ("class c\ntree 1 a/[x=?0]\ntrees 1\nend\n", 3),
        (
            "class c\ntree 1 a(b b b b b b b b b b b b b b b b b b b b b b b)\ntree 2 a(b b b b b b b b b b b b b b b b b b b b b b b b)\ntrees 2\nend\n",
            4,
        ),
    ];
    let alloc = rt.alloc();
    for (lines, number) in TABLE {
        let text = format!(in alloc; "grammar 1\n{lines}")?;
        let wanted = format!(in alloc; "NotCanonical({number})")?;
        assert_eq!(rt;
            reread(alloc, text.as_bytes())?.as_str(),
            wanted.as_str(),
            "{lines}"
        );
    }
    Ok(())
}

#[test]
fn a_text_that_is_cut_anywhere_is_refused_at_its_end(rt: HostRuntime) -> Result<(), Fail> {
    let alloc = rt.alloc();
    let bytes = SAMPLE.as_bytes();
    for len in 0..bytes.len() {
        let front = &bytes[..len];
        let Place { line, column } = end_of(front);
        let wanted = format!(in alloc; "Syntax(Place {{ line: {line}, column: {column} }})")?;
        assert_eq!(rt; reread(alloc, front)?.as_str(), wanted.as_str());
    }
    Ok(())
}
