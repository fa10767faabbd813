//! Runs over files and an output in memory.
ghost use Rattle.std.specs.Prelude.{◌<◌};

use gr_io::{MemoryShelf, MemorySink};
use gr_text::Name;
use rl_top::{Status, run_one};
use std::alloc::{AllocError, Global};
use std::test::Fail;

/// The most bytes of a file.
const BYTE_LIMIT: usize = 1_048_576;

/// What a run answered, what it wrote, and the calls of the shelf and of the sink.
#[derive(Debug, Drop, PartialEq)]
struct Ended {
    status: Status,
    output: Vec<u8>,
    calls: (u64, u64),
}

/// Runs words over a shelf with one file, `m`, and a sink that takes pieces of this length, each
/// failing at the call of this number (0: none).
fn run(
    alloc: Global,
    words: &[&str],
    file: &[u8],
    failing: (u64, u64),
    piece: usize,
) -> Result<Ended, Fail>
    requires { 0 < piece }
{
    let mut names = Vec::new(alloc);
    for word in words {
        names.push(Name::new(alloc, word)?)?;
    }
    let file = (String::from_str(alloc, "m")?, file.to_vec(alloc)?);
    let mut shelf = MemoryShelf::new(vec![in alloc; file]?, vec![in alloc; failing.0]?);
    let mut sink = MemorySink::with_room(alloc, 4_096, piece, vec![in alloc; failing.1]?)?;
    let status = run_one(alloc, names.as_slice(), &mut shelf, &mut sink);
    Ok(Ended {
        status,
        output: sink.bytes,
        calls: (shelf.calls, sink.calls),
    })
}

/// Two red sisters in no order: 5 steps, 2 trees.
const SISTERS: &str =
    "class A declare ?s ?a ?b { <syn>{ node ?s (color=black)[cat=s]; node ?a (color=red)[cat=a]; node ?b (color=red)[cat=b]; ?s -> ?a; ?s -> ?b } }";

#[test]
fn classes_become_their_trees(rt: HostRuntime) -> Result<(), Fail> {
    let alloc = rt.alloc();
    // A metagrammar, and the text between the first line and the last.
    const CASES: [(&str, &str); 6] = [
        ("", ""),
        ("class A { } ", ""),
        (
            "class A { <syn>{ node [cat=s] } } value A",
            "class A\ntree 1 s\ntrees 1\n",
        ),
        // Each valued class once, in the order of the first valuations.
        (
            "class A { <syn>{ node [cat=a] } } class B { <syn>{ node [cat=b] } } value B value A value B",
            "class B\ntree 1 b\ntrees 1\nclass A\ntree 1 a\ntrees 1\n",
        ),
        // One tree for two expansions, and none for a white node.
        (
            "class A { <syn>{ node [cat=s] } | <syn>{ node [cat=s] } } value A",
            "class A\ntree 1 s\ntrees 1\n",
        ),
        (
            "class A { <syn>{ node (color=white)[cat=s] } } value A",
            "class A\ntrees 0\n",
        ),
    ];
    for (file, lines) in CASES {
        let ended = run(alloc, &["compile", "m"], file.as_bytes(), (0, 0), 4_096)?;
        let wanted = format!(in alloc; "grammar 1\n{lines}end\n")?;
        assert_eq!(rt; ended.status, Status::Done, "{file}");
        assert_eq!(rt; ended.output.as_slice(), wanted.as_bytes(), "{file}");
        assert_eq!(rt; ended.calls, (1, 1), "{file}");
    }
    Ok(())
}

#[test]
fn a_budget_cuts_lists(rt: HostRuntime) -> Result<(), Fail> {
    let alloc = rt.alloc();
    const CASES: [(&str, Status, &str); 2] = [
        ("5", Status::Done, "tree 1 s(a b)\ntree 2 s(b a)\ntrees 2\n"),
        ("0", Status::Shortened, "cut 0\n"),
    ];
    let file = format!(in alloc; "{SISTERS} value A")?;
    for (models, status, lines) in CASES {
        let words = ["compile", "--models", models, "m"];
        let ended = run(alloc, &words, file.as_bytes(), (0, 0), 4_096)?;
        let wanted = format!(in alloc; "grammar 1\nclass A\n{lines}end\n")?;
        assert_eq!(rt; ended.status, status, "{models}");
        assert_eq!(rt; ended.output.as_slice(), wanted.as_bytes(), "{models}");
    }
    Ok(())
}

/// Whether the file is refused with this one line.
fn is_refused(alloc: Global, file: &[u8], line: &str) -> Result<bool, Fail> {
    let ended = run(alloc, &["compile", "m"], file, (0, 0), 4_096)?;
    let wanted = format!(in alloc; "refused {line}\n")?;
    Ok(ended.status == Status::Refused && ended.output.as_slice() == wanted.as_bytes())
}

#[test]
fn the_first_refusal_is_one_line(rt: HostRuntime) -> Result<(), Fail> {
    let alloc = rt.alloc();
    const CASES: [(&str, &str); 10] = [
        ("clas", "10 metagrammar 1 1"),
        ("class", "10 metagrammar 1 6"),
        ("value Z", "13 Z"),
        (
            "class A import B[] { } class B import A[] { } value A",
            "14 A B",
        ),
        ("class A { } class A { }", "15 A"),
        ("class A { <syn>{ node ?x } }", "16 A ?x"),
        ("class A export ?x { } value A", "17 A ?x"),
        (
            "class A { <syn>{ node [cat=s, cat=s] } }",
            "18 metagrammar 1 31",
        ),
        // Reading stands before scope, and the first item that has a fault before others.
        (
            "value Z class A { <syn>{ node [cat=s, cat=s] } }",
            "18 metagrammar 1 39",
        ),
        ("class A { } class A { } value Z", "15 A"),
    ];
    for (file, line) in CASES {
        let refused = is_refused(alloc, file.as_bytes(), line)?;
        assert!(rt; refused, "{line}");
    }
    let refused = is_refused(alloc, b"c\xff", "11 metagrammar 1")?;
    assert!(rt; refused);
    Ok(())
}

/// A class of this name whose body has as many literals.
fn literals(alloc: Global, name: &str, count: u32) -> Result<String, AllocError> {
    let mut text = format!(in alloc; "class {name} {{ <sem>{{ ")?;
    for _ in 0..count {
        text.push_str("p() ")?;
    }
    text.push_str("} } ")?;
    Ok(text)
}

/// A class of this name with a node inside a node, and so on.
fn nodes(alloc: Global, name: &str, count: u32) -> Result<String, AllocError> {
    let mut text = format!(in alloc; "class {name} {{ <syn>{{ node")?;
    for _ in 1..count {
        text.push_str("{ node")?;
    }
    for _ in 1..count {
        text.push_str("}")?;
    }
    text.push_str("} } ")?;
    Ok(text)
}

#[test]
fn the_first_class_with_a_fault_is_refused(rt: HostRuntime) -> Result<(), Fail> {
    let alloc = rt.alloc();
    let large = literals(alloc, "L", 4_096)?;
    let wide = nodes(alloc, "N", 25)?;
    let (large, wide) = (large.as_str(), wide.as_str());
    // No class that can be compiled is written before the line.
    let file = format!(in alloc; "{SISTERS} {large} {wide} value A value N value L")?;
    let refused = is_refused(alloc, file.as_bytes(), "20 N")?;
    assert!(rt; refused);
    let file = format!(in alloc; "{SISTERS} {large} {wide} value A value L value N")?;
    let refused = is_refused(alloc, file.as_bytes(), "24 L")?;
    assert!(rt; refused);
    // Scope stands before compiling.
    let file = format!(in alloc; "{large} value L value Z")?;
    let refused = is_refused(alloc, file.as_bytes(), "13 Z")?;
    assert!(rt; refused);
    Ok(())
}

#[test]
fn a_file_has_at_most_a_mebibyte(rt: HostRuntime) -> Result<(), Fail> {
    let alloc = rt.alloc();
    let mut file = vec![in alloc; b' '; BYTE_LIMIT]?;
    let ended = run(alloc, &["compile", "m"], file.as_slice(), (0, 0), 4_096)?;
    assert_eq!(rt; ended.output.as_slice(), b"grammar 1\nend\n".as_slice());
    file.push(b'c')?;
    let refused = is_refused(alloc, file.as_slice(), "12 metagrammar")?;
    assert!(rt; refused);
    Ok(())
}

#[test]
fn words_and_faults_have_their_statuses(rt: HostRuntime) -> Result<(), Fail> {
    let alloc = rt.alloc();
    let file: &[u8] = b"class A { }";
    // Words, the calls at which the shelf and the sink fail, the answer, the output, and the calls.
    const CASES: [(&[&str], (u64, u64), Status, &[u8], (u64, u64)); 8] = [
        (&[], (0, 0), Status::WordsRefused, b"", (0, 0)),
        (&["compile"], (0, 0), Status::WordsRefused, b"", (0, 0)),
        (
            &["compile", "-m"],
            (0, 0),
            Status::WordsRefused,
            b"",
            (0, 0),
        ),
        (
            &["compile", "m", "--models", "50001"],
            (0, 0),
            Status::WordsRefused,
            b"",
            (0, 0),
        ),
        (&["Compile", "m"], (0, 0), Status::WordsRefused, b"", (0, 0)),
        (&["compile", "gone"], (0, 0), Status::ReadFault, b"", (1, 0)),
        (&["compile", "m"], (1, 0), Status::ReadFault, b"", (1, 0)),
        (&["compile", "m"], (0, 2), Status::WriteFault, b"g", (1, 2)),
    ];
    for (words, failing, status, output, calls) in CASES {
        let ended = run(alloc, words, file, failing, 1)?;
        assert_eq!(rt; ended.status, status, "{words:?}");
        assert_eq!(rt; ended.output.as_slice(), output, "{words:?}");
        assert_eq!(rt; ended.calls, calls, "{words:?}");
    }
    Ok(())
}
