use gr_base::Memory;
use gr_symbols::Symbols;
use gr_terms::Sym;
use mg_compile::{CompileRefusal, compile_class};
use mg_reader::read_metagrammar;
use mg_scope::resolve;
use std::alloc::Global;
use std::test::Fail;
use td_canon::ClassTrees;

/// The number of the name `A`, which stands behind the word `class`.
const FIRST: Sym = Sym(11);

/// A node with two kids whose order is left open.
const SISTERS: &str =
    "class A declare ?r ?a ?b { <syn>{ node ?r [cat=s]; node ?a [cat=a]; node ?b [cat=b]; ?r -> ?a; ?r -> ?b } } value A";

/// A first expansion that clashes, and two others, of which the last has the tree of the one before.
const CLASH: &str =
    "class A declare ?x { ?x = a; ?x = b | <syn>{ node [cat=s] } | <syn>{ node [cat=s] } } value A";

/// A first expansion of one node, and one of 25.
const BROAD: &str =
    "class A { <syn>{ node } | <syn>{ node { node node node node node node node node node node node node node node node node node node node node node node node node } } } value A";

/// The one of 25 nodes alone, and with a clash.
const BROAD_ALONE: &str =
    "class A { <syn>{ node { node node node node node node node node node node node node node node node node node node node node node node node node } } } value A";

const BROAD_CLASH: &str =
    "class A declare ?x { ?x = a; ?x = b; <syn>{ node { node node node node node node node node node node node node node node node node node node node node node node node node } } } value A";

/// More than 4,096 calls.
const LARGE: &str =
    "class A { B[]; B[]; B[]; B[]; B[]; B[]; B[]; B[] } class B { C[]; C[]; C[]; C[]; C[]; C[]; C[]; C[] } class C { D[]; D[]; D[]; D[]; D[]; D[]; D[]; D[] } class D { E[]; E[]; E[]; E[]; E[]; E[]; E[]; E[] } class E { } value A";

/// What the first valued class of the text gives; want of memory stands for a text that is refused.
fn compiled(alloc: Global, text: &str, budget: u32) -> Result<ClassTrees, CompileRefusal> {
    let bytes = text.as_bytes();
    if bytes.len() > 1_048_576 {
        return Err(CompileRefusal::Memory);
    }
    let mut symbols = Symbols::new(alloc)?;
    let Ok(read) = read_metagrammar(alloc, bytes, &mut symbols) else {
        return Err(CompileRefusal::Memory);
    };
    let Ok(resolved) = resolve(alloc, read) else {
        return Err(CompileRefusal::Memory);
    };
    let Some(_class) = resolved.class(FIRST) else {
        return Err(CompileRefusal::Memory);
    };
    compile_class(alloc, &resolved, &symbols, FIRST, budget)
}

/// The texts of the trees, each with a line end.
fn listed(alloc: Global, found: &ClassTrees) -> Result<String, Memory> {
    let mut text = String::new(alloc);
    for at in 0..found.trees.len() {
        text.push_str(found.trees.text(at))?;
        text.push('\n')?;
    }
    Ok(text)
}

#[test]
fn a_class_has_its_trees(rt: HostRuntime) -> Result<(), Fail> {
    // A text, a budget, the texts of the trees, and whether the class is cut.
    const CASES: [(&str, u32, &str, bool); 9] = [
        (SISTERS, 0, "", true),
        (SISTERS, 5, "s(a b)\ns(b a)\n", false),
        (SISTERS, 50_000, "s(a b)\ns(b a)\n", false),
        (CLASH, 1, "", true),
        (CLASH, 3, "s\n", true),
        (CLASH, 4, "s\n", true),
        (CLASH, 5, "s\n", false),
        (BROAD, 1, "", true),
        (BROAD_CLASH, 1, "", false),
    ];
    for (text, budget, wanted, cut) in CASES {
        match compiled(rt.alloc(), text, budget) {
            Ok(found) => {
                let texts = listed(rt.alloc(), &found)?;
                assert_eq!(rt; texts.as_str(), wanted, "{text}");
                assert_eq!(rt; found.cut, cut, "{text}");
            }
            Err(_) => assert!(rt; false, "a class is refused"),
        }
    }
    Ok(())
}

#[test]
fn one_unit_too_few_cuts(rt: HostRuntime) -> Result<(), Fail> {
    match compiled(rt.alloc(), SISTERS, 4) {
        Ok(found) => {
            assert!(rt; found.cut);
            assert!(rt; found.trees.len() < 2);
        }
        Err(_) => assert!(rt; false, "a class is refused"),
    }
    Ok(())
}

#[test]
fn a_class_is_refused(rt: HostRuntime) -> Result<(), Fail> {
    const CASES: [(&str, u32, CompileRefusal); 4] = [
        (BROAD_ALONE, 1, CompileRefusal::TooManyNodes(FIRST)),
        (BROAD, 2, CompileRefusal::TooManyNodes(FIRST)),
        (BROAD, 50_000, CompileRefusal::TooManyNodes(FIRST)),
        (LARGE, 1, CompileRefusal::TooLarge(FIRST)),
    ];
    for (text, budget, wanted) in CASES {
        match compiled(rt.alloc(), text, budget) {
            Ok(_) => assert!(rt; false, "a class is compiled"),
            Err(refusal) => assert_eq!(rt; refusal, wanted, "{text}"),
        }
    }
    Ok(())
}
