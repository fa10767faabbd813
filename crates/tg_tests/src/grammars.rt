ghost use Rattle.std.specs.Prelude.{◌≡◌, length, IfOk};
ghost use Rattle.gr_base.specs.Lists.{Each};
ghost use Rattle.td_tree.specs.Trees.{AreTreeNodes};
ghost use Rattle.td_canon.specs.CanonicalTexts.{IsNamedBag, IsNamedNode, IsNamedTerm};

use gr_base::Items;
use gr_symbols::Symbols;
use gr_terms::{Bag, Sym, Term};
use std::alloc::Global;
use std::test::Fail;
use td_canon::{ClassTrees, TreeSet};
use td_tree::{Tree, TreeNode, TreeNodes};
use tg_grammar::*;

/// The names that the trees have.
const NAMES: [&str; 8] = ["adj", "n", "np", "s", "the", "v", "w", "x"];

/// A table with these names.
fn names(alloc: Global) -> Result<Symbols, Memory> {
    let mut symbols = Symbols::new(alloc)?;
    for name in NAMES {
        symbols.intern(name)?;
    }
    Ok(symbols)
}

/// The value of a text.
fn value(text: &str, symbols: &Symbols) -> Result<Term, Memory>
    ensures { IfOk result (λ value. IsNamedTerm (length symbols.now) value) }
{
    if let Some(number) = text.strip_prefix('?') {
        return match number.parse() {
            Ok(variable) => Ok(Term::Var(variable)),
            Err(_) => Err(Memory),
        };
    }
    match symbols.find(text) {
        Some(name) => Ok(Term::Const(name)),
        None => Err(Memory),
    }
}

/// The bag of pairs such as `cat=s;mark=foot`; other words than pairs say nothing.
fn bag(alloc: Global, pairs: &str, symbols: &Symbols) -> Result<Bag, Memory>
    ensures { IfOk result (λ bag. IsNamedBag (length symbols.now) bag) }
{
    let mut bag = Bag::new(alloc);
    for pair in pairs.split(';') {
        let Some((attribute, text)) = pair.split_once('=') else {
            continue;
        };
        let Some(attribute) = symbols.find(attribute) else {
            return Err(Memory);
        };
        bag.add(attribute, value(text, symbols)?)?;
    }
    Ok(bag)
}

/// The node with these pairs.
fn node(
    alloc: Global,
    parent: Option<u8>,
    pairs: &str,
    symbols: &Symbols,
) -> Result<TreeNode, Memory>
    ensures named { IfOk result (λ node. IsNamedNode (length symbols.now) node) }
    ensures parent { IfOk result (λ node. node.parent ≡ parent) }
{
    Ok(TreeNode {
        parent,
        own: bag(alloc, pairs, symbols)?,
        top: Bag::new(alloc),
        bot: Bag::new(alloc),
    })
}

/// The nodes of a root with leaves under it, which have spaces between them.
fn family(alloc: Global, root: &str, leaves: &str, symbols: &Symbols) -> Result<TreeNodes, Memory>
    ensures nodes { IfOk result AreTreeNodes }
    ensures named { IfOk result (λ nodes. Each (IsNamedNode (length symbols.now)) nodes) }
{
    let mut nodes = Items::new(alloc);
    nodes.push(node(alloc, None, root, symbols)?)?;
    for leaf in leaves.split_ascii_whitespace() {
        if nodes.len() >= 24 {
            return Err(Memory);
        }
        nodes.push(node(alloc, Some(0), leaf, symbols)?)?;
    }
    Ok(nodes)
}

/// The nodes of a root with one child, which has one child.
fn chain(alloc: Global, pairs: [&str; 3], symbols: &Symbols) -> Result<TreeNodes, Memory>
    ensures { IfOk result AreTreeNodes }
{
    let [root, child, leaf] = pairs;
    let mut nodes = Items::new(alloc);
    nodes.push(node(alloc, None, root, symbols)?)?;
    nodes.push(node(alloc, Some(0), child, symbols)?)?;
    nodes.push(node(alloc, Some(1), leaf, symbols)?)?;
    Ok(nodes)
}

/// The trees of a class, each a root with leaves.
fn class(
    alloc: Global,
    class: Sym,
    families: &[(&str, &str)],
    symbols: &Symbols,
) -> Result<ClassTrees, Memory> {
    let mut trees = TreeSet::new(alloc);
    for (root, leaves) in families {
        let tree = Tree {
            nodes: family(alloc, root, leaves, symbols)?,
            iface: Bag::new(alloc),
            sem: Items::new(alloc),
        };
        trees.add(tree, symbols)?;
    }
    Ok(ClassTrees {
        class,
        trees,
        cut: false,
    })
}

/// What is wrong first with a tree of these nodes.
fn flaw_of(alloc: Global, nodes: TreeNodes) -> Option<Flaw>
    requires { AreTreeNodes nodes }
{
    first_flaw(&Tree {
        nodes,
        iface: Bag::new(alloc),
        sem: Items::new(alloc),
    })
}

#[test]
fn well_formed_trees_have_no_flaw(rt: HostRuntime) -> Result<(), Fail> {
    let alloc = rt.alloc();
    let symbols = names(alloc)?;
    const CASES: [(&str, &str); 5] = [
        ("cat=np;mark=anchor", ""),
        ("cat=np", "cat=the;mark=lex cat=n;mark=anchor"),
        ("cat=s", "cat=np;mark=subst cat=v;mark=anchor"),
        ("cat=n", "cat=adj;mark=anchor cat=n;mark=foot"),
        ("cat=s;mark=nadj", "cat=v;mark=anchor cat=?1;mark=coanchor"),
    ];
    for (root, leaves) in CASES {
        let found = flaw_of(alloc, family(alloc, root, leaves, &symbols)?);
        assert_eq!(rt; found, None, "{root} {leaves}");
    }
    Ok(())
}

#[test]
fn ill_formed_trees_have_their_first_flaw(rt: HostRuntime) -> Result<(), Fail> {
    let alloc = rt.alloc();
    let symbols = names(alloc)?;
    const CASES: [(&str, &str, Flaw); 15] = [
        ("-", "cat=v;mark=anchor", Flaw::RootCategory),
        ("cat=?1;mark=anchor", "", Flaw::RootCategory),
        ("cat=s", "mark=subst cat=v;mark=anchor", Flaw::SubstCategory),
        ("cat=s", "cat=?1;mark=subst", Flaw::SubstCategory),
        (
            "cat=s",
            "cat=n;mark=foot cat=v;mark=anchor",
            Flaw::FootCategory,
        ),
        ("cat=s", "cat=x cat=?1;mark=foot", Flaw::FootCategory),
        ("cat=s", "", Flaw::AnchorCount),
        (
            "cat=s",
            "cat=v;mark=anchor cat=v;mark=anchor",
            Flaw::AnchorCount,
        ),
        (
            "cat=s",
            "cat=s;mark=foot cat=s;mark=foot cat=v;mark=anchor",
            Flaw::FootCount,
        ),
        ("cat=s;mark=anchor", "cat=w;mark=lex", Flaw::MarkOnInner),
        ("cat=s", "cat=v;mark=anchor cat=x", Flaw::NoWord),
        ("cat=s", "cat=v;mark=anchor cat=x;mark=nadj", Flaw::NoWord),
        ("cat=s", "cat=v;mark=anchor cat=x;mark=?1", Flaw::NoWord),
        ("cat=s", "cat=v;mark=anchor cat=;mark=lex", Flaw::NoWord),
        ("cat=s", "cat=v;mark=anchor cat=?1;mark=lex", Flaw::NoWord),
    ];
    for (root, leaves, flaw) in CASES {
        let found = flaw_of(alloc, family(alloc, root, leaves, &symbols)?);
        assert_eq!(rt; found, Some(flaw), "{root} {leaves}");
    }
    Ok(())
}

#[test]
fn an_anchor_has_no_children(rt: HostRuntime) -> Result<(), Fail> {
    let alloc = rt.alloc();
    let symbols = names(alloc)?;
    let nodes = chain(
        alloc,
        ["cat=s", "cat=v;mark=anchor", "cat=w;mark=lex"],
        &symbols,
    )?;
    assert_eq!(rt; flaw_of(alloc, nodes), Some(Flaw::MarkOnInner));
    Ok(())
}

#[test]
fn the_first_class_and_then_the_first_tree_are_refused(rt: HostRuntime) -> Result<(), Fail> {
    let alloc = rt.alloc();
    let symbols = names(alloc)?;
    let mut classes = Vec::new(alloc);
    classes.push(class(alloc, Sym(10), &[("cat=np;mark=anchor", "")], &symbols)?)?;
    const TREES: [(&str, &str); 3] = [
        ("cat=v", ""),
        ("cat=s", "cat=v;mark=anchor cat=x"),
        ("cat=np;mark=anchor", ""),
    ];
    classes.push(class(alloc, Sym(12), &TREES, &symbols)?)?;
    classes.push(class(alloc, Sym(11), &[("-", "")], &symbols)?)?;
    let wanted = GrammarRefusal::Shape {
        code: 36,
        class: Sym(12),
        tree: 2,
    };
    match Grammar::check(alloc, classes) {
        Ok(_) => assert!(rt; false),
        Err(refusal) => assert_eq!(rt; refusal, wanted),
    }
    Ok(())
}

/// A grammar of two classes, of the names 12 and 10.
fn two_classes(alloc: Global, symbols: &Symbols) -> Result<Grammar, GrammarRefusal> {
    let mut classes = Vec::new(alloc);
    let trees = [("cat=s", "cat=n;mark=subst cat=v;mark=anchor")];
    if classes
        .push(class(alloc, Sym(12), &trees, symbols)?)
        .is_err()
    {
        return Err(GrammarRefusal::Memory);
    }
    let adjective = [("cat=n", "cat=n;mark=foot cat=adj;mark=anchor")];
    if classes
        .push(class(alloc, Sym(10), &adjective, symbols)?)
        .is_err()
    {
        return Err(GrammarRefusal::Memory);
    }
    Grammar::check(alloc, classes)
}

#[test]
fn a_class_is_found_by_its_name(rt: HostRuntime) -> Result<(), Fail> {
    let alloc = rt.alloc();
    let symbols = names(alloc)?;
    let Ok(grammar) = two_classes(alloc, &symbols) else {
        assert!(rt; false);
        return Ok(());
    };
    assert_eq!(rt; grammar.len(), 2);
    assert!(rt; 1 < grammar.len());
    assert_eq!(rt; grammar.at(1).class, Sym(10));
    assert!(rt; grammar.class(Sym(11)).is_none());
    match grammar.class(Sym(12)) {
        Some(found) => assert_eq!(rt; found.class, Sym(12)),
        None => assert!(rt; false),
    }
    Ok(())
}

#[test]
fn a_well_formed_tree_tells_its_anchor_its_foot_and_its_category(
    rt: HostRuntime,
) -> Result<(), Fail> {
    let alloc = rt.alloc();
    let symbols = names(alloc)?;
    let Ok(grammar) = two_classes(alloc, &symbols) else {
        assert!(rt; false);
        return Ok(());
    };
    let cases = [(12, 2, None, 13), (10, 2, Some(1), 11)];
    for (name, the_anchor, the_foot, category) in cases {
        match tree_facts(&grammar, Sym(name)) {
            Some(found) => assert_eq!(rt; found, (the_anchor, the_foot, Sym(category))),
            None => assert!(rt; false),
        }
    }
    Ok(())
}

/// The anchor, the foot and the category of the first tree of a class.
fn tree_facts(grammar: &Grammar, name: Sym) -> Option<(u8, Option<u8>, Sym)> {
    let class = grammar.class(name)?;
    if class.trees.len() == 0 {
        return None;
    }
    let tree = class.trees.get(0);
    Some((anchor(tree), foot(tree), root_category(tree)))
}

/// What a node with these pairs is, and whether its marks are names.
fn kind_told(alloc: Global, pairs: &str, symbols: &Symbols) -> Result<(Kind, bool), Memory> {
    let mut nodes = Items::new(alloc);
    nodes.push(node(alloc, None, pairs, symbols)?)?;
    let tree = Tree {
        nodes,
        iface: Bag::new(alloc),
        sem: Items::new(alloc),
    };
    let named = marks_are_named(&tree);
    match tree.nodes.as_slice() {
        [root] => Ok((kind_of(root), named)),
        _ => Err(Memory),
    }
}

#[test]
fn a_variable_category_makes_a_site(rt: HostRuntime) -> Result<(), Fail> {
    let alloc = rt.alloc();
    let symbols = names(alloc)?;
    const CASES: [(&str, Kind, bool); 7] = [
        ("cat=?1", Kind::Site, true),
        ("cat=np;mark=anchor", Kind::Site, true),
        ("cat=np;mark=?1", Kind::Site, false),
        ("mark=anchor", Kind::Plain, true),
        ("cat=np;mark=nadj", Kind::Plain, true),
        ("cat=?1;mark=subst", Kind::Substitution, true),
        ("mark=subst", Kind::Substitution, true),
    ];
    for (pairs, kind, named) in CASES {
        assert_eq!(rt;
            kind_told(alloc, pairs, &symbols)?,
            (kind, named),
            "{pairs}"
        );
    }
    Ok(())
}
