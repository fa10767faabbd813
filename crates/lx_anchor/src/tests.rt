ghost use Rattle.std.specs.Prelude.{◌≡◌, length, IfOk};
ghost use Rattle.gr_base.specs.Lists.{Each};
ghost use Rattle.td_tree.specs.Trees.{AreTreeNodes};
ghost use Rattle.td_canon.specs.CanonicalTexts.{IsNamedBag, IsNamedNode, IsNamedTerm};

use super::*;
use gr_base::Items;
use gr_symbols::Symbols;
use gr_terms::{Bag, Literals, Sym, Term};
use lx_lexicon::read_lexicon;
use std::alloc::Global;
use std::test::Fail;
use td_canon::{ClassTrees, TreeSet};
use td_tree::{Tree, TreeNode, TreeNodes};
use tg_grammar::Grammar;
use tg_model::LexicalTree;

/// The names that the trees have.
const NAMES: [&str; 12] = [
    "np", "noun", "verb", "s", "v", "q", "idx", "num", "sg", "pl", "i", "p",
];

/// A table with these names.
fn names(alloc: Global) -> Result<Symbols, Memory> {
    let mut symbols = Symbols::new(alloc)?;
    for name in NAMES {
        symbols.intern(name)?;
    }
    Ok(symbols)
}

/// The value of a text.
fn value(text: &str, symbols: &Symbols) -> Result<Term, Memory>
    ensures { IfOk result (λ value. IsNamedTerm (length symbols.now) value) }
{
    if let Some(number) = text.strip_prefix('?') {
        return match number.parse() {
            Ok(variable) => Ok(Term::Var(variable)),
            Err(_) => Err(Memory),
        };
    }
    match symbols.find(text) {
        Some(name) => Ok(Term::Const(name)),
        None => Err(Memory),
    }
}

/// The bag of pairs such as `cat=s;mark=foot`; other words than pairs say nothing.
fn bag(alloc: Global, pairs: &str, symbols: &Symbols) -> Result<Bag, Memory>
    ensures { IfOk result (λ bag. IsNamedBag (length symbols.now) bag) }
{
    let mut bag = Bag::new(alloc);
    for pair in pairs.split(';') {
        let Some((attribute, text)) = pair.split_once('=') else {
            continue;
        };
        let Some(attribute) = symbols.find(attribute) else {
            return Err(Memory);
        };
        bag.add(attribute, value(text, symbols)?)?;
    }
    Ok(bag)
}

/// The node with these pairs, and behind a slash those of its bottom.
fn node(
    alloc: Global,
    parent: Option<u8>,
    text: &str,
    symbols: &Symbols,
) -> Result<TreeNode, Memory>
    ensures named { IfOk result (λ node. IsNamedNode (length symbols.now) node) }
    ensures parent { IfOk result (λ node. node.parent ≡ parent) }
{
    let (own, bottom) = text.split_once('/').unwrap_or((text, ""));
    Ok(TreeNode {
        parent,
        own: bag(alloc, own, symbols)?,
        top: Bag::new(alloc),
        bot: bag(alloc, bottom, symbols)?,
    })
}

/// The nodes of a root with leaves under it, which have spaces between them.
fn family(alloc: Global, root: &str, leaves: &str, symbols: &Symbols) -> Result<TreeNodes, Memory>
    ensures nodes { IfOk result AreTreeNodes }
    ensures named { IfOk result (λ nodes. Each (IsNamedNode (length symbols.now)) nodes) }
{
    let mut nodes = Items::new(alloc);
    nodes.push(node(alloc, None, root, symbols)?)?;
    for leaf in leaves.split_ascii_whitespace() {
        if nodes.len() >= 24 {
            return Err(Memory);
        }
        nodes.push(node(alloc, Some(0), leaf, symbols)?)?;
    }
    Ok(nodes)
}

/// The class of a name with trees that are a root, leaves and an interface each.
fn class(
    alloc: Global,
    name: &str,
    trees: &[(&str, &str, &str)],
    symbols: &Symbols,
) -> Result<ClassTrees, Memory> {
    let mut set = TreeSet::new(alloc);
    for (root, leaves, interface) in trees {
        let tree = Tree {
            nodes: family(alloc, root, leaves, symbols)?,
            iface: bag(alloc, interface, symbols)?,
            sem: Items::new(alloc),
        };
        set.add(tree, symbols)?;
    }
    Ok(ClassTrees {
        class: number(symbols, name),
        trees: set,
        cut: false,
    })
}

/// A noun, and two trees of verbs: one without a co-anchor and one with the co-anchor `p`.
fn grammar(alloc: Global, symbols: &Symbols) -> Result<Grammar, Memory> {
    let mut classes = Vec::new(alloc);
    let noun = [("cat=np;mark=anchor/idx=?0", "", "i=?0")];
    classes.push(class(alloc, "noun", &noun, symbols)?)?;
    const VERBS: [(&str, &str, &str); 2] = [
        ("cat=s", "cat=v;mark=anchor/num=?7", ""),
        ("cat=s", "cat=v;mark=anchor cat=q;mark=coanchor;name=p", ""),
    ];
    classes.push(class(alloc, "verb", &VERBS, symbols)?)?;
    match Grammar::check(alloc, classes) {
        Ok(grammar) => Ok(grammar),
        Err(_) => Err(Memory),
    }
}

/// The number of a text, or one that no text has.
fn number(symbols: &Symbols, text: &str) -> Sym {
    symbols.find(text).unwrap_or(Sym(4_294_967_295))
}

/// The text of a number.
fn text(symbols: &Symbols, name: Sym) -> &str {
    if (name.0 as usize) < symbols.len() {
        symbols.text(name)
    } else {
        "none"
    }
}

/// Writes a term.
fn put_term(alloc: Global, line: &mut String, term: Term, symbols: &Symbols) -> Result<(), Memory> {
    match term {
        Term::Const(name) => line.push_str(text(symbols, name))?,
        Term::Var(variable) => line.push_str(format!(in alloc; "?{variable}")?.as_str())?,
    }
    Ok(())
}

/// Writes a bag.
fn put_bag(alloc: Global, line: &mut String, bag: &Bag, symbols: &Symbols) -> Result<(), Memory> {
    for place in 0..bag.len() {
        let (attribute, term) = *bag.at(place);
        line.push_str(format!(in alloc; "{}=", text(symbols, attribute))?.as_str())?;
        put_term(alloc, line, term, symbols)?;
        line.push_str(";")?;
    }
    Ok(())
}

/// Writes the predicates of literals with their handles.
fn put_literals(
    alloc: Global,
    line: &mut String,
    literals: &Literals,
    symbols: &Symbols,
) -> Result<(), Memory> {
    for literal in literals.as_slice() {
        line.push_str(" ")?;
        put_term(alloc, line, literal.handle, symbols)?;
        line.push_str(":")?;
        put_term(alloc, line, literal.pred, symbols)?;
        for argument in literal.args.as_slice() {
            line.push_str(",")?;
            put_term(alloc, line, *argument, symbols)?;
        }
    }
    Ok(())
}

/// Writes the number of the entry, the class, the number of the tree, the lemmas, the nodes with their
/// bottoms, the interface and the literals.
fn put_tree(
    alloc: Global,
    line: &mut String,
    lexical: &LexicalTree,
    symbols: &Symbols,
) -> Result<(), Memory> {
    let head = format!(in alloc;
        "{} {} {} {}",
        lexical.entry,
        text(symbols, lexical.class),
        lexical.number,
        text(symbols, lexical.lemma)
    )?;
    line.push_str(head.as_str())?;
    for (leaf, lemma) in lexical.coanchors.as_slice() {
        line.push_str(format!(in alloc; " {leaf}={}", text(symbols, *lemma))?.as_str())?;
    }
    for node in lexical.tree.nodes.as_slice() {
        line.push_str(" (")?;
        put_bag(alloc, line, &node.own, symbols)?;
        line.push_str("/")?;
        put_bag(alloc, line, &node.bot, symbols)?;
        line.push_str(")")?;
    }
    line.push_str(" ")?;
    put_bag(alloc, line, &lexical.tree.iface, symbols)?;
    put_literals(alloc, line, &lexical.tree.sem, symbols)?;
    line.push_str("\n")?;
    Ok(())
}

/// The lexical trees of the grammar and the entries, a line each, or the refusal.
fn anchored(alloc: Global, entries: &str) -> Result<String, Memory> {
    let mut symbols = names(alloc)?;
    let grammar = grammar(alloc, &symbols)?;
    if !has_named_marks(&grammar) || entries.len() > 1_048_576 {
        return Err(Memory);
    }
    let Ok(lexicon) = read_lexicon(alloc, entries.as_bytes(), &mut symbols) else {
        return Err(Memory);
    };
    match anchor_all(alloc, &grammar, &lexicon) {
        Ok(trees) => {
            let mut lines = String::new(alloc);
            for lexical in trees.as_slice() {
                put_tree(alloc, &mut lines, lexical, &symbols)?;
            }
            Ok(lines)
        }
        Err(AnchorRefusal::NoLiteral { lemma, class, tree }) => Ok(format!(in alloc;
            "no literal: {} {} {tree}",
            text(&symbols, lemma),
            text(&symbols, class)
        )?),
        Err(AnchorRefusal::Memory) => Err(Memory),
    }
}

#[test]
fn interfaces_and_features_of_the_anchor_are_joined(rt: HostRuntime) -> Result<(), Fail> {
    let alloc = rt.alloc();
    const CASES: [(&str, &str); 4] = [
        (
            "entry john noun { iface [i=?x] anchor [num=sg] sem { john(?x) } }",
            "0 noun 1 john (cat=np;mark=anchor;/idx=?0;num=sg;) i=?0; ?1:john,?0\n",
        ),
        (
            "entry john noun { iface [i=?x] anchor [idx=p] sem { ?x:john() } }",
            "0 noun 1 john (cat=np;mark=anchor;/idx=p;) i=p; p:john\n",
        ),
        (
            "entry john noun { iface [i=p] anchor [idx=q] sem { john() } }",
            "",
        ),
        ("entry john elsewhere { sem { john() } }", ""),
    ];
    for (entries, wanted) in CASES {
        let found = anchored(alloc, entries)?;
        assert_eq!(rt; found.as_str(), wanted, "{entries}");
    }
    Ok(())
}

#[test]
fn co_anchors_are_the_same_set_of_names(rt: HostRuntime) -> Result<(), Fail> {
    let alloc = rt.alloc();
    let entries = "entry look verb { coanchor p = up sem { look() } }
        entry gaze verb { anchor [num=pl] sem { gaze() } }
        entry call verb { coanchor p = up coanchor i = on sem { call() } }";
    let wanted =
        "0 verb 1 look 2=up (cat=s;/) (cat=v;mark=anchor;/) (cat=q;mark=coanchor;name=p;/)  ?0:look\n1 verb 2 gaze (cat=s;/) (cat=v;mark=anchor;/num=pl;)  ?0:gaze\n";
    let found = anchored(alloc, entries)?;
    assert_eq!(rt; found.as_str(), wanted);
    Ok(())
}

#[test]
fn the_first_lexical_tree_without_a_literal_is_refused(rt: HostRuntime) -> Result<(), Fail> {
    let alloc = rt.alloc();
    const CASES: [(&str, &str); 2] = [
        ("entry mary noun { }", "no literal: mary noun 1"),
        (
            "entry a noun { iface [i=p] anchor [idx=q] } entry b verb { } entry c noun { }",
            "no literal: b verb 2",
        ),
    ];
    for (entries, wanted) in CASES {
        let found = anchored(alloc, entries)?;
        assert_eq!(rt; found.as_str(), wanted, "{entries}");
    }
    Ok(())
}
