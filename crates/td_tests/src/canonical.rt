ghost use Rattle.std.specs.Prelude.{◌≡◌, length, IfOk};
ghost use Rattle.gr_base.specs.Lists.{Each};
ghost use Rattle.td_tree.specs.Trees.{AreTreeNodes};
ghost use Rattle.td_canon.specs.CanonicalTexts.{IsNamedBag, IsNamedLiteral, IsNamedNode, IsNamedTerm, IsNamedTree};

use gr_base::Items;
use gr_symbols::Symbols;
use gr_terms::{Bag, Literal, Literals, Term, Terms};
use std::alloc::Global;
use std::test::Fail;
use td_canon::*;
use td_tree::{Tree, TreeNode, TreeNodes};

/// The names that the trees have.
const NAMES: [&str; 24] = [
    "a",
    "aa",
    "adj",
    "b",
    "c",
    "e",
    "i",
    "idx",
    "k",
    "n",
    "np",
    "num",
    "p",
    "q",
    "s",
    "the",
    "v",
    "x",
    "two words",
    "é",
    "j",
    "sg",
    "lex-x",
    "z",
];

/// A table with these names.
fn names(alloc: Global) -> Result<Symbols, Memory> {
    let mut symbols = Symbols::new(alloc)?;
    for name in NAMES {
        symbols.intern(name)?;
    }
    Ok(symbols)
}

/// The value of a text.
fn value(text: &str, symbols: &Symbols) -> Result<Term, Memory>
    ensures { IfOk result (λ value. IsNamedTerm (length symbols.now) value) }
{
    if let Some(number) = text.strip_prefix('?') {
        return match number.parse() {
            Ok(variable) => Ok(Term::Var(variable)),
            Err(_) => Err(Memory),
        };
    }
    match symbols.find(text) {
        Some(name) => Ok(Term::Const(name)),
        None => Err(Memory),
    }
}

/// The bag of pairs such as `num=sg;idx=?5`.
fn bag(alloc: Global, pairs: &str, symbols: &Symbols) -> Result<Bag, Memory>
    ensures { IfOk result (λ bag. IsNamedBag (length symbols.now) bag) }
{
    let mut bag = Bag::new(alloc);
    for pair in pairs.split(';') {
        let Some((attribute, text)) = pair.split_once('=') else {
            continue;
        };
        let Some(attribute) = symbols.find(attribute) else {
            return Err(Memory);
        };
        bag.add(attribute, value(text, symbols)?)?;
    }
    Ok(bag)
}

/// The node of its own list, its top and its bottom, with `|` between them.
fn node(
    alloc: Global,
    parent: Option<u8>,
    lists: &str,
    symbols: &Symbols,
) -> Result<TreeNode, Memory>
    ensures named { IfOk result (λ node. IsNamedNode (length symbols.now) node) }
    ensures parent { IfOk result (λ node. node.parent ≡ parent) }
{
    let Some((own, others)) = lists.split_once('|') else {
        return Err(Memory);
    };
    let Some((top, bot)) = others.split_once('|') else {
        return Err(Memory);
    };
    Ok(TreeNode {
        parent,
        own: bag(alloc, own, symbols)?,
        top: bag(alloc, top, symbols)?,
        bot: bag(alloc, bot, symbols)?,
    })
}

/// The nodes of a root with leaves under it, which have spaces between them.
fn family(alloc: Global, root: &str, leaves: &str, symbols: &Symbols) -> Result<TreeNodes, Memory>
    ensures nodes { IfOk result AreTreeNodes }
    ensures named { IfOk result (λ nodes. Each (IsNamedNode (length symbols.now)) nodes) }
{
    let mut nodes = Items::new(alloc);
    nodes.push(node(alloc, None, root, symbols)?)?;
    for leaf in leaves.split_ascii_whitespace() {
        if nodes.len() >= 24 {
            return Err(Memory);
        }
        nodes.push(node(alloc, Some(0), leaf, symbols)?)?;
    }
    Ok(nodes)
}

/// The literal of a handle, a predicate and arguments, with commas between them.
fn literal(alloc: Global, words: &str, symbols: &Symbols) -> Result<Literal, Memory>
    ensures { IfOk result (λ literal. IsNamedLiteral (length symbols.now) literal) }
{
    let Some((handle, others)) = words.split_once(',') else {
        return Err(Memory);
    };
    let (pred, arguments) = match others.split_once(',') {
        Some((pred, arguments)) => (pred, Some(arguments)),
        None => (others, None),
    };
    Ok(Literal {
        handle: value(handle, symbols)?,
        pred: value(pred, symbols)?,
        args: terms(alloc, arguments, symbols)?,
    })
}

/// The values of texts with commas between them, if there are any.
fn terms(alloc: Global, texts: Option<&str>, symbols: &Symbols) -> Result<Terms, Memory>
    ensures { IfOk result (λ terms. Each (IsNamedTerm (length symbols.now)) terms) }
{
    let mut terms = Items::new(alloc);
    let Some(texts) = texts else {
        return Ok(terms);
    };
    for text in texts.split(',') {
        terms.push(value(text, symbols)?)?;
    }
    Ok(terms)
}

/// The literals with `/` between them.
fn literals(alloc: Global, words: &str, symbols: &Symbols) -> Result<Literals, Memory>
    ensures { IfOk result (λ literals. Each (IsNamedLiteral (length symbols.now)) literals) }
{
    let mut literals = Items::new(alloc);
    for one in words.split('/') {
        if !one.is_empty() {
            literals.push(literal(alloc, one, symbols)?)?;
        }
    }
    Ok(literals)
}

/// A tree whose root has leaves under it.
fn tree(
    alloc: Global,
    nodes: (&str, &str),
    iface: &str,
    words: &str,
    symbols: &Symbols,
) -> Result<Tree, Memory>
    ensures nodes { IfOk result (λ tree. AreTreeNodes tree.nodes) }
    ensures named { IfOk result (λ tree. IsNamedTree (length symbols.now) tree) }
{
    Ok(Tree {
        nodes: family(alloc, nodes.0, nodes.1, symbols)?,
        iface: bag(alloc, iface, symbols)?,
        sem: literals(alloc, words, symbols)?,
    })
}

#[test]
fn trees_have_their_texts(rt: HostRuntime) -> Result<(), Fail> {
    let alloc = rt.alloc();
    let symbols = names(alloc)?;
    // The root, its leaves, the interface, the literals, and the text.
    const CASES: [(&str, &str, &str, &str, &str); 6] = [
        ("cat=s||", "", "", "", "s"),
        ("cat=s|k=v|", "cat=b|| cat=c||", "", "", "s^[k=v](b c)"),
        ("cat=n|k=n|", "", "", "", "n^[k=n]"),
        ("cat=a||", "", "", "?7,p,x", "a ?1:p(x)"),
        (
            "cat=np||num=?3;idx=?5",
            "mark=lex;cat=the|| mark=anchor;cat=n|idx=?5|idx=?5;num=?3",
            "i=?5",
            "",
            "np/[idx=?1,num=?2](the{mark=lex} n{mark=anchor}^[idx=?1]/[idx=?1,num=?2]) iface[i=?1]",
        ),
        (
            "name=?9;cat=?8||",
            "||z=é",
            "",
            "e,two words,?8,?1,/e,q",
            "?1{name=?2}(-/[z=é]) e:\"two words\"(?1 ?3 \"\") e:q()",
        ),
    ];
    for (root, leaves, iface, words, text) in CASES {
        let tree = tree(alloc, (root, leaves), iface, words, &symbols)?;
        let written = canonical_text(alloc, &tree, &symbols)?;
        assert_eq!(rt; written.as_str(), text);
    }
    Ok(())
}

#[test]
fn a_set_has_each_text_once_in_byte_order(rt: HostRuntime) -> Result<(), Fail> {
    let alloc = rt.alloc();
    let symbols = names(alloc)?;
    let mut set = TreeSet::new(alloc);
    const CASES: [(&str, bool); 6] = [
        ("cat=b||", true),
        ("cat=a||", true),
        ("cat=?4||", true),
        ("cat=b||", false),
        ("cat=aa||", true),
        ("cat=?2||", false),
    ];
    for (root, fresh) in CASES {
        let one = tree(alloc, (root, ""), "", "", &symbols)?;
        assert_eq!(rt; set.add(one, &symbols)?, fresh, "{root}");
    }
    assert_eq!(rt; set.len(), 4);
    for (at, text) in ["?1", "a", "aa", "b"].into_iter().enumerate() {
        assert!(rt; at < set.len());
        assert_eq!(rt; set.text(at), text);
    }
    Ok(())
}
