//! Worked cases, and a comparison with the slow way on many small ones.
ghost use Rattle.std.specs.Prelude.{IfOk};
ghost use Rattle.sm_input.specs.Inputs.{IsGround};
ghost use Rattle.tg_model.specs.LexicalTrees.{IsLexical, AreLexical};

use super::*;
use gr_base::Items;
use gr_symbols::Symbols;
use gr_terms::{ANCHOR, Bag, CAT, LEX, Literal, Literals, MARK, Sym, Term, Terms};
use sm_input::laws::inputs_are_ground;
use sm_input::{Input, read_inputs};
use std::alloc::Global;
use std::test::Fail;
use td_tree::{Tree, TreeNode};
use tg_grammar::{Mark, first_flaw, has_mark};
use tg_model::{Instance, Instances, LexicalTree, LexicalTrees, Places};

/// The term of a text: `?` and a number, or a name.
fn term(text: &str, symbols: &mut Symbols) -> Result<Term, Memory> {
    if let Some(number) = text.strip_prefix('?') {
        return match number.parse() {
            Ok(variable) => Ok(Term::Var(variable)),
            Err(_) => Err(Memory),
        };
    }
    Ok(Term::Const(symbols.intern(text)?))
}

/// The literal of a text: its handle, its predicate and its arguments, with spaces between them.
fn literal(alloc: Global, text: &str, symbols: &mut Symbols) -> Result<Literal, Memory> {
    let mut terms = Vec::new(alloc);
    for word in text.split_ascii_whitespace() {
        terms.push(term(word, symbols)?)?;
    }
    let mut args: Terms = Items::new(alloc);
    for place in 2..terms.len() {
        args.push(terms[place])?;
    }
    if terms.len() < 2 {
        return Err(Memory);
    }
    Ok(Literal {
        handle: terms[0],
        pred: terms[1],
        args,
    })
}

/// The literals of a text, with `;` between them.
fn literals(alloc: Global, text: &str, symbols: &mut Symbols) -> Result<Literals, Memory> {
    let mut literals = Items::new(alloc);
    for part in text.split(';') {
        literals.push(literal(alloc, part, symbols)?)?;
    }
    Ok(literals)
}

/// The lexical tree with these literals whose tree is a node alone.
fn lexical(alloc: Global, sem: Literals) -> Result<LexicalTree, Memory>
    ensures { IfOk result IsLexical }
{
    let mut own = Bag::new(alloc);
    own.add(CAT, Term::Const(LEX))?;
    own.add(MARK, Term::Const(ANCHOR))?;
    let root = TreeNode {
        parent: None,
        own,
        top: Bag::new(alloc),
        bot: Bag::new(alloc),
    };
    if sem.len() == 0 || has_mark(&root, Mark::Coanchor) || !has_mark(&root, Mark::Anchor) {
        return Err(Memory);
    }
    let mut nodes = Items::new(alloc);
    nodes.push(root)?;
    let tree = Tree {
        nodes,
        iface: Bag::new(alloc),
        sem,
    };
    match first_flaw(&tree) {
        Some(_) => Err(Memory),
        None => Ok(LexicalTree {
            entry: 0,
            class: LEX,
            number: 1,
            lemma: LEX,
            coanchors: Items::new(alloc),
            tree,
        }),
    }
}

/// The lexical trees with the literals of these texts.
fn lexical_trees(
    alloc: Global,
    texts: &[&str],
    symbols: &mut Symbols,
) -> Result<LexicalTrees, Memory>
    ensures { IfOk result AreLexical }
{
    let mut trees = Items::new(alloc);
    for text in texts {
        let sem = literals(alloc, text, symbols)?;
        let next = lexical(alloc, sem)?;
        let _pushed = trees.push(next)?;
    }
    Ok(trees)
}

/// The first input of a text.
fn input(alloc: Global, text: &str, symbols: &mut Symbols) -> Result<Input, Memory>
    ensures { IfOk result IsGround }
{
    let bytes = text.as_bytes();
    if bytes.len() > 1_048_576 {
        return Err(Memory);
    }
    inputs_are_ground();
    match read_inputs(alloc, bytes, symbols) {
        Ok(inputs) => match inputs.into_iter().next() {
            Some(input) => Ok(input),
            None => Err(Memory),
        },
        Err(_) => Err(Memory),
    }
}

/// Writes instances: the number of each lexical tree, with its places.
fn push_instances(alloc: Global, told: &mut String, instances: &[Instance]) -> Result<(), Memory> {
    for instance in instances {
        let number = format!(in alloc; " {}:", instance.tree)?;
        told.push_str(number.as_str())?;
        push_places(alloc, told, instance.places.as_slice())?;
    }
    Ok(())
}

fn push_places(alloc: Global, told: &mut String, places: &[u8]) -> Result<(), Memory> {
    for place in places {
        let number = format!(in alloc; "{place},")?;
        told.push_str(number.as_str())?;
    }
    Ok(())
}

/// What is selected, as text.
fn told(alloc: Global, trees: &LexicalTrees, input: &Input) -> Result<String, Memory>
    requires lexical { AreLexical trees.now }
    requires ground { IsGround input.now }
{
    let mut told = String::new(alloc);
    match select(alloc, trees, input) {
        Ok(selection) => push_instances(alloc, &mut told, selection.instances.as_slice())?,
        Err(SelectRefusal::Over) => told.push_str(" over")?,
        Err(SelectRefusal::Memory) => return Err(Memory),
    }
    Ok(told)
}

/// The same for texts.
fn selected(alloc: Global, trees: &[&str], text: &str) -> Result<String, Memory> {
    let mut symbols = Symbols::new(alloc)?;
    let trees = lexical_trees(alloc, trees, &mut symbols)?;
    let input = input(alloc, text, &mut symbols)?;
    told(alloc, &trees, &input)
}

#[test]
fn literals_and_places_are_equated(rt: HostRuntime) -> Result<(), Fail> {
    let alloc = rt.alloc();
    let john = selected(
        alloc,
        &["?0 john ?1", "?0 sleep ?1"],
        "input i { 1:john(j) 2:sleep(j) }",
    )?;
    assert_eq!(rt; john.as_str(), " 0:0, 1:1,");
    // The number of arguments, a handle, and an argument that is a name count.
    let other = selected(
        alloc,
        &["?0 p ?1 ?2", "2 p ?1", "?0 p b", "?0 ?2 ?1"],
        "input i { 1:p(a) 2:p(b) }",
    )?;
    assert_eq!(rt; other.as_str(), " 1:1, 2:1, 3:0, 3:1,");
    // A variable is one name.
    let same = selected(
        alloc,
        &["?0 p ?1;?0 q ?1", "?0 p ?1;?1 q ?2", "?0 p ?0"],
        "input i { h:p(a) h:q(a) a:q(b) c:p(c) }",
    )?;
    assert_eq!(rt; same.as_str(), " 0:0,1, 1:0,2, 2:3,");
    Ok(())
}

#[test]
fn places_are_different(rt: HostRuntime) -> Result<(), Fail> {
    let alloc = rt.alloc();
    let pairs = selected(
        alloc,
        &["?0 p ?1;?2 p ?3"],
        "input i { a:p(x) b:p(y) c:p(z) }",
    )?;
    assert_eq!(rt;
        pairs.as_str(),
        " 0:0,1, 0:0,2, 0:1,0, 0:1,2, 0:2,0, 0:2,1,"
    );
    let alone = selected(alloc, &["?0 p ?1;?0 p ?1"], "input i { a:p(x) }")?;
    assert_eq!(rt; alone.as_str(), "");
    // A literal that is written twice is one place.
    let twice = selected(alloc, &["?0 p ?1"], "input i { a:p(x) b:q(x) a:p(x) }")?;
    assert_eq!(rt; twice.as_str(), " 0:0,");
    Ok(())
}

#[test]
fn too_many_literals_of_a_predicate_cost_no_search(rt: HostRuntime) -> Result<(), Fail> {
    let alloc = rt.alloc();
    let named =
        "?0 p ?1;?0 p ?2;?0 p ?3;?0 p ?4;?0 p ?5;?0 p ?6;?0 p ?7;?0 p ?8;?0 p ?9;?0 p ?10;?0 p ?11;?0 p ?12;?0 p ?13";
    let any = "?0 ?1;?0 ?2;?0 ?3;?0 ?4;?0 ?5;?0 ?6;?0 ?7;?0 ?8;?0 ?9;?0 ?10;?0 ?11;?0 ?12;?0 ?13";
    let text =
        "input i { h:p(a) h:p(b) h:p(c) h:p(d) h:p(e) h:p(f) h:p(g) h:p(i) h:p(j) h:p(k) h:p(l) h:p(m) h:q() h:r() h:s() h:t() h:u() h:v() h:w() h:x() h:y() h:z() h:a() h:b() }";
    let told = selected(alloc, &[named, "?0 q", any, "?0 p m"], text)?;
    assert_eq!(rt; told.as_str(), " 1:12, 3:11,");
    Ok(())
}

/// How many instances so many trees of one literal and then one of another have at 16 places, or
/// `None` where they are too many.
fn counted(alloc: Global, times: u32, last: &str) -> Result<Option<usize>, Memory> {
    let mut symbols = Symbols::new(alloc)?;
    let mut texts = Vec::new(alloc);
    for _ in 0..times {
        texts.push("?0 p ?1")?;
    }
    texts.push(last)?;
    let trees = lexical_trees(alloc, texts.as_slice(), &mut symbols)?;
    let text =
        "input i { 1:p(a) 2:p(a) 3:p(a) 4:p(a) 5:p(a) 6:p(a) 7:p(a) 8:p(a) 1:p(b) 2:p(b) 3:p(b) 4:p(b) 5:p(b) 6:p(b) 7:p(b) 8:p(b) }";
    let input = input(alloc, text, &mut symbols)?;
    match select(alloc, &trees, &input) {
        Ok(selection) => Ok(Some(selection.instances.len())),
        Err(SelectRefusal::Over) => Ok(None),
        Err(SelectRefusal::Memory) => Err(Memory),
    }
}

#[test]
fn there_are_at_most_4096_instances(rt: HostRuntime) -> Result<(), Fail> {
    let alloc = rt.alloc();
    assert_eq!(rt; counted(alloc, 255, "1 p a")?, Some(4_081));
    assert_eq!(rt; counted(alloc, 255, "?0 p ?1")?, Some(4_096));
    assert_eq!(rt; counted(alloc, 256, "?0 q ?1")?, Some(4_096));
    assert_eq!(rt; counted(alloc, 256, "8 p b")?, None);
    Ok(())
}

/// Whether two equations of a term with a name clash, by themselves.
fn clash(one: (Term, Term), other: (Term, Term)) -> bool {
    let ((left, name), (right, own)) = (one, other);
    let differs = match left {
        Term::Const(_) => left != name,
        Term::Var(_) => false,
    };
    differs || (left == right && name != own)
}

/// Adds the equations of a literal with one of the input, unless their numbers of arguments differ.
fn add_equations(
    equations: &mut Vec<(Term, Term)>,
    literal: &Literal,
    other: &Literal,
) -> Result<bool, Memory> {
    if literal.args.len() != other.args.len() {
        return Ok(false);
    }
    equations.push((literal.handle, other.handle))?;
    equations.push((literal.pred, other.pred))?;
    for (own, name) in literal.args.as_slice().iter().zip(other.args.as_slice()) {
        equations.push((*own, *name))?;
    }
    Ok(true)
}

/// Whether no two equations clash.
fn agree(equations: &[(Term, Term)]) -> bool {
    equations
        .iter()
        .all(|one| equations.iter().all(|other| !clash(*one, *other)))
}

/// Whether two literals stand at two places, the slow way: each equation is compared with each.
fn stand(
    alloc: Global,
    literals: (&Literal, &Literal),
    others: (&Literal, &Literal),
) -> Result<bool, Memory> {
    let mut equations = Vec::new(alloc);
    let first = add_equations(&mut equations, literals.0, others.0)?;
    let second = add_equations(&mut equations, literals.1, others.1)?;
    Ok(first && second && agree(equations.as_slice()))
}

/// Writes the instances of a tree of two literals, the slow way: each place is tried with each.
fn push_slowly(
    alloc: Global,
    told: &mut String,
    number: usize,
    sem: &[Literal],
    input: &[Literal],
) -> Result<(), Memory> {
    let [one, two] = sem else {
        return Err(Memory);
    };
    for (p, first) in input.iter().enumerate() {
        for (q, second) in input.iter().enumerate() {
            if p != q && stand(alloc, (one, two), (first, second))? {
                told.push_str(format!(in alloc; " {number}:{p},{q},")?.as_str())?;
            }
        }
    }
    Ok(())
}

/// The literals of which each pair makes a tree.
const LITERALS: [&str; 14] = [
    "?0 p ?1",
    "?1 p ?0",
    "?0 p ?0",
    "?0 p a",
    "b p ?2",
    "?1 q",
    "a q",
    "?0 ?1",
    "?0 ?2 ?1",
    "?1 ?1 ?1",
    "?0 p ?1 ?2",
    "?2 ?0 ?1 ?1",
    "a p b",
    "?3 r ?3",
];

/// Compares what is selected with what is found the slow way, for each pair of literals.
fn is_as_slow(alloc: Global, text: &str) -> Result<bool, Memory> {
    let mut symbols = Symbols::new(alloc)?;
    let mut pairs = Vec::new(alloc);
    for one in LITERALS {
        for two in LITERALS {
            pairs.push(format!(in alloc; "{one};{two}")?)?;
        }
    }
    let mut texts = Vec::new(alloc);
    for pair in &pairs {
        texts.push(pair.as_str())?;
    }
    let trees = lexical_trees(alloc, texts.as_slice(), &mut symbols)?;
    let input = input(alloc, text, &mut symbols)?;
    let mut slowly = String::new(alloc);
    for (number, tree) in trees.as_slice().iter().enumerate() {
        push_slowly(
            alloc,
            &mut slowly,
            number,
            tree.tree.sem.as_slice(),
            input.literals.as_slice(),
        )?;
    }
    Ok(told(alloc, &trees, &input)?.as_str() == slowly.as_str())
}

#[test]
fn each_pair_of_literals_is_as_slow(rt: HostRuntime) -> Result<(), Fail> {
    let alloc = rt.alloc();
    for text in [
        "input i { a:p(b) b:p(a) a:q() b:q() a:p(a b) p:p(p) }",
        "input i { a:p(a) a:a(a) b:r(b) a:b(p) p:p(b b) p:q() }",
        "input i { p(a) q() q:q() b:p(b) b:b() b:b(b) a:p(b b) }",
    ] {
        assert!(rt; is_as_slow(alloc, text)?);
    }
    Ok(())
}
