//! How many variables there are: one more than the greatest number of one. Numbers over 32 bits count
//! as want of memory.
ghost use Rattle.std.specs.Prelude.{◌≤◌, IfOk};
ghost use Rattle.gr_base.specs.Lists.{Each};
ghost use Rattle.gr_store.specs.Contents.{IsMade};
ghost use Rattle.lx_anchor.specs.Counts.{AreClassesBelow, HasFewFeatures, IsBagBelow, IsClassBelow, IsEntryBelow, IsLiteralBelow, IsNodeBelow, IsTreeBelow};

use gr_base::Memory;
use gr_terms::{Bag, Literal, Literals, Term, Terms};
use lx_lexicon::{Entry, Lexicon};
use td_canon::ClassTrees;
use td_tree::{Tree, TreeNode, TreeNodes};
use tg_grammar::Grammar;

/// At least `count`, and enough for the term.
fn count_term(count: u32, term: Term) -> Result<u32, Memory>
    ensures { IfOk result (λ more. (count ≤ more) × IsMade more term) }
{
    match term {
        Term::Const(_) => Ok(count),
        Term::Var(number) => match number.checked_add(1) {
            Some(enough) => Ok(count.max(enough)),
            None => Err(Memory),
        },
    }
}

/// At least `count`, and enough for the bag.
fn count_bag(count: u32, bag: &Bag) -> Result<u32, Memory>
    ensures { IfOk result (λ more. (count ≤ more) × IsBagBelow more bag.now) }
{
    let mut more = count;
    'pairs: for place in 0..bag.len() {
        more = count_term(more, bag.at(place).1)?;
    }
    Ok(more)
}

/// At least `count`, and enough for the terms.
fn count_terms(count: u32, terms: &Terms) -> Result<u32, Memory>
    ensures { IfOk result (λ more. (count ≤ more) × Each (IsMade more) terms.now) }
{
    let mut more = count;
    'terms: for place in 0..terms.len() {
        more = count_term(more, *terms.get(place))?;
    }
    Ok(more)
}

/// At least `count`, and enough for the literal.
fn count_literal(count: u32, literal: &Literal) -> Result<u32, Memory>
    ensures { IfOk result (λ more. (count ≤ more) × IsLiteralBelow more literal.now) }
{
    let handle = count_term(count, literal.handle)?;
    let pred = count_term(handle, literal.pred)?;
    count_terms(pred, &literal.args)
}

/// At least `count`, and enough for the literals.
fn count_literals(count: u32, literals: &Literals) -> Result<u32, Memory>
    ensures { IfOk result (λ more. (count ≤ more) × Each (IsLiteralBelow more) literals.now) }
{
    let mut more = count;
    'literals: for place in 0..literals.len() {
        more = count_literal(more, literals.get(place))?;
    }
    Ok(more)
}

/// At least `count`, and enough for the node.
fn count_node(count: u32, node: &TreeNode) -> Result<u32, Memory>
    ensures { IfOk result (λ more. (count ≤ more) × IsNodeBelow more node.now) }
{
    let own = count_bag(count, &node.own)?;
    let top = count_bag(own, &node.top)?;
    count_bag(top, &node.bot)
}

/// At least `count`, and enough for the nodes.
fn count_nodes(count: u32, nodes: &TreeNodes) -> Result<u32, Memory>
    ensures { IfOk result (λ more. (count ≤ more) × Each (IsNodeBelow more) nodes.now) }
{
    let mut more = count;
    'nodes: for place in 0..nodes.len() {
        more = count_node(more, nodes.get(place))?;
    }
    Ok(more)
}

/// At least `count`, and enough for the tree.
fn count_tree(count: u32, tree: &Tree) -> Result<u32, Memory>
    ensures { IfOk result (λ more. (count ≤ more) × IsTreeBelow more tree.now) }
{
    let nodes = count_nodes(count, &tree.nodes)?;
    let interface = count_bag(nodes, &tree.iface)?;
    count_literals(interface, &tree.sem)
}

/// At least `count`, and enough for all trees of the class.
fn count_class(count: u32, class: &ClassTrees) -> Result<u32, Memory>
    ensures { IfOk result (λ more. (count ≤ more) × IsClassBelow more class.now) }
{
    let mut more = count;
    'trees: for place in 0..class.trees.len() {
        more = count_tree(more, class.trees.get(place))?;
    }
    Ok(more)
}

/// Enough for all trees of the grammar.
pub fn count_grammar(grammar: &Grammar) -> Result<u32, Memory>
    ensures { IfOk result (λ count. AreClassesBelow count grammar.now) }
{
    let mut count = 0;
    'classes: for place in 0..grammar.len() {
        count = count_class(count, grammar.at(place))?;
    }
    Ok(count)
}

/// At least `count`, and enough for the entry.
fn count_entry(count: u32, entry: &Entry) -> Result<u32, Memory>
    ensures { IfOk result (λ more. (count ≤ more) × IsEntryBelow more entry.now) }
{
    let interface = count_bag(count, &entry.iface)?;
    let anchor = count_bag(interface, &entry.anchor)?;
    count_literals(anchor, &entry.sem)
}

/// Enough for each of the entries.
pub fn count_lexicon(lexicon: &Lexicon) -> Result<u32, Memory>
    ensures { IfOk result (λ count. Each (IsEntryBelow count) lexicon.now) }
{
    let mut count = 0;
    'entries: for number in 0..lexicon.len() {
        count = count_entry(count, lexicon.get(number))?;
    }
    Ok(count)
}

/// At least `count`, and as many as the entry has features of its interface and of its anchor.
fn count_features(count: u32, entry: &Entry) -> Result<u32, Memory>
    ensures { IfOk result (λ more. (count ≤ more) × HasFewFeatures more entry.now) }
{
    let Some(features) = entry.iface.len().checked_add(entry.anchor.len()) else {
        return Err(Memory);
    };
    match u32::try_from(features) {
        Ok(enough) => Ok(count.max(enough)),
        Err(_) => Err(Memory),
    }
}

/// As many as each of the entries has features of its interface and of its anchor, or more.
pub fn most_features(lexicon: &Lexicon) -> Result<u32, Memory>
    ensures { IfOk result (λ count. Each (HasFewFeatures count) lexicon.now) }
{
    let mut count = 0;
    'entries: for number in 0..lexicon.len() {
        count = count_features(count, lexicon.get(number))?;
    }
    Ok(count)
}
