//! All lexical trees of a grammar and a lexicon.
ghost use Rattle.std.specs.Prelude.{◌≡◌, ◌+◌, ◌-◌, ◌<◌, ◌≤◌, length, slice_get, Some, IfOk, IfErr, OnOk, MatchOption};
ghost use Rattle.gr_base.specs.Lists.{Each};
ghost use Rattle.gr_store.specs.Contents.{Grows};
ghost use Rattle.td_canon.specs.TreeSets.{trees_of};
ghost use Rattle.tg_grammar.specs.Grammars.{IsWellFormedClass};
ghost use Rattle.tg_grammar.specs.Shapes.{IsWellFormedTree};
ghost use Rattle.tg_grammar.specs.NamedMarks.{HaveNamedMarks};
ghost use Rattle.tg_model.specs.LexicalTrees.{AreLexical};
ghost use Rattle.lx_anchor.specs.Anchoring.{AreLexicalTrees, HasLiteral, IsAnchorRefusal};
ghost use Rattle.lx_anchor.specs.Counts.{AreClassesBelow, IsClassBelow};
ghost use Rattle.lx_anchor.specs.Rows.{AreDone, IsAnchored, IsFamily, IsFound, IsRefused};
ghost use Rattle.lx_anchor.specs.Sharing.{CanServe, CanServeAll, HasRoom};

use crate::coanchors::lemmas_of;
use crate::counts::{count_grammar, count_lexicon, most_features};
use crate::numbering::Numbering;
use crate::refusal::AnchorRefusal;
use crate::sharing::share_all;
use crate::writing::joint_tree;
use gr_base::{Items, Memory};
use gr_store::{Room, Store};
use lx_lexicon::{Entry, Lexicon};
use std::alloc::Global;
use td_canon::ClassTrees;
use td_tree::Tree;
use tg_grammar::{Grammar, anchor};
use tg_model::{LexicalTree, LexicalTrees};

/// Makes so many variables.
fn make_variables(store: &mut Store, count: u32)
    requires { count ≤ store.old.spare.vars }
    ensures { store.new ≡ record store.old {
      vars = store.old.vars + count;
      spare = record store.old.spare { vars = store.old.spare.vars - count };
    } }
{
    'variables: for _made in 0..count {
        let _variable = store.fresh();
    }
}

/// An empty store with the variables of each tree and of each entry, and with room for the equations
/// of any of them. The variables of an entry are counted from `first`.
fn store_for(alloc: Global, first: u32, lexicon: &Lexicon) -> Result<Store, Memory>
    ensures { IfOk result (CanServeAll lexicon.now first) }
{
    let count = count_lexicon(lexicon)?;
    let Some(vars) = first.checked_add(count) else {
        return Err(Memory);
    };
    let room = Room {
        vars,
        slots: 0,
        entries: 0,
        assertions: most_features(lexicon)?,
    };
    let mut store = Store::with_room(alloc, room)?;
    make_variables(&mut store, vars);
    Ok(store)
}

/// The tree with what the entry adds, or `None` where the network of the two doesn't agree. The
/// equations of the two are put into the store.
fn joined(
    alloc: Global,
    store: &mut Store,
    numbering: &mut Numbering,
    first: u32,
    tree: &Tree,
    entry: &Entry,
) -> Result<Option<Tree>, Memory>
    requires well_formed { IsWellFormedTree tree.now }
    requires room { HasRoom tree.now entry.now first store.old }
    ensures tree { IfOk result (IsAnchored tree.now entry.now) }
    ensures grows { Grows store.old store.new }
{
    // The numbers of its variables fit.
    let _made = store.mark();
    let anchor = anchor(tree) as usize;
    if !share_all(store, tree, entry, first, anchor) {
        return Ok(None);
    }
    // What a store accepted agrees.
    let _agrees = store.mark();
    let joint = joint_tree(alloc, store, first, tree, entry, anchor)?;
    Ok(Some(numbering.tree(alloc, &joint)?))
}

/// The tree with what the entry adds, or `None` where the network of the two doesn't agree. The store
/// is as it was.
fn anchored(
    alloc: Global,
    store: &mut Store,
    numbering: &mut Numbering,
    first: u32,
    tree: &Tree,
    entry: &Entry,
) -> Result<Option<Tree>, Memory>
    requires well_formed { IsWellFormedTree tree.now }
    requires room { HasRoom tree.now entry.now first store.old }
    ensures tree { IfOk result (IsAnchored tree.now entry.now) }
    ensures same { OnOk result (store.new ≡ store.old) }
{
    let before = store.mark();
    let found = joined(alloc, store, numbering, first, tree, entry)?;
    store.undo(before);
    Ok(found)
}

/// The lexical tree of tree number `at` of a class and entry `number`, or `None` where they make none.
/// The store is as it was.
fn lexical_tree(
    alloc: Global,
    store: &mut Store,
    numbering: &mut Numbering,
    first: u32,
    class: &ClassTrees,
    at: usize,
    number: u32,
    entry: &Entry,
) -> Result<Option<LexicalTree>, AnchorRefusal>
    requires at { at < length class.now.trees }
    requires well_formed { IsWellFormedClass class.now }
    requires below { IsClassBelow first class.now }
    requires serves { CanServe entry.now first store.old }
    ensures found { IfOk result (IsFound class.now at number entry.now) }
    ensures refused { IfErr result (IsRefused class.now at entry.now) }
    ensures same { OnOk result (store.new ≡ store.old) }
{
    let tree = class.trees.get(at);
    let Some(coanchors) = lemmas_of(alloc, tree, entry)? else {
        return Ok(None);
    };
    let Some(joint) = anchored(alloc, store, numbering, first, tree, entry)? else {
        return Ok(None);
    };
    let tree_number = at as u32 + 1;
    if joint.sem.len() == 0 {
        return Err(AnchorRefusal::NoLiteral {
            lemma: entry.lemma,
            class: class.class,
            tree: tree_number,
        });
    }
    Ok(Some(LexicalTree {
        entry: number,
        class: class.class,
        number: tree_number,
        lemma: entry.lemma,
        coanchors,
        tree: joint,
    }))
}

/// Appends the lexical trees of entry `number` and the trees of its family. The store is as it was.
fn anchor_family(
    alloc: Global,
    store: &mut Store,
    numbering: &mut Numbering,
    first: u32,
    grammar: &Grammar,
    lexicon: &Lexicon,
    number: usize,
    class: &ClassTrees,
    trees: &mut LexicalTrees,
) -> Result<(), AnchorRefusal>
    requires number { number < length lexicon.now }
    requires family { IsFamily grammar.now lexicon.now number class.now }
    requires well_formed { IsWellFormedClass class.now }
    requires below { IsClassBelow first class.now }
    requires serves { CanServeAll lexicon.now first store.old }
    requires done { AreDone grammar.now lexicon.now number 0 trees.old }
    ensures ok { OnOk result (AreDone grammar.now lexicon.now (number + 1) 0 trees.new) }
    ensures same { OnOk result (store.new ≡ store.old) }
    ensures err { IfErr result (IsAnchorRefusal grammar.now lexicon.now) }
{
    let entry = lexicon.get(number);
    let Ok(entry_number) = u32::try_from(number) else {
        return Err(AnchorRefusal::Memory);
    };
    'trees: for at in 0..class.trees.len() {
        let found = lexical_tree(
            alloc,
            store,
            numbering,
            first,
            class,
            at,
            entry_number,
            entry,
        )?;
        if let Some(lexical) = found {
            trees.push(lexical)?;
        }
    }
    Ok(())
}

/// Appends the lexical trees of entry `number`. The store is as it was.
fn anchor_entry(
    alloc: Global,
    store: &mut Store,
    numbering: &mut Numbering,
    first: u32,
    grammar: &Grammar,
    lexicon: &Lexicon,
    number: usize,
    trees: &mut LexicalTrees,
) -> Result<(), AnchorRefusal>
    requires number { number < length lexicon.now }
    requires below { AreClassesBelow first grammar.now }
    requires serves { CanServeAll lexicon.now first store.old }
    requires done { AreDone grammar.now lexicon.now number 0 trees.old }
    ensures ok { OnOk result (AreDone grammar.now lexicon.now (number + 1) 0 trees.new) }
    ensures same { OnOk result (store.new ≡ store.old) }
    ensures err { IfErr result (IsAnchorRefusal grammar.now lexicon.now) }
{
    match grammar.class(lexicon.get(number).family) {
        Some(class) => anchor_family(
            alloc, store, numbering, first, grammar, lexicon, number, class, trees,
        ),
        None => Ok(()),
    }
}

/// All lexical trees, by entry and then by tree, or the first that has no literal. Where no node of the
/// grammar's trees has a variable as its `mark`, as in all trees of metagrammars and of grammar text,
/// each is well formed, has names alone as marks too, and has the lemmas of just its co-anchors.
/// Entries and variables whose numbers take more than 32 bits count as more than there is memory for.
pub fn anchor_all(
    alloc: Global,
    grammar: &Grammar,
    lexicon: &Lexicon,
) -> Result<LexicalTrees, AnchorRefusal>
    ensures trees { IfOk result (AreLexicalTrees grammar.now lexicon.now) }
    ensures literals { IfOk result (Each HasLiteral) }
    ensures lexical { HaveNamedMarks grammar.now → IfOk result AreLexical }
    ensures refused { IfErr result (IsAnchorRefusal grammar.now lexicon.now) }
{
    let first = count_grammar(grammar)?;
    let mut store = store_for(alloc, first, lexicon)?;
    let mut numbering = Numbering::new(alloc);
    let mut trees = Items::new(alloc);
    'entries: for number in 0..lexicon.len() {
        anchor_entry(
            alloc,
            &mut store,
            &mut numbering,
            first,
            grammar,
            lexicon,
            number,
            &mut trees,
        )?;
    }
    Ok(trees)
}
