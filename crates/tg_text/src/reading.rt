//! Reads grammar text.
ghost use Rattle.std.specs.Prelude.{◌≡◌, ◌+◌, ◌≤◌, ◌-◌, ℕ, List, [], ◌∷◌, ◌++◌, length, take, map, IfOk, IfErr, OnErr, OnOk};
ghost use Rattle.std.specs.Bool.{OnTrue, OnFalse};
ghost use Rattle.std.specs.Str.{IsUtf8};
ghost use Rattle.gr_base.specs.Lists.{Each, IsAmong, IsBefore};
ghost use Rattle.gr_symbols.specs.Numbers.{Grows};
ghost use Rattle.gr_text.specs.Limits.{IsShort};
ghost use Rattle.gr_text.specs.Places.{line_after};
ghost use Rattle.td_canon.specs.TreeSets.{Entry, texts_of};
ghost use Rattle.td_tree.specs.declared.Tree.{Tree as OneTree};
ghost use Rattle.tg_reader.specs.Writable.{IsTable, IsTreeText};
ghost use Rattle.tg_reader.specs.Naming.{PutsTreeNames};
ghost use Rattle.tg_text.specs.GrammarText.{class_text_of};
ghost use Rattle.tg_text.specs.Naming.{PutsTrees, PutsClasses};
ghost use Rattle.tg_text.specs.Answers.{AreReadClasses, IsGrammarAnswer};
ghost use Rattle.tg_text.specs.Lines.{inside, between, begins};
ghost use Rattle.tg_text.specs.Reading.{AreReadTrees, HasTrees, HasBody, HasClasses, IsLinesAnswer, NoClassNext, StopsAt};

use crate::lines::{behind, class_in, past_closing, tree_in, version_of};
use gr_base::Memory;
use gr_symbols::Symbols;
use gr_terms::Sym;
use gr_tokens::ReadRefusal;
use indexmap::IndexSet;
use std::alloc::Global;
use std::str;
use td_canon::{ClassTrees, TreeSet};
use tg_reader::read_tree;
use tg_syntax::{check_syntax, place_with};

/// Why lines are read no further.
#[derive(Clone, Copy, Debug, PartialEq, Eq)]
pub enum Stop {
    /// A line may not stand where it stands. This many bytes are left there.
    Line(usize),
    /// Want of memory.
    Memory,
}

impl From<Memory> for Stop {
    ghost use Rattle.tg_text.specs.declared.reading.Stop.TheVariants.{Memory as NoMemory};

    ghost from_gives = { λ _ e. e ≡ NoMemory };

    fn from(_memory: Memory) -> Stop {
        Stop::Memory
    }
}

/// No text of a table stands twice, and the first texts stand first.
fn is_table(symbols: &Symbols)
    ensures { IsTable symbols.now }
{
    let _number = symbols.len();
}

/// Whether the text is greater than those of a set.
fn is_next(trees: &TreeSet, text: &str) -> bool
    ensures next { OnTrue result (Each (λ t. IsBefore t text.now) (texts_of trees.now)) }
    ensures other { OnFalse result (Each (λ t. IsBefore t text.now) (texts_of trees.now) → ⊥) }
{
    let count = trees.len();
    count == 0 || trees.text(count - 1) < text
}

/// Puts the tree of a text behind those of a set, and says `false` exactly where it is the text of no
/// tree, or not greater than the texts of the set.
fn add_tree(
    alloc: Global,
    trees: &mut TreeSet,
    text: &str,
    symbols: &mut Symbols,
) -> Result<bool, Memory>
    requires few { IsShort text.now }
    requires read { AreReadTrees symbols.old trees.old }
    ensures added { IfOk result (λ added. OnTrue added ((t : OneTree) × (trees.new ≡ trees.old ++ record { tree = t; text = text.now } ∷ [])
        × AreReadTrees symbols.new trees.new)) }
    ensures table { IfOk result (λ added. OnTrue added (PutsTreeNames text.now symbols.old symbols.new)) }
    ensures refused { IfOk result (λ added. OnFalse added (IsTreeText text.now → Each (λ t. IsBefore t text.now) (texts_of trees.old) → ⊥)) }
    ensures grows { Grows symbols.old symbols.new }
    ensures few_more { length symbols.new ≤ length symbols.old + length text.now }
{
    if !is_next(trees, text) {
        return Ok(false);
    }
    let Some(tree) = read_tree(alloc, text, symbols)? else {
        return Ok(false);
    };
    is_table(symbols);
    let _added = trees.add(tree, symbols)?;
    Ok(true)
}

/// The trees whose lines come first, and what is left behind them.
fn trees_in<'a>(
    alloc: Global,
    text: &'a str,
    symbols: &mut Symbols,
) -> Result<(TreeSet, &'a str), Stop>
    requires { IsShort text.now }
    ensures trees { IfOk result (λ r. HasTrees symbols.new r.0 text.now r.1.now) }
    ensures table { IfOk result (λ r. PutsTrees (texts_of r.0) symbols.old symbols.new) }
    ensures stops { IfErr result (λ stop. (names : List (List ℕ)) → StopsAt (inside names []) text.now stop) }
    ensures grows { Grows symbols.old symbols.new }
    ensures few_more { IfOk result (λ r. length symbols.new + length r.1.now ≤ length symbols.old + length text.now) }
    ensures few_at_most { length symbols.new ≤ length symbols.old + length text.now }
{
    let mut trees = TreeSet::new(alloc);
    let mut rest = text;
    'row: while let Some((tree, more)) = tree_in(rest, trees.len() + 1) {
        if !add_tree(alloc, &mut trees, tree, symbols)? {
            is_table(symbols);
            return Err(Stop::Line(rest.len()));
        }
        rest = more;
    }
    Ok((trees, rest))
}

/// The trees of a class and whether it was cut, where the text stands behind the class's first line,
/// and what is left behind its last.
fn body_in<'a>(
    alloc: Global,
    class: Sym,
    text: &'a str,
    symbols: &mut Symbols,
) -> Result<(ClassTrees, &'a str), Stop>
    requires { IsShort text.now }
    ensures body { IfOk result (λ r. HasBody symbols.new r.0 text.now r.1.now) }
    ensures table { IfOk result (λ r. PutsTrees (texts_of r.0.trees) symbols.old symbols.new) }
    ensures class { IfOk result (λ r. r.0.class ≡ class) }
    ensures stops { IfErr result (λ stop. (names : List (List ℕ)) → StopsAt (inside names []) text.now stop) }
    ensures grows { Grows symbols.old symbols.new }
    ensures few_more { IfOk result (λ r. length symbols.new + length r.1.now ≤ length symbols.old + length text.now) }
    ensures few_at_most { length symbols.new ≤ length symbols.old + length text.now }
{
    let (trees, rest) = trees_in(alloc, text, symbols)?;
    let Some((cut, end)) = past_closing(rest, trees.len()) else {
        is_table(symbols);
        return Err(Stop::Line(rest.len()));
    };
    Ok((ClassTrees { class, trees, cut }, end))
}

/// Notes the number of a class, and says whether it wasn't there.
fn note(known: &mut IndexSet<u32>, class: Sym) -> Result<bool, Memory>
    ensures new { IfOk result (λ new. OnTrue new ((IsAmong known.old.keys class.0 → ⊥)
        × (known.new.keys ≡ known.old.keys ++ class.0 ∷ []))) }
    ensures again { IfOk result (λ new. OnFalse new (IsAmong known.old.keys class.0)) }
{
    Ok(known.insert(class.0)?)
}

/// The classes whose lines come first, and what is left behind them.
fn classes_in<'a>(
    alloc: Global,
    text: &'a str,
    symbols: &mut Symbols,
) -> Result<(Vec<ClassTrees>, &'a str), Stop>
    requires { IsShort text.now }
    ensures classes { IfOk result (λ r. HasClasses symbols.new r.0.items text.now r.1.now) }
    ensures last { IfOk result (λ r. NoClassNext r.1.now) }
    ensures table { IfOk result (λ r. PutsClasses (map (class_text_of symbols.new) r.0.items) symbols.old symbols.new) }
    ensures stops { IfErr result (λ stop. StopsAt (between []) text.now stop) }
    ensures grows { Grows symbols.old symbols.new }
    ensures few_at_most { length symbols.new ≤ length symbols.old + length text.now }
{
    let mut known = IndexSet::new(alloc);
    let mut classes = Vec::new(alloc);
    let mut rest = text;
    'row: while let Some((name, more)) = class_in(rest) {
        let class = symbols.intern(name)?;
        is_table(symbols);
        if !note(&mut known, class)? {
            return Err(Stop::Line(rest.len()));
        }
        let (found, end) = body_in(alloc, class, more, symbols)?;
        is_table(symbols);
        if classes.push(found).is_err() {
            return Err(Stop::Memory);
        }
        rest = end;
    }
    Ok((classes, rest))
}

/// The classes that a text has, whose lines are just those that are written for them.
fn lines_in(alloc: Global, text: &str, symbols: &mut Symbols) -> Result<Vec<ClassTrees>, Stop>
    requires { IsShort text.now }
    ensures classes { IfOk result (λ classes. AreReadClasses symbols.new text.now classes.items) }
    ensures table { IfOk result (λ classes. PutsClasses (map (class_text_of symbols.new) classes.items) symbols.old symbols.new) }
    ensures stops { IfErr result (λ stop. StopsAt begins text.now stop) }
    ensures grows { Grows symbols.old symbols.new }
    ensures few_at_most { length symbols.new ≤ length symbols.old + length text.now }
{
    let Some(rest) = behind(text, "grammar 1\n") else {
        return Err(Stop::Line(text.len()));
    };
    let (classes, last) = classes_in(alloc, rest, symbols)?;
    is_table(symbols);
    let Some(end) = behind(last, "end\n") else {
        return Err(Stop::Line(last.len()));
    };
    if !end.is_empty() {
        return Err(Stop::Line(end.len()));
    }
    Ok(classes)
}

/// The number of the line where this many bytes are left.
fn line_with(bytes: &[u8], left: usize) -> u32
    requires { IsShort bytes.now }
    ensures { result ≡ line_after (take (length bytes.now - left) bytes.now) }
{
    place_with(bytes, left).line
}

/// The classes of a text, or the first line that may not stand where it stands.
fn judged_lines(
    alloc: Global,
    text: &str,
    symbols: &mut Symbols,
) -> Result<Vec<ClassTrees>, ReadRefusal>
    requires { IsShort text.now }
    ensures answer { IsLinesAnswer text.now symbols.new result }
    ensures table { IfOk result (λ classes. PutsClasses (map (class_text_of symbols.new) classes.items) symbols.old symbols.new) }
    ensures grows { Grows symbols.old symbols.new }
    ensures few_at_most { length symbols.new ≤ length symbols.old + length text.now }
{
    match lines_in(alloc, text, symbols) {
        Ok(classes) => Ok(classes),
        Err(Stop::Line(left)) => Err(ReadRefusal::NotCanonical(line_with(text.as_bytes(), left))),
        Err(Stop::Memory) => Err(ReadRefusal::Memory),
    }
}

/// The classes that a grammar text has, of at most 1,048,576 bytes: the classes of which just these
/// bytes are written, in the order of the text, each with its trees and whether it was cut. Names are
/// numbers of the table, which gets the names of the classes and what their trees name in the order of
/// the text, as far as it lacks them. It keeps all of its texts and gets at most as many new ones as
/// there are bytes, also where the text is refused.
///
/// A text that isn't UTF-8 is refused as `NotUtf8`. One whose first line says another version than 1,
/// as a decimal of at most nine digits, is refused as `Version` with that number, whatever follows. It
/// is refused as `Syntax` where a reading from the front stops, by a name or a variable that breaks a
/// rule or by the grammar. Else it is a text of the grammar, and is refused as `NotCanonical` with the
/// number of the first line, from 1, that may not stand there: of a tree whose number isn't the next,
/// whose text is the canonical text of no tree of at most 24 nodes that can be written or isn't
/// greater than that of the tree before it in its class; one that closes a class and has another
/// number than that of the trees; or the first line of a class whose name came before. Want of memory
/// may stand in place of any answer.
pub fn read_grammar(
    alloc: Global,
    bytes: &[u8],
    symbols: &mut Symbols,
) -> Result<Vec<ClassTrees>, ReadRefusal>
    requires { IsShort bytes.now }
    ensures answer { IsGrammarAnswer bytes.now symbols.old symbols.new result }
    ensures grows { Grows symbols.old symbols.new }
    ensures few { length symbols.new ≤ length symbols.old + length bytes.now }
{
    let text = match str::from_utf8(bytes) {
        Ok(text) => text,
        Err(error) => return Err(ReadRefusal::NotUtf8(error.valid_up_to())),
    };
    if let Some(version) = version_of(text) {
        if version != 1 {
            return Err(ReadRefusal::Version(version));
        }
    }
    if let Err(place) = check_syntax(bytes) {
        return Err(ReadRefusal::Syntax(place));
    }
    judged_lines(alloc, text, symbols)
}
