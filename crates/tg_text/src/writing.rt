//! Writes grammar text.
ghost use Rattle.std.specs.Prelude.{◌≡◌, ◌<◌, ◌++◌, List, length, map, take, codes, IfOk, OnOk, string_bytes};
ghost use Rattle.std.specs.Fmt.{decimal};
ghost use Rattle.gr_base.specs.Lists.{Each};
ghost use Rattle.td_canon.specs.TreeSets.{texts_of};
ghost use Rattle.td_canon.specs.declared.tree_set.ClassTrees.{ClassTrees as Trees};
ghost use Rattle.tg_text.specs.GrammarText.{class_text, class_text_of, closing_word, ended, grammar_text, tree_line, tree_lines};

use gr_base::Memory;
use gr_symbols::Symbols;
use itoa::Buffer;
use std::alloc::Global;
use td_canon::{ClassTrees, TreeSet};

/// Appends the line of a tree.
fn push_tree(text: &mut String, number: usize, tree: &str) -> Result<(), Memory>
    ensures { OnOk result (string_bytes text.new ≡ string_bytes text.old ++ tree_line number tree.now) }
{
    text.push_str("tree ")?;
    text.push_str(Buffer::new().format(number))?;
    text.push_str(" ")?;
    text.push_str(tree)?;
    text.push_str("\n")?;
    Ok(())
}

/// Appends a line for each tree, numbered from 1.
fn push_trees(text: &mut String, trees: &TreeSet) -> Result<(), Memory>
    ensures { OnOk result (string_bytes text.new ≡ string_bytes text.old ++ tree_lines 1 (texts_of trees.now)) }
{
    for at in 0..trees.len() {
        push_tree(text, at + 1, trees.text(at))?;
    }
    Ok(())
}

/// Appends the line that closes a class: whether it is whole, and how many trees it has.
fn push_count(text: &mut String, cut: bool, count: usize) -> Result<(), Memory>
    ensures { OnOk result (string_bytes text.new ≡ string_bytes text.old ++ ended (closing_word cut ++ decimal count)) }
{
    text.push_str(if cut { "cut " } else { "trees " })?;
    text.push_str(Buffer::new().format(count))?;
    text.push_str("\n")?;
    Ok(())
}

/// Appends the line that names a class.
fn push_name(text: &mut String, name: &str) -> Result<(), Memory>
    ensures { OnOk result (string_bytes text.new ≡ string_bytes text.old ++ ended (codes "class " ++ name.now)) }
{
    text.push_str("class ")?;
    text.push_str(name)?;
    text.push_str("\n")?;
    Ok(())
}

/// Appends the lines of a class.
fn push_class(text: &mut String, class: &ClassTrees, symbols: &Symbols) -> Result<(), Memory>
    requires { class.now.class.0 < length symbols.now }
    ensures { OnOk result (string_bytes text.new ≡ string_bytes text.old ++ class_text (class_text_of symbols.now class.now)) }
{
    push_name(text, symbols.text(class.class))?;
    push_trees(text, &class.trees)?;
    push_count(text, class.cut, class.trees.len())?;
    Ok(())
}

/// The text of a grammar: its classes in their order, each with its trees in the order of their
/// texts. It uses the texts that stand in the sets; the table gives the names of the classes.
pub fn write_grammar(
    alloc: Global,
    classes: &[ClassTrees],
    symbols: &Symbols,
) -> Result<String, Memory>
    requires { Each (λ (c : Trees). c.class.0 < length symbols.now) classes.now }
    ensures { IfOk result (λ text. string_bytes text ≡ grammar_text (map (class_text_of symbols.now) classes.now)) }
{
    let mut text = String::new(alloc);
    text.push_str("grammar 1\n")?;
    for at in 0..classes.len() {
        push_class(&mut text, &classes[at], symbols)?;
    }
    text.push_str("end\n")?;
    Ok(text)
}
