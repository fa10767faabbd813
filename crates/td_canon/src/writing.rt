//! Writes the canonical text of a tree.
ghost use Rattle.std.specs.Prelude.{◌≡◌, ◌<◌, ◌≤◌, ◌↔◌, [], ◌∷◌, ◌++◌, length, map, Some, IfOk, OnOk, IsTrue, string_bytes, codes};
ghost use Rattle.std.specs.List.{join_with_byte};
ghost use Rattle.gr_base.specs.Lists.{Each, gathered};
ghost use Rattle.gr_terms.specs.Canonical.{literal_terms, map_literal};
ghost use Rattle.gr_terms.specs.LiteralViews.{literal_of, literals_of};
ghost use Rattle.gr_terms.specs.Views.{term_of};
ghost use Rattle.td_tree.specs.Trees.{AreTreeNodes};
ghost use Rattle.td_tree.specs.TreeViews.{lists_of};
ghost use Rattle.td_canon.specs.CanonicalTexts.{HasText, IsNamedLiteral, IsNamedNode, IsNamedTerm, IsNamedTree, text_in};
ghost use Rattle.td_canon.specs.TreeText.{category_text, label_text, literal_text, node_text};
ghost use Rattle.td_canon.specs.Writing.{AreOrderedBags, IsNamedSome, Writes, WritesKids, WritesTree, before_properties, form_node, node_terms, slots_of, some_terms};

use crate::draft::Draft;
use crate::pairs::push_bag;
use gr_base::Memory;
use gr_symbols::Symbols;
use gr_terms::{CAT, Literal, Literals, Term};
use std::alloc::Global;
use td_tree::{Tree, TreeNode, TreeNodes};

/// Appends the category of a node, or `-` where it has none.
fn push_category(draft: &mut Draft, category: Option<Term>, symbols: &Symbols) -> Result<(), Memory>
    requires { IsNamedSome (length symbols.now) category }
    ensures { OnOk result (Writes draft.old draft.new (some_terms category)
        (λ label. category_text (text_in symbols.now) (map label (some_terms category)))) }
{
    match category {
        Some(value) => draft.push_value(value, symbols),
        None => draft.push("-"),
    }
}

/// How many pairs of a node's own bag stand before its properties. The category's number is the
/// least, so its pair is the first.
fn before_properties(category: Option<Term>) -> usize
    ensures { result ≡ before_properties category }
{
    match category {
        Some(_) => 1,
        None => 0,
    }
}

/// Appends the text of a node.
fn push_node(
    alloc: Global,
    draft: &mut Draft,
    node: &TreeNode,
    symbols: &Symbols,
) -> Result<(), Memory>
    requires { IsNamedNode (length symbols.now) node.now }
    ensures writes { OnOk result (Writes draft.old draft.new (node_terms (text_in symbols.now) (lists_of (slots_of node.now)))
        (λ label. node_text (text_in symbols.now) (form_node (text_in symbols.now) label (lists_of (slots_of node.now))))) }
    ensures ordered { OnOk result (AreOrderedBags (text_in symbols.now) (slots_of node.now)) }
{
    let category = node.own.get(CAT);
    push_category(draft, category, symbols)?;
    let first_property = before_properties(category);
    push_bag(alloc, draft, &node.own, first_property, "{", "}", symbols)?;
    push_bag(alloc, draft, &node.top, 0, "^[", "]", symbols)?;
    push_bag(alloc, draft, &node.bot, 0, "/[", "]", symbols)
}

/// Whether a node has this parent.
fn has_parent(node: &TreeNode, parent: usize) -> bool
    ensures { IsTrue result ↔ (node.now.parent ≡ Some parent) }
{
    match node.parent {
        Some(number) => usize::from(number) == parent,
        None => false,
    }
}

/// Appends the text of the tree whose root stands at a place, and gives the place behind its last
/// node.
#[cycle(trees)]
fn push_tree(
    alloc: Global,
    draft: &mut Draft,
    nodes: &TreeNodes,
    at: usize,
    symbols: &Symbols,
) -> Result<usize, Memory>
    requires named { Each (IsNamedNode (length symbols.now)) nodes.now }
    requires within { at < length nodes.now }
    ensures behind { IfOk result (λ next. at < next) }
    ensures within { IfOk result (λ next. next ≤ length nodes.now) }
    ensures writes { IfOk result (λ next. WritesTree (text_in symbols.now) nodes.now at next draft.old draft.new) }
{
    push_node(alloc, draft, nodes.get(at), symbols)?;
    push_kids(alloc, draft, nodes, at, symbols)
}

/// Appends the texts of the trees whose roots are the children of the node at a place, with spaces
/// between them, in parentheses. Appends nothing where the node has no child. Gives the place
/// behind the last of their nodes.
#[cycle(trees)]
fn push_kids(
    alloc: Global,
    draft: &mut Draft,
    nodes: &TreeNodes,
    at: usize,
    symbols: &Symbols,
) -> Result<usize, Memory>
    requires named { Each (IsNamedNode (length symbols.now)) nodes.now }
    requires within { at < length nodes.now }
    ensures behind { IfOk result (λ next. at < next) }
    ensures within { IfOk result (λ next. next ≤ length nodes.now) }
    ensures writes { IfOk result (λ next. WritesKids (text_in symbols.now) nodes.now at next draft.old draft.new) }
{
    let count = nodes.len();
    let mut place = at + 1;
    let mut separator = "(";
    'kids: while place < count && has_parent(nodes.get(place), at) {
        draft.push(separator)?;
        separator = " ";
        place = push_tree(alloc, draft, nodes, place, symbols)?;
    }
    if place > at + 1 {
        draft.push(")")?;
    }
    Ok(place)
}

/// Appends values with spaces between them, in parentheses.
fn push_arguments(draft: &mut Draft, arguments: &[Term], symbols: &Symbols) -> Result<(), Memory>
    requires { Each (IsNamedTerm (length symbols.now)) arguments.now }
    ensures { OnOk result (Writes draft.old draft.new (map term_of arguments.now)
        (λ label. codes "(" ++ join_with_byte 32 (map (label_text (text_in symbols.now)) (map label (map term_of arguments.now))) ++ codes ")")) }
{
    draft.push("(")?;
    let mut separator = "";
    for argument in arguments {
        draft.push(separator)?;
        draft.push_value(*argument, symbols)?;
        separator = " ";
    }
    draft.push(")")
}

/// Appends a space and the text of a literal.
fn push_literal(draft: &mut Draft, literal: &Literal, symbols: &Symbols) -> Result<(), Memory>
    requires { IsNamedLiteral (length symbols.now) literal.now }
    ensures { OnOk result (Writes draft.old draft.new (literal_terms (literal_of literal.now))
        (λ label. codes " " ++ literal_text (text_in symbols.now) (map_literal label (literal_of literal.now)))) }
{
    draft.push(" ")?;
    draft.push_value(literal.handle, symbols)?;
    draft.push(":")?;
    draft.push_value(literal.pred, symbols)?;
    push_arguments(draft, literal.args.as_slice(), symbols)
}

/// Appends the texts of literals, each behind a space.
fn push_literals(draft: &mut Draft, literals: &Literals, symbols: &Symbols) -> Result<(), Memory>
    requires { Each (IsNamedLiteral (length symbols.now)) literals.now }
    ensures { OnOk result (Writes draft.old draft.new (gathered literal_terms (literals_of literals.now))
        (λ label. gathered (λ l. codes " " ++ literal_text (text_in symbols.now) l) (map (map_literal label) (literals_of literals.now)))) }
{
    for literal in literals.as_slice() {
        push_literal(draft, literal, symbols)?;
    }
    Ok(())
}

/// The canonical text of a tree: the nodes in preorder, the interface and the literals, each list in
/// byte order of its attributes, and the variables numbered from 1 by first meeting.
pub fn canonical_text(alloc: Global, tree: &Tree, symbols: &Symbols) -> Result<String, Memory>
    requires nodes { AreTreeNodes tree.now.nodes }
    requires named { IsNamedTree (length symbols.now) tree.now }
    ensures { IfOk result (λ text. HasText symbols.now tree.now (string_bytes text)) }
{
    let mut draft = Draft::new(alloc);
    push_tree(alloc, &mut draft, &tree.nodes, 0, symbols)?;
    push_bag(alloc, &mut draft, &tree.iface, 0, " iface[", "]", symbols)?;
    push_literals(&mut draft, &tree.sem, symbols)?;
    Ok(draft.into_text())
}
