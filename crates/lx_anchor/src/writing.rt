//! Writes a tree and an entry with what stands for each value in a store.
ghost use Rattle.std.specs.Prelude.{◌≡◌, ◌++◌, ◌<◌, ◌≤◌, [], length, map, slice_get, Some, IfOk, OnOk, List};
ghost use Rattle.std.specs.List.{AllZip};
ghost use Rattle.gr_base.specs.Lists.{Each};
ghost use Rattle.gr_terms.specs.Bags.{IsListed};
ghost use Rattle.gr_terms.specs.LiteralViews.{literal_of, literals_of};
ghost use Rattle.gr_terms.specs.Networks.{Agrees};
ghost use Rattle.gr_terms.specs.Views.{network_of, term_of};
ghost use Rattle.gr_terms.specs.declared.Literal.{Literal};
ghost use Rattle.td_tree.specs.declared.TreeNode.{TreeNode};
ghost use Rattle.gr_store.specs.Contents.{IsMade};
ghost use Rattle.gr_feats.specs.CanonicalBags.{StandsFor};
ghost use Rattle.gr_feats.specs.Loading.{counted_from};
ghost use Rattle.td_model.specs.CanonicalTrees.{StandsForLiteral};
ghost use Rattle.lx_anchor.specs.Counts.{IsBagBelow, IsLiteralBelow, IsNodeBelow};
ghost use Rattle.lx_anchor.specs.Sharing.{counted_pairs};
ghost use Rattle.lx_anchor.specs.Writings.{AreJoined, AreJointNodes, HasMore, IsJoint, IsJointNode, IsJointTree, IsReady, added_at, counted_literal, counted_literals};

use crate::sharing::counted;
use gr_base::{Items, Memory};
use gr_store::Store;
use gr_terms::{Bag, Literal, Literals, Term, Terms};
use lx_lexicon::Entry;
use std::alloc::Global;
use td_tree::{Tree, TreeNode, TreeNodes};

/// What stands for the term, whose variable is counted from the first one.
fn written_term(store: &Store, first: u32, term: Term) -> Term
    requires { IsMade 4294967295 (counted_from first term) }
    ensures { StandsFor (network_of store.now.accepted) (term_of (counted_from first term)) result }
{
    store.least(counted(first, term))
}

/// Puts what stands for the pairs into the bag, where it lacks the attribute.
fn put_pairs(joint: &mut Bag, store: &Store, first: u32, pairs: &Bag) -> Result<(), Memory>
    requires made { IsBagBelow 4294967295 (counted_pairs first pairs.now) }
    requires listed { IsListed joint.old }
    ensures { OnOk result (HasMore (network_of store.now.accepted) (counted_pairs first pairs.now) joint.old joint.new) }
{
    // The store's assertions agree, so each value has one term that stands for it.
    let _agrees = store.mark();
    'pairs: for place in 0..pairs.len() {
        let pair = pairs.at(place);
        let _added = joint.add(pair.0, written_term(store, first, pair.1))?;
    }
    Ok(())
}

/// The bag of two bags, where the variables of the second one are counted from `first`.
fn joint_bag(
    alloc: Global,
    store: &Store,
    first: u32,
    bag: &Bag,
    added: &Bag,
) -> Result<Bag, Memory>
    requires bag_made { IsBagBelow 4294967295 bag.now }
    requires added_made { IsBagBelow 4294967295 (counted_pairs first added.now) }
    requires joined { AreJoined (network_of store.now.accepted) bag.now (counted_pairs first added.now) }
    ensures { IfOk result (IsJoint (network_of store.now.accepted) bag.now (counted_pairs first added.now)) }
{
    // The store's assertions agree, so linked values have one term that stands for them.
    let _agrees = store.mark();
    let mut joint = Bag::new(alloc);
    put_pairs(&mut joint, store, 0, bag)?;
    put_pairs(&mut joint, store, first, added)?;
    Ok(joint)
}

/// The node with pairs that are added at the bottom.
fn joint_node(
    alloc: Global,
    store: &Store,
    first: u32,
    node: &TreeNode,
    added: &Bag,
) -> Result<TreeNode, Memory>
    requires node_made { IsNodeBelow 4294967295 node.now }
    requires added_made { IsBagBelow 4294967295 (counted_pairs first added.now) }
    requires joined { AreJoined (network_of store.now.accepted) node.now.bot (counted_pairs first added.now) }
    ensures { IfOk result (IsJointNode (network_of store.now.accepted) node.now (counted_pairs first added.now)) }
{
    let none = Bag::new(alloc);
    Ok(TreeNode {
        parent: node.parent,
        own: joint_bag(alloc, store, first, &node.own, &none)?,
        top: joint_bag(alloc, store, first, &node.top, &none)?,
        bot: joint_bag(alloc, store, first, &node.bot, added)?,
    })
}

/// The node with this number, with the entry's features of the anchor where it is the anchor.
fn joint_node_at(
    alloc: Global,
    store: &Store,
    first: u32,
    tree: &Tree,
    entry: &Entry,
    anchor: usize,
    number: usize,
) -> Result<TreeNode, Memory>
    requires number { number < length tree.now.nodes }
    requires ready { IsReady (network_of store.now.accepted) tree.now entry.now first anchor }
    ensures { IfOk result (λ node. (x : TreeNode) → slice_get tree.now.nodes number ≡ Some x
        → IsJointNode (network_of store.now.accepted) x (added_at anchor number (counted_pairs first entry.now.anchor)) node) }
{
    let node = tree.nodes.get(number);
    if number == anchor {
        joint_node(alloc, store, first, node, &entry.anchor)
    } else {
        joint_node(alloc, store, first, node, &Bag::new(alloc))
    }
}

/// The nodes, with the entry's features of the anchor at node number `anchor`.
fn joint_nodes(
    alloc: Global,
    store: &Store,
    first: u32,
    tree: &Tree,
    entry: &Entry,
    anchor: usize,
) -> Result<TreeNodes, Memory>
    requires { IsReady (network_of store.now.accepted) tree.now entry.now first anchor }
    ensures { IfOk result (AreJointNodes (network_of store.now.accepted) tree.now.nodes anchor (counted_pairs first entry.now.anchor) (length tree.now.nodes)) }
{
    let mut nodes = Vec::with_capacity(alloc, tree.nodes.len())?;
    'nodes: for number in 0..tree.nodes.len() {
        nodes.push(joint_node_at(alloc, store, first, tree, entry, anchor, number)?)?;
    }
    Ok(Items::from_vec(nodes))
}

/// What stands for each term, whose variable is counted from the first one.
fn written_terms(alloc: Global, store: &Store, first: u32, terms: &Terms) -> Result<Terms, Memory>
    requires { Each (IsMade 4294967295) (map (counted_from first) terms.now) }
    ensures { IfOk result (λ written. AllZip (StandsFor (network_of store.now.accepted)) (map term_of (map (counted_from first) terms.now)) written) }
{
    let mut written = Vec::with_capacity(alloc, terms.len())?;
    'terms: for place in 0..terms.len() {
        written.push(written_term(store, first, *terms.get(place)))?;
    }
    Ok(Items::from_vec(written))
}

/// The literal of what stands for its terms.
fn written_literal(
    alloc: Global,
    store: &Store,
    first: u32,
    literal: &Literal,
) -> Result<Literal, Memory>
    requires { IsLiteralBelow 4294967295 (counted_literal first literal.now) }
    ensures { IfOk result (λ written. StandsForLiteral (network_of store.now.accepted) (literal_of (counted_literal first literal.now)) written) }
{
    Ok(Literal {
        handle: written_term(store, first, literal.handle),
        pred: written_term(store, first, literal.pred),
        args: written_terms(alloc, store, first, &literal.args)?,
    })
}

/// Appends what stands for the literals.
fn put_literals(
    alloc: Global,
    written: &mut Literals,
    store: &Store,
    first: u32,
    literals: &Literals,
) -> Result<(), Memory>
    requires { Each (IsLiteralBelow 4294967295) (counted_literals first literals.now) }
    ensures { OnOk result ((more : List Literal) × (written.new ≡ written.old ++ more)
        × AllZip (StandsForLiteral (network_of store.now.accepted)) (literals_of (counted_literals first literals.now)) more) }
{
    'literals: for place in 0..literals.len() {
        written.push(written_literal(alloc, store, first, literals.get(place))?)?;
    }
    Ok(())
}

/// The literals of the tree, and then those of the entry.
fn joint_literals(
    alloc: Global,
    store: &Store,
    first: u32,
    tree: &Literals,
    entry: &Literals,
) -> Result<Literals, Memory>
    requires tree_made { Each (IsLiteralBelow 4294967295) tree.now }
    requires entry_made { Each (IsLiteralBelow 4294967295) (counted_literals first entry.now) }
    ensures { IfOk result (λ written. AllZip (StandsForLiteral (network_of store.now.accepted)) (literals_of (tree.now ++ counted_literals first entry.now)) written) }
{
    let room = tree.len().saturating_add(entry.len());
    let mut written = Items::from_vec(Vec::with_capacity(alloc, room)?);
    put_literals(alloc, &mut written, store, 0, tree)?;
    put_literals(alloc, &mut written, store, first, entry)?;
    Ok(written)
}

/// The tree with what the entry adds, where the entry's features of the anchor belong to node number
/// `anchor` and the entry's variables are counted from `first`. The store has the equations of the two.
pub fn joint_tree(
    alloc: Global,
    store: &Store,
    first: u32,
    tree: &Tree,
    entry: &Entry,
    anchor: usize,
) -> Result<Tree, Memory>
    requires { IsReady (network_of store.now.accepted) tree.now entry.now first anchor }
    ensures { IfOk result (IsJointTree (network_of store.now.accepted) tree.now entry.now first anchor) }
{
    Ok(Tree {
        nodes: joint_nodes(alloc, store, first, tree, entry, anchor)?,
        iface: joint_bag(alloc, store, first, &tree.iface, &entry.iface)?,
        sem: joint_literals(alloc, store, first, &tree.sem, &entry.sem)?,
    })
}
