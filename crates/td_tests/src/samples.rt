//! Bags, nodes and small trees for the tests.
ghost use Rattle.std.specs.Prelude.{◌≡◌, IfOk};
ghost use Rattle.td_tree.specs.Trees.{AreTreeNodes};

use gr_base::{Items, Memory};
use gr_terms::{Bag, CAT, Literal, Sym, Term};
use std::alloc::Global;
use td_tree::{Tree, TreeNode, TreeNodes};

/// A bag of one pair.
pub fn one(alloc: Global, attribute: Sym, value: Term) -> Result<Bag, Memory> {
    let mut bag = Bag::new(alloc);
    bag.add(attribute, value)?;
    Ok(bag)
}

/// A node with a category.
pub fn node(alloc: Global, parent: Option<u8>, category: u32, top: Bag) -> Result<TreeNode, Memory>
    ensures { IfOk result (λ n. n.parent ≡ parent) }
{
    Ok(TreeNode {
        parent,
        own: one(alloc, CAT, Term::Const(Sym(category)))?,
        top,
        bot: Bag::new(alloc),
    })
}

/// A root with one leaf.
pub fn one_leaf(alloc: Global, leaf: u32, top: u32) -> Result<TreeNodes, Memory>
    ensures { IfOk result AreTreeNodes }
{
    let mut nodes = Items::new(alloc);
    nodes.push(node(alloc, None, 20, Bag::new(alloc))?)?;
    nodes.push(node(alloc, Some(0), leaf, one(alloc, Sym(30), Term::Var(top))?)?)?;
    Ok(nodes)
}

/// A root with two leaves.
pub fn two_leaves(alloc: Global, leaf: u32, top: u32) -> Result<TreeNodes, Memory>
    ensures { IfOk result AreTreeNodes }
{
    let mut nodes = Items::new(alloc);
    nodes.push(node(alloc, None, 20, Bag::new(alloc))?)?;
    nodes.push(node(alloc, Some(0), leaf, Bag::new(alloc))?)?;
    nodes.push(node(alloc, Some(0), 22, one(alloc, Sym(30), Term::Var(top))?)?)?;
    Ok(nodes)
}

/// The tree of these nodes, with a variable at the interface and one in a literal.
pub fn tree(alloc: Global, nodes: TreeNodes, iface: u32, arg: u32) -> Result<Tree, Memory>
    requires { AreTreeNodes nodes }
    ensures { IfOk result (λ t. AreTreeNodes t.nodes) }
{
    let mut args = Items::new(alloc);
    args.push(Term::Var(arg))?;
    let mut sem = Items::new(alloc);
    sem.push(Literal {
        handle: Term::Var(8),
        pred: Term::Const(Sym(40)),
        args,
    })?;
    Ok(Tree {
        nodes,
        iface: one(alloc, Sym(31), Term::Var(iface))?,
        sem,
    })
}
