//! What the bags of a tree tell of themselves.
ghost use Rattle.gr_terms.specs.Bags.{IsListed};
ghost use Rattle.td_tree.specs.Trees.{HasListedBags, IsListedNode};

use crate::{Tree, TreeNode};
use gr_terms::Bag;

/// The attributes of a bag rise.
fn bag_is_listed(bag: &Bag)
    ensures { IsListed bag.now }
{
    let _pairs = bag.len();
}

fn node_is_listed(node: &TreeNode)
    ensures { IsListedNode node.now }
{
    bag_is_listed(&node.own);
    bag_is_listed(&node.top);
    bag_is_listed(&node.bot);
}

/// Each bag of a tree has its attributes by rising number, so each of them once, and the tree's own
/// network links nothing. The call only asks each bag, which a few reads do.
pub fn bags_are_listed(tree: &Tree)
    ensures { HasListedBags tree.now }
{
    bag_is_listed(&tree.iface);
    for node in tree.nodes.as_slice() {
        node_is_listed(node);
    }
}
