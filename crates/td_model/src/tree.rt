//! The tree of a model.
ghost use Rattle.std.specs.Prelude.{◌<◌, ◌≤◌, length, IfOk};
ghost use Rattle.gr_base.specs.Forests.{IsOneTree, size};
ghost use Rattle.gr_terms.specs.Views.{network_of};
ghost use Rattle.td_forest.specs.Nodes.{IsForestOf};
ghost use Rattle.td_forest.specs.Steps.{forest_of};
ghost use Rattle.td_desc.specs.Descriptions.{description_of};
ghost use Rattle.td_colour.specs.Models.{merged_network};
ghost use Rattle.td_model.specs.Carrying.{Carries};
ghost use Rattle.td_model.specs.CanonicalTrees.{AreAttributes};
ghost use Rattle.td_model.specs.ModelTrees.{IsModelTree};
ghost use Rattle.td_model.specs.Reading.{AreModelNodes, CoverAttributes, IsModelNode};
ghost use Rattle.gr_terms.specs.Networks.{Agrees};

use crate::bags::{bag_of, least_literals};
use gr_base::{Items, Memory};
use gr_store::Store;
use gr_terms::Syms;
use std::alloc::Global;
use td_desc::Description;
use td_forest::Forest;
use td_tree::{Tree, TreeNode, TreeNodes};

/// The tree node with a number in preorder: its parent, and the canonical bags of the slots of its
/// least node.
fn node_at(
    alloc: Global,
    d: &Description,
    attributes: &Syms,
    forest: &Forest,
    store: &Store,
    place: u8,
) -> Result<TreeNode, Memory>
    requires place { place < size (forest_of forest.now) }
    requires nodes { IsForestOf (length d.now.nodes) (forest_of forest.now) }
    requires agrees { Agrees (network_of store.now.accepted) }
    requires attributes { CoverAttributes store.now.accepted attributes.now }
    ensures { IfOk result (IsModelNode (network_of store.now.accepted) (description_of d.now) (forest_of forest.now) place) }
{
    let node = d.nodes.get(forest.head(place) as usize);
    Ok(TreeNode {
        parent: forest.parent(place),
        own: bag_of(alloc, store, node.own, attributes)?,
        top: bag_of(alloc, store, node.top, attributes)?,
        bot: bag_of(alloc, store, node.bot, attributes)?,
    })
}

/// The tree nodes in preorder.
fn nodes_of(
    alloc: Global,
    d: &Description,
    attributes: &Syms,
    forest: &Forest,
    store: &Store,
) -> Result<TreeNodes, Memory>
    requires nodes { IsForestOf (length d.now.nodes) (forest_of forest.now) }
    requires agrees { Agrees (network_of store.now.accepted) }
    requires attributes { CoverAttributes store.now.accepted attributes.now }
    ensures nodes { IfOk result (AreModelNodes (network_of store.now.accepted) (description_of d.now) (forest_of forest.now) (size (forest_of forest.now))) }
    ensures few { size (forest_of forest.now) ≤ 24 }
{
    let size = forest.size();
    let mut nodes = Vec::with_capacity(alloc, size as usize)?;
    'nodes: for place in 0..size {
        nodes.push(node_at(alloc, d, attributes, forest, store, place)?)?;
    }
    Ok(Items::from_vec(nodes))
}

/// The tree of a model of the description: its tree nodes in preorder, each with the canonical bags
/// of its three slots, the interface and the literals. The forest has just the description's nodes
/// and is one tree, `attributes` are those of the description's network, and the store's assertions
/// are that network and the links of the nodes that share a tree node.
pub fn tree_of(
    alloc: Global,
    d: &Description,
    attributes: &Syms,
    forest: &Forest,
    store: &Store,
) -> Result<Tree, Memory>
    requires one { IsOneTree (forest_of forest.now) }
    requires nodes { IsForestOf (length d.now.nodes) (forest_of forest.now) }
    requires attributes { AreAttributes d.now.network attributes.now }
    requires carries { Carries store.now.accepted (merged_network (description_of d.now) (forest_of forest.now)) }
    ensures { IfOk result (IsModelTree (description_of d.now) (forest_of forest.now)) }
{
    // The store's assertions agree, so each attribute has one value.
    store.agrees();
    Ok(Tree {
        nodes: nodes_of(alloc, d, attributes, forest, store)?,
        iface: bag_of(alloc, store, d.iface, attributes)?,
        sem: least_literals(alloc, store, &d.sem)?,
    })
}
