//! Checks one given model: whether a map from the nodes of a description to those of a tree makes
//! the tree a minimal model of the description.
//!
//! # Model
//!
//! - A map is the list of the numbers of tree nodes, one for each node of the description. It makes
//!   of the tree a forest of sets (`sets_of` of `specs/Sets`): in place of each tree node stands the
//!   set of the nodes that are sent to it.
//! - `specs/Models` says when it makes the tree a minimal model (`MakesMinimalModel`): the forest of
//!   sets is one, by the definition of `td_colour`, and the tree is the tree of that model.
//! - `specs/ModelTrees` says when a tree is that of a network (`IsTreeOf`): the trees have one shape,
//!   the lists of the tree have just the attributes of the slots, and two of its values are one term
//!   exactly where the network links what they stand for, and a name exactly where that is linked
//!   with the name. So it doesn't matter what the variables of the tree are called.
//!
//! The tree's lists, interface and literals are looked at, and not its shape alone: a model has one
//! tree, up to the names of variables, and a tree with other features is that of no model.
//!
//! # What the crates above can rely on
//!
//! - [`is_minimal_model`] says exactly whether the map makes the tree a minimal model. It takes no
//!   memory, since it works in spare room of a store that it is lent, and leaves the store as it was.
//! - [`laws`]: such a map names each node of the tree and no other number; a tree that has a canonical
//!   form of the model's tree is the model's tree, and a tree that is has only forms of the model's.
//! - It is for users and tests, and for whoever writes another search for models.
//!
//! # How it works
//!
//! `shape` decides relations by the numbers of nodes in preorder, `sets` the map and the colour rule.
//! `load` puts the network, with the slots of nodes that share a tree node linked, into the store.
//! `sides` compares the tree with what the store then has. Each pass goes over the description, the
//! map or the tree once, but for the values of the tree: each of these is compared with each other.
#![tactic(auto)]

ghost use Rattle.std.specs.Prelude.{◌≡◌, ◌↔◌, IsTrue, length};
ghost use Rattle.gr_terms.specs.Networks.{Agrees};
ghost use Rattle.gr_terms.specs.Views.{network_of};
ghost use Rattle.gr_store.specs.Contents.{Grows, MentionsAll};
ghost use Rattle.td_desc.specs.Conditions.{IsNumbered};
ghost use Rattle.td_tree.specs.Trees.{AreTreeNodes};
ghost use Rattle.td_check.specs.Models.{AgreesWith, MakesMinimalModel};
ghost use Rattle.td_check.specs.Places.{AreHeads};
ghost use Rattle.td_check.specs.Rooms.{HasRoom};
ghost use Rattle.td_check.specs.Sets.{IsOnto};

pub mod laws;
mod load;
mod sets;
mod shape;
mod sides;

use gr_store::Store;
use load::{link_sets, load_network, make_numbers};
use sets::{all_lawful, heads, is_onto};
use shape::all_hold;
use sides::Sides;
use td_desc::Description;
use td_tree::Tree;

/// Loads the description's network, with the slots of nodes that share a tree node linked, and says
/// whether it agrees and the tree is that of what the store then has.
fn is_tree_of(
    d: &Description,
    tree: &Tree,
    map: &[u8],
    heads: [usize; 24],
    store: &mut Store,
) -> bool
    requires numbered { IsNumbered d.now }
    requires nodes { AreTreeNodes tree.now.nodes }
    requires onto { IsOnto map.now (length d.now.nodes) (length tree.now.nodes) }
    requires heads { AreHeads map.now (length tree.now.nodes) heads }
    requires agreed { Agrees (network_of store.old.accepted) }
    requires mentions { MentionsAll store.old.vars store.old.slots store.old.accepted }
    requires room { HasRoom store.old d.now }
    ensures tree { IsTrue result ↔ AgreesWith d.now tree.now map.now }
    ensures grows { Grows store.old store.new }
{
    let (vars, slots) = make_numbers(store, d.vars, d.slots);
    let count = tree.nodes.len() as u8;
    if !load_network(store, vars, slots, &d.network) {
        return false;
    }
    if !link_sets(store, slots, &d.nodes, map, count, &heads) {
        return false;
    }
    let sides = Sides {
        d,
        tree,
        store,
        heads,
        vars,
        slots,
    };
    sides.are_alike()
}

/// Whether the map of the description's nodes to the tree's, by their numbers from 0, makes the tree
/// a minimal model of the description. The store has spare room for the description's variables,
/// slots and network and for three assertions more for each node. Its variables and slots may be in
/// use: the network is loaded with numbers counted from those that it has made. Takes no memory.
pub fn is_minimal_model(d: &Description, tree: &Tree, map: &[u8], store: &mut Store) -> bool
    requires numbered { IsNumbered d.now }
    requires nodes { AreTreeNodes tree.now.nodes }
    requires room { HasRoom store.old d.now }
    ensures model { IsTrue result ↔ MakesMinimalModel d.now tree.now map.now }
    ensures kept { store.new ≡ store.old }
{
    if !is_onto(map, d.count(), tree.nodes.len()) {
        return false;
    }
    let count = tree.nodes.len() as u8;
    let heads = heads(map, count);
    if !all_lawful(d, map, count, &heads) {
        return false;
    }
    if !all_hold(d, tree.nodes.as_slice(), map) {
        return false;
    }
    let before = store.mark();
    let answer = is_tree_of(d, tree, map, heads, store);
    store.undo(before);
    answer
}
