use super::*;
use gr_base::Items;
use gr_terms::{Bag, CAT, Sym};
use std::alloc::Global;
use std::test::Fail;
use td_tree::Tree;

/// A tree without nodes.
fn no_tree(alloc: Global) -> Tree {
    Tree {
        nodes: Items::new(alloc),
        iface: Bag::new(alloc),
        sem: Items::new(alloc),
    }
}

#[test]
fn lists_of_lexical_trees_take_an_item(rt: HostRuntime) -> Result<(), Fail> {
    let mut coanchors: CoLemmas = Items::new(rt.alloc());
    coanchors.push((3, Sym(20)))?;
    assert_eq!(rt; coanchors.as_slice(), [(3, Sym(20))].as_slice());
    let mut trees: LexicalTrees = Items::new(rt.alloc());
    trees.push(LexicalTree {
        entry: 1,
        class: CAT,
        number: 2,
        lemma: Sym(21),
        coanchors,
        tree: no_tree(rt.alloc()),
    })?;
    assert_eq!(rt; trees.len(), 1);
    assert_eq!(rt; trees.get(0).lemma, Sym(21));
    Ok(())
}

#[test]
fn lists_of_instances_take_an_item(rt: HostRuntime) -> Result<(), Fail> {
    let mut places: Places = Items::new(rt.alloc());
    places.push(4)?;
    assert_eq!(rt; places.as_slice(), [4].as_slice());
    let mut instances: Instances = Items::new(rt.alloc());
    instances.push(Instance { tree: 7, places })?;
    assert_eq!(rt; instances.len(), 1);
    assert_eq!(rt; instances.get(0).tree, 7);
    Ok(())
}
