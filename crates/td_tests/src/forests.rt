//! Forests made by steps.
use std::test::Fail;
use td_forest::{Forest, Relation};

#[test]
fn five_nodes_come_and_go(rt: HostRuntime) -> Result<(), Fail> {
    let mut forest = Forest::new();
    forest.insert(0, None, 0, 0);
    forest.insert(1, Some(0), 0, 0);
    forest.insert(2, Some(0), 1, 1);
    assert_eq!(rt; forest.relation(1, 2), Relation::Left);
    assert_eq!(rt; forest.width(Some(0)), 2);
    forest.insert(3, Some(0), 1, 2);
    assert_eq!(rt; forest.relation(3, 2), Relation::Over);
    assert_eq!(rt; forest.relation(2, 1), Relation::Right);
    forest.merge(4, 3);
    assert_eq!(rt; forest.relation(2, 4), Relation::Under);
    assert!(rt; forest.relates(3, 4, Relation::Same));
    forest.remove_last();
    assert!(rt; !forest.has(4));
    forest.remove_last();
    assert_eq!(rt; forest.width(Some(0)), 2);
    assert_eq!(rt; forest.width(None), 1);
    Ok(())
}

#[test]
fn a_forest_is_read_in_preorder(rt: HostRuntime) -> Result<(), Fail> {
    let mut forest = Forest::new();
    forest.insert(5, None, 0, 0);
    forest.insert(2, None, 0, 1);
    forest.merge(4, 5);
    assert_eq!(rt; forest.count(), 3);
    assert_eq!(rt; forest.size(), 2);
    assert_eq!(rt; forest.place(5), 1);
    assert_eq!(rt; forest.head(1), 4);
    assert_eq!(rt; forest.parent(1), Some(0));
    assert_eq!(rt; forest.parent(0), None);
    Ok(())
}
