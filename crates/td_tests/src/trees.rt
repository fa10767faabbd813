//! The children of a node.
use crate::samples::{tree, two_leaves};
use std::test::Fail;

#[test]
fn children_stand_from_left_to_right(rt: HostRuntime) -> Result<(), Fail> {
    let alloc = rt.alloc();
    let nodes = two_leaves(alloc, 21, 0)?;
    assert_eq!(rt; nodes.len(), 3);
    let tree = tree(alloc, nodes, 0, 0)?;
    let numbers: Vec<u8> = tree.children(0).collect(alloc)?;
    assert_eq!(rt; numbers.as_slice(), [1, 2].as_slice());
    Ok(())
}
