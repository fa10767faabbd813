//! The colour rule at tree nodes of small forests.
use gr_base::Items;
use std::test::Fail;
use td_colour::allowed;
use td_desc::{Colour, DescribedNode, DescribedNodes, Description, Network, SlotId};
use td_forest::Forest;

/// A node of a colour, whose slots play no part.
fn coloured(colour: Colour) -> DescribedNode {
    DescribedNode {
        colour,
        own: SlotId(0),
        top: SlotId(0),
        bot: SlotId(0),
    }
}

#[test]
fn one_black_with_whites_or_one_red(rt: HostRuntime) -> Result<(), Fail> {
    let alloc = rt.alloc();
    let mut nodes: DescribedNodes = Items::new(alloc);
    nodes.push(coloured(Colour::Black))?;
    nodes.push(coloured(Colour::White))?;
    nodes.push(coloured(Colour::Red))?;
    let description = Description {
        vars: 0,
        slots: 1,
        nodes,
        relations: Items::new(alloc),
        network: Network::new(alloc),
        iface: SlotId(0),
        sem: Items::new(alloc),
    };
    let mut forest = Forest::new();
    forest.insert(1, None, 0, 0);
    assert!(rt; !allowed(&description, &forest, 1));
    forest.merge(0, 1);
    assert!(rt; allowed(&description, &forest, 1));
    forest.merge(2, 0);
    assert!(rt; !allowed(&description, &forest, 0));
    Ok(())
}
