use gr_base::Items;
use std::test::Fail;
use td_desc::*;

#[test]
fn a_description_has_a_node(rt: HostRuntime) -> Result<(), Fail> {
    let alloc = rt.alloc();
    let node = DescribedNode {
        colour: Colour::Red,
        own: SlotId(1),
        top: SlotId(2),
        bot: SlotId(3),
    };
    let mut nodes: DescribedNodes = Items::new(alloc);
    nodes.push(node)?;
    let mut relations: Relations = Items::new(alloc);
    relations.push(Related {
        from: 0,
        how: Dominance::AboveOrSame,
        to: 0,
    })?;
    let description = Description {
        vars: 0,
        slots: 4,
        nodes,
        relations,
        network: Network::new(alloc),
        iface: SlotId(0),
        sem: Items::new(alloc),
    };
    assert_eq!(rt; description.count(), 1);
    assert_eq!(rt; *description.nodes.get(0), node);
    assert_eq!(rt; description.relations.len(), 1);
    Ok(())
}
