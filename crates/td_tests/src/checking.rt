//! Maps that make a tree a model, and maps that don't.
ghost use Rattle.std.specs.Prelude.{◌≡◌, ◌+◌, ◌<◌, IfOk, length};
ghost use Rattle.td_desc.specs.Conditions.{IsNumbered};
ghost use Rattle.td_tree.specs.Trees.{AreTreeNodes};

use crate::samples::{one_leaf, tree, two_leaves};
use gr_base::Items;
use gr_store::{Memory, Room, Store};
use gr_terms::{Assertion, Bag, CAT, Literal, Network, SlotId, Sym, Term};
use std::alloc::Global;
use std::test::Fail;
use td_check::is_minimal_model;
use td_desc::{Colour, DescribedNode, Description, Dominance, Related};
use td_tree::{Tree, TreeNode, TreeNodes};

/// A node whose slots are the next three from a first one on.
fn described(colour: Colour, first: u32) -> DescribedNode
    requires { first < 1000 }
    ensures colour { result.colour ≡ colour }
    ensures own { result.own.0 ≡ first }
    ensures top { result.top.0 ≡ first + 1 }
    ensures bot { result.bot.0 ≡ first + 2 }
{
    DescribedNode {
        colour,
        own: SlotId(first),
        top: SlotId(first + 1),
        bot: SlotId(first + 2),
    }
}

/// Three nodes: a black over a black, which stands so to the third. The second has a category, and
/// the third the one that is given; what is at the top of the third is at the interface too.
fn sample(
    alloc: Global,
    third: Colour,
    how: Dominance,
    category: u32,
) -> Result<Description, Memory>
    ensures numbered { IfOk result IsNumbered }
    ensures vars { IfOk result (λ d. d.vars ≡ 3) }
    ensures slots { IfOk result (λ d. d.slots ≡ 10) }
    ensures network { IfOk result (λ d. length d.network ≡ 6) }
    ensures nodes { IfOk result (λ d. length d.nodes ≡ 3) }
{
    let mut nodes = Items::new(alloc);
    nodes.push(described(Colour::Black, 0))?;
    nodes.push(described(Colour::Black, 3))?;
    nodes.push(described(third, 6))?;
    let mut relations = Items::new(alloc);
    relations.push(Related {
        from: 0,
        how: Dominance::Parent,
        to: 1,
    })?;
    relations.push(Related {
        from: 1,
        how,
        to: 2,
    })?;
    let mut network = Network::new(alloc);
    network.push(Assertion::Entry(SlotId(0), CAT, Term::Const(Sym(20))))?;
    network.push(Assertion::Entry(SlotId(3), CAT, Term::Var(0)))?;
    network.push(Assertion::Equate(Term::Var(0), Term::Const(Sym(21))))?;
    network.push(Assertion::Entry(SlotId(6), CAT, Term::Const(Sym(category))))?;
    network.push(Assertion::Entry(SlotId(7), Sym(30), Term::Var(1)))?;
    network.push(Assertion::Entry(SlotId(9), Sym(31), Term::Var(1)))?;
    let mut args = Items::new(alloc);
    args.push(Term::Var(1))?;
    let mut sem = Items::new(alloc);
    sem.push(Literal {
        handle: Term::Var(2),
        pred: Term::Const(Sym(40)),
        args,
    })?;
    Ok(Description {
        vars: 3,
        slots: 10,
        nodes,
        relations,
        network,
        iface: SlotId(9),
        sem,
    })
}

/// A root with a leaf or two under it, where a variable stands at the top of the last one.
fn leaves(alloc: Global, leaf: u32, more: bool, top: u32) -> Result<TreeNodes, Memory>
    ensures { IfOk result AreTreeNodes }
{
    if more {
        return two_leaves(alloc, leaf, top);
    }
    one_leaf(alloc, leaf, top)
}

/// What is varied: the third node's colour, how the second stands to it, and its category; the leaf's
/// category and whether there is a second leaf; the variables at the leaf's top, at the interface and
/// in the literal; and the map.
#[derive(Clone, Copy)]
struct Case<'a> {
    third: Colour,
    how: Dominance,
    category: u32,
    leaf: u32,
    more: bool,
    top: u32,
    iface: u32,
    arg: u32,
    map: &'a [u8],
}

/// A model: the third node is white, and shares the leaf with the second.
const MODEL: Case<'static> = Case {
    third: Colour::White,
    how: Dominance::AboveOrSame,
    category: 21,
    leaf: 21,
    more: false,
    top: 5,
    iface: 5,
    arg: 5,
    map: &[0, 1, 1],
};

/// Whether the checker says yes, in a store that has a variable and an entry of its own and else just
/// enough room, and whether the store is then as it was.
fn answer(alloc: Global, case: Case<'_>) -> Result<(bool, bool), Memory> {
    let d = sample(alloc, case.third, case.how, case.category)?;
    let nodes = leaves(alloc, case.leaf, case.more, case.top)?;
    let t = tree(alloc, nodes, case.iface, case.arg)?;
    let room = Room {
        vars: 4,
        slots: 11,
        entries: 7,
        assertions: 16,
    };
    let mut store = Store::with_room(alloc, room)?;
    let var = store.fresh();
    let slot = store.slot();
    let _put = store.put(slot, CAT, var);
    let before = (store.mark(), store.spare());
    let answer = is_minimal_model(&d, &t, case.map, &mut store);
    Ok((answer, (store.mark(), store.spare()) == before))
}

#[test]
fn a_model_and_what_is_none(rt: HostRuntime) -> Result<(), Fail> {
    let alloc = rt.alloc();
    let yes = (true, true);
    let no = (false, true);
    assert_eq!(rt; answer(alloc, MODEL)?, yes);

    // The map is too short or too long, names a node that isn't there, or leaves one out.
    assert_eq!(rt;
        answer(
            alloc,
            Case {
                map: &[0, 1],
                ..MODEL
            }
        )?,
        no
    );
    assert_eq!(rt;
        answer(
            alloc,
            Case {
                map: &[0, 1, 1, 1],
                ..MODEL
            }
        )?,
        no
    );
    assert_eq!(rt;
        answer(
            alloc,
            Case {
                map: &[0, 1, 2],
                ..MODEL
            }
        )?,
        no
    );
    assert_eq!(rt;
        answer(
            alloc,
            Case {
                more: true,
                ..MODEL
            }
        )?,
        no
    );

    // The third node may not share a leaf, or has another category, which shows in the links alone.
    assert_eq!(rt;
        answer(
            alloc,
            Case {
                third: Colour::Red,
                ..MODEL
            }
        )?,
        no
    );
    assert_eq!(rt;
        answer(
            alloc,
            Case {
                third: Colour::Black,
                ..MODEL
            }
        )?,
        no
    );
    assert_eq!(rt;
        answer(
            alloc,
            Case {
                category: 22,
                ..MODEL
            }
        )?,
        no
    );

    // Relations that don't hold.
    assert_eq!(rt;
        answer(
            alloc,
            Case {
                how: Dominance::Above,
                ..MODEL
            }
        )?,
        no
    );
    assert_eq!(rt;
        answer(
            alloc,
            Case {
                how: Dominance::Next,
                ..MODEL
            }
        )?,
        no
    );
    assert_eq!(rt;
        answer(
            alloc,
            Case {
                how: Dominance::LeftOrSame,
                ..MODEL
            }
        )?,
        yes
    );
    Ok(())
}

#[test]
fn trees_with_other_features(rt: HostRuntime) -> Result<(), Fail> {
    let alloc = rt.alloc();
    let yes = (true, true);
    let no = (false, true);

    // Variables may have any names, as long as they tell apart what is not linked, and nothing else.
    assert_eq!(rt;
        answer(
            alloc,
            Case {
                top: 7,
                iface: 7,
                arg: 7,
                ..MODEL
            }
        )?,
        yes
    );
    assert_eq!(rt; answer(alloc, Case { iface: 6, ..MODEL })?, no);
    assert_eq!(rt; answer(alloc, Case { arg: 6, ..MODEL })?, no);
    assert_eq!(rt;
        answer(
            alloc,
            Case {
                top: 8,
                iface: 8,
                arg: 8,
                ..MODEL
            }
        )?,
        no
    );
    assert_eq!(rt; answer(alloc, Case { leaf: 23, ..MODEL })?, no);
    Ok(())
}

#[test]
fn leaves_beside_each_other(rt: HostRuntime) -> Result<(), Fail> {
    let alloc = rt.alloc();
    let yes = (true, true);
    let no = (false, true);
    let apart = Case {
        third: Colour::Red,
        how: Dominance::Next,
        category: 22,
        more: true,
        map: &[0, 1, 2],
        ..MODEL
    };
    assert_eq!(rt; answer(alloc, apart)?, yes);
    assert_eq!(rt;
        answer(
            alloc,
            Case {
                third: Colour::White,
                ..apart
            }
        )?,
        no
    );
    assert_eq!(rt;
        answer(
            alloc,
            Case {
                how: Dominance::Parent,
                ..apart
            }
        )?,
        no
    );
    assert_eq!(rt;
        answer(
            alloc,
            Case {
                map: &[0, 2, 1],
                ..apart
            }
        )?,
        no
    );
    Ok(())
}
