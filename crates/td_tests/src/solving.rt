//! Small descriptions and their models.
use crate::sketch::{Sketch, describe};
use gr_base::Memory;
use gr_symbols::Symbols;
use gr_text::Budget;
use std::alloc::Global;
use std::test::Fail;
use td_canon::TreeSet;
use td_solver::{Solved, solve};

/// The categories of the first nodes.
const CATEGORIES: &str = "o0.cat=cat o1.cat=mark o2.cat=name o3.cat=foot";

/// What a description gives for a budget: how it ends, the units that are left, and the texts of the
/// trees by rising text.
fn solved(alloc: Global, sketch: Sketch<'_>, units: u32) -> Result<String, Memory> {
    let symbols = Symbols::new(alloc)?;
    let d = describe(alloc, sketch, &symbols)?;
    let mut budget = Budget { left: units };
    let mut out = TreeSet::new(alloc);
    let how = match solve(alloc, &d, &symbols, &mut budget, &mut out)? {
        Solved::All => "all",
        Solved::Cut => "cut",
    };
    let mut told = format!(in alloc; "{how} {}:", budget.left)?;
    push_texts(&mut told, &out)?;
    Ok(told)
}

fn push_texts(told: &mut String, out: &TreeSet) -> Result<(), Memory> {
    for place in 0..out.len() {
        told.push_str(" ")?;
        told.push_str(out.text(place))?;
        told.push_str(";")?;
    }
    Ok(())
}

/// The same for 100 units, without literals.
fn found(alloc: Global, nodes: &str, relations: &str, network: &str) -> Result<String, Memory> {
    let sketch = Sketch {
        nodes,
        relations,
        network,
        literals: "",
    };
    solved(alloc, sketch, 100)
}

#[test]
fn single_nodes(rt: HostRuntime) -> Result<(), Fail> {
    let alloc = rt.alloc();
    assert_eq!(rt; found(alloc, "", "", "")?.as_str(), "all 100:");
    assert_eq!(rt;
        found(alloc, "b", "", "o0.cat=foot")?.as_str(),
        "all 99: foot;"
    );
    assert_eq!(rt; found(alloc, "r", "", "")?.as_str(), "all 99: -;");
    // A white alone is no model, and names that clash leave none.
    assert_eq!(rt; found(alloc, "w", "", "o0.cat=foot")?.as_str(), "all 100:");
    assert_eq!(rt;
        found(alloc, "b", "", "?0=foot ?0=mark")?.as_str(),
        "all 100:"
    );
    Ok(())
}

#[test]
fn sisters_and_neighbours(rt: HostRuntime) -> Result<(), Fail> {
    let alloc = rt.alloc();
    // One model of the root, one with one daughter, and two orders.
    let sisters = found(alloc, "bbb", "0->1 0->2", CATEGORIES)?;
    assert_eq!(rt; sisters.as_str(), "all 96: cat(mark name); cat(name mark);");
    // A third node comes between two neighbours, and they are none any more.
    let apart = found(alloc, "bbbb", "0->1 0->2 0->3 1>>2", CATEGORIES)?;
    assert_eq!(rt;
        apart.as_str(),
        "all 95: cat(foot mark name); cat(mark name foot);"
    );
    let gap = found(alloc, "bbbb", "0->1 0->2 0->3 1>>+3 3>>+2 1>>2", CATEGORIES)?;
    assert_eq!(rt; gap.as_str(), "all 97:");
    assert_eq!(rt; found(alloc, "bb", "0>>1", "")?.as_str(), "all 98:");
    Ok(())
}

#[test]
fn nodes_above_others(rt: HostRuntime) -> Result<(), Fail> {
    let alloc = rt.alloc();
    let red = found(alloc, "br", "0->*1", "o0.cat=cat o1.cat=mark")?;
    assert_eq!(rt; red.as_str(), "all 98: cat(mark);");
    assert_eq!(rt;
        found(alloc, "bw", "0->*1", "o0.cat=cat")?.as_str(),
        "all 98: cat;"
    );
    let between = found(alloc, "bbb", "0->+1 0->2 2->1", CATEGORIES)?;
    assert_eq!(rt; between.as_str(), "all 97: cat(name(mark));");
    // Blacks with the same category stay two.
    let equal = found(alloc, "bb", "", "o0.cat=foot o1.cat=foot")?;
    assert_eq!(rt; equal.as_str(), "all 95: foot(foot);");
    Ok(())
}

#[test]
fn whites_stand_for_blacks(rt: HostRuntime) -> Result<(), Fail> {
    let alloc = rt.alloc();
    let shared = found(
        alloc,
        "bbw",
        "0->1 0->2",
        "o0.cat=cat o1.cat=?0 t2.nadj=?0 o2.cat=mark",
    )?;
    assert_eq!(rt; shared.as_str(), "all 97: cat(mark^[nadj=mark]);");
    let other = found(alloc, "bbw", "0->1 0->2", "o1.cat=mark o2.cat=name")?;
    assert_eq!(rt; other.as_str(), "all 98:");
    assert_eq!(rt; found(alloc, "bwr", "0->1 0->2", "")?.as_str(), "all 99:");
    Ok(())
}

#[test]
fn parents_that_are_told(rt: HostRuntime) -> Result<(), Fail> {
    let alloc = rt.alloc();
    let chain = found(alloc, "bbbb", "0->1 1->2 2->3", CATEGORIES)?;
    assert_eq!(rt; chain.as_str(), "all 96: cat(mark(name(foot)));");
    // The parent of node 2 isn't told, so node 3 may come over it, and not over node 1.
    let loose = found(alloc, "bbbb", "0->1 0->+2 0->3", CATEGORIES)?;
    let trees = "all 85: cat(foot mark name); cat(foot mark(name)); cat(foot name mark); \
        cat(foot(name) mark); cat(mark foot name); cat(mark foot(name)); cat(mark name foot); \
        cat(mark(name) foot); cat(name foot mark); cat(name mark foot);";
    assert_eq!(rt; loose.as_str(), trees);
    // The parent may come later, and then it takes the node over.
    let later = found(alloc, "bbb", "2->0 2->1", CATEGORIES)?;
    assert_eq!(rt; later.as_str(), "all 93: name(cat mark); name(mark cat);");
    Ok(())
}

#[test]
fn whites_with_parents_that_are_told(rt: HostRuntime) -> Result<(), Fail> {
    let alloc = rt.alloc();
    let deep = found(
        alloc,
        "bbbw",
        "0->1 1->2 1->3",
        "o0.cat=cat o1.cat=mark o2.cat=name",
    )?;
    assert_eq!(rt; deep.as_str(), "all 96: cat(mark(name));");
    let loose = found(alloc, "bbw", "0->+1 0->2", "o0.cat=cat o1.cat=mark")?;
    assert_eq!(rt; loose.as_str(), "all 97: cat(mark);");
    Ok(())
}

#[test]
fn what_trees_show(rt: HostRuntime) -> Result<(), Fail> {
    let sketch = Sketch {
        nodes: "bb",
        relations: "0->1",
        network: "o0.cat=cat t0.nadj=?0 b1.nadj=?1 o1.mark=lex i.name=?1 b1.lex=?2",
        literals: "?0,foot,?2,?3 ?3,foot",
    };
    let told = solved(rt.alloc(), sketch, 2)?;
    let text =
        "all 0: cat^[nadj=?1](-{mark=lex}/[lex=?2,nadj=?3]) iface[name=?3] ?1:foot(?2 ?4) ?4:foot();";
    assert_eq!(rt; told.as_str(), text);
    Ok(())
}

#[test]
fn a_budget_covers_the_forest_models(rt: HostRuntime) -> Result<(), Fail> {
    let alloc = rt.alloc();
    let sketch = Sketch {
        nodes: "bbb",
        relations: "0->1 0->2",
        network: "",
        literals: "",
    };
    assert_eq!(rt; solved(alloc, sketch, 0)?.as_str(), "cut 0:");
    assert_eq!(rt; solved(alloc, sketch, 2)?.as_str(), "cut 0:");
    assert_eq!(rt; solved(alloc, sketch, 3)?.as_str(), "cut 0: -(- -);");
    assert_eq!(rt; solved(alloc, sketch, 4)?.as_str(), "all 0: -(- -);");
    assert_eq!(rt; solved(alloc, sketch, 5)?.as_str(), "all 1: -(- -);");
    Ok(())
}
