//! Values of linked slots. Nodes below `base` are slots, and behind them stand the nodes of the
//! places of assertions.
ghost use Rattle.std.specs.Prelude.{◌≡◌, ◌≢◌, ℕ, ◌+◌, ◌<◌, ◌≤◌, List, [], ◌∷◌, ◌++◌, ◌^◌, length};
ghost use Rattle.std.specs.Bool.{OnTrue, OnFalse};
ghost use Rattle.gr_terms.specs.Networks.{Agrees};
ghost use Rattle.gr_terms.specs.Views.{network_of};
ghost use Rattle.gr_terms.specs.declared.Assertion.{Assertion};
ghost use Rattle.gr_terms.specs.declared.Term.{Term};
ghost use Rattle.gr_store.specs.Contents.{rank};
ghost use Rattle.gr_store.specs.Roots.{root_by, slot_root, Extends};
ghost use Rattle.gr_store.specs.Rings.{HasRing};
ghost use Rattle.gr_store.specs.Solution.{ArePooled, AreShared, Solves, ValuesBelow};
ghost use Rattle.gr_store.specs.Index.{IsIndex, IsIndexed, InClass, SharesNode, JoinsLinked, KeepsApart};
ghost use Rattle.gr_store.specs.State.{assertions_of};

use crate::bindings::Bindings;
use crate::entries::any_entry;
use crate::kept::Kept;
use crate::rings::Rings;
use gr_terms::{Assertion, SlotId, Sym, Term};

/// Joins the value of a node's entry with that of an entry of its attribute in another class.
fn pool_one(
    kept: &[Kept],
    nodes: &Rings,
    terms: &mut Bindings,
    base: u32,
    node: u32,
    into: u32,
) -> bool
    requires indexed { IsIndexed base (assertions_of kept.now) nodes.now }
    requires values { ValuesBelow terms.old.0 (assertions_of kept.now) }
    requires ring { HasRing nodes.now into }
    requires slot { into < base }
    requires node_in { node < base + length kept.now }
    ensures size { terms.new.0 ≡ terms.old.0 }
    ensures extends { Extends terms.old.1 terms.new.1 }
    ensures is_linked { (from : ℕ) → root_by nodes.now.1 (Term.Var node) ≡ Term.Var from
        → JoinsLinked base (assertions_of kept.now) nodes.now.1 terms.old.1 terms.new.1 from into }
    ensures shares { OnTrue result (ArePooled (assertions_of kept.now) (root_by terms.old.1) (slot_root nodes.now.1)
        → SharesNode base (assertions_of kept.now) (root_by terms.new.1) (InClass nodes.now.1 into) node) }
    ensures clash { OnFalse result ((from : ℕ) → root_by nodes.now.1 (Term.Var node) ≡ Term.Var from
        → KeepsApart base (assertions_of kept.now) nodes.now.1 terms.old.1 from into) }
{
    if node < base {
        return true;
    }
    match kept[(node - base) as usize].assertion {
        Assertion::Entry(_, attr, value) => match any_entry(kept, nodes, base, into, attr) {
            None => true,
            Some(other) => terms.unify(other, value),
        },
        Assertion::Equate(_, _) => true,
        Assertion::Link(_, _) => true,
    }
}

/// Joins the values of each attribute that slots of two classes have, as long as no two
/// different names meet.
fn pool(kept: &[Kept], nodes: &Rings, terms: &mut Bindings, base: u32, from: u32, into: u32) -> bool
    requires indexed { IsIndexed base (assertions_of kept.now) nodes.now }
    requires values { ValuesBelow terms.old.0 (assertions_of kept.now) }
    requires from_ring { HasRing nodes.now from }
    requires ring { HasRing nodes.now into }
    requires from_slot { from < base }
    requires slot { into < base }
    ensures size { terms.new.0 ≡ terms.old.0 }
    ensures extends { Extends terms.old.1 terms.new.1 }
    ensures is_linked { JoinsLinked base (assertions_of kept.now) nodes.now.1 terms.old.1 terms.new.1 from into }
    ensures shares { OnTrue result (ArePooled (assertions_of kept.now) (root_by terms.old.1) (slot_root nodes.now.1)
        → AreShared (assertions_of kept.now) (root_by terms.new.1)
        (InClass nodes.now.1 from) (InClass nodes.now.1 into)) }
    ensures clash { OnFalse result (KeepsApart base (assertions_of kept.now) nodes.now.1 terms.old.1 from into) }
{
    let mut at = from;
    'walk: for _ in 0..nodes.size() {
        at = nodes.next(at);
        if at == from {
            return true;
        }
        if !pool_one(kept, nodes, terms, base, at, into) {
            return false;
        }
    }
    unreachable!()
}

/// Joins the values of each attribute that slots of two classes have, as long as no two
/// different names meet, going over the smaller class.
fn pool_classes(
    kept: &[Kept],
    nodes: &Rings,
    terms: &mut Bindings,
    base: u32,
    from: u32,
    into: u32,
) -> bool
    requires indexed { IsIndexed base (assertions_of kept.now) nodes.now }
    requires values { ValuesBelow terms.old.0 (assertions_of kept.now) }
    requires from_ring { HasRing nodes.now from }
    requires ring { HasRing nodes.now into }
    requires from_slot { from < base }
    requires slot { into < base }
    ensures size { terms.new.0 ≡ terms.old.0 }
    ensures extends { Extends terms.old.1 terms.new.1 }
    ensures is_linked { JoinsLinked base (assertions_of kept.now) nodes.now.1 terms.old.1 terms.new.1 from into }
    ensures shares { OnTrue result (ArePooled (assertions_of kept.now) (root_by terms.old.1) (slot_root nodes.now.1)
        → AreShared (assertions_of kept.now) (root_by terms.new.1)
        (InClass nodes.now.1 from) (InClass nodes.now.1 into)) }
    ensures clash { OnFalse result (KeepsApart base (assertions_of kept.now) nodes.now.1 terms.old.1 from into) }
{
    if nodes.is_no_larger(from, into) {
        pool(kept, nodes, terms, base, from, into)
    } else {
        pool(kept, nodes, terms, base, into, from)
    }
}

/// Joins a value with that of an entry of its attribute in the class of a slot.
fn put_value(
    kept: &[Kept],
    nodes: &Rings,
    terms: &mut Bindings,
    base: u32,
    slot: SlotId,
    attr: Sym,
    value: Term,
) -> bool
    requires indexed { IsIndexed base (assertions_of kept.now) nodes.now }
    requires values { ValuesBelow terms.old.0 (assertions_of kept.now) }
    requires slot_in { slot.0 < base }
    requires value_in { rank value ≤ terms.old.0 }
    ensures size { terms.new.0 ≡ terms.old.0 }
    ensures extends { Extends terms.old.1 terms.new.1 }
    ensures solved { OnTrue result (Solves base (assertions_of kept.now) (root_by terms.old.1) (slot_root nodes.now.1)
        → Solves base (assertions_of kept.now ++ Assertion.Entry slot attr value ∷ [])
        (root_by terms.new.1) (slot_root nodes.now.1)) }
    ensures clash { OnFalse result ((terms.new.1 ≡ terms.old.1)
        × (Solves base (assertions_of kept.now) (root_by terms.old.1) (slot_root nodes.now.1)
        → Agrees (network_of (assertions_of kept.now ++ Assertion.Entry slot attr value ∷ [])) → ⊥)) }
{
    let root = nodes.root(slot.0);
    match any_entry(kept, nodes, base, root, attr) {
        None => true,
        Some(other) => terms.unify(other, value),
    }
}

/// Joins a value with that of an entry of its attribute in the class of a slot, and the node of
/// the next place with the slot.
pub fn put_entry(
    kept: &[Kept],
    nodes: &mut Rings,
    terms: &mut Bindings,
    base: u32,
    slot: SlotId,
    attr: Sym,
    value: Term,
) -> bool
    requires indexed { IsIndexed base (assertions_of kept.now) nodes.old }
    requires room { base + length kept.now < nodes.old.0 }
    requires fits { nodes.old.0 < 2 ^ 32 }
    requires values { ValuesBelow terms.old.0 (assertions_of kept.now) }
    requires slot_in { slot.0 < base }
    requires value_in { rank value ≤ terms.old.0 }
    ensures nodes_size { nodes.new.0 ≡ nodes.old.0 }
    ensures size { terms.new.0 ≡ terms.old.0 }
    ensures extends_nodes { Extends nodes.old.1 nodes.new.1 }
    ensures extends { Extends terms.old.1 terms.new.1 }
    ensures solved { OnTrue result (Solves base (assertions_of kept.now) (root_by terms.old.1) (slot_root nodes.old.1)
        → Solves base (assertions_of kept.now ++ Assertion.Entry slot attr value ∷ [])
        (root_by terms.new.1) (slot_root nodes.new.1)) }
    ensures index { OnTrue result (IsIndex base (assertions_of kept.now ++ Assertion.Entry slot attr value ∷ []) nodes.new.1) }
    ensures unchanged { OnFalse result ((nodes.new.1 ≡ nodes.old.1) × (terms.new.1 ≡ terms.old.1)) }
    ensures clash { OnFalse result (Solves base (assertions_of kept.now) (root_by terms.old.1) (slot_root nodes.old.1)
        → Agrees (network_of (assertions_of kept.now ++ Assertion.Entry slot attr value ∷ [])) → ⊥) }
{
    if !put_value(kept, nodes, terms, base, slot, attr, value) {
        return false;
    }
    nodes.join(slot.0, base + kept.len() as u32);
    true
}

/// Joins the values of each attribute that the classes of two slots have, and then the classes.
pub fn link_slots(
    kept: &[Kept],
    nodes: &mut Rings,
    terms: &mut Bindings,
    base: u32,
    a: SlotId,
    b: SlotId,
) -> bool
    requires indexed { IsIndexed base (assertions_of kept.now) nodes.old }
    requires values { ValuesBelow terms.old.0 (assertions_of kept.now) }
    requires a_in { a.0 < base }
    requires b_in { b.0 < base }
    ensures nodes_size { nodes.new.0 ≡ nodes.old.0 }
    ensures size { terms.new.0 ≡ terms.old.0 }
    ensures extends_nodes { Extends nodes.old.1 nodes.new.1 }
    ensures extends { Extends terms.old.1 terms.new.1 }
    ensures solved { OnTrue result (Solves base (assertions_of kept.now) (root_by terms.old.1) (slot_root nodes.old.1)
        → Solves base (assertions_of kept.now ++ Assertion.Link a b ∷ [])
        (root_by terms.new.1) (slot_root nodes.new.1)) }
    ensures index { OnTrue result (IsIndex base (assertions_of kept.now ++ Assertion.Link a b ∷ []) nodes.new.1) }
    ensures unchanged { OnFalse result (nodes.new.1 ≡ nodes.old.1) }
    ensures clash { OnFalse result (Solves base (assertions_of kept.now) (root_by terms.old.1) (slot_root nodes.old.1)
        → Agrees (network_of (assertions_of kept.now ++ Assertion.Link a b ∷ [])) → ⊥) }
{
    let from = nodes.root(a.0);
    let into = nodes.root(b.0);
    if from == into {
        return true;
    }
    if !pool_classes(kept, nodes, terms, base, from, into) {
        return false;
    }
    nodes.join(a.0, b.0);
    true
}
