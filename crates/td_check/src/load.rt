//! A description's network in a store, with the slots of nodes that share a tree node linked.
ghost use Rattle.std.specs.Prelude.{◌≡◌, ◌↔◌, ◌+◌, ◌-◌, ◌*◌, ◌<◌, ◌≤◌, [], ◌∷◌, ◌++◌, ℕ, Some, IsTrue, length, slice_index};
ghost use Rattle.std.specs.Bool.{OnTrue};
ghost use Rattle.gr_base.specs.Lists.{Each, gathered};
ghost use Rattle.gr_terms.specs.Networks.{Agrees, link};
ghost use Rattle.gr_terms.specs.Views.{network_of, assertion_of};
ghost use Rattle.gr_store.specs.Contents.{Grows};
ghost use Rattle.td_desc.specs.Conditions.{AreSlotsBelow, IsTermBelow, Mentions};
ghost use Rattle.td_desc.specs.Descriptions.{node_of};
ghost use Rattle.td_colour.specs.Models.{node_links, set_links};
ghost use Rattle.td_check.specs.Places.{AreHeads, IsFirstSent, next_links, nodes_of, set_list};
ghost use Rattle.td_check.specs.Sets.{sent_to};
ghost use Rattle.td_check.specs.Shifts.{Gains, counted_from, moved};

use gr_store::Store;
use gr_terms::{Assertion, Network, SlotId, Term};
use td_desc::{DescribedNode, DescribedNodes};

/// Makes so many variables.
fn make_vars(store: &mut Store, number: u32)
    requires { number ≤ store.old.spare.vars }
    ensures vars { store.new.vars ≡ store.old.vars + number }
    ensures slots { store.new.slots ≡ store.old.slots }
    ensures accepted { store.new.accepted ≡ store.old.accepted }
    ensures grows { Grows store.old store.new }
{
    for _made in 0..number {
        let _var = store.fresh();
    }
}

/// Makes so many slots.
fn make_slots(store: &mut Store, number: u32)
    requires { number ≤ store.old.spare.slots }
    ensures vars { store.new.vars ≡ store.old.vars }
    ensures slots { store.new.slots ≡ store.old.slots + number }
    ensures accepted { store.new.accepted ≡ store.old.accepted }
    ensures grows { Grows store.old store.new }
{
    for _made in 0..number {
        let _slot = store.slot();
    }
}

/// Makes so many variables and slots, and gives the numbers of the first ones.
pub fn make_numbers(store: &mut Store, vars: u32, slots: u32) -> (u32, u32)
    requires vars { vars ≤ store.old.spare.vars }
    requires slots { slots ≤ store.old.spare.slots }
    ensures first_var { result.0 ≡ store.old.vars }
    ensures first_slot { result.1 ≡ store.old.slots }
    ensures few_vars { store.new.vars < 4294967296 }
    ensures few_slots { store.new.slots < 4294967296 }
    ensures vars { store.new.vars ≡ store.old.vars + vars }
    ensures slots { store.new.slots ≡ store.old.slots + slots }
    ensures accepted { store.new.accepted ≡ store.old.accepted }
    ensures entries { store.new.spare.entries ≡ store.old.spare.entries }
    ensures assertions { store.new.spare.assertions ≡ store.old.spare.assertions }
    ensures grows { Grows store.old store.new }
{
    make_vars(store, vars);
    make_slots(store, slots);
    let made = store.mark();
    (made.vars - vars, made.slots - slots)
}

/// The term with its variable counted from the first one.
pub fn counted(first: u32, term: Term) -> Term
    requires { IsTermBelow (4294967296 - first) term }
    ensures { result ≡ counted_from first term }
{
    match term {
        Term::Const(name) => Term::Const(name),
        Term::Var(number) => Term::Var(first + number),
    }
}

/// Accepts the assertion, with variables and slots counted from the first ones, exactly where the
/// accepted assertions agree with it.
fn assert_counted(store: &mut Store, vars: u32, slots: u32, assertion: Assertion) -> bool
    requires few_vars { store.old.vars < 4294967296 }
    requires few_slots { store.old.slots < 4294967296 }
    requires made { Mentions (store.old.vars - vars) (store.old.slots - slots) assertion }
    requires entry_room { 0 < store.old.spare.entries }
    requires room { 0 < store.old.spare.assertions }
    ensures agrees { IsTrue result
        ↔ Agrees (network_of store.old.accepted ++ moved vars slots (assertion_of assertion ∷ [])) }
    ensures gains { OnTrue result
        (Gains store.old store.new (moved vars slots (assertion_of assertion ∷ []))) }
    ensures grows { Grows store.old store.new }
{
    match assertion {
        Assertion::Entry(slot, attr, value) => {
            store.put(SlotId(slots + slot.0), attr, counted(vars, value))
        }
        Assertion::Equate(one, other) => store.equate(counted(vars, one), counted(vars, other)),
        Assertion::Link(one, other) => {
            store.link(SlotId(slots + one.0), SlotId(slots + other.0))
        }
    }
}

/// Accepts the network, with variables and slots counted from the first ones, exactly where the
/// accepted assertions agree with it. Else it accepts a part of it.
pub fn load_network(store: &mut Store, vars: u32, slots: u32, network: &Network) -> bool
    requires few_vars { store.old.vars < 4294967296 }
    requires few_slots { store.old.slots < 4294967296 }
    requires made { Each (Mentions (store.old.vars - vars) (store.old.slots - slots)) network.now }
    requires agreed { Agrees (network_of store.old.accepted) }
    requires entry_room { length network.now ≤ store.old.spare.entries }
    requires room { length network.now ≤ store.old.spare.assertions }
    ensures agrees { IsTrue result
        ↔ Agrees (network_of store.old.accepted ++ moved vars slots (network_of network.now)) }
    ensures gains { OnTrue result
        (Gains store.old store.new (moved vars slots (network_of network.now))) }
    ensures grows { Grows store.old store.new }
{
    for place in 0..network.len() {
        if !assert_counted(store, vars, slots, *network.at(place)) {
            return false;
        }
    }
    true
}

/// Links two slots, counted from the first one, exactly where the accepted assertions agree with it.
fn link_slots(store: &mut Store, slots: u32, one: SlotId, other: SlotId) -> bool
    requires few_slots { store.old.slots < 4294967296 }
    requires one_made { one.0 < store.old.slots - slots }
    requires other_made { other.0 < store.old.slots - slots }
    requires room { 0 < store.old.spare.assertions }
    ensures agrees { IsTrue result
        ↔ Agrees (network_of store.old.accepted ++ moved 0 slots (link one.0 other.0 ∷ [])) }
    ensures gains { OnTrue result
        (Gains store.old store.new (moved 0 slots (link one.0 other.0 ∷ []))) }
    ensures grows { Grows store.old store.new }
{
    store.link(SlotId(slots + one.0), SlotId(slots + other.0))
}

/// Links the three slots of a node with those of another one, exactly where the accepted assertions
/// agree with these links. Else it makes a part of them.
fn link_nodes(store: &mut Store, slots: u32, one: &DescribedNode, other: &DescribedNode) -> bool
    requires few_slots { store.old.slots < 4294967296 }
    requires one_made { AreSlotsBelow (store.old.slots - slots) one.now }
    requires other_made { AreSlotsBelow (store.old.slots - slots) other.now }
    requires room { 3 ≤ store.old.spare.assertions }
    ensures agrees { IsTrue result ↔ Agrees (network_of store.old.accepted
        ++ moved 0 slots (node_links (Some (node_of one.now)) (Some (node_of other.now)))) }
    ensures gains { OnTrue result (Gains store.old store.new
        (moved 0 slots (node_links (Some (node_of one.now)) (Some (node_of other.now))))) }
    ensures grows { Grows store.old store.new }
{
    let own = link_slots(store, slots, one.own, other.own);
    if !own {
        return false;
    }
    let top = link_slots(store, slots, one.top, other.top);
    if !top {
        return false;
    }
    link_slots(store, slots, one.bot, other.bot)
}

/// Links the slots of the first node of a set with those of another node, where that is in the set
/// too, exactly where the accepted assertions agree with these links. Else it makes a part of them.
fn link_next(
    store: &mut Store,
    slots: u32,
    nodes: &DescribedNodes,
    map: &[u8],
    to: u8,
    head: usize,
    node: usize,
) -> bool
    requires few_slots { store.old.slots < 4294967296 }
    requires made { Each (AreSlotsBelow (store.old.slots - slots)) nodes.now }
    requires number { length map.now ≡ length nodes.now }
    requires head_within { head < length map.now }
    requires node_within { node < length map.now }
    requires agreed { Agrees (network_of store.old.accepted) }
    requires room { slice_index map.now node ≡ to → 3 ≤ store.old.spare.assertions }
    ensures agrees { IsTrue result ↔ Agrees (network_of store.old.accepted ++ moved 0 slots
        (next_links (nodes_of nodes.now) to head node (slice_index map.now node))) }
    ensures gains { OnTrue result (Gains store.old store.new (moved 0 slots
        (next_links (nodes_of nodes.now) to head node (slice_index map.now node)))) }
    ensures grows { Grows store.old store.new }
{
    if map[node] != to {
        return true;
    }
    if node == head {
        return true;
    }
    link_nodes(store, slots, nodes.get(head), nodes.get(node))
}

/// Links the slots of the first of the nodes that are sent to a tree node with those of each other
/// one, exactly where the accepted assertions agree with these links. Else it makes a part of them.
fn link_set(
    store: &mut Store,
    slots: u32,
    nodes: &DescribedNodes,
    map: &[u8],
    to: u8,
    head: usize,
) -> bool
    requires few_slots { store.old.slots < 4294967296 }
    requires made { Each (AreSlotsBelow (store.old.slots - slots)) nodes.now }
    requires number { length map.now ≡ length nodes.now }
    requires first { IsFirstSent map.now to head }
    requires agreed { Agrees (network_of store.old.accepted) }
    requires room { 3 * length (sent_to map.now to) ≤ store.old.spare.assertions }
    ensures agrees { IsTrue result ↔ Agrees (network_of store.old.accepted
        ++ moved 0 slots (set_links (nodes_of nodes.now) (sent_to map.now to))) }
    ensures gains { OnTrue result (Gains store.old store.new
        (moved 0 slots (set_links (nodes_of nodes.now) (sent_to map.now to)))) }
    ensures grows { Grows store.old store.new }
{
    for node in 0..map.len() {
        if !link_next(store, slots, nodes, map, to, head, node) {
            return false;
        }
    }
    true
}

/// Links the slots of the nodes that share one of so many tree nodes, exactly where the accepted
/// assertions agree with these links. Else it makes a part of them.
pub fn link_sets(
    store: &mut Store,
    slots: u32,
    nodes: &DescribedNodes,
    map: &[u8],
    count: u8,
    heads: &[usize; 24],
) -> bool
    requires few_slots { store.old.slots < 4294967296 }
    requires made { Each (AreSlotsBelow (store.old.slots - slots)) nodes.now }
    requires number { length map.now ≡ length nodes.now }
    requires few { count ≤ 24 }
    requires heads { AreHeads map.now count heads.now }
    requires agreed { Agrees (network_of store.old.accepted) }
    requires room { 3 * length nodes.now ≤ store.old.spare.assertions }
    ensures agrees { IsTrue result ↔ Agrees (network_of store.old.accepted
        ++ moved 0 slots (gathered (set_links (nodes_of nodes.now)) (set_list map.now 0 count))) }
    ensures gains { OnTrue result (Gains store.old store.new
        (moved 0 slots (gathered (set_links (nodes_of nodes.now)) (set_list map.now 0 count)))) }
    ensures grows { Grows store.old store.new }
{
    for to in 0..count {
        if !link_set(store, slots, nodes, map, to, heads[to as usize]) {
            return false;
        }
    }
    true
}
