//! A description's network put into a store.
ghost use Rattle.std.specs.Prelude.{◌≡◌, ◌↔◌, ◌+◌, ◌-◌, ◌<◌, ◌≤◌, [], ◌∷◌, ◌++◌, IsTrue, IfOk, MatchOption, length};
ghost use Rattle.std.specs.Bool.{OnTrue, OnFalse};
ghost use Rattle.gr_terms.specs.Networks.{Agrees};
ghost use Rattle.gr_terms.specs.Views.{network_of};
ghost use Rattle.gr_store.specs.Contents.{Grows, IsMade, Mentions, accepting, entry_count};
ghost use Rattle.gr_feats.specs.Loading.{counted_from};
ghost use Rattle.td_desc.specs.Conditions.{IsNumbered};
ghost use Rattle.td_model.specs.Loads.{HasRoom, IsLoaded, counted_assertion, counted_network, slot_from, with_description};

use gr_base::Memory;
use gr_store::{Room, Store};
use gr_terms::{Assertion, SlotId, Term};
use std::alloc::Global;
use td_desc::Description;

/// Makes so many variables.
fn make_variables(store: &mut Store, count: u32)
    requires { count ≤ store.old.spare.vars }
    ensures made { store.new ≡ record store.old {
      vars = store.old.vars + count;
      spare = record store.old.spare { vars = store.old.spare.vars - count };
    } }
    ensures grows { Grows store.old store.new }
{
    'variables: for _made in 0..count {
        let _variable = store.fresh();
    }
}

/// Makes so many slots.
fn make_slots(store: &mut Store, count: u32)
    requires { count ≤ store.old.spare.slots }
    ensures made { store.new ≡ record store.old {
      slots = store.old.slots + count;
      spare = record store.old.spare { slots = store.old.spare.slots - count };
    } }
    ensures grows { Grows store.old store.new }
{
    'slots: for _made in 0..count {
        let _slot = store.slot();
    }
}

/// Accepts an assertion, and answers true, exactly where the accepted assertions with it agree. Else
/// nothing changes.
fn accept(store: &mut Store, assertion: Assertion) -> bool
    requires made { Mentions store.old.vars store.old.slots assertion }
    requires room { 0 < store.old.spare.assertions }
    requires entry_room { entry_count (assertion ∷ []) ≤ store.old.spare.entries }
    ensures agrees { IsTrue result ↔ Agrees (network_of (store.old.accepted ++ assertion ∷ [])) }
    ensures accepted { OnTrue result (store.new ≡ accepting store.old assertion) }
    ensures refused { OnFalse result (store.new ≡ store.old) }
    ensures grows { Grows store.old store.new }
{
    match assertion {
        Assertion::Entry(slot, attr, value) => store.put(slot, attr, value),
        Assertion::Equate(a, b) => store.equate(a, b),
        Assertion::Link(a, b) => store.link(a, b),
    }
}

/// The term with its variable counted from the first one.
fn counted_term(first: u32, term: Term) -> Term
    requires { IsMade 4294967295 (counted_from first term) }
    ensures { result ≡ counted_from first term }
{
    match term {
        Term::Const(name) => Term::Const(name),
        Term::Var(number) => Term::Var(first + number),
    }
}

/// The slot counted from the first one.
pub(crate) fn counted_slot(first: u32, slot: SlotId) -> SlotId
    requires { first + slot.0 < 4294967296 }
    ensures { result ≡ slot_from first slot }
{
    SlotId(first + slot.0)
}

/// The assertion with its variables and slots counted from the first ones.
fn counted(vars: u32, slots: u32, assertion: Assertion) -> Assertion
    requires { Mentions 4294967295 4294967296 (counted_assertion vars slots assertion) }
    ensures { result ≡ counted_assertion vars slots assertion }
{
    match assertion {
        Assertion::Entry(slot, attr, value) => {
            Assertion::Entry(counted_slot(slots, slot), attr, counted_term(vars, value))
        }
        Assertion::Equate(a, b) => Assertion::Equate(counted_term(vars, a), counted_term(vars, b)),
        Assertion::Link(a, b) => Assertion::Link(counted_slot(slots, a), counted_slot(slots, b)),
    }
}

/// Makes the variables and slots of the description, counted from those that the store has, and puts
/// its network in in order, and answers true, exactly where the accepted assertions agree with it.
/// Else the store is as it was. Takes no memory.
pub fn add_description(store: &mut Store, d: &Description) -> bool
    requires numbered { IsNumbered d.now }
    requires room { HasRoom store.old d.now }
    ensures agrees { IsTrue result
        ↔ Agrees (network_of (store.old.accepted ++ counted_network store.old.vars store.old.slots d.now.network)) }
    ensures added { OnTrue result (store.new ≡ with_description store.old d.now) }
    ensures refused { OnFalse result (store.new ≡ store.old) }
    ensures grows { Grows store.old store.new }
{
    let before = store.mark();
    make_variables(store, d.vars);
    make_slots(store, d.slots);
    // Its numbers fit, so none that is counted from the first ones wraps.
    store.agrees();
    'network: for place in 0..d.network.len() {
        let assertion = counted(before.vars, before.slots, *d.network.at(place));
        if !accept(store, assertion) {
            store.undo(before);
            return false;
        }
    }
    true
}

/// A store with the description's network, whose variables and slots have the same numbers there, and
/// with room for three links for each of its nodes. `None` exactly where the network does not agree.
/// 2^32 or more assertions, or slots and assertions together, count as more than there is memory for.
pub fn load(alloc: Global, d: &Description) -> Result<Option<Store>, Memory>
    requires { IsNumbered d.now }
    ensures { IfOk result (λ store. MatchOption store (Agrees (network_of d.now.network) → ⊥) (IsLoaded d.now)) }
{
    let entries = d.network.len();
    let Some(assertions) = d.nodes.len().checked_mul(3) else {
        return Err(Memory);
    };
    let Some(assertions) = assertions.checked_add(entries) else {
        return Err(Memory);
    };
    let (Ok(entries), Ok(assertions)) = (u32::try_from(entries), u32::try_from(assertions)) else {
        return Err(Memory);
    };
    let room = Room {
        vars: d.vars,
        slots: d.slots,
        entries,
        assertions,
    };
    let mut store = Store::with_room(alloc, room)?;
    if add_description(&mut store, d) {
        Ok(Some(store))
    } else {
        Ok(None)
    }
}
