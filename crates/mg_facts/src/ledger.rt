//! A store that takes more room as it fills, with the list of what it accepted.
ghost use Rattle.std.specs.Prelude.{◌≡◌, ◌+◌, ◌-◌, ◌*◌, ◌↔◌, ◌<◌, ◌≤◌, [], ◌∷◌, ◌++◌, length, IsTrue, IfOk, OnOk, OnErr};
ghost use Rattle.std.specs.Bool.{OnTrue, OnFalse};
ghost use Rattle.gr_terms.specs.Networks.{Agrees};
ghost use Rattle.gr_terms.specs.Views.{network_of};
ghost use Rattle.gr_store.specs.Contents.{Mentions, MentionsAll, accepting, entry_count, mark_of};
ghost use Rattle.mg_facts.specs.Ledgers.{kept_of, Fits, HasTotal, HasSpare, Holds, filled, kept_mark, IsMarked, kept_part};

use gr_base::Memory;
use gr_store::{Mark, Room, Store};
use gr_terms::{Assertion, SlotId};
use std::alloc::Global;
use std::marker::Model;

/// The room of a new store: enough for a class of a few nodes, since each class begins with one.
const FIRST_ROOM: Room = Room {
    vars: 16,
    slots: 64,
    entries: 16,
    assertions: 32,
};

/// The room of a new store that is for equations of variables.
const ROOM_OF_EQUATIONS: Room = Room {
    vars: 16,
    slots: 1,
    entries: 1,
    assertions: 8,
};

/// Assertions that agree. Contracts see the numbers of variables and slots made and the accepted
/// assertions.
#[derive(Drop)]
pub struct Ledger {
    store: Store,
    list: Vec<Assertion>,
}

impl Model for Ledger {
    ghost use Rattle.std.specs.Prelude.{◌≡◌};
    ghost use Rattle.mg_facts.specs.Ledgers.{Kept};

    ghost Value = { Kept };

    ghost use Rattle.mg_facts.specs.Ledgers.{kept_of, HasTotal};

    ghost view = { λ l. kept_of l.store };

    ghost invariant = { λ l. (l.list.items ≡ l.store.accepted) × HasTotal l.store };
}

impl Ledger {
    /// No assertion, with no variable and no slot.
    pub fn new(alloc: Global) -> Result<Ledger, Memory>
        ensures { IfOk result (λ l. l ≡ record { vars = 0; slots = 0; accepted = [] }) }
    {
        let store = Store::with_room(alloc, FIRST_ROOM)?;
        Ok(Ledger {
            store,
            list: Vec::with_capacity(alloc, FIRST_ROOM.assertions as usize)?,
        })
    }

    /// No assertion, with no variable and no slot. It begins with less room, for a few equations of
    /// variables.
    pub fn of_equations(alloc: Global) -> Result<Ledger, Memory>
        ensures { IfOk result (λ l. l ≡ record { vars = 0; slots = 0; accepted = [] }) }
    {
        let store = Store::with_room(alloc, ROOM_OF_EQUATIONS)?;
        Ok(Ledger {
            store,
            list: Vec::new(alloc),
        })
    }

    /// Makes a variable.
    pub fn fresh(&mut self) -> Result<(), Memory>
        ensures ok { OnOk result (self.new ≡ record self.old { vars = self.old.vars + 1 }) }
        ensures err { OnErr result (self.new ≡ self.old) }
    {
        make_room(*self.list.allocator(), &mut self.store, &self.list)?;
        self.store.fresh();
        Ok(())
    }

    /// Makes a slot.
    pub fn slot(&mut self) -> Result<(), Memory>
        ensures ok { OnOk result (self.new ≡ record self.old { slots = self.old.slots + 1 }) }
        ensures err { OnErr result (self.new ≡ self.old) }
    {
        make_room(*self.list.allocator(), &mut self.store, &self.list)?;
        self.store.slot();
        Ok(())
    }

    /// Accepts an assertion and answers true, exactly where it agrees with the accepted ones. Else
    /// nothing changes.
    pub fn accept(&mut self, assertion: Assertion) -> Result<bool, Memory>
        requires { Mentions self.old.vars self.old.slots assertion }
        ensures agrees { IfOk result (λ b. IsTrue b ↔ Agrees (network_of (self.old.accepted ++ assertion ∷ []))) }
        ensures accepted { IfOk result (λ b. OnTrue b (self.new ≡ record self.old { accepted = self.old.accepted ++ assertion ∷ [] })) }
        ensures refused { IfOk result (λ b. OnFalse b (self.new ≡ self.old)) }
        ensures err { OnErr result (self.new ≡ self.old) }
    {
        make_room(*self.list.allocator(), &mut self.store, &self.list)?;
        self.list.push(assertion)?;
        let agrees = assert_in(&mut self.store, assertion);
        if !agrees {
            self.list.pop();
        }
        Ok(agrees)
    }

    /// Accepts assertions and answers true, exactly where they agree with the accepted ones. Else
    /// nothing changes.
    pub fn accept_all(&mut self, assertions: &[Assertion]) -> Result<bool, Memory>
        requires { MentionsAll self.old.vars self.old.slots assertions.now }
        ensures agrees { IfOk result (λ b. IsTrue b ↔ Agrees (network_of (self.old.accepted ++ assertions.now))) }
        ensures accepted { IfOk result (λ b. OnTrue b (self.new ≡ record self.old { accepted = self.old.accepted ++ assertions.now })) }
        ensures refused { IfOk result (λ b. OnFalse b (self.new ≡ self.old)) }
        ensures err { OnErr result (self.new ≡ self.old) }
    {
        let before = self.mark();
        for assertion in assertions {
            match self.accept(*assertion) {
                Ok(true) => {}
                Ok(false) => {
                    self.undo(before);
                    return Ok(false);
                }
                Err(Memory) => {
                    self.undo(before);
                    return Err(Memory);
                }
            }
        }
        Ok(true)
    }

    /// What there is now, to go back to. The accepted assertions agree.
    pub fn mark(&self) -> Mark
        ensures mark { result ≡ kept_mark self.now }
        ensures marked { IsMarked self.now result }
        ensures agrees { Agrees (network_of self.now.accepted) }
    {
        self.store.mark()
    }

    /// The accepted assertions agree, and the numbers of variables and slots fit. The call does
    /// nothing.
    pub fn agrees(&self)
        ensures agrees { Agrees (network_of self.now.accepted) }
        ensures fits { Fits self.now }
    {
        self.store.agrees();
    }

    /// Goes back to a mark.
    pub fn undo(&mut self, mark: Mark)
        requires { IsMarked self.old mark }
        ensures { self.new ≡ kept_part self.old mark }
    {
        self.store.undo(mark);
        self.list.truncate(mark.assertions as usize);
    }

    /// The accepted assertions.
    pub fn list(&self) -> &[Assertion]
        ensures { result.now ≡ self.now.accepted }
    {
        self.list.as_slice()
    }

    /// The store of the accepted assertions.
    pub fn store(&self) -> &Store
        ensures { kept_of result.now ≡ self.now }
    {
        &self.store
    }
}

/// Room for one more of each kind in the store of these assertions.
fn make_room(alloc: Global, store: &mut Store, list: &[Assertion]) -> Result<(), Memory>
    requires list { list.now ≡ store.old.accepted }
    requires total { HasTotal store.old }
    ensures kept { OnOk result (kept_of store.new ≡ kept_of store.old) }
    ensures spare { OnOk result (HasSpare store.new) }
    ensures err { OnErr result (store.new ≡ store.old) }
{
    let spare = store.spare();
    if spare.vars > 0 && spare.slots > 0 && spare.entries > 0 && spare.assertions > 0 {
        return Ok(());
    }
    let used = store.mark();
    let room = doubled(used, spare)?;
    *store = refilled(alloc, room, used, list)?;
    Ok(())
}

/// Twice the room of which this is used and this is spare.
fn doubled(used: Mark, spare: Room) -> Result<Room, Memory>
    ensures vars { IfOk result (λ r. r.vars ≡ 2 * (used.vars + spare.vars)) }
    ensures slots { IfOk result (λ r. r.slots ≡ 2 * (used.slots + spare.slots)) }
    ensures entries { IfOk result (λ r. r.entries ≡ 2 * (used.entries + spare.entries)) }
    ensures assertions { IfOk result (λ r. r.assertions ≡ 2 * (used.assertions + spare.assertions)) }
{
    Ok(Room {
        vars: twice(used.vars, spare.vars)?,
        slots: twice(used.slots, spare.slots)?,
        entries: twice(used.entries, spare.entries)?,
        assertions: twice(used.assertions, spare.assertions)?,
    })
}

/// Twice the sum of two numbers.
fn twice(used: u32, spare: u32) -> Result<u32, Memory>
    ensures { IfOk result (λ n. n ≡ 2 * (used + spare)) }
{
    let Some(room) = used.checked_add(spare) else {
        return Err(Memory);
    };
    let Some(both) = room.checked_add(room) else {
        return Err(Memory);
    };
    Ok(both)
}

/// A store of these assertions, over these numbers of variables and slots.
fn refilled(alloc: Global, room: Room, used: Mark, list: &[Assertion]) -> Result<Store, Memory>
    requires mentions { MentionsAll used.vars used.slots list.now }
    requires agrees { Agrees (network_of list.now) }
    requires room { Holds room used.vars used.slots list.now }
    ensures { IfOk result (λ s. s ≡ filled room used.vars used.slots list.now) }
{
    let mut store = Store::with_room(alloc, room)?;
    make_variables(&mut store, used.vars);
    make_slots(&mut store, used.slots);
    assert_all(&mut store, list);
    Ok(store)
}

/// Makes so many variables.
fn make_variables(store: &mut Store, count: u32)
    requires { count ≤ store.old.spare.vars }
    ensures { store.new ≡ record store.old {
      vars = store.old.vars + count;
      spare = record store.old.spare { vars = store.old.spare.vars - count };
    } }
{
    for _ in 0..count {
        store.fresh();
    }
}

/// Makes so many slots.
fn make_slots(store: &mut Store, count: u32)
    requires { count ≤ store.old.spare.slots }
    ensures { store.new ≡ record store.old {
      slots = store.old.slots + count;
      spare = record store.old.spare { slots = store.old.spare.slots - count };
    } }
{
    for _ in 0..count {
        store.slot();
    }
}

/// Accepts assertions that agree.
fn assert_all(store: &mut Store, list: &[Assertion])
    requires empty { store.old.accepted ≡ [] }
    requires mentions { MentionsAll store.old.vars store.old.slots list.now }
    requires agrees { Agrees (network_of list.now) }
    requires entries { entry_count list.now ≤ store.old.spare.entries }
    requires assertions { length list.now ≤ store.old.spare.assertions }
    ensures { store.new ≡ record store.old {
      accepted = list.now;
      spare = record store.old.spare {
        entries = store.old.spare.entries - entry_count list.now;
        assertions = store.old.spare.assertions - length list.now;
      };
    } }
{
    for assertion in list {
        assert_in(store, *assertion);
    }
}

/// Accepts an assertion and answers true, exactly where it agrees with the accepted ones. Else
/// nothing changes.
fn assert_in(store: &mut Store, assertion: Assertion) -> bool
    requires mentions { Mentions store.old.vars store.old.slots assertion }
    requires entries { entry_count (assertion ∷ []) ≤ store.old.spare.entries }
    requires assertions { 0 < store.old.spare.assertions }
    ensures agrees { IsTrue result ↔ Agrees (network_of (store.old.accepted ++ assertion ∷ [])) }
    ensures accepted { OnTrue result (store.new ≡ accepting store.old assertion) }
    ensures refused { OnFalse result (store.new ≡ store.old) }
{
    match assertion {
        Assertion::Entry(slot, attr, value) => store.put(slot, attr, value),
        Assertion::Equate(a, b) => store.equate(a, b),
        Assertion::Link(a, b) => store.link(a, b),
    }
}
