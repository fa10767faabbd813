//! The store.
ghost use Rattle.std.specs.Prelude.{◌≡◌, ◌↔◌, ◌+◌, ◌-◌, ◌<◌, ◌≤◌, ℕ, [], ◌∷◌, ◌++◌, IsTrue, IfOk, MatchOption, Some, length, slice_get};
ghost use Rattle.std.specs.Bool.{OnTrue, OnFalse};
ghost use Rattle.gr_terms.specs.Networks.{Agrees, AreLinked, HasValue, name};
ghost use Rattle.gr_terms.specs.Networks as net;
ghost use Rattle.gr_terms.specs.Views.{term_of, network_of};
ghost use Rattle.gr_terms.specs.declared.Term.{Term};
ghost use Rattle.gr_store.specs.Contents.{rank, Fits, IsMade, MentionsAll, IsEarlier, IsFirstValue, Grows, mark_of, first_part, accepting, entry_attributes, entry_count};

use crate::Memory;
use crate::bindings::Bindings;
use crate::entries::first_entry;
use crate::kept::{Kept, kept_room, rewind_to};
use crate::pool::{link_slots, put_entry};
use crate::rings::Rings;
use crate::room::{Mark, Room};
use gr_terms::{Assertion, EMPTY, SlotId, Sym, Term};
use std::alloc::{AllocError, Global};
use std::marker::Model;

/// An empty store.
fn store_of(alloc: Global, room: Room, nodes: u32) -> Result<Store, AllocError>
    requires { nodes ≡ room.slots + room.assertions }
    ensures { IfOk result (λ s. s ≡ record { vars = 0; slots = 0; accepted = []; spare = room }) }
{
    let terms = Bindings::with_room(alloc, room.vars)?;
    let nodes = Rings::with_room(alloc, nodes)?;
    let kept = kept_room(alloc, room.assertions)?;
    let attributes = vec![in alloc; EMPTY; room.entries as usize]?;
    Ok(Store {
        terms,
        nodes,
        base: room.slots,
        kept,
        attributes,
        used: Mark {
            vars: 0,
            slots: 0,
            entries: 0,
            assertions: 0,
        },
        spare: room,
    })
}

/// A list of assertions that agrees. Contracts see the numbers of variables and slots made,
/// the accepted assertions and the spare room.
#[derive(Drop)]
pub struct Store {
    terms: Bindings,
    /// The slots, and from `base` on the places of the assertions.
    nodes: Rings,
    base: u32,
    kept: Vec<Kept>,
    attributes: Vec<Sym>,
    used: Mark,
    spare: Room,
}

impl Model for Store {
    ghost use Rattle.std.specs.Prelude.{take};
    ghost use Rattle.gr_store.specs.Contents.{Contents};

    ghost Value = { Contents };

    ghost use Rattle.gr_store.specs.State.{IsState, assertions_of};

    ghost view = { λ s. record {
      vars = s.used.vars;
      slots = s.used.slots;
      accepted = assertions_of (take s.used.assertions s.kept.items);
      spare = s.spare;
    } };

    ghost invariant = { λ s. IsState s.terms s.nodes s.base s.kept.items s.attributes.items s.used s.spare };
}

impl Store {
    /// An empty store, with all of the room spare. No later call takes memory. Room for 2^32 or
    /// more slots and assertions together counts as more than there is memory for.
    pub fn with_room(alloc: Global, room: Room) -> Result<Store, Memory>
        ensures { IfOk result (λ s. s ≡ record { vars = 0; slots = 0; accepted = []; spare = room }) }
    {
        let Some(nodes) = room.slots.checked_add(room.assertions) else {
            return Err(Memory);
        };
        Ok(store_of(alloc, room, nodes)?)
    }

    /// A new variable.
    pub fn fresh(&mut self) -> Term
        requires { 0 < self.old.spare.vars }
        ensures made { result ≡ Term.Var self.old.vars }
        ensures after { self.new ≡ record self.old {
          vars = self.old.vars + 1;
          spare = record self.old.spare { vars = self.old.spare.vars - 1 };
        } }
        ensures grows { Grows self.old self.new }
    {
        let var = self.used.vars;
        self.used.vars += 1;
        self.spare.vars -= 1;
        Term::Var(var)
    }

    /// A new slot.
    pub fn slot(&mut self) -> SlotId
        requires { 0 < self.old.spare.slots }
        ensures made { result ≡ record { 0 = self.old.slots } }
        ensures after { self.new ≡ record self.old {
          slots = self.old.slots + 1;
          spare = record self.old.spare { slots = self.old.spare.slots - 1 };
        } }
        ensures grows { Grows self.old self.new }
    {
        let slot = self.used.slots;
        self.used.slots += 1;
        self.spare.slots -= 1;
        SlotId(slot)
    }

    /// Accepts an entry of the slot, and answers true, exactly where the accepted assertions
    /// with it agree. Else nothing changes.
    pub fn put(&mut self, slot: SlotId, attr: Sym, value: Term) -> bool
        requires slot_made { slot.0 < self.old.slots }
        requires value_made { IsMade self.old.vars value }
        requires room { 0 < self.old.spare.assertions }
        requires entry_room { 0 < self.old.spare.entries }
        ensures agrees { IsTrue result
            ↔ Agrees (network_of (self.old.accepted ++ Assertion.Entry slot attr value ∷ [])) }
        ensures accepted { OnTrue result (self.new ≡ accepting self.old (Assertion.Entry slot attr value)) }
        ensures refused { OnFalse result (self.new ≡ self.old) }
        ensures grows { Grows self.old self.new }
    {
        let (terms, joins) = (self.terms.len(), self.nodes.len());
        let used = self.used.assertions as usize;
        if !put_entry(
            &self.kept[..used],
            &mut self.nodes,
            &mut self.terms,
            self.base,
            slot,
            attr,
            value,
        ) {
            return false;
        }
        self.kept[used] = Kept {
            assertion: Assertion::Entry(slot, attr, value),
            terms,
            joins,
        };
        self.attributes[self.used.entries as usize] = attr;
        self.used.assertions += 1;
        self.used.entries += 1;
        self.spare.assertions -= 1;
        self.spare.entries -= 1;
        true
    }

    /// Accepts an equation, and answers true, exactly where the accepted assertions with it
    /// agree. Else nothing changes.
    pub fn equate(&mut self, a: Term, b: Term) -> bool
        requires a_made { IsMade self.old.vars a }
        requires b_made { IsMade self.old.vars b }
        requires room { 0 < self.old.spare.assertions }
        ensures agrees { IsTrue result
            ↔ Agrees (network_of (self.old.accepted ++ Assertion.Equate a b ∷ [])) }
        ensures accepted { OnTrue result (self.new ≡ accepting self.old (Assertion.Equate a b)) }
        ensures refused { OnFalse result (self.new ≡ self.old) }
        ensures grows { Grows self.old self.new }
    {
        let (terms, joins) = (self.terms.len(), self.nodes.len());
        if !self.terms.unify(a, b) {
            return false;
        }
        let used = self.used.assertions as usize;
        self.kept[used] = Kept {
            assertion: Assertion::Equate(a, b),
            terms,
            joins,
        };
        self.used.assertions += 1;
        self.spare.assertions -= 1;
        true
    }

    /// Accepts a link, and answers true, exactly where the accepted assertions with it agree.
    /// Else nothing changes.
    pub fn link(&mut self, a: SlotId, b: SlotId) -> bool
        requires a_made { a.0 < self.old.slots }
        requires b_made { b.0 < self.old.slots }
        requires room { 0 < self.old.spare.assertions }
        ensures agrees { IsTrue result
            ↔ Agrees (network_of (self.old.accepted ++ Assertion.Link a b ∷ [])) }
        ensures accepted { OnTrue result (self.new ≡ accepting self.old (Assertion.Link a b)) }
        ensures refused { OnFalse result (self.new ≡ self.old) }
        ensures grows { Grows self.old self.new }
    {
        let (terms, joins) = (self.terms.len(), self.nodes.len());
        let used = self.used.assertions as usize;
        if !link_slots(
            &self.kept[..used],
            &mut self.nodes,
            &mut self.terms,
            self.base,
            a,
            b,
        ) {
            self.terms.rewind(terms);
            return false;
        }
        self.kept[used] = Kept {
            assertion: Assertion::Link(a, b),
            terms,
            joins,
        };
        self.used.assertions += 1;
        self.spare.assertions -= 1;
        true
    }

    /// How much the store holds now, to go back to. The accepted assertions agree.
    pub fn mark(&self) -> Mark
        ensures numbers { result ≡ mark_of self.now }
        ensures earlier { IsEarlier self.now result }
        ensures agrees { Agrees (network_of self.now.accepted) }
    {
        self.used
    }

    /// The accepted assertions agree, they are of variables and slots that were made, and all their
    /// numbers fit. The call does nothing.
    pub fn agrees(&self)
        ensures agrees { Agrees (network_of self.now.accepted) }
        ensures mentions { MentionsAll self.now.vars self.now.slots self.now.accepted }
        ensures fits { Fits self.now }
    {
        let _ = &self.terms;
    }

    /// The room that is spare now.
    pub fn spare(&self) -> Room
        ensures { result ≡ self.now.spare }
    {
        self.spare
    }

    /// Goes back to a mark: what was made and accepted since is gone, and its room spare again.
    pub fn undo(&mut self, mark: Mark)
        requires { IsEarlier self.old mark }
        ensures { self.new ≡ first_part self.old mark }
    {
        let used = self.used.assertions as usize;
        rewind_to(
            &self.kept[..used],
            &mut self.nodes,
            &mut self.terms,
            mark.assertions as usize,
        );
        self.spare.vars += self.used.vars - mark.vars;
        self.spare.slots += self.used.slots - mark.slots;
        self.spare.entries += self.used.entries - mark.entries;
        self.spare.assertions += self.used.assertions - mark.assertions;
        self.used = mark;
    }

    /// The name that a term is linked with, if any. It is the only one.
    pub fn constant_of(&self, t: Term) -> Option<Sym>
        ensures one { Agrees (network_of self.now.accepted) }
        ensures linked { MatchOption result
            ((p : ℕ) → AreLinked (network_of self.now.accepted) (term_of t) (name p) → ⊥)
            (λ p. AreLinked (network_of self.now.accepted) (term_of t) (name p.0)) }
    {
        match self.terms.root(t) {
            Term::Const(p) => Some(p),
            Term::Var(_) => None,
        }
    }

    /// Whether two terms are linked.
    pub fn same(&self, a: Term, b: Term) -> bool
        ensures { IsTrue result ↔ AreLinked (network_of self.now.accepted) (term_of a) (term_of b) }
    {
        self.terms.root(a) == self.terms.root(b)
    }

    /// The earliest accepted value of an attribute at a linked slot, if any. A slot that isn't
    /// made has none.
    pub fn entry(&self, slot: SlotId, attr: Sym) -> Option<Term>
        ensures { MatchOption result
            ((x : net.Term ℕ) → HasValue (network_of self.now.accepted) slot.0 attr.0 x → ⊥)
            (λ value. IsFirstValue (network_of self.now.accepted) slot.0 attr.0 (term_of value)) }
    {
        if self.used.slots <= slot.0 {
            return None;
        }
        let root = self.nodes.root(slot.0);
        first_entry(
            &self.kept[..self.used.assertions as usize],
            &self.nodes,
            self.base,
            root,
            attr,
        )
    }

    /// The attribute of an accepted entry, by its number among the accepted entries from 0.
    pub fn attr_at(&self, at: u32) -> Sym
        requires { at < entry_count self.now.accepted }
        ensures { slice_get (entry_attributes self.now.accepted) at ≡ Some result }
    {
        self.attributes[at as usize]
    }

    /// The name that a term is linked with, else the least linked variable.
    pub fn least(&self, t: Term) -> Term
        ensures is_linked { AreLinked (network_of self.now.accepted) (term_of t) (term_of result) }
        ensures least { (u : Term) → AreLinked (network_of self.now.accepted) (term_of t) (term_of u)
            → rank result ≤ rank u }
    {
        self.terms.root(t)
    }
}
