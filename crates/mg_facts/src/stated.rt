//! Facts in numbers, with their network and the classes of variables that are one.
ghost use Rattle.std.specs.Bool.{OnTrue, OnFalse};
ghost use Rattle.std.specs.Prelude.{IsTrue, ℕ, ◌≡◌, ◌↔◌, ◌+◌, ◌*◌, ◌<◌, ◌≤◌, ◌^◌, [], ◌∷◌, ◌++◌, length, take, Some, slice_get, OnOk, OnErr, IfOk, MatchOption};
ghost use Rattle.gr_base.specs.Lists.{IsAmong, Each, NoneTwice};
ghost use Rattle.gr_terms.specs.Networks.{Agrees};
ghost use Rattle.gr_terms.specs.Views.{network_of};
ghost use Rattle.gr_terms.specs.declared.Assertion.{Assertion};
ghost use Rattle.gr_terms.specs.declared.Term.{Term};
ghost use Rattle.gr_store.specs.Contents.{Mentions, MentionsAll};
ghost use Rattle.mg_facts.specs.State.{HasMoreRoom};
ghost use Rattle.mg_facts.specs.Numbered.{Keeps, IsFresh, AreMet, IsBelow, variables_in, asserted, all_asserted, joined_by, all_said, one_of};
ghost use Rattle.mg_facts.specs.Classes.{IsRoot, AreJoins};

use crate::fact::{Fact, bottom_slot, own_slot, top_slot};
use crate::ledger::Ledger;
use crate::marks::Past;
use crate::names::Names;
use crate::variable::Variable;
use gr_base::Memory;
use gr_store::Mark;
use gr_terms::{Assertion, Term};
use std::alloc::Global;
use std::marker::Model;

/// For how many facts there is room at first.
const FIRST_FACTS: usize = 16;

/// Facts of numbered variables. Contracts see the variables and the facts.
#[derive(Drop)]
pub struct Stated {
    names: Names,
    /// How many of the variables are those of the facts.
    used: usize,
    facts: Vec<Fact>,
    past: Vec<Past>,
    /// The network of the first `fed` facts. The next one, if any, doesn't agree with it.
    network: Ledger,
    fed: usize,
    /// An equation for each pair of variables that are said to be one.
    classes: Ledger,
}

impl Model for Stated {
    ghost use Rattle.mg_facts.specs.Numbered.{Numbered};

    ghost Value = { Numbered };

    ghost use Rattle.mg_facts.specs.State.{IsStated};

    ghost view = { λ s. record { names = s.names; facts = s.facts.items; used = s.used } };

    ghost invariant = { λ s. IsStated s.names s.used s.facts.items s.past.items s.network s.classes s.fed };
}

impl Stated {
    /// No fact of no variable.
    pub fn new(alloc: Global) -> Result<Stated, Memory>
        ensures { IfOk result (λ s. s ≡ record { names = []; facts = []; used = 0 }) }
    {
        let mut network = Ledger::new(alloc)?;
        network.slot()?;
        let classes = Ledger::of_equations(alloc)?;
        Ok(Stated {
            names: Names::new(alloc),
            used: 0,
            facts: Vec::with_capacity(alloc, FIRST_FACTS)?,
            past: Vec::with_capacity(alloc, FIRST_FACTS)?,
            network,
            fed: 0,
            classes,
        })
    }

    /// The number of a variable, which gets the next one where it is new. Facts are read as before.
    pub fn number(&mut self, x: Variable) -> Result<u32, Memory>
        ensures named { IfOk result (λ n. slice_get self.new.names n ≡ Some x) }
        ensures small { IfOk result (λ n. 3 * n + 3 < 2 ^ 32) }
        ensures keeps { Keeps self.old self.new }
        ensures fresh { IfOk result (λ n. IsFresh self.old self.new (n ∷ [])) }
    {
        let count = self.names.count();
        spare_variable(&mut self.classes, count)?;
        spare_variable(&mut self.network, count)?;
        spare_slots(&mut self.network, count)?;
        self.network.agrees();
        let number = self.names.number(x)?;
        Ok(number as u32)
    }

    /// Takes the numbers of variables back that stand in no fact.
    pub fn forget(&mut self)
        ensures facts { self.new.facts ≡ self.old.facts }
        ensures reads { all_said self.new.names self.new.facts ≡ all_said self.old.names self.old.facts }
        ensures settled { self.new.used ≡ length self.new.names }
    {
        self.names.keep(self.used);
    }

    /// States one fact more, of all variables that stand in none yet.
    pub fn state(&mut self, fact: Fact) -> Result<(), Memory>
        requires below { IsBelow (length self.old.names) fact }
        requires met { (i : ℕ) → self.old.used ≤ i → i < length self.old.names → IsAmong (variables_in fact) i }
        ensures ok { OnOk result (self.new ≡ record self.old {
          facts = self.old.facts ++ fact ∷ [];
          used = length self.old.names;
        }) }
        ensures err { OnErr result (self.new ≡ self.old) }
    {
        let count = self.facts.len();
        let used = self.network.mark();
        let past = Past {
            names: self.used as u32,
            assertions: used.assertions,
            entries: used.entries,
            joins: self.classes.mark().assertions,
        };
        push_both(&mut self.facts, &mut self.past, fact, past)?;
        match take_up(
            &mut self.network,
            &mut self.classes,
            self.fed == count,
            &self.facts[count],
        ) {
            Ok(agrees) => {
                self.used = self.names.count();
                if agrees {
                    self.fed += 1;
                }
                Ok(())
            }
            Err(Memory) => {
                self.facts.truncate(count);
                self.past.truncate(count);
                Err(Memory)
            }
        }
    }

    /// Takes back all but the first facts.
    pub fn keep(&mut self, count: usize)
        requires count { count ≤ length self.old.facts }
        requires settled { self.old.used ≡ length self.old.names }
        ensures facts { self.new.facts ≡ take count self.old.facts }
        ensures settled { self.new.used ≡ length self.new.names }
        ensures reads { all_said self.new.names self.new.facts ≡ take count (all_said self.old.names self.old.facts) }
    {
        if count == self.facts.len() {
            return;
        }
        let past = self.past[count];
        self.network.agrees();
        self.names.keep(past.names as usize);
        self.used = self.names.count();
        let vars = self.used as u32;
        self.network.undo(Mark {
            vars,
            slots: 3 * vars + 1,
            entries: past.entries,
            assertions: past.assertions,
        });
        self.classes.undo(Mark {
            vars,
            slots: 0,
            entries: 0,
            assertions: past.joins,
        });
        self.facts.truncate(count);
        self.past.truncate(count);
        if self.fed > count {
            self.fed = count;
        }
    }

    /// Where memory is taken from.
    pub fn alloc(&self) -> Global {
        *self.facts.allocator()
    }

    /// The facts, which are of the first variables, and no variable has two numbers.
    pub fn facts(&self) -> &[Fact]
        ensures list { result.now ≡ self.now.facts }
        ensures below { Each (IsBelow self.now.used) self.now.facts }
        ensures met { AreMet self.now.used self.now.facts }
        ensures once { NoneTwice self.now.names }
    {
        let _ = self.names.count();
        self.facts.as_slice()
    }

    /// How many variables have a number.
    pub fn variables(&self) -> u32
        ensures count { result ≡ length self.now.names }
        ensures small { 3 * result + 1 < 2 ^ 32 }
    {
        self.network.agrees();
        self.names.count() as u32
    }

    /// The network, where it agrees.
    pub fn network(&self) -> Option<&[Assertion]>
        ensures { MatchOption result
            (Agrees (network_of (all_asserted self.now.facts)) → ⊥)
            (λ list. (list.now ≡ all_asserted self.now.facts) × Agrees (network_of list.now)) }
    {
        if self.fed < self.facts.len() {
            return None;
        }
        self.network.agrees();
        Some(self.network.list())
    }

    /// The first variable that is one with the variable.
    pub fn root(&self, x: u32) -> u32
        requires { x < length self.now.names }
        ensures { IsRoot self.now.facts x result }
    {
        match self.classes.store().least(Term::Var(x)) {
            Term::Var(root) => root,
            Term::Const(_) => x,
        }
    }
}

/// Appends a fact and what there was before it, or neither.
fn push_both(
    facts: &mut Vec<Fact>,
    past: &mut Vec<Past>,
    fact: Fact,
    before: Past,
) -> Result<(), Memory>
    ensures facts { OnOk result (facts.new.items ≡ facts.old.items ++ fact ∷ []) }
    ensures past { OnOk result (past.new.items ≡ past.old.items ++ before ∷ []) }
    ensures err { OnErr result ((facts.new.items ≡ facts.old.items) × (past.new.items ≡ past.old.items)) }
{
    past.push(before)?;
    let Ok(()) = facts.push(fact) else {
        past.pop();
        return Err(Memory);
    };
    Ok(())
}

/// Takes care that there is a variable beyond so many.
fn spare_variable(ledger: &mut Ledger, count: usize) -> Result<(), Memory>
    requires { count ≤ ledger.old.vars }
    ensures more { HasMoreRoom ledger.old ledger.new }
    ensures enough { OnOk result (count < ledger.new.vars) }
{
    if ledger.mark().vars as usize <= count {
        ledger.fresh()?;
    }
    Ok(())
}

/// Takes care that there are the slots of a variable beyond those of so many.
fn spare_slots(network: &mut Ledger, count: usize) -> Result<(), Memory>
    requires { 3 * count + 1 ≤ network.old.slots }
    ensures more { HasMoreRoom network.old network.new }
    ensures enough { OnOk result (3 * count + 4 ≤ network.new.slots) }
{
    if (network.mark().slots as usize) < 3 * count + 4 {
        three_slots(network)?;
    }
    Ok(())
}

/// Makes three slots.
fn three_slots(network: &mut Ledger) -> Result<(), Memory>
    ensures more { HasMoreRoom network.old network.new }
    ensures enough { OnOk result (network.old.slots + 3 ≤ network.new.slots) }
{
    network.slot()?;
    network.slot()?;
    network.slot()
}

/// Adds a fact to the classes, and to the network if it is fed and agrees with it.
fn take_up(
    network: &mut Ledger,
    classes: &mut Ledger,
    feeds: bool,
    fact: &Fact,
) -> Result<bool, Memory>
    requires mentions { MentionsAll network.old.vars network.old.slots (asserted fact.now) }
    requires class_mentions { MentionsAll classes.old.vars classes.old.slots (joined_by fact.now) }
    requires are_joins { AreJoins classes.old.accepted }
    ensures joined { OnOk result (classes.new ≡ record classes.old { accepted = classes.old.accepted ++ joined_by fact.now }) }
    ensures agrees { IfOk result (λ b. IsTrue b ↔ (IsTrue feeds × Agrees (network_of (network.old.accepted ++ asserted fact.now)))) }
    ensures accepted { IfOk result (λ b. OnTrue b (network.new ≡ record network.old { accepted = network.old.accepted ++ asserted fact.now })) }
    ensures refused { IfOk result (λ b. OnFalse b (network.new ≡ network.old)) }
    ensures err { OnErr result ((network.new ≡ network.old) × (classes.new ≡ classes.old)) }
{
    let before = classes.mark();
    join(classes, fact)?;
    if !feeds {
        return Ok(false);
    }
    match assert_fact(network, fact) {
        Ok(agrees) => Ok(agrees),
        Err(Memory) => {
            classes.undo(before);
            Err(Memory)
        }
    }
}

/// Makes the variables one that the fact says to be one.
fn join(classes: &mut Ledger, fact: &Fact) -> Result<(), Memory>
    requires mentions { MentionsAll classes.old.vars classes.old.slots (joined_by fact.now) }
    requires are_joins { AreJoins classes.old.accepted }
    ensures ok { OnOk result (classes.new ≡ record classes.old { accepted = classes.old.accepted ++ joined_by fact.now }) }
    ensures err { OnErr result (classes.new ≡ classes.old) }
{
    match fact {
        Fact::OneNode(x, y) => join_two(classes, *x, *y),
        Fact::Identified(x, y) => join_two(classes, *x, *y),
        _ => Ok(()),
    }
}

/// Makes two variables one.
fn join_two(classes: &mut Ledger, x: u32, y: u32) -> Result<(), Memory>
    requires mentions { Mentions classes.old.vars classes.old.slots (Assertion.Equate (Term.Var x) (Term.Var y)) }
    requires are_joins { AreJoins classes.old.accepted }
    ensures ok { OnOk result (classes.new ≡ record classes.old {
      accepted = classes.old.accepted ++ Assertion.Equate (Term.Var x) (Term.Var y) ∷ [];
    }) }
    ensures err { OnErr result (classes.new ≡ classes.old) }
{
    let _ = classes.accept(Assertion::Equate(Term::Var(x), Term::Var(y)))?;
    Ok(())
}

/// Accepts what a fact gives to the network, and answers true, exactly where it agrees with it.
/// Else nothing changes.
fn assert_fact(network: &mut Ledger, fact: &Fact) -> Result<bool, Memory>
    requires { MentionsAll network.old.vars network.old.slots (asserted fact.now) }
    ensures agrees { IfOk result (λ b. IsTrue b ↔ Agrees (network_of (network.old.accepted ++ asserted fact.now))) }
    ensures accepted { IfOk result (λ b. OnTrue b (network.new ≡ record network.old { accepted = network.old.accepted ++ asserted fact.now })) }
    ensures refused { IfOk result (λ b. OnFalse b (network.new ≡ network.old)) }
    ensures err { OnErr result (network.new ≡ network.old) }
{
    match fact {
        Fact::OneNode(x, y) => make_one(network, *x, *y),
        Fact::Identified(x, y) => make_one(network, *x, *y),
        Fact::IsName(x, a) => network.accept_all(&[Assertion::Equate(
            Term::Var(*x),
            Term::Const(*a),
        )]),
        Fact::Paired(slot, attr, value) => network.accept_all(&[Assertion::Entry(
            *slot, *attr, *value,
        )]),
        _ => network.accept_all(&[]),
    }
}

/// Accepts that two variables are equal and share the entries of their slots.
fn make_one(network: &mut Ledger, x: u32, y: u32) -> Result<bool, Memory>
    requires { MentionsAll network.old.vars network.old.slots (one_of x y) }
    ensures agrees { IfOk result (λ b. IsTrue b ↔ Agrees (network_of (network.old.accepted ++ one_of x y))) }
    ensures accepted { IfOk result (λ b. OnTrue b (network.new ≡ record network.old { accepted = network.old.accepted ++ one_of x y })) }
    ensures refused { IfOk result (λ b. OnFalse b (network.new ≡ network.old)) }
    ensures err { OnErr result (network.new ≡ network.old) }
{
    network.agrees();
    network.accept_all(&[
        Assertion::Equate(Term::Var(x), Term::Var(y)),
        Assertion::Link(own_slot(x), own_slot(y)),
        Assertion::Link(top_slot(x), top_slot(y)),
        Assertion::Link(bottom_slot(x), bottom_slot(y)),
    ])
}
