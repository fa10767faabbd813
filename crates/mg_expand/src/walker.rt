//! Walks through the tasks of a class, from fork to fork.
ghost use Rattle.std.specs.Prelude.{◌≡◌, ℕ, ◌+◌, ◌-◌, ◌≤◌, ◌<◌, ◌^◌, [], ◌∷◌, ◌++◌, List, length, Some, None, IfOk, OnOk, slice_get, MatchOption};
ghost use Rattle.mg_syntax.specs.declared.item.Class.{Class};
ghost use Rattle.mg_scope.specs.Classes.{class_of, firsts};
ghost use Rattle.mg_scope.specs.Faults.{IsThere, IsScoped};
ghost use Rattle.mg_deeds.specs.Deeds.{Deed, deed_of};
ghost use Rattle.mg_syntax.specs.declared.item.Item.{Item};
ghost use Rattle.gr_terms.specs.declared.Sym.{Sym};
ghost use Rattle.mg_expand.specs.declared.errand.Errand.{Errand};
ghost use Rattle.mg_expand.specs.Walks.{a_call, a_choice, a_deed, imported, called, bound_to};
ghost use Rattle.mg_expand.specs.Routes.{Outcome};
ghost use Rattle.std.specs.Prelude.{vec_len};
ghost use Rattle.mg_expand.specs.Ways.{Stands, Gave, Underway};
ghost use Rattle.mg_expand.specs.Walkers.{CanGo, Goes, StepsOn, DoesTask, Ends, Keeps, Enters, Chose};

use crate::errand::{Errand, Fork, Next, Work};
use crate::exports::gather;
use crate::step::Step;
use gr_base::Memory;
use gr_terms::Sym;
use mg_deeds::{say, say_dots, say_imports, weight};
use mg_facts::Facts;
use mg_scope::Resolved;
use mg_syntax::{Alternative, Class, Statement};
use std::alloc::Global;

/// The greatest number of calls and items of an expansion.
const LIMIT: u32 = 4096;

/// Where a walk stands. What is kept and stated behind a fork is taken back when the walk goes on
/// from there.
#[derive(Drop)]
pub struct Walker<'a> {
    pub kept: Vec<Errand<'a>>,
    pub forks: Vec<Fork<'a>>,
    pub facts: Facts,
    pub items: u32,
    pub names: Vec<Sym>,
}

/// The class of a name.
fn class_named<'a>(resolved: &'a Resolved, name: Sym) -> &'a Class
    requires { IsThere resolved.now name }
    ensures class { class_of resolved.now name ≡ Some result.now }
    ensures scoped { IsScoped resolved.now }
{
    match resolved.class(name) {
        Some(class) => class,
        None => unreachable!(),
    }
}

impl<'a> Walker<'a> {
    /// Stands before the first expansion of a class.
    pub fn new(alloc: Global, resolved: &'a Resolved, name: Sym) -> Result<Walker<'a>, Memory>
        requires { IsThere resolved.now name }
        ensures { IfOk result (λ w. Underway resolved.now name 0 w) }
    {
        let class = class_named(resolved, name);
        let facts = Facts::new(alloc)?;
        let mut forks = Vec::new(alloc);
        forks.push(Fork {
            errand: Errand {
                here: 0,
                work: Work::Imports(class.imports.as_slice(), class.body.as_slice()),
                behind: 0,
            },
            kept: 0,
            said: 0,
            items: 1,
        })?;
        Ok(Walker {
            kept: Vec::new(alloc),
            forks,
            facts,
            items: 1,
            names: Vec::new(alloc),
        })
    }

    /// Goes on from the last fork to the next end, and tells what is there.
    pub fn give(&mut self, resolved: &'a Resolved) -> Result<Step, Memory>
        requires forks { 0 < vec_len self.old.forks }
        requires stands { (outs : List Outcome) × Stands resolved.now self.old outs }
        ensures { IfOk result (λ step. (outs : List Outcome) → Stands resolved.now self.old outs → Gave resolved.now self.new outs step) }
    {
        let Some(fork) = self.forks.pop() else {
            unreachable!();
        };
        self.kept.truncate(fork.kept);
        self.facts.keep(fork.said);
        self.items = fork.items;
        if !self.walk(resolved, fork.errand)? {
            return Ok(Step::TooLarge);
        }
        match self.facts.describe(*self.kept.allocator())? {
            Some(description) => Ok(Step::Description(description)),
            None => Ok(Step::Clash),
        }
    }

    /// Goes on from a fork to the next end. Answers whether it came there, which it does not where
    /// more items than the limit are counted.
    fn walk(&mut self, resolved: &'a Resolved, errand: Errand<'a>) -> Result<bool, Memory>
        requires { CanGo resolved.now self.old errand }
        ensures { IfOk result (λ arrived. (outs : List Outcome) → Goes resolved.now self.old errand.entry outs → Ends resolved.now self.new arrived outs) }
    {
        let mut now = errand;
        'steps: loop {
            match self.step(resolved, now)? {
                Next::On(next) => now = next,
                Next::Done => return Ok(true),
                Next::TooLarge => return Ok(false),
            }
        }
    }

    fn step(&mut self, resolved: &'a Resolved, errand: Errand<'a>) -> Result<Next<'a>, Memory>
        requires { CanGo resolved.now self.old errand }
        ensures { IfOk result (λ next. StepsOn resolved.now self.old errand.entry self.new next) }
    {
        match errand.work {
            Work::Imports(names, body) => self.go_through_imports(resolved, errand, names, body),
            Work::Choice(body) => {
                let next = self.choose(errand.here, body, errand.behind)?;
                Ok(Next::On(next))
            }
            Work::Statements(list) => self.go_through(resolved, errand, list),
        }
    }

    // The next import, or the choice of an alternative.
    fn go_through_imports(
        &mut self,
        resolved: &'a Resolved,
        errand: Errand<'a>,
        names: &'a [Sym],
        body: &'a [Alternative],
    ) -> Result<Next<'a>, Memory>
        requires can { CanGo resolved.now self.old errand }
        requires work { errand.work ≡ Work.Imports names body }
        ensures { IfOk result (λ next. StepsOn resolved.now self.old errand.entry self.new next) }
    {
        let Some((name, rest)) = names.split_first() else {
            let next = self.choose(errand.here, body, errand.behind)?;
            return Ok(Next::On(next));
        };
        let then = Errand {
            here: errand.here,
            work: Work::Imports(rest, body),
            behind: errand.behind,
        };
        self.import(class_named(resolved, *name), then)
    }

    // The next statement, or what is behind the last one.
    fn go_through(
        &mut self,
        resolved: &'a Resolved,
        errand: Errand<'a>,
        list: &'a [Statement],
    ) -> Result<Next<'a>, Memory>
        requires can { CanGo resolved.now self.old errand }
        requires work { errand.work ≡ Work.Statements list }
        ensures { IfOk result (λ next. StepsOn resolved.now self.old errand.entry self.new next) }
    {
        let Some((statement, rest)) = list.split_first() else {
            if errand.behind == 0 {
                return Ok(Next::Done);
            }
            return Ok(Next::On(self.kept[errand.behind - 1]));
        };
        let then = Errand {
            here: errand.here,
            work: Work::Statements(rest),
            behind: errand.behind,
        };
        match statement {
            Statement::Group(body) => {
                let here = then.here;
                let behind = self.keep(then)?;
                let next = self.choose(here, body.as_slice(), behind)?;
                Ok(Next::On(next))
            }
            Statement::Call(name) => self.call(class_named(resolved, *name), then),
            Statement::Bind(variable, name) => self.bind(
                class_named(resolved, *name),
                *variable,
                then,
            ),
            Statement::Equation(_, _)
            | Statement::Syn(_)
            | Statement::Sem(_)
            | Statement::Iface(_) => self.perform(statement, then),
        }
    }

    fn import(&mut self, class: &'a Class, then: Errand<'a>) -> Result<Next<'a>, Memory>
        requires { self.old.items ≤ 4096 }
        ensures { IfOk result (λ next. (m : List Item) (c : Sym) → class_of m c ≡ Some class.now → DoesTask m self.old (a_call imported c) then.entry self.new next) }
    {
        let there = self.items;
        gather(&mut self.names, class.exports.as_slice())?;
        let count = self.names.len();
        if count >= (LIMIT - there) as usize {
            return Ok(Next::TooLarge);
        }
        say_imports(&mut self.facts, then.here, there, self.names.as_slice())?;
        self.items = there + 1 + count as u32;
        let next = self.enter(class, there, then)?;
        Ok(Next::On(next))
    }

    fn call(&mut self, class: &'a Class, then: Errand<'a>) -> Result<Next<'a>, Memory>
        requires { self.old.items ≤ 4096 }
        ensures { IfOk result (λ next. (m : List Item) (c : Sym) → class_of m c ≡ Some class.now → DoesTask m self.old (a_call called c) then.entry self.new next) }
    {
        let there = self.items;
        if there >= LIMIT {
            return Ok(Next::TooLarge);
        }
        self.items = there + 1;
        let next = self.enter(class, there, then)?;
        Ok(Next::On(next))
    }

    fn bind(
        &mut self,
        class: &'a Class,
        variable: Sym,
        then: Errand<'a>,
    ) -> Result<Next<'a>, Memory>
        requires { self.old.items ≤ 4096 }
        ensures { IfOk result (λ next. (m : List Item) (c : Sym) → class_of m c ≡ Some class.now → DoesTask m self.old (a_call (bound_to variable) c) then.entry self.new next) }
    {
        let there = self.items;
        if there >= LIMIT {
            return Ok(Next::TooLarge);
        }
        gather(&mut self.names, class.exports.as_slice())?;
        say_dots(
            &mut self.facts,
            variable,
            then.here,
            there,
            self.names.as_slice(),
        )?;
        self.items = there + 1;
        let next = self.enter(class, there, then)?;
        Ok(Next::On(next))
    }

    fn perform(&mut self, statement: &Statement, then: Errand<'a>) -> Result<Next<'a>, Memory>
        requires { self.old.items ≤ 4096 }
        ensures { IfOk result (λ next. (m : List Item) (d : Deed) → deed_of statement.now ≡ Some d → DoesTask m self.old (a_deed d) then.entry self.new next) }
    {
        let Some(count) = weight(statement, LIMIT - self.items) else {
            return Ok(Next::TooLarge);
        };
        let first = self.items;
        say(
            *self.kept.allocator(),
            &mut self.facts,
            then.here,
            first,
            statement,
        )?;
        self.items = first + count;
        Ok(Next::On(then))
    }

    // Keeps what comes then, and begins with the call of a class.
    fn enter(
        &mut self,
        class: &'a Class,
        there: u32,
        then: Errand<'a>,
    ) -> Result<Errand<'a>, Memory>
        ensures { IfOk result (λ next. Enters self.old self.new then.entry there class.now next) }
    {
        let behind = self.keep(then)?;
        Ok(Errand {
            here: there,
            work: Work::Imports(class.imports.as_slice(), class.body.as_slice()),
            behind,
        })
    }

    // Keeps an errand, and answers its number for what stands before it.
    fn keep(&mut self, errand: Errand<'a>) -> Result<usize, Memory>
        ensures { IfOk result (λ n. Keeps self.old self.new errand.entry n) }
    {
        self.kept.push(errand)?;
        Ok(self.kept.len())
    }

    // The first alternative. Where there are others, the choice among these is a fork.
    fn choose(
        &mut self,
        here: u32,
        body: &'a [Alternative],
        behind: usize,
    ) -> Result<Errand<'a>, Memory>
        ensures { IfOk result (λ next. (m : List Item) → Chose m self.old here (a_choice body.now ∷ []) behind self.new next) }
    {
        let Some((first, rest)) = body.split_first() else {
            return Ok(Errand {
                here,
                work: Work::Statements(&[]),
                behind,
            });
        };
        let next = Errand {
            here,
            work: Work::Statements(first.as_slice()),
            behind,
        };
        if rest.is_empty() {
            return Ok(next);
        }
        self.forks.push(Fork {
            errand: Errand {
                here,
                work: Work::Choice(rest),
                behind,
            },
            kept: self.kept.len(),
            said: self.facts.count(),
            items: self.items,
        })?;
        Ok(next)
    }
}
