//! Bindings of variables, which can be taken back.
ghost use Rattle.std.specs.Prelude.{◌≡◌, ◌<◌, ◌≤◌, [], ◌∷◌, ◌++◌, length, take, IfOk};
ghost use Rattle.gr_store.specs.Trail.{all_free};
ghost use Rattle.gr_terms.specs.declared.Term.{Term};
ghost use Rattle.std.specs.Bool.{OnTrue, OnFalse};
ghost use Rattle.gr_store.specs.Contents.{rank};
ghost use Rattle.gr_store.specs.Roots.{root_by, Joins, Extends, AreDifferentNames};

use gr_terms::Term;
use std::alloc::{AllocError, Global};
use std::marker::Model;

/// A variable and the term that it is bound to.
#[derive(Clone, Copy, Debug, PartialEq, Eq)]
pub struct Bound {
    pub var: u32,
    pub to: Term,
}

/// For each variable the term that it is bound to, itself where it is free. A variable is bound
/// to a name or to a lower variable. Contracts see the number of variables and the bindings,
/// oldest first.
#[derive(Drop)]
pub struct Bindings {
    to: Vec<Term>,
    trail: Vec<Bound>,
    used: usize,
}

impl Model for Bindings {
    ghost use Rattle.std.specs.Prelude.{List, ℕ, length, take};
    ghost use Rattle.gr_store.specs.declared.bindings.Bound.{Bound};

    ghost Value = { ℕ × List Bound };

    ghost use Rattle.gr_store.specs.Trail.{IsTrail};

    ghost view = { λ b. (length b.to.items, take b.used b.trail.items) };

    ghost invariant = { λ b. IsTrail b.to.items b.trail.items b.used };
}

/// Free variables, as many as told.
fn free_terms(alloc: Global, vars: u32) -> Result<Vec<Term>, AllocError>
    ensures { IfOk result (λ to. to.items ≡ all_free vars) }
{
    let mut to = Vec::with_capacity(alloc, vars as usize)?;
    for i in 0..vars {
        to.push(Term::Var(i))?;
    }
    Ok(to)
}

impl Bindings {
    /// Free variables, as many as told, with room for a binding of each.
    pub fn with_room(alloc: Global, vars: u32) -> Result<Bindings, AllocError>
        ensures { IfOk result (λ b. b ≡ (vars, [])) }
    {
        let to = free_terms(alloc, vars)?;
        let trail = vec![in alloc; Bound {
            var: 0,
            to: Term::Var(0)
        }; vars as usize]?;
        Ok(Bindings { to, trail, used: 0 })
    }

    /// The number of bindings.
    pub fn len(&self) -> usize
        ensures { result ≡ length self.now.1 }
    {
        self.used
    }

    /// The name or the least variable that the bindings join a term with. A variable that isn't
    /// there is joined with nothing.
    pub fn root(&self, t: Term) -> Term
        ensures value { result ≡ root_by self.now.1 t }
        ensures below { rank result ≤ rank t }
        ensures falls { (x : Term) → rank (root_by self.now.1 x) ≤ rank x }
        ensures root { root_by self.now.1 result ≡ result }
    {
        match t {
            Term::Var(i) if self.to.len() <= i as usize => t,
            _ => self.made_root(t),
        }
    }

    /// What `root` gives, for a name or a variable that is there.
    fn made_root(&self, t: Term) -> Term
        requires { rank t ≤ self.now.0 }
        ensures value { result ≡ root_by self.now.1 t }
        ensures below { rank result ≤ rank t }
        ensures falls { (x : Term) → rank (root_by self.now.1 x) ≤ rank x }
        ensures root { root_by self.now.1 result ≡ result }
    {
        let mut at = t;
        'walk: loop {
            let Term::Var(i) = at else {
                return at;
            };
            let next = self.to[i as usize];
            if next == at {
                return at;
            }
            at = next;
        }
    }

    /// Joins two terms, unless they are joined with different names: then nothing changes.
    pub fn unify(&mut self, a: Term, b: Term) -> bool
        requires a_in { rank a ≤ self.old.0 }
        requires b_in { rank b ≤ self.old.0 }
        ensures size { self.new.0 ≡ self.old.0 }
        ensures extends { Extends self.old.1 self.new.1 }
        ensures joined { OnTrue result (Joins (root_by self.old.1) (root_by self.new.1) a b) }
        ensures clash { OnFalse result ((self.new.1 ≡ self.old.1) × AreDifferentNames (root_by self.old.1 a) (root_by self.old.1 b)) }
    {
        let a = self.root(a);
        let b = self.root(b);
        if a == b {
            return true;
        }
        match (a, b) {
            (Term::Const(_), Term::Const(_)) => false,
            (Term::Const(_), Term::Var(j)) => {
                self.bind(j, a);
                true
            }
            (Term::Var(i), Term::Const(_)) => {
                self.bind(i, b);
                true
            }
            (Term::Var(i), Term::Var(j)) => {
                if i < j {
                    self.bind(j, a);
                } else {
                    self.bind(i, b);
                }
                true
            }
        }
    }

    /// Binds a free variable to a root that ranks lower.
    pub fn bind(&mut self, var: u32, to: Term)
        requires in_range { var < self.old.0 }
        requires lower { rank to ≤ var }
        requires free { root_by self.old.1 (Term.Var var) ≡ Term.Var var }
        requires root { root_by self.old.1 to ≡ to }
        ensures { self.new ≡ (self.old.0, self.old.1 ++ record { var = var; to = to } ∷ []) }
    {
        self.to[var as usize] = to;
        self.trail[self.used] = Bound { var, to };
        self.used += 1;
    }

    /// Takes back the last binding.
    pub fn pop(&mut self) -> Bound
        requires { 0 < length self.old.1 }
        ensures { self.old ≡ (self.new.0, self.new.1 ++ result ∷ []) }
    {
        self.used -= 1;
        let last = self.trail[self.used];
        self.to[last.var as usize] = Term::Var(last.var);
        last
    }

    /// Takes back the bindings after the first `kept`.
    pub fn rewind(&mut self, kept: usize)
        requires { kept ≤ length self.old.1 }
        ensures { self.new ≡ (self.old.0, take kept self.old.1) }
    {
        while self.len() > kept {
            let _ = self.pop();
        }
    }
}
