//! Classes of numbered nodes, which can be taken apart again.
ghost use Rattle.std.specs.Prelude.{◌≡◌, ◌≢◌, ◌↔◌, ◌<◌, ◌≤◌, ◌+◌, ◌-◌, [], ◌∷◌, ◌++◌, length, take, get_or, IfOk, IsTrue};
ghost use Rattle.std.specs.List.{range_with_len};
ghost use Rattle.gr_terms.specs.declared.Term.{Term};
ghost use Rattle.gr_store.specs.Roots.{root_by, Joins, Extends};
ghost use Rattle.gr_store.specs.Rings.{next_of, ring_of, HasRing};

use crate::bindings::Bindings;
use gr_terms::Term;
use std::alloc::{AllocError, Global};
use std::marker::Model;

/// Nodes in classes, each of its own at first. The least node of a class is its root, and from
/// each node a walk leads through all nodes of its class. Contracts see the number of nodes and
/// the bindings that joined the classes, oldest first, in which nodes are taken for variables.
#[derive(Drop)]
pub struct Rings {
    roots: Bindings,
    next: Vec<u32>,
}

impl Model for Rings {
    ghost use Rattle.std.specs.Prelude.{List, ℕ};
    ghost use Rattle.gr_store.specs.declared.bindings.Bound.{Bound};

    ghost Value = { ℕ × List Bound };

    ghost use Rattle.gr_store.specs.Rings.{AreRings};

    ghost view = { λ r. r.roots };

    ghost invariant = { λ r. AreRings r.roots r.next.items };
}

/// The first numbers, as many as told.
fn numbers(alloc: Global, count: u32) -> Result<Vec<u32>, AllocError>
    ensures { IfOk result (λ list. list.items ≡ range_with_len 0 count) }
{
    let mut list = Vec::with_capacity(alloc, count as usize)?;
    for i in 0..count {
        list.push(i)?;
    }
    Ok(list)
}

impl Rings {
    /// Nodes in classes of their own, as many as told.
    pub fn with_room(alloc: Global, nodes: u32) -> Result<Rings, AllocError>
        ensures { IfOk result (λ r. r ≡ (nodes, [])) }
    {
        let roots = Bindings::with_room(alloc, nodes)?;
        let next = numbers(alloc, nodes)?;
        Ok(Rings { roots, next })
    }

    /// The number of nodes.
    pub fn size(&self) -> usize
        ensures { result ≡ self.now.0 }
    {
        self.next.len()
    }

    /// The number of times that classes were joined.
    pub fn len(&self) -> usize
        ensures { result ≡ length self.now.1 }
    {
        self.roots.len()
    }

    /// The root of a node's class, which is the least node of it.
    pub fn root(&self, node: u32) -> u32
        requires { node < self.now.0 }
        ensures value { root_by self.now.1 (Term.Var node) ≡ Term.Var result }
        ensures below { result ≤ node }
        ensures root { root_by self.now.1 (Term.Var result) ≡ Term.Var result }
        ensures ring { HasRing self.now result }
    {
        match self.roots.root(Term::Var(node)) {
            Term::Var(root) => root,
            Term::Const(_) => unreachable!(),
        }
    }

    /// The next node of the walk through a class.
    pub fn next(&self, node: u32) -> u32
        requires { node < self.now.0 }
        ensures { result ≡ get_or (next_of self.now) node 0 }
    {
        self.next[node as usize]
    }

    /// Whether the class of a root has no more nodes than that of another. It takes as many
    /// steps as the smaller one has nodes.
    pub fn is_no_larger(&self, one: u32, two: u32) -> bool
        requires one_ring { HasRing self.now one }
        requires two_ring { HasRing self.now two }
        requires one_in { one < self.now.0 }
        requires two_in { two < self.now.0 }
        ensures { IsTrue result ↔ (length (ring_of self.now.1 one) ≤ length (ring_of self.now.1 two)) }
    {
        let (mut at, mut beside) = (one, two);
        'walk: for _ in 0..self.size() {
            at = self.next(at);
            if at == one {
                return true;
            }
            beside = self.next(beside);
            if beside == two {
                return false;
            }
        }
        unreachable!()
    }

    /// Joins the different classes of two nodes.
    pub fn join(&mut self, a: u32, b: u32)
        requires a_in { a < self.old.0 }
        requires b_in { b < self.old.0 }
        requires differ { root_by self.old.1 (Term.Var a) ≢ root_by self.old.1 (Term.Var b) }
        ensures size { self.new.0 ≡ self.old.0 }
        ensures extends { Extends self.old.1 self.new.1 }
        ensures joined { Joins (root_by self.old.1) (root_by self.new.1) (Term.Var a) (Term.Var b) }
    {
        let one = self.root(a);
        let two = self.root(b);
        if one < two {
            self.bind(two, one);
        } else {
            self.bind(one, two);
        }
    }

    /// Joins the class of a root with that of a lower one.
    fn bind(&mut self, node: u32, root: u32)
        requires in_range { node < self.old.0 }
        requires lower { root < node }
        requires free { root_by self.old.1 (Term.Var node) ≡ Term.Var node }
        requires root { root_by self.old.1 (Term.Var root) ≡ Term.Var root }
        ensures { self.new ≡ (self.old.0, self.old.1 ++ record { var = node; to = Term.Var root } ∷ []) }
    {
        self.roots.bind(node, Term::Var(root));
        self.next.swap(node as usize, root as usize);
    }

    /// Takes back the joins after the first `kept`.
    pub fn rewind(&mut self, kept: usize)
        requires { kept ≤ length self.old.1 }
        ensures { self.new ≡ (self.old.0, take kept self.old.1) }
    {
        while self.roots.len() > kept {
            self.part();
        }
    }

    /// Takes back the last join.
    fn part(&mut self)
        requires { 0 < length self.old.1 }
        ensures { self.new ≡ (self.old.0, take (length self.old.1 - 1) self.old.1) }
    {
        let last = self.roots.pop();
        match last.to {
            Term::Var(root) => self.next.swap(last.var as usize, root as usize),
            Term::Const(_) => unreachable!(),
        }
    }
}
