//! Accepted assertions, as they are kept.
ghost use Rattle.std.specs.Prelude.{◌≡◌, ◌+◌, ◌<◌, length, vec_len, IfOk, MatchOption};
ghost use Rattle.gr_terms.specs.declared.Term.{Term};
ghost use Rattle.gr_store.specs.Index.{IsEntryNode};
ghost use Rattle.gr_store.specs.State.{assertions_of, joins_before, terms_before, first_bound, IsRising};

use crate::bindings::Bindings;
use crate::rings::Rings;
use gr_terms::{Assertion, SlotId, Sym, Term};
use std::alloc::{AllocError, Global};

/// An accepted assertion, and how many bindings of terms and joins of nodes stood before it.
#[derive(Clone, Copy, Debug, PartialEq, Eq)]
pub struct Kept {
    pub assertion: Assertion,
    pub terms: usize,
    pub joins: usize,
}

/// Room for so many assertions.
pub fn kept_room(alloc: Global, assertions: u32) -> Result<Vec<Kept>, AllocError>
    ensures { IfOk result (λ kept. vec_len kept ≡ assertions) }
{
    let unused = Kept {
        assertion: Assertion::Link(SlotId(0), SlotId(0)),
        terms: 0,
        joins: 0,
    };
    vec![in alloc; unused; assertions as usize]
}

/// The value of the entry of a node, where the node is that of an entry with this attribute.
pub fn value_at(kept: &[Kept], base: u32, node: u32, attr: Sym) -> Option<Term>
    requires { node < base + length kept.now }
    ensures { MatchOption result
        ((w : Term) → IsEntryNode base (assertions_of kept.now) attr node w → ⊥)
        (λ value. IsEntryNode base (assertions_of kept.now) attr node value) }
{
    if node < base {
        return None;
    }
    match kept[(node - base) as usize].assertion {
        Assertion::Entry(_, of, value) => { if of == attr { Some(value) } else { None } }
        Assertion::Equate(_, _) => None,
        Assertion::Link(_, _) => None,
    }
}

/// Takes back what was bound and joined since the first assertions, as many as told.
pub fn rewind_to(kept: &[Kept], nodes: &mut Rings, terms: &mut Bindings, assertions: usize)
    requires joins_rise { IsRising (joins_before kept.now) (length nodes.old.1) }
    requires terms_rise { IsRising (terms_before kept.now) (length terms.old.1) }
    ensures nodes { nodes.new ≡ (nodes.old.0, first_bound (joins_before kept.now) nodes.old.1 assertions) }
    ensures terms { terms.new ≡ (terms.old.0, first_bound (terms_before kept.now) terms.old.1 assertions) }
{
    if assertions < kept.len() {
        let next = kept[assertions];
        nodes.rewind(next.joins);
        terms.rewind(next.terms);
    }
}
