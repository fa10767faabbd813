//! Entries of the slots of a class, which are found by the nodes on its ring: those below `base`
//! are slots, and behind them stand the nodes of the places of assertions.
ghost use Rattle.std.specs.Prelude.{◌≡◌, ◌+◌, ◌<◌, ℕ, List, [], ◌∷◌, ◌++◌, length, MatchOption};
ghost use Rattle.gr_store.specs.Solution.{HasNoEntry, IsSomeEntry, IsFirstEntry};
ghost use Rattle.gr_store.specs.Rings.{HasRing};
ghost use Rattle.gr_store.specs.Index.{IsIndexed, InClass, IsLeastNode};
ghost use Rattle.gr_store.specs.State.{assertions_of};

use crate::kept::{Kept, value_at};
use crate::rings::Rings;
use gr_terms::{Sym, Term};

/// The value of an entry with an attribute at a slot of a root's class, if there is one.
pub fn any_entry(kept: &[Kept], nodes: &Rings, base: u32, root: u32, attr: Sym) -> Option<Term>
    requires indexed { IsIndexed base (assertions_of kept.now) nodes.now }
    requires ring { HasRing nodes.now root }
    requires slot { root < base }
    ensures { MatchOption result
        (HasNoEntry (assertions_of kept.now) (InClass nodes.now.1 root) attr)
        (λ value. IsSomeEntry (assertions_of kept.now) (InClass nodes.now.1 root) attr value) }
{
    let mut at = root;
    'walk: for _ in 0..nodes.size() {
        at = nodes.next(at);
        if at == root {
            return None;
        }
        if let Some(value) = value_at(kept, base, at, attr) {
            return Some(value);
        }
    }
    unreachable!()
}

/// The earlier of what was found so far and the entry of a node, where it has the attribute.
fn earlier(
    kept: &[Kept],
    base: u32,
    attr: Sym,
    at: u32,
    found: Option<(u32, Term)>,
) -> Option<(u32, Term)>
    requires { at < base + length kept.now }
    ensures { (seen : List ℕ) → IsLeastNode base (assertions_of kept.now) attr seen found
        → IsLeastNode base (assertions_of kept.now) attr (seen ++ at ∷ []) result }
{
    match (value_at(kept, base, at, attr), found) {
        (None, _) => found,
        (Some(value), None) => Some((at, value)),
        (Some(value), Some((node, _))) => { if at < node { Some((at, value)) } else { found } }
    }
}

/// The value of the first entry with an attribute at a slot of a root's class, if there is one.
pub fn first_entry(kept: &[Kept], nodes: &Rings, base: u32, root: u32, attr: Sym) -> Option<Term>
    requires indexed { IsIndexed base (assertions_of kept.now) nodes.now }
    requires ring { HasRing nodes.now root }
    requires slot { root < base }
    ensures { MatchOption result
        (HasNoEntry (assertions_of kept.now) (InClass nodes.now.1 root) attr)
        (λ value. IsFirstEntry (assertions_of kept.now) (InClass nodes.now.1 root) attr value) }
{
    let mut found = None;
    let mut at = root;
    'walk: for _ in 0..nodes.size() {
        at = nodes.next(at);
        if at == root {
            let (_, value) = found?;
            return Some(value);
        }
        found = earlier(kept, base, attr, at, found);
    }
    unreachable!()
}
