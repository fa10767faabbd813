//! Refusals of scope.
ghost use Rattle.std.specs.Prelude.{◌≡◌};
ghost use Rattle.mg_scope.specs.declared.refusal.ScopeRefusal.TheVariants as ScopeRefusal;

use gr_base::Memory;
use gr_terms::{Sym, Syms};
use mg_syntax::Ref;

/// Why names of a metagrammar do not fit together, with codes 13 to 17 in this order.
#[derive(Drop)]
pub enum ScopeRefusal {
    /// Code 13: an import, a call or a valuation names a class that is not there.
    UnknownClass(Sym),
    /// Code 14: a class leads back to itself through imports and calls, by the names of the
    /// shortest way, which begins with it.
    ClassCycle(Syms),
    /// Code 15: a class has the name of an earlier one.
    DuplicateClass(Sym),
    /// Code 16: in the class a variable stands that is not seen, or that is not used as its kind
    /// of variable must be.
    UndeclaredVariable(Sym, Ref),
    /// Code 17: the class exports a name that it must not export, or reads a name behind a dot
    /// that the called class does not export.
    NotExported(Sym, Ref),
    /// Want of memory.
    Memory,
}

impl From<Memory> for ScopeRefusal {
    ghost from_gives = { λ _ e. e ≡ ScopeRefusal.Memory };

    fn from(_error: Memory) -> ScopeRefusal {
        ScopeRefusal::Memory
    }
}
