//! Why there are no lexical trees.
ghost use Rattle.std.specs.Prelude.{◌≡◌};
ghost use Rattle.lx_anchor.specs.declared.refusal.AnchorRefusal.TheVariants as AnchorRefusal;

use gr_base::Memory;
use gr_terms::Sym;

/// Why there are no lexical trees.
#[derive(Clone, Copy, Debug, PartialEq, Eq)]
pub enum AnchorRefusal {
    /// A lexical tree has no literal: the lemma of its entry, its class, and its tree's number there,
    /// counted from 1. It is the first such one, by entry and then by tree.
    NoLiteral { lemma: Sym, class: Sym, tree: u32 },
    /// Want of memory.
    Memory,
}

impl From<Memory> for AnchorRefusal {
    ghost from_gives = { λ _ e. e ≡ AnchorRefusal.Memory };

    fn from(_error: Memory) -> AnchorRefusal {
        AnchorRefusal::Memory
    }
}
