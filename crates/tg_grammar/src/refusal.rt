//! Why classes are no grammar.
ghost use Rattle.std.specs.Prelude.{◌≡◌};
ghost use Rattle.tg_grammar.specs.declared.refusal.GrammarRefusal.TheVariants as GrammarRefusal;

use gr_base::Memory;
use gr_terms::Sym;

/// Why classes are no grammar.
#[derive(Clone, Copy, Debug, PartialEq, Eq)]
pub enum GrammarRefusal {
    /// A tree isn't well formed: the code of its first flaw, its class, and its number there,
    /// counted from 1. It is the first such tree of the first class that has one.
    Shape { code: u8, class: Sym, tree: u32 },
    /// Want of memory.
    Memory,
}

impl From<Memory> for GrammarRefusal {
    ghost from_gives = { λ _ e. e ≡ GrammarRefusal.Memory };

    fn from(_error: Memory) -> GrammarRefusal {
        GrammarRefusal::Memory
    }
}
