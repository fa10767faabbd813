//! Why a class can't be compiled.
ghost use Rattle.std.specs.Prelude.{◌≡◌};
ghost use Rattle.mg_compile.specs.declared.refusal.CompileRefusal.TheVariants as CompileRefusal;

use gr_base::Memory;
use gr_terms::Sym;

/// Why a class can't be compiled.
#[derive(Clone, Copy, Debug, PartialEq, Eq)]
pub enum CompileRefusal {
    /// Code 20: an expansion of the class doesn't clash and has more than 24 nodes.
    TooManyNodes(Sym),
    /// Code 24: an expansion of the class has more than 4,096 calls and items.
    TooLarge(Sym),
    /// Want of memory.
    Memory,
}

impl From<Memory> for CompileRefusal {
    ghost from_gives = { λ _ e. e ≡ CompileRefusal.Memory };

    fn from(_error: Memory) -> CompileRefusal {
        CompileRefusal::Memory
    }
}
