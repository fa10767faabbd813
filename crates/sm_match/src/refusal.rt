//! Why nothing is selected.
ghost use Rattle.std.specs.Prelude.{◌≡◌};
ghost use Rattle.sm_match.specs.declared.refusal.SelectRefusal.TheVariants as SelectRefusal;

use gr_base::Memory;

/// Why no instances are selected.
#[derive(Clone, Copy, Debug, PartialEq, Eq)]
pub enum SelectRefusal {
    /// There are more than [`tg_model::INSTANCE_LIMIT`] instances.
    Over,
    /// Want of memory.
    Memory,
}

impl From<Memory> for SelectRefusal {
    ghost from_gives = { λ _ e. e ≡ SelectRefusal.Memory };

    fn from(_error: Memory) -> SelectRefusal {
        SelectRefusal::Memory
    }
}
