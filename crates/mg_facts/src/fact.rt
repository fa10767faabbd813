//! Facts in numbers: of variables that are numbered, and of their slots.
ghost use Rattle.std.specs.Prelude.{◌≡◌, ◌+◌, ◌*◌, ◌<◌, ◌^◌};

use gr_terms::{Literal, SlotId, Sym, Term};
use td_desc::{Colour, Dominance};

/// What is said, in numbers.
#[derive(Drop)]
pub enum Fact {
    Block(u32),
    Related(u32, Dominance, u32),
    OneNode(u32, u32),
    Identified(u32, u32),
    IsName(u32, Sym),
    Coloured(u32, Colour),
    Paired(SlotId, Sym, Term),
    Says(Literal),
}

/// The slot of the interface. A variable has the three slots that follow those of the variables
/// before it.
pub const INTERFACE: SlotId = SlotId(0);

/// The slot of a variable's category and properties.
pub fn own_slot(x: u32) -> SlotId
    requires { 3 * x + 1 < 2 ^ 32 }
    ensures { result.0 ≡ 3 * x + 1 }
{
    SlotId(3 * x + 1)
}

/// The slot of a variable's top features.
pub fn top_slot(x: u32) -> SlotId
    requires { 3 * x + 2 < 2 ^ 32 }
    ensures { result.0 ≡ 3 * x + 2 }
{
    SlotId(3 * x + 2)
}

/// The slot of a variable's bottom features.
pub fn bottom_slot(x: u32) -> SlotId
    requires { 3 * x + 3 < 2 ^ 32 }
    ensures { result.0 ≡ 3 * x + 3 }
{
    SlotId(3 * x + 3)
}
