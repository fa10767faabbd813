//! Why a file isn't compiled, by the refusals of the crates that read, resolve and compile.
ghost use Rattle.std.specs.Prelude.{◌≡◌, ◌⊎◌};
ghost use Rattle.gr_tokens.specs.declared.ReadRefusal.TheVariants as Unread;
ghost use Rattle.mg_scope.specs.declared.refusal.ScopeRefusal.TheVariants as Unscoped;
ghost use Rattle.mg_compile.specs.declared.refusal.CompileRefusal.TheVariants as Uncompiled;
ghost use Rattle.rl_refusals.specs.declared.refusal.Refusal.{Refusal as Refused};
ghost use Rattle.rl_top.specs.Refusals.{IsOfCompiling, IsOfReading, IsOfScope};
ghost use Rattle.rl_top.specs.Stops.{Stops};
ghost use Rattle.rl_top.specs.declared.refusals.Stop.TheVariants as Stop;

use gr_base::Memory;
use gr_tokens::ReadRefusal;
use mg_compile::CompileRefusal;
use mg_scope::ScopeRefusal;
use rl_refusals::{Refusal, Role};

/// Why a file isn't compiled.
#[derive(Drop)]
pub enum Stop {
    /// The file is refused.
    Refused(Refusal),
    /// Want of memory.
    Memory,
}

impl From<Memory> for Stop {
    ghost from_gives = { λ _ stop. stop ≡ Stop.Memory };

    fn from(_error: Memory) -> Stop {
        Stop::Memory
    }
}

impl From<ScopeRefusal> for Stop {
    ghost from_gives = { λ e stop. Stops (e ≡ Unscoped.Memory) (IsOfScope e) stop };

    fn from(error: ScopeRefusal) -> Stop {
        match error {
            ScopeRefusal::UnknownClass(class) => Stop::Refused(Refusal::UnknownClass(class)),
            ScopeRefusal::ClassCycle(classes) => Stop::Refused(Refusal::ClassCycle(classes)),
            ScopeRefusal::DuplicateClass(class) => Stop::Refused(Refusal::DuplicateClass(class)),
            ScopeRefusal::UndeclaredVariable(class, variable) => {
                Stop::Refused(Refusal::UndeclaredVariable(class, variable))
            }
            ScopeRefusal::NotExported(class, variable) => {
                Stop::Refused(Refusal::NotExported(class, variable))
            }
            ScopeRefusal::Memory => Stop::Memory,
        }
    }
}

impl From<CompileRefusal> for Stop {
    ghost from_gives = { λ e stop. Stops (e ≡ Uncompiled.Memory) (IsOfCompiling e) stop };

    fn from(error: CompileRefusal) -> Stop {
        match error {
            CompileRefusal::TooManyNodes(class) => Stop::Refused(Refusal::TooManyNodes(class)),
            CompileRefusal::TooLarge(class) => Stop::Refused(Refusal::TooLarge(class)),
            CompileRefusal::Memory => Stop::Memory,
        }
    }
}

/// The refusal of a metagrammar that can't be read. It is none of those that only readers of other
/// files answer.
pub fn unread(error: ReadRefusal) -> Stop
    requires { (error ≡ Unread.Memory) ⊎ ((r : Refused) × IsOfReading error r) }
    ensures { Stops (error ≡ Unread.Memory) (IsOfReading error) result }
{
    match error {
        ReadRefusal::Syntax(place) => Stop::Refused(Refusal::Syntax(Role::Metagrammar, place)),
        ReadRefusal::NotUtf8(offset) => Stop::Refused(Refusal::NotUtf8(Role::Metagrammar, offset)),
        ReadRefusal::Duplicate(place) => {
            Stop::Refused(Refusal::DuplicateAttribute(Role::Metagrammar, place))
        }
        ReadRefusal::TooManyClasses(_) => {
            Stop::Refused(Refusal::TooManyClasses(Role::Metagrammar))
        }
        ReadRefusal::Memory => Stop::Memory,
        _ => unreachable!(),
    }
}
