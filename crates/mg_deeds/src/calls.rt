//! What calls say: which variables of two calls are one.
ghost use Rattle.std.specs.Prelude.{◌≡◌, ◌++◌, map, OnOk, OnErr};
ghost use Rattle.mg_deeds.specs.Fronts.{AddsFront};
ghost use Rattle.mg_deeds.specs.Sayings.{import_said, dot_said};

use gr_terms::Sym;
use mg_facts::{Facts, Local, Memory, Variable};

/// States that each name is one variable of the call `here` and of the call `there`, which it
/// imports.
pub fn say_imports(facts: &mut Facts, here: u32, there: u32, names: &[Sym]) -> Result<(), Memory>
    ensures ok { OnOk result (facts.new ≡ facts.old ++ map (import_said here there) names.now) }
    ensures err { OnErr result (AddsFront facts.old facts.new (map (import_said here there) names.now)) }
{
    for name in names {
        facts.state_identity(
            in_call(here, Local::Name(name.0)),
            in_call(there, Local::Name(name.0)),
        )?;
    }
    Ok(())
}

/// States that each name is one variable of the call `there`, which is bound to a variable in the
/// call `here`, and behind the dot after this variable.
pub fn say_dots(
    facts: &mut Facts,
    bound: Sym,
    here: u32,
    there: u32,
    names: &[Sym],
) -> Result<(), Memory>
    ensures ok { OnOk result (facts.new ≡ facts.old ++ map (dot_said bound here there) names.now) }
    ensures err { OnErr result (AddsFront facts.old facts.new (map (dot_said bound here there) names.now)) }
{
    for name in names {
        facts.state_identity(
            in_call(here, Local::Dotted(bound.0, name.0)),
            in_call(there, Local::Name(name.0)),
        )?;
    }
    Ok(())
}

fn in_call(at: u32, local: Local) -> Variable
    ensures { result ≡ record { at = at; local = local } }
{
    Variable { at, local }
}
