//! The names that a class exports, each once.
ghost use Rattle.std.specs.Prelude.{◌≡◌, [], ◌∷◌, ◌++◌, List, OnOk, IsTrue, ◌↔◌, map};
ghost use Rattle.gr_base.specs.Lists.{IsAmong};
ghost use Rattle.gr_terms.specs.declared.Sym.{Sym};
ghost use Rattle.mg_scope.specs.Classes.{firsts};

use gr_base::Memory;
use gr_terms::Sym;
use indexmap::IndexSet;

/// The most names that are compared with one another. More are told apart by a table.
const FEW: usize = 24;

/// Puts the names in place of the list, each once, in the order of their first places.
pub fn gather(names: &mut Vec<Sym>, exports: &[Sym]) -> Result<(), Memory>
    ensures { OnOk result (names.new.items ≡ firsts exports.now) }
{
    names.truncate(0);
    if exports.len() <= FEW {
        note_all(names, exports)
    } else {
        let mut met = IndexSet::with_capacity(*names.allocator(), exports.len())?;
        meet_all(names, &mut met, exports)
    }
}

/// Appends to no names those of the exports, each once.
fn note_all(names: &mut Vec<Sym>, exports: &[Sym]) -> Result<(), Memory>
    requires { names.old.items ≡ [] }
    ensures { OnOk result (names.new.items ≡ firsts exports.now) }
{
    for name in exports {
        note(names, *name)?;
    }
    Ok(())
}

/// Appends a name, where it is new.
fn note(names: &mut Vec<Sym>, name: Sym) -> Result<(), Memory>
    ensures { OnOk result ((seen : List Sym) → names.old.items ≡ firsts seen → names.new.items ≡ firsts (seen ++ name ∷ [])) }
{
    if contains(names.as_slice(), name) {
        return Ok(());
    }
    names.push(name)?;
    Ok(())
}

/// Whether the name is one of these.
fn contains(names: &[Sym], name: Sym) -> bool
    ensures { IsTrue result ↔ IsAmong names.now name }
{
    for one in names {
        if one.0 == name.0 {
            return true;
        }
    }
    false
}

/// Appends to no names those of the exports, each once, with a table of the numbers met.
fn meet_all(names: &mut Vec<Sym>, met: &mut IndexSet<u32>, exports: &[Sym]) -> Result<(), Memory>
    requires none { names.old.items ≡ [] }
    requires unmet { met.old.keys ≡ [] }
    ensures { OnOk result (names.new.items ≡ firsts exports.now) }
{
    for name in exports {
        meet(names, met, *name)?;
    }
    Ok(())
}

/// Appends a name, where its number is none of those met, which are the numbers of the names.
fn meet(names: &mut Vec<Sym>, met: &mut IndexSet<u32>, name: Sym) -> Result<(), Memory>
    requires { met.old.keys ≡ map (λ (n : Sym). n.0) names.old.items }
    ensures names { OnOk result ((seen : List Sym) → names.old.items ≡ firsts seen → names.new.items ≡ firsts (seen ++ name ∷ [])) }
    ensures met { OnOk result (met.new.keys ≡ map (λ (n : Sym). n.0) names.new.items) }
{
    let new = met.insert(name.0)?;
    if new {
        names.push(name)?;
    }
    Ok(())
}
