//! The rules of scope, item by item.
ghost use Rattle.std.specs.Prelude.{◌≡◌, ◌<◌, List, Some, length, take, slice_get, IfOk, IfErr, OnOk, MatchOption};
ghost use Rattle.gr_base.specs.Lists.{Each};
ghost use Rattle.mg_syntax.specs.declared.item.Item.{Item};
ghost use Rattle.mg_scope.specs.Classes.{mentions, mentioned, uses_of};
ghost use Rattle.mg_scope.specs.Directories.{ArePlaces};
ghost use Rattle.mg_scope.specs.Faults.{IsThere, IsFirstWithout, IsFirstFault, IsScoped};
ghost use Rattle.mg_scope.specs.Orders.{AreRanks};
ghost use Rattle.mg_scope.specs.Checks.{HasRightNames, HasRightVariables, IsRightItem, IsItemRefusal};

use crate::cycles::cycle_of;
use crate::directory::Directory;
use crate::ranks::ranks;
use crate::refusal::ScopeRefusal;
use crate::table::Table;
use crate::uses::Use;
use crate::variables::Variables;
use gr_terms::Sym;
use mg_syntax::{Class, Item, Ref};
use std::alloc::Global;

/// Tests all items in order. Answers the places of the first classes of all names.
pub fn check(alloc: Global, items: &[Item]) -> Result<Table, ScopeRefusal>
    ensures ok { IfOk result (λ places. IsScoped items.now × ArePlaces items.now places) }
    ensures err { IfErr result (λ e. (e ≡ ScopeRefusal.Memory → ⊥) → IsFirstFault items.now e) }
{
    let directory = Directory::new(alloc, items)?;
    let ranks = ranks(alloc, &directory)?;
    let mut variables = Variables::new(alloc);
    for place in 0..items.len() {
        check_item(alloc, &directory, &ranks, &mut variables, place)?;
    }
    Ok(directory.into_places())
}

fn check_item(
    alloc: Global,
    directory: &Directory,
    ranks: &Table,
    variables: &mut Variables,
    place: usize,
) -> Result<(), ScopeRefusal>
    requires ranks { AreRanks (mentioned directory.now) ranks.now }
    requires within { place < length directory.now }
    ensures ok { OnOk result ((i : Item) → slice_get directory.now place ≡ Some i → IsRightItem directory.now (take place directory.now) i) }
    ensures err { IfErr result (λ e. (i : Item) → slice_get directory.now place ≡ Some i → IsItemRefusal directory.now (take place directory.now) i e) }
{
    match &directory.items()[place] {
        Item::Class(class) => check_class(alloc, directory, ranks, variables, place, class),
        Item::Value(name) => check_name(directory, *name),
        Item::Header(_) => Ok(()),
    }
}

fn check_name(directory: &Directory, name: Sym) -> Result<(), ScopeRefusal>
    ensures ok { OnOk result (IsThere directory.now name) }
    ensures err { IfErr result (λ e. (done : List Item) → IsItemRefusal directory.now done (Item.Value name) e) }
{
    if directory.has(name) {
        Ok(())
    } else {
        Err(ScopeRefusal::UnknownClass(name))
    }
}

fn check_class(
    alloc: Global,
    directory: &Directory,
    ranks: &Table,
    variables: &mut Variables,
    place: usize,
    class: &Class,
) -> Result<(), ScopeRefusal>
    requires ranks { AreRanks (mentioned directory.now) ranks.now }
    requires here { slice_get directory.now place ≡ Some (Item.Class class.now) }
    ensures ok { OnOk result (HasRightNames directory.now (take place directory.now) class.now × HasRightVariables directory.now class.now) }
    ensures err { IfErr result (IsItemRefusal directory.now (take place directory.now) (Item.Class class.now)) }
{
    let outline = directory.outline(place);
    check_names(alloc, directory, ranks, place, class, &outline.mentions)?;
    check_variables(directory, variables, class, &outline.uses)
}

// Codes 13 to 15 of the class at a place, which mentions these names.
fn check_names(
    alloc: Global,
    directory: &Directory,
    ranks: &Table,
    place: usize,
    class: &Class,
    names: &[Sym],
) -> Result<(), ScopeRefusal>
    requires ranks { AreRanks (mentioned directory.now) ranks.now }
    requires here { slice_get directory.now place ≡ Some (Item.Class class.now) }
    requires named { names.now ≡ mentions class.now }
    ensures ok { OnOk result (HasRightNames directory.now (take place directory.now) class.now) }
    ensures err { IfErr result (IsItemRefusal directory.now (take place directory.now) (Item.Class class.now)) }
{
    if let Some(name) = first_unknown(directory, names) {
        return Err(ScopeRefusal::UnknownClass(name));
    }
    if !directory.is_first(class.name, place) {
        return Err(ScopeRefusal::DuplicateClass(class.name));
    }
    match cycle_of(alloc, directory, ranks, class.name)? {
        Some(way) => Err(ScopeRefusal::ClassCycle(way)),
        None => Ok(()),
    }
}

// Codes 16 and 17 of a class with these uses.
fn check_variables(
    directory: &Directory,
    variables: &mut Variables,
    class: &Class,
    uses: &[Use],
) -> Result<(), ScopeRefusal>
    requires { uses.now ≡ uses_of class.now }
    ensures ok { OnOk result (HasRightVariables directory.now class.now) }
    ensures err { IfErr result (λ e. (done : List Item) → HasRightNames directory.now done class.now → IsItemRefusal directory.now done (Item.Class class.now) e) }
{
    variables.read(directory, class, uses)?;
    if let Some(name) = variables.first_wrong_use(uses) {
        let variable = Ref { of: None, name };
        return Err(ScopeRefusal::UndeclaredVariable(class.name, variable));
    }
    if let Some(name) = variables.first_wrong_export(class.exports.as_slice()) {
        let variable = Ref { of: None, name };
        return Err(ScopeRefusal::NotExported(class.name, variable));
    }
    if let Some((variable, name)) = variables.first_wrong_dot(directory, uses) {
        let dot = Ref {
            of: Some(variable),
            name,
        };
        return Err(ScopeRefusal::NotExported(class.name, dot));
    }
    Ok(())
}

// The first of the names that no class has.
fn first_unknown(directory: &Directory, names: &[Sym]) -> Option<Sym>
    ensures { MatchOption result (Each (IsThere directory.now) names.now) (IsFirstWithout (IsThere directory.now) names.now) }
{
    for name in names {
        if !directory.has(*name) {
            return Some(*name);
        }
    }
    None
}
