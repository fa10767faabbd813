//! The places of the first classes of all names.
ghost use Rattle.std.specs.Prelude.{◌≡◌, List, [], ◌∷◌, ◌++◌, length, IfOk, OnOk, MatchOption, None, Some, IfSome, IsSome};
ghost use Rattle.mg_syntax.specs.declared.item.Class.{Class};
ghost use Rattle.mg_syntax.specs.declared.item.Item.{Item};
ghost use Rattle.mg_scope.specs.Classes.{class_of};
ghost use Rattle.mg_scope.specs.Directories.{ArePlaces, PutsFirst};

use crate::table::Table;
use gr_base::Memory;
use gr_terms::Sym;
use mg_syntax::{Class, Item};
use std::alloc::Global;

/// The first class of a name, by the table of places.
pub fn first_class<'a>(items: &'a [Item], places: &Table, name: Sym) -> Option<&'a Class>
    requires { ArePlaces items.now places.now }
    ensures { MatchOption result (class_of items.now name ≡ None) (λ k. class_of items.now name ≡ Some k.now) }
{
    match places.get(name) {
        Some(place) => class_in(&items[place]),
        None => None,
    }
}

fn class_in(item: &Item) -> Option<&Class>
    ensures { (k : Class) → item.now ≡ Item.Class k → IfSome result (λ r. r.now ≡ k) × IsSome result }
{
    match item {
        Item::Class(class) => Some(class),
        Item::Value(_) => None,
        Item::Header(_) => None,
    }
}

/// The place of the first class of each name.
pub fn first_places(alloc: Global, items: &[Item]) -> Result<Table, Memory>
    ensures { IfOk result (λ t. ArePlaces items.now t) }
{
    let mut places = Table::new(alloc);
    for place in 0..items.len() {
        note(&mut places, &items[place], place)?;
    }
    Ok(places)
}

// Puts the place of an item at the name of the class, where it is the first one.
fn note(places: &mut Table, item: &Item, place: usize) -> Result<(), Memory>
    ensures { OnOk result ((before : List Item) → length before ≡ place → ArePlaces before places.old → ArePlaces (before ++ item.now ∷ []) places.new) }
{
    match item {
        Item::Class(class) => {
            note_name(places, class.name, place)?;
            Ok(())
        }
        Item::Value(_) => Ok(()),
        Item::Header(_) => Ok(()),
    }
}

// Puts the place at the name, where none stands there.
fn note_name(places: &mut Table, name: Sym, place: usize) -> Result<(), Memory>
    ensures { OnOk result (PutsFirst places.old places.new name place) }
{
    match places.get(name) {
        Some(_) => Ok(()),
        None => places.set(name, place),
    }
}
