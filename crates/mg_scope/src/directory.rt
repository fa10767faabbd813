//! The classes of a metagrammar by their names, with what each mentions and uses.
ghost use Rattle.std.specs.Prelude.{◌≡◌, ◌<◌, List, [], ◌∷◌, ◌++◌, length, map, IfOk, OnOk, MatchOption, IsTrue, ◌↔◌, slice_get, None, Some, IfSome, IsSome, take};
ghost use Rattle.mg_syntax.specs.declared.item.Class.{Class};
ghost use Rattle.mg_syntax.specs.declared.item.Item.{Item};
ghost use Rattle.mg_scope.specs.Classes.{class_of, uses_of, mentions, mentioned, exports_of, called_class, called_classes};
ghost use Rattle.gr_base.specs.Lists.{IsAmong};
ghost use Rattle.mg_scope.specs.Names.{AreNumbers};
ghost use Rattle.mg_scope.specs.Directories.{outline_of, outlined, exported, IsOutline, AreOutlines, IsPlace, ArePlaces, PutsFirst};
ghost use Rattle.mg_scope.specs.Faults.{IsThere, StandsIn};

use crate::names::Names;
use crate::places::{first_class, first_places};
use crate::table::Table;
use crate::uses::{Use, push_body};
use gr_base::Memory;
use gr_terms::Sym;
use mg_syntax::{Class, Item};
use std::alloc::Global;
use std::marker::Model;

/// What a class mentions, the uses in its body, and the names that it exports; nothing of an item
/// that is no class.
#[derive(Drop)]
pub struct Outline {
    pub mentions: Vec<Sym>,
    pub uses: Vec<Use>,
    pub exports: Names,
}

/// The items of a metagrammar, with the first class of each name. Contracts see the items.
#[derive(Drop)]
pub struct Directory<'a> {
    items: &'a [Item],
    outlines: Vec<Outline>,
    places: Table,
}

impl<'a> Model for Directory<'a> {
    ghost use Rattle.std.specs.Prelude.{List};
    ghost use Rattle.mg_syntax.specs.declared.item.Item.{Item};
    ghost use Rattle.mg_scope.specs.Directories.{AreClasses};
    ghost use Rattle.std.specs.Coded.{codes};
    ghost use Rattle.mg_syntax.specs.contracts.body.Statement as statement;
    ghost use Rattle.mg_syntax.specs.contracts.block.NodeBlock as block;
    ghost use Rattle.mg_syntax.specs.contracts.block.Kid as kid;

    ghost Value = { List Item };

    ghost coded = { Prim.hlevel (codes, statement.the_row.coded, block.the_row.coded, kid.the_row.coded) };

    ghost view = { λ d. d.items.now };

    ghost invariant = { λ d. AreClasses d.items.now d.outlines.items d.places };
}

// Appends the classes that are called.
fn push_called(uses: &[Use], classes: &mut Vec<Sym>) -> Result<(), Memory>
    ensures { OnOk result (classes.new.items ≡ classes.old.items ++ called_classes uses.now) }
{
    for place in uses {
        push_class(*place, classes)?;
    }
    Ok(())
}

fn push_class(place: Use, classes: &mut Vec<Sym>) -> Result<(), Memory>
    ensures { OnOk result (classes.new.items ≡ classes.old.items ++ called_class place) }
{
    match place {
        Use::Called(class) => classes.push(class)?,
        Use::Bound(_, class) => classes.push(class)?,
        Use::Alone(_) => {}
        Use::Dotted(_, _) => {}
    }
    Ok(())
}

fn outline_class(alloc: Global, class: &Class) -> Result<Outline, Memory>
    ensures { IfOk result (λ o. (outlined o ≡ (mentions class.now, uses_of class.now)) × AreNumbers o.exports class.now.exports) }
{
    let mut uses = Vec::new(alloc);
    push_body(&class.body, &mut uses)?;
    let mut mentions = Vec::from_slice(alloc, class.imports.as_slice())?;
    push_called(&uses, &mut mentions)?;
    let exports = Names::of(alloc, class.exports.as_slice())?;
    Ok(Outline {
        mentions,
        uses,
        exports,
    })
}

fn outline_item(alloc: Global, item: &Item) -> Result<Outline, Memory>
    ensures { IfOk result (IsOutline item.now) }
{
    match item {
        Item::Class(class) => outline_class(alloc, class),
        Item::Value(_) => Ok(no_outline(alloc)),
        Item::Header(_) => Ok(no_outline(alloc)),
    }
}

fn no_outline(alloc: Global) -> Outline
    ensures { (outlined result ≡ ([], [])) × AreNumbers result.exports [] }
{
    Outline {
        mentions: Vec::new(alloc),
        uses: Vec::new(alloc),
        exports: Names::none(alloc),
    }
}

fn outline_items(alloc: Global, items: &[Item]) -> Result<Vec<Outline>, Memory>
    ensures { IfOk result (λ os. AreOutlines items.now os.items) }
{
    let mut all = Vec::new(alloc);
    for item in items {
        let outline = outline_item(alloc, item)?;
        all.push(outline)?;
    }
    Ok(all)
}

impl<'a> Directory<'a> {
    /// The directory of these items.
    pub fn new(alloc: Global, items: &'a [Item]) -> Result<Directory<'a>, Memory>
        ensures { IfOk result (λ d. d ≡ items.now) }
    {
        let outlines = outline_items(alloc, items)?;
        let places = first_places(alloc, items)?;
        Ok(Directory {
            items,
            outlines,
            places,
        })
    }

    /// The items.
    pub fn items(&self) -> &'a [Item]
        ensures { result.now ≡ self.now }
    {
        self.items
    }

    /// The number of items and of the names that they mention.
    pub fn size(&self) -> usize {
        let mut size = self.items.len();
        for outline in &self.outlines {
            size = size.saturating_add(outline.mentions.len());
        }
        size
    }

    /// The place of the first class of a name.
    pub fn place(&self, name: Sym) -> Option<usize>
        ensures { IsPlace self.now name result }
    {
        self.places.get(name)
    }

    /// Whether no class before the place has the name, which the class at the place has.
    pub fn is_first(&self, name: Sym, place: usize) -> bool
        ensures first { (k : Class) → slice_get self.now place ≡ Some (Item.Class k) → k.name ≡ name → IsTrue result → StandsIn (take place self.now) name → ⊥ }
        ensures later { (k : Class) → slice_get self.now place ≡ Some (Item.Class k) → k.name ≡ name → (IsTrue result → ⊥) → StandsIn (take place self.now) name }
    {
        match self.place(name) {
            Some(first) => first == place,
            None => false,
        }
    }

    /// Whether a class has the name.
    pub fn has(&self, name: Sym) -> bool
        ensures { IsTrue result ↔ IsThere self.now name }
    {
        match self.place(name) {
            Some(_) => true,
            None => false,
        }
    }

    /// The first class of a name.
    pub fn class(&self, name: Sym) -> Option<&'a Class>
        ensures { MatchOption result (class_of self.now name ≡ None) (λ k. class_of self.now name ≡ Some k.now) }
    {
        first_class(self.items, &self.places, name)
    }

    /// The places of the first classes, which alone are kept.
    pub fn into_places(self) -> Table
        ensures { ArePlaces self.entry result }
    {
        self.places
    }

    /// What the item at a place mentions, the uses in it, and what it exports.
    pub fn outline(&self, place: usize) -> &Outline
        requires { place < length self.now }
        ensures outline { slice_get (map outline_of self.now) place ≡ Some (outlined result.now) }
        ensures exports { (i : Item) → slice_get self.now place ≡ Some i → AreNumbers result.now.exports (exported i) }
    {
        &self.outlines[place]
    }

    /// What the first class of a name mentions; nothing where there is none.
    pub fn mentioned(&self, name: Sym) -> &[Sym]
        ensures { result.now ≡ mentioned self.now name }
    {
        match self.place(name) {
            Some(place) => &self.outline(place).mentions,
            None => &[],
        }
    }

    /// Whether the first class of a name exports another name.
    pub fn does_export(&self, class: Sym, name: Sym) -> bool
        ensures { IsTrue result ↔ IsAmong (exports_of self.now class) name }
    {
        match self.place(class) {
            Some(place) => self.outline(place).exports.has(name),
            None => false,
        }
    }

    /// What the first class of a name exports; nothing where there is none.
    pub fn exports(&self, name: Sym) -> &[Sym]
        ensures { result.now ≡ exports_of self.now name }
    {
        match self.class(name) {
            Some(class) => class.exports.as_slice(),
            None => &[],
        }
    }
}
