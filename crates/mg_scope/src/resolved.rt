//! Metagrammars whose names fit together.
ghost use Rattle.std.specs.Prelude.{◌≡◌, List, [], ◌∷◌, ◌++◌, IfOk, IfErr, OnOk, MatchOption, None, Some, slice_get};
ghost use Rattle.gr_terms.specs.declared.Sym.{Sym};
ghost use Rattle.mg_syntax.specs.declared.item.Class.{Class};
ghost use Rattle.mg_syntax.specs.declared.item.Item.{Item};
ghost use Rattle.mg_scope.specs.Classes.{class_of, valuation, valued_classes};
ghost use Rattle.mg_scope.specs.Orders.{AreFirsts};
ghost use Rattle.mg_scope.specs.Faults.{IsScoped, IsFirstFault};

use crate::check::check;
use crate::places::first_class;
use crate::refusal::ScopeRefusal;
use crate::table::Table;
use gr_base::Memory;
use gr_terms::Sym;
use mg_syntax::{Class, Item, Metagrammar};
use std::alloc::Global;
use std::marker::Model;

/// A metagrammar that keeps all rules of scope, which contracts see as the list of its items.
#[derive(Drop)]
pub struct Resolved {
    metagrammar: Metagrammar,
    valued: Vec<Sym>,
    places: Table,
}

impl Model for Resolved {
    ghost use Rattle.std.specs.Prelude.{◌≡◌, List};
    ghost use Rattle.std.specs.Coded.{codes};
    ghost use Rattle.mg_syntax.specs.declared.item.Item.{Item};
    ghost use Rattle.mg_syntax.specs.contracts.body.Statement as statement;
    ghost use Rattle.mg_syntax.specs.contracts.block.NodeBlock as block;
    ghost use Rattle.mg_syntax.specs.contracts.block.Kid as kid;
    ghost use Rattle.mg_scope.specs.Classes.{valued_classes};
    ghost use Rattle.mg_scope.specs.Directories.{ArePlaces};
    ghost use Rattle.mg_scope.specs.Faults.{IsScoped};

    ghost Value = { List Item };

    ghost coded = { Prim.hlevel (codes, statement.the_row.coded, block.the_row.coded, kid.the_row.coded) };

    ghost view = { λ r. r.metagrammar };

    ghost invariant = { λ r. IsScoped r.metagrammar × (r.valued.items ≡ valued_classes r.metagrammar) × ArePlaces r.metagrammar r.places };
}

impl Resolved {
    /// The valued classes, each once, in the order of their first valuations. Takes no memory.
    pub fn valued(&self) -> &[Sym]
        ensures valued { result.now ≡ valued_classes self.now }
        ensures scoped { IsScoped self.now }
    {
        self.valued.as_slice()
    }

    /// The metagrammar. Takes no memory.
    pub fn metagrammar(&self) -> &Metagrammar
        ensures metagrammar { result.now ≡ self.now }
        ensures scoped { IsScoped self.now }
    {
        &self.metagrammar
    }

    /// The first class of a name; `None` where no class has it. It is looked up in a table by the
    /// number of the name. Takes no memory.
    pub fn class(&self, name: Sym) -> Option<&Class>
        ensures class { MatchOption result (class_of self.now name ≡ None) (λ k. class_of self.now name ≡ Some k.now) }
        ensures scoped { IsScoped self.now }
    {
        first_class(self.metagrammar.as_slice(), &self.places, name)
    }

    /// The place among the items of the first class of a name; `None` where no class has it. Takes
    /// no memory.
    pub fn place(&self, name: Sym) -> Option<usize>
        ensures place { MatchOption result (class_of self.now name ≡ None) (λ i. (k : Class) × (class_of self.now name ≡ Some k) × (slice_get self.now i ≡ Some (Item.Class k))) }
        ensures scoped { IsScoped self.now }
    {
        self.places.get(name)
    }
}

/// Tests the names of a metagrammar. The refusal is the first one: that of the first item that has
/// one, of the lowest code, and of the first place in the spelling of the item.
pub fn resolve(alloc: Global, m: Metagrammar) -> Result<Resolved, ScopeRefusal>
    ensures ok { IfOk result (λ r. (r ≡ m) × IsScoped m) }
    ensures err { IfErr result (λ e. (e ≡ ScopeRefusal.Memory → ⊥) → IsFirstFault m e) }
{
    let places = check(alloc, m.as_slice())?;
    let valued = valuations(alloc, m.as_slice())?;
    Ok(Resolved {
        metagrammar: m,
        valued,
        places,
    })
}

// The valued names, each once, by first valuation.
fn valuations(alloc: Global, items: &[Item]) -> Result<Vec<Sym>, Memory>
    ensures { IfOk result (λ v. v.items ≡ valued_classes items.now) }
{
    let mut met = Table::new(alloc);
    let mut names = Vec::new(alloc);
    for item in items {
        note_item(&mut met, &mut names, item)?;
    }
    Ok(names)
}

// Appends what the item values, where it is new.
fn note_item(met: &mut Table, names: &mut Vec<Sym>, item: &Item) -> Result<(), Memory>
    ensures { OnOk result ((seen : List Sym) → AreFirsts met.old names.old.items seen → AreFirsts met.new names.new.items (seen ++ valuation item.now)) }
{
    match item {
        Item::Value(name) => {
            note_name(met, names, *name)?;
            Ok(())
        }
        Item::Class(_) => Ok(()),
        Item::Header(_) => Ok(()),
    }
}

fn note_name(met: &mut Table, names: &mut Vec<Sym>, name: Sym) -> Result<(), Memory>
    ensures { OnOk result ((seen : List Sym) → AreFirsts met.old names.old.items seen → AreFirsts met.new names.new.items (seen ++ name ∷ [])) }
{
    match met.get(name) {
        Some(_) => Ok(()),
        None => {
            names.push(name)?;
            met.set(name, 0)?;
            Ok(())
        }
    }
}
