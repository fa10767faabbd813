//! Which classes mention a name.
ghost use Rattle.std.specs.Prelude.{◌≡◌, ◌<◌, ◌+◌, IfOk, OnOk, None, Some, length, take, slice_get};
ghost use Rattle.mg_syntax.specs.declared.item.Class.{Class};
ghost use Rattle.mg_scope.specs.Classes.{mentioned};
ghost use Rattle.mg_scope.specs.Tables.{value_at};
ghost use Rattle.mg_scope.specs.Orders.{callers_of, AddsCaller, AddsToEach, AreCallersIn, AreCallers};

use crate::directory::Directory;
use crate::table::Table;
use gr_base::Memory;
use gr_terms::Sym;
use mg_syntax::Item;
use std::alloc::Global;
use std::marker::Model;

/// For each name the classes that mention it.
#[derive(Drop)]
pub struct Callers {
    numbers: Table,
    rows: Vec<Vec<Sym>>,
}

impl Model for Callers {
    ghost use Rattle.std.specs.Prelude.{map};
    ghost use Rattle.mg_scope.specs.Orders.{Rows, AreRows};

    ghost Value = { Rows };

    ghost view = { λ c. (c.numbers, map (λ row. row.items) c.rows.items) };

    ghost invariant = { λ c. AreRows (c.numbers, map (λ row. row.items) c.rows.items) };
}

/// The callers of all names.
pub fn collect_callers(alloc: Global, directory: &Directory) -> Result<Callers, Memory>
    ensures { IfOk result (λ c. AreCallers (mentioned directory.now) c) }
{
    let mut all = Callers {
        numbers: Table::new(alloc),
        rows: Vec::new(alloc),
    };
    for place in 0..directory.items().len() {
        all.add_item(alloc, directory, place)?;
    }
    Ok(all)
}

impl Callers {
    /// The classes that mention a name.
    pub fn of(&self, name: Sym) -> &[Sym]
        ensures { result.now ≡ callers_of self.now name }
    {
        match self.numbers.get(name) {
            Some(number) => &self.rows[number],
            None => &[],
        }
    }

    // Adds the item at a place, where it is a class, to the callers of all that it mentions.
    fn add_item(&mut self, alloc: Global, directory: &Directory, place: usize) -> Result<(), Memory>
        requires { place < length directory.now }
        ensures { OnOk result (AreCallersIn (mentioned directory.now) self.old (take place directory.now) → AreCallersIn (mentioned directory.now) self.new (take (place + 1) directory.now)) }
    {
        match &directory.items()[place] {
            Item::Class(class) => self.add_class(alloc, directory, class.name, place),
            Item::Value(_) => Ok(()),
            Item::Header(_) => Ok(()),
        }
    }

    // The class at the place has the name. A later class of a name adds nothing.
    fn add_class(
        &mut self,
        alloc: Global,
        directory: &Directory,
        name: Sym,
        place: usize,
    ) -> Result<(), Memory>
        requires { (k : Class) × (slice_get directory.now place ≡ Some (Item.Class k)) × (k.name ≡ name) }
        ensures { OnOk result (AreCallersIn (mentioned directory.now) self.old (take place directory.now) → AreCallersIn (mentioned directory.now) self.new (take (place + 1) directory.now)) }
    {
        if !directory.is_first(name, place) {
            return Ok(());
        }
        self.add_to_each(alloc, directory.mentioned(name), name)
    }

    fn add_to_each(&mut self, alloc: Global, names: &[Sym], caller: Sym) -> Result<(), Memory>
        ensures { OnOk result (AddsToEach self.old self.new names.now caller) }
    {
        for name in names {
            self.add(alloc, *name, caller)?;
        }
        Ok(())
    }

    fn add(&mut self, alloc: Global, name: Sym, caller: Sym) -> Result<(), Memory>
        ensures { OnOk result (AddsCaller self.old self.new name caller) }
    {
        match self.numbers.get(name) {
            Some(number) => {
                self.rows[number].push(caller)?;
                Ok(())
            }
            None => self.add_row(alloc, name, caller),
        }
    }

    // Begins the row of a name that has none.
    fn add_row(&mut self, alloc: Global, name: Sym, caller: Sym) -> Result<(), Memory>
        requires { value_at self.old.0 name ≡ None }
        ensures { OnOk result (AddsCaller self.old self.new name caller) }
    {
        let number = self.rows.len();
        let row = vec![in alloc; caller]?;
        self.rows.push(row)?;
        self.numbers.set(name, number)?;
        Ok(())
    }
}
