//! Tables by names, which forget all that stands in them in one step.
ghost use Rattle.std.specs.Prelude.{◌≡◌, ◌<◌, ℕ, length, get_or, OnOk, OnErr};
ghost use Rattle.mg_scope.specs.Tables.{no_cell, value_at, IsBlank, Puts, AreSame};

use gr_base::Memory;
use gr_terms::Sym;
use std::alloc::Global;
use std::marker::Model;

/// What stands at a name, and the round in which it was put there.
#[derive(Clone, Copy, Debug, PartialEq, Eq)]
pub struct Cell {
    pub round: u32,
    pub value: usize,
}

/// The cell of a name at which nothing was put.
const NO_CELL: Cell = Cell { round: 0, value: 0 };

/// A number at each of some names. The cells stand by the numbers of the names, so there are as
/// many as the greatest one that was put.
#[derive(Drop)]
pub struct Table {
    round: u32,
    cells: Vec<Cell>,
}

impl Model for Table {
    ghost use Rattle.mg_scope.specs.Tables.{Cells, IsTable};

    ghost Value = { Cells };

    ghost view = { λ t. (t.round, t.cells.items) };

    ghost invariant = { λ t. IsTable (t.round, t.cells.items) };
}

// Appends cells until there is one at the place.
fn reach(cells: &mut Vec<Cell>, place: usize) -> Result<(), Memory>
    requires { place < 4294967296 }
    ensures within { OnOk result (place < length cells.new.items) }
    ensures same { (k : ℕ) → get_or cells.new.items k no_cell ≡ get_or cells.old.items k no_cell }
{
    if place >= cells.len() {
        cells.resize(place + 1, NO_CELL)?;
    }
    Ok(())
}

impl Table {
    /// A table with nothing in it, which takes no memory.
    pub fn new(alloc: Global) -> Table
        ensures { IsBlank result }
    {
        Table {
            round: 1,
            cells: Vec::new(alloc),
        }
    }

    /// What stands at a name.
    pub fn get(&self, name: Sym) -> Option<usize>
        ensures { result ≡ value_at self.now name }
    {
        let place = name.0 as usize;
        if place >= self.cells.len() {
            return None;
        }
        let cell = self.cells[place];
        if cell.round == self.round {
            Some(cell.value)
        } else {
            None
        }
    }

    /// Puts a number at a name, in place of what stands there. Without memory all stays as it was.
    pub fn set(&mut self, name: Sym, value: usize) -> Result<(), Memory>
        ensures ok { OnOk result (Puts self.old self.new name value) }
        ensures err { OnErr result (AreSame self.old self.new) }
    {
        let place = name.0 as usize;
        reach(&mut self.cells, place)?;
        self.cells[place] = Cell {
            round: self.round,
            value,
        };
        Ok(())
    }

    /// Forgets all that stands in the table.
    pub fn clear(&mut self)
        ensures { IsBlank self.new }
    {
        if self.round == u32::MAX {
            self.cells.clear();
            self.round = 1;
        } else {
            self.round += 1;
        }
    }
}
