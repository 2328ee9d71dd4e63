//! Lists of cells that grow without taking memory.

ghost use Rattle.std.specs.Prelude.{◌≡◌, [], IsTrue, IfOk};
ghost use Rattle.std.specs.List.{list_all};
ghost use Rattle.namespace_id.specs.Cells.{is_width, is_in_square, is_before, AreCells, with_cell};

use crate::{Cell, Cells, NoMemory};
use std::alloc::Global;
use std::marker::Model;

/// A list of cells with capacity for every cell of its square: cells of the extended square of
/// width `k`, strictly ascending in row-major order, in memory that was taken for 4k² of them.
/// Contracts see its width and its list.
#[derive(Debug, Drop)]
pub struct CellRoom {
    k: u16,
    list: Vec<Cell>,
}

impl Model for CellRoom {
    ghost use Rattle.namespace_id.specs.Cells.{CellList};

    ghost Value = { CellList };

    ghost use Rattle.namespace_id.specs.Cells.{IsCellRoom};

    ghost view = { λ r. record { k = r.k; list = r.list.items } };

    ghost invariant = { λ r. IsCellRoom r.k r.list };
}

impl CellRoom {
    /// An empty list for the square of width `k`. It takes all memory at once, that of 4k² cells,
    /// and refuses only where there is none; no other call of a room takes memory.
    pub fn new(alloc: Global, k: u16) -> Result<CellRoom, NoMemory>
        requires width { IsTrue (is_width k) }
        ensures k { IfOk result (λ room. room.k ≡ k) }
        ensures list { IfOk result (λ room. room.list ≡ []) }
    {
        let in_row = 2 * k as usize;
        let list = Vec::with_capacity(alloc, in_row * in_row)?;
        Ok(CellRoom { k, list })
    }

    /// The cells of the list.
    pub fn cells(&self) -> &[Cell]
        ensures list { result.now ≡ self.now.list }
        ensures cells { AreCells self.now }
    {
        &self.list
    }

    /// The list as `Cells`, which keep its memory.
    pub fn into_cells(self) -> Cells
        ensures value { result ≡ self }
    {
        Cells {
            k: self.k,
            list: self.list,
        }
    }

    /// Empties the list. Its capacity stays.
    pub fn clear(&mut self)
        ensures k { self.new.k ≡ self.old.k }
        ensures list { self.new.list ≡ [] }
    {
        self.list.clear();
    }

    /// Adds a cell of the square that comes after every cell of the list. There is capacity for it.
    pub fn add(&mut self, cell: Cell)
        requires cell { IsTrue (is_in_square self.old.k cell) }
        requires after { IsTrue (list_all (λ other. is_before other cell) self.old.list) }
        ensures value { self.new ≡ with_cell self.old cell }
    {
        self.list.push(cell).unwrap();
    }
}
