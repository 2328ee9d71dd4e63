//! Numbers of cells, and the places of their samples.

ghost use Rattle.std.specs.Prelude.{◌≡◌, ◌+◌, ◌*◌, ◌<◌, IsTrue, IfOk, true};
ghost use Rattle.namespace_id.specs.declared.cells.Cell.{Cell as Place};
ghost use Rattle.namespace_id.specs.declared.cells.Axis.{Axis as Along};
ghost use Rattle.namespace_id.specs.Cells.{is_width, is_in_square};
ghost use Rattle.repair_queue.specs.Places.{cell_place, IsPlaced};

use namespace_id::{Axis, Cell, NoMemory};
use std::alloc::Global;
use std::marker::Model;

/// The number of a cell, row by row.
pub(crate) fn number(k: u16, cell: Cell) -> usize
    requires width { IsTrue (is_width k) }
    requires cell { is_in_square k cell ≡ true }
    ensures value { result ≡ cell.row * (2 * k) + cell.col }
    ensures below { result < 2 * k * (2 * k) }
{
    cell.row as usize * (2 * k as usize) + cell.col as usize
}

/// For each cell of a square, row-major, a place along its row and one along its column.
#[derive(Drop)]
pub(crate) struct Places {
    k: u16,
    rows: Vec<usize>,
    cols: Vec<usize>,
}

impl Model for Places {
    ghost use Rattle.repair_queue.specs.Places.{PlaceParts, ArePlaces};

    ghost Value = { PlaceParts };

    ghost view = { λ p. record { k = p.k; rows = p.rows.items; cols = p.cols.items } };

    ghost invariant = { λ p. ArePlaces (record { k = p.k; rows = p.rows.items; cols = p.cols.items }) };
}

impl Places {
    /// Places of the cells of a square of width `k`, all 0.
    pub(crate) fn new(alloc: Global, k: u16) -> Result<Places, NoMemory>
        requires width { IsTrue (is_width k) }
        ensures width { IfOk result (λ p. p.k ≡ k) }
        ensures none { IfOk result
            (λ p. (axis : Along) (cell : Place) → cell_place p axis cell ≡ 0) }
    {
        let side = 2 * k as usize;
        let rows = vec![in alloc; 0; side * side]?;
        let cols = vec![in alloc; 0; side * side]?;
        Ok(Places { k, rows, cols })
    }

    /// The place of a cell along an axis.
    pub(crate) fn at(&self, axis: Axis, cell: Cell) -> usize
        requires cell { is_in_square self.now.k cell ≡ true }
        ensures { result ≡ cell_place self.now axis cell }
    {
        let at = number(self.k, cell);
        match axis {
            Axis::Row => self.rows[at],
            Axis::Col => self.cols[at],
        }
    }

    /// Sets the place of a cell along an axis.
    pub(crate) fn set(&mut self, axis: Axis, cell: Cell, place: usize)
        requires cell { is_in_square self.old.k cell ≡ true }
        ensures width { self.new.k ≡ self.old.k }
        ensures placed { IsPlaced (cell_place self.old) (cell_place self.new) axis cell place }
    {
        let at = number(self.k, cell);
        match axis {
            Axis::Row => self.rows[at] = place,
            Axis::Col => self.cols[at] = place,
        }
    }
}
