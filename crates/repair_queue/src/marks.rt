//! Which rows and columns are decided.

ghost use Rattle.std.specs.Prelude.{◌≡◌, ◌*◌, length, true};
ghost use Rattle.namespace_id.specs.Cells.{is_width};

use namespace_id::{Axis, NoMemory};
use std::alloc::Global;

/// For each row and column of a square whether it is decided.
#[derive(Drop)]
pub(crate) struct Marks {
    pub(crate) k: u16,
    pub(crate) rows: Vec<bool>,
    pub(crate) cols: Vec<bool>,
    ghost wide: { is_width k ≡ true },
    ghost row_count: { length rows.items ≡ 2 * k },
    ghost col_count: { length cols.items ≡ 2 * k },
}

impl Marks {
    ghost use Rattle.std.specs.Prelude.{ℕ, ◌<◌, IsTrue, IfOk, false};
    ghost use Rattle.namespace_id.specs.declared.cells.Axis.{Axis as Along};
    ghost use Rattle.repair_queue.specs.Slots.{IsFlagged};
    ghost use Rattle.repair_queue.specs.Boards.{mark_of};

    /// Marks of a square of width `k`, of which no row and no column is decided.
    pub(crate) fn new(alloc: Global, k: u16) -> Result<Marks, NoMemory>
        requires width { IsTrue (is_width k) }
        ensures width { IfOk result (λ m. m.k ≡ k) }
        ensures undecided { IfOk result (λ m. (axis : Along) (i : ℕ) → mark_of m axis i ≡ false) }
    {
        let side = 2 * k as usize;
        let rows = vec![in alloc; false; side]?;
        let cols = vec![in alloc; false; side]?;
        Ok(Marks { k, rows, cols })
    }

    /// Marks a row or a column as decided.
    pub(crate) fn set(&mut self, axis: Axis, index: u16)
        requires index { index < 2 * self.old.k }
        ensures width { self.new.k ≡ self.old.k }
        ensures flagged { IsFlagged (mark_of self.old) (mark_of self.new) axis index }
    {
        match axis {
            Axis::Row => self.rows[index as usize] = true,
            Axis::Col => self.cols[index as usize] = true,
        }
    }

    /// Whether a row or a column is decided.
    pub(crate) fn is_set(&self, axis: Axis, index: u16) -> bool
        requires index { index < 2 * self.now.k }
        ensures { result ≡ mark_of self.now axis index }
    {
        match axis {
            Axis::Row => self.rows[index as usize],
            Axis::Col => self.cols[index as usize],
        }
    }
}
