//! What a session keeps of a square.

ghost use Rattle.std.specs.Prelude.{◌≡◌, ◌+◌, ◌*◌, ◌<◌, ◌≤◌, ℕ, IsTrue, IsNone, IsSome, IfOk, IfSome, MatchOption, true, false, length, is_some, ◌||◌};
ghost use Rattle.namespace_id.specs.declared.cells.Cell.{Cell as Place};
ghost use Rattle.namespace_id.specs.declared.cells.Axis.{Axis as Along};
ghost use Rattle.namespace_id.specs.declared.cells.Axis.TheVariants.{Row, Col};
ghost use Rattle.namespace_id.specs.Cells.{is_width, is_in_square};
ghost use Rattle.data_header.specs.Headers.{Roots};
ghost use Rattle.axis_roots.specs.Messages.{index as index_of};
ghost use Rattle.repair_queue.specs.Pools.{slot_in};
ghost use Rattle.repair_queue.specs.Boards.{mark_of, is_lined, is_found, given_of, decided_of, shared_of, share_of_first, found_share, AreParts, IsGood};

use crate::counts::Counts;
use crate::marks::Marks;
use crate::pools::{Pool, held_in};
use axis_roots::Grid;
use namespace_id::{Axis, BLANK_DIGEST, Cell, Digest, NoMemory, SHARE_SIZE, Share};
use std::alloc::Global;

/// What is known of the cells of a square: the samples that were given of cells on no decided row
/// or column, the shares of the cells on decided ones with the digests of the leaves over them, and
/// how many cells of each row and column are known.
#[derive(Drop)]
pub(crate) struct Board {
    pub(crate) pool: Pool,
    pub(crate) marks: Marks,
    pub(crate) counts: Counts,
    pub(crate) grid: Grid,
    pub(crate) leaves: Vec<Digest>,
}

impl Board {
    /// A board of a square of width `k`, of which nothing is known, with capacity for so many places of
    /// samples, the first of which stays empty.
    pub(crate) fn new(alloc: Global, k: u16, places: usize) -> Result<Board, NoMemory>
        requires width { IsTrue (is_width k) }
        ensures good { IfOk result (λ b. (header : Roots) → header.k ≡ k → IsGood header b) }
        ensures empty { IfOk result
            (λ b. (axis : Along) (cell : Place) → given_of b axis cell ≡ None) }
        ensures undecided { IfOk result
            (λ b. (axis : Along) (i : ℕ) → decided_of b axis i ≡ false) }
        ensures capacity { IfOk result (λ b. places ≤ b.pool.capacity) }
    {
        let pool = Pool::new(alloc, k, places)?;
        let marks = Marks::new(alloc, k)?;
        let counts = Counts::new(alloc, k)?;
        let side = 2 * k as usize;
        let grid = Grid::of(k, vec![in alloc; Share([0; SHARE_SIZE]); side * side]?);
        let leaves = vec![in alloc; BLANK_DIGEST; side * side]?;
        Ok(Board {
            pool,
            marks,
            counts,
            grid,
            leaves,
        })
    }
}

/// The row of a cell where it is decided, else its column where that is.
pub(crate) fn decided_through(marks: &Marks, cell: Cell) -> Option<Axis>
    requires cell { is_in_square marks.now.k cell ≡ true }
    ensures some { IfSome result (λ axis. (mark_of marks.now axis (index_of axis cell) ≡ true)
        × (is_lined (mark_of marks.now) cell ≡ true)) }
    ensures none { IsNone result → is_lined (mark_of marks.now) cell ≡ false }
{
    if marks.is_set(Axis::Row, cell.row) {
        return Some(Axis::Row);
    }
    if marks.is_set(Axis::Col, cell.col) {
        return Some(Axis::Col);
    }
    None
}

/// Whether the row or the column of a cell is decided.
pub(crate) fn is_on_decided(marks: &Marks, cell: Cell) -> bool
    requires cell { is_in_square marks.now.k cell ≡ true }
    ensures { result ≡ is_lined (mark_of marks.now) cell }
{
    marks.is_set(Axis::Row, cell.row) || marks.is_set(Axis::Col, cell.col)
}

/// The share that a sample shows which is kept of a cell: that along its row, else that along its
/// column.
fn shown_share(pool: &Pool, cell: Cell) -> Option<&Share>
    requires cell { is_in_square pool.now.places.k cell ≡ true }
    ensures { MatchOption result
        ((is_some (slot_in pool.now Row cell) || is_some (slot_in pool.now Col cell)) ≡ false)
        (λ share.
        ((is_some (slot_in pool.now Row cell) || is_some (slot_in pool.now Col cell)) ≡ true)
        × (share.now ≡ share_of_first (slot_in pool.now Row cell) (slot_in pool.now Col cell))) }
{
    if let Some(kept) = held_in(pool, Axis::Row, cell) {
        return Some(&kept.message().share);
    }
    match held_in(pool, Axis::Col, cell) {
        Some(kept) => Some(&kept.message().share),
        None => None,
    }
}

/// A share that is known of a cell: that of its decided row or column, else that which a sample
/// shows.
pub(crate) fn known_share(board: &Board, cell: Cell) -> Option<&Share>
    requires parts { AreParts board.now }
    requires cell { is_in_square board.now.grid.k cell ≡ true }
    ensures { MatchOption result
        (is_found (given_of board.now) (decided_of board.now) cell ≡ false)
        (λ share. (is_found (given_of board.now) (decided_of board.now) cell ≡ true) × (share.now
        ≡ found_share (given_of board.now) (decided_of board.now) (shared_of board.now) cell)) }
{
    if is_on_decided(&board.marks, cell) {
        return Some(board.grid.cell(cell));
    }
    shown_share(&board.pool, cell)
}

/// Whether a cell is known, by the samples that are kept and the rows and columns that are
/// decided.
pub(crate) fn is_found(pool: &Pool, marks: &Marks, cell: Cell) -> bool
    requires width { marks.now.k ≡ pool.now.places.k }
    requires cell { is_in_square pool.now.places.k cell ≡ true }
    ensures { result ≡ is_found (slot_in pool.now) (mark_of marks.now) cell }
{
    is_on_decided(marks, cell)
        || held_in(pool, Axis::Row, cell).is_some()
        || held_in(pool, Axis::Col, cell).is_some()
}

/// Whether a cell is known.
pub(crate) fn is_known(board: &Board, cell: Cell) -> bool
    requires parts { AreParts board.now }
    requires cell { is_in_square board.now.grid.k cell ≡ true }
    ensures { result ≡ is_found (given_of board.now) (decided_of board.now) cell }
{
    is_found(&board.pool, &board.marks, cell)
}
