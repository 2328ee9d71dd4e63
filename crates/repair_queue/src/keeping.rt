//! Keeping the line of a row or a column that was decided.

ghost use Rattle.std.specs.Prelude.{◌≡◌, ◌≢◌, ◌*◌, ◌<◌, List, IsTrue, length, true, false};
ghost use Rattle.namespace_id.specs.declared.cells.Cell.{Cell as Place};
ghost use Rattle.namespace_id.specs.Cells.{is_width, is_in_square};
ghost use Rattle.axis_roots.specs.Messages.{index as index_of};
ghost use Rattle.axis_roots.specs.Grids.{share_at, axis_shares};
ghost use Rattle.axis_roots.specs.Trees.{line_leaves};
ghost use Rattle.befp_maker.specs.Conflicts.{IsLineOf};
ghost use Rattle.repair_queue.specs.Slots.{IsFlagged};
ghost use Rattle.repair_queue.specs.Counts.{count_of, pending};
ghost use Rattle.repair_queue.specs.Pools.{slot_in, KeepsCapacity};
ghost use Rattle.repair_queue.specs.Boards.{given_of, decided_of, shared_of, mark_of, is_lined, AreAlikeLined, AreCounted, IsGood};
ghost use Rattle.repair_queue.specs.Keeping.{IsAlikeAll, IsCountedTo, AreWrittenLeaves, IsClearedAt, IsClearedTo, IsLineKept};

use crate::boards::{Board, is_found, is_on_decided};
use crate::counts::Counts;
use crate::marks::Marks;
use crate::placing::number;
use crate::pools::{Pool, take_out};
use axis_roots::{Grid, cell_on};
use data_header::Header;
use namespace_id::{Axis, Cell, Digest, Share};

/// Counts the unknown cells of a row or a column for those that cross it.
fn count_line(pool: &Pool, marks: &Marks, counts: &mut Counts, axis: Axis, index: u16)
    requires pool_width { pool.now.places.k ≡ counts.old.k }
    requires marks_width { marks.now.k ≡ counts.old.k }
    requires index { index < 2 * counts.old.k }
    requires counted { AreCounted counts.old.k (slot_in pool.now) (mark_of marks.now)
        (count_of counts.old) }
    ensures width { counts.new.k ≡ counts.old.k }
    ensures next { counts.new.next ≡ counts.old.next }
    ensures counted { IsCountedTo counts.old.k (slot_in pool.now) (mark_of marks.now) axis index
        (count_of counts.old) (count_of counts.new) (pending counts.old) (pending counts.new)
        (2 * counts.old.k) }
{
    let cross = axis.crossing();
    for pos in 0..2 * counts.k {
        if !is_found(pool, marks, cell_on(axis, index, pos)) {
            counts.raise(cross, pos);
        }
    }
}

/// Writes the digests of the leaves over a line.
fn write_leaves(k: u16, leaves: &mut Vec<Digest>, axis: Axis, index: u16, digests: &[Digest])
    requires width { IsTrue (is_width k) }
    requires index { index < 2 * k }
    requires leaves { length leaves.old.items ≡ 2 * k * (2 * k) }
    requires digests { length digests.now ≡ 2 * k }
    ensures written { AreWrittenLeaves k leaves.old.items leaves.new.items axis index digests.now (2 * k) }
    ensures count { length leaves.new.items ≡ length leaves.old.items }
{
    for pos in 0..2 * k {
        leaves[number(k, cell_on(axis, index, pos))] = digests[pos as usize];
    }
}

/// Puts a share into a cell, unless its row or its column is decided: then it stands there.
fn put_share(marks: &Marks, grid: &mut Grid, cell: Cell, share: &Share)
    requires width { marks.now.k ≡ grid.old.k }
    requires cell { is_in_square grid.old.k cell ≡ true }
    requires alike { is_lined (mark_of marks.now) cell ≡ true →
        share_at (2 * grid.old.k) grid.old.shares cell ≡ share.now }
    ensures k { grid.new.k ≡ grid.old.k }
    ensures cell { share_at (2 * grid.old.k) grid.new.shares cell ≡ share.now }
    ensures others { (other : Place) → IsTrue (is_in_square grid.old.k other) → other ≢ cell →
        share_at (2 * grid.old.k) grid.new.shares other
        ≡ share_at (2 * grid.old.k) grid.old.shares other }
{
    if !is_on_decided(marks, cell) {
        grid.set(cell, share);
    }
}

/// Puts the shares of a line into its cells. None is written twice: those of cells on decided rows and
/// columns stand there.
fn write_line(marks: &Marks, grid: &mut Grid, axis: Axis, index: u16, line: &[Share])
    requires width { marks.now.k ≡ grid.old.k }
    requires index { index < 2 * grid.old.k }
    requires line { length line.now ≡ 2 * grid.old.k }
    requires alike { AreAlikeLined grid.old.k (mark_of marks.now)
        (share_at (2 * grid.old.k) grid.old.shares) axis index line.now }
    ensures k { grid.new.k ≡ grid.old.k }
    ensures line { axis_shares grid.old.k grid.new.shares axis index ≡ line.now }

    // Every cell of another axis is as it was.
    ensures others { (cell : Place) → IsTrue (is_in_square grid.old.k cell) →
        index_of axis cell ≢ index →
        share_at (2 * grid.old.k) grid.new.shares cell
        ≡ share_at (2 * grid.old.k) grid.old.shares cell }
{
    for pos in 0..2 * grid.width() {
        put_share(marks, grid, cell_on(axis, index, pos), &line[pos as usize]);
    }
}

/// Takes the samples of a cell out.
#[tactic(auto, using(crate::proofs::Lines::ClearLemmas::both_emptied))]
fn clear_cell(pool: &mut Pool, cell: Cell)
    requires cell { is_in_square pool.old.places.k cell ≡ true }
    ensures width { pool.new.places.k ≡ pool.old.places.k }
    ensures cleared { IsClearedAt (slot_in pool.old) (slot_in pool.new) cell }
    ensures capacity { KeepsCapacity pool.old pool.new }
{
    take_out(pool, Axis::Row, cell);
    take_out(pool, Axis::Col, cell);
}

/// Takes the samples of the cells of a row or a column out.
fn clear_line(pool: &mut Pool, k: u16, axis: Axis, index: u16)
    requires width { IsTrue (is_width k) }
    requires k { k ≡ pool.old.places.k }
    requires index { index < 2 * pool.old.places.k }
    ensures width { pool.new.places.k ≡ pool.old.places.k }
    ensures cleared { IsClearedTo (slot_in pool.old) (slot_in pool.new) axis index
        (2 * pool.old.places.k) }
    ensures capacity { KeepsCapacity pool.old pool.new }
{
    for pos in 0..2 * k {
        clear_cell(pool, cell_on(axis, index, pos));
    }
}

/// Keeps the line of a row or a column as decided. No sample of its cells is needed any more.
pub(crate) fn keep_line(
    board: &mut Board,
    header: &Header,
    axis: Axis,
    index: u16,
    line: &[Share],
    digests: &[Digest],
)
    requires good { IsGood header.now board.old }
    requires index { index < 2 * header.now.k }
    requires off { decided_of board.old axis index ≡ false }
    requires line { IsLineOf header.now axis index line.now }
    requires alike { IsAlikeAll header.now.k (given_of board.old) (decided_of board.old)
        (shared_of board.old) axis index line.now }
    requires digests { digests.now ≡ line_leaves header.now.k axis index line.now }
    ensures kept { IsLineKept header.now board.old board.new axis index line.now }
    ensures next { board.new.counts.next ≡ board.old.counts.next }
    ensures flagged { IsFlagged (decided_of board.old) (decided_of board.new) axis index }
    ensures capacity { KeepsCapacity board.old.pool board.new.pool }
{
    count_line(&board.pool, &board.marks, &mut board.counts, axis, index);
    write_line(&board.marks, &mut board.grid, axis, index, line);
    write_leaves(header.k, &mut board.leaves, axis, index, digests);
    board.marks.set(axis, index);
    clear_line(&mut board.pool, header.k, axis, index);
}
