//! Samples of known cells, for what ends a session.

ghost use Rattle.std.specs.Prelude.{◌≡◌, ◌≢◌, ◌*◌, ◌<◌, length, true, Some};
ghost use Rattle.namespace_id.specs.Cells.{is_in_square};
ghost use Rattle.namespace_id.specs.declared.cells.Axis.{Axis as Along};
ghost use Rattle.namespace_id.specs.declared.cells.Axis.TheVariants.{Row, Col};
ghost use Rattle.axis_roots.specs.Proved.{kept_message, IsUnder};
ghost use Rattle.axis_roots.specs.Messages.{index as index_of};
ghost use Rattle.axis_roots.specs.Grids.{axis_shares, share_at};
ghost use Rattle.befp_maker.specs.Conflicts.{IsLineOf};
ghost use Rattle.repair_queue.specs.Slots.{IsKnown, IsEmptied, IsApart};
ghost use Rattle.repair_queue.specs.Pools.{slot_in};
ghost use Rattle.repair_queue.specs.Boards.{share_of_first};

use crate::pools::{Pool, held_in, is_other, take_out};
use axis_roots::{Grid, Proved, cell_on, index, position};
use befp_maker::AxisRoom;
use data_header::Header;
use namespace_id::{Axis, Cell, Share};

/// Copies the shares along a row or a column of a grid.
pub(crate) fn read_along(grid: &Grid, axis: Axis, index: u16, line: &mut [Share])
    requires index { index < 2 * grid.now.k }
    requires line { length line.old ≡ 2 * grid.now.k }
    ensures { line.new ≡ axis_shares grid.now.k grid.now.shares axis index }
{
    for pos in 0..2 * grid.width() {
        line[pos as usize] = *grid.cell(cell_on(axis, index, pos));
    }
}

/// The sample of a cell along its row or its column, whose shares have the header's root: it is
/// made from the tree over them.
pub(crate) fn make(
    grid: &Grid,
    room: &mut AxisRoom,
    across: &mut [Share],
    header: &Header,
    axis: Axis,
    cell: Cell,
) -> Proved
    requires width { header.now.k ≡ grid.now.k }
    requires room { room.old.k ≡ header.now.k }
    requires across { length across.old ≡ 2 * header.now.k }
    requires cell { is_in_square header.now.k cell ≡ true }
    requires line { IsLineOf header.now axis (index_of axis cell)
        (axis_shares grid.now.k grid.now.shares axis (index_of axis cell)) }
    ensures under { IsUnder header.now result }
    ensures cell { (kept_message result).cell ≡ cell }
    ensures share { (kept_message result).share ≡ share_at (2 * grid.now.k) grid.now.shares cell }
    ensures room { room.new.k ≡ room.old.k }
    ensures across { length across.new ≡ length across.old }
{
    let i = index(axis, cell);
    read_along(grid, axis, i, across);
    room.hold(across);
    room.proved(header, axis, i, position(axis, cell))
}

/// Takes the sample out that is kept of a cell along its row, else that along its column.
pub(crate) fn take_first(pool: &mut Pool, cell: Cell) -> Proved
    requires cell { is_in_square pool.old.places.k cell ≡ true }
    requires known { IsKnown (slot_in pool.old) cell }
    ensures kept { (axis : Along) × (slot_in pool.old axis cell ≡ Some result)
        × IsEmptied (slot_in pool.old) (slot_in pool.new) axis cell }
    ensures share { (kept_message result).share
        ≡ share_of_first (slot_in pool.old Row cell) (slot_in pool.old Col cell) }
    ensures width { pool.new.places.k ≡ pool.old.places.k }
{
    if held_in(pool, Axis::Row, cell).is_some() {
        return take_out(pool, Axis::Row, cell).unwrap();
    }
    take_out(pool, Axis::Col, cell).unwrap()
}

/// Takes the sample of a cell out that shows another share than this one: that along its row, else
/// that along its column.
pub(crate) fn take_other(pool: &mut Pool, cell: Cell, share: &Share) -> Proved
    requires cell { is_in_square pool.old.places.k cell ≡ true }
    requires other { (axis : Along) × IsApart (slot_in pool.old axis cell) share.now }
    ensures kept { (axis : Along) × (slot_in pool.old axis cell ≡ Some result) }
    ensures share { (kept_message result).share ≢ share.now }
{
    if is_other(pool, Axis::Row, cell, share) {
        return take_out(pool, Axis::Row, cell).unwrap();
    }
    take_out(pool, Axis::Col, cell).unwrap()
}
