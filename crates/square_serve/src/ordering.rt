//! Whether a square has a header, by the namespaces of its shares alone: nothing is extended or hashed.
//!
//! Outside of the square all leaves of its extension have the namespace `PARITY`.

ghost use Rattle.std.specs.Prelude.{◌≡◌, ◌*◌, ◌<◌, List, IsTrue, true, false};
ghost use Rattle.std.specs.List.{list_all};
ghost use Rattle.namespace_id.specs.declared.shares.Share.{Share as ShareOf};
ghost use Rattle.namespace_id.specs.Cells.{is_in_square, leaf_namespace};
ghost use Rattle.namespace_id.specs.Lists.{ascending};
ghost use Rattle.axis_roots.specs.Grids.{Extends, HasNoHeader, share_at, is_ordered_axis, are_ordered_axes};
ghost use Rattle.square_serve.specs.Rows.{HasHeader};

use axis_roots::{cell_on, grid_laws};
use namespace_id::{Axis, Cell, Namespace, PARITY, shares_law};
use square_layout::Square;

/// The namespace of the leaf over a cell of the extension of a square.
pub(crate) fn name_over(square: &Square, cell: Cell) -> Namespace
    requires { IsTrue (is_in_square square.now.k cell) }
    ensures { (grid : List ShareOf) → Extends square.now.k square.now.shares grid →
        result ≡ leaf_namespace square.now.k cell (share_at (2 * square.now.k) grid cell) }
{
    if cell.row >= square.k || cell.col >= square.k {
        return PARITY;
    }
    let number = cell.row as usize * square.k as usize + cell.col as usize;
    square.shares[number].namespace()
}

/// Whether the leaf namespaces along an axis of the extension never fall.
fn is_ordered_axis(square: &Square, axis: Axis, index: u16) -> bool
    requires { index < 2 * square.now.k }
    ensures { (grid : List ShareOf) → Extends square.now.k square.now.shares grid →
        result ≡ is_ordered_axis square.now.k grid axis index }
{
    let mut last = name_over(square, cell_on(axis, index, 0));
    for pos in 1..2 * square.k {
        let name = name_over(square, cell_on(axis, index, pos));
        if !last.is_at_most(&name) {
            return false;
        }
        last = name;
    }
    true
}

/// Whether those along all axes of one kind never fall.
fn are_ordered_along(square: &Square, axis: Axis) -> bool
    ensures { (grid : List ShareOf) → Extends square.now.k square.now.shares grid →
        result ≡ list_all (is_ordered_axis square.now.k grid axis) (ascending 0 (2 * square.now.k)) }
{
    for index in 0..2 * square.k {
        if !is_ordered_axis(square, axis, index) {
            return false;
        }
    }
    true
}

/// Whether those of no row and no column of the extension fall.
#[tactic(auto, unfolding(axis_roots::specs::Grids::are_ordered_axes))]
fn are_ordered_axes(square: &Square) -> bool
    ensures { (grid : List ShareOf) → Extends square.now.k square.now.shares grid →
        result ≡ are_ordered_axes square.now.k grid }
{
    are_ordered_along(square, Axis::Row) && are_ordered_along(square, Axis::Col)
}

/// Whether a square has a header: none of its extension's leaf namespaces falls, along a row or a column.
pub(crate) fn has_header(square: &Square) -> bool
    ensures some { result ≡ true → HasHeader square.now }
    ensures none { result ≡ false → HasNoHeader square.now }
{
    shares_law(&square.shares);
    grid_laws();
    are_ordered_axes(square)
}
