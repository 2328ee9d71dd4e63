//! The lines of a grid, its rows and columns: which cells one has, and the shares and leaf
//! namespaces along it.

ghost use Rattle.std.specs.Prelude.{◌≡◌, ◌≢◌, ◌*◌, ◌<◌, ◌⊎◌, ◌++◌, ◌↔◌, IsTrue, Some, length, take};
ghost use Rattle.namespace_id.specs.declared.cells.Cell.{Cell as Place};
ghost use Rattle.namespace_id.specs.Cells.{is_width, is_in_square};
ghost use Rattle.axis_roots.specs.Messages.{position, index as index_of};
ghost use Rattle.axis_roots.specs.Lines.{cell_on, line_names, line_strict_root};
ghost use Rattle.axis_roots.specs.Grids.{share_at, axis_names, axis_shares};

use crate::Grid;
use namespace_id::{
    Axis, BLANK_DIGEST, Cell, Digest, MOST_LEAVES, Namespace, Share, leaf_namespace,
};
use nmt_tree::{are_ordered, fold_leaves};

/// The cell at a position of a row or a column of this index.
///
/// docs/RULES.md, "Proved samples".
pub fn cell_on(axis: Axis, index: u16, pos: u16) -> Cell
    ensures { result ≡ cell_on axis index pos }
{
    match axis {
        Axis::Row => Cell {
            row: index,
            col: pos,
        },
        Axis::Col => Cell {
            row: pos,
            col: index,
        },
    }
}

/// Copies the 2k shares of an axis.
pub(crate) fn read_axis(grid: &Grid, axis: Axis, index: u16, line: &mut [Share])
    requires index { index < 2 * grid.now.k }
    requires line { length line.old ≡ 2 * grid.now.k }
    ensures { line.new ≡ axis_shares grid.now.k grid.now.shares axis index }
{
    for pos in 0..2 * grid.width() {
        line[pos as usize] = *grid.cell(cell_on(axis, index, pos));
    }
}

/// Copies the first k shares of an axis.
pub(super) fn read_front(grid: &Grid, axis: Axis, index: u16, line: &mut [Share])
    requires index { index < 2 * grid.now.k }
    requires line { length line.old ≡ grid.now.k }
    ensures { line.new ≡
        take grid.now.k (axis_shares grid.now.k grid.now.shares axis index) }
{
    for pos in 0..grid.width() {
        line[pos as usize] = *grid.cell(cell_on(axis, index, pos));
    }
}

/// Puts k shares behind the first k of an axis.
pub(super) fn write_back(grid: &mut Grid, axis: Axis, index: u16, line: &[Share])
    requires index { index < 2 * grid.old.k }
    requires line { length line.now ≡ grid.old.k }
    ensures k { grid.new.k ≡ grid.old.k }
    ensures line { axis_shares grid.old.k grid.new.shares axis index
        ≡ take grid.old.k (axis_shares grid.old.k grid.old.shares axis index) ++ line.now }

    // Every cell of another axis is as it was, and so are the first k of this one.
    ensures kept { (cell : Place) → IsTrue (is_in_square grid.old.k cell) →
        (index_of axis cell ≢ index) ⊎ (position axis cell < grid.old.k) →
        share_at (2 * grid.old.k) grid.new.shares cell
        ≡ share_at (2 * grid.old.k) grid.old.shares cell }
{
    let k = grid.width();
    for pos in 0..k {
        grid.set(cell_on(axis, index, k + pos), &line[pos as usize]);
    }
}

/// Copies the leaf namespaces along an axis.
pub(crate) fn read_names(grid: &Grid, axis: Axis, index: u16, line: &mut [Namespace])
    requires index { index < 2 * grid.now.k }
    requires line { length line.old ≡ 2 * grid.now.k }
    ensures { line.new ≡ axis_names grid.now.k grid.now.shares axis index }
{
    let k = grid.width();
    for pos in 0..2 * k {
        let cell = cell_on(axis, index, pos);
        line[pos as usize] = leaf_namespace(k, cell, grid.cell(cell));
    }
}

/// Writes the leaf namespaces of a line of 2k shares, taken as a row or a column of a square of width
/// `k`.
///
/// Celestia specifications, "Data Structures", erasure coding.
pub fn name_leaves(k: u16, axis: Axis, index: u16, line: &[Share], names: &mut [Namespace])
    requires width { IsTrue (is_width k) }
    requires index { index < 2 * k }
    requires line { length line.now ≡ 2 * k }
    requires names { length names.old ≡ 2 * k }
    ensures { names.new ≡ line_names k axis index line.now }
{
    for pos in 0..2 * k {
        let cell = cell_on(axis, index, pos);
        names[pos as usize] = leaf_namespace(k, cell, &line[pos as usize]);
    }
}

/// The strict root of a line of 2k shares, taken as a row or a column of a square of width `k`: the root
/// over them under the leaf namespaces of their cells, none exactly where these fall. `names` has 2k
/// entries, which are written. It takes no memory, and hashes leaves and nodes eight at a time.
///
/// Celestia specifications, "Data Structures", available data header.
#[tactic(auto, unfolding(nmt_tree::specs::Roots::strict_root))]
pub fn line_strict_root(
    k: u16,
    axis: Axis,
    index: u16,
    line: &[Share],
    names: &mut [Namespace],
) -> Option<Digest>
    requires width { IsTrue (is_width k) }
    requires index { index < 2 * k }
    requires line { length line.now ≡ 2 * k }
    requires names { length names.old ≡ 2 * k }
    ensures { result ≡ line_strict_root k axis index line.now }
{
    name_leaves(k, axis, index, line, names);
    if !are_ordered(names) {
        return None;
    }
    let mut leaves = [BLANK_DIGEST; MOST_LEAVES];
    Some(fold_leaves(names, line, &mut leaves[..names.len()]))
}

/// Whether there is a strict root, and it is this one.
pub fn is_root(found: Option<Digest>, root: &Digest) -> bool
    ensures { IsTrue result ↔ (found ≡ Some root.now) }
{
    found == Some(*root)
}
