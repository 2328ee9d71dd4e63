//! The leaves of a grid.
//!
//! Each cell is a leaf of its row's tree and of its column's, under one namespace, so all leaves
//! are hashed once, row by row, into a table of 4k^2 digests, from which each axis copies its line of
//! 2k.

ghost use Rattle.std.specs.Prelude.{◌≡◌, ◌⊎◌, ◌+◌, ◌*◌, ◌<◌, ◌≤◌, ℕ, List, IsTrue, IfOk, length, map, get_or};
ghost use Rattle.namespace_id.specs.declared.cells.Axis.TheVariants.{Row};
ghost use Rattle.namespace_id.specs.declared.shares.Share.{Share as ShareOf};
ghost use Rattle.namespace_id.specs.Cells.{is_width, cell_in};
ghost use Rattle.namespace_id.specs.Digests.{least_of, no_digest};
ghost use Rattle.nmt_tree.specs.Roots.{is_ordered};
ghost use Rattle.axis_roots.specs.Trees.{axis_leaves};
ghost use Rattle.axis_roots.specs.Grids.{axis_shares, leaf_over, AreLeafDigests};

use super::grids::place;
use super::lines::{cell_on, name_leaves};
use crate::Grid;
use namespace_id::{Axis, BLANK_DIGEST, Digest, MOST_LEAVES, Namespace, NoMemory, PARITY, Share};
use nmt_tree::put_leaves;
use std::alloc::Global;

/// The shares of a row.
fn row_shares(grid: &Grid, row: u16) -> &[Share]
    requires { row < 2 * grid.now.k }
    ensures shares { result.now ≡ axis_shares grid.now.k grid.now.shares Row row }
    ensures count { length result.now ≡ 2 * grid.now.k }
{
    let side = 2 * grid.width() as usize;
    let first = row as usize * side;
    &grid.shares[first..first + side]
}

/// Hashes the leaves over a row, by way of a line of 2k namespaces.
fn put_row(grid: &Grid, row: u16, names: &mut [Namespace], leaves: &mut [Digest])
    requires row { row < 2 * grid.now.k }
    requires names { length names.old ≡ 2 * grid.now.k }
    requires leaves { length leaves.old ≡ 2 * grid.now.k * (2 * grid.now.k) }
    ensures leaves { (col : ℕ) → col < 2 * grid.now.k →
        get_or leaves.new (row * (2 * grid.now.k) + col) no_digest
        ≡ leaf_over grid.now.k grid.now.shares (cell_in row col) }

    // Every other leaf is as it was.
    ensures others { (number : ℕ) →
        (number < row * (2 * grid.now.k)) ⊎ ((row + 1) * (2 * grid.now.k) ≤ number) →
        get_or leaves.new number no_digest ≡ get_or leaves.old number no_digest }
{
    let k = grid.width();
    let shares = row_shares(grid, row);
    name_leaves(k, Axis::Row, row, shares, names);
    let first = row as usize * (2 * k as usize);
    put_leaves(names, shares, &mut leaves[first..first + 2 * k as usize]);
}

/// Makes the digests of the leaves over all cells, each of them once, row by row.
fn fill_leaves(grid: &Grid, leaves: &mut [Digest])
    requires { length leaves.old ≡ 2 * grid.now.k * (2 * grid.now.k) }
    ensures { AreLeafDigests grid.now.k grid.now.shares leaves.new }
{
    let mut names = [PARITY; MOST_LEAVES];
    let names = &mut names[..2 * grid.width() as usize];
    for row in 0..2 * grid.width() {
        put_row(grid, row, names, leaves);
    }
}

/// The digests of the leaves over all cells.
pub(super) fn leaves_of(alloc: Global, grid: &Grid) -> Result<Vec<Digest>, NoMemory>
    ensures { IfOk result (λ leaves. AreLeafDigests grid.now.k grid.now.shares leaves.items) }
{
    let side = 2 * grid.width() as usize;
    let mut leaves = vec![in alloc; BLANK_DIGEST; side * side]?;
    fill_leaves(grid, &mut leaves);
    Ok(leaves)
}

/// Copies the digests of the leaves over an axis from those over all cells.
pub(crate) fn read_leaves(k: u16, leaves: &[Digest], axis: Axis, index: u16, line: &mut [Digest])
    requires width { IsTrue (is_width k) }
    requires leaves { length leaves.now ≡ 2 * k * (2 * k) }
    requires index { index < 2 * k }
    requires line { length line.old ≡ 2 * k }
    ensures { (shares : List ShareOf) → AreLeafDigests k shares leaves.now →
        line.new ≡ axis_leaves k shares axis index }
{
    for pos in 0..2 * k {
        line[pos as usize] = leaves[place(k, cell_on(axis, index, pos))];
    }
}

/// Whether the least namespaces of digests never fall.
pub(super) fn are_ordered(digests: &[Digest]) -> bool
    ensures { result ≡ is_ordered (map least_of digests.now) }
{
    for i in 1..digests.len() {
        if !digests[i - 1].least().is_at_most(&digests[i].least()) {
            return false;
        }
    }
    true
}
