//! The table of the leaves of a grid, each of which is hashed when it is first needed.
//!
//! Where a row or a column is asked for, those of its leaves that the table has none of yet are hashed
//! eight at a time, side by side, and fewer than eight that are left one after another.

ghost use Rattle.std.specs.Prelude.{◌≡◌, ◌+◌, ◌*◌, ◌<◌, ℕ, IsTrue, length, get_or, slice_index};
ghost use Rattle.namespace_id.specs.Cells.{is_in_square, leaf_namespace};
ghost use Rattle.namespace_id.specs.Digests.{no_digest};
ghost use Rattle.namespace_id.specs.Names.{parity};
ghost use Rattle.axis_roots.specs.Lines.{blank, cell_on};
ghost use Rattle.axis_roots.specs.Grids.{share_at, leaf_over};
ghost use Rattle.axis_roots.specs.Trees.{axis_leaves};
ghost use Rattle.square_serve.specs.Needed.{AreNeededLeaves};

use axis_roots::{Grid, cell_on};
use namespace_id::{
    Axis, BLANK_DIGEST, Cell, Digest, Namespace, PARITY, SHARE_SIZE, Share, leaf_namespace,
};
use nmt_tree::{leaf, put_leaves};

/// How many leaves are hashed side by side.
const BATCH: usize = 8;

/// The place of a cell in the table.
fn place(grid: &Grid, cell: Cell) -> usize
    requires { IsTrue (is_in_square grid.now.k cell) }
    ensures place { result ≡ cell.row * (2 * grid.now.k) + cell.col }
    ensures within { result < 2 * grid.now.k * (2 * grid.now.k) }
{
    cell.row as usize * (2 * grid.width() as usize) + cell.col as usize
}

/// The digest of the leaf over a cell. It's hashed where the table has none yet.
fn leaf_over(grid: &Grid, leaves: &mut [Option<Digest>], cell: Cell) -> Digest
    requires leaves { AreNeededLeaves grid.now.k grid.now.shares leaves.old }
    requires cell { IsTrue (is_in_square grid.now.k cell) }
    ensures value { result ≡ leaf_over grid.now.k grid.now.shares cell }
    ensures leaves { AreNeededLeaves grid.now.k grid.now.shares leaves.new }
{
    let place = place(grid, cell);
    if let Some(digest) = leaves[place] {
        return digest;
    }
    let name = leaf_namespace(grid.width(), cell, grid.cell(cell));
    let digest = leaf(&name, grid.cell(cell));
    leaves[place] = Some(digest);
    digest
}

/// Copies the namespaces and the shares of the leaves at eight positions of an axis.
fn gather(
    grid: &Grid,
    axis: Axis,
    index: u16,
    positions: &[u16],
    names: &mut [Namespace],
    shares: &mut [Share],
)
    requires index { index < 2 * grid.now.k }
    requires count { length positions.now ≡ 8 }
    requires positions { (i : ℕ) → i < 8 → slice_index positions.now i < 2 * grid.now.k }
    requires names { length names.old ≡ 8 }
    requires shares { length shares.old ≡ 8 }
    ensures names { (i : ℕ) → i < 8 → get_or names.new i parity ≡ leaf_namespace grid.now.k
        (cell_on axis index (slice_index positions.now i))
        (share_at (2 * grid.now.k) grid.now.shares (cell_on axis index (slice_index positions.now i))) }
    ensures shares { (i : ℕ) → i < 8 → get_or shares.new i blank ≡
        share_at (2 * grid.now.k) grid.now.shares (cell_on axis index (slice_index positions.now i)) }
{
    for i in 0..BATCH {
        let cell = cell_on(axis, index, positions[i]);
        names[i] = leaf_namespace(grid.width(), cell, grid.cell(cell));
        shares[i] = *grid.cell(cell);
    }
}

/// Puts the digests of the leaves at eight positions of an axis into the table.
fn put_digests(
    grid: &Grid,
    leaves: &mut [Option<Digest>],
    axis: Axis,
    index: u16,
    positions: &[u16],
    digests: &[Digest],
)
    requires leaves { AreNeededLeaves grid.now.k grid.now.shares leaves.old }
    requires index { index < 2 * grid.now.k }
    requires count { length positions.now ≡ 8 }
    requires positions { (i : ℕ) → i < 8 → slice_index positions.now i < 2 * grid.now.k }
    requires size { length digests.now ≡ 8 }
    requires digests { (i : ℕ) → i < 8 → get_or digests.now i no_digest ≡
        leaf_over grid.now.k grid.now.shares (cell_on axis index (slice_index positions.now i)) }
    ensures { AreNeededLeaves grid.now.k grid.now.shares leaves.new }
{
    for i in 0..BATCH {
        let cell = cell_on(axis, index, positions[i]);
        leaves[place(grid, cell)] = Some(digests[i]);
    }
}

/// Hashes the leaves at eight positions of an axis side by side.
fn hash_eight(grid: &Grid, leaves: &mut [Option<Digest>], axis: Axis, index: u16, positions: &[u16])
    requires leaves { AreNeededLeaves grid.now.k grid.now.shares leaves.old }
    requires index { index < 2 * grid.now.k }
    requires count { length positions.now ≡ 8 }
    requires positions { (i : ℕ) → i < 8 → slice_index positions.now i < 2 * grid.now.k }
    ensures { AreNeededLeaves grid.now.k grid.now.shares leaves.new }
{
    let mut names = [PARITY; BATCH];
    let mut shares = [Share([0; SHARE_SIZE]); BATCH];
    let mut digests = [BLANK_DIGEST; BATCH];
    gather(grid, axis, index, positions, &mut names, &mut shares);
    put_leaves(&names, &shares, &mut digests);
    put_digests(grid, leaves, axis, index, positions, &digests);
}

/// Hashes the leaves along an axis that the table has none of yet, as often as eight of them come
/// together.
fn hash_ahead(grid: &Grid, leaves: &mut [Option<Digest>], axis: Axis, index: u16)
    requires leaves { AreNeededLeaves grid.now.k grid.now.shares leaves.old }
    requires index { index < 2 * grid.now.k }
    ensures { AreNeededLeaves grid.now.k grid.now.shares leaves.new }
{
    let mut positions = [0; BATCH];
    let mut count = 0;
    for pos in 0..2 * grid.width() {
        if leaves[place(grid, cell_on(axis, index, pos))].is_none() {
            positions[count] = pos;
            count += 1;
        }
        if count == BATCH {
            hash_eight(grid, leaves, axis, index, &positions);
            count = 0;
        }
    }
}

/// Copies the digests of the leaves along an axis.
pub(crate) fn read_leaves(
    grid: &Grid,
    leaves: &mut [Option<Digest>],
    axis: Axis,
    index: u16,
    line: &mut [Digest],
)
    requires leaves { AreNeededLeaves grid.now.k grid.now.shares leaves.old }
    requires index { index < 2 * grid.now.k }
    requires line { length line.old ≡ 2 * grid.now.k }
    ensures leaves { AreNeededLeaves grid.now.k grid.now.shares leaves.new }
    ensures line { line.new ≡ axis_leaves grid.now.k grid.now.shares axis index }
{
    hash_ahead(grid, leaves, axis, index);
    for pos in 0..2 * grid.width() {
        line[pos as usize] = leaf_over(grid, leaves, cell_on(axis, index, pos));
    }
}
