//! A stored tree over the leaves along an axis.

ghost use Rattle.std.specs.Prelude.{◌≡◌, ◌*◌, ◌<◌, length, Some, true, false};
ghost use Rattle.nmt_tree.specs.Levels.{leaf_digests};
ghost use Rattle.axis_roots.specs.Grids.{axis_names, axis_shares, is_ordered_axis};

use super::lines::{read_axis, read_names};
use crate::Grid;
use namespace_id::{Axis, MOST_LEAVES, Namespace, PARITY, Share};
use nmt_tree::{Tree, are_ordered};

/// Fills a tree with the leaves along an axis, by way of these lines; false where their namespaces
/// fall, and the tree is as it was.
fn fill_by_lines(
    grid: &Grid,
    axis: Axis,
    index: u16,
    names: &mut [Namespace],
    shares: &mut [Share],
    tree: &mut Tree,
) -> bool
    requires index { index < 2 * grid.now.k }
    requires names { length names.old ≡ 2 * grid.now.k }
    requires shares { length shares.old ≡ 2 * grid.now.k }
    requires tree { tree.old.count ≡ 2 * grid.now.k }
    ensures ordered { result ≡ is_ordered_axis grid.now.k grid.now.shares axis index }
    ensures count { tree.new.count ≡ tree.old.count }
    ensures leaves { result ≡ true → tree.new.leaves ≡
        Some (leaf_digests (axis_names grid.now.k grid.now.shares axis index)
        (axis_shares grid.now.k grid.now.shares axis index)) }
    ensures kept { result ≡ false → tree.new ≡ tree.old }
{
    read_names(grid, axis, index, names);
    if !are_ordered(names) {
        return false;
    }
    read_axis(grid, axis, index, shares);
    tree.fill(names, shares)
}

/// Fills a tree with the leaves along an axis; false where their namespaces fall, and the tree is
/// as it was.
pub(crate) fn fill_axis(grid: &Grid, axis: Axis, index: u16, tree: &mut Tree) -> bool
    requires index { index < 2 * grid.now.k }
    requires tree { tree.old.count ≡ 2 * grid.now.k }
    ensures ordered { result ≡ is_ordered_axis grid.now.k grid.now.shares axis index }
    ensures count { tree.new.count ≡ tree.old.count }
    ensures leaves { result ≡ true → tree.new.leaves ≡
        Some (leaf_digests (axis_names grid.now.k grid.now.shares axis index)
        (axis_shares grid.now.k grid.now.shares axis index)) }
    ensures kept { result ≡ false → tree.new ≡ tree.old }
{
    let mut names = [PARITY; MOST_LEAVES];
    let mut shares = [Share([0; 512]); MOST_LEAVES];
    let count = 2 * grid.width() as usize;
    fill_by_lines(
        grid,
        axis,
        index,
        &mut names[..count],
        &mut shares[..count],
        tree,
    )
}
