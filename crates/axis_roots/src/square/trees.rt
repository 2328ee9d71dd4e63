//! The stored trees of a grid.
//!
//! Who makes many samples of one grid keeps them: each leaf and each node is hashed once, and a
//! sample that is made from them hashes nothing.

ghost use Rattle.std.specs.Prelude.{◌≡◌, ◌*◌, ◌<◌, ℕ, List, IfOk, IsSome, length, map, Some, None, if◌then◌else◌};
ghost use Rattle.std.specs.List.{list_all};
ghost use Rattle.std.specs.Option.{option_map};
ghost use Rattle.namespace_id.specs.Lists.{ascending};
ghost use Rattle.namespace_id.specs.Shares.{AreShares};
ghost use Rattle.namespace_id.specs.declared.shares.Share.{Share};
ghost use Rattle.axis_roots.specs.Grids.{AreLeafDigests, is_ordered_axis, header_of_grid};
ghost use Rattle.axis_roots.specs.Trees.{AreFilled, axis_stored, stored_along, stored_root, trees_of_grid, tree_at};

use super::leaves::{are_ordered, leaves_of, read_leaves};
use crate::Grid;
use data_header::Header;
use namespace_id::{Axis, BLANK_DIGEST, Digest, NoMemory, shares_law};
use nmt_tree::Tree;
use std::alloc::Global;
use std::marker::Model;

/// The namespaced Merkle trees (NMT) over the leaves of all 2k rows and 2k columns of a grid, with
/// the digests of all their levels. Its type keeps that none of them is empty.
///
/// Celestia specifications, "Data Structures", available data header.
#[derive(Drop)]
pub struct Trees {
    k: u16,
    rows: Vec<Tree>,
    cols: Vec<Tree>,
}

impl Model for Trees {
    ghost use Rattle.axis_roots.specs.Trees.{AxisTrees, AreTrees};

    ghost Value = { AxisTrees };

    ghost view = { λ t. record { k = t.k; rows = t.rows.items; cols = t.cols.items } };

    ghost invariant = { λ t. AreTrees (record { k = t.k; rows = t.rows.items; cols = t.cols.items }) };
}

/// The stored tree of an axis; none where its namespaces fall.
fn tree_along(
    alloc: Global,
    grid: &Grid,
    leaves: &[Digest],
    axis: Axis,
    index: u16,
    line: &mut [Digest],
) -> Result<Option<Tree>, NoMemory>
    requires shares { AreShares grid.now.shares }
    requires leaves { AreLeafDigests grid.now.k grid.now.shares leaves.now }
    requires index { index < 2 * grid.now.k }
    requires line { length line.old ≡ 2 * grid.now.k }
    ensures { IfOk result (λ tree. tree ≡
        (if is_ordered_axis grid.now.k grid.now.shares axis index
        then Some (axis_stored grid.now.k grid.now.shares axis index) else None)) }
{
    let k = grid.width();
    read_leaves(k, leaves, axis, index, line);
    if !are_ordered(line) {
        return Ok(None);
    }
    let mut tree = Tree::new(alloc, 2 * k)?;
    tree.put(line);
    Ok(Some(tree))
}

/// The stored trees of all axes of one kind, where no namespaces fall.
fn trees_of(
    alloc: Global,
    grid: &Grid,
    leaves: &[Digest],
    axis: Axis,
    line: &mut [Digest],
) -> Result<Option<Vec<Tree>>, NoMemory>
    requires shares { AreShares grid.now.shares }
    requires leaves { AreLeafDigests grid.now.k grid.now.shares leaves.now }
    requires line { length line.old ≡ 2 * grid.now.k }
    ensures { IfOk result (λ trees. option_map (λ v. v.items) trees ≡
        (if list_all (is_ordered_axis grid.now.k grid.now.shares axis)
        (ascending 0 (2 * grid.now.k))
        then Some (stored_along grid.now.k grid.now.shares axis) else None)) }
{
    let count = 2 * grid.width();
    let Ok(mut trees) = Vec::with_capacity(alloc, count as usize) else {
        return Err(NoMemory);
    };
    for index in 0..count {
        let Some(tree) = tree_along(alloc, grid, leaves, axis, index, line)? else {
            return Ok(None);
        };
        let Ok(()) = trees.push(tree) else {
            return Err(NoMemory);
        };
    }
    Ok(Some(trees))
}

/// The root of a tree that is not empty.
fn root_in(tree: &Tree) -> Digest
    requires { IsSome tree.now.leaves }
    ensures { result ≡ stored_root tree.now }
{
    tree.root().unwrap()
}

/// The roots of trees that are not empty.
fn roots_in(alloc: Global, trees: &[Tree]) -> Result<Vec<Digest>, NoMemory>
    requires { AreFilled trees.now }
    ensures { IfOk result (λ roots. roots.items ≡ map stored_root trees.now) }
{
    let mut roots = Vec::with_capacity(alloc, trees.len())?;
    for tree in trees {
        let Ok(()) = roots.push(root_in(tree)) else {
            return Err(NoMemory);
        };
    }
    Ok(roots)
}

impl Trees {
    /// Makes the trees of a grid. There are none exactly where the namespaces of a row or a column
    /// fall. Each leaf is hashed once, for its row and its column, and each node once.
    ///
    /// It takes memory for 4k trees of 4k - 1 digests each, and for 4 * k * k digests of leaves
    /// besides. The one refusal is that it is out of memory.
    ///
    /// Celestia specifications, "Data Structures", available data header.
    pub fn of(alloc: Global, grid: &Grid) -> Result<Option<Trees>, NoMemory>
        ensures { IfOk result (λ trees. trees ≡ trees_of_grid grid.now.k grid.now.shares) }
    {
        shares_law(&grid.shares);
        let leaves = leaves_of(alloc, grid)?;
        let Ok(mut line) = vec![in alloc; BLANK_DIGEST; 2 * grid.k as usize] else {
            return Err(NoMemory);
        };
        let Some(rows) = trees_of(alloc, grid, &leaves, Axis::Row, &mut line)? else {
            return Ok(None);
        };
        let Some(cols) = trees_of(alloc, grid, &leaves, Axis::Col, &mut line)? else {
            return Ok(None);
        };
        Ok(Some(Trees {
            k: grid.k,
            rows,
            cols,
        }))
    }

    /// The tree of an axis, the row or column of this index, below 2k.
    pub fn tree(&self, axis: Axis, index: u16) -> &Tree
        requires { index < 2 * self.now.k }
        ensures { result.now ≡ tree_at self.now axis index }
    {
        match axis {
            Axis::Row => &self.rows[index as usize],
            Axis::Col => &self.cols[index as usize],
        }
    }

    /// The data availability header (DAH) of the grid: the roots of the trees. Nothing is hashed.
    ///
    /// The one refusal is that it is out of memory.
    ///
    /// Celestia specifications, "Data Structures", available data header.
    pub fn header(&self, alloc: Global) -> Result<Header, NoMemory>
        ensures { (k : ℕ) (shares : List Share) → trees_of_grid k shares ≡ Some self.now →
            IfOk result (λ header. header_of_grid k shares ≡ Some header) }
    {
        let rows = roots_in(alloc, &self.rows)?;
        let cols = roots_in(alloc, &self.cols)?;
        Ok(Header {
            k: self.k,
            rows,
            cols,
        })
    }
}
