//! The trees over the rows and columns of a grid, each made when it is first asked for.
//!
//! One sample needs one tree, and a namespace answer needs those of the rows that may hold the
//! namespace. All memory is taken at the start: until it is asked for a tree is empty, and the header is
//! blank. Each leaf is hashed at most once, for its row and its column.

ghost use Rattle.std.specs.Prelude.{◌≡◌, ◌*◌, ◌<◌, IsTrue, IfOk, IsSome, length, get_or, true};
ghost use Rattle.namespace_id.specs.Shares.{AreShares};
ghost use Rattle.nmt_tree.specs.Roots.{is_leaf_count};
ghost use Rattle.axis_roots.specs.Grids.{axis_roots, are_ordered_axes, grid_roots};
ghost use Rattle.axis_roots.specs.Trees.{axis_stored, no_tree, stored_root};
ghost use Rattle.square_serve.specs.Needed.{AreNeededLeaves, AreNeededTrees, AreNeeded, empty_trees, needed_along, needed_at};

use crate::leaves::read_leaves;
use axis_roots::Grid;
use data_header::Header;
use namespace_id::{Axis, BLANK_DIGEST, Digest, NoMemory, shares_law};
use nmt_tree::Tree;
use std::alloc::Global;

/// The namespaced Merkle trees (NMT) over all rows and columns of a grid, empty where they weren't
/// asked for yet.
#[derive(Drop)]
pub(crate) struct NeededTrees {
    // the digests of the leaves over all cells, row-major, none where a leaf wasn't hashed yet
    leaves: Vec<Option<Digest>>,
    rows: Vec<Tree>,
    cols: Vec<Tree>,
    // 2k digests to work in
    line: Vec<Digest>,
    // the roots of all axes, blank until the header is asked for
    header: Header,
    rooted: bool,
}

/// Makes the tree of an axis among those of its kind, if it is empty.
fn make_tree(
    grid: &Grid,
    leaves: &mut [Option<Digest>],
    axis: Axis,
    index: u16,
    line: &mut [Digest],
    trees: &mut [Tree],
)
    requires shares { AreShares grid.now.shares }
    requires ordered { are_ordered_axes grid.now.k grid.now.shares ≡ true }
    requires leaves { AreNeededLeaves grid.now.k grid.now.shares leaves.old }
    requires index { index < 2 * grid.now.k }
    requires line { length line.old ≡ 2 * grid.now.k }
    requires trees { AreNeededTrees grid.now.k grid.now.shares axis trees.old }
    ensures leaves { AreNeededLeaves grid.now.k grid.now.shares leaves.new }
    ensures trees { AreNeededTrees grid.now.k grid.now.shares axis trees.new }
    ensures made { get_or trees.new index no_tree ≡
        axis_stored grid.now.k grid.now.shares axis index }
{
    // The width of a grid is told with what is true of every grid.
    let _k = grid.width();
    let tree = &mut trees[index as usize];
    if tree.root().is_none() {
        read_leaves(grid, leaves, axis, index, line);
        tree.put(line);
    }
}

/// So many empty trees, each for `count` leaves.
pub(crate) fn empty_trees(alloc: Global, number: u16, count: u16) -> Result<Vec<Tree>, NoMemory>
    requires { IsTrue (is_leaf_count count) }
    ensures { IfOk result (λ trees. trees.items ≡ empty_trees number count) }
{
    let Ok(mut trees) = Vec::with_capacity(alloc, number as usize) else {
        return Err(NoMemory);
    };
    for _ in 0..number {
        let tree = Tree::new(alloc, count)?;
        let Ok(()) = trees.push(tree) else {
            return Err(NoMemory);
        };
    }
    Ok(trees)
}

/// So many roots, which are blank yet.
fn blank_roots(alloc: Global, count: u16) -> Result<Vec<Digest>, NoMemory>
    ensures { IfOk result (λ roots. length roots.items ≡ count) }
{
    match vec![in alloc; BLANK_DIGEST; count as usize] {
        Ok(roots) => Ok(roots),
        Err(_) => Err(NoMemory),
    }
}

/// A header for the roots of a grid, which are blank yet.
fn blank_header(alloc: Global, grid: &Grid) -> Result<Header, NoMemory>
    ensures { IfOk result (λ header. header.k ≡ grid.now.k) }
{
    let k = grid.width();
    let rows = blank_roots(alloc, 2 * k)?;
    let cols = blank_roots(alloc, 2 * k)?;
    Ok(Header { k, rows, cols })
}

/// The root of a tree that is not empty.
fn root_in(tree: &Tree) -> Digest
    requires { IsSome tree.now.leaves }
    ensures { result ≡ stored_root tree.now }
{
    tree.root().unwrap()
}

/// Puts the roots of all axes of one kind. Trees that are empty are made.
fn put_roots(
    grid: &Grid,
    leaves: &mut [Option<Digest>],
    axis: Axis,
    line: &mut [Digest],
    trees: &mut [Tree],
    roots: &mut [Digest],
)
    requires shares { AreShares grid.now.shares }
    requires ordered { are_ordered_axes grid.now.k grid.now.shares ≡ true }
    requires leaves { AreNeededLeaves grid.now.k grid.now.shares leaves.old }
    requires line { length line.old ≡ 2 * grid.now.k }
    requires trees { AreNeededTrees grid.now.k grid.now.shares axis trees.old }
    requires roots { length roots.old ≡ 2 * grid.now.k }
    ensures leaves { AreNeededLeaves grid.now.k grid.now.shares leaves.new }
    ensures trees { AreNeededTrees grid.now.k grid.now.shares axis trees.new }
    ensures roots { roots.new ≡ axis_roots grid.now.k grid.now.shares axis }
{
    for index in 0..2 * grid.width() {
        make_tree(grid, leaves, axis, index, line, trees);
        roots[index as usize] = root_in(&trees[index as usize]);
    }
}

impl NeededTrees {
    /// Empty trees for a grid along whose rows and columns no namespaces fall.
    ///
    /// It takes memory for 4k trees of 4k - 1 digests each, for 4 * k * k digests of leaves, for 4k roots,
    /// and for 2k digests besides. The one refusal is that it is out of memory.
    pub(crate) fn of(alloc: Global, grid: &Grid) -> Result<NeededTrees, NoMemory>
        requires { are_ordered_axes grid.now.k grid.now.shares ≡ true }
        ensures { IfOk result (AreNeeded grid.now.k grid.now.shares) }
    {
        shares_law(&grid.shares);
        let side = 2 * grid.width();
        let number = side as usize * side as usize;
        let Ok(leaves) = vec![in alloc; None; number] else {
            return Err(NoMemory);
        };
        let Ok(line) = vec![in alloc; BLANK_DIGEST; side as usize] else {
            return Err(NoMemory);
        };
        Ok(NeededTrees {
            leaves,
            rows: empty_trees(alloc, side, side)?,
            cols: empty_trees(alloc, side, side)?,
            line,
            header: blank_header(alloc, grid)?,
            rooted: false,
        })
    }

    /// Makes the tree of an axis of the grid, if it is empty. It takes no memory.
    pub(crate) fn make(&mut self, grid: &Grid, axis: Axis, index: u16)
        requires needed { AreNeeded grid.now.k grid.now.shares self.old }
        requires index { index < 2 * grid.now.k }
        ensures needed { AreNeeded grid.now.k grid.now.shares self.new }
        ensures made { needed_at self.new axis index ≡
            axis_stored grid.now.k grid.now.shares axis index }
    {
        let leaves = &mut self.leaves;
        let line = &mut self.line;
        match axis {
            Axis::Row => make_tree(grid, leaves, axis, index, line, &mut self.rows),
            Axis::Col => make_tree(grid, leaves, axis, index, line, &mut self.cols),
        }
    }

    /// The tree of an axis.
    pub(crate) fn tree(&self, axis: Axis, index: u16) -> &Tree
        requires { index < length (needed_along self.now axis) }
        ensures { result.now ≡ needed_at self.now axis index }
    {
        match axis {
            Axis::Row => &self.rows[index as usize],
            Axis::Col => &self.cols[index as usize],
        }
    }

    /// Puts the roots of all axes into the header.
    fn put_header(&mut self, grid: &Grid)
        requires { AreNeeded grid.now.k grid.now.shares self.old }
        ensures needed { AreNeeded grid.now.k grid.now.shares self.new }
        ensures header { self.new.header ≡ grid_roots grid.now.k grid.now.shares }
    {
        let leaves = &mut self.leaves;
        let line = &mut self.line;
        put_roots(
            grid,
            leaves,
            Axis::Row,
            line,
            &mut self.rows,
            &mut self.header.rows,
        );
        put_roots(
            grid,
            leaves,
            Axis::Col,
            line,
            &mut self.cols,
            &mut self.header.cols,
        );
        self.rooted = true;
    }

    /// Makes the data availability header (DAH) of the grid, the roots of all axes, if it wasn't asked for
    /// yet. Trees that are empty are made. It takes no memory.
    pub(crate) fn make_header(&mut self, grid: &Grid)
        requires { AreNeeded grid.now.k grid.now.shares self.old }
        ensures needed { AreNeeded grid.now.k grid.now.shares self.new }
        ensures header { self.new.header ≡ grid_roots grid.now.k grid.now.shares }
    {
        if !self.rooted {
            self.put_header(grid);
        }
    }

    /// The header that was made.
    pub(crate) fn header(&self) -> &Header
        ensures { result.now ≡ self.now.header }
    {
        &self.header
    }
}
