//! The trees over the leaves of a square's rows.

ghost use Rattle.std.specs.Prelude.{◌≡◌, ◌<◌, length, IfOk, Some};
ghost use Rattle.axis_roots.specs.Grids.{header_of_grid};
ghost use Rattle.blob_commit.specs.Making.{IsHeaderRowTree, BeginWithRowTrees};

use axis_roots::{Grid, grid_laws, message_of};
use data_header::Header;
use namespace_id::{Axis, Cell, NoMemory};
use nmt_tree::Tree;
use std::alloc::Global;

/// The tree over the leaves of a row of the original square.
fn row_tree(alloc: Global, grid: &Grid, header: &Header, row: u16) -> Result<Tree, NoMemory>
    requires header { header_of_grid grid.now.k grid.now.shares ≡ Some header.now }
    requires row { row < grid.now.k }
    ensures { IfOk result (λ tree. IsHeaderRowTree header.now row tree) }
{
    grid_laws();
    let mut tree = Tree::new(alloc, 2 * grid.width())?;
    let cell = Cell { row, col: 0 };
    message_of(grid, cell, Axis::Row, &mut tree).unwrap();
    Ok(tree)
}

/// The trees over the leaves of the rows 0 to k - 1 of a grid, in their order, by its header.
///
/// It takes memory for k trees of 4k - 1 digests each. The one refusal is that it is out of memory.
///
/// Celestia specifications, "Data Structures", available data header.
pub fn row_trees(alloc: Global, grid: &Grid, header: &Header) -> Result<Vec<Tree>, NoMemory>
    requires { header_of_grid grid.now.k grid.now.shares ≡ Some header.now }
    ensures number { IfOk result (λ trees. length trees.items ≡ header.now.k) }
    ensures trees { IfOk result (λ trees. BeginWithRowTrees header.now trees.items) }
{
    let Ok(mut trees) = Vec::with_capacity(alloc, grid.width() as usize) else {
        return Err(NoMemory);
    };
    for row in 0..grid.width() {
        let tree = row_tree(alloc, grid, header, row)?;
        let Ok(()) = trees.push(tree) else {
            return Err(NoMemory);
        };
    }
    Ok(trees)
}
