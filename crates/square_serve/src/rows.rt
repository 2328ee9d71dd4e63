//! Rows of a square, and whether one may hold a namespace.

ghost use Rattle.std.specs.Prelude.{◌≡◌, ◌*◌, ◌<◌, List, IfOk, length, take};
ghost use Rattle.namespace_id.specs.declared.cells.Axis.TheVariants.{Row};
ghost use Rattle.namespace_id.specs.declared.shares.Share.{Share as ShareOf};
ghost use Rattle.axis_roots.specs.Grids.{Extends, axis_shares};
ghost use Rattle.square_serve.specs.Answers.{is_wanted};
ghost use Rattle.square_serve.specs.RowNames.{names_of, row_names, lies_between};
ghost use Rattle.square_serve.specs.Rows.{HasHeader};

use crate::ordering::name_over;
use axis_roots::Grid;
use data_header::Header;
use namespace_id::{Axis, Cell, Namespace, NoMemory, Share};
use square_layout::Square;
use std::alloc::Global;

/// Whether a row may hold a namespace: it lies between the namespaces of the row's root.
///
/// docs/RULES.md, "Namespace answers".
pub(crate) fn is_wanted(header: &Header, namespace: &Namespace, row: u16) -> bool
    requires { row < 2 * header.now.k }
    ensures { result ≡ is_wanted header.now namespace.now row }
{
    let root = header.root_of(Axis::Row, row);
    root.least().is_at_most(namespace) && namespace.is_at_most(&root.greatest())
}

/// The k shares of a row of a square.
pub(crate) fn row_of(square: &Square, row: u16) -> &[Share]
    requires { row < square.now.k }
    ensures count { length result.now ≡ square.now.k }
    ensures shares { (grid : List ShareOf) → Extends square.now.k square.now.shares grid →
        result.now ≡ take square.now.k (axis_shares square.now.k grid Row row) }
{
    let (k, row) = (square.k as usize, row as usize);
    &square.shares[row * k..(row + 1) * k]
}

/// The k shares that a row of the original square has in its extension.
pub(crate) fn front_of(grid: &Grid, row: u16) -> &[Share]
    requires { row < grid.now.k }
    ensures count { length result.now ≡ grid.now.k }
    ensures shares { result.now ≡ take grid.now.k (axis_shares grid.now.k grid.now.shares Row row) }
{
    let k = grid.width() as usize;
    let first = row as usize * (2 * k);
    &grid.shares[first..first + k]
}

/// The least and the greatest namespace of a row's root.
#[derive(Clone, Copy)]
pub(crate) struct RowNames {
    least: Namespace,
    greatest: Namespace,
}

impl RowNames {
    /// Whether the row may hold a namespace.
    ///
    /// docs/RULES.md, "Namespace answers".
    pub(crate) fn may_hold(&self, namespace: &Namespace) -> bool
        ensures { result ≡ lies_between self.now namespace.now }
    {
        self.least.is_at_most(namespace) && namespace.is_at_most(&self.greatest)
    }
}

/// The namespaces of the root of a row of a square that has a header, told without the root: the least is
/// that of the first leaf, the greatest that of the last leaf that isn't `PARITY`, and `PARITY` where all
/// are.
fn names_of(square: &Square, row: u16) -> RowNames
    requires header { HasHeader square.now }
    requires row { row < square.now.k }
    ensures { (grid : List ShareOf) → Extends square.now.k square.now.shares grid →
        result ≡ names_of square.now.k grid row }
{
    let least = name_over(square, Cell { row, col: 0 });
    let mut greatest = least;
    for col in 1..square.k {
        let name = name_over(square, Cell { row, col });
        if !name.is_parity() {
            greatest = name;
        }
    }
    RowNames { least, greatest }
}

/// Those of all rows of a square that has a header, from the first down.
///
/// It takes memory for them. The one refusal is that it is out of memory.
pub(crate) fn row_names(alloc: Global, square: &Square) -> Result<Vec<RowNames>, NoMemory>
    requires { HasHeader square.now }
    ensures { IfOk result (λ names. (grid : List ShareOf) →
        Extends square.now.k square.now.shares grid → names.items ≡ row_names square.now.k grid) }
{
    let Ok(mut names) = Vec::with_capacity(alloc, square.k as usize) else {
        return Err(NoMemory);
    };
    for row in 0..square.k {
        let Ok(()) = names.push(names_of(square, row)) else {
            return Err(NoMemory);
        };
    }
    Ok(names)
}
