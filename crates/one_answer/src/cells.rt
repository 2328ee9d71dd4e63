//! Of lists of cells.

ghost use Rattle.std.specs.Prelude.{◌≡◌, ◌<◌};

use namespace_id::{Cell, Cells};

/// Cells are one list of the cells of a square, or none.
pub fn cells_of_twice(k: u16, list: Vec<Cell>, copy: Vec<Cell>) -> (Option<Cells>, Option<Cells>)
    requires copy { copy.items ≡ list.items }
    ensures { result.0 ≡ result.1 }
{
    let first = Cells::of(k, list);
    let second = Cells::of(k, copy);
    (first, second)
}
