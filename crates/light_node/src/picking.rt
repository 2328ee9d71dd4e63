//! Which cell is wanted at which number.

ghost use Rattle.std.specs.Prelude.{ℕ};
ghost use Rattle.namespace_id.specs.declared.cells.Cell.{Cell};

use namespace_id::Cell;

/// A rule that names a cell for each number: the draw of a key, say, or a list.
///
/// Every closure from numbers to cells is one. Who has a closure hands it to a function over any
/// picker, which makes the node and uses it: where the node's type names the closure's own type,
/// the toolchain makes no proof yet.
pub trait Picker: Drop {
    /// Holds of a number for which it may be asked.
    ghost can_pick: { Self → ℕ → Type 0 };

    /// Holds of a number and each cell that it may answer to it.
    ghost picks: { Self → ℕ → Cell → Type 0 };

    /// The cell for a number.
    fn pick(&self, number: u32) -> Cell
        requires { can_pick self.now number }
        ensures { picks self.now number result };
}

impl<F: Fn(u32) -> Cell + Drop> Picker for F {
    ghost can_pick = { λ f number. F.pre f number };

    ghost picks = { λ f number cell. F.post f number cell };

    fn pick(&self, number: u32) -> Cell {
        self(number)
    }
}
