//! What takes bytes.

ghost use Rattle.std.specs.Prelude.{◌≡◌, ℕ, List, IsSome, ◌↔◌, ◌≤◌};
ghost use Rattle.std.specs.declared.option.Option.{Option};
ghost use Rattle.std.specs.Io.{WritesAtMost};
ghost use Rattle.std.specs.Io.KnownBytes.{WriteAppends};
ghost use Rattle.da_io.specs.Faults.{max_count, CountsFault};
ghost use Rattle.da_io.specs.Sinks.{TakesSome, TakesNothing};

use thiserror::Error;

/// A sink took nothing of a piece that isn't empty.
#[derive(Clone, Copy, Debug, PartialEq, Eq, Error)]
#[error("the output cannot be written")]
pub struct WriteFailed;

/// What takes bytes, in pieces.
pub trait Sink {
    /// The bytes that were taken so far, where they are told. No call changes whether they are.
    ghost taken: { Self → Option (List ℕ) };

    /// How many writes have failed. The count stops at 2^64 - 1.
    ghost faults: { Self → ℕ };

    /// Takes bytes from the front of a piece, at least one where there is one, and gives their
    /// number.
    ///
    /// An empty piece changes nothing. A failure takes nothing.
    fn write(&mut self, bytes: &[u8]) -> Result<usize, WriteFailed>
        ensures bound { WritesAtMost result bytes.now }
        ensures taken { WriteAppends (taken self.old) (taken self.new) result bytes.now }
        ensures told { IsSome (taken self.old) ↔ IsSome (taken self.new) }
        ensures some { TakesSome result bytes.now }
        ensures empty { TakesNothing bytes.now result (self.new ≡ self.old) }
        ensures faults { CountsFault (faults self.old) (faults self.new) result };

    /// The count keeps within its end.
    ghost counted: { (sink : Self) → faults sink ≤ max_count };
}
