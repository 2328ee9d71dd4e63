//! Of rows of which one half is at hand.

ghost use Rattle.std.specs.Prelude.{◌≡◌, ◌<◌, Result};
ghost use Rattle.half_rows.specs.declared.samples.RowError.TheVariants.{NoMemory as Full};
ghost use Rattle.one_answer.specs.Ones.{AreOne};

use celestia_pb::HalfRow;
use half_rows::{RowError, RowSamples, row_laws, row_samples};
use std::alloc::Global;

/// A half is of one row.
pub fn row_samples_twice(
    alloc: Global,
    row: u16,
    half: HalfRow,
    copy: HalfRow,
) -> (Result<RowSamples, RowError>, Result<RowSamples, RowError>)
    requires copy { copy ≡ half }
    ensures { AreOne (λ x. x) Full result.0 result.1 }
{
    row_laws();
    let first = row_samples(alloc, row, half);
    let second = row_samples(alloc, row, copy);
    (first, second)
}
