//! Of files that are read and written whole, where their bytes are told.

ghost use Rattle.std.specs.Prelude.{◌≡◌, ◌<◌, Result, IsSome, IfOk, IsErr, IsErrOf, OnOk};
ghost use Rattle.da_io.specs.declared.whole.InputFault.TheVariants.{TooLong};

use da_io::{InputFault, Inputs, Sink, WriteFailed, read_all, write_all};
use std::alloc::Global;

/// A file has one content, and where it is too long none.
pub fn read_all_twice<I: Inputs>(
    alloc: Global,
    one: &mut I,
    other: &mut I,
    limit: u64,
) -> (Result<Vec<u8>, InputFault>, Result<Vec<u8>, InputFault>)
    requires told { IsSome (I.rest one.old) }
    requires same { I.rest other.old ≡ I.rest one.old }
    ensures content { IfOk result.0 (λ first. IfOk result.1 (λ second. first.items ≡ second.items)) }
    ensures too_long { IsErrOf result.0 (TooLong limit) → IsErr result.1 }
{
    let first = read_all(alloc, one, limit);
    let second = read_all(alloc, other, limit);
    (first, second)
}

/// An output takes bytes in one way.
pub fn write_all_twice<O: Sink>(
    one: &mut O,
    other: &mut O,
    bytes: &[u8],
) -> (Result<(), WriteFailed>, Result<(), WriteFailed>)
    requires same { O.taken other.old ≡ O.taken one.old }
    ensures state { IsSome (O.taken one.old) → OnOk result.0 (OnOk result.1 (O.taken one.new ≡ O.taken other.new)) }
{
    let first = write_all(one, bytes);
    let second = write_all(other, bytes);
    (first, second)
}
