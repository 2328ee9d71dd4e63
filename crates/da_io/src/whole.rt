//! A whole file, a whole piece.

ghost use Rattle.std.specs.Prelude.{◌≡◌, IsSome, ◌↔◌, IfOk, []};
ghost use Rattle.std.specs.Io.KnownBytes.{IsAtEnd};
ghost use Rattle.da_io.specs.Faults.{count_on, CountsFault};
ghost use Rattle.da_io.specs.Sinks.{WritesAll};
ghost use Rattle.da_io.specs.Whole.{ReadsAll, TakesFromFront, last_end, read_faults};

use crate::{Inputs, Sink, WriteFailed};
use std::alloc::Global;
use thiserror::Error;

/// How many bytes a read of a file asks for at once.
///
/// Each read is a call of the system, so larger pieces make fewer of them. A piece of this size still stands
/// on the stack, and needs no memory that might not be had.
pub const PIECE_SIZE: usize = 65_536;

/// There was no memory.
#[derive(Clone, Copy, Debug, PartialEq, Eq, Error)]
#[error("out of memory")]
pub struct NoMemory;

/// Why a file was not read whole.
#[derive(Clone, Copy, Debug, PartialEq, Eq, Error)]
pub enum InputFault {
    /// A read failed.
    #[error("the file cannot be read")]
    ReadFailed,
    /// More bytes came than this limit.
    #[error("the file has more than {0} bytes")]
    TooLong(u64),
    /// There was no memory for the bytes.
    #[error("out of memory")]
    NoMemory,
}

/// A list with capacity for as many bytes as a file tells, where these are within the limit and there is memory for
/// them. So one that tells its size takes no memory but that, and its list doesn't grow while it is read.
fn room(alloc: Global, size: u64, limit: u64) -> Vec<u8>
    ensures { result.items ≡ [] }
{
    if size > limit {
        return Vec::new(alloc);
    }
    match Vec::with_capacity(alloc, size as usize) {
        Ok(room) => room,
        Err(_) => Vec::new(alloc),
    }
}

/// Reads what is left of the picked file to its end, at most `limit` bytes.
///
/// Fails at the first read that fails; then where more than `limit` bytes came, before any of
/// those past it are kept; then where memory runs out. With every answer the bytes that came are
/// gone from the front of what was left; only `Ok` hands them over.
pub fn read_all<I: Inputs>(alloc: Global, inputs: &mut I, limit: u64) -> Result<Vec<u8>, InputFault>
    // Where the bytes are told: all of them or, past the limit, `TooLong`.
    ensures content { ReadsAll (I.rest inputs.old) limit result }

    // Told or not: what came, how much it was, and the answer to that.
    ensures taken { TakesFromFront (I.rest inputs.old) (I.rest inputs.new) (I.given inputs.old)
        (I.given inputs.new) limit result }
    ensures end { IfOk result (λ _. IsAtEnd (I.rest inputs.new)) }

    // A failed read is answered exactly where one happened, and it was the last call.
    ensures faults { I.faults inputs.new ≡ count_on (I.faults inputs.old) (read_faults result) }
    ensures ended { I.ended inputs.new ≡ last_end result }

    // What stays.
    ensures picked { I.picked inputs.new ≡ I.picked inputs.old }
    ensures picks { I.picks inputs.new ≡ I.picks inputs.old }
    ensures files { I.files inputs.new ≡ I.files inputs.old }
{
    let mut content = room(alloc, inputs.size(), limit);
    let mut buf = [0; PIECE_SIZE];
    loop {
        let Ok(count) = inputs.read(&mut buf) else {
            return Err(InputFault::ReadFailed);
        };
        if count == 0 {
            return Ok(content);
        }
        if count as u64 > limit - content.len() as u64 {
            return Err(InputFault::TooLong(limit));
        }
        if content.extend_from_slice(&buf[..count]).is_err() {
            return Err(InputFault::NoMemory);
        }
    }
}

/// Gives a piece to a sink, all of it unless a write fails. It takes no memory.
///
/// After a failure a proper prefix of the piece was taken, so it never fails on an empty one.
pub fn write_all<O: Sink>(out: &mut O, bytes: &[u8]) -> Result<(), WriteFailed>
    ensures taken { WritesAll (O.taken out.old) (O.taken out.new) bytes.now result }
    ensures told { IsSome (O.taken out.old) ↔ IsSome (O.taken out.new) }
    ensures faults { CountsFault (O.faults out.old) (O.faults out.new) result }
{
    let mut at = 0;
    while at < bytes.len() {
        let Ok(count) = out.write(&bytes[at..]) else {
            return Err(WriteFailed);
        };
        at += count;
    }
    Ok(())
}
