//! A sink in memory, which tells its bytes and fails where it is told to.

ghost use Rattle.std.specs.Prelude.{◌≡◌, ◌<◌, ◌≤◌, vec_capacity};
ghost use Rattle.da_io.specs.Faults.{max_count};

use crate::{NoMemory, Sink, WriteFailed};
use std::alloc::Global;

/// A sink in memory, with capacity for so many bytes.
///
/// Writes of pieces that aren't empty are numbered from 0, up to 2^64 - 1, where the count stops.
#[derive(Drop)]
pub struct MemSink {
    /// The bytes that were taken.
    pub bytes: Vec<u8>,
    room: usize,
    piece: usize,
    fail: Vec<u64>,
    calls: u64,
    faults: u64,
    ghost takes: { 0 < piece },
    ghost fits: { room ≤ vec_capacity bytes },
    ghost few_faults: { faults ≤ max_count },
}

impl MemSink {
    ghost use Rattle.std.specs.Prelude.{IfOk, []};

    /// An empty sink with capacity for `room` bytes. Each write takes at most `piece` bytes, and
    /// those with a number in `fail` fail.
    ///
    /// Takes the memory for all of its capacity at once.
    pub fn new(
        alloc: Global,
        room: usize,
        piece: usize,
        fail: Vec<u64>,
    ) -> Result<MemSink, NoMemory>
        requires piece { 0 < piece }

        // What comes in is what is kept.
        ensures room { IfOk result (λ sink. sink.room ≡ room) }
        ensures piece { IfOk result (λ sink. sink.piece ≡ piece) }
        ensures fail { IfOk result (λ sink. sink.fail.items ≡ fail.items) }

        // Nothing has happened yet.
        ensures empty { IfOk result (λ sink. sink.bytes.items ≡ []) }
        ensures calls { IfOk result (λ sink. sink.calls ≡ 0) }
        ensures faults { IfOk result (λ sink. sink.faults ≡ 0) }
    {
        let Ok(bytes) = Vec::with_capacity(alloc, room) else {
            return Err(NoMemory);
        };
        Ok(MemSink {
            bytes,
            room,
            piece,
            fail,
            calls: 0,
            faults: 0,
        })
    }
}

impl Sink for MemSink {
    ghost use Rattle.std.specs.Prelude.{◌-◌, ◌↔◌, ◌⊎◌, min, length, Some, IsSome, Contains, IsErr, IfOk};
    ghost use Rattle.std.specs.Io.{WritesAtMost};
    ghost use Rattle.std.specs.Io.KnownBytes.{WriteAppends};
    ghost use Rattle.da_io.specs.Faults.{count_on, CountsFault};
    ghost use Rattle.da_io.specs.Sinks.{TakesSome, TakesNothing};
    ghost use Rattle.da_io.specs.Memory.{taken_of};

    ghost taken = { λ m. taken_of m };

    ghost faults = { λ m. m.faults };

    ghost counted = { λ m. m.few_faults };

    /// Of a piece that isn't empty, fails exactly where its number is in `fail` or `room` bytes
    /// were taken, and else takes as many bytes as a piece and `room` allow.
    fn write(&mut self, bytes: &[u8]) -> Result<usize, WriteFailed>
        ensures bound { WritesAtMost result bytes.now }
        ensures taken { WriteAppends (taken_of self.old) (taken_of self.new) result bytes.now }
        ensures told { IsSome (taken_of self.old) ↔ IsSome (taken_of self.new) }
        ensures some { TakesSome result bytes.now }
        ensures empty { TakesNothing bytes.now result (self.new ≡ self.old) }
        ensures faults { CountsFault self.old.faults self.new.faults result }

        // When it fails, both ways, and how much it takes.
        ensures fails { IsErr result ↔ (0 < length bytes.now) ×
            ((Contains self.old.fail.items self.old.calls)
            ⊎ (self.old.room ≤ length self.old.bytes.items)) }
        ensures count { IfOk result (λ count. count ≡ min (min self.old.piece (length bytes.now))
            (self.old.room - length self.old.bytes.items)) }
        ensures calls { 0 < length bytes.now → self.new.calls ≡ count_on self.old.calls 1 }

        // What it was made of stays.
        ensures room { self.new.room ≡ self.old.room }
        ensures piece { self.new.piece ≡ self.old.piece }
        ensures fail { self.new.fail.items ≡ self.old.fail.items }
    {
        if bytes.is_empty() {
            return Ok(0);
        }
        let fails = self.fail.contains(&self.calls);
        self.calls = self.calls.saturating_add(1);
        if fails {
            self.faults = self.faults.saturating_add(1);
            return Err(WriteFailed);
        }
        if self.bytes.len() >= self.room {
            self.faults = self.faults.saturating_add(1);
            return Err(WriteFailed);
        }
        let count = self
            .piece
            .min(bytes.len())
            .min(self.room - self.bytes.len());
        self.bytes.extend_from_slice(&bytes[..count]).unwrap();
        Ok(count)
    }
}
