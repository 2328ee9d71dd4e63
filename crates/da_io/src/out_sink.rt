//! Streams of the system, which tell nothing of what they took.

ghost use Rattle.std.specs.Prelude.{◌≤◌};
ghost use Rattle.da_io.specs.Faults.{max_count};

use crate::{Sink, WriteFailed};
use std::io::Write;

/// A stream of the system, such as standard output.
///
/// Nothing is held back, so there is nothing to flush.
#[derive(Drop)]
pub struct OutSink<W: Write + Drop> {
    stream: W,
    faults: u64,
    ghost few_faults: { faults ≤ max_count },
}

impl<W: Write + Drop> OutSink<W> {
    ghost use Rattle.std.specs.Prelude.{◌≡◌};

    /// The stream, with no failed write yet.
    pub fn new(stream: W) -> OutSink<W>
        ensures faults { ⟦<OutSink<W> as Sink>⟧.faults result ≡ 0 }
    {
        OutSink { stream, faults: 0 }
    }
}

impl<W: Write + Drop> Sink for OutSink<W> {
    ghost use Rattle.std.specs.Prelude.{None, ◌≡◌};
    ghost use Rattle.std.specs.Io.{WritesAtMost};
    ghost use Rattle.std.specs.Io.KnownBytes.{WriteAppends};
    ghost use Rattle.da_io.specs.Faults.{CountsFault};
    ghost use Rattle.da_io.specs.Sinks.{TakesSome, TakesNothing};

    ghost taken = { λ s. None };

    ghost faults = { λ s. s.faults };

    ghost counted = { λ s. s.few_faults };

    /// Writes by one call of the system. None taken of a piece that isn't empty is a failure.
    fn write(&mut self, bytes: &[u8]) -> Result<usize, WriteFailed>
        ensures bound { WritesAtMost result bytes.now }
        ensures some { TakesSome result bytes.now }
        ensures empty { TakesNothing bytes.now result (self.new ≡ self.old) }
        ensures faults { CountsFault self.old.faults self.new.faults result }

        // What is answered is what the stream took.
        ensures stream { WriteAppends (W.contents self.old.stream) (W.contents self.new.stream)
            result bytes.now }
    {
        if bytes.is_empty() {
            return Ok(0);
        }
        match self.stream.write(bytes) {
            Ok(count) if count > 0 => Ok(count),
            _ => {
                self.faults = self.faults.saturating_add(1);
                Err(WriteFailed)
            }
        }
    }
}
