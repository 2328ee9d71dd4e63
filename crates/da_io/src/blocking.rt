//! Streams of the system whose reads and writes block: they wait until bytes come or are taken.

ghost use Rattle.std.specs.Prelude.{◌≡◌, ◌≢◌, ◌⊎◌, ◌↔◌, IsTrue, IfErr};
ghost use Rattle.std.specs.Io.{ReadsAtMost, WritesAtMost};
ghost use Rattle.std.specs.Io.KnownBytes.{ReadConsumes, WriteAppends};
ghost use Rattle.std.specs.IoError.{error_kind};

use std::io::{Error, ErrorKind, Read, Result, Write};
use std::thread;
use std::time::Duration;

/// The first wait for a stream that doesn't block, in microseconds, and the longest.
const FIRST_WAIT: u64 = 100;

const LONGEST_WAIT: u64 = 51_200;

/// A stream of the system whose reads and writes wait until bytes come or are taken.
///
/// A call that a signal interrupts is made again. So is one that would have to wait where the stream doesn't block, after a
/// while of sleep: 0.1 ms at first, then twice as long each time, up to 51.2 ms. The stream's mode is left as it is.
#[derive(Drop)]
pub struct Blocking<'a, S: Drop> {
    rt: &'a HostRuntime,
    stream: S,
}

impl<'a, S: Drop> Blocking<'a, S> {
    /// The stream, in the mode that it has.
    pub fn new(rt: &'a HostRuntime, stream: S) -> Blocking<'a, S>
        ensures { result.stream ≡ stream }
    {
        Blocking { rt, stream }
    }

    /// The stream itself.
    pub fn stream(&self) -> &S
        ensures { result.now ≡ self.now.stream }
    {
        &self.stream
    }
}

/// Sleeps, and answers how long to sleep the next time.
fn sleep(rt: &HostRuntime, micros: u64) -> u64 {
    thread::sleep(rt, Duration::from_micros(micros));
    micros.saturating_mul(2).min(LONGEST_WAIT)
}

/// Whether a call that failed with this error is to be made again: it would have to wait, which it does here, or a signal came.
fn is_tried_again(rt: &HostRuntime, micros: &mut u64, error: &Error) -> bool
    ensures { IsTrue result ↔ (error_kind error.now ≡ ErrorKind.Interrupted) ⊎ (error_kind error.now ≡ ErrorKind.WouldBlock) }
{
    match error.kind() {
        ErrorKind::Interrupted => true,
        ErrorKind::WouldBlock => {
            *micros = sleep(rt, *micros);
            true
        }
        _ => false,
    }
}

/// The error of a call that was made as often as can be counted.
fn too_often() -> Error
    ensures { error_kind result ≡ ErrorKind.TimedOut }
{
    Error::from(ErrorKind::TimedOut)
}

impl<S: Read + Drop> Read for Blocking<'_, S> {
    ghost remaining = { λ w. S.remaining w.stream };

    /// Reads what is there, or waits until something is.
    fn read(&mut self, buf: &mut [u8]) -> Result<usize>
        ensures bound { ReadsAtMost result buf.new }
        ensures bytes { ReadConsumes (S.remaining self.old.stream) (S.remaining self.new.stream) result buf.new }

        // That a signal came, or that nothing is there yet, is no failure.
        ensures interrupted { IfErr result (λ e. error_kind e ≢ ErrorKind.Interrupted) }
        ensures waited { IfErr result (λ e. error_kind e ≢ ErrorKind.WouldBlock) }
    {
        let mut micros = FIRST_WAIT;
        for _ in 0..u64::MAX {
            match self.stream.read(buf) {
                Ok(count) => return Ok(count),
                Err(error) => {
                    if !is_tried_again(self.rt, &mut micros, &error) {
                        return Err(error);
                    }
                }
            }
        }
        Err(too_often())
    }
}

impl<S: Write + Drop> Write for Blocking<'_, S> {
    ghost contents = { λ w. S.contents w.stream };

    /// Writes what there is room for, or waits until there is some.
    fn write(&mut self, buf: &[u8]) -> Result<usize>
        ensures bound { WritesAtMost result buf.now }
        ensures bytes { WriteAppends (S.contents self.old.stream) (S.contents self.new.stream) result buf.now }

        // That a signal came, or that there is no room yet, is no failure.
        ensures interrupted { IfErr result (λ e. error_kind e ≢ ErrorKind.Interrupted) }
        ensures waited { IfErr result (λ e. error_kind e ≢ ErrorKind.WouldBlock) }
    {
        let mut micros = FIRST_WAIT;
        for _ in 0..u64::MAX {
            match self.stream.write(buf) {
                Ok(count) => return Ok(count),
                Err(error) => {
                    if !is_tried_again(self.rt, &mut micros, &error) {
                        return Err(error);
                    }
                }
            }
        }
        Err(too_often())
    }

    fn flush(&mut self) -> Result<()> {
        self.stream.flush()
    }
}
