//! A room for lines on their way to a sink, which gives them on many at a time.

ghost use Rattle.std.specs.Prelude.{◌≡◌, ◌+◌, ◌≤◌, [], ◌++◌, length, IsOk, IsErr, IsSome, ◌↔◌};
ghost use Rattle.da_io.specs.Faults.{CountsFault};
ghost use Rattle.da_io.specs.Sinks.{Gathers, WritesAll};

use crate::{Sink, WriteFailed, write_all};
use std::marker::Model;

/// How many bytes a room has.
const SIZE: usize = 4096;

/// The bytes that are held back for a sink, at most 4,096. It takes no memory.
///
/// Contracts see the list of these bytes. They are lost where the room is let go and was not
/// flushed.
#[derive(Drop)]
pub struct LineRoom {
    bytes: [u8; 4096],
    held: usize,
}

impl Model for LineRoom {
    ghost use Rattle.std.specs.Prelude.{ℕ, List, ◌≤◌, take};

    ghost Value = { List ℕ };

    ghost view = { λ room. take room.held room.bytes };

    ghost invariant = { λ room. room.held ≤ 4096 };
}

impl LineRoom {
    /// The empty room.
    pub fn new() -> LineRoom
        ensures { result ≡ [] }
    {
        LineRoom {
            bytes: [0; 4096],
            held: 0,
        }
    }

    /// Holds a line that fits behind what is held.
    fn hold(&mut self, line: &[u8])
        requires { length self.old + length line.now ≤ 4096 }
        ensures { self.new ≡ self.old ++ line.now }
    {
        self.bytes[self.held..self.held + line.len()].copy_from_slice(line);
        self.held += line.len();
    }

    /// Gives the sink what is held, as one piece.
    ///
    /// Nothing is held afterwards: after a failure a proper prefix was taken, and the rest is lost.
    pub fn flush<O: Sink>(&mut self, out: &mut O) -> Result<(), WriteFailed>
        ensures taken { WritesAll (O.taken out.old) (O.taken out.new) self.old result }
        ensures told { IsSome (O.taken out.old) ↔ IsSome (O.taken out.new) }
        ensures faults { CountsFault (O.faults out.old) (O.faults out.new) result }
        ensures empty { self.new ≡ [] }

        // Where nothing is due, nothing changes.
        ensures none { self.old ≡ [] → IsOk result }
        ensures unchanged { self.old ≡ [] → out.new ≡ out.old }
    {
        if self.held == 0 {
            return Ok(());
        }
        let wrote = write_all(out, &self.bytes[..self.held]);
        self.held = 0;
        wrote
    }

    /// Adds a line to what is held. Where the room is too small for both, what is held is given to
    /// the sink first, and then a line that is longer than the room.
    ///
    /// After a failure nothing is held, and of what was held with the line behind it a proper
    /// prefix was taken.
    pub fn add<O: Sink>(&mut self, line: &[u8], out: &mut O) -> Result<(), WriteFailed>
        ensures taken { Gathers (O.taken out.old) (O.taken out.new) self.old self.new line.now
            result }
        ensures told { IsSome (O.taken out.old) ↔ IsSome (O.taken out.new) }
        ensures faults { CountsFault (O.faults out.old) (O.faults out.new) result }
        ensures lost { IsErr result → self.new ≡ [] }

        // Where both fit, the sink is left as it was.
        ensures none { length self.old + length line.now ≤ 4096 → IsOk result }
        ensures unchanged { length self.old + length line.now ≤ 4096 → out.new ≡ out.old }
    {
        if line.len() > SIZE - self.held {
            let Ok(()) = self.flush(out) else {
                return Err(WriteFailed);
            };
            if line.len() > SIZE {
                return write_all(out, line);
            }
        }
        self.hold(line);
        Ok(())
    }
}
