//! A line that tells its events.

ghost use Rattle.std.specs.Prelude.{◌≡◌, IfSome};
ghost use Rattle.da_talk.specs.Events.{heard, said};
ghost use Rattle.da_talk.specs.Logs.{logged, logged_event, Lengthens};

use crate::Line;
use da_io::{ReadFailed, WriteFailed};
use std::alloc::Global;

/// What happened on a line.
#[derive(Debug, Drop)]
pub enum Happened {
    /// These bytes were heard, none at the end or where hearing failed.
    Heard(Vec<u8>),
    /// These bytes were said.
    Said(Vec<u8>),
}

/// A line that logs what happens on another. Where there is no memory for the log, or a failure hides
/// how much was said, it tells nothing from then on.
#[derive(Drop)]
pub struct Logged<L: Line + Drop> {
    alloc: Global,
    line: L,
    log: Option<Vec<Happened>>,
}

/// A log with one event more, where there is memory for it.
fn longer(log: Option<Vec<Happened>>, event: Option<Happened>) -> Option<Vec<Happened>>
    ensures { Lengthens (logged log) (logged result) event }
{
    let event = event?;
    let mut log = log?;
    match log.push(event) {
        Ok(()) => Some(log),
        Err(_) => None,
    }
}

/// That these bytes were heard.
fn heard_event(alloc: Global, bytes: &[u8]) -> Option<Happened>
    ensures { IfSome result (λ h. logged_event h ≡ heard bytes.now) }
{
    match Vec::from_slice(alloc, bytes) {
        Ok(copy) => Some(Happened::Heard(copy)),
        Err(_) => None,
    }
}

/// That these bytes were said.
fn said_event(alloc: Global, bytes: &[u8]) -> Option<Happened>
    ensures { IfSome result (λ h. logged_event h ≡ said bytes.now) }
{
    match Vec::from_slice(alloc, bytes) {
        Ok(copy) => Some(Happened::Said(copy)),
        Err(_) => None,
    }
}

impl<L: Line + Drop> Logged<L> {
    ghost use Rattle.std.specs.Prelude.{Some, []};

    /// A line on which nothing happened yet.
    pub fn new(alloc: Global, line: L) -> Logged<L>
        ensures line { result.line ≡ line }
        ensures events { ⟦<Logged<L> as Line>⟧.events result ≡ Some [] }
    {
        Logged {
            alloc,
            line,
            log: Some(Vec::new(alloc)),
        }
    }

    /// What happened so far, in its order, where that is told.
    pub fn log(&self) -> &Option<Vec<Happened>>
        ensures { result.now ≡ self.now.log }
    {
        &self.log
    }
}

impl<L: Line + Drop> Line for Logged<L> {
    ghost events = { λ m. logged m.log };

    ghost rest = { λ m. L.rest m.line };

    ghost taken = { λ m. L.taken m.line };

    ghost given = { λ m. L.given m.line };

    ghost ended = { λ m. L.ended m.line };

    ghost read_faults = { λ m. L.read_faults m.line };

    ghost write_faults = { λ m. L.write_faults m.line };

    ghost stays = { λ a b. L.stays a.line b.line };

    ghost counted = { λ m. L.counted m.line };

    ghost stays_none = { λ m. L.stays_none m.line };

    ghost stays_on = { λ a b c. L.stays_on a.line b.line c.line };

    fn hear(&mut self, buf: &mut [u8]) -> Result<usize, ReadFailed> {
        let log = self.log.take();
        match self.line.hear(buf) {
            Ok(count) => {
                self.log = longer(log, heard_event(self.alloc, &buf[..count]));
                Ok(count)
            }
            Err(why) => {
                self.log = longer(log, heard_event(self.alloc, &[]));
                Err(why)
            }
        }
    }

    fn say(&mut self, bytes: &[u8]) -> Result<(), WriteFailed> {
        let log = self.log.take();
        self.line.say(bytes)?;
        self.log = longer(log, said_event(self.alloc, bytes));
        Ok(())
    }
}
