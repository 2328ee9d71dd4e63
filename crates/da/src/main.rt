//! `da COMMAND WORDS`: runs one command over files, with its output on standard output and a note on
//! standard error, and ends with its status.
//!
//! A request for memory can be refused, and is told by a status. A stack that can't grow ends a program by a signal. So the
//! stack that the deepest command takes is asked for as memory first, given back, and touched before the command begins.
#![tactic(auto)]

ghost use Rattle.std.specs.Prelude.{◌≤◌, ◌<◌};

#[cfg(test)]
mod tests;

use da_cli::{Status, run};
use da_conversing::{converse, is_talk};
use da_io::{Blocking, FileInputs, OutSink};
use std::alloc::Global;
use std::env;
use std::io::ErrorKind;
use std::process::ExitCode;

/// The status of a program whose words can't be collected: nothing is read or printed.
fn status_of(error: ErrorKind) -> Status {
    if error == ErrorKind::OutOfMemory {
        Status::NoMemory
    } else {
        Status::Usage
    }
}

/// The bytes of stack that are touched, more than the deepest command takes.
const STACK: usize = 896 * 1024;

/// Touches the stack down to its depth. A place of the room that the caller alone knows is written and another is read, so
/// that the room is there; what is read says nothing.
#[inline(never)]
fn touch_stack(at: usize) -> u8
    requires low { 1 ≤ at }
    requires high { at < STACK }
{
    let mut room = [0u8; STACK];
    room[at] = 1;
    room[STACK - at]
}

/// Touches the stack, where there is so much memory; whether there is.
fn has_stack(alloc: Global, words: usize) -> bool {
    let Ok(room) = Vec::<u8>::with_capacity(alloc, STACK) else {
        return false;
    };
    drop(room);
    touch_stack(1 + words % (STACK - 1)) <= 1
}

/// Runs the words over real files and streams. It is a call of its own, so that what its frame takes isn't taken before the
/// stack was touched.
#[inline(never)]
fn answer(rt: &HostRuntime, words: &[String]) -> Status {
    let mut inputs = FileInputs::new(rt);
    let mut out = OutSink::new(Blocking::new(rt, rt.stdout()));
    let mut notes = OutSink::new(Blocking::new(rt, rt.stderr()));
    if is_talk(words) {
        return converse(rt.alloc(), words, &mut inputs, &mut out, &mut notes);
    }
    run(rt.alloc(), words, &mut inputs, &mut out, &mut notes)
}

fn main(rt: HostRuntime) -> ExitCode {
    let words = match env::args(&rt) {
        Ok(words) => words,
        Err(error) => return ExitCode::from(status_of(error.kind()).number()),
    };
    let Ok(words) = words.skip(1).collect::<Vec<String>>(rt.alloc()) else {
        return ExitCode::from(Status::NoMemory.number());
    };
    if !has_stack(rt.alloc(), words.len()) {
        return ExitCode::from(Status::NoMemory.number());
    }
    ExitCode::from(answer(&rt, &words).number())
}
