//! demo NUMBER WIDTH: what comes of the trial of a number.

ghost use Rattle.std.specs.Prelude.{◌≡◌, ◌≤◌, ◌<◌, [], length, get_or, true};
ghost use Rattle.da_words.specs.Commands.{is_trial_width};
ghost use Rattle.da_commands.specs.Demo.{number_line, trial_root_line, outcome_line, upheld_line, trial_lines, TellsTrial, DemoOf};
ghost use Rattle.da_status.specs.Outcome.{EndsAtOnce};

use da_demo::{Outcome, Trial, Upheld, trial};
use da_io::{Sink, write_all};
use da_status::{Line, Status, around, axis_note};
use std::alloc::Global;

/// How many lines tell of a trial.
const LINES: usize = 9;

/// The line of a number behind its name.
fn number_line(name: &[u8], number: u64) -> Line
    requires { length name.now ≤ 8 }
    ensures { result ≡ number_line name.now number }
{
    let mut line = Line::new();
    around(&mut line, name, number, b"\n");
    line
}

/// The line of a data root, in hexadecimal digits.
fn root_line(root: &[u8; 32]) -> Line
    ensures { result ≡ trial_root_line root.now }
{
    let mut digits = [0u8; 64];
    let _written = hex::encode_to_slice(root, &mut digits);
    let mut line = Line::new();
    line.put(b"root ");
    line.put(&digits);
    line.put(b"\n");
    line
}

/// The line of what a repair came to.
fn verdict_line(told: Outcome) -> Line
    ensures { result ≡ outcome_line told }
{
    let mut line = Line::new();
    match told {
        Outcome::Whole => line.put(b"verdict whole\n"),
        Outcome::Other => line.put(b"verdict whole other\n"),
        Outcome::Fraud(axis, i) => {
            line.put(b"verdict fraud ");
            line.put(axis_note(axis));
            around(&mut line, b"", u64::from(i), b"\n");
        }
        Outcome::Missing(count) => {
            around(&mut line, b"verdict missing ", u64::from(count), b"\n")
        }
        Outcome::Clash => line.put(b"verdict clash\n"),
    }
    line
}

/// The line of whether a fraud proof was accepted.
fn upheld_line(told: Upheld) -> Line
    ensures { result ≡ upheld_line told }
{
    let mut line = Line::new();
    match told {
        Upheld::Yes => line.put(b"upheld yes\n"),
        Upheld::No => line.put(b"upheld no\n"),
        Upheld::None => line.put(b"upheld none\n"),
    }
    line
}

/// A line of a trial.
fn line_at(trial: &Trial, i: usize) -> Line
    requires { i < 9 }
    ensures { result ≡ get_or (trial_lines trial.now) i [] }
{
    let k = u64::from(trial.k);
    match i {
        0 => number_line(b"width ", k),
        1 => number_line(b"shares ", k * k),
        2 => number_line(b"blobs ", u64::from(trial.blobs)),
        3 => root_line(&trial.root),
        4 => number_line(b"proved ", trial.proved),
        5 => number_line(b"lies ", trial.lies),
        6 => verdict_line(trial.first),
        7 => verdict_line(trial.second),
        _ => upheld_line(trial.upheld),
    }
}

/// Writes the lines of a trial, one at a time. It takes no memory.
fn tell<O: Sink>(trial: &Trial, out: &mut O) -> Status
    ensures { EndsAtOnce (TellsTrial trial.now) (O.taken out.old) (O.taken out.new) (O.faults out.old)
        (O.faults out.new) (out.new ≡ out.old) result }
{
    for i in 0..LINES {
        let line = line_at(trial, i);
        let Ok(()) = write_all(out, line.as_bytes()) else {
            return Status::WriteFault;
        };
    }
    Status::Done
}

/// Answers the lines of the number's trial in this width. All memory is taken, and all is computed,
/// before the first line.
pub(crate) fn execute<O: Sink>(alloc: Global, number: u64, k: u16, out: &mut O) -> Status
    requires width { is_trial_width k ≡ true }
    ensures { EndsAtOnce (DemoOf number k) (O.taken out.old) (O.taken out.new) (O.faults out.old)
        (O.faults out.new) (out.new ≡ out.old) result }
{
    match trial(alloc, number, k) {
        Ok(trial) => tell(&trial, out),
        Err(_) => Status::NoMemory,
    }
}
