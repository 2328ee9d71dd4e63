//! Files of the system, which tell nothing of their bytes.

ghost use Rattle.std.specs.Prelude.{◌≡◌, ◌≤◌};
ghost use Rattle.std.specs.Io.{ReadsAtMost};
ghost use Rattle.std.specs.Io.KnownBytes.{ReadConsumes};
ghost use Rattle.da_io.specs.Faults.{max_count};
ghost use Rattle.da_io.specs.Files.{is_standard_input};

use crate::{Blocking, Inputs, LastCall, PickFailed, ReadFailed};
use std::fs::File;
use std::io::{Read, Stdin};
use std::os::fd::AsFd;
use std::{fs, io};

/// What a pick opened.
#[derive(Drop)]
enum Source<'a> {
    /// A file, by its path.
    Path(Blocking<'a, File>),
    /// The standard input that the process has.
    Standard(Blocking<'a, Stdin>),
}

/// Files of the system, by their paths, and the standard input that the process has.
///
/// Where none is open, a read gives the end.
#[derive(Drop)]
pub struct FileInputs<'a> {
    rt: &'a HostRuntime,
    file: Option<Source<'a>>,
    picked: Option<String>,
    ended: LastCall,
    given: u64,
    faults: u64,
    picks: u64,
    ghost few_given: { given ≤ max_count },
    ghost few_faults: { faults ≤ max_count },
    ghost few_picks: { picks ≤ max_count },
}

impl<'a> FileInputs<'a> {
    ghost use Rattle.std.specs.Prelude.{◌≡◌, None};
    ghost use Rattle.da_io.specs.declared.inputs.LastCall.TheVariants.{Fine};
    ghost use Rattle.da_io.specs.Faults.{CountsFault, GivesCounted, read_end};

    /// The files of the system, none of them picked.
    pub fn new(rt: &'a HostRuntime) -> FileInputs<'a>
        ensures picked { ⟦<FileInputs<'a> as Inputs>⟧.picked result ≡ None }
        ensures ended { ⟦<FileInputs<'a> as Inputs>⟧.ended result ≡ Fine }
        ensures faults { ⟦<FileInputs<'a> as Inputs>⟧.faults result ≡ 0 }
        ensures given { ⟦<FileInputs<'a> as Inputs>⟧.given result ≡ 0 }
        ensures picks { ⟦<FileInputs<'a> as Inputs>⟧.picks result ≡ 0 }
    {
        FileInputs {
            rt,
            file: None,
            picked: None,
            ended: LastCall::Fine,
            given: 0,
            faults: 0,
            picks: 0,
        }
    }

    /// Counts what a read answered, and hands it on.
    fn settle(&mut self, answer: Result<usize, ReadFailed>) -> Result<usize, ReadFailed>
        ensures answer { result ≡ answer }
        ensures given { GivesCounted self.old.given self.new.given answer }
        ensures ended { self.new.ended ≡ read_end answer }
        ensures faults { CountsFault self.old.faults self.new.faults answer }
        ensures picks { self.new.picks ≡ self.old.picks }
        ensures picked { self.new.picked ≡ self.old.picked }
    {
        match answer {
            Ok(count) => {
                self.given = self.given.saturating_add(count as u64);
                self.ended = LastCall::Fine;
            }
            Err(_) => {
                self.ended = LastCall::ReadFailed;
                self.faults = self.faults.saturating_add(1);
            }
        }
        answer
    }
}

/// Whether a name means the standard input that the process has: `-` and `/dev/stdin` do. Any other name is a path.
pub fn is_standard_input(name: &str) -> bool
    ensures { result ≡ is_standard_input name.now }
{
    name == "-" || name == "/dev/stdin"
}

/// Standard input, from where it stands, or an error where the process has none. It is asked for by a second descriptor of it, which
/// is given back.
fn open_standard(rt: &HostRuntime) -> io::Result<Source<'_>> {
    let stdin = rt.stdin();
    stdin.as_fd().try_clone_to_owned()?;
    Ok(Source::Standard(Blocking::new(rt, stdin)))
}

/// Opens what a name means: standard input, or the file with this path.
fn open<'a>(rt: &'a HostRuntime, name: &str) -> io::Result<Source<'a>> {
    if is_standard_input(name) {
        return open_standard(rt);
    }
    Ok(Source::Path(Blocking::new(rt, File::open(rt, name)?)))
}

/// The size that the system tells of what is open, 0 where it tells none.
fn told_size(rt: &HostRuntime, source: &Source<'_>) -> u64 {
    let found = match source {
        Source::Path(file) => file.stream().metadata(),
        Source::Standard(_) => fs::metadata(rt, "/dev/stdin"),
    };
    match found {
        Ok(found) => found.len(),
        Err(_) => 0,
    }
}

/// Reads once: what a stream gives is what is answered.
fn read_once<R: Read>(reader: &mut R, buf: &mut [u8]) -> Result<usize, ReadFailed>
    ensures bound { ReadsAtMost result buf.new }
    ensures bytes { ReadConsumes (R.remaining reader.old) (R.remaining reader.new) result buf.new }
{
    match reader.read(buf) {
        Ok(count) => Ok(count),
        Err(_) => Err(ReadFailed),
    }
}

impl Inputs for FileInputs<'_> {
    ghost use Rattle.std.specs.Prelude.{◌≡◌, ◌↔◌, None, Some, IsOk, IsSome};
    ghost use Rattle.std.specs.String.{string_bytes};
    ghost use Rattle.da_io.specs.Faults.{count_on, CountsFault, pick_end};
    ghost use Rattle.da_io.specs.Files.{name_bytes};

    ghost files = { λ f. None };

    ghost rest = { λ f. None };

    ghost picked = { λ f. name_bytes f.picked };

    ghost ended = { λ f. f.ended };

    ghost faults = { λ f. f.faults };

    ghost given = { λ f. f.given };

    ghost picks = { λ f. f.picks };

    ghost counted = { λ f. (f.few_given, f.few_faults, f.few_picks) };

    ghost told = { λ f. (λ h. h, λ h. h) };

    /// Opens the file with this path, or takes standard input from where it stands. What was open is closed first.
    fn pick(&mut self, name: String) -> Result<(), PickFailed>
        ensures picked { name_bytes self.new.picked ≡ Some (string_bytes name) }
        ensures ended { self.new.ended ≡ pick_end result }
        ensures given { self.new.given ≡ 0 }
        ensures picks { self.new.picks ≡ count_on self.old.picks 1 }
        ensures faults { CountsFault self.old.faults self.new.faults result }

        // A file is open exactly where the pick did not fail.
        ensures open { IsOk result ↔ IsSome self.new.file }
    {
        // A file that was opened where the process has no standard input took its number, and gives it back here.
        self.file = None;
        let opened = open(self.rt, name.as_str());
        self.picked = Some(name);
        self.given = 0;
        self.picks = self.picks.saturating_add(1);
        match opened {
            Ok(source) => {
                self.file = Some(source);
                self.ended = LastCall::Fine;
                Ok(())
            }
            Err(_) => {
                self.ended = LastCall::PickFailed;
                self.faults = self.faults.saturating_add(1);
                Err(PickFailed)
            }
        }
    }

    /// The size that the system tells of what is open; that of a pipe or a socket is 0.
    fn size(&self) -> u64 {
        match &self.file {
            Some(source) => told_size(self.rt, source),
            None => 0,
        }
    }

    /// Reads from what is open, and waits where nothing has come yet.
    fn read(&mut self, buf: &mut [u8]) -> Result<usize, ReadFailed> {
        let answer = match &mut self.file {
            Some(Source::Path(file)) => read_once(file, buf),
            Some(Source::Standard(stdin)) => read_once(stdin, buf),
            None => Ok(0),
        };
        self.settle(answer)
    }
}
