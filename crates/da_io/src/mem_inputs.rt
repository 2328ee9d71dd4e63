//! Files in memory, which tell their bytes and fail where they are told to.

ghost use Rattle.std.specs.Prelude.{◌≡◌, ◌<◌, ◌≤◌, ◌+◌, ◌^◌, ◌++◌, min, length, take, drop, vec_len};
ghost use Rattle.da_io.specs.declared.inputs.LastCall.TheVariants.{Fine};
ghost use Rattle.da_io.specs.Faults.{max_count};
ghost use Rattle.da_io.specs.Files.{file_at, rest_in, place_of};

use crate::{Inputs, LastCall, PickFailed, ReadFailed};

/// Files in memory. A name means the first file that has it.
///
/// Picks and reads are numbered together from 0, up to 2^64 - 1, where the count stops.
#[derive(Drop)]
pub struct MemInputs {
    /// The names of the files.
    pub names: Vec<String>,
    /// The contents of the files, in the order of the names.
    pub contents: Vec<Vec<u8>>,
    /// How many bytes a read gives at most.
    pub piece: usize,
    /// The numbers of the calls that fail.
    pub fail: Vec<u64>,
    file: Option<usize>,
    place: usize,
    calls: u64,
    picked: Option<String>,
    ended: LastCall,
    given: u64,
    faults: u64,
    picks: u64,
    ghost takes: { 0 < piece },
    ghost few_given: { given ≤ max_count },
    ghost few_faults: { faults ≤ max_count },
    ghost few_picks: { picks ≤ max_count },
}

impl MemInputs {
    ghost use Rattle.std.specs.Prelude.{None, Some, []};
    ghost use Rattle.da_io.specs.Files.{files_in};

    /// Files with these names and contents, none of them picked. Each read gives at most `piece`
    /// bytes, and the calls with a number in `fail` fail.
    ///
    /// Names may stand twice: the second file of a name is never picked.
    pub fn new(
        names: Vec<String>,
        contents: Vec<Vec<u8>>,
        piece: usize,
        fail: Vec<u64>,
    ) -> MemInputs
        requires count { vec_len names ≡ vec_len contents }
        requires piece { 0 < piece }

        // What comes in is what is kept.
        ensures names { result.names.items ≡ names.items }
        ensures contents { result.contents.items ≡ contents.items }
        ensures piece { result.piece ≡ piece }
        ensures fail { result.fail.items ≡ fail.items }
        ensures files { ⟦<MemInputs as Inputs>⟧.files result ≡
            Some (files_in names.items contents.items) }

        // Nothing has happened yet.
        ensures calls { result.calls ≡ 0 }
        ensures rest { ⟦<MemInputs as Inputs>⟧.rest result ≡ Some [] }
        ensures picked { ⟦<MemInputs as Inputs>⟧.picked result ≡ None }
        ensures ended { ⟦<MemInputs as Inputs>⟧.ended result ≡ Fine }
        ensures faults { ⟦<MemInputs as Inputs>⟧.faults result ≡ 0 }
        ensures given { ⟦<MemInputs as Inputs>⟧.given result ≡ 0 }
        ensures picks { ⟦<MemInputs as Inputs>⟧.picks result ≡ 0 }
    {
        MemInputs {
            names,
            contents,
            piece,
            fail,
            file: None,
            place: 0,
            calls: 0,
            picked: None,
            ended: LastCall::Fine,
            given: 0,
            faults: 0,
            picks: 0,
        }
    }
}

/// The place of a name in a list.
fn place_of(names: &[String], name: &str) -> Option<usize>
    ensures { result ≡ place_of names.now name.now }
{
    names.iter().position(|n| n.as_str() == name)
}

/// The bytes of a file, none where there is no such file.
fn file_at(contents: &[Vec<u8>], i: usize) -> &[u8]
    ensures { result.now ≡ file_at contents.now i }
{
    match contents.get(i) {
        Some(content) => content,
        None => &[],
    }
}

/// What is left of a file.
fn rest_in(contents: &[Vec<u8>], file: Option<usize>, place: usize) -> &[u8]
    ensures rest { result.now ≡ rest_in contents.now file place }
    ensures end { place + length result.now < 2 ^ 64 }
{
    let Some(file) = file else {
        return &[];
    };
    let content = file_at(contents, file);
    if place >= content.len() {
        return &[];
    }
    &content[place..]
}

/// Copies as many bytes to the front of a buffer as a piece and the buffer hold.
fn copy_some(rest: &[u8], piece: usize, buf: &mut [u8]) -> usize
    ensures count { result ≡ min (min piece (length buf.new)) (length rest.now) }
    ensures bytes { rest.now ≡ take result buf.new ++ drop result rest.now }
{
    let count = piece.min(buf.len()).min(rest.len());
    buf[..count].copy_from_slice(&rest[..count]);
    count
}

impl Inputs for MemInputs {
    ghost use Rattle.std.specs.Prelude.{◌↔◌, ◌⊎◌, None, Some, Contains, IsErr, IfOk, refl};
    ghost use Rattle.std.specs.String.{string_bytes};
    ghost use Rattle.std.specs.Io.{ReadsAtMost};
    ghost use Rattle.std.specs.Io.KnownBytes.{ReadConsumes};
    ghost use Rattle.da_io.specs.Faults.{count_on, CountsFault, GivesCounted, pick_end, read_end};
    ghost use Rattle.da_io.specs.Files.{Picks};
    ghost use Rattle.da_io.specs.Memory.{files_of, rest_of, picked_of};

    ghost files = { λ m. files_of m };

    ghost rest = { λ m. rest_of m };

    ghost picked = { λ m. picked_of m };

    ghost ended = { λ m. m.ended };

    ghost faults = { λ m. m.faults };

    ghost given = { λ m. m.given };

    ghost picks = { λ m. m.picks };

    ghost counted = { λ m. (m.few_given, m.few_faults, m.few_picks) };

    ghost told = { λ m. (λ _. refl, λ _. refl) };

    /// Fails exactly where its number is in `fail` or no file has the name.
    fn pick(&mut self, name: String) -> Result<(), PickFailed>
        ensures picked { picked_of self.new ≡ Some (string_bytes name) }
        ensures ended { self.new.ended ≡ pick_end result }
        ensures files { files_of self.new ≡ files_of self.old }
        ensures given { self.new.given ≡ 0 }
        ensures picks { self.new.picks ≡ count_on self.old.picks 1 }
        ensures rest { Picks (files_of self.old) (string_bytes name) (rest_of self.new) result }
        ensures faults { CountsFault self.old.faults self.new.faults result }

        // When it fails, both ways.
        ensures fails { IsErr result ↔ (Contains self.old.fail.items self.old.calls)
            ⊎ (place_of self.old.names.items (string_bytes name) ≡ None) }
        ensures calls { self.new.calls ≡ count_on self.old.calls 1 }

        // What it was made of stays.
        ensures names { self.new.names.items ≡ self.old.names.items }
        ensures contents { self.new.contents.items ≡ self.old.contents.items }
        ensures piece { self.new.piece ≡ self.old.piece }
        ensures fail { self.new.fail.items ≡ self.old.fail.items }
    {
        let fails = self.fail.contains(&self.calls);
        self.calls = self.calls.saturating_add(1);
        let place = place_of(&self.names, name.as_str());
        self.picked = Some(name);
        self.file = None;
        self.place = 0;
        self.given = 0;
        self.picks = self.picks.saturating_add(1);
        self.ended = LastCall::PickFailed;
        if fails {
            self.faults = self.faults.saturating_add(1);
            return Err(PickFailed);
        }
        let Some(file) = place else {
            self.faults = self.faults.saturating_add(1);
            return Err(PickFailed);
        };
        self.file = Some(file);
        self.ended = LastCall::Fine;
        Ok(())
    }

    /// How many bytes are left of the picked file.
    fn size(&self) -> u64 {
        rest_in(&self.contents, self.file, self.place).len() as u64
    }

    /// Fails exactly where its number is in `fail`, and else gives as many bytes as a piece, the
    /// buffer and what is left allow.
    fn read(&mut self, buf: &mut [u8]) -> Result<usize, ReadFailed>
        ensures bound { ReadsAtMost result buf.new }
        ensures given { GivesCounted self.old.given self.new.given result }
        ensures picks { self.new.picks ≡ self.old.picks }
        ensures rest { ReadConsumes (rest_of self.old) (rest_of self.new) result buf.new }
        ensures picked { picked_of self.new ≡ picked_of self.old }
        ensures ended { self.new.ended ≡ read_end result }
        ensures files { files_of self.new ≡ files_of self.old }
        ensures faults { CountsFault self.old.faults self.new.faults result }

        // When it fails, both ways, and how much it gives.
        ensures fails { IsErr result ↔ Contains self.old.fail.items self.old.calls }
        ensures count { IfOk result (λ count. count ≡ min (min self.old.piece (length buf.new))
            (length (rest_in self.old.contents.items self.old.file self.old.place))) }
        ensures calls { self.new.calls ≡ count_on self.old.calls 1 }

        // What it was made of stays, and so does the file.
        ensures names { self.new.names.items ≡ self.old.names.items }
        ensures contents { self.new.contents.items ≡ self.old.contents.items }
        ensures piece { self.new.piece ≡ self.old.piece }
        ensures fail { self.new.fail.items ≡ self.old.fail.items }
        ensures file { self.new.file ≡ self.old.file }
    {
        let fails = self.fail.contains(&self.calls);
        self.calls = self.calls.saturating_add(1);
        if fails {
            self.ended = LastCall::ReadFailed;
            self.faults = self.faults.saturating_add(1);
            return Err(ReadFailed);
        }
        self.ended = LastCall::Fine;
        let rest = rest_in(&self.contents, self.file, self.place);
        let count = copy_some(rest, self.piece, buf);
        self.place += count;
        self.given = self.given.saturating_add(count as u64);
        Ok(count)
    }
}
