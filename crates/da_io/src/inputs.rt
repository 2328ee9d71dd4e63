//! Files that are picked by name and read from their front.

ghost use Rattle.std.specs.Prelude.{◌≡◌, ℕ, List, Some, IsSome, ◌↔◌, ◌≤◌};
ghost use Rattle.std.specs.declared.option.Option.{Option};
ghost use Rattle.std.specs.String.{string_bytes};
ghost use Rattle.std.specs.Io.{ReadsAtMost};
ghost use Rattle.std.specs.Io.KnownBytes.{ReadConsumes};
ghost use Rattle.da_io.specs.declared.inputs.LastCall.{LastCall};
ghost use Rattle.da_io.specs.Faults.{max_count, count_on, CountsFault, GivesCounted, pick_end, read_end};
ghost use Rattle.da_io.specs.Files.{Files, Picks};

use thiserror::Error;

/// A file was not picked.
#[derive(Clone, Copy, Debug, PartialEq, Eq, Error)]
#[error("the file cannot be opened")]
pub struct PickFailed;

/// The picked file was not read on.
#[derive(Clone, Copy, Debug, PartialEq, Eq, Error)]
#[error("the file cannot be read")]
pub struct ReadFailed;

/// How the last call on inputs ended.
#[derive(Clone, Copy, Debug, PartialEq, Eq)]
pub enum LastCall {
    /// It did not fail, or there was no call yet.
    Fine,
    /// A pick failed.
    PickFailed,
    /// A read failed.
    ReadFailed,
}

/// Files that are picked by name, one at a time, and read from their front.
///
/// What files there are and what is left of the picked one is told or not, always both alike.
pub trait Inputs {
    /// The files by name, where they are told. No call changes them, or whether they are told.
    ghost files: { Self → Option Files };

    /// The unread bytes of the picked file, told where the files are. No bytes before the first
    /// pick.
    ghost rest: { Self → Option (List ℕ) };

    /// The name that was given to the last pick, whether it failed or not; none before the first.
    ghost picked: { Self → Option (List ℕ) };

    /// How the last call ended.
    ghost ended: { Self → LastCall };

    /// How many calls have failed. The count stops at 2^64 - 1.
    ghost faults: { Self → ℕ };

    /// How many bytes reads gave since the last pick. The count stops at 2^64 - 1.
    ghost given: { Self → ℕ };

    /// How many picks there were, failed ones too. The count stops at 2^64 - 1.
    ghost picks: { Self → ℕ };

    /// Goes to the front of the file with this name, which is kept.
    ///
    /// A name that isn't there is a failure. After a failure no bytes are left.
    fn pick(&mut self, name: String) -> Result<(), PickFailed>
        ensures picked { picked self.new ≡ Some (string_bytes name) }
        ensures ended { ended self.new ≡ pick_end result }
        ensures files { files self.new ≡ files self.old }
        ensures given { given self.new ≡ 0 }
        ensures picks { picks self.new ≡ count_on (picks self.old) 1 }
        ensures rest { Picks (files self.old) (string_bytes name) (rest self.new) result }
        ensures faults { CountsFault (faults self.old) (faults self.new) result };

    /// How many bytes the picked file may have, for whoever takes memory for them. Nothing is said of it: a file may
    /// have fewer and more, and 0 stands for one that doesn't tell. It is no read, and can't fail.
    fn size(&self) -> u64;

    /// Moves bytes of the picked file to the front of `buf`, and gives their number.
    ///
    /// 0 for a `buf` that isn't empty is the end of the file. A failure gives no bytes.
    fn read(&mut self, buf: &mut [u8]) -> Result<usize, ReadFailed>
        ensures bound { ReadsAtMost result buf.new }
        ensures given { GivesCounted (given self.old) (given self.new) result }
        ensures picks { picks self.new ≡ picks self.old }
        ensures rest { ReadConsumes (rest self.old) (rest self.new) result buf.new }
        ensures picked { picked self.new ≡ picked self.old }
        ensures ended { ended self.new ≡ read_end result }
        ensures files { files self.new ≡ files self.old }
        ensures faults { CountsFault (faults self.old) (faults self.new) result };

    /// Counts keep within their end.
    ghost counted: { (inputs : Self) → (given inputs ≤ max_count) ×
        (faults inputs ≤ max_count) × (picks inputs ≤ max_count) };

    /// What is left is told where the files are.
    ghost told: { (inputs : Self) → IsSome (files inputs) ↔ IsSome (rest inputs) };
}
