//! The status of a talk over a file, whatever replies.

ghost use Rattle.std.specs.Prelude.{◌≡◌, ◌≢◌, ◌≤◌, ℕ};
ghost use Rattle.da_io.specs.Faults.{max_count, count_on};
ghost use Rattle.da_status.specs.declared.status.Status.TheVariants.{Usage};
ghost use Rattle.da_status.specs.Statuses.{status_kind, input_count, output_count};
ghost use Rattle.da_talk.specs.Spoken.{hear_count, say_count};
ghost use Rattle.da_conversing.specs.Tellings.{IsStatus, IsKept};

use da_status::Status;
use da_talk::TalkEnd;

/// The status of a talk over the file with a number that ended so, where this status goes with the last words, if any does.
pub(crate) fn status_of(file: u32, end: TalkEnd, kept: Option<Status>) -> Status
    requires kept { IsKept end kept }
    ensures other { result ≢ Usage }
    ensures status { IsStatus file end kept result }
    ensures read_faults { (before now : ℕ) → before ≤ max_count →
        now ≡ count_on before (hear_count end) → now ≡ input_count (status_kind result) before }
    ensures write_faults { (before now : ℕ) → before ≤ max_count →
        now ≡ count_on before (say_count end) → now ≡ output_count (status_kind result) before }
{
    match end {
        TalkEnd::Over | TalkEnd::Decided => kept.unwrap(),
        TalkEnd::Bad(at) | TalkEnd::Unfit(at) => Status::BadInput(file, at),
        TalkEnd::ReadFailed => Status::ReadFault(file),
        TalkEnd::WriteFailed => Status::WriteFault,
        TalkEnd::TooLong => Status::TooLong(file),
        TalkEnd::NoMemory => Status::NoMemory,
    }
}
