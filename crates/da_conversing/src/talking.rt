//! A talk over the file that a word names, TALK, and an output.

ghost use Rattle.std.specs.Prelude.{◌≡◌, ◌≤◌, ◌↔◌, IsSome, vec_capacity};
ghost use Rattle.std.specs.String.{string_bytes};
ghost use Rattle.da_status.specs.Statuses.{status_kind, input_count, output_count};
ghost use Rattle.da_conversing.specs.Courses.{Talked, TalksOver, talk_status};
ghost use Rattle.da_io.specs.Faults.{count_on};
ghost use Rattle.da_talk.specs.Talks.{read_count, write_count};
ghost use Rattle.da_talk.specs.Replies.{due, most_reply, held_reply};

use da_io::{Inputs, Sink};
use da_status::Status;
use da_talk::{Ended, Pipe, hold};
use square_serve::Held;

/// The number of TALK among the words that name files.
const TALK: u32 = 1;

/// The status of a talk that ended so.
fn status_of(ended: Ended) -> Status
    ensures { result ≡ talk_status ended }
{
    match ended {
        Ended::Done => Status::Done,
        Ended::Bad(at) => Status::BadInput(TALK, at),
        Ended::ReadFailed => Status::ReadFault(TALK),
        Ended::WriteFailed => Status::WriteFault,
        Ended::TooLong => Status::TooLong(TALK),
    }
}

/// Replies to the frames of the picked file as they come.
fn talk<I: Inputs, O: Sink>(
    held: &mut Held,
    text: &mut Vec<u8>,
    inputs: &mut I,
    out: &mut O,
) -> Ended
    requires capacity { most_reply held.old.k ≤ vec_capacity text.old }
    ensures talk { Talked I.Inputs O.Sink inputs.old inputs.new out.old out.new
        (due (held_reply held.old)) result }
    ensures input_faults { I.faults inputs.new ≡ count_on (I.faults inputs.old) (read_count result) }
    ensures output_faults { O.faults out.new ≡ count_on (O.faults out.old) (write_count result) }
    ensures files { I.files inputs.new ≡ I.files inputs.old }
    ensures told { IsSome (O.taken out.old) ↔ IsSome (O.taken out.new) }
{
    let mut line = Pipe { inputs, out };
    hold(held, text, &mut line)
}

/// Picks the file with a name, TALK, and replies to its frames as they come.
pub(crate) fn talk_over<I: Inputs, O: Sink>(
    held: &mut Held,
    text: &mut Vec<u8>,
    name: String,
    inputs: &mut I,
    out: &mut O,
) -> Status
    requires capacity { most_reply held.old.k ≤ vec_capacity text.old }
    ensures talk { TalksOver I.Inputs O.Sink inputs.old inputs.new out.old out.new held.old
        (string_bytes name) result }
    ensures input_faults { I.faults inputs.new ≡ input_count (status_kind result) (I.faults inputs.old) }
    ensures output_faults { O.faults out.new ≡ output_count (status_kind result) (O.faults out.old) }
    ensures files { I.files inputs.new ≡ I.files inputs.old }
    ensures told { IsSome (O.taken out.old) ↔ IsSome (O.taken out.new) }
{
    let Ok(()) = inputs.pick(name) else {
        return Status::PickFault(TALK);
    };
    status_of(talk(held, text, inputs, out))
}
