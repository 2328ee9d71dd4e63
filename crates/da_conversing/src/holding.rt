//! hold SQUARE TALK: a square that is held, and replies to the frames of TALK as they come.

ghost use Rattle.std.specs.Prelude.{◌≡◌, ◌↔◌, true, IsSome};
ghost use Rattle.std.specs.String.{string_bytes};
ghost use Rattle.da_status.specs.Statuses.{status_kind, input_count, output_count};
ghost use Rattle.da_words.specs.Words.{words_of};
ghost use Rattle.da_conversing.specs.Words.{is_hold};
ghost use Rattle.da_conversing.specs.Courses.{GoesOn, Converses};

use crate::squares::{held_of, square_of};
use crate::talking::talk_over;
use crate::words::word_at;
use da_io::{Inputs, Sink};
use da_status::Status;
use da_talk::most_reply;
use square_layout::Square;
use std::alloc::Global;

/// Holds a square, and replies to the frames of the file with a name, TALK, as they come.
fn answer_square<I: Inputs, O: Sink>(
    alloc: Global,
    square: Square,
    name: String,
    inputs: &mut I,
    out: &mut O,
) -> Status
    ensures course { GoesOn I.Inputs O.Sink inputs.old inputs.new out.old out.new square
        (string_bytes name) result }
    ensures input_faults { I.faults inputs.new ≡ input_count (status_kind result) (I.faults inputs.old) }
    ensures output_faults { O.faults out.new ≡ output_count (status_kind result) (O.faults out.old) }
    ensures files { I.files inputs.new ≡ I.files inputs.old }
    ensures told { IsSome (O.taken out.old) ↔ IsSome (O.taken out.new) }
{
    let mut held = match held_of(alloc, square) {
        Ok(held) => held,
        Err(status) => return status,
    };
    // Its width is told with what is true of every held square.
    held.held_law();
    let Ok(mut text) = Vec::with_capacity(alloc, most_reply(held.width())) else {
        return Status::NoMemory;
    };
    talk_over(&mut held, &mut text, name, inputs, out)
}

/// Runs `hold SQUARE TALK`, without a note.
pub(crate) fn answer_hold<I: Inputs, O: Sink>(
    alloc: Global,
    words: &[String],
    inputs: &mut I,
    out: &mut O,
) -> Status
    requires { is_hold (words_of words.now) ≡ true }
    ensures course { Converses I.Inputs O.Sink (words_of words.now) inputs.old inputs.new out.old
        out.new result }
    ensures input_faults { I.faults inputs.new ≡ input_count (status_kind result) (I.faults inputs.old) }
    ensures output_faults { O.faults out.new ≡ output_count (status_kind result) (O.faults out.old) }
    ensures files { I.files inputs.new ≡ I.files inputs.old }
    ensures told { IsSome (O.taken out.old) ↔ IsSome (O.taken out.new) }
{
    let Ok(first) = word_at(alloc, words, 1) else {
        return Status::NoMemory;
    };
    let Ok(second) = word_at(alloc, words, 2) else {
        return Status::NoMemory;
    };
    match square_of(alloc, first, inputs) {
        Ok(square) => answer_square(alloc, square, second, inputs, out),
        Err(status) => status,
    }
}
