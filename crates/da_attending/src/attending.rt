//! A talk with an attender.

ghost use Rattle.std.specs.Prelude.{◌≡◌, ◌≤◌, ◌+◌, vec_capacity};
ghost use Rattle.da_io.specs.declared.inputs.LastCall.TheVariants as call;
ghost use Rattle.da_io.specs.Faults.{count_on};
ghost use Rattle.frame_payloads.specs.Payloads.{max_payload};
ghost use Rattle.da_talk.specs.Spoken.{last_heard, hear_count, say_count};
ghost use Rattle.da_attending.specs.Attended.{most_missing_lines, Attends};
ghost use Rattle.da_attending.specs.Attenders.{IsFreshAttender};

use crate::Attender;
use da_talk::{Line, TalkEnd, talk};
use frame_payloads::MAX_PAYLOAD;

/// Talks over a line with an attender, until the bytes end, a frame doesn't fit, or a call fails.
///
/// Whenever it waits for bytes, it has said exactly the lines of `follow` that are due to all frames that it heard: at the height under
/// way those of the namespaces that came to be known, and those of the others at the next header, or as the last words where the bytes
/// end behind a whole frame; the attender keeps the status that goes with them. The bytes of the frame under way are kept in `room`, and
/// what is due is written in `text`. It takes no memory but that of answers and of their lines.
///
/// docs/FORMATS.md, "Talks".
pub fn attend<L: Line>(
    attender: &mut Attender<'_>,
    room: &mut Vec<u8>,
    text: &mut Vec<u8>,
    line: &mut L,
) -> TalkEnd
    requires fresh { IsFreshAttender attender.old }
    requires capacity { 5 + max_payload ≤ vec_capacity room.old }
    requires text { most_missing_lines attender.old.names ≤ vec_capacity text.old }
    ensures talk { Attends L.Line line.old line.new attender.old.names attender.new.status result }

    // A failure is answered exactly where one happened, and it was the last call.
    ensures ended { L.ended line.old ≡ call.Fine → L.ended line.new ≡ last_heard result }
    ensures read_faults { L.read_faults line.new ≡ count_on (L.read_faults line.old) (hear_count result) }
    ensures write_faults { L.write_faults line.new ≡ count_on (L.write_faults line.old) (say_count result) }
{
    talk(attender, MAX_PAYLOAD as usize, room, text, line)
}
