//! The talk of a repair.

ghost use Rattle.std.specs.Prelude.{◌≡◌, ◌≤◌, ◌+◌, vec_capacity};
ghost use Rattle.da_io.specs.declared.inputs.LastCall.TheVariants as call;
ghost use Rattle.da_io.specs.Faults.{count_on};
ghost use Rattle.frame_payloads.specs.kinds.Message.{most_message};
ghost use Rattle.da_talk.specs.Spoken.{last_heard, hear_count, say_count};
ghost use Rattle.da_gathering.specs.Gatherings.{most_gathered};
ghost use Rattle.da_gathering.specs.Gathered.{IsFreshGathering, GathersTalk, GoesWith};

use crate::Gatherer;
use da_talk::{Line, TalkEnd, talk};
use frame_payloads::MOST_MESSAGE;

/// Talks over a line with a repair, until its session is over, the bytes end or a call fails.
///
/// It is silent on a proved sample. Any other frame is refused at once, with its number, but for one that asks: that is told the
/// missing cells. The moment the session has a fraud proof or a collision, or all cells follow, the last words are the answer,
/// and nothing is read behind it. Where the bytes end before, the last words are the missing cells. The bytes of the frame under
/// way are kept in `room`, and what is due is written in `text`. It takes no memory.
///
/// docs/FORMATS.md, "Talks".
pub fn gather<'a, L: Line>(
    gatherer: &mut Gatherer<'a>,
    room: &mut Vec<u8>,
    text: &mut Vec<u8>,
    line: &mut L,
) -> TalkEnd
    requires fresh { IsFreshGathering gatherer.old }
    requires capacity { 5 + most_message ≤ vec_capacity room.old }
    requires text { most_gathered gatherer.old.header.k ≤ vec_capacity text.old }
    ensures talk { GathersTalk L.Line line.old line.new gatherer.old.header gatherer.new.status result }

    // The status that goes with the last words is kept: that of missing cells where the bytes ended, another where a frame ended the talk.
    ensures status { GoesWith result gatherer.new.status }

    // A failure is answered exactly where one happened, and it was the last call.
    ensures ended { L.ended line.old ≡ call.Fine → L.ended line.new ≡ last_heard result }
    ensures read_faults { L.read_faults line.new ≡ count_on (L.read_faults line.old) (hear_count result) }
    ensures write_faults { L.write_faults line.new ≡ count_on (L.write_faults line.old) (say_count result) }
{
    talk(gatherer, MOST_MESSAGE, room, text, line)
}
