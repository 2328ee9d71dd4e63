//! A talk with a watcher.

ghost use Rattle.std.specs.Prelude.{◌≡◌, ◌≤◌, ◌+◌, vec_capacity};
ghost use Rattle.da_io.specs.declared.inputs.LastCall.TheVariants as call;
ghost use Rattle.da_io.specs.Faults.{count_on};
ghost use Rattle.da_talk.specs.Spoken.{last_heard, hear_count, say_count};
ghost use Rattle.da_watching.specs.Sizes.{most_claim, most_said};
ghost use Rattle.da_watching.specs.Watchers.{IsFreshWatcher, HasWatched};

use crate::{MOST_CLAIM, Watcher};
use da_talk::{Line, TalkEnd, talk};
use light_node::Picker;

/// Talks over a line with a watcher, until the bytes end, a claim is accepted, or a call fails.
///
/// Whenever it waits for bytes, it has said exactly what is due to all frames that it heard: to a lie its refusal, to a frame that
/// asks for the state the cells that wait, or a state where there is none; and a state as soon as no drawn cell waits any more, or
/// at first where none was drawn. The last words are the first claim that is accepted, or the verdict where the bytes end behind a
/// whole frame, and the watcher keeps the status that goes with them. The bytes of the frame under way are kept in `room`, and
/// what is due is written in `text`. It takes no memory.
///
/// docs/FORMATS.md, "Talks".
pub fn watch<L: Line, F: Picker>(
    watcher: &mut Watcher<'_, F>,
    room: &mut Vec<u8>,
    text: &mut Vec<u8>,
    line: &mut L,
) -> TalkEnd
    requires fresh { IsFreshWatcher F.picks watcher.old }
    requires capacity { 5 + most_claim ≤ vec_capacity room.old }
    requires text { most_said watcher.old.header.k ≤ vec_capacity text.old }
    ensures talk { HasWatched L.Line line.old line.new watcher.old.header watcher.old.plan
        watcher.new.status result }

    // A failure is answered exactly where one happened, and it was the last call.
    ensures ended { L.ended line.old ≡ call.Fine → L.ended line.new ≡ last_heard result }
    ensures read_faults { L.read_faults line.new ≡ count_on (L.read_faults line.old) (hear_count result) }
    ensures write_faults { L.write_faults line.new ≡ count_on (L.write_faults line.old) (say_count result) }
{
    talk(watcher, MOST_CLAIM, room, text, line)
}
