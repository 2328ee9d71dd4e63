//! A talk over a held square.

ghost use Rattle.std.specs.Prelude.{◌≡◌, ◌≤◌, length, vec_capacity};
ghost use Rattle.da_io.specs.Faults.{count_on};
ghost use Rattle.da_talk.specs.Replies.{most_reply, held_reply, due};
ghost use Rattle.da_talk.specs.Steps.{IsPlain, IsEndedAs};
ghost use Rattle.da_talk.specs.Talks.{HasTalked, last_wait, read_count, write_count};

use crate::asking::asked_in;
use crate::frames::HEAD_SIZE;
use crate::replies::put_reply;
use crate::room::Room;
use crate::talking::listen;
use crate::{Ended, Line, TalkEnd, Talker, Turn};
use da_wire::RawFrame;
use namespace_id::{NAMESPACE_SIZE, NoMemory, write_at};
use square_serve::Held;

/// The bytes of the frame of the longest request.
const REQUEST_SIZE: usize = HEAD_SIZE + NAMESPACE_SIZE;

/// Room for the frame of a request.
#[derive(Drop)]
struct RequestRoom {
    bytes: [u8; REQUEST_SIZE],
    count: usize,
    ghost within: { count ≤ length bytes },
}

impl Room for RequestRoom {
    ghost use Rattle.std.specs.Prelude.{◌≤◌, take, length};

    ghost kept = { λ room. take room.count room.bytes };

    ghost fits = { λ room size. (room.count ≤ size) × (size ≤ length room.bytes) };

    fn kept_bytes(&self) -> &[u8] {
        &self.bytes[..self.count]
    }

    fn keep(&mut self, size: usize, bytes: &[u8]) {
        let count = bytes.len().min(size - self.count);
        write_at(&mut self.bytes, self.count, &bytes[..count]);
        self.count += count;
    }

    fn forget(&mut self) {
        self.count = 0;
    }
}

/// A held square replies to each frame, of which it is handed those that may be a request, and says nothing else. It stays as
/// it is.
impl Talker for Held {
    ghost use Rattle.std.specs.Prelude.{◌≡◌, [], length, false, ⊤};
    ghost use Rattle.namespace_id.specs.Sizes.{namespace_size};
    ghost use Rattle.da_talk.specs.Replies.{most_reply, held_reply};

    ghost is_fresh = { λ held. ⊤ };

    ghost led = { λ first now frames. now ≡ first };

    ghost is_over = { λ held. false };

    ghost longest = { λ held. namespace_size };

    ghost most = { λ held. most_reply held.k };

    ghost takes_memory = { λ held. ⊥ };

    ghost begins = { λ first text. text ≡ [] };

    ghost replies = { λ first frames frame text. text ≡ held_reply first (length frames) frame };

    ghost refuses = { λ first frames frame. ⊥ };

    ghost decides = { λ first now frames text. ⊥ };

    ghost ends = { λ first now frames text. (now ≡ first) × (text ≡ []) };

    fn begin(&mut self, _text: &mut Vec<u8>) {}

    fn answer(
        &mut self,
        number: u64,
        frame: Option<RawFrame<'_>>,
        text: &mut Vec<u8>,
    ) -> Result<Turn, NoMemory> {
        put_reply(text, self, number, asked_in(frame));
        Ok(Turn::GoesOn)
    }

    fn close(&mut self, _text: &mut Vec<u8>) {}

    ghost takes_none = { λ first now frames led takes. takes };
}

/// How a talk of replies alone ended.
fn ended(end: TalkEnd) -> Ended
    requires { IsPlain end }
    ensures { IsEndedAs end result }
{
    match end {
        TalkEnd::Over => Ended::Done,
        TalkEnd::Bad(at) => Ended::Bad(at),
        TalkEnd::ReadFailed => Ended::ReadFailed,
        TalkEnd::WriteFailed => Ended::WriteFailed,
        TalkEnd::TooLong => Ended::TooLong,
        TalkEnd::Decided | TalkEnd::Unfit(_) | TalkEnd::NoMemory => unreachable!(),
    }
}

/// Answers the requests that come over a line, in their order, until the bytes end.
///
/// Whenever it waits for bytes, it has said exactly the replies to all frames that it heard: to a request
/// for a sample or a namespace the frame that `sample` or `namespace` writes, and a refusal to any other frame
/// or where the square has no answer. It ends early where a frame states a length above the limit or a call on
/// the line fails. Replies are spelled in `text`. It takes no memory.
///
/// docs/FORMATS.md, "Talks".
pub fn hold<L: Line>(held: &mut Held, text: &mut Vec<u8>, line: &mut L) -> Ended
    requires capacity { most_reply held.old.k ≤ vec_capacity text.old }
    ensures kept { held.new ≡ held.old }
    ensures talk { HasTalked L.Line line.old line.new (due (held_reply held.old)) result }

    // A failure is answered exactly where one happened, and it was the last call.
    ensures ended { L.ended line.new ≡ last_wait result }
    ensures read_faults { L.read_faults line.new ≡ count_on (L.read_faults line.old) (read_count result) }
    ensures write_faults { L.write_faults line.new ≡
        count_on (L.write_faults line.old) (write_count result) }
{
    let mut room = RequestRoom {
        bytes: [0; REQUEST_SIZE],
        count: 0,
    };
    let end = listen(held, REQUEST_SIZE, &mut room, text, line);
    ended(end)
}
