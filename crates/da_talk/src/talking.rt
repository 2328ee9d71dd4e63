//! A talk with whatever replies to its frames.

ghost use Rattle.std.specs.Prelude.{◌≡◌, ◌≤◌, ◌<◌, ◌+◌, ◌^◌, ◌++◌, ℕ, List, [], length, drop, true, false, vec_capacity, OnOk, IfOk, IfErr};
ghost use Rattle.da_io.specs.declared.inputs.LastCall.TheVariants as call;
ghost use Rattle.da_io.specs.Faults.{count_on, CountsFault};
ghost use Rattle.std.specs.Io.KnownBytes.{IsAtEnd};
ghost use Rattle.da_wire.specs.Reading.{Raw, raw_of};
ghost use Rattle.da_wire.specs.Frames.{ok_of};
ghost use Rattle.da_wire.specs.Streams.{offset_of};
ghost use Rattle.da_talk.specs.Talks.{Does};
ghost use Rattle.da_talk.specs.Spoken.{HasConversed, last_heard, hear_count, say_count};
ghost use Rattle.da_talk.specs.Steps.{spoken, Says, SaysDue, Replies, IsTelling, HasEnded, TellsTalk, HasHeardAll, say_faults};

use crate::frames::HEAD_SIZE;
use crate::room::Room;
use crate::{Line, TalkEnd, Talker, Turn};
use da_io::{PIECE_SIZE, WriteFailed};
use da_wire::{FrameError, FrameStream, Pushed, raw, stream_laws, wire_laws};
use namespace_id::NoMemory;

/// The frames of a talk: the stream that reads them, the offset at which the one under way begins, how many bytes were taken, how
/// many frames have ended, and how many bytes are kept of the one under way at most.
#[derive(Drop)]
pub(crate) struct Frames {
    stream: FrameStream,
    start: u64,
    taken: u64,
    count: u64,
    size: usize,
}

/// Says a text, if it isn't empty.
fn say<L: Line>(text: &[u8], line: &mut L) -> Result<(), WriteFailed>
    ensures said { Says L.Line line.old line.new text.now result }
    ensures rest { L.rest line.new ≡ L.rest line.old }
    ensures ended { L.ended line.new ≡ L.ended line.old }
    ensures read_faults { L.read_faults line.new ≡ L.read_faults line.old }
    ensures write_faults { CountsFault (L.write_faults line.old) (L.write_faults line.new) result }
{
    if text.is_empty() {
        return Ok(());
    }
    line.say(text)
}

/// Says the last words.
fn finish<L: Line, T: Talker>(
    talker: &mut T,
    text: &mut Vec<u8>,
    line: &mut L,
) -> Result<(), WriteFailed>
    requires text { T.most talker.old ≤ vec_capacity text.old }
    ensures decided { (first : T) (frames : List Raw) → T.led first talker.old frames →
        T.is_over talker.old ≡ true →
        SaysDue L.Line line.old line.new (T.decides first talker.new frames) result }
    ensures over { (first : T) (frames : List Raw) → T.led first talker.old frames →
        T.is_over talker.old ≡ false →
        SaysDue L.Line line.old line.new (T.ends first talker.new frames) result }
    ensures rest { L.rest line.new ≡ L.rest line.old }
    ensures ended { L.ended line.new ≡ L.ended line.old }
    ensures read_faults { L.read_faults line.new ≡ L.read_faults line.old }
    ensures write_faults { CountsFault (L.write_faults line.old) (L.write_faults line.new) result }
{
    text.clear();
    talker.close(text);
    say(text, line)
}

/// Says what is due to the frame under way, whose bytes these are, or as many of them as are kept.
fn reply<L: Line, T: Talker>(
    talker: &mut T,
    frames: &Frames,
    bytes: &[u8],
    text: &mut Vec<u8>,
    line: &mut L,
) -> Result<(), TalkEnd>
    requires open { T.is_over talker.old ≡ false }
    requires text { T.most talker.old ≤ vec_capacity text.old }
    requires few { frames.now.count + 1 < 2 ^ 64 }
    ensures replies { Replies L.Line T.Talker line.old line.new talker.old talker.new frames.now.count
        frames.now.start (ok_of (raw_of 0 bytes.now)) result }
    ensures open { OnOk result (T.is_over talker.new ≡ false) }
    ensures text { OnOk result (T.most talker.new ≤ vec_capacity text.new) }
    ensures longest { OnOk result (T.longest talker.new ≡ T.longest talker.old) }
    ensures heard { IfErr result HasHeardAll }
    ensures ended { L.ended line.new ≡ L.ended line.old }
    ensures read_faults { L.read_faults line.new ≡ L.read_faults line.old }
    ensures write_faults { L.write_faults line.new ≡ count_on (L.write_faults line.old) (say_faults result) }
{
    text.clear();
    match talker.answer(frames.count, raw(bytes, 0).ok(), text) {
        Ok(Turn::GoesOn) => match say(text, line) {
            Ok(()) => Ok(()),
            Err(WriteFailed) => Err(TalkEnd::WriteFailed),
        },
        Ok(Turn::Over) => match finish(talker, text, line) {
            Ok(()) => Err(TalkEnd::Decided),
            Err(WriteFailed) => Err(TalkEnd::WriteFailed),
        },
        Ok(Turn::Unfit) => Err(TalkEnd::Unfit(frames.start)),
        Err(NoMemory) => Err(TalkEnd::NoMemory),
    }
}

/// Takes bytes of a piece up to the end of a frame, and says what is due to it. Answers how many it took.
fn answer_frame<L: Line, T: Talker, R: Room>(
    talker: &mut T,
    frames: &mut Frames,
    room: &mut R,
    piece: &[u8],
    text: &mut Vec<u8>,
    line: &mut L,
) -> Result<usize, TalkEnd>
    requires open { T.is_over talker.old ≡ false }
    requires text { T.most talker.old ≤ vec_capacity text.old }
    requires size { frames.old.size ≡ 5 + T.longest talker.old }
    requires room { R.fits room.old frames.old.size }
    requires some { 0 < length piece.now }
    requires taken { frames.old.taken ≡ frames.old.stream.taken }
    requires bytes { frames.old.taken + length piece.now < 2 ^ 64 }
    requires few { frames.old.count ≤ frames.old.taken }
    ensures tells { TellsTalk L.Line T.Talker line.old line.new talker.old talker.new frames.old frames.new
        (R.kept room.old) (R.kept room.new) piece.now (λ count. drop count piece.now) result }
    ensures open { OnOk result (T.is_over talker.new ≡ false) }
    ensures text { OnOk result (T.most talker.new ≤ vec_capacity text.new) }
    ensures size { OnOk result (frames.new.size ≡ 5 + T.longest talker.new) }
    ensures room { OnOk result (R.fits room.new frames.new.size) }
    ensures within { IfOk result (λ count. count ≤ length piece.now) }
    ensures some { IfOk result (λ count. 0 < count) }
    ensures taken { OnOk result (frames.new.taken ≡ frames.new.stream.taken) }
    ensures bytes { IfOk result (λ count. frames.new.taken ≡ frames.old.taken + count) }
    ensures few { OnOk result (frames.new.count ≤ frames.new.taken) }
    ensures heard { IfErr result HasHeardAll }
    ensures ended { L.ended line.new ≡ L.ended line.old }
    ensures read_faults { L.read_faults line.new ≡ L.read_faults line.old }
    ensures write_faults { L.write_faults line.new ≡ count_on (L.write_faults line.old) (say_faults result) }
{
    wire_laws();
    stream_laws();
    let (count, pushed) = frames.stream.push(piece);
    frames.taken += count as u64;
    room.keep(frames.size, &piece[..count]);
    match pushed {
        Pushed::More => Ok(count),
        Pushed::Bad(at) => Err(TalkEnd::Bad(at)),
        Pushed::Frame(_message) => match reply(talker, frames, room.kept_bytes(), text, line) {
            Ok(()) => {
                frames.start = frames.taken;
                frames.count += 1;
                room.forget();
                Ok(count)
            }
            Err(ended) => Err(ended),
        },
    }
}

/// Says what is due to the frames that end in a piece, one after another.
fn answer_piece<L: Line, T: Talker, R: Room>(
    talker: &mut T,
    frames: &mut Frames,
    room: &mut R,
    piece: &[u8],
    text: &mut Vec<u8>,
    line: &mut L,
) -> Result<(), TalkEnd>
    requires open { T.is_over talker.old ≡ false }
    requires text { T.most talker.old ≤ vec_capacity text.old }
    requires size { frames.old.size ≡ 5 + T.longest talker.old }
    requires room { R.fits room.old frames.old.size }
    requires taken { frames.old.taken ≡ frames.old.stream.taken }
    requires bytes { frames.old.taken + length piece.now < 2 ^ 64 }
    requires few { frames.old.count ≤ frames.old.taken }
    ensures tells { TellsTalk L.Line T.Talker line.old line.new talker.old talker.new frames.old frames.new
        (R.kept room.old) (R.kept room.new) piece.now (λ all. []) result }
    ensures open { OnOk result (T.is_over talker.new ≡ false) }
    ensures text { OnOk result (T.most talker.new ≤ vec_capacity text.new) }
    ensures size { OnOk result (frames.new.size ≡ 5 + T.longest talker.new) }
    ensures room { OnOk result (R.fits room.new frames.new.size) }
    ensures taken { OnOk result (frames.new.taken ≡ frames.new.stream.taken) }
    ensures bytes { OnOk result (frames.new.taken ≡ frames.old.taken + length piece.now) }
    ensures few { OnOk result (frames.new.count ≤ frames.new.taken) }
    ensures heard { IfErr result HasHeardAll }
    ensures ended { L.ended line.new ≡ L.ended line.old }
    ensures read_faults { L.read_faults line.new ≡ L.read_faults line.old }
    ensures write_faults { L.write_faults line.new ≡ count_on (L.write_faults line.old) (say_faults result) }
{
    let mut rest = piece;
    while !rest.is_empty() {
        match answer_frame(talker, frames, room, rest, text, line) {
            Ok(count) => rest = &rest[count..],
            Err(ended) => return Err(ended),
        }
    }
    Ok(())
}

/// The offset that a refusal names.
pub(crate) fn offset(error: FrameError) -> u64
    ensures { result ≡ offset_of error }
{
    match error {
        FrameError::Truncated(at)
        | FrameError::BadKind(at)
        | FrameError::TooLong(at)
        | FrameError::BadPayload(at)
        | FrameError::Trailing(at) => at,
        FrameError::NoMemory => 0,
    }
}

/// Ends a talk whose bytes are over: with the last words, where they end behind a whole frame.
fn at_end<L: Line, T: Talker>(
    talker: &mut T,
    frames: &Frames,
    text: &mut Vec<u8>,
    line: &mut L,
) -> TalkEnd
    requires open { T.is_over talker.old ≡ false }
    requires text { T.most talker.old ≤ vec_capacity text.old }
    ensures told { (old : L) (first : T) (kept : List ℕ) →
        IsTelling L.Line T.Talker old line.old first talker.old frames.now kept [] →
        IsAtEnd (L.rest line.old) → HasEnded L.Line T.Talker old line.new first talker.new result }
    ensures heard { HasHeardAll result }
    ensures ended { L.ended line.new ≡ L.ended line.old }
    ensures read_faults { L.read_faults line.new ≡ L.read_faults line.old }
    ensures write_faults { L.write_faults line.new ≡ count_on (L.write_faults line.old) (say_count result) }
{
    match frames.stream.end() {
        None => match finish(talker, text, line) {
            Ok(()) => TalkEnd::Over,
            Err(WriteFailed) => TalkEnd::WriteFailed,
        },
        Some(error) => TalkEnd::Bad(offset(error)),
    }
}

/// Hears bytes and says what is due, until the talk ends, behind the first words. Of a frame `size` bytes are kept at most, 5 more
/// than the longest payload that the talker is handed.
pub(crate) fn listen<L: Line, T: Talker, R: Room>(
    talker: &mut T,
    size: usize,
    room: &mut R,
    text: &mut Vec<u8>,
    line: &mut L,
) -> TalkEnd
    requires open { T.is_over talker.old ≡ false }
    requires text { T.most talker.old ≤ vec_capacity text.old }
    requires size { size ≡ 5 + T.longest talker.old }
    requires room { R.fits room.old size }
    requires empty { R.kept room.old ≡ [] }
    ensures told { (old : L) (first : T) (began : List ℕ) → T.led first talker.old [] → T.begins first began →
        Does L.Line old line.old (spoken began) → HasEnded L.Line T.Talker old line.new first talker.new result }
    ensures ended { L.ended line.new ≡ last_heard result }
    ensures read_faults { L.read_faults line.new ≡ count_on (L.read_faults line.old) (hear_count result) }
    ensures write_faults { L.write_faults line.new ≡ count_on (L.write_faults line.old) (say_count result) }
{
    stream_laws();
    let mut frames = Frames {
        stream: FrameStream::new(),
        start: 0,
        taken: 0,
        count: 0,
        size,
    };
    let mut buf = [0; PIECE_SIZE];
    let mut left = u64::MAX;
    loop {
        let Ok(count) = line.hear(&mut buf) else {
            return TalkEnd::ReadFailed;
        };
        if count == 0 {
            return at_end(talker, &frames, text, line);
        }
        if count as u64 > left {
            return TalkEnd::TooLong;
        }
        left -= count as u64;
        match answer_piece(talker, &mut frames, room, &buf[..count], text, line) {
            Ok(()) => {}
            Err(ended) => return ended,
        }
    }
}

/// Talks over a line with whatever replies to frames, until its bytes end, a frame ends the talk, or a call fails.
///
/// Whenever it waits for bytes, it has said exactly what is due to all frames that it heard. It ends early where a frame states a
/// length above the limit and where a frame is none that is replied to, and says the last words where a frame ended the talk and
/// where the bytes end behind a whole frame. The bytes of the frame under way are kept in `room`, those of a payload of at most
/// `longest` bytes, and what is due is written in `text`. It takes no memory but what the talker takes for a frame, and `room` is
/// touched only as far as bytes of a frame come.
///
/// docs/FORMATS.md, "Talks".
pub fn talk<L: Line, T: Talker>(
    talker: &mut T,
    longest: usize,
    room: &mut Vec<u8>,
    text: &mut Vec<u8>,
    line: &mut L,
) -> TalkEnd
    requires fresh { T.is_fresh talker.old }
    requires longest { longest ≡ T.longest talker.old }
    requires capacity { 5 + longest ≤ vec_capacity room.old }
    requires text { T.most talker.old ≤ vec_capacity text.old }
    ensures talk { HasConversed L.Line T.Talker line.old line.new talker.old talker.new result }

    // A failure is answered exactly where one happened, and it was the last call.
    ensures ended { L.ended line.old ≡ call.Fine → L.ended line.new ≡ last_heard result }
    ensures read_faults { L.read_faults line.new ≡ count_on (L.read_faults line.old) (hear_count result) }
    ensures write_faults { L.write_faults line.new ≡ count_on (L.write_faults line.old) (say_count result) }
{
    text.clear();
    talker.begin(text);
    let Ok(()) = say(text, line) else {
        return TalkEnd::WriteFailed;
    };
    room.clear();
    listen(talker, HEAD_SIZE + longest, room, text, line)
}
