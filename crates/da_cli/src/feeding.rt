//! Feeding a session with the proved samples of the picked file, as they come.

ghost use Rattle.std.specs.Prelude.{◌≡◌, ◌+◌, ◌≤◌, ◌<◌, ◌^◌, ◌++◌, ℕ, List, length, take, None};
ghost use Rattle.data_header.specs.Headers.{Roots};
ghost use Rattle.axis_roots.specs.declared.message.messages.Message.{Message as Sent};
ghost use Rattle.axis_roots.specs.Openings.{IsProved};
ghost use Rattle.axis_roots.specs.Messages.{message_refusal};
ghost use Rattle.repair_queue.specs.Closures.{Covers};
ghost use Rattle.repair_queue.specs.SessionParts.{SessionStands};
ghost use Rattle.da_wire.specs.Reading.{Raw};
ghost use Rattle.da_judging.specs.Repair.{messages_in, lies_in};
ghost use Rattle.da_io.specs.Faults.{count_on};
ghost use Rattle.da_cli.specs.Limits.{stream_limit};
ghost use Rattle.da_cli.specs.Feeding.{proved_by, lies_by, proved_among, lies_among, HasGone, Feeds, FeedsTold, EndsFed, fed_faults, fed_end, JudgesFed};
ghost use Rattle.da_wire.specs.Streams.{StreamStands, offset_of};

use axis_roots::{Message, message_law, message_laws};
use da_io::{Inputs, PIECE_SIZE};
use da_wire::{FrameError, FrameStream, Pushed, stream_laws};
use data_header::Header;
use repair_queue::Session;
use thiserror::Error;

/// Why a file was not fed whole. The variants stand in the order in which they are tested.
#[derive(Clone, Copy, Debug, PartialEq, Eq, Error)]
pub enum FeedFault {
    /// A read failed.
    #[error("the file cannot be read")]
    ReadFailed,
    /// More bytes came than this limit.
    #[error("the file has more than {0} bytes")]
    TooLong(u64),
    /// No frame stands at this offset though bytes are left.
    #[error("no frame stands at {0}")]
    Bad(u64),
}

/// Feeds a session with the sample of a frame, where it is one that is proved. Answers how many lies the
/// frame is, none or one.
fn feed_message(header: &Header, session: &mut Session, message: Option<Message>) -> u64
    requires under { session.old.header ≡ header.now }
    ensures header { session.new.header ≡ header.now }
    ensures fed { (ms : List Sent) → SessionStands session.old ms →
        SessionStands session.new (ms ++ proved_by header.now message) }
    ensures lies { result ≡ lies_by header.now message }
    ensures few { result ≤ 1 }
{
    let Some(message) = message else {
        return 1;
    };
    message_laws();
    message_law(&message);
    let _k = header.k;
    match session.check(message) {
        Ok(proved) => {
            session.feed(proved);
            0
        }
        Err(_) => 1,
    }
}

/// Pushes bytes up to the end of a frame, and feeds a session with its sample. Answers how many bytes
/// were taken and how many lies ended with them.
fn feed_frame(
    header: &Header,
    session: &mut Session,
    stream: &mut FrameStream,
    piece: &[u8],
) -> (usize, u64)
    requires under { session.old.header ≡ header.now }
    requires count { stream.old.taken + length piece.now < 2 ^ 64 }
    ensures header { session.new.header ≡ header.now }
    ensures gone { HasGone stream.old stream.new (SessionStands session.old) (SessionStands session.new)
        header.now (take result.0 piece.now) result.1 }
    ensures within { result.0 ≤ length piece.now }
    ensures some { 0 < length piece.now → 0 < result.0 }
    ensures few { result.1 ≤ 1 }
    ensures taken { stream.new.taken ≡ stream.old.taken + result.0 }
{
    let (count, answer) = stream.push(piece);
    match answer {
        Pushed::Frame(message) => {
            let lies = feed_message(header, session, message);
            (count, lies)
        }
        Pushed::More | Pushed::Bad(_) => (count, 0),
    }
}

/// Feeds a session with the proved samples of the frames that end in a piece. Answers how many of the
/// frames are lies.
fn feed_piece(header: &Header, session: &mut Session, stream: &mut FrameStream, piece: &[u8]) -> u64
    requires under { session.old.header ≡ header.now }
    requires count { stream.old.taken + length piece.now < 2 ^ 64 }
    ensures header { session.new.header ≡ header.now }
    ensures gone { HasGone stream.old stream.new (SessionStands session.old) (SessionStands session.new)
        header.now piece.now result }
    ensures few { result ≤ length piece.now }
    ensures taken { stream.new.taken ≡ stream.old.taken + length piece.now }
{
    let mut lies = 0;
    let mut rest = piece;
    while !rest.is_empty() {
        let (count, more) = feed_frame(header, session, stream, rest);
        lies += more;
        rest = &rest[count..];
    }
    lies
}

/// The offset that a refusal names.
fn offset(error: FrameError) -> u64
    ensures { result ≡ offset_of error }
{
    match error {
        FrameError::Truncated(at)
        | FrameError::BadKind(at)
        | FrameError::TooLong(at)
        | FrameError::BadPayload(at)
        | FrameError::Trailing(at) => at,
        FrameError::NoMemory => 0,
    }
}

/// What is answered at the end of a file, where so many of its frames are lies.
fn judged(stream: &FrameStream, lies: u64) -> Result<u64, FeedFault>
    ensures { (bytes : List ℕ) → StreamStands stream.now bytes → JudgesFed bytes lies result }
{
    match stream.end() {
        None => Ok(lies),
        Some(error) => Err(FeedFault::Bad(offset(error))),
    }
}

/// Feeds a session with the proved samples of what is left of the picked file, as its bytes come, at most
/// `limit` of them. Answers how many of its frames are no proved sample.
///
/// Refuses at the first read that fails; then where more than `limit` bytes came; then, at the end, where
/// the bytes are no list of frames, with the offset of the first that is none. A refusal leaves the session
/// fed with the first of the proved samples, those of the frames that had ended by then. It takes no memory.
///
/// docs/FORMATS.md, "Streams of frames".
pub fn feed_all<I: Inputs>(
    header: &Header,
    session: &mut Session,
    inputs: &mut I,
    limit: u64,
) -> Result<u64, FeedFault>
    requires under { session.old.header ≡ header.now }
    requires limit { limit ≤ stream_limit }

    // Where the bytes are told: what all of them come to or, past the limit, `TooLong`.
    ensures told { FeedsTold (I.rest inputs.old) header.now limit result }

    // Told or not: what came, how much it was, the answer to that, and what the session was fed with.
    ensures fed { Feeds (I.rest inputs.old) (I.rest inputs.new) (I.given inputs.old)
        (I.given inputs.new) limit header.now
        (λ more. (ms : List Sent) → SessionStands session.old ms → SessionStands session.new (ms ++ more))
        result }
    ensures header { session.new.header ≡ header.now }
    ensures end { EndsFed (I.rest inputs.new) result }

    // A failed read is answered exactly where one happened, and it was the last call.
    ensures faults { I.faults inputs.new ≡ count_on (I.faults inputs.old) (fed_faults result) }
    ensures ended { I.ended inputs.new ≡ fed_end result }

    // What stays.
    ensures picked { I.picked inputs.new ≡ I.picked inputs.old }
    ensures picks { I.picks inputs.new ≡ I.picks inputs.old }
    ensures files { I.files inputs.new ≡ I.files inputs.old }
{
    stream_laws();
    let mut stream = FrameStream::new();
    let mut taken = 0;
    let mut lies = 0;
    let mut buf = [0; PIECE_SIZE];
    loop {
        let Ok(count) = inputs.read(&mut buf) else {
            return Err(FeedFault::ReadFailed);
        };
        if count == 0 {
            return judged(&stream, lies);
        }
        if count as u64 > limit - taken {
            return Err(FeedFault::TooLong(limit));
        }
        lies += feed_piece(header, session, &mut stream, &buf[..count]);
        taken += count as u64;
    }
}

/// What a session is fed with of a file are the file's proved samples, whatever their order and repeats, and
/// the frames that it isn't fed with are the file's lies.
pub(crate) fn fed_laws()
    ensures lies { (header : Roots) (frames : List Raw) →
        lies_among header frames ≡ lies_in header frames }
    ensures all { (header : Roots) →
        ((m : Sent) → IsProved header m → message_refusal header m ≡ None) →
        (frames : List Raw) → Covers header (messages_in frames) (proved_among header frames) }
    ensures only { (header : Roots) (frames : List Raw) →
        Covers header (proved_among header frames) (messages_in frames) }
{}
