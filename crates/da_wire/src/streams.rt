//! Streams of frames: bytes that come in pieces, cut anywhere.
//!
//! Of the frame under way a stream keeps as many bytes as the longest sample has, and they stay until bytes
//! of the next one come. Those of a longer frame behind them are counted as they pass, so that a stream
//! takes no memory.

ghost use Rattle.std.specs.Prelude.{◌≡◌, ◌+◌, ◌-◌, ◌<◌, ◌≤◌, ◌^◌, ◌++◌, ℕ, List, [], length, take, min};
ghost use Rattle.std.specs.Option.{option_map};
ghost use Rattle.da_wire.specs.declared.streams.Pushed.TheVariants as pushed;
ghost use Rattle.namespace_id.specs.Answers.{Gives};
ghost use Rattle.da_wire.specs.Reading.{promised, raw_seen};
ghost use Rattle.da_wire.specs.StreamParts.{kept_front, is_long, front_message, front_frame, IsUnfinished, KeepsFront, IsTakenPiece};
ghost use Rattle.da_wire.specs.Streams.{StreamStands, IsPush, kept_frame, why_no_frame, offset_of};
ghost use Rattle.da_wire.specs.Frames.{bad_frame};

use crate::frames::HEAD_SIZE;
use crate::{FrameError, RawFrame};
use axis_roots::Message;
use frame_fields::message;
use frame_payloads::{MAX_PAYLOAD, MOST_MESSAGE};
use namespace_id::{bytes_law, write_at};
use std::marker::Model;

/// How many bytes of a frame are kept: the head, and the greatest payload of a sample.
const FRONT_SIZE: usize = HEAD_SIZE + MOST_MESSAGE;

/// What the bytes that a push took come to.
#[derive(Debug, Drop)]
pub enum Pushed {
    /// Neither of the others; the whole piece was taken.
    More,
    /// They end a frame: its sample, where it is an M frame in the grammar.
    Frame(Option<Message>),
    /// The frame at this offset states a length above the limit.
    Bad(u64),
}

/// A reader of frames in pieces. Contracts see for which bytes it stands: those that its pushes took.
///
/// docs/FORMATS.md, "Streams of frames".
#[derive(Drop)]
pub struct FrameStream {
    // the offset of the frame under way
    at: u64,
    // how many bytes were taken
    taken: u64,
    // begins with the bytes of the frame under way, as many as fit
    front: [u8; FRONT_SIZE],
}

impl Model for FrameStream {
    ghost use Rattle.da_wire.specs.StreamParts.{StreamParts, IsStream};

    ghost Value = { StreamParts };

    ghost view = { λ s. record { at = s.at; taken = s.taken; front = s.front } };

    ghost invariant = { λ s. IsStream (record { at = s.at; taken = s.taken; front = s.front }) };
}

/// Copies bytes behind the first `have` of a room, as far as it holds them.
fn keep(front: &mut [u8], have: u64, bytes: &[u8])
    ensures first { take have front.new ≡ take have front.old }
    ensures none { length bytes.now ≡ 0 → front.new ≡ front.old }
    ensures kept { KeepsFront (length front.old) front.old front.new have bytes.now }
{
    let size = front.len();
    if have < size as u64 {
        let have = have as usize;
        let count = bytes.len().min(size - have);
        write_at(front, have, &bytes[..count]);
    }
}

/// Copies bytes of a frame up to its `goal`th behind the first `have` of a room, and answers how many.
fn fill(front: &mut [u8], have: u64, goal: u64, bytes: &[u8]) -> usize
    ensures count { result ≡ min (length bytes.now) (goal - have) }
    ensures first { take have front.new ≡ take have front.old }
    ensures none { result ≡ 0 → front.new ≡ front.old }
    ensures kept { KeepsFront (length front.old) front.old front.new have (take result bytes.now) }
{
    let count = goal.saturating_sub(have).min(bytes.len() as u64) as usize;
    keep(front, have, &bytes[..count]);
    count
}

/// The length that the head of a frame states.
fn stated(front: &[u8]) -> u32
    requires { 5 ≤ length front.now }
    ensures { result ≡ promised front.now }
{
    u32::from_be_bytes([front[1], front[2], front[3], front[4]])
}

/// Whether the frame of which `have` bytes are there states a length above the limit.
fn is_long(front: &[u8], have: u64) -> bool
    requires { 5 ≤ length front.now }
    ensures { result ≡ is_long front.now have }
{
    have >= HEAD_SIZE as u64 && stated(front) > MAX_PAYLOAD
}

/// Takes bytes of the frame of which `have` are there, to the end of its head where this states a length
/// above the limit, and else to its end. Of a frame that is too long already it takes all. It answers how
/// many it took.
fn take_some(front: &mut [u8], have: u64, piece: &[u8]) -> usize
    requires room { 5 ≤ length front.old }
    requires count { have + length piece.now < 2 ^ 64 }
    requires unfinished { IsUnfinished front.old have }
    ensures none { result ≡ 0 → front.new ≡ front.old }
    ensures kept { KeepsFront (length front.old) front.old front.new have (take result piece.now) }
    ensures taken { IsTakenPiece front.old front.new have (length piece.now) result }
{
    if is_long(front, have) {
        keep(front, have, piece);
        return piece.len();
    }
    let head = fill(front, have, HEAD_SIZE as u64, piece);
    let have = have + head as u64;
    if have < HEAD_SIZE as u64 || is_long(front, have) {
        return head;
    }
    let goal = HEAD_SIZE as u64 + u64::from(stated(front));
    head + fill(front, have, goal, &piece[head..])
}

/// The sample of the grammar that the frame in a room is, if it is one.
fn message_of(front: &[u8]) -> Option<Message>
    requires { length front.now ≡ kept_front }
    ensures { result ≡ front_message front.now }
{
    let size = stated(front) as usize;
    if front[0] != b'M' || size > FRONT_SIZE - HEAD_SIZE {
        return None;
    }
    message(&front[HEAD_SIZE..HEAD_SIZE + size])
}

/// The frame in a room, none where it is longer than the room.
fn frame_of(front: &[u8]) -> Option<RawFrame<'_>>
    requires { length front.now ≡ kept_front }
    ensures { Gives (λ f. raw_seen f) result (front_frame front.now) }
{
    let size = stated(front) as usize;
    if size > FRONT_SIZE - HEAD_SIZE {
        return None;
    }
    Some(RawFrame {
        kind: front[0],
        payload: &front[HEAD_SIZE..HEAD_SIZE + size],
        size: (HEAD_SIZE + size) as u64,
    })
}

impl FrameStream {
    /// A stream that took no bytes yet. It takes no memory.
    pub fn new() -> FrameStream
        ensures stands { StreamStands result [] }
        ensures taken { result.taken ≡ 0 }
    {
        FrameStream {
            at: 0,
            taken: 0,
            front: [0; FRONT_SIZE],
        }
    }

    /// Takes bytes from the front of a piece, up to the end of a frame, and answers how many, at least one of
    /// a piece that isn't empty, and what they come to. All bytes so far are fewer than 2^64.
    ///
    /// Of a frame that states a length above its limit the first push takes the bytes up to the fifth, and
    /// each later one the whole piece, for good. It takes no memory.
    ///
    /// docs/FORMATS.md, "Streams of frames".
    pub fn push(&mut self, piece: &[u8]) -> (usize, Pushed)
        requires { self.old.taken + length piece.now < 2 ^ 64 }
        ensures stands { (bytes : List ℕ) → StreamStands self.old bytes →
            StreamStands self.new (bytes ++ take result.0 piece.now) }
        ensures answer { (bytes : List ℕ) → StreamStands self.old bytes →
            IsPush bytes piece.now result.0 result.1 }
        ensures within { result.0 ≤ length piece.now }
        ensures some { 0 < length piece.now → 0 < result.0 }
        ensures taken { self.new.taken ≡ self.old.taken + result.0 }
    {
        bytes_law(piece);
        let count = take_some(&mut self.front, self.taken - self.at, piece);
        self.taken += count as u64;
        let have = self.taken - self.at;
        if is_long(&self.front, have) {
            return (count, Pushed::Bad(self.at));
        }
        if have < HEAD_SIZE as u64 + u64::from(stated(&self.front)) {
            return (count, Pushed::More);
        }
        self.at = self.taken;
        (count, Pushed::Frame(message_of(&self.front)))
    }

    /// The frame that the bytes so far end with, none where they aren't whole frames, at least one, and none
    /// where its payload is longer than the longest sample's. So it is the frame that the last push of a byte
    /// or more answered. It takes no memory.
    ///
    /// docs/FORMATS.md, "Streams of frames".
    pub fn last(&self) -> Option<RawFrame<'_>>
        ensures { (bytes : List ℕ) → StreamStands self.now bytes →
            Gives (λ f. raw_seen f) result (kept_frame bytes) }
    {
        if self.taken == 0 || self.at < self.taken {
            return None;
        }
        frame_of(&self.front)
    }

    /// Why the bytes so far are no list of frames, as `raw` refuses the first that is none; none where they
    /// are one. It takes no memory.
    ///
    /// docs/FORMATS.md, "Streams of frames".
    pub fn end(&self) -> Option<FrameError>
        ensures refusal { (bytes : List ℕ) → StreamStands self.now bytes →
            result ≡ why_no_frame bytes }
        ensures place { (bytes : List ℕ) → StreamStands self.now bytes →
            bad_frame bytes ≡ option_map offset_of result }
    {
        let have = self.taken - self.at;
        if have == 0 {
            return None;
        }
        if is_long(&self.front, have) {
            return Some(FrameError::TooLong(self.at));
        }
        Some(FrameError::Truncated(self.at))
    }
}
