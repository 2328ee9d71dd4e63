//! Reading frames from the front of bytes.
//!
//! What bytes are and how a value is spelled are two functions: `frame_of`, `only_of` and `raw_of`
//! read a list of bytes field by field and name the first refusal (`specs/Reading.antt`),
//! `spelling` gives a value's bytes, where it has some (`specs/Spelling.antt`). Neither is a copy
//! of the other, and `wire_laws` ties both. A relation alone would not say what is refused.
//!
//! Files are walked by one definition (`specs/Walks.antt`): as frames of any kind, of which only
//! the framing counts, or as values of some kinds in the grammar. Frames are read where they lie,
//! and memory is taken only for a payload that is in its grammar, so no count that lies costs any.

ghost use Rattle.std.specs.Prelude.{◌≡◌, ◌↔◌, suc, ◌+◌, ◌<◌, ◌≤◌, ◌^◌, [], ◌∷◌, length, drop, true, Ok, Err, IsErr, IfOk, OnErr, IfSome, IsSome, IsNone, IsTrue, MatchOption};
ghost use Rattle.std.specs.Option.{option_map};
ghost use Rattle.namespace_id.specs.Answers.{Gives};
ghost use Rattle.da_wire.specs.declared.frames.FrameError.TheVariants.{NoMemory};
ghost use Rattle.da_wire.specs.Reading.{Reads, ReadsAt, raw_seen, raw_of, is_kind, value_of_kind, value_at, value_of, is_among, tested_raw, frame_of, ended, only_of};
ghost use Rattle.frame_payloads.specs.Payloads.{GivesUnlessFull};
ghost use Rattle.da_wire.specs.Frames.{frames_of, bad_frame};
ghost use Rattle.da_wire.specs.Writing.{kind_of};
ghost use Rattle.da_wire.specs.Values.{value_in, value_and_rest, values_of, bad_value};

use crate::frames::HEAD_SIZE;
use crate::kinds::Kind;
use crate::{Frame, FrameError, RawFrame};
use frame_fields::message;
use frame_payloads::{
    MAX_PAYLOAD, block, clash, commit, fraud, header, is_block, is_commit, is_fraud, is_header,
    is_missing, is_names, is_square, is_transactions, missing, names, refusal, request, rooted,
    sample, square, state, transactions,
};
use std::alloc::{AllocError, Global};

impl From<AllocError> for FrameError {
    ghost from_gives = { λ _ e. e ≡ NoMemory };

    fn from(_error: AllocError) -> FrameError {
        FrameError::NoMemory
    }
}

/// The frame at the front of bytes, of any kind. `at` is their offset in their file.
///
/// Refuses fewer than five bytes (`Truncated`), then a payload above its limit (`TooLong`), then one
/// that isn't all there (`Truncated`), each with `at`. It takes no memory.
///
/// docs/FORMATS.md, "Frames".
#[tactic(auto, unfolding(crate::specs::Reading::raw_of))]
pub fn raw(bytes: &[u8], at: u64) -> Result<RawFrame<'_>, FrameError>
    ensures value { ReadsAt (λ f. raw_seen f) result (raw_of at bytes.now) }
    ensures some { IfOk result (λ f. 5 ≤ f.size) }
    ensures within { IfOk result (λ f. f.size ≤ length bytes.now) }
{
    if bytes.len() < HEAD_SIZE {
        return Err(FrameError::Truncated(at));
    }
    let size = u32::from_be_bytes([bytes[1], bytes[2], bytes[3], bytes[4]]);
    if size > MAX_PAYLOAD {
        return Err(FrameError::TooLong(at));
    }
    if bytes.len() < HEAD_SIZE + size as usize {
        return Err(FrameError::Truncated(at));
    }
    Ok(RawFrame {
        kind: bytes[0],
        payload: &bytes[HEAD_SIZE..HEAD_SIZE + size as usize],
        size: HEAD_SIZE as u64 + u64::from(size),
    })
}

/// Whether there are values of this kind.
fn is_kind(kind: u8) -> bool
    ensures { result ≡ is_kind kind }
{
    Kind::of(kind).is_some()
}

/// The value of this kind whose payload the bytes are.
fn value_of_kind(alloc: Global, kind: Kind, payload: &[u8]) -> Result<Option<Frame>, AllocError>
    ensures { GivesUnlessFull result (value_of_kind kind payload.now) }
{
    match kind {
        Kind::Header => match header(alloc, payload)? {
            Some(header) => Ok(Some(Frame::Header(header))),
            None => Ok(None),
        },
        Kind::Square => match square(alloc, payload)? {
            Some(square) => Ok(Some(Frame::Square(square))),
            None => Ok(None),
        },
        Kind::Message => match message(payload) {
            Some(message) => Ok(Some(Frame::Message(message))),
            None => Ok(None),
        },
        Kind::Names => match names(alloc, payload)? {
            Some((name, answer)) => Ok(Some(Frame::Names(name, answer))),
            None => Ok(None),
        },
        Kind::Fraud => match fraud(alloc, payload)? {
            Some(claim) => Ok(Some(Frame::Fraud(claim))),
            None => Ok(None),
        },
        Kind::Missing => match missing(alloc, payload)? {
            Some(cells) => Ok(Some(Frame::Missing(cells))),
            None => Ok(None),
        },
        Kind::Clash => match clash(payload) {
            Some(clash) => Ok(Some(Frame::Clash(clash))),
            None => Ok(None),
        },
        Kind::Sample => match sample(payload) {
            Some((cell, axis)) => Ok(Some(Frame::Sample(cell, axis))),
            None => Ok(None),
        },
        Kind::Request => match request(payload) {
            Some(name) => Ok(Some(Frame::Request(name))),
            None => Ok(None),
        },
        Kind::Block => match block(alloc, payload)? {
            Some(block) => Ok(Some(Frame::Block(block))),
            None => Ok(None),
        },
        Kind::Commit => match commit(alloc, payload)? {
            Some(proof) => Ok(Some(Frame::Commit(proof))),
            None => Ok(None),
        },
        Kind::Rooted => match rooted(payload) {
            Some(proof) => Ok(Some(Frame::Rooted(proof))),
            None => Ok(None),
        },
        Kind::Transactions => match transactions(alloc, payload)? {
            Some(units) => Ok(Some(Frame::Transactions(units))),
            None => Ok(None),
        },
        Kind::Refusal => match refusal(payload) {
            Some(refusal) => Ok(Some(Frame::Refusal(refusal))),
            None => Ok(None),
        },
        Kind::State => match state(payload) {
            Some(_) => Ok(Some(Frame::State)),
            None => Ok(None),
        },
    }
}

/// The value of the kind that a byte is, whose payload the bytes are.
#[tactic(auto, unfolding(crate::specs::Reading::value_at))]
fn value(alloc: Global, kind: u8, payload: &[u8]) -> Result<Option<Frame>, AllocError>
    ensures { GivesUnlessFull result (value_at kind payload.now) }
{
    match Kind::of(kind) {
        Some(kind) => value_of_kind(alloc, kind, payload),
        None => Ok(None),
    }
}

/// Whether the payload is in the grammar of this kind. It takes no memory.
fn is_in_form(kind: Kind, payload: &[u8]) -> bool
    ensures { IsTrue result ↔ IsSome (value_of_kind kind payload.now) }
{
    match kind {
        Kind::Header => is_header(payload),
        Kind::Square => is_square(payload),
        Kind::Message => message(payload).is_some(),
        Kind::Names => is_names(payload),
        Kind::Fraud => is_fraud(payload),
        Kind::Missing => is_missing(payload),
        Kind::Clash => clash(payload).is_some(),
        Kind::Sample => sample(payload).is_some(),
        Kind::Request => request(payload).is_some(),
        Kind::Block => is_block(payload),
        Kind::Commit => is_commit(payload),
        Kind::Rooted => rooted(payload).is_some(),
        Kind::Transactions => is_transactions(payload),
        Kind::Refusal => refusal(payload).is_some(),
        Kind::State => state(payload).is_some(),
    }
}

/// Whether the payload is in the grammar of the kind that a byte is. It takes no memory.
#[tactic(auto, unfolding(crate::specs::Reading::value_at))]
fn has_value(kind: u8, payload: &[u8]) -> bool
    ensures { IsTrue result ↔ IsSome (value_at kind payload.now) }
{
    match Kind::of(kind) {
        Some(kind) => is_in_form(kind, payload),
        None => false,
    }
}

/// The value of a frame at this offset, and the offset after it.
fn valued(alloc: Global, frame: RawFrame<'_>, at: u64) -> Result<(Frame, u64), FrameError>
    requires { at + frame.size < 2 ^ 64 }
    ensures { Reads NoMemory (λ x. x) result (value_of at (Ok (raw_seen frame.entry))) }
{
    match value(alloc, frame.kind, frame.payload)? {
        Some(value) => Ok((value, at + frame.size)),
        None => Err(FrameError::BadPayload(at)),
    }
}

/// Why a frame at offset 0 after which a byte follows is refused.
pub(crate) fn refusal_before_more(frame: RawFrame<'_>) -> FrameError
    ensures { Err result ≡ ended (suc frame.entry.size) (value_of 0 (Ok (raw_seen frame.entry))) }
{
    if has_value(frame.kind, frame.payload) {
        FrameError::Trailing(frame.size)
    } else {
        FrameError::BadPayload(0)
    }
}

/// The value of the frame at the front of bytes, and the offset after it. `at` is the offset of the
/// bytes in their file, and `at` plus their number fits a `u64`.
///
/// Refuses no byte (`Truncated`), a kind that isn't one of H, S, M, N, B, K, X, Q, P, V, C, R, T, E and A
/// (`BadKind`), then what `raw` refuses, then a payload that isn't in the grammar of its kind
/// (`BadPayload`), each with `at`. Out of memory comes in place of a value alone: none is taken before
/// the payload is known to be in its grammar.
///
/// docs/FORMATS.md, "Frames" and "Payloads".
#[tactic(auto, unfolding(crate::specs::Reading::tested_raw))]
pub fn read_frame(alloc: Global, bytes: &[u8], at: u64) -> Result<(Frame, u64), FrameError>
    requires { at + length bytes.now < 2 ^ 64 }
    ensures { Reads NoMemory (λ x. x) result (frame_of at bytes.now) }
{
    if bytes.is_empty() {
        return Err(FrameError::Truncated(at));
    }
    if !is_kind(bytes[0]) {
        return Err(FrameError::BadKind(at));
    }
    valued(alloc, raw(bytes, at)?, at)
}

/// The frame at the front of bytes, of one of these kinds that there are, whatever its payload holds.
#[tactic(auto, unfolding(crate::specs::Reading::tested_raw))]
pub(crate) fn raw_among<'a>(bytes: &'a [u8], kinds: &[u8]) -> Result<RawFrame<'a>, FrameError>
    ensures value { ReadsAt (λ f. raw_seen f) result (tested_raw (is_among kinds.now) 0 bytes.now) }
    ensures some { IfOk result (λ f. 5 ≤ f.size) }
    ensures within { IfOk result (λ f. f.size ≤ length bytes.now) }
{
    if bytes.is_empty() {
        return Err(FrameError::Truncated(0));
    }
    if !is_kind(bytes[0]) || !kinds.contains(&bytes[0]) {
        return Err(FrameError::BadKind(0));
    }
    raw(bytes, 0)
}

/// The value of the one frame that the bytes are, of one of these kinds.
///
/// Refuses what `read_frame` at offset 0 refuses, where a kind that isn't one of `kinds` is `BadKind`
/// too; then a byte after the frame (`Trailing`), with its offset. Out of memory comes in place of a
/// value alone. A value is of one of `kinds`.
///
/// docs/FORMATS.md, "Frames" and "Payloads".
pub fn read_only(alloc: Global, bytes: &[u8], kinds: &[u8]) -> Result<Frame, FrameError>
    ensures read { Reads NoMemory (λ x. x) result (only_of bytes.now kinds.now) }
    ensures kind { IfOk result (λ f. is_among kinds.now (kind_of f) ≡ true) }
{
    let frame = raw_among(bytes, kinds)?;
    if frame.size < bytes.len() as u64 {
        return Err(refusal_before_more(frame));
    }
    let (value, _end) = valued(alloc, frame, 0)?;
    Ok(value)
}

/// The frame of any kind at the front of bytes, and the bytes after it; none where no frame stands
/// there. It takes no memory.
///
/// docs/FORMATS.md, "Lists of frames".
pub fn next_frame(bytes: &[u8]) -> Option<(RawFrame<'_>, &[u8])>
    ensures frames { MatchOption result (frames_of bytes.now ≡ [])
        (λ x. frames_of bytes.now ≡ raw_seen x.0 ∷ frames_of x.1.now) }
    ensures none { IsNone result ↔ IsErr (raw_of 0 bytes.now) }
    ensures after { IfSome result (λ x. x.1.now ≡ drop x.0.size bytes.now) }
    ensures shorter { IfSome result (λ x. length x.1.now < length bytes.now) }
{
    match raw(bytes, 0) {
        Ok(frame) => Some((frame, &bytes[frame.size as usize..])),
        Err(_) => None,
    }
}

/// The offset of the first place at which no frame stands though bytes are left; none where the bytes
/// are a list of frames. It takes no memory.
///
/// docs/FORMATS.md, "Lists of frames".
pub fn bad_frame(bytes: &[u8]) -> Option<u64>
    ensures { result ≡ bad_frame bytes.now }
{
    let mut at = 0;
    while at < bytes.len() {
        match raw(&bytes[at..], at as u64) {
            Ok(frame) => at += frame.size as usize,
            Err(_) => return Some(at as u64),
        }
    }
    None
}

/// The length of the frame at the front of bytes; none where no frame in the grammar, of one of these
/// kinds, stands there.
fn value_size(bytes: &[u8], kinds: &[u8]) -> Option<u64>
    ensures size { result ≡ option_map (λ x. x.1) (value_in kinds.now bytes.now) }
    ensures some { IfSome result (λ size. 0 < size) }
    ensures within { IfSome result (λ size. size ≤ length bytes.now) }
{
    match raw_among(bytes, kinds) {
        Ok(frame) if has_value(frame.kind, frame.payload) => Some(frame.size),
        _ => None,
    }
}

/// The offset of the first place at which no frame in the grammar, of one of these kinds, stands though
/// bytes are left; none where the bytes are a list of such frames. It takes no memory.
///
/// docs/FORMATS.md, "Lists of frames".
pub fn bad_value(bytes: &[u8], kinds: &[u8]) -> Option<u64>
    ensures { result ≡ bad_value kinds.now bytes.now }
{
    let mut at = 0;
    while at < bytes.len() {
        match value_size(&bytes[at..], kinds) {
            Some(size) => at += size as usize,
            None => return Some(at as u64),
        }
    }
    None
}

/// The value of the frame at the front of bytes, and the bytes after it; none where no frame in the
/// grammar, of one of these kinds, stands there. Out of memory comes in place of a value alone. A
/// value is of one of `kinds`.
///
/// docs/FORMATS.md, "Lists of frames".
pub fn next_value<'a>(
    alloc: Global,
    bytes: &'a [u8],
    kinds: &[u8],
) -> Result<Option<(Frame, &'a [u8])>, AllocError>
    ensures after { IfOk result (λ found.
        Gives (λ x. (x.0, x.1.now)) found (value_and_rest kinds.now bytes.now)) }
    ensures memory { OnErr result (IsSome (value_in kinds.now bytes.now)) }
    ensures values { IfOk result (λ found. MatchOption found (values_of kinds.now bytes.now ≡ [])
        (λ x. values_of kinds.now bytes.now ≡ x.0 ∷ values_of kinds.now x.1.now)) }
    ensures kind { IfOk result (λ found.
        IfSome found (λ x. is_among kinds.now (kind_of x.0) ≡ true)) }
    ensures shorter { IfOk result (λ found.
        IfSome found (λ x. length x.1.now < length bytes.now)) }
{
    let Ok(frame) = raw_among(bytes, kinds) else {
        return Ok(None);
    };
    match value(alloc, frame.kind, frame.payload)? {
        Some(value) => Ok(Some((value, &bytes[frame.size as usize..]))),
        None => Ok(None),
    }
}
