//! Readers of frames of one kind: each gives the value that frames of its kind have.

ghost use Rattle.std.specs.Prelude.{◌≡◌, ◌<◌, [], ◌∷◌, length, IfSome, None, MatchOption, MatchResult, Err};
ghost use Rattle.std.specs.Option.{option_map, option_map_or};
ghost use Rattle.namespace_id.specs.Answers.{Gives};
ghost use Rattle.da_wire.specs.declared.frames.Frame.TheVariants as FrameOf;
ghost use Rattle.da_wire.specs.declared.frames.FrameError.TheVariants.{NoMemory};
ghost use Rattle.da_wire.specs.Spelling.{sample_kind, request_kind};
ghost use Rattle.da_wire.specs.Reading.{value_at, only_of, Reads, ReadsAt};
ghost use Rattle.da_wire.specs.Values.{value_and_rest, values_of};
ghost use Rattle.da_wire.specs.Single.{of_payload, only_header, only_square, only_message, only_claim, only_missing, only_block};

use crate::FrameError;
use crate::reading::{raw_among, refusal_before_more};
use axis_roots::{FraudClaim, Message};
use data_header::Header;
use frame_fields::message;
use frame_payloads::{block, fraud, header, missing, request, sample, square};
use namespace_id::{Axis, Cell, Cells, Namespace};
use square_layout::{Block, Square};
use std::alloc::Global;

/// The payload of the frame of this kind at the front of bytes, and the bytes after it. It takes no memory.
fn next_payload(bytes: &[u8], kind: u8) -> Option<(&[u8], &[u8])>
    ensures after { MatchOption result (value_and_rest (kind ∷ []) bytes.now ≡ None)
        (λ x. value_and_rest (kind ∷ []) bytes.now ≡ option_map (λ v. (v, x.1.now)) (value_at kind x.0.now)) }
    ensures values { MatchOption result (values_of (kind ∷ []) bytes.now ≡ [])
        (λ x. values_of (kind ∷ []) bytes.now
        ≡ option_map_or (λ v. v ∷ values_of (kind ∷ []) x.1.now) (value_at kind x.0.now) []) }
    ensures shorter { IfSome result (λ x. length x.1.now < length bytes.now) }
{
    let Ok(frame) = raw_among(bytes, &[kind]) else {
        return None;
    };
    Some((frame.payload, &bytes[frame.size as usize..]))
}

/// The request for a sample at the front of bytes, and the bytes after it; none where no Q frame in
/// the grammar stands there. It takes no memory.
///
/// docs/FORMATS.md, "Lists of frames".
#[tactic(auto, unfolding(crate::specs::Reading::value_at))]
pub fn next_sample(bytes: &[u8]) -> Option<((Cell, Axis), &[u8])>
    ensures after { Gives (λ x. (FrameOf.Sample x.0.0 x.0.1, x.1.now)) result
        (value_and_rest (sample_kind ∷ []) bytes.now) }
    ensures values { MatchOption result (values_of (sample_kind ∷ []) bytes.now ≡ [])
        (λ x. values_of (sample_kind ∷ []) bytes.now
        ≡ FrameOf.Sample x.0.0 x.0.1 ∷ values_of (sample_kind ∷ []) x.1.now) }
    ensures shorter { IfSome result (λ x. length x.1.now < length bytes.now) }
{
    let (payload, rest) = next_payload(bytes, b'Q')?;
    match sample(payload) {
        Some(asked) => Some((asked, rest)),
        None => None,
    }
}

/// The request for the shares of a namespace at the front of bytes, and the bytes after it; none where
/// no P frame in the grammar stands there. It takes no memory.
///
/// docs/FORMATS.md, "Lists of frames".
#[tactic(auto, unfolding(crate::specs::Reading::value_at))]
pub fn next_request(bytes: &[u8]) -> Option<(Namespace, &[u8])>
    ensures after { Gives (λ x. (FrameOf.Request x.0, x.1.now)) result
        (value_and_rest (request_kind ∷ []) bytes.now) }
    ensures values { MatchOption result (values_of (request_kind ∷ []) bytes.now ≡ [])
        (λ x. values_of (request_kind ∷ []) bytes.now
        ≡ FrameOf.Request x.0 ∷ values_of (request_kind ∷ []) x.1.now) }
    ensures shorter { IfSome result (λ x. length x.1.now < length bytes.now) }
{
    let (payload, rest) = next_payload(bytes, b'P')?;
    match request(payload) {
        Some(name) => Some((name, rest)),
        None => None,
    }
}

/// The payload of the one frame of this kind that the bytes are. It takes no memory.
fn only_payload(bytes: &[u8], kind: u8) -> Result<&[u8], FrameError>
    ensures { MatchResult result (λ payload. only_of bytes.now (kind ∷ []) ≡ of_payload kind payload.now)
        (λ e. only_of bytes.now (kind ∷ []) ≡ Err e) }
{
    let frame = raw_among(bytes, &[kind])?;
    if frame.size < bytes.len() as u64 {
        return Err(refusal_before_more(frame));
    }
    Ok(frame.payload)
}

/// The header of the one H frame that the bytes are.
///
/// Refuses what `read_only` refuses for this kind, in the same order. Out of memory comes in place of
/// a header alone.
///
/// docs/FORMATS.md, "Frames" and "Payloads".
#[tactic(auto, unfolding(crate::specs::Reading::value_at))]
pub fn read_header(alloc: Global, bytes: &[u8]) -> Result<Header, FrameError>
    ensures { Reads NoMemory (λ x. x) result (only_header bytes.now) }
{
    match header(alloc, only_payload(bytes, b'H')?)? {
        Some(header) => Ok(header),
        None => Err(FrameError::BadPayload(0)),
    }
}

/// The square of the one S frame that the bytes are. It refuses as `read_header` does.
///
/// docs/FORMATS.md, "Frames" and "Payloads".
#[tactic(auto, unfolding(crate::specs::Reading::value_at))]
pub fn read_square(alloc: Global, bytes: &[u8]) -> Result<Square, FrameError>
    ensures { Reads NoMemory (λ x. x) result (only_square bytes.now) }
{
    match square(alloc, only_payload(bytes, b'S')?)? {
        Some(square) => Ok(square),
        None => Err(FrameError::BadPayload(0)),
    }
}

/// The sample of the one M frame that the bytes are. It refuses as `read_header` does, and takes no
/// memory.
///
/// docs/FORMATS.md, "Frames" and "Payloads".
#[tactic(auto, unfolding(crate::specs::Reading::value_at))]
pub fn read_message(bytes: &[u8]) -> Result<Message, FrameError>
    ensures { ReadsAt (λ x. x) result (only_message bytes.now) }
{
    match message(only_payload(bytes, b'M')?) {
        Some(message) => Ok(message),
        None => Err(FrameError::BadPayload(0)),
    }
}

/// The fraud claim of the one B frame that the bytes are. It refuses as `read_header` does.
///
/// docs/FORMATS.md, "Frames" and "Payloads".
#[tactic(auto, unfolding(crate::specs::Reading::value_at))]
pub fn read_claim(alloc: Global, bytes: &[u8]) -> Result<FraudClaim, FrameError>
    ensures { Reads NoMemory (λ x. x) result (only_claim bytes.now) }
{
    match fraud(alloc, only_payload(bytes, b'B')?)? {
        Some(claim) => Ok(claim),
        None => Err(FrameError::BadPayload(0)),
    }
}

/// The missing cells of the one K frame that the bytes are. It refuses as `read_header` does.
///
/// docs/FORMATS.md, "Frames" and "Payloads".
#[tactic(auto, unfolding(crate::specs::Reading::value_at))]
pub fn read_missing(alloc: Global, bytes: &[u8]) -> Result<Cells, FrameError>
    ensures { Reads NoMemory (λ x. x) result (only_missing bytes.now) }
{
    match missing(alloc, only_payload(bytes, b'K')?)? {
        Some(cells) => Ok(cells),
        None => Err(FrameError::BadPayload(0)),
    }
}

/// The block of the one V frame that the bytes are. It refuses as `read_header` does.
///
/// docs/FORMATS.md, "Frames" and "Payloads".
#[tactic(auto, unfolding(crate::specs::Reading::value_at))]
pub fn read_block(alloc: Global, bytes: &[u8]) -> Result<Block, FrameError>
    ensures { Reads NoMemory (λ x. x) result (only_block bytes.now) }
{
    match block(alloc, only_payload(bytes, b'V')?)? {
        Some(block) => Ok(block),
        None => Err(FrameError::BadPayload(0)),
    }
}
