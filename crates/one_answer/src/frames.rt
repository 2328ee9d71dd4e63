//! Of frames.

ghost use Rattle.std.specs.Prelude.{◌≡◌, ◌<◌, ◌+◌, ◌^◌, ℕ, List, Result, IfOk, OnOk, length};
ghost use Rattle.std.specs.Option.{option_map};
ghost use Rattle.da_wire.specs.declared.briefs.Brief.{Brief as BriefOf};
ghost use Rattle.da_wire.specs.declared.frames.Frame.{Frame as FrameOf};
ghost use Rattle.da_wire.specs.declared.frames.FrameError.TheVariants.{NoMemory as Full};
ghost use Rattle.da_wire.specs.declared.frames.SpellError.TheVariants.{NoMemory as NoRoom};
ghost use Rattle.da_wire.specs.Reading.{Raw, raw_seen};
ghost use Rattle.one_answer.specs.Ones.{AreOne};

use axis_roots::{FraudClaim, FraudProof};
use da_wire::{
    Brief, Frame, FrameError, RawFrame, SpellError, next_brief, next_frame, next_value, read_block,
    read_claim, read_frame, read_header, read_missing, read_only, read_square, write_frame,
    write_proof,
};
use data_header::Header;
use namespace_id::{Cells, NoMemory};
use square_layout::{Block, Square};
use std::alloc::{AllocError, Global};

/// Bytes are one frame, or refused for one reason.
pub fn read_frame_twice(
    alloc: Global,
    bytes: &[u8],
    at: u64,
) -> (
    Result<(Frame, u64), FrameError>,
    Result<(Frame, u64), FrameError>,
)
    requires { at + length bytes.now < 2 ^ 64 }
    ensures { AreOne (λ x. x) Full result.0 result.1 }
{
    let first = read_frame(alloc, bytes, at);
    let second = read_frame(alloc, bytes, at);
    (first, second)
}

/// So are they where they are to be one frame of some kinds.
pub fn read_only_twice(
    alloc: Global,
    bytes: &[u8],
    kinds: &[u8],
) -> (Result<Frame, FrameError>, Result<Frame, FrameError>)
    ensures { AreOne (λ x. x) Full result.0 result.1 }
{
    let first = read_only(alloc, bytes, kinds);
    let second = read_only(alloc, bytes, kinds);
    (first, second)
}

/// So are they where they are to be a header.
pub fn read_header_twice(
    alloc: Global,
    bytes: &[u8],
) -> (Result<Header, FrameError>, Result<Header, FrameError>)
    ensures { AreOne (λ x. x) Full result.0 result.1 }
{
    let first = read_header(alloc, bytes);
    let second = read_header(alloc, bytes);
    (first, second)
}

/// Or a square.
pub fn read_square_twice(
    alloc: Global,
    bytes: &[u8],
) -> (Result<Square, FrameError>, Result<Square, FrameError>)
    ensures { AreOne (λ x. x) Full result.0 result.1 }
{
    let first = read_square(alloc, bytes);
    let second = read_square(alloc, bytes);
    (first, second)
}

/// Or a fraud claim.
pub fn read_claim_twice(
    alloc: Global,
    bytes: &[u8],
) -> (
    Result<FraudClaim, FrameError>,
    Result<FraudClaim, FrameError>,
)
    ensures { AreOne (λ x. x) Full result.0 result.1 }
{
    let first = read_claim(alloc, bytes);
    let second = read_claim(alloc, bytes);
    (first, second)
}

/// Or missing cells.
pub fn read_missing_twice(
    alloc: Global,
    bytes: &[u8],
) -> (Result<Cells, FrameError>, Result<Cells, FrameError>)
    ensures { AreOne (λ x. x) Full result.0 result.1 }
{
    let first = read_missing(alloc, bytes);
    let second = read_missing(alloc, bytes);
    (first, second)
}

/// Or a block.
pub fn read_block_twice(
    alloc: Global,
    bytes: &[u8],
) -> (Result<Block, FrameError>, Result<Block, FrameError>)
    ensures { AreOne (λ x. x) Full result.0 result.1 }
{
    let first = read_block(alloc, bytes);
    let second = read_block(alloc, bytes);
    (first, second)
}

/// Bytes begin with one frame, or with none.
pub fn next_frame_twice(
    bytes: &[u8],
) -> (Option<(RawFrame<'_>, &[u8])>, Option<(RawFrame<'_>, &[u8])>)
    ensures { option_map {U = Raw × List ℕ} (λ x. (raw_seen x.0, x.1.now)) result.0
        ≡ option_map {U = Raw × List ℕ} (λ x. (raw_seen x.0, x.1.now)) result.1 }
{
    let first = next_frame(bytes);
    let second = next_frame(bytes);
    (first, second)
}

/// One value of some kinds is the first, or none.
pub fn next_value_twice<'a>(
    alloc: Global,
    bytes: &'a [u8],
    kinds: &[u8],
) -> (
    Result<Option<(Frame, &'a [u8])>, AllocError>,
    Result<Option<(Frame, &'a [u8])>, AllocError>,
)
    ensures { IfOk result.0 (λ one. IfOk result.1 (λ other.
        option_map {U = FrameOf × List ℕ} (λ x. (x.0, x.1.now)) one
        ≡ option_map {U = FrameOf × List ℕ} (λ x. (x.0, x.1.now)) other)) }
{
    let first = next_value(alloc, bytes, kinds);
    let second = next_value(alloc, bytes, kinds);
    (first, second)
}

/// So is one that may be short, as it is shown.
pub fn next_brief_twice(
    alloc: Global,
    bytes: &[u8],
) -> (
    Result<Option<(Brief, &[u8])>, AllocError>,
    Result<Option<(Brief, &[u8])>, AllocError>,
)
    ensures { IfOk result.0 (λ one. IfOk result.1 (λ other.
        option_map {U = BriefOf × List ℕ} (λ x. (x.0, x.1.now)) one
        ≡ option_map {U = BriefOf × List ℕ} (λ x. (x.0, x.1.now)) other)) }
{
    let first = next_brief(alloc, bytes);
    let second = next_brief(alloc, bytes);
    (first, second)
}

/// A value is written in one way, or has no spelling.
pub fn write_frame_twice(
    frame: &Frame,
    one: &mut Vec<u8>,
    other: &mut Vec<u8>,
) -> (Result<(), SpellError>, Result<(), SpellError>)
    requires same { one.old.items ≡ other.old.items }
    ensures answer { AreOne (λ x. x) NoRoom result.0 result.1 }
    ensures state { OnOk result.0 (OnOk result.1 (one.new.items ≡ other.new.items)) }
{
    let first = write_frame(frame, one);
    let second = write_frame(frame, other);
    (first, second)
}

/// So is a fraud proof.
pub fn write_proof_twice(
    proof: &FraudProof,
    one: &mut Vec<u8>,
    other: &mut Vec<u8>,
) -> (Result<(), NoMemory>, Result<(), NoMemory>)
    requires same { one.old.items ≡ other.old.items }
    ensures state { OnOk result.0 (OnOk result.1 (one.new.items ≡ other.new.items)) }
{
    let first = write_proof(proof, one);
    let second = write_proof(proof, other);
    (first, second)
}
