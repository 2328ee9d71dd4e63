//! blobs SHARES: the blobs that the shares of a square, or of a namespace answer, are.

ghost use Rattle.std.specs.Prelude.{◌≡◌, ◌≤◌, ◌*◌, ◌++◌, length, IfOk, OnOk, IsSome, None, Ok};
ghost use Rattle.std.specs.List.{flat_map};
ghost use Rattle.share_split.specs.Walks.{blobs_joined};
ghost use Rattle.square_layout.specs.Blocks.{BlockParts, IsBlock};
ghost use Rattle.square_layout.specs.Layout.{in_order, block_square};
ghost use Rattle.namespace_id.specs.Sizes.{share_size};
ghost use Rattle.square_layout.specs.Refusals.{max_shares, layout_refusal};
ghost use Rattle.blob_feed.specs.Feeds.{shares_found};
ghost use Rattle.da_wire.specs.declared.frames.Frame.TheVariants as FrameOf;
ghost use Rattle.da_wire.specs.Spelling.{spelling};
ghost use Rattle.frame_payloads.specs.kinds.Block.{blob_bytes};
ghost use Rattle.da_files.specs.Contents.{contents_of};
ghost use Rattle.da_files.specs.Frames.{ReadsSingle};
ghost use Rattle.da_serving.specs.Blobs.{is_compact, behind_compact, answer_shares, frame_shares, shares_frame, block_with, JoinsShares, BlobsOf};
ghost use Rattle.da_files.specs.Forms.{single_judged};
ghost use Rattle.da_status.specs.Judging.{Judged};
ghost use Rattle.da_status.specs.Outcome.{EndsAtOnce};

use axis_roots::{Found, NsAnswer};
use da_files::{Unread, file, give, reason};
use da_io::Sink;
use da_status::{Asked, Status};
use da_wire::{Frame, read_only, wire_laws};
use namespace_id::{NoMemory, PAY_FOR_BLOB, Share, TRANSACTION, bytes_law};
use share_split::{Blob, JoinError, join_blobs, join_laws};
use square_layout::{Block, name_laws, share_laws, size_laws};
use std::alloc::Global;

/// The place of the file among the words that name files.
const SHARES: u32 = 0;

/// Whether a share is of transactions or of payments for blobs.
fn is_compact(share: &Share) -> bool
    ensures { result ≡ is_compact share.now }
{
    let name = share.namespace();
    name.0 == TRANSACTION.0 || name.0 == PAY_FOR_BLOB.0
}

/// The shares behind the longest front of compact shares.
#[tactic(auto, unfolding(crate::specs::Blobs::behind_compact))]
pub(crate) fn behind_compact(shares: &[Share]) -> &[Share]
    ensures { result.now ≡ behind_compact shares.now }
{
    let mut rest = shares;
    while let Some((share, after)) = rest.split_first() {
        if !is_compact(share) {
            return rest;
        }
        rest = after;
    }
    rest
}

/// Appends the shares that are found in a row.
fn put_found(found: &Found, shares: &mut Vec<Share>) -> Result<(), NoMemory>
    ensures { OnOk result (shares.new.items ≡ shares.old.items ++ shares_found found.now) }
{
    match found {
        Found::Range { shares: found, .. } => shares.extend_from_slice(&found.list)?,
        Found::Absence { .. } => {}
    }
    Ok(())
}

/// The shares of a namespace answer, entry after entry.
fn answer_shares(alloc: Global, answer: &NsAnswer) -> Result<Vec<Share>, NoMemory>
    ensures { IfOk result (λ shares. shares.items ≡ answer_shares answer.now) }
{
    let mut shares = Vec::new(alloc);
    let mut rest = answer.entries.as_slice();
    while let Some((entry, after)) = rest.split_first() {
        put_found(&entry.found, &mut shares)?;
        rest = after;
    }
    Ok(shares)
}

/// The square or the namespace answer that a file is.
fn shares_in(alloc: Global, bytes: &[u8]) -> Result<Frame, Unread>
    ensures read { ReadsSingle result (shares_frame bytes.now) }
    ensures spelled { IfOk result (λ frame. IsSome (spelling frame)) }
{
    wire_laws();
    bytes_law(bytes);
    match read_only(alloc, bytes, b"SN") {
        Ok(frame) => Ok(frame),
        Err(error) => Err(reason(error)),
    }
}

/// The frame of blobs that are short enough to be written.
fn block_frame(alloc: Global, blobs: Vec<Blob>) -> Frame
    requires { length (flat_map blob_bytes blobs.items) ≤ max_shares * share_size }
    ensures value { result ≡ FrameOf.Block (block_with blobs.items) }
    ensures spelled { IsSome (spelling result) }
{
    Frame::Block(Block {
        units: Vec::new(alloc),
        pay_units: Vec::new(alloc),
        blobs,
        width: None,
    })
}

/// Writes the frame of the blobs that shares are, if they are any. All memory is taken before the
/// write.
fn give_blobs<O: Sink>(alloc: Global, shares: &[Share], out: &mut O) -> Status
    requires { length shares.now ≤ max_shares }
    ensures { EndsAtOnce (JoinsShares shares.now) (O.taken out.old) (O.taken out.new) (O.faults out.old)
        (O.faults out.new) (out.new ≡ out.old) result }
{
    match join_blobs(alloc, shares) {
        Ok(blobs) => give(block_frame(alloc, blobs), &mut Vec::new(alloc), out),
        Err(JoinError::NoMemory) => Status::NoMemory,
        Err(why) => Status::BadRequest(Asked::Shares(why)),
    }
}

/// Writes the frame of the blobs that the shares of a square or of a namespace answer are.
fn give_of<O: Sink>(alloc: Global, frame: &Frame, out: &mut O) -> Status
    requires { IsSome (spelling frame.now) }
    ensures { EndsAtOnce (JoinsShares (frame_shares frame.now)) (O.taken out.old) (O.taken out.new)
        (O.faults out.old) (O.faults out.new) (out.new ≡ out.old) result }
{
    match frame {
        Frame::Square(square) => give_blobs(alloc, behind_compact(&square.shares), out),
        Frame::Names(_, answer) => match answer_shares(alloc, answer) {
            Ok(shares) => give_blobs(alloc, &shares, out),
            Err(_) => Status::NoMemory,
        },
        // A frame of another kind has no shares for blobs.
        _ => give_blobs(alloc, &[], out),
    }
}

/// Answers the blobs in SHARES. All memory is taken before the write.
pub fn execute<O: Sink>(alloc: Global, files: &[Vec<u8>], out: &mut O) -> Status
    ensures { EndsAtOnce (Judged (single_judged shares_frame (contents_of files.now))
        (BlobsOf (contents_of files.now))) (O.taken out.old) (O.taken out.new) (O.faults out.old)
        (O.faults out.new) (out.new ≡ out.old) result }
{
    match shares_in(alloc, file(files, SHARES)) {
        Ok(frame) => {
            let status = give_of(alloc, &frame, out);
            drop(frame);
            status
        }
        Err(Unread::BadForm(at)) => Status::BadInput(SHARES, at),
        Err(Unread::NoMemory) => Status::NoMemory,
    }
}

/// What is read of the square of a block that isn't refused: exactly its blobs, with their signers, by ascending namespace.
pub fn blobs_laws()
    ensures back { (block : BlockParts) → layout_refusal block ≡ None → IsBlock block →
        blobs_joined (behind_compact (block_square block).shares) ≡ Ok (in_order block.blobs) }
{
    join_laws();
    name_laws();
    share_laws();
    size_laws();
}
