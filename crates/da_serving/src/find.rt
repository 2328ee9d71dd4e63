//! find SQUARE COMMITMENT: where in a square the blobs stand that have a commitment.

ghost use Rattle.std.specs.Prelude.{◌≡◌, ◌≤◌, ◌+◌, ◌++◌, length, IfOk, OnOk};
ghost use Rattle.share_split.specs.Walks.{size_in};
ghost use Rattle.share_split.specs.Joined.{AreBlobs};
ghost use Rattle.share_split.specs.Joined.Piece.{blob as blob_piece};
ghost use Rattle.square_layout.specs.Layout.{share_count_of};
ghost use Rattle.square_layout.specs.Refusals.{max_shares};
ghost use Rattle.da_files.specs.Contents.{contents_of};
ghost use Rattle.da_files.specs.Frames.{square_in};
ghost use Rattle.da_files.specs.Forms.{single_judged};
ghost use Rattle.da_serving.specs.Find.{range_line, found_line, found_status, AreFound, Finds, FindOf};
ghost use Rattle.da_status.specs.Judging.{Judged};
ghost use Rattle.da_status.specs.Outcome.{EndsAtOnce};

use crate::blobs::behind_compact;
use crate::commit::commitment_in;
use da_files::{one_square, put};
use da_io::Sink;
use da_status::{Asked, Line, Status, around};
use namespace_id::{NoMemory, Share};
use share_split::{Blob, JoinError, LENGTH_PLACE, blob_share_count, join_blobs};
use square_layout::Square;
use std::alloc::Global;

/// The length that a share states of the sequence that it begins.
fn stated_size(share: &Share) -> u32
    ensures { result ≡ size_in share.now }
{
    let (_front, bytes) = share.0.split_at(LENGTH_PLACE);
    u32::from_be_bytes([bytes[0], bytes[1], bytes[2], bytes[3]])
}

/// The line of a range of shares.
fn range_line(start: u64, count: u64) -> Line
    ensures { result ≡ range_line start count }
{
    let mut line = Line::new();
    around(&mut line, b"", start, b" ");
    around(&mut line, b"", count, b"\n");
    line
}

/// How many shares a blob takes.
fn count_of(blob: &Blob) -> u64
    requires { 1 ≤ length blob.now.bytes }
    ensures { result ≡ share_count_of blob.now }
{
    blob_share_count(blob.bytes.len() as u64, blob.signer.is_some())
}

/// Appends the line of a blob that begins at a share, if it has the commitment.
fn put_found(
    alloc: Global,
    blob: &Blob,
    start: u64,
    commitment: &[u8; 32],
    text: &mut Vec<u8>,
) -> Result<(), NoMemory>
    requires some { 1 ≤ length blob.now.bytes }
    requires few { share_count_of blob.now ≤ max_shares }
    ensures { OnOk result (text.new.items
        ≡ text.old.items ++ found_line commitment.now start (blob_piece blob.now)) }
{
    if commitment_in(alloc, blob)? != *commitment {
        return Ok(());
    }
    let line = range_line(start, count_of(blob));
    text.extend_from_slice(line.as_bytes())?;
    Ok(())
}

/// The lines of the blobs that shares are, of which the first has this number.
fn found_lines(
    alloc: Global,
    shares: &[Share],
    blobs: &[Blob],
    first: u64,
    commitment: &[u8; 32],
) -> Result<Vec<u8>, NoMemory>
    requires are { AreBlobs shares.now blobs.now }
    requires few { first + length shares.now ≤ max_shares }
    ensures { IfOk result (λ text. AreFound commitment.now first shares.now text.items) }
{
    let mut text = Vec::new(alloc);
    let mut rest = shares;
    let mut left = blobs;
    let mut start = first;
    while let Some((share, after)) = rest.split_first() {
        if stated_size(share) == 0 {
            rest = after;
            start += 1;
        } else {
            let Some((blob, others)) = left.split_first() else {
                // Never taken: a sequence that states a length is a blob's.
                unreachable!()
            };
            put_found(alloc, blob, start, commitment, &mut text)?;
            let count = count_of(blob);
            rest = rest.split_at(count as usize).1;
            left = others;
            start += count;
        }
    }
    Ok(text)
}

/// The status of lines: there is one, or none.
fn found_status(text: &[u8]) -> Status
    ensures { result ≡ found_status text.now }
{
    if text.is_empty() {
        Status::Refused
    } else {
        Status::Done
    }
}

/// Writes the lines of the blobs of a square that have a commitment. All memory is taken before the write.
fn find<O: Sink>(alloc: Global, square: &Square, commitment: &[u8; 32], out: &mut O) -> Status
    ensures { EndsAtOnce (Finds commitment.now square.now) (O.taken out.old) (O.taken out.new)
        (O.faults out.old) (O.faults out.new) (out.new ≡ out.old) result }
{
    let shares = behind_compact(&square.shares);
    let first = (square.shares.len() - shares.len()) as u64;
    let blobs = match join_blobs(alloc, shares) {
        Ok(blobs) => blobs,
        Err(JoinError::NoMemory) => return Status::NoMemory,
        Err(why) => return Status::BadRequest(Asked::Shares(why)),
    };
    match found_lines(alloc, shares, &blobs, first, commitment) {
        Ok(text) => put(&text, found_status(&text), out),
        Err(_) => Status::NoMemory,
    }
}

/// Answers where in the square in SQUARE the blobs stand that have a commitment.
#[tactic(auto, using(da_files::proofs::FormLemmas::refused_once, da_files::proofs::FormLemmas::once_single))]
pub fn execute<O: Sink>(
    alloc: Global,
    files: &[Vec<u8>],
    commitment: &[u8; 32],
    out: &mut O,
) -> Status
    ensures { EndsAtOnce (Judged (single_judged square_in (contents_of files.now))
        (FindOf commitment.now (contents_of files.now))) (O.taken out.old) (O.taken out.new)
        (O.faults out.old) (O.faults out.new) (out.new ≡ out.old) result }
{
    match one_square(alloc, files) {
        Ok(square) => find(alloc, &square, commitment, out),
        Err(status) => status,
    }
}
