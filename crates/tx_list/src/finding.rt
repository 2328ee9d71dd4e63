//! The blob that begins at a share of a square.

ghost use Rattle.std.specs.Prelude.{◌≡◌, IfOk, IfSome};
ghost use Rattle.share_split.specs.Joined.{IsBlob};
ghost use Rattle.share_split.specs.Walks.{size_in, is_signed};
ghost use Rattle.tx_list.specs.BackRefusals.{stated_count, sequence_at, the_one, blob_at};

use namespace_id::{NAMESPACE_SIZE, NoMemory, Share};
use share_split::{Blob, JoinError, LENGTH_PLACE, blob_share_count, join_blobs};
use std::alloc::Global;

/// The length that a share states of the sequence that it begins.
fn stated_size(share: &Share) -> u32
    ensures { result ≡ size_in share.now }
{
    let (_front, bytes) = share.0.split_at(LENGTH_PLACE);
    u32::from_be_bytes([bytes[0], bytes[1], bytes[2], bytes[3]])
}

/// Whether a share is the first one of a signed blob.
fn is_signed(share: &Share) -> bool
    ensures { result ≡ is_signed share.now }
{
    let info = share.0[NAMESPACE_SIZE];
    info % 2 == 1 && info / 2 == 1 && stated_size(share) != 0
}

/// How many shares a sequence takes that this share begins.
fn stated_count(share: &Share) -> u64
    ensures { result ≡ stated_count share.now }
{
    let size = stated_size(share);
    if size == 0 {
        return 1;
    }
    blob_share_count(u64::from(size), is_signed(share))
}

/// The shares of the sequence that begins at a place, as many of them as there are.
fn sequence_at(shares: &[Share], place: usize) -> &[Share]
    ensures { result.now ≡ sequence_at shares.now place }
{
    if place >= shares.len() {
        return &shares[..0];
    }
    let (_front, rest) = shares.split_at(place);
    let count = stated_count(&rest[0]).min(rest.len() as u64);
    rest.split_at(count as usize).0
}

/// The blob, where there is one and no other.
fn the_one(blobs: Vec<Blob>) -> Option<Blob>
    ensures { result ≡ the_one blobs.items }
{
    let mut blobs = blobs;
    if blobs.len() != 1 {
        return None;
    }
    blobs.pop()
}

/// The blob whose sequence begins at a place, if one does.
pub(crate) fn blob_at(alloc: Global, shares: &[Share], place: u32) -> Result<Option<Blob>, NoMemory>
    ensures blob { IfOk result (λ found. found ≡ blob_at shares.now place) }
    ensures held { IfOk result (λ found. IfSome found IsBlob) }
{
    match join_blobs(alloc, sequence_at(shares, place as usize)) {
        Ok(blobs) => Ok(the_one(blobs)),
        Err(JoinError::NoMemory) => Err(NoMemory),
        Err(_why) => Ok(None),
    }
}
