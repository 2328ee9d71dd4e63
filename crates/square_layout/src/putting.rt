//! The shares of a square, one part behind another.

ghost use Rattle.std.specs.Prelude.{◌≡◌, ◌≤◌, ◌+◌, ◌-◌, ◌++◌, map, length, replicate, vec_len, OnOk};
ghost use Rattle.share_split.specs.Blobs.{blob_shares_of};
ghost use Rattle.share_split.specs.Units.{unit_shares_of, unit_share_count};
ghost use Rattle.square_layout.specs.Blocks.{HaveBytes};
ghost use Rattle.square_layout.specs.Layout.{share_count_of, start_after, end_of, gap_behind, placed_behind};
ghost use Rattle.square_layout.specs.Refusals.{max_shares};

use crate::counting::start_after;
use namespace_id::{Namespace, NoMemory, Share};
use share_split::{
    Blob, SplitError, Unit, blob_laws, blob_shares, padding_share, signed_padding_share,
    unit_shares,
};
use std::alloc::Global;

/// Appends a padding share until there are `to` shares.
pub(crate) fn put_padding(gap: Share, to: usize, out: &mut Vec<Share>) -> Result<(), NoMemory>
    requires { vec_len out.old ≤ to }
    ensures { OnOk result (out.new.items ≡
        out.old.items ++ replicate (to - length out.old.items) gap) }
{
    let Ok(()) = out.resize(to, gap) else {
        return Err(NoMemory);
    };
    Ok(())
}

/// Appends the compact shares of units.
pub(crate) fn put_units(
    alloc: Global,
    namespace: &Namespace,
    units: &[Unit],
    out: &mut Vec<Share>,
) -> Result<(), NoMemory>
    requires { unit_share_count units.now ≤ max_shares }
    ensures { OnOk result (out.new.items ≡ out.old.items ++ unit_shares_of namespace.now units.now) }
{
    match unit_shares(alloc, namespace, units, out) {
        Ok(()) => Ok(()),
        Err(SplitError::NoMemory) => Err(NoMemory),
        Err(SplitError::Empty | SplitError::TooLong) => unreachable!(),
    }
}

/// Appends the shares of a blob.
fn put_content(blob: &Blob, out: &mut Vec<Share>) -> Result<(), NoMemory>
    requires some { 1 ≤ length blob.now.bytes }
    requires fits { share_count_of blob.now ≤ max_shares }
    ensures { OnOk result (out.new.items ≡
        out.old.items ++ blob_shares_of blob.now.namespace blob.now.signer blob.now.bytes) }
{
    blob_laws();
    match blob_shares(&blob.namespace, &blob.bytes, blob.signer.as_ref(), out) {
        Ok(()) => Ok(()),
        Err(SplitError::NoMemory) => Err(NoMemory),
        Err(SplitError::Empty | SplitError::TooLong) => unreachable!(),
    }
}

/// The padding behind a blob: of its namespace, and of the version of its shares where gaps have that.
fn gap_behind(versioned: bool, blob: &Blob) -> Share
    ensures { result ≡ gap_behind versioned blob.now }
{
    if versioned && blob.signer.is_some() {
        signed_padding_share(&blob.namespace)
    } else {
        padding_share(&blob.namespace)
    }
}

/// Appends the shares of a blob behind the padding before it.
fn put_blob(gap: Share, blob: &Blob, out: &mut Vec<Share>) -> Result<(), NoMemory>
    requires some { 1 ≤ length blob.now.bytes }
    requires fits { start_after (length out.old.items) blob.now + share_count_of blob.now ≤ max_shares }
    ensures { OnOk result (out.new.items ≡
        out.old.items
        ++ replicate (start_after (length out.old.items) blob.now - length out.old.items) gap
        ++ blob_shares_of blob.now.namespace blob.now.signer blob.now.bytes) }
{
    let start = start_after(out.len() as u64, blob);
    put_padding(gap, start as usize, out)?;
    put_content(blob, out)
}

/// Appends the shares of blobs, each behind the padding before it, the first behind this.
pub(crate) fn put_blobs(
    versioned: bool,
    gap: Share,
    blobs: &[&Blob],
    out: &mut Vec<Share>,
) -> Result<(), NoMemory>
    requires some { HaveBytes (map (λ blob. blob.now) blobs.now) }
    requires fits { end_of (length out.old.items) (map (λ blob. blob.now) blobs.now) ≤ max_shares }
    ensures { OnOk result (out.new.items ≡
        out.old.items ++ placed_behind versioned gap (length out.old.items)
        (map (λ blob. blob.now) blobs.now)) }
{
    let mut before = gap;
    for blob in blobs {
        put_blob(before, blob, out)?;
        before = gap_behind(versioned, blob);
    }
    Ok(())
}
