//! How many shares a layout has.

ghost use Rattle.std.specs.Prelude.{◌≡◌, ◌+◌, ◌-◌, ◌≤◌, ◌^◌, min, map, length};
ghost use Rattle.share_split.specs.Widths.{subtree_width_of};
ghost use Rattle.square_layout.specs.Blocks.{HaveBytes};
ghost use Rattle.square_layout.specs.Layout.{share_count_of, start_after, end_of, in_order, needed};
ghost use Rattle.square_layout.specs.Refusals.{most_named};

use crate::Block;
use share_split::{Blob, blob_share_count, subtree_width, unit_share_count};

/// How many shares a blob takes.
fn share_count_of(blob: &Blob) -> u64
    requires { 1 ≤ length blob.now.bytes }
    ensures value { result ≡ share_count_of blob.now }
    ensures some { 1 ≤ result }
    ensures bound { result ≤ 2 ^ 56 }
{
    blob_share_count(blob.bytes.len() as u64, blob.signer.is_some())
}

/// The most shares that a blob may take: its own, and before them as much padding as its start may need.
pub(crate) fn blob_bound(blob: &Blob) -> u64
    requires { 1 ≤ length blob.now.bytes }
    ensures { result ≡ share_count_of blob.now + (subtree_width_of (share_count_of blob.now) - 1) }
{
    let count = share_count_of(blob);
    count + (subtree_width(count) - 1)
}

/// Where a blob starts if what precedes it ends at `end`: at the least multiple of the width of its subtrees that
/// isn't below; 2^64 - 1 for any greater place. Takes no memory.
///
/// Celestia specifications, "Square Layout".
pub fn start_after(end: u64, blob: &Blob) -> u64
    requires { 1 ≤ length blob.now.bytes }
    ensures { result ≡ min (start_after end blob.now) most_named }
{
    let width = subtree_width(share_count_of(blob));
    end.div_ceil(width).saturating_mul(width)
}

/// Where a blob ends if what precedes it ends at `end`; 2^64 - 1 for any greater place. Takes no memory.
pub fn end_after(end: u64, blob: &Blob) -> u64
    requires { 1 ≤ length blob.now.bytes }
    ensures { result ≡ min (start_after end blob.now + share_count_of blob.now) most_named }
{
    start_after(end, blob).saturating_add(share_count_of(blob))
}

/// Where the last of some blobs ends if what precedes them ends at `end`; 2^64 - 1 for any greater
/// place.
pub(crate) fn end_of(end: u64, blobs: &[&Blob]) -> u64
    requires { HaveBytes (map (λ blob. blob.now) blobs.now) }
    ensures { result ≡ min (end_of end (map (λ blob. blob.now) blobs.now)) most_named }
{
    let mut end = end;
    for blob in blobs {
        end = end_after(end, blob);
    }
    end
}

/// How many shares the layout of a block has, whose blobs stand in this order; 2^64 - 1 for any
/// greater number.
pub(crate) fn needed(block: &Block, order: &[&Blob]) -> u64
    requires order { map (λ blob. blob.now) order.now ≡ in_order block.now.blobs }
    requires some { HaveBytes (map (λ blob. blob.now) order.now) }
    ensures { result ≡ min (needed block.now) most_named }
{
    let units = unit_share_count(&block.units);
    let compact = units.saturating_add(unit_share_count(&block.pay_units));
    end_of(compact, order).max(1)
}
