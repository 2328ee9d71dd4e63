//! The order of blobs in a square.

ghost use Rattle.std.specs.Prelude.{◌≡◌, map, IfOk};
ghost use Rattle.square_layout.specs.Layout.{in_order};

use namespace_id::NoMemory;
use share_split::Blob;
use std::alloc::Global;

/// Each blob of a slice, borrowed.
fn borrowed(alloc: Global, blobs: &[Blob]) -> Result<Vec<&Blob>, NoMemory>
    ensures { IfOk result (λ all. map (λ blob. blob.now) all.items ≡ blobs.now) }
{
    let Ok(all) = blobs.iter().collect(alloc) else {
        return Err(NoMemory);
    };
    Ok(all)
}

/// Borrowed blobs by ascending namespace, and within one namespace as they came.
///
/// Celestia specifications, "Square Layout".
pub(crate) fn in_order(blobs: Vec<&Blob>) -> Result<Vec<&Blob>, NoMemory>
    ensures { IfOk result (λ order. map (λ blob. blob.now) order.items
        ≡ in_order (map (λ blob. blob.now) blobs.entry.items)) }
{
    let mut order = blobs;
    let Ok(()) = order.sort_by_key(|blob| blob.namespace) else {
        return Err(NoMemory);
    };
    Ok(order)
}

/// Blobs by ascending namespace, and within one namespace as they came.
pub(crate) fn blobs_in_order(alloc: Global, blobs: &[Blob]) -> Result<Vec<&Blob>, NoMemory>
    ensures { IfOk result (λ order. map (λ blob. blob.now) order.items ≡ in_order blobs.now) }
{
    in_order(borrowed(alloc, blobs)?)
}
