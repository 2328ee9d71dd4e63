//! Which blocks have no square.

ghost use Rattle.std.specs.Prelude.{◌≡◌, ◌<◌, ◌≤◌, Some, None};
ghost use Rattle.namespace_id.specs.Names.{namespace_refusal};
ghost use Rattle.square_layout.specs.Refusals.{bad_blob, empty_blob, blobs_refusal, width_refusal, size_refusal};

use crate::widths::square_size;
use crate::{LayError, MAX_SHARES};
use namespace_id::{Namespace, NsError, is_width};
use share_split::Blob;

/// Why a namespace isn't one of a blob.
fn namespace_refusal(name: &Namespace) -> Option<NsError>
    ensures { result ≡ namespace_refusal name.now.0 }
{
    Namespace::blob(&name.0).err()
}

/// The first blob whose namespace isn't one of a blob.
fn bad_blob(blobs: &[Blob]) -> Option<LayError>
    ensures { result ≡ bad_blob 0 blobs.now }
{
    for (i, blob) in blobs.iter().enumerate() {
        if let Some(e) = namespace_refusal(&blob.namespace) {
            return Some(LayError::BadBlob(i as u64, e));
        }
    }
    None
}

/// The first blob that has no bytes.
fn empty_blob(blobs: &[Blob]) -> Option<LayError>
    ensures { result ≡ empty_blob 0 blobs.now }
{
    for (i, blob) in blobs.iter().enumerate() {
        if blob.bytes.is_empty() {
            return Some(LayError::EmptyBlob(i as u64));
        }
    }
    None
}

/// The first check of blobs that fails: all namespaces come before all bytes.
pub(crate) fn blob_refusal(blobs: &[Blob]) -> Option<LayError>
    ensures { result ≡ blobs_refusal blobs.now }
{
    bad_blob(blobs).or_else(|| empty_blob(blobs))
}

/// Why a square of the width `k` doesn't hold so many shares.
fn width_refusal(count: u64, k: u16) -> Option<LayError>
    ensures { result ≡ width_refusal count k }
{
    if square_size(k) < count {
        return Some(LayError::WidthTooSmall(count));
    }
    if !is_width(k) {
        return Some(LayError::BadWidth);
    }
    None
}

/// Why no square holds so many shares, or not the one whose width is asked for.
pub(crate) fn size_refusal(width: Option<u16>, count: u64) -> Option<LayError>
    ensures { result ≡ size_refusal width count }
{
    if count > MAX_SHARES {
        return Some(LayError::TooLarge(count));
    }
    match width {
        Some(k) => width_refusal(count, k),
        None => None,
    }
}
