//! The fields of a share.

ghost use Rattle.std.specs.Prelude.{◌≡◌, ◌≤◌, ◌+◌, length, take};
ghost use Rattle.std.specs.Int.{w32, from_be_bytes};
ghost use Rattle.share_split.specs.Blobs.{later_content};
ghost use Rattle.share_split.specs.Walks.{version_in, is_start, size_in, share_fields, is_signed, signer_in};
ghost use Rattle.share_split.specs.Walks.{bytes_before, content_in, reserved_in, is_filled};

use crate::blobs::split_within;
use crate::walking::Form;
use crate::{FIRST_CONTENT, LATER_CONTENT, LENGTH_PLACE, SIGNER_SIZE};
use namespace_id::{NAMESPACE_SIZE, SHARE_SIZE, Share, is_zeros, share_law};

/// The version of a share.
pub(crate) fn version(share: &Share) -> u8
    ensures { result ≡ version_in share.now }
{
    share.0[NAMESPACE_SIZE] / 2
}

/// The reserved bytes of a compact share, which come before its content.
///
/// Celestia specifications, "Shares", transaction shares.
const RESERVED_SIZE: usize = 4;

/// The version of the shares of a signed blob.
const SIGNED_VERSION: u8 = 1;

/// Whether a share is the first one of a sequence.
pub(crate) fn is_start(share: &Share) -> bool
    ensures { result ≡ is_start share.now }
{
    share.0[NAMESPACE_SIZE] % 2 == 1
}

/// The number that the first four bytes state, the highest first.
fn number(bytes: &[u8]) -> u32
    requires { 4 ≤ length bytes.now }
    ensures { result ≡ from_be_bytes w32 (take 4 bytes.now) }
{
    u32::from_be_bytes([bytes[0], bytes[1], bytes[2], bytes[3]])
}

/// The length of the sequence that a share begins.
pub(crate) fn size(share: &Share) -> u32
    ensures { result ≡ size_in share.now }
{
    number(share.0.split_at(LENGTH_PLACE).1)
}

/// The bytes behind the info byte and, in a first share, the length of the sequence.
fn fields(share: &Share) -> &[u8]
    ensures value { result.now ≡ share_fields share.now }
    ensures some { later_content ≤ length result.now + 4 }
{
    if is_start(share) {
        share.0.split_at(SHARE_SIZE - FIRST_CONTENT).1
    } else {
        share.0.split_at(SHARE_SIZE - LATER_CONTENT).1
    }
}

/// The number that the reserved bytes of a compact share state.
pub(crate) fn reserved(share: &Share) -> u32
    ensures { result ≡ reserved_in share.now }
{
    number(fields(share))
}

/// Whether a share is the first one of a signed blob. One of version 1 that begins a sequence of
/// length 0 is padding.
fn is_signed(share: &Share) -> bool
    ensures { result ≡ is_signed share.now }
{
    is_start(share) && version(share) == SIGNED_VERSION && size(share) != 0
}

/// The signer of the blob that a first share begins, if there is one.
pub(crate) fn signer(share: &Share) -> Option<[u8; SIGNER_SIZE]>
    ensures { result ≡ signer_in share.now }
{
    if !is_signed(share) {
        return None;
    }
    let mut signer = [0; SIGNER_SIZE];
    signer.copy_from_slice(&fields(share)[..SIGNER_SIZE]);
    Some(signer)
}

/// How many bytes come before the content: the signer in the shares of blobs, the reserved bytes in
/// compact shares.
fn bytes_before(share: &Share, form: Form) -> usize
    ensures value { result ≡ bytes_before form share.now }
    ensures few { result ≤ 20 }
{
    share_law(share);
    match form {
        Form::Blobs => { if is_signed(share) { SIGNER_SIZE } else { 0 } }
        Form::Units => RESERVED_SIZE,
    }
}

/// The content of a share of this form.
pub(crate) fn content(share: &Share, form: Form) -> &[u8]
    ensures { result.now ≡ content_in form share.now }
{
    fields(share).split_at(bytes_before(share, form)).1
}

/// Whether all bytes behind so many bytes of content are 0.
pub(crate) fn is_filled(share: &Share, form: Form, bytes: usize) -> bool
    ensures { result ≡ is_filled form bytes share.now }
{
    is_zeros(split_within(content(share, form), bytes).1)
}
