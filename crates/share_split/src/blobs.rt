//! The shares of a blob.

ghost use Rattle.std.specs.Prelude.{◌≡◌, ◌+◌, ◌^◌, ◌≤◌, ◌<◌, ◌++◌, ◌∷◌, [], ◌↔◌, length, take, drop, replicate, vec_len, vec_capacity, OnOk, OnErr, IsErrOf, IfSome, is_some};
ghost use Rattle.std.specs.List.{AllByRecursion};
ghost use Rattle.std.specs.Option.{option_copied};
ghost use Rattle.namespace_id.specs.Answers.{HasCapacity};
ghost use Rattle.namespace_id.specs.Bytes.{IsString};
ghost use Rattle.share_split.specs.Blobs.{IsNamed, signer_size, first_blob_content, later_content, max_sequence_length, info, version_of, signer_bytes, sequence_share, first_share, later_share, later_shares, count_from, share_count, blob_shares_of};
ghost use Rattle.share_split.specs.Joined.{padding_of, padding_share};

use namespace_id::{
    NAMESPACE_SIZE, Namespace, SHARE_SIZE, Share, bytes_law, namespace_law, write_at,
};
use std::marker::Model;
use thiserror::Error;

/// The place of the length of a sequence in its first share: behind the namespace and the info byte.
///
/// Celestia specifications, "Shares".
pub const LENGTH_PLACE: usize = NAMESPACE_SIZE + 1;

/// The bytes of content in the first share of a sequence: a share without the namespace, the info byte
/// (1) and the length of the sequence (4).
///
/// Celestia specifications, "Shares".
pub const FIRST_CONTENT: usize = SHARE_SIZE - NAMESPACE_SIZE - 1 - 4;

/// The bytes of a signer.
///
/// Celestia specifications, "Shares", share version 1.
pub const SIGNER_SIZE: usize = 20;

/// The bytes of content in the first share of a signed blob, in which the signer comes before the
/// content.
///
/// Celestia specifications, "Shares", share version 1.
pub const FIRST_SIGNED_CONTENT: usize = FIRST_CONTENT - SIGNER_SIZE;

/// The bytes of content in a later share: a share without the namespace and the info byte (1).
///
/// Celestia specifications, "Shares".
pub const LATER_CONTENT: usize = SHARE_SIZE - NAMESPACE_SIZE - 1;

/// The greatest length of a sequence in bytes: four bytes state it.
///
/// Celestia specifications, "Shares".
pub const MAX_SEQUENCE_LENGTH: usize = 4_294_967_295;

/// The place of the fields of a share: behind the namespace and the info byte.
const FIELDS_PLACE: usize = NAMESPACE_SIZE + 1;

/// Why a blob or units were not split. The variants stand in the order in which they are tested.
#[derive(Clone, Copy, Debug, PartialEq, Eq, Error)]
pub enum SplitError {
    /// There are no bytes.
    #[error("a blob has at least one byte")]
    Empty,
    /// There are more than `MAX_SEQUENCE_LENGTH` bytes.
    #[error("a sequence has at most 4294967295 bytes")]
    TooLong,
    /// There was no memory.
    #[error("out of memory")]
    NoMemory,
}

/// A blob: bytes under a namespace, and who signed them, if the blob names its signer. Its shares
/// have version 1 with a signer, and version 0 without one.
///
/// Celestia specifications, "Shares".
#[derive(Debug, Drop)]
pub struct Blob {
    pub namespace: Namespace,
    pub bytes: Vec<u8>,
    pub signer: Option<[u8; SIGNER_SIZE]>,
}

impl Model for Blob {
    ghost use Rattle.share_split.specs.Blobs.{NamedBytes};

    ghost Value = { NamedBytes };

    ghost view = { λ b. record {
      namespace = b.namespace;
      bytes = b.bytes.items;
      signer = b.signer;
    } };
}

/// Says that a signer, if there is one, has 20 bytes. It changes nothing.
fn signer_law(signer: &Option<[u8; SIGNER_SIZE]>)
    ensures { IfSome signer.now (IsString signer_size) }
{
    if let Some(signer) = signer {
        bytes_law(signer);
    }
}

/// Says that a blob has a namespace, bytes, and a signer of 20 bytes, if it has one. It changes nothing.
fn blob_law(blob: &Blob)
    ensures { IsNamed blob.now }
{
    namespace_law(&blob.namespace);
    bytes_law(&blob.bytes);
    signer_law(&blob.signer);
}

/// Says so of each blob of a slice. It changes nothing.
pub fn blobs_law(blobs: &[Blob])
    ensures { AllByRecursion IsNamed blobs.now }
{
    for blob in blobs {
        blob_law(blob);
    }
}

/// How many shares so many bytes take, of which the first share and each later one hold at most so
/// many.
pub(crate) fn count_from(first: usize, later: usize, size: u128) -> u128
    requires first { 1 ≤ first }
    requires later { 1 ≤ later }
    ensures { result ≡ count_from first later size }
{
    if size <= first as u128 {
        return 1;
    }
    1 + (size - first as u128).div_ceil(later as u128)
}

/// The bytes of content in the first share of a blob, which may be signed.
fn first_blob_content(signed: bool) -> usize
    ensures value { result ≡ first_blob_content signed }
    ensures some { 1 ≤ result }
{
    if signed {
        FIRST_SIGNED_CONTENT
    } else {
        FIRST_CONTENT
    }
}

/// How many shares a blob of so many bytes takes, which may be signed.
///
/// Celestia specifications, "Shares".
pub fn blob_share_count(len: u64, signed: bool) -> u64
    requires { 1 ≤ len }
    ensures value { result ≡ share_count len signed }
    ensures some { 1 ≤ result }
    ensures bound { result ≤ 2 ^ 56 }
{
    count_from(first_blob_content(signed), LATER_CONTENT, len as u128) as u64
}

/// The info byte of a share: its version, and whether it is the first of a sequence.
fn info(version: u8, start: bool) -> u8
    requires { version < 128 }
    ensures { result ≡ info version start }
{
    2 * version + u8::from(start)
}

/// A share without its fields and its content: the namespace and the info byte, and zeros behind them.
fn begun(namespace: &Namespace, version: u8, start: bool) -> Share
    requires { version < 128 }
    ensures value { result.0 ≡
        namespace.now.0 ++ info version start ∷ [] ++ replicate later_content 0 }
    ensures name { length namespace.now.0 ≡ 29 }
{
    let mut share = Share([0; SHARE_SIZE]);
    write_at(&mut share.0, 0, &namespace.0);
    write_at(&mut share.0, NAMESPACE_SIZE, &[info(version, start)]);
    share
}

/// A share of a sequence: the namespace, the info byte, two fields behind it and the content, and zeros
/// behind them.
pub(crate) fn sequence_share(
    namespace: &Namespace,
    version: u8,
    start: bool,
    field: &[u8],
    next: &[u8],
    content: &[u8],
) -> Share
    requires version { version < 128 }
    requires room { length field.now + length next.now + length content.now ≤ later_content }
    ensures { result ≡
        sequence_share namespace.now version start (field.now ++ next.now) content.now }
{
    let place = FIELDS_PLACE + field.len();
    let mut share = begun(namespace, version, start);
    write_at(&mut share.0, FIELDS_PLACE, field);
    write_at(&mut share.0, place, next);
    write_at(&mut share.0, place + next.len(), content);
    share
}

/// The share version of a blob.
fn version_of(signer: Option<&[u8; SIGNER_SIZE]>) -> u8
    ensures value { result ≡ version_of (option_copied signer.entry) }
    ensures few { result ≤ 1 }
{
    u8::from(signer.is_some())
}

/// The bytes of a signer, none where there is no signer.
fn signer_bytes(signer: Option<&[u8; SIGNER_SIZE]>) -> &[u8]
    ensures value { result.now ≡ signer_bytes (option_copied signer.entry) }
    ensures room { length result.now + first_blob_content (is_some signer.entry) ≤ 478 }
{
    match signer {
        None => &[],
        Some(signer) => signer,
    }
}

/// The first share of a blob of `size` bytes, which begins with this content.
fn first_share(
    namespace: &Namespace,
    signer: Option<&[u8; SIGNER_SIZE]>,
    size: u32,
    content: &[u8],
) -> Share
    requires { length content.now ≤ first_blob_content (is_some signer) }
    ensures { result ≡ first_share namespace.now (option_copied signer.entry) size content.now }
{
    let version = version_of(signer);
    let signer = signer_bytes(signer);
    sequence_share(
        namespace,
        version,
        true,
        &size.to_be_bytes(),
        signer,
        content,
    )
}

/// A padding share: the first share of a sequence of length 0, and zeros behind the length.
///
/// Celestia specifications, "Shares", padding.
pub fn padding_share(namespace: &Namespace) -> Share
    ensures { result ≡ padding_share namespace.now }
{
    first_share(namespace, None, 0, &[])
}

/// Padding of share version 1, as it stands behind a blob with a signer: it is a padding share but for its version.
///
/// Celestia specifications, "Shares", padding.
pub fn signed_padding_share(namespace: &Namespace) -> Share
    ensures { result ≡ padding_of 1 namespace.now }
{
    sequence_share(namespace, 1, true, &0u32.to_be_bytes(), &[], &[])
}

/// A later share of a blob's sequence.
fn later_share(namespace: &Namespace, version: u8, content: &[u8]) -> Share
    requires version { version < 128 }
    requires content { length content.now ≤ later_content }
    ensures { result ≡ later_share namespace.now version content.now }
{
    sequence_share(namespace, version, false, &[], &[], content)
}

/// The first bytes, at most so many, and the others.
pub(crate) fn split_within(bytes: &[u8], most: usize) -> (&[u8], &[u8])
    ensures first { result.0.now ≡ take most bytes.now }
    ensures rest { result.1.now ≡ drop most bytes.now }
    ensures few { length result.0.now ≤ most }
{
    bytes.split_at(bytes.len().min(most))
}

/// Appends a share for which there is capacity.
pub(crate) fn put_share(out: &mut Vec<Share>, share: Share)
    requires capacity { HasCapacity out.old 1 }
    ensures appended { out.new.items ≡ out.old.items ++ share ∷ [] }
    ensures len { vec_len out.new ≡ vec_len out.old + 1 }
    ensures capacity { vec_capacity out.old ≤ vec_capacity out.new }
{
    out.push(share).unwrap();
}

/// Appends so many later shares.
fn put_later(out: &mut Vec<Share>, namespace: &Namespace, version: u8, bytes: &[u8], count: usize)
    requires version { version < 128 }
    requires capacity { HasCapacity out.old count }
    ensures appended { out.new.items ≡ out.old.items ++
        later_shares count namespace.now version bytes.now }
{
    let mut rest = bytes;
    for _ in 0..count {
        let (content, after) = split_within(rest, LATER_CONTENT);
        put_share(out, later_share(namespace, version, content));
        rest = after;
    }
}

/// Appends the shares of a blob, which has a signer or none. The namespace may be any:
/// `Namespace::blob` tells those of blobs. The memory for all shares is taken at once.
///
/// Refuses a blob of no bytes (`Empty`), then one of more than `MAX_SEQUENCE_LENGTH` bytes
/// (`TooLong`), then out of memory; a refusal leaves `out` as it was.
///
/// Celestia specifications, "Shares".
pub fn blob_shares(
    namespace: &Namespace,
    bytes: &[u8],
    signer: Option<&[u8; SIGNER_SIZE]>,
    out: &mut Vec<Share>,
) -> Result<(), SplitError>
    ensures written { OnOk result
        (out.new.items ≡
        out.old.items ++ blob_shares_of namespace.now (option_copied signer.entry) bytes.now) }
    ensures empty { IsErrOf result SplitError.Empty ↔ (bytes.now ≡ []) }
    ensures too_long { IsErrOf result SplitError.TooLong ↔ (max_sequence_length < length bytes.now) }
    ensures unchanged { OnErr result (out.new.items ≡ out.old.items) }
{
    if bytes.is_empty() {
        return Err(SplitError::Empty);
    }
    if bytes.len() > MAX_SEQUENCE_LENGTH {
        return Err(SplitError::TooLong);
    }
    let signed = signer.is_some();
    let count = blob_share_count(bytes.len() as u64, signed) as usize;
    if out.reserve(count).is_err() {
        return Err(SplitError::NoMemory);
    }
    let (content, rest) = split_within(bytes, first_blob_content(signed));
    put_share(
        out,
        first_share(namespace, signer, bytes.len() as u32, content),
    );
    put_later(out, namespace, version_of(signer), rest, count - 1);
    Ok(())
}
