//! The words and numbers that stand for parts of values, in texts and in JSON.

ghost use Rattle.std.specs.Prelude.{◌≡◌, ◌++◌, decimal, IfOk, OnOk};
ghost use Rattle.std.specs.String.{string_bytes};
ghost use Rattle.sha2.specs.Sha256.{sha256};
ghost use Rattle.hex.specs.Hex.{encode_lower};
ghost use Rattle.frame_payloads.specs.kinds.Block.{width_number};
ghost use Rattle.frame_payloads.specs.kinds.Refusal.{reason_byte};
ghost use Rattle.da_show.specs.Parts.{axis_word, name_word, digest_word, share_name_word, share_hash_word};

use da_wire::Reason;
use itoa::Buffer;
use namespace_id::{Axis, Digest, HASH_SIZE, Namespace, Share};
use sha2::{Digest as _, Sha256};
use share_split::SIGNER_SIZE;
use square_layout::Block;
use std::alloc::{AllocError, Global};

/// An axis in a word.
pub(crate) fn axis_word(axis: Axis) -> &'static str
    ensures { result.now ≡ axis_word axis }
{
    match axis {
        Axis::Row => "row",
        Axis::Col => "col",
    }
}

/// Appends a number in decimal.
pub(crate) fn put_number(out: &mut String, number: u16) -> Result<(), AllocError>
    ensures { OnOk result (string_bytes out.new ≡ string_bytes out.old ++ decimal number) }
{
    let mut buffer = Buffer::new();
    out.push_str(buffer.format(number))
}

/// Appends the number of a frame in decimal.
pub(crate) fn put_frame_number(out: &mut String, number: u64) -> Result<(), AllocError>
    ensures { OnOk result (string_bytes out.new ≡ string_bytes out.old ++ decimal number) }
{
    let mut buffer = Buffer::new();
    out.push_str(buffer.format(number))
}

/// Appends the number of a reason in decimal.
pub(crate) fn put_reason(out: &mut String, reason: Reason) -> Result<(), AllocError>
    ensures { OnOk result (string_bytes out.new
        ≡ string_bytes out.old ++ decimal (reason_byte reason)) }
{
    let mut buffer = Buffer::new();
    out.push_str(buffer.format(reason.byte()))
}

/// Appends a number of shares in decimal.
pub(crate) fn put_share_count(out: &mut String, number: u32) -> Result<(), AllocError>
    ensures { OnOk result (string_bytes out.new ≡ string_bytes out.old ++ decimal number) }
{
    let mut buffer = Buffer::new();
    out.push_str(buffer.format(number))
}

/// Appends a number of things in decimal.
pub(crate) fn put_size(out: &mut String, number: usize) -> Result<(), AllocError>
    ensures { OnOk result (string_bytes out.new ≡ string_bytes out.old ++ decimal number) }
{
    let mut buffer = Buffer::new();
    out.push_str(buffer.format(number))
}

/// The 29 bytes of a namespace in hexadecimal digits.
pub(crate) fn name_word(alloc: Global, name: &Namespace) -> Result<String, AllocError>
    ensures { IfOk result (λ word. string_bytes word ≡ name_word name.now) }
{
    hex::encode(alloc, name.0.as_slice())
}

/// The 20 bytes of a signer.
pub(crate) fn signer_word(alloc: Global, signer: &[u8; SIGNER_SIZE]) -> Result<String, AllocError>
    ensures { IfOk result (λ word. string_bytes word ≡ encode_lower signer.now) }
{
    hex::encode(alloc, signer.as_slice())
}

/// The 90 bytes of a digest.
pub(crate) fn digest_word(alloc: Global, digest: &Digest) -> Result<String, AllocError>
    ensures { IfOk result (λ word. string_bytes word ≡ digest_word digest.now) }
{
    hex::encode(alloc, digest.0.as_slice())
}

/// The first 29 bytes of a share.
pub(crate) fn share_name_word(alloc: Global, share: &Share) -> Result<String, AllocError>
    ensures { IfOk result (λ word. string_bytes word ≡ share_name_word share.now) }
{
    name_word(alloc, &share.namespace())
}

/// The 32 bytes of a SHA-256 value.
pub(crate) fn hash_word(alloc: Global, hash: &[u8; HASH_SIZE]) -> Result<String, AllocError>
    ensures { IfOk result (λ word. string_bytes word ≡ encode_lower hash.now) }
{
    hex::encode(alloc, hash.as_slice())
}

/// The SHA-256 value of bytes.
pub(crate) fn digest_of(bytes: &[u8]) -> [u8; HASH_SIZE]
    ensures { result ≡ sha256 bytes.now }
{
    let mut hasher = Sha256::new();
    hasher.update(bytes);
    hasher.finalize()
}

/// The SHA-256 value of the 512 bytes of a share.
pub(crate) fn share_hash_word(alloc: Global, share: &Share) -> Result<String, AllocError>
    ensures { IfOk result (λ word. string_bytes word ≡ share_hash_word share.now) }
{
    hash_word(alloc, &digest_of(&share.0))
}

/// The number that stands for the width that a block asks for, 0 where it asks for none.
pub(crate) fn width_number(block: &Block) -> u16
    ensures { result ≡ width_number block.now.width }
{
    block.width.unwrap_or(0)
}
