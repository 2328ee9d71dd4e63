//! The payload of a block: judged where it lies, then read; and written.

ghost use Rattle.std.specs.Prelude.{◌≡◌, length, None, Some, IfSome, MatchOption, ◌+◌, ◌++◌, IsSome, ◌↔◌, IsTrue, ◌==◌};
ghost use Rattle.namespace_id.specs.Answers.{Gives, HasCapacity};
ghost use Rattle.share_split.specs.Blobs.{version_of, signer_bytes};
ghost use Rattle.frame_fields.specs.Fields.{read_items};
ghost use Rattle.frame_payloads.specs.Payloads.{GivesUnlessFull, IsSize, IsShort};
ghost use Rattle.frame_payloads.specs.kinds.Block.{signed_at, signer_at, blob_at, asked_width, asks_for_zero, block_at, blob_bytes, block_payload};
ghost use Rattle.frame_payloads.specs.kinds.Units.{unit_at, counted_at};

use crate::codec::appending::put_text;
use crate::codec::items::{Item, after_list, list};
use crate::codec::outs::{Full, Out};
use crate::codec::writing::{Text, append_text, put_list, size_of};
use crate::kinds::units::MOST;
use frame_fields::{name_at, text_at, u8_at, u16_at};
use namespace_id::Namespace;
use share_split::{Blob, SIGNER_SIZE, Unit};
use square_layout::Block;
use std::alloc::{AllocError, Global};

/// The share version of a blob without a signer.
const UNSIGNED: u8 = 0;

/// The share version of a blob with a signer.
const SIGNED: u8 = 1;

/// The parts of a payload that is a block: the width or 0, and its three lists, each from its count on.
#[derive(Clone, Copy)]
struct BlockFields<'a> {
    width: u16,
    units: &'a [u8],
    pay_units: &'a [u8],
    blobs: &'a [u8],
}

/// A blob where it lies in a payload.
#[derive(Clone, Copy)]
struct BlobFields<'a> {
    namespace: Namespace,
    signer: Option<[u8; SIGNER_SIZE]>,
    bytes: &'a [u8],
}

/// The signer that 20 bytes are.
fn signer_of(bytes: &[u8]) -> [u8; SIGNER_SIZE]
    requires { length bytes.now ≡ 20 }
    ensures { result ≡ bytes.now }
{
    let mut signer = [0; SIGNER_SIZE];
    signer.copy_from_slice(bytes);
    signer
}

/// A signer, and the bytes after it.
fn signed_at(bytes: &[u8]) -> Option<(Option<[u8; SIGNER_SIZE]>, &[u8])>
    ensures { Gives (λ x. (x.0, x.1.now)) result (signed_at bytes.now) }
{
    let (signer, rest) = bytes.split_at_checked(SIGNER_SIZE)?;
    Some((Some(signer_of(signer)), rest))
}

/// The signer behind a share version that has one, none where the version has none, and the bytes after
/// it.
#[tactic(auto, unfolding(crate::specs::kinds::Block::signer_at))]
fn signer_at(bytes: &[u8]) -> Option<(Option<[u8; SIGNER_SIZE]>, &[u8])>
    ensures { Gives (λ x. (x.0, x.1.now)) result (signer_at bytes.now) }
{
    let (version, rest) = u8_at(bytes)?;
    match version {
        UNSIGNED => Some((None, rest)),
        SIGNED => signed_at(rest),
        _ => None,
    }
}

/// A blob, and the bytes after it.
#[tactic(auto, unfolding(crate::specs::kinds::Block::blob_at))]
fn blob_at(bytes: &[u8]) -> Option<(BlobFields<'_>, &[u8])>
    ensures { Gives (λ x. (
      record {
        namespace = x.0.namespace;
        bytes = x.0.bytes.now;
        signer = x.0.signer;
      },
      x.1.now,
    )) result (blob_at bytes.now) }
{
    let Some((namespace, rest)) = name_at(bytes) else {
        return None;
    };
    let Some((signer, rest)) = signer_at(rest) else {
        return None;
    };
    let Some((bytes, rest)) = text_at(rest, MOST) else {
        return None;
    };
    let blob = BlobFields {
        namespace,
        signer,
        bytes,
    };
    Some((blob, rest))
}

impl Item for Blob {
    ghost at = { blob_at };

    fn after(bytes: &[u8]) -> Option<&[u8]> {
        let (_blob, rest) = blob_at(bytes)?;
        Some(rest)
    }

    fn read(alloc: Global, bytes: &[u8]) -> Result<(Blob, &[u8]), AllocError> {
        let (fields, rest) = blob_at(bytes).unwrap();
        let bytes = Vec::from_slice(alloc, fields.bytes)?;
        let blob = Blob {
            namespace: fields.namespace,
            bytes,
            signer: fields.signer,
        };
        Ok((blob, rest))
    }
}

/// The parts of the block whose payload the bytes are. It takes no memory.
#[tactic(auto, unfolding(crate::specs::kinds::Block::block_at))]
fn block_parts(payload: &[u8]) -> Option<BlockFields<'_>>
    ensures parts { MatchOption result (block_at payload.now ≡ None)
        (λ f. block_at payload.now ≡ Some (record {
          units = read_items (counted_at unit_at f.units.now);
          pay_units = read_items (counted_at unit_at f.pay_units.now);
          blobs = read_items (counted_at blob_at f.blobs.now);
          width = asked_width f.width;
        })) }
    ensures units { IfSome result (λ f. IsSome (counted_at unit_at f.units.now)) }
    ensures pay_units { IfSome result (λ f. IsSome (counted_at unit_at f.pay_units.now)) }
    ensures blobs { IfSome result (λ f. IsSome (counted_at blob_at f.blobs.now)) }
{
    let (width, units) = u16_at(payload)?;
    let pay_units = after_list::<Unit>(units, MOST)?;
    let blobs = after_list::<Unit>(pay_units, MOST)?;
    let rest = after_list::<Blob>(blobs, MOST)?;
    if !rest.is_empty() {
        return None;
    }
    Some(BlockFields {
        width,
        units,
        pay_units,
        blobs,
    })
}

/// Whether the bytes are the payload of a block. It takes no memory.
pub fn is_block(payload: &[u8]) -> bool
    ensures { IsTrue result ↔ IsSome (block_at payload.now) }
{
    block_parts(payload).is_some()
}

/// The width that a number asks for, none for 0.
fn asked_width(k: u16) -> Option<u16>
    ensures { result ≡ asked_width k }
{
    if k == 0 { None } else { Some(k) }
}

/// The block whose payload the bytes are. No memory is taken before they are known to be one.
pub fn block(alloc: Global, payload: &[u8]) -> Result<Option<Block>, AllocError>
    ensures { GivesUnlessFull result (block_at payload.now) }
{
    let Some(parts) = block_parts(payload) else {
        return Ok(None);
    };
    let width = asked_width(parts.width);
    let units = list::<Unit>(alloc, parts.units, MOST)?;
    let pay_units = list::<Unit>(alloc, parts.pay_units, MOST)?;
    let blobs = list::<Blob>(alloc, parts.blobs, MOST)?;
    Ok(Some(Block {
        units,
        pay_units,
        blobs,
        width,
    }))
}

/// The share version of a blob with this signer, if there is one.
fn version_of(signer: &Option<[u8; SIGNER_SIZE]>) -> u8
    ensures { result ≡ version_of signer.now }
{
    match signer {
        Some(_) => SIGNED,
        None => UNSIGNED,
    }
}

/// The bytes of a signer, none where there is no signer.
fn signer_bytes(signer: &Option<[u8; SIGNER_SIZE]>) -> &[u8]
    ensures { result.now ≡ signer_bytes signer.now }
{
    match signer {
        Some(signer) => signer,
        None => &[],
    }
}

/// A blob is its namespace, its share version, its signer, if it has one, and its bytes.
impl Text for Blob {
    ghost text = { blob_bytes };

    fn put<O: Out>(&self, out: &mut O) -> Result<(), Full> {
        out.put(&self.namespace.0)?;
        out.put(&[version_of(&self.signer)])?;
        out.put(signer_bytes(&self.signer))?;
        put_text(out, &self.bytes)
    }
}

impl Text for Block {
    ghost text = { block_payload };

    fn put<O: Out>(&self, out: &mut O) -> Result<(), Full> {
        out.put(&self.width.unwrap_or(0).to_be_bytes())?;
        put_list(out, &self.units)?;
        put_list(out, &self.pay_units)?;
        put_list(out, &self.blobs)
    }
}

/// The length of the payload of a block, none where it asks for the width 0 or is too long.
pub fn block_size(block: &Block) -> Option<u32>
    ensures { IsSize (asks_for_zero block.now.width) (block_payload block.now) result }
{
    if matches!(block.width, Some(0)) {
        return None;
    }
    size_of(block)
}

/// Appends the payload of a block.
pub fn put_block(out: &mut Vec<u8>, block: &Block)
    requires few { IsShort (block_payload block.now) }
    requires capacity { HasCapacity out.old (length (block_payload block.now)) }
    ensures appended { out.new.items ≡ out.old.items ++ block_payload block.now }
{
    append_text(out, block);
}
