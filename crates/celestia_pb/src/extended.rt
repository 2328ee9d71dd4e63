//! Extended headers as messages ExtendedHeader.

ghost use Rattle.std.specs.Prelude.{◌≡◌, ◌↔◌, ℕ, ◌+◌, ◌*◌, ◌≤◌, length, true, Result, ⊤, Ok, Err, IfOk, IfErr, IfSome, IsErrOf};
ghost use Rattle.namespace_id.specs.Answers.{Gives};
ghost use Rattle.namespace_id.specs.Cells.{is_width};
ghost use Rattle.celestia_pb.specs.Reading.{ReadsMessage};
ghost use Rattle.celestia_pb.specs.Digests.{entry_size};
ghost use Rattle.celestia_pb.specs.Headers.{dah_left};
ghost use Rattle.celestia_pb.specs.Extended.{from_field, none_of, lenient_part, submessage, hash_front, data_hash_left, header_left, roots_left, once_at_most, both_read, besides, extended_left, extended_value, roots_by, extended_from};
ghost use Rattle.namespace_id.specs.Sizes.{hash_size};
ghost use Rattle.celestia_pb.specs.ExtendedLaws.{ExtendedIsRead, ExtendedIsCommon};

use crate::dah::{dah_width, header_in};
use crate::errors::PbError;
use data_header::Header;
use namespace_id::NoMemory;
use proto_fields::{Value, field_at};
use std::alloc::Global;

/// The fields of a block's header, of its commit, of the validators, and of the axis roots.
const HEADER: u32 = 1;

const COMMIT: u32 = 2;

const VALIDATOR_SET: u32 = 3;

const DAH: u32 = 4;

/// The field of the data hash in a block's header.
const DATA_HASH: u32 = 7;

/// The bytes of a data hash.
const HASH_SIZE: usize = 32;

/// What is taken of an extended header: the data hash of its block's header, and its axis roots. The data hash is to be the
/// data root of these; whether it is so is for a check.
///
/// Celestia specifications, "Data Structures", header and available data header.
#[derive(Drop)]
pub struct Extended {
    pub data_hash: [u8; 32],
    pub roots: Header,
}

/// What is taken of a message, where it lies: the data hash, and the width and the bytes of the axis roots.
#[derive(Clone, Copy)]
pub(crate) struct Parts<'a> {
    data_hash: &'a [u8],
    k: u16,
    roots: &'a [u8],
}

/// The bytes from the first field of this number on, none where there is none; where something before it is no field, how many
/// are left.
fn from_field(number: u32, bytes: &[u8]) -> Result<&[u8], usize>
    ensures value { ReadsMessage (λ from. from.now) result (from_field number bytes.now) }
    ensures shorter { IfOk result (λ from. length from.now ≤ length bytes.now) }
    ensures within { IfErr result (λ left. left ≤ length bytes.now) }
{
    let mut rest = bytes;
    while let Some((field, after)) = field_at(rest) {
        if field.number == number {
            return Ok(rest);
        }
        rest = after;
    }
    if !rest.is_empty() {
        return Err(rest.len());
    }
    Ok(rest)
}

/// Refuses a field of this number.
fn none_of(number: u32, bytes: &[u8]) -> Result<(), usize>
    ensures value { ReadsMessage (λ right. right) result (none_of number bytes.now) }
    ensures within { IfErr result (λ left. left ≤ length bytes.now) }
{
    let from = from_field(number, bytes)?;
    if !from.is_empty() {
        return Err(from.len());
    }
    Ok(())
}

/// The bytes that the field at the front is, whatever its number, and the bytes after it.
fn lenient_part(bytes: &[u8]) -> Option<(&[u8], &[u8])>
    ensures value { Gives (λ x. (x.0.now, x.1.now)) result (lenient_part bytes.now) }
    ensures shorter { IfSome result (λ x. length x.1.now ≤ length bytes.now) }
{
    let (field, rest) = field_at(bytes)?;
    match field.value {
        Value::Bytes(part) => Some((part, rest)),
        Value::Number(_) | Value::Other => None,
    }
}

/// The data hash that the field at the front is, and the bytes after it.
fn hash_at(bytes: &[u8]) -> Option<(&[u8], &[u8])>
    ensures value { Gives (λ x. (x.0.now, x.1.now)) result (hash_front bytes.now) }
    ensures shorter { IfSome result (λ x. length x.1.now ≤ length bytes.now) }
    ensures size { IfSome result (λ x. length x.0.now ≡ hash_size) }
{
    let (part, rest) = lenient_part(bytes)?;
    if part.len() != HASH_SIZE {
        return None;
    }
    Some((part, rest))
}

/// The data hash of a block's header; where a field is wrong, how many bytes are left from it on.
fn data_hash_in(bytes: &[u8]) -> Result<&[u8], usize>
    ensures value { ReadsMessage (λ hash. hash.now) result (data_hash_left bytes.now) }
    ensures size { IfOk result (λ hash. length hash.now ≡ hash_size) }
    ensures within { IfErr result (λ left. left ≤ length bytes.now) }
{
    let from = from_field(DATA_HASH, bytes)?;
    let Some((hash, rest)) = hash_at(from) else {
        return Err(from.len());
    };
    none_of(DATA_HASH, rest)?;
    Ok(hash)
}

/// The data hash of the block's header in the field at the front, and the bytes after it.
fn header_at(bytes: &[u8]) -> Result<(&[u8], &[u8]), usize>
    ensures value { ReadsMessage (λ x. (x.0.now, x.1.now)) result (submessage data_hash_left bytes.now) }
    ensures size { IfOk result (λ x. length x.0.now ≡ hash_size) }
{
    let Some((part, rest)) = lenient_part(bytes) else {
        return Err(bytes.len());
    };
    match data_hash_in(part) {
        Ok(hash) => Ok((hash, rest)),
        Err(left) => Err(left + rest.len()),
    }
}

/// The data hash in a message.
fn data_hash_of(bytes: &[u8]) -> Result<&[u8], usize>
    ensures value { ReadsMessage (λ hash. hash.now) result (header_left bytes.now) }
    ensures size { IfOk result (λ hash. length hash.now ≡ hash_size) }
{
    let from = from_field(HEADER, bytes)?;
    let (hash, rest) = header_at(from)?;
    none_of(HEADER, rest)?;
    Ok(hash)
}

/// The width and the bytes of the axis roots in the field at the front, and the bytes after it.
fn roots_at(bytes: &[u8]) -> Result<(u16, &[u8], &[u8]), usize>
    ensures value { ReadsMessage (λ x. (roots_by x.0 x.1.now, x.2.now)) result (submessage dah_left bytes.now) }
    ensures size { IfOk result (λ x. entry_size * (4 * x.0) ≡ length x.1.now) }
    ensures width { IfOk result (λ x. is_width x.0 ≡ true) }
{
    let Some((part, rest)) = lenient_part(bytes) else {
        return Err(bytes.len());
    };
    match dah_width(part) {
        Ok(k) => Ok((k, part, rest)),
        Err(left) => Err(left + rest.len()),
    }
}

/// The width and the bytes of the axis roots in a message.
fn roots_of(bytes: &[u8]) -> Result<(u16, &[u8]), usize>
    ensures value { ReadsMessage (λ x. roots_by x.0 x.1.now) result (roots_left bytes.now) }
    ensures size { IfOk result (λ x. entry_size * (4 * x.0) ≡ length x.1.now) }
    ensures width { IfOk result (λ x. is_width x.0 ≡ true) }
{
    let from = from_field(DAH, bytes)?;
    let (k, roots, rest) = roots_at(from)?;
    none_of(DAH, rest)?;
    Ok((k, roots))
}

/// Refuses a field of this number that isn't of bytes, and a second one.
fn once_at_most(number: u32, bytes: &[u8]) -> Result<(), usize>
    ensures { ReadsMessage (λ right. right) result (once_at_most number bytes.now) }
{
    let from = from_field(number, bytes)?;
    if from.is_empty() {
        return Ok(());
    }
    let Some((_part, rest)) = lenient_part(from) else {
        return Err(from.len());
    };
    none_of(number, rest)
}

/// The data hash and the axis roots in a message.
fn both_parts(bytes: &[u8]) -> Result<Parts<'_>, usize>
    ensures value { ReadsMessage (λ parts. extended_from parts) result (both_read (header_left bytes.now) (roots_left bytes.now)) }
    ensures size { IfOk result (λ parts. entry_size * (4 * parts.k) ≡ length parts.roots.now) }
    ensures width { IfOk result (λ parts. is_width parts.k ≡ true) }
    ensures hash { IfOk result (λ parts. length parts.data_hash.now ≡ hash_size) }
{
    match (data_hash_of(bytes), roots_of(bytes)) {
        (Ok(data_hash), Ok((k, roots))) => Ok(Parts {
            data_hash,
            k,
            roots,
        }),
        (Ok(_hash), Err(left)) => Err(left),
        (Err(left), Ok(_roots)) => Err(left),
        (Err(left), Err(other)) => Err(left.max(other)),
    }
}

/// The parts of a message, unless another reading of it found something wrong, which counts where it comes first.
fn besides<'a>(
    parts: Result<Parts<'a>, usize>,
    other: Result<(), usize>,
) -> Result<Parts<'a>, usize>
    ensures value { (read : Result Extended ℕ) (right : Result ⊤ ℕ)
        → ReadsMessage (λ x. extended_from x) parts.entry read → ReadsMessage (λ x. x) other right
        → ReadsMessage (λ x. extended_from x) result (besides read right) }
    ensures kept { IfOk result (λ found. parts.entry ≡ Ok found) }
{
    match (parts, other) {
        (Ok(found), Ok(())) => Ok(found),
        (Ok(_found), Err(left)) => Err(left),
        (Err(left), Ok(())) => Err(left),
        (Err(left), Err(more)) => Err(left.max(more)),
    }
}

/// The parts of a message; where a field is wrong, how many bytes are left from it on.
fn parts_in(bytes: &[u8]) -> Result<Parts<'_>, usize>
    ensures value { ReadsMessage (λ parts. extended_from parts) result (extended_left bytes.now) }
    ensures size { IfOk result (λ parts. entry_size * (4 * parts.k) ≡ length parts.roots.now) }
    ensures width { IfOk result (λ parts. is_width parts.k ≡ true) }
    ensures hash { IfOk result (λ parts. length parts.data_hash.now ≡ hash_size) }
{
    let parts = besides(both_parts(bytes), once_at_most(COMMIT, bytes));
    besides(parts, once_at_most(VALIDATOR_SET, bytes))
}

/// What is taken of a message that has these parts. The one refusal is that it is out of memory.
fn taken(alloc: Global, parts: Parts) -> Result<Extended, NoMemory>
    requires size { entry_size * (4 * parts.k) ≡ length parts.roots.now }
    requires width { is_width parts.k ≡ true }
    requires hash { length parts.data_hash.now ≡ hash_size }
    ensures { IfOk result (λ extended. extended ≡ extended_from parts.entry) }
{
    let mut data_hash = [0; HASH_SIZE];
    data_hash.copy_from_slice(parts.data_hash);
    let roots = header_in(alloc, parts.k, parts.roots)?;
    Ok(Extended { data_hash, roots })
}

/// What is taken of the extended header that a message ExtendedHeader is: the data hash of its block's header, and its axis
/// roots.
///
/// Fields may stand in any order and any spelling, and others are passed over by their lengths, also in the block's header; the
/// message of the axis roots alone is asked in its one spelling (`read_dah`). Refuses other bytes, with the offset of the first
/// field that is wrong: one that can't be read; a header, a commit, validators or axis roots that aren't bytes, or come a second
/// time; a data hash that isn't bytes, has another length than 32, or comes a second time; and what is wrong in the axis roots.
/// Then a data hash that isn't there, with the offset of the end of its header, and a header and axis roots that aren't, with
/// that of the end. It takes memory once all bytes are known to be right.
///
/// Celestia specifications, "Data Structures", header and available data header; protobuf, "Encoding"; docs/RULES.md,
/// "Celestia's messages".
pub fn read_extended(alloc: Global, bytes: &[u8]) -> Result<Extended, PbError>
    ensures extended { IfOk result (λ extended. extended_value bytes.now ≡ Ok extended) }
    ensures at { (at : ℕ) → IsErrOf result (PbError.At at) ↔ (extended_value bytes.now ≡ Err at) }
{
    match parts_in(bytes) {
        Ok(parts) => Ok(taken(alloc, parts)?),
        Err(left) => Err(PbError::at(bytes, left)),
    }
}

/// The laws of extended headers: what is read is what every reader of protobuf finds in the message. It changes nothing.
pub fn extended_laws()
    ensures read { ExtendedIsRead }
    ensures common { ExtendedIsCommon }
{}
