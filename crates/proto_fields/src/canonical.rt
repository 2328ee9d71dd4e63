//! Fields in their one spelling, read at the front of bytes.

ghost use Rattle.std.specs.Prelude.{◌≡◌, ◌+◌, ◌*◌, ◌<◌, ◌≤◌, ◌++◌, length, vec_len, vec_capacity};
ghost use Rattle.namespace_id.specs.Answers.{Gives, HasCapacity};
ghost use Rattle.proto_fields.specs.Canonical.{number_text, shortest_at, part_at, begins, begins_part, canonical_number, canonical_bytes, canonical_part};
ghost use Rattle.proto_fields.specs.CanonicalLaws.{NumberIsRead, BytesAreRead, PartIsRead, ReadIsNumber, ReadAreBytes, ReadIsPart, NumberIsCommon, BytesAreCommon, PartIsCommon};

use crate::spelling::put_number;
use crate::varints::{number_at, varint_size};

/// The wire of bytes behind their length; that of a varint is 0.
const DELIMITED: u8 = 2;

/// The tag of a field of this number without a wire.
fn tag_of(number: u8) -> u8
    requires { number < 16 }
    ensures value { result ≡ 8 * number }
    ensures bound { result < 121 }
{
    8 * number
}

/// The number that a shortest varint states at the front, and the bytes after it.
#[tactic(auto, unfolding(crate::specs::Canonical::shortest_at))]
fn shortest_at(bytes: &[u8]) -> Option<(u64, &[u8])>
    ensures { Gives (λ x. (x.0, x.1.now)) result (shortest_at bytes.now) }
{
    let (number, rest) = number_at(bytes)?;
    if varint_size(number) + rest.len() != bytes.len() {
        return None;
    }
    Some((number, rest))
}

/// The bytes behind their length as a shortest varint at the front, and the bytes after them.
#[tactic(auto, unfolding(crate::specs::Canonical::part_at))]
fn part_at(bytes: &[u8]) -> Option<(&[u8], &[u8])>
    ensures { Gives (λ x. (x.0.now, x.1.now)) result (part_at bytes.now) }
{
    let (len, rest) = shortest_at(bytes)?;
    if len > rest.len() as u64 {
        return None;
    }
    Some(rest.split_at(len as usize))
}

/// Whether this byte is at the front.
fn begins(tag: u8, bytes: &[u8]) -> bool
    ensures { result ≡ begins tag bytes.now }
{
    match bytes {
        [] => false,
        [byte, ..] => *byte == tag,
    }
}

/// The number of the field that has this number and may be at the front, 0 where it isn't there, and the bytes after it.
///
/// None where it is there and not in its one spelling: its value isn't a shortest varint of up to 64 bits, or it is 0,
/// for which there is no field.
///
/// protobuf, "Encoding".
#[tactic(auto, unfolding(crate::specs::Canonical::canonical_number))]
pub fn canonical_number(number: u8, bytes: &[u8]) -> Option<(u64, &[u8])>
    requires { number < 16 }
    ensures { Gives (λ x. (x.0, x.1.now)) result (canonical_number number bytes.now) }
{
    let [tag, behind @ ..] = bytes else {
        return Some((0, bytes));
    };
    if *tag != tag_of(number) {
        return Some((0, bytes));
    }
    let (value, rest) = shortest_at(behind)?;
    if value == 0 {
        return None;
    }
    Some((value, rest))
}

/// The bytes of the field that has this number and may be at the front, none where it isn't there, and the bytes after it.
///
/// None where it is there and not in its one spelling: its length isn't a shortest varint or runs past the end, or it is
/// 0, for which there is no field.
///
/// protobuf, "Encoding".
#[tactic(auto, unfolding(crate::specs::Canonical::canonical_bytes))]
pub fn canonical_bytes(number: u8, bytes: &[u8]) -> Option<(&[u8], &[u8])>
    requires { number < 16 }
    ensures { Gives (λ x. (x.0.now, x.1.now)) result (canonical_bytes number bytes.now) }
{
    let [tag, behind @ ..] = bytes else {
        return Some((bytes, bytes));
    };
    if *tag != tag_of(number) + DELIMITED {
        return Some((&bytes[..0], bytes));
    }
    let (part, rest) = part_at(behind)?;
    if part.is_empty() {
        return None;
    }
    Some((part, rest))
}

/// Whether a field of bytes that has this number is at the front.
///
/// protobuf, "Encoding".
pub fn begins_part(number: u8, bytes: &[u8]) -> bool
    requires { number < 16 }
    ensures { result ≡ begins_part number bytes.now }
{
    begins(tag_of(number) + DELIMITED, bytes)
}

/// The bytes of the field that has this number and is at the front, and the bytes after it: one of repeated bytes or
/// messages, which is also written where it has none.
///
/// None where it isn't there, or where its length isn't a shortest varint or runs past the end.
///
/// protobuf, "Encoding".
#[tactic(auto, unfolding(crate::specs::Canonical::canonical_part))]
pub fn canonical_part(number: u8, bytes: &[u8]) -> Option<(&[u8], &[u8])>
    requires { number < 16 }
    ensures { Gives (λ x. (x.0.now, x.1.now)) result (canonical_part number bytes.now) }
{
    let [tag, behind @ ..] = bytes else {
        return None;
    };
    if *tag != tag_of(number) + DELIMITED {
        return None;
    }
    part_at(behind)
}

/// Appends the field of a number, none for 0, for which there is capacity: its tag and the number as shortest varints.
///
/// protobuf, "Encoding".
#[tactic(auto, using(crate::proofs::WrittenLemmas::number_size_is_length))]
pub fn put_canonical_number(number: u8, value: u64, out: &mut Vec<u8>)
    requires capacity { HasCapacity out.old (length (number_text number value)) }
    ensures appended { out.new.items ≡ out.old.items ++ number_text number value }
    ensures len { vec_len out.new ≡ vec_len out.old + length (number_text number value) }
    ensures capacity { vec_capacity out.old ≤ vec_capacity out.new }
{
    if value == 0 {
        return;
    }
    put_number(u32::from(number), value, out);
}

/// The laws of fields in their one spelling. It changes nothing.
pub fn canonical_laws()
    // What is written is read back.
    ensures number { NumberIsRead }
    ensures bytes { BytesAreRead }
    ensures part { PartIsRead }

    // What is read was written so.
    ensures number_back { ReadIsNumber }
    ensures bytes_back { ReadAreBytes }
    ensures part_back { ReadIsPart }

    // Lenient reading says the same of it.
    ensures number_common { NumberIsCommon }
    ensures bytes_common { BytesAreCommon }
    ensures part_common { PartIsCommon }
{}
