//! Fields in their one spelling.

ghost use Rattle.std.specs.Prelude.{◌≡◌, ◌+◌, ◌*◌, ◌-◌, ◌^◌, ◌≤◌, ◌<◌, ◌++◌, length, min, vec_len, vec_capacity};
ghost use Rattle.namespace_id.specs.Answers.{HasCapacity};
ghost use Rattle.proto_fields.specs.Spelled.{text, bytes_field, number_field, field_size, number_size};

use crate::varints::{put_varint, varint_size};
use namespace_id::append;

/// The wire of bytes behind their length; that of a varint is 0.
const DELIMITED: u64 = 2;

/// The tag of a field of this number without a wire.
fn tag_of(number: u32) -> u64
    ensures value { result ≡ 8 * number }
    ensures bound { result < 2 ^ 35 }
{
    8 * u64::from(number)
}

/// How many bytes `put_field` appends for a field of so many bytes, or 2^64 - 1 where they are more.
///
/// protobuf, "Encoding".
pub fn field_size(number: u32, len: u64) -> u64
    ensures { result ≡ min (field_size number len) (2 ^ 64 - 1) }
{
    let tag = varint_size(tag_of(number) + DELIMITED);
    let front = tag + varint_size(len);
    len.saturating_add(front as u64)
}

/// Appends bytes behind their length.
fn put_text(bytes: &[u8], out: &mut Vec<u8>)
    requires capacity { HasCapacity out.old (length (text bytes.now)) }
    ensures appended { out.new.items ≡ out.old.items ++ text bytes.now }
    ensures len { vec_len out.new ≡ vec_len out.old + length (text bytes.now) }
    ensures capacity { vec_capacity out.old ≤ vec_capacity out.new }
{
    put_varint(out, bytes.len() as u64);
    append(out, bytes);
}

/// Appends a field of bytes, also of no bytes, for which there is capacity (`field_size`): its tag and the length of the
/// bytes as shortest varints, and the bytes. `field_at` reads it back where the number is from 1 to 536,870,911.
///
/// protobuf, "Encoding".
pub fn put_field(number: u32, bytes: &[u8], out: &mut Vec<u8>)
    requires capacity { HasCapacity out.old (field_size number (length bytes.now)) }
    ensures appended { out.new.items ≡ out.old.items ++ bytes_field number bytes.now }
    ensures len { vec_len out.new ≡ vec_len out.old + field_size number (length bytes.now) }
    ensures capacity { vec_capacity out.old ≤ vec_capacity out.new }
{
    put_varint(out, tag_of(number) + DELIMITED);
    put_text(bytes, out);
}

/// Appends a field of a number, also of 0, for which there is capacity: its tag and the number as shortest varints.
/// `field_at` reads it back where the field's number is from 1 to 536,870,911.
///
/// protobuf, "Encoding".
pub fn put_number(number: u32, value: u64, out: &mut Vec<u8>)
    requires capacity { HasCapacity out.old (number_size number value) }
    ensures appended { out.new.items ≡ out.old.items ++ number_field number value }
    ensures len { vec_len out.new ≡ vec_len out.old + number_size number value }
    ensures capacity { vec_capacity out.old ≤ vec_capacity out.new }
{
    put_varint(out, tag_of(number));
    put_varint(out, value);
}
