//! Fields as they are written, and their sizes.

ghost use Rattle.std.specs.Prelude.{◌≡◌, ◌+◌, ◌≤◌, ◌<◌, ◌^◌, ◌++◌, length, vec_len, vec_capacity};
ghost use Rattle.namespace_id.specs.Answers.{HasCapacity};
ghost use Rattle.proto_fields.specs.Spelled.{bytes_field, field_size};
ghost use Rattle.proto_fields.specs.Canonical.{number_text};
ghost use Rattle.celestia_pb.specs.Messages.{field_front};

use proto_fields::{put_field, put_varint, varint_size};

/// The wire of bytes behind their length.
const DELIMITED: u64 = 2;

/// How many bytes the field of a number takes.
#[tactic(auto, using(crate::proofs::SizeLemmas::length_number))]
pub(crate) fn number_size(number: u8, value: u64) -> usize
    requires { number < 16 }
    ensures value { result ≡ length (number_text number value) }
    ensures few { result ≤ 11 }
{
    if value == 0 {
        return 0;
    }
    1 + varint_size(value)
}

/// How many bytes a field of so many bytes takes.
#[tactic(auto, using(crate::proofs::SizeLemmas::length_tag))]
pub(crate) fn part_size(number: u8, len: usize) -> usize
    requires number { number < 16 }
    requires len { len < 2 ^ 32 }
    ensures value { result ≡ field_size number len }
    ensures few { result ≤ len + 11 }
{
    1 + (varint_size(len as u64) + len)
}

/// Appends the tag and the length of a field of so many bytes, for which there is capacity.
pub(crate) fn put_front(number: u8, count: usize, out: &mut Vec<u8>)
    requires capacity { HasCapacity out.old (length (field_front number count)) }
    ensures appended { out.new.items ≡ out.old.items ++ field_front number count }
    ensures len { vec_len out.new ≡ vec_len out.old + length (field_front number count) }
    ensures capacity { vec_capacity out.old ≤ vec_capacity out.new }
{
    put_varint(out, 8 * u64::from(number) + DELIMITED);
    put_varint(out, count as u64);
}

/// Appends a field of bytes for which there is capacity.
#[tactic(auto, using(proto_fields::proofs::WrittenLemmas::size_is_length))]
pub(crate) fn put_entry(number: u8, bytes: &[u8], out: &mut Vec<u8>)
    requires capacity { HasCapacity out.old (length (bytes_field number bytes.now)) }
    ensures appended { out.new.items ≡ out.old.items ++ bytes_field number bytes.now }
    ensures len { vec_len out.new ≡ vec_len out.old + length (bytes_field number bytes.now) }
    ensures capacity { vec_capacity out.old ≤ vec_capacity out.new }
{
    put_field(u32::from(number), bytes, out);
}
