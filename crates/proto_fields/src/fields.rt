//! Fields, read one after another.

ghost use Rattle.std.specs.Prelude.{◌≡◌, ◌↔◌, IsTrue, IsSome, IfSome};
ghost use Rattle.namespace_id.specs.Answers.{Gives};
ghost use Rattle.proto_fields.specs.Fields.{field_at, fields_of, last_of, own_bytes, own_numbers, last_bytes, last_number};
ghost use Rattle.proto_fields.specs.Values.{field_parts};

use crate::tags::tag_at;
use crate::values::{Value, value_at};

/// The most groups that are open at once, one in another.
const MOST_OPEN: u8 = 100;

/// A field: its number, from 1 to 536,870,911, and its value.
#[derive(Clone, Copy, Debug, PartialEq, Eq)]
pub struct Field<'a> {
    pub number: u32,
    pub value: Value<'a>,
}

/// The field at the front, and the bytes after it; none exactly where none is there.
///
/// A field is a tag, which is a varint, and a value. A group counts as one, with all that is in it; at most 100 groups may be
/// open at once, one in another. (protobuf, "Encoding"; the limit of groups is profile)
pub fn field_at(bytes: &[u8]) -> Option<(Field<'_>, &[u8])>
    ensures { Gives (λ x. (field_parts x.0, x.1.now)) result (field_at bytes.now) }
{
    let (tag, after) = tag_at(bytes)?;
    let (value, rest) = value_at(MOST_OPEN, tag, after)?;
    let field = Field {
        number: tag.number,
        value,
    };
    Some((field, rest))
}

/// The bytes of a field, where it has this number and bytes, else those of an earlier one. A walk over fields that keeps what
/// this answers has the bytes of the last one.
///
/// protobuf, "Encoding".
#[tactic(auto, unfolding(crate::specs::Fields::last_of))]
pub fn bytes_or<'a>(earlier: &'a [u8], field: Field<'a>, number: u32) -> &'a [u8]
    ensures { result.now ≡ last_of earlier.now (own_bytes number (field_parts field.entry)) }
{
    if field.number != number {
        return earlier;
    }
    match field.value {
        Value::Bytes(bytes) => bytes,
        Value::Number(_) | Value::Other => earlier,
    }
}

/// The number of a field, where it has this number and a number for its value, else that of an earlier one. A walk over
/// fields that keeps what this answers has the number of the last one.
///
/// protobuf, "Encoding".
#[tactic(auto, unfolding(crate::specs::Fields::last_of))]
pub fn number_or(earlier: u64, field: Field, number: u32) -> u64
    ensures { result ≡ last_of earlier (own_numbers number (field_parts field.entry)) }
{
    if field.number != number {
        return earlier;
    }
    match field.value {
        Value::Number(value) => value,
        Value::Bytes(_) | Value::Other => earlier,
    }
}

/// Whether bytes are fields, one after another, and nothing else. No bytes are no fields.
///
/// protobuf, "Encoding".
pub fn are_fields(bytes: &[u8]) -> bool
    ensures { IsTrue result ↔ IsSome (fields_of bytes.now) }
{
    let mut rest = bytes;
    while let Some((_field, after)) = field_at(rest) {
        rest = after;
    }
    rest.is_empty()
}

/// The bytes of the last field of a number that has bytes, and no bytes where there is none. Fields of this number with
/// other values are passed over.
///
/// protobuf, "Encoding".
pub fn last_bytes(bytes: &[u8], number: u32) -> &[u8]
    requires fields { IsSome (fields_of bytes.now) }
    ensures { IfSome (fields_of bytes.now) (λ fields. result.now ≡ last_bytes number fields) }
{
    let mut last = &bytes[..0];
    let mut rest = bytes;
    while let Some((field, after)) = field_at(rest) {
        last = bytes_or(last, field, number);
        rest = after;
    }
    last
}

/// The number of the last field of a number that has one, and 0 where there is none. Fields of this number with other
/// values are passed over.
///
/// protobuf, "Encoding".
pub fn last_number(bytes: &[u8], number: u32) -> u64
    requires fields { IsSome (fields_of bytes.now) }
    ensures { IfSome (fields_of bytes.now) (λ fields. result ≡ last_number number fields) }
{
    let mut last = 0;
    let mut rest = bytes;
    while let Some((field, after)) = field_at(rest) {
        last = number_or(last, field, number);
        rest = after;
    }
    last
}
