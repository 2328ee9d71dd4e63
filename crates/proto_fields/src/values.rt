//! Values of fields.

ghost use Rattle.std.specs.Prelude.{◌≡◌, ◌≤◌, length, Option, IsTrue};
ghost use Rattle.namespace_id.specs.Answers.{Gives};
ghost use Rattle.proto_fields.specs.declared.tags.Wire.TheVariants.{GroupStart};
ghost use Rattle.proto_fields.specs.Fields.{bytes_at, text_at, value_of_wire, no_group, behind_group, value_at};
ghost use Rattle.proto_fields.specs.Values.{value_parts};

use crate::tags::{Tag, Wire, tag_at};
use crate::varints::number_at;

/// The most open groups, one in another, whose numbers one call keeps.
const LEVELS: u8 = 8;

/// The value of a field.
#[derive(Clone, Copy, Debug, PartialEq, Eq)]
pub enum Value<'a> {
    /// A number of up to 64 bits, written as a varint.
    Number(u64),
    /// Bytes behind their length: text, a message, packed numbers.
    Bytes(&'a [u8]),
    /// Another one, which is passed over: of four or eight bytes, or a group.
    Other,
}

/// So many bytes at the front, and the bytes after them.
fn bytes_at(count: u64, bytes: &[u8]) -> Option<(&[u8], &[u8])>
    ensures { Gives (λ x. (x.0.now, x.1.now)) result (bytes_at count bytes.now) }
{
    if count > bytes.len() as u64 {
        return None;
    }
    Some(bytes.split_at(count as usize))
}

/// Bytes behind their length, and the bytes after them.
fn text_at(bytes: &[u8]) -> Option<(&[u8], &[u8])>
    ensures { Gives (λ x. (x.0.now, x.1.now)) result (text_at bytes.now) }
{
    let (count, rest) = number_at(bytes)?;
    bytes_at(count, rest)
}

/// The value of a wire at the front, unless it is a group, and the bytes after it.
fn plain_value_at(wire: Wire, bytes: &[u8]) -> Option<(Value<'_>, &[u8])>
    ensures { Gives (λ x. (value_parts x.0, x.1.now)) result (value_of_wire no_group wire bytes.now) }
{
    match wire {
        Wire::Varint => {
            let (number, rest) = number_at(bytes)?;
            Some((Value::Number(number), rest))
        }
        Wire::Delimited => {
            let (text, rest) = text_at(bytes)?;
            Some((Value::Bytes(text), rest))
        }
        Wire::EightBytes => {
            let (_passed, rest) = bytes_at(8, bytes)?;
            Some((Value::Other, rest))
        }
        Wire::FourBytes => {
            let (_passed, rest) = bytes_at(4, bytes)?;
            Some((Value::Other, rest))
        }
        Wire::GroupStart | Wire::GroupEnd => None,
    }
}

/// Whether a wire begins a group.
fn is_start(wire: Wire) -> bool
    ensures { IsTrue result → (wire ≡ GroupStart) }
{
    matches!(wire, Wire::GroupStart)
}

/// The bytes after a group of this number, in which so many may be open, one in another.
///
/// The numbers of some open groups stand in one array, so that a walk of deep groups calls itself for each eight of them alone.
#[cycle(groups)]
fn behind_group(most: u8, number: u32, bytes: &[u8]) -> Option<&[u8]>
    ensures { Gives (λ x. x.now) result
        (behind_group (value_at most) number (length bytes.now) bytes.now) }
{
    let mut outer = [0; LEVELS as usize];
    let mut inner = number;
    let mut depth: u8 = 0;
    let mut rest = bytes;
    while let Some((tag, after)) = tag_at(rest) {
        if let Wire::GroupEnd = tag.wire {
            if tag.number != inner {
                return None;
            }
            if depth == 0 {
                return Some(after);
            }
            depth -= 1;
            inner = outer[usize::from(depth)];
            rest = after;
            continue;
        }
        if is_start(tag.wire) && depth < most && depth < LEVELS {
            outer[usize::from(depth)] = inner;
            inner = tag.number;
            depth += 1;
            rest = after;
            continue;
        }
        let (_value, behind) = value_at(most - depth, tag, after)?;
        rest = behind;
    }
    None
}

/// The value behind a tag, and the bytes after it; so many groups may be open in it, one in another.
#[cycle(groups)]
pub(crate) fn value_at(most: u8, tag: Tag, bytes: &[u8]) -> Option<(Value<'_>, &[u8])>
    ensures { Gives (λ x. (value_parts x.0, x.1.now)) result (value_at most tag bytes.now) }
{
    let Wire::GroupStart = tag.wire else {
        return plain_value_at(tag.wire, bytes);
    };
    if most == 0 {
        return None;
    }
    let rest = behind_group(most - 1, tag.number, bytes)?;
    Some((Value::Other, rest))
}
