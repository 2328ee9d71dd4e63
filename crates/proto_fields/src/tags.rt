//! Tags: the number of a field, and how its value is written.

ghost use Rattle.std.specs.Prelude.{◌≡◌};
ghost use Rattle.namespace_id.specs.Answers.{Gives};
ghost use Rattle.proto_fields.specs.Fields.{wire_of, tag_of, tag_at};

use crate::varints::number_at;

/// The greatest number of a field, 2^29 - 1.
const GREATEST_NUMBER: u64 = 536_870_911;

/// How the value behind a tag is written.
#[derive(Clone, Copy)]
pub(crate) enum Wire {
    /// A varint.
    Varint,
    /// Eight bytes.
    EightBytes,
    /// A length as a varint, and so many bytes.
    Delimited,
    /// Fields, up to the tag that ends them.
    GroupStart,
    /// Nothing: this tag ends a group.
    GroupEnd,
    /// Four bytes.
    FourBytes,
}

/// What stands before a value.
#[derive(Clone, Copy)]
pub(crate) struct Tag {
    pub(crate) number: u32,
    pub(crate) wire: Wire,
}

/// The wire that the lowest three bits of a tag state.
fn wire_of(code: u64) -> Option<Wire>
    ensures { result ≡ wire_of code }
{
    match code {
        0 => Some(Wire::Varint),
        1 => Some(Wire::EightBytes),
        2 => Some(Wire::Delimited),
        3 => Some(Wire::GroupStart),
        4 => Some(Wire::GroupEnd),
        5 => Some(Wire::FourBytes),
        _ => None,
    }
}

/// The tag that a number is.
fn tag_of(tag: u64) -> Option<Tag>
    ensures { result ≡ tag_of tag }
{
    let number = tag / 8;
    if number == 0 || number > GREATEST_NUMBER {
        return None;
    }
    let wire = wire_of(tag % 8)?;
    Some(Tag {
        number: number as u32,
        wire,
    })
}

/// The tag at the front, and the bytes after it.
pub(crate) fn tag_at(bytes: &[u8]) -> Option<(Tag, &[u8])>
    ensures { Gives (λ x. (x.0, x.1.now)) result (tag_at bytes.now) }
{
    let (tag, rest) = number_at(bytes)?;
    let tag = tag_of(tag)?;
    Some((tag, rest))
}
