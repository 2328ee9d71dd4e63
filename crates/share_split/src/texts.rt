//! The text of units: each behind its length, and where each starts.

ghost use Rattle.std.specs.Prelude.{◌≡◌, ◌+◌, ◌<◌, ◌^◌, ◌++◌, length, vec_len, vec_capacity, ◌≤◌, IfOk};
ghost use Rattle.share_split.specs.Units.{unit_text, units_text, starts_on};
ghost use Rattle.namespace_id.specs.Answers.{HasCapacity};
ghost use Rattle.share_split.specs.Texts.{IsNextOf, starts_of};

use crate::Unit;
use namespace_id::append;
use proto_fields::{put_varint, varint_size};
use std::alloc::{AllocError, Global};

/// How many bytes a unit takes in the text: those of its length and its own.
fn unit_size(unit: &Unit) -> usize
    ensures { result ≡ length (unit_text unit.now) }
{
    let len = unit.bytes.len();
    varint_size(len as u64) + len
}

/// How many bytes the text of units has.
pub(crate) fn text_size(units: &[Unit]) -> u128
    ensures { result ≡ length (units_text units.now) }
{
    let mut size = 0;
    for unit in units {
        size += unit_size(unit) as u128;
    }
    size
}

/// Appends a unit behind its length.
fn put_unit(out: &mut Vec<u8>, unit: &Unit)
    requires capacity { HasCapacity out.old (length (unit_text unit.now)) }
    ensures appended { out.new.items ≡ out.old.items ++ unit_text unit.now }
    ensures len { vec_len out.new ≡ vec_len out.old + length (unit_text unit.now) }
    ensures capacity { vec_capacity out.old ≤ vec_capacity out.new }
{
    put_varint(out, unit.bytes.len() as u64);
    append(out, &unit.bytes);
}

/// The text of units, whose length is given. Refuses only where there is no memory, which is taken at once.
pub(crate) fn units_text(alloc: Global, units: &[Unit], size: usize) -> Result<Vec<u8>, AllocError>
    requires size { size ≡ length (units_text units.now) }
    ensures text { IfOk result (λ text. text.items ≡ units_text units.now) }
{
    let mut text = Vec::with_capacity(alloc, size)?;
    for unit in units {
        put_unit(&mut text, unit);
    }
    Ok(text)
}

/// The unit that starts next: how many units come before it, and where it starts in the text.
#[derive(Clone, Copy)]
pub(crate) struct NextUnit {
    pub(crate) index: usize,
    pub(crate) start: usize,
}

/// The first unit, from `next` on, that doesn't start before a place of the text.
pub(crate) fn next_on(units: &[Unit], next: NextUnit, from: usize) -> NextUnit
    requires next { IsNextOf units.now next }
    requires few { length (units_text units.now) < 2 ^ 64 }
    ensures starts { starts_of units.now result ≡ starts_on from (starts_of units.now next) }
    ensures place { result.index < length units.now → from ≤ result.start }
    ensures next { IsNextOf units.now result }
{
    let mut next = next;
    while next.index < units.len() && next.start < from {
        let start = next.start + unit_size(&units[next.index]);
        next = NextUnit {
            index: next.index + 1,
            start,
        };
    }
    next
}
