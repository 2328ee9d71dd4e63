//! Compact shares, and the reserved bytes in them.

ghost use Rattle.std.specs.Prelude.{◌≡◌, ◌+◌, ◌≤◌, ◌<◌, ◌^◌, ◌++◌, length};
ghost use Rattle.namespace_id.specs.Answers.{HasCapacity};
ghost use Rattle.share_split.specs.Blobs.{max_sequence_length};
ghost use Rattle.share_split.specs.Units.{first_compact_content, later_compact_content, units_text, starts_from, content_start, reserved_of, first_compact_share, later_compact_share, later_compact_shares, compact_count, compact_shares};
ghost use Rattle.share_split.specs.Texts.{starts_of};

use crate::blobs::{count_from, put_share, sequence_share, split_within};
use crate::places::{content_start, place_in};
use crate::texts::{NextUnit, next_on};
use crate::{FIRST_COMPACT_CONTENT, LATER_COMPACT_CONTENT, Unit};
use namespace_id::{Namespace, Share};

/// The number that the reserved bytes of a share state: where in it the next unit starts, if it does.
fn reserved_of(units: &[Unit], next: NextUnit, share: usize) -> u32
    requires share { share < 2 ^ 32 }
    requires place { next.index < length units.now → content_start share ≤ next.start }
    ensures { result ≡ reserved_of share (starts_of units.now next) }
{
    if next.index >= units.len() {
        return 0;
    }
    place_in(share, next.start)
}

/// The version of compact shares.
const COMPACT_VERSION: u8 = 0;

/// The first compact share of a sequence of `size` bytes, which begins with this content.
fn first_compact_share(namespace: &Namespace, size: u32, reserved: u32, content: &[u8]) -> Share
    requires { length content.now ≤ first_compact_content }
    ensures { result ≡ first_compact_share namespace.now size reserved content.now }
{
    let size = size.to_be_bytes();
    let reserved = reserved.to_be_bytes();
    sequence_share(namespace, COMPACT_VERSION, true, &size, &reserved, content)
}

/// A later compact share of a sequence.
fn later_compact_share(namespace: &Namespace, reserved: u32, content: &[u8]) -> Share
    requires { length content.now ≤ later_compact_content }
    ensures { result ≡ later_compact_share namespace.now reserved content.now }
{
    let reserved = reserved.to_be_bytes();
    sequence_share(namespace, COMPACT_VERSION, false, &[], &reserved, content)
}

/// Appends so many later compact shares, over what is behind the first one's content in the text.
fn put_later_compact(
    out: &mut Vec<Share>,
    namespace: &Namespace,
    units: &[Unit],
    text: &[u8],
    count: usize,
)
    requires capacity { HasCapacity out.old count }
    requires count { count < 2 ^ 32 }
    requires few { length (units_text units.now) < 2 ^ 64 }
    ensures appended { out.new.items ≡ out.old.items ++
        later_compact_shares count namespace.now 1 (starts_from 0 units.now) text.now }
{
    let mut rest = text;
    let mut next = NextUnit { index: 0, start: 0 };
    for i in 0..count {
        next = next_on(units, next, content_start(i + 1));
        let reserved = reserved_of(units, next, i + 1);
        let (content, after) = split_within(rest, LATER_COMPACT_CONTENT);
        put_share(out, later_compact_share(namespace, reserved, content));
        rest = after;
    }
}

/// How many compact shares a text of so many bytes takes.
pub(crate) fn compact_count(size: u128) -> u128
    ensures { result ≡ compact_count size }
{
    count_from(FIRST_COMPACT_CONTENT, LATER_COMPACT_CONTENT, size)
}

/// Appends the one compact sequence of units, whose text and number of shares are given.
pub(crate) fn put_compact(
    out: &mut Vec<Share>,
    namespace: &Namespace,
    units: &[Unit],
    text: &[u8],
    count: usize,
)
    requires text { text.now ≡ units_text units.now }
    requires few { length text.now ≤ max_sequence_length }
    requires count { count ≡ compact_count (length text.now) }
    requires capacity { HasCapacity out.old count }
    ensures appended { out.new.items ≡ out.old.items ++ compact_shares namespace.now units.now }
{
    let first = NextUnit { index: 0, start: 0 };
    let reserved = reserved_of(units, first, 0);
    let (content, rest) = split_within(text, FIRST_COMPACT_CONTENT);
    let share = first_compact_share(namespace, text.len() as u32, reserved, content);
    put_share(out, share);
    put_later_compact(out, namespace, units, rest, count - 1);
}
