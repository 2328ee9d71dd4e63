//! Varints: numbers of up to 64 bits, seven bits in a byte, the lowest first.

ghost use Rattle.std.specs.Prelude.{◌≡◌, ◌+◌, ◌≤◌, ◌<◌, ◌^◌, ◌++◌, length, vec_len, vec_capacity, IfSome};
ghost use Rattle.namespace_id.specs.Answers.{Gives, HasCapacity};
ghost use Rattle.proto_fields.specs.Varints.{varint, number_within, number_at};

use namespace_id::append;

/// A byte of a varint has seven bits of its number; a byte behind which another follows isn't below this.
const RADIX: u128 = 128;

/// The same, of numbers of up to 64 bits.
const LIMIT: u64 = RADIX as u64;

/// The bytes of the longest varint, at seven bits a byte.
const LONGEST: u8 = 10;

/// The number that a varint of at most so many bytes states at the front, and the bytes after it.
#[tactic(auto, unfolding(crate::specs::Varints::number_within))]
fn number_within(most: u8, bytes: &[u8]) -> Option<(u128, &[u8])>
    requires { most ≤ 10 }
    ensures value { Gives (λ x. (x.0, x.1.now)) result (number_within most bytes.now) }
    ensures bound { IfSome result (λ x. x.0 < 128 ^ most) }
{
    if most == 0 {
        return None;
    }
    let [byte, rest @ ..] = bytes else {
        return None;
    };
    let byte = u128::from(*byte);
    if byte < RADIX {
        return Some((byte, rest));
    }
    let (high, after) = number_within(most - 1, rest)?;
    Some((byte % RADIX + RADIX * high, after))
}

/// The number that a varint of several bytes states at the front, and the bytes after it.
#[tactic(auto, unfolding(crate::specs::Varints::number_at))]
fn long_number_at(bytes: &[u8]) -> Option<(u64, &[u8])>
    ensures { Gives (λ x. (x.0, x.1.now)) result (number_at bytes.now) }
{
    let (number, rest) = number_within(LONGEST, bytes)?;
    if number > u128::from(u64::MAX) {
        return None;
    }
    Some((number as u64, rest))
}

/// The number that a varint states at the front, and the bytes after it: one to ten bytes, of which all but the
/// last have their upper bit set, and which state less than 2^64. It needn't be the shortest.
///
/// protobuf, "Encoding".
#[tactic(auto, unfolding(crate::specs::Varints::number_within))]
pub fn number_at(bytes: &[u8]) -> Option<(u64, &[u8])>
    ensures { Gives (λ x. (x.0, x.1.now)) result (number_at bytes.now) }
{
    let [byte, rest @ ..] = bytes else {
        return None;
    };
    let number = u64::from(*byte);
    if number < LIMIT {
        return Some((number, rest));
    }
    long_number_at(bytes)
}

/// How many bytes the shortest varint of a number takes: from one to ten.
///
/// protobuf, "Encoding".
pub fn varint_size(number: u64) -> usize
    ensures value { result ≡ length (varint number) }
    ensures few { result ≤ 10 }
{
    let mut rest = number;
    let mut size = 1;
    while rest >= LIMIT {
        rest /= LIMIT;
        size += 1;
    }
    size
}

/// Appends the shortest varint of a number, for which there is capacity.
///
/// protobuf, "Encoding".
pub fn put_varint(out: &mut Vec<u8>, number: u64)
    requires capacity { HasCapacity out.old (length (varint number)) }
    ensures appended { out.new.items ≡ out.old.items ++ varint number }
    ensures len { vec_len out.new ≡ vec_len out.old + length (varint number) }
    ensures capacity { vec_capacity out.old ≤ vec_capacity out.new }
{
    let mut rest = number;
    while rest >= LIMIT {
        append(out, &[(rest % LIMIT + LIMIT) as u8]);
        rest /= LIMIT;
    }
    append(out, &[rest as u8]);
}
