//! The payload of a refusal.

ghost use Rattle.std.specs.Prelude.{◌≡◌, ◌≤◌, length, ◌++◌, vec_capacity};
ghost use Rattle.std.specs.Int.{w64};
ghost use Rattle.namespace_id.specs.Answers.{Gives, HasCapacity};
ghost use Rattle.frame_fields.specs.Fields.{big_endian_at};
ghost use Rattle.frame_payloads.specs.kinds.Refusal.{reason_of, refusal_payload, reason_at, refusal_at};

use crate::refusals::{Reason, Refusal};
use frame_fields::u8_at;
use namespace_id::append;

/// The bytes of a refusal: its reason and its number.
pub const REFUSAL_SIZE: u32 = 9;

/// The reason that a byte is.
fn reason_of(byte: u8) -> Option<Reason>
    ensures { result ≡ reason_of byte }
{
    match byte {
        0 => Some(Reason::NoSuchFrame),
        1 => Some(Reason::FirstCheck),
        2 => Some(Reason::SecondCheck),
        3 => Some(Reason::ThirdCheck),
        4 => Some(Reason::FourthCheck),
        5 => Some(Reason::NoAnswer),
        _ => None,
    }
}

/// A reason in one byte, and the bytes after it.
#[tactic(auto, unfolding(crate::specs::kinds::Refusal::reason_at))]
fn reason_at(bytes: &[u8]) -> Option<(Reason, &[u8])>
    ensures { Gives (λ x. (x.0, x.1.now)) result (reason_at bytes.now) }
{
    let (byte, rest) = u8_at(bytes)?;
    let reason = reason_of(byte)?;
    Some((reason, rest))
}

/// A number of eight bytes, the highest first, and the bytes after it.
fn u64_at(bytes: &[u8]) -> Option<(u64, &[u8])>
    ensures { Gives (λ x. (x.0, x.1.now)) result (big_endian_at w64 bytes.now) }
{
    let (front, rest) = bytes.split_at_checked(8)?;
    let number = u64::from_be_bytes([
        front[0], front[1], front[2], front[3], front[4], front[5], front[6], front[7],
    ]);
    Some((number, rest))
}

/// The refusal whose payload the bytes are.
#[tactic(auto, unfolding(crate::specs::kinds::Refusal::refusal_at))]
pub fn refusal(payload: &[u8]) -> Option<Refusal>
    ensures { result ≡ refusal_at payload.now }
{
    let Some((reason, rest)) = reason_at(payload) else {
        return None;
    };
    let Some((number, rest)) = u64_at(rest) else {
        return None;
    };
    if !rest.is_empty() {
        return None;
    }
    Some(Refusal { reason, number })
}

/// Appends the payload of a refusal.
pub fn put_refusal(out: &mut Vec<u8>, refusal: Refusal)
    requires capacity { HasCapacity out.old (length (refusal_payload refusal)) }
    ensures appended { out.new.items ≡ out.old.items ++ refusal_payload refusal }
    ensures capacity { vec_capacity out.old ≤ vec_capacity out.new }
{
    append(out, &[refusal.reason.byte()]);
    append(out, &refusal.number.to_be_bytes());
}
