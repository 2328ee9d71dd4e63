//! The payload of a collision: its strings where they lie, then the collision that they are; and
//! written. Nothing here takes memory.

ghost use Rattle.std.specs.Prelude.{◌≡◌, ◌≤◌, length, None, Some, IfSome, MatchOption, if◌then◌else◌, ◌+◌, ◌++◌};
ghost use Rattle.namespace_id.specs.Answers.{Gives, HasCapacity};
ghost use Rattle.hash_clash.specs.Preimages.{longest};
ghost use Rattle.frame_payloads.specs.kinds.Clash.{has_empty, clash_payload, side_at, is_collision, clash_at};
ghost use Rattle.frame_payloads.specs.Payloads.{IsSize};

use crate::codec::appending::put_text16;
use frame_fields::text16_at;
use hash_clash::{Clash, Preimage};
use namespace_id::bytes_law;

/// The most bytes of a string, as many as a tree hashes at once.
const MOST_BYTES: u16 = 542;

/// The bytes that state the lengths of both strings.
const LENGTHS_SIZE: u32 = 4;

/// A string of at least one byte behind its length, and the bytes after it.
#[tactic(auto, unfolding(crate::specs::kinds::Clash::side_at))]
fn side_at(bytes: &[u8]) -> Option<(&[u8], &[u8])>
    ensures value { Gives (λ x. (x.0.now, x.1.now)) result (side_at bytes.now) }
    ensures few { IfSome result (λ x. length x.0.now ≤ longest) }
{
    let (text, rest) = text16_at(bytes, MOST_BYTES)?;
    if text.is_empty() {
        return None;
    }
    Some((text, rest))
}

/// The collision whose payload the bytes are.
#[tactic(auto, unfolding(crate::specs::kinds::Clash::clash_at))]
pub fn clash(payload: &[u8]) -> Option<Clash>
    ensures { result ≡ clash_at payload.now }
{
    let Some((left, rest)) = side_at(payload) else {
        return None;
    };
    let Some((right, rest)) = side_at(rest) else {
        return None;
    };
    if !rest.is_empty() {
        return None;
    }
    bytes_law(left);
    bytes_law(right);
    Clash::of(Preimage::of(left)?, Preimage::of(right)?)
}

/// Whether one of the strings is empty.
fn has_empty(clash: &Clash) -> bool
    ensures { result ≡ has_empty clash.now }
{
    clash.left().bytes().is_empty() || clash.right().bytes().is_empty()
}

/// The length of the payload of a collision, none where one of the strings is empty.
pub fn clash_size(clash: &Clash) -> Option<u32>
    ensures { IsSize (has_empty clash.now) (clash_payload clash.now) result }
{
    if has_empty(clash) {
        return None;
    }
    let left = clash.left().bytes().len() as u32;
    let right = clash.right().bytes().len() as u32;
    Some(LENGTHS_SIZE + left + right)
}

/// Appends the payload of a collision.
pub fn put_clash(out: &mut Vec<u8>, clash: &Clash)
    requires capacity { HasCapacity out.old (length (clash_payload clash.now)) }
    ensures appended { out.new.items ≡ out.old.items ++ clash_payload clash.now }
{
    put_text16(out, clash.left().bytes()).unwrap();
    put_text16(out, clash.right().bytes()).unwrap();
}
