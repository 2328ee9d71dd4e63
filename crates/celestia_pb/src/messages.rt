//! What stands in messages: numbers, and messages in messages.

ghost use Rattle.std.specs.Prelude.{◌≡◌, ◌+◌, ◌≤◌, ◌<◌, length, IfOk, IfErr, IfSome};
ghost use Rattle.namespace_id.specs.Answers.{Gives};
ghost use Rattle.proto_fields.specs.Canonical.{canonical_number, canonical_part};
ghost use Rattle.celestia_pb.specs.Reading.{ReadsMessage, or_left};

use namespace_id::bytes_law;
use proto_fields::{canonical_number, canonical_part};

/// The number of a field of this number that may be at the front, 0 where it isn't there, and the bytes after it; where it is
/// wrong, how many bytes are left from it on.
pub(crate) fn number_at(number: u8, bytes: &[u8]) -> Result<(u64, &[u8]), usize>
    requires { number < 16 }
    ensures value { ReadsMessage (λ x. (x.0, x.1.now)) result (or_left bytes.now (canonical_number number bytes.now)) }
    ensures shorter { IfOk result (λ x. length x.1.now ≤ length bytes.now) }
    ensures within { IfErr result (λ left. left ≤ length bytes.now) }
{
    bytes_law(bytes);
    let Some((value, rest)) = canonical_number(number, bytes) else {
        return Err(bytes.len());
    };
    Ok((value, rest))
}

/// The bytes of a field of this number at the front, and the bytes after it.
pub(crate) fn part_at(number: u8, bytes: &[u8]) -> Option<(&[u8], &[u8])>
    requires { number < 16 }
    ensures value { Gives (λ x. (x.0.now, x.1.now)) result (canonical_part number bytes.now) }
    ensures shorter { IfSome result (λ x. length x.0.now + length x.1.now ≤ length bytes.now) }
{
    bytes_law(bytes);
    canonical_part(number, bytes)
}
