//! Digests in repeated fields of bytes.

ghost use Rattle.std.specs.Prelude.{◌≡◌, ◌+◌, ◌*◌, ◌≤◌, ◌<◌, ◌++◌, length, drop, vec_len, vec_capacity, IfOk, IfErr};
ghost use Rattle.namespace_id.specs.Answers.{Gives, HasCapacity};
ghost use Rattle.celestia_pb.specs.Reading.{ReadsMessage};
ghost use Rattle.celestia_pb.specs.Digests.{digests_text, digest_field, digests_at, digests_in, entry_digest, entry_size};

use crate::entries::put_entry;
use namespace_id::{DIGEST_SIZE, Digest, NoMemory, bytes_law};
use proto_fields::{begins_part, canonical_part};
use std::alloc::Global;

/// The bytes of a tag and of the length of a digest.
const FRONT_SIZE: usize = 2;

/// The bytes of a digest with its tag and length.
pub(crate) const ENTRY_SIZE: usize = FRONT_SIZE + DIGEST_SIZE;

/// The digest in a field of this number at the front, and the bytes after it.
pub(crate) fn digest_at(number: u8, bytes: &[u8]) -> Option<(Digest, &[u8])>
    requires { number < 16 }
    ensures { Gives (λ x. (x.0, x.1.now)) result (digest_field number bytes.now) }
{
    let (part, rest) = canonical_part(number, bytes)?;
    if part.len() != DIGEST_SIZE {
        return None;
    }
    let mut digest = Digest([0; DIGEST_SIZE]);
    digest.0.copy_from_slice(part);
    Some((digest, rest))
}

/// How many digests in fields of this number are at the front, at most so many, and the bytes after them; where one of them
/// is wrong, how many bytes are left from it on.
pub(crate) fn count_digests(number: u8, most: usize, bytes: &[u8]) -> Result<(usize, &[u8]), usize>
    requires { number < 16 }
    ensures value { ReadsMessage (λ x. (digests_in x.0 bytes.now, x.1.now)) result (digests_at number most bytes.now) }
    ensures behind { IfOk result (λ x. x.1.now ≡ drop (entry_size * x.0) bytes.now) }
    ensures size { IfOk result (λ x. entry_size * x.0 + length x.1.now ≡ length bytes.now) }
    ensures few { IfOk result (λ x. x.0 ≤ most) }
    ensures within { IfErr result (λ left. left ≤ length bytes.now) }
{
    bytes_law(bytes);
    let mut count = 0;
    let mut rest = bytes;
    while count < most {
        if !begins_part(number, rest) {
            return Ok((count, rest));
        }
        let Some((_digest, after)) = digest_at(number, rest) else {
            return Err(rest.len());
        };
        count += 1;
        rest = after;
    }
    Ok((count, rest))
}

/// The digest behind a tag and a length.
pub(crate) fn entry_digest(bytes: &[u8]) -> Digest
    requires { entry_size ≤ length bytes.now }
    ensures { result ≡ entry_digest bytes.now }
{
    let mut digest = Digest([0; DIGEST_SIZE]);
    digest.0.copy_from_slice(&bytes[FRONT_SIZE..ENTRY_SIZE]);
    digest
}

/// So many digests, each behind a tag and a length. The one refusal is that it is out of memory.
pub(crate) fn digests_in(alloc: Global, count: usize, bytes: &[u8]) -> Result<Vec<Digest>, NoMemory>
    requires { entry_size * count ≤ length bytes.now }
    ensures value { IfOk result (λ digests. digests.items ≡ digests_in count bytes.now) }
    ensures len { IfOk result (λ digests. vec_len digests ≡ count) }
{
    let mut digests = Vec::with_capacity(alloc, count)?;
    let mut rest = bytes;
    for _ in 0..count {
        let (_entry, after) = rest.split_at(ENTRY_SIZE);
        let Ok(()) = digests.push(entry_digest(rest)) else {
            return Err(NoMemory);
        };
        rest = after;
    }
    Ok(digests)
}

/// Appends digests for which there is capacity, each in a field of this number.
pub(crate) fn put_digests(number: u8, digests: &[Digest], out: &mut Vec<u8>)
    requires capacity { HasCapacity out.old (length (digests_text number digests.now)) }
    ensures appended { out.new.items ≡ out.old.items ++ digests_text number digests.now }
    ensures len { vec_len out.new ≡ vec_len out.old + length (digests_text number digests.now) }
    ensures capacity { vec_capacity out.old ≤ vec_capacity out.new }
{
    for digest in digests {
        put_entry(number, &digest.0, out);
    }
}
