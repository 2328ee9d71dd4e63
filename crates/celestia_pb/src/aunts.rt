//! Hashes in repeated fields of bytes.

ghost use Rattle.std.specs.Prelude.{◌≡◌, ◌+◌, ◌≤◌, ◌<◌, ◌++◌, length, vec_len, vec_capacity, IfOk, IfErr, IfSome};
ghost use Rattle.namespace_id.specs.Answers.{Gives, HasCapacity};
ghost use Rattle.data_header.specs.Paths.{most_hashes};
ghost use Rattle.proto_fields.specs.Canonical.{parts_text};
ghost use Rattle.celestia_pb.specs.Reading.{ReadsMessage};
ghost use Rattle.celestia_pb.specs.Aunts.{aunt_at, aunts_at};

use crate::entries::put_entry;
use crate::messages::part_at;
use data_header::{MOST_HASHES, RootPath};
use namespace_id::HASH_SIZE;
use proto_fields::begins_part;

/// The bytes of a hash with its tag and length.
pub(crate) const HASH_ENTRY_SIZE: usize = 2 + HASH_SIZE;

/// The bytes of the hash in a field of this number at the front, and those after it.
fn aunt_at(number: u8, bytes: &[u8]) -> Option<(&[u8], &[u8])>
    requires { number < 16 }
    ensures value { Gives (λ x. (x.0.now, x.1.now)) result (aunt_at number bytes.now) }
    ensures size { IfSome result (λ x. length x.0.now ≡ 32) }
    ensures shorter { IfSome result (λ x. length x.1.now ≤ length bytes.now) }
{
    let (part, rest) = part_at(number, bytes)?;
    if part.len() != HASH_SIZE {
        return None;
    }
    Some((part, rest))
}

/// The hash that these bytes are.
fn hash_of(bytes: &[u8]) -> [u8; HASH_SIZE]
    requires { length bytes.now ≡ 32 }
    ensures { result ≡ bytes.now }
{
    let mut hash = [0; HASH_SIZE];
    hash.copy_from_slice(bytes);
    hash
}

/// The hashes in fields of this number at the front, and the bytes after them; where one of them is wrong, how many bytes are
/// left from it on.
pub(crate) fn aunts_at(number: u8, bytes: &[u8]) -> Result<(RootPath, &[u8]), usize>
    requires { number < 16 }
    ensures value { ReadsMessage (λ x. (x.0, x.1.now)) result (aunts_at number most_hashes bytes.now) }
    ensures shorter { IfOk result (λ x. length x.1.now ≤ length bytes.now) }
    ensures within { IfErr result (λ left. left ≤ length bytes.now) }
{
    let mut up = RootPath::new();
    let mut rest = bytes;
    let mut count = 0;
    while count < MOST_HASHES {
        if !begins_part(number, rest) {
            return Ok((up, rest));
        }
        let Some((part, after)) = aunt_at(number, rest) else {
            return Err(rest.len());
        };
        up.push(hash_of(part));
        count += 1;
        rest = after;
    }
    Ok((up, rest))
}

/// Appends hashes for which there is capacity, each in a field of this number.
pub(crate) fn put_aunts(number: u8, hashes: &[[u8; HASH_SIZE]], out: &mut Vec<u8>)
    requires capacity { HasCapacity out.old (length (parts_text number hashes.now)) }
    ensures appended { out.new.items ≡ out.old.items ++ parts_text number hashes.now }
    ensures len { vec_len out.new ≡ vec_len out.old + length (parts_text number hashes.now) }
    ensures capacity { vec_capacity out.old ≤ vec_capacity out.new }
{
    for hash in hashes {
        put_entry(number, hash, out);
    }
}
