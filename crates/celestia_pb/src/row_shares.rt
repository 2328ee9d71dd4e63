//! Shares in repeated fields.

ghost use Rattle.std.specs.Prelude.{◌≡◌, ◌+◌, ◌*◌, ◌≤◌, ◌++◌, length, vec_len, vec_capacity, IfOk, IfErr};
ghost use Rattle.namespace_id.specs.Answers.{HasCapacity};
ghost use Rattle.namespace_id.specs.Sizes.{greatest_width};
ghost use Rattle.celestia_pb.specs.Reading.{ReadsMessage};
ghost use Rattle.celestia_pb.specs.RowShares.{shares_text, shares_at, share_entry_size, tagged_shares};

use crate::sample::{put_share, share_field};
use crate::share_lists::shares_behind;
use namespace_id::{GREATEST_WIDTH, NoMemory, SHARE_SIZE, Share, bytes_law};
use std::alloc::Global;

/// The bytes of the tags and the lengths of a share.
const FRONT_SIZE: usize = 6;

/// The bytes of a share with these.
pub(crate) const SHARE_ENTRY_SIZE: usize = FRONT_SIZE + SHARE_SIZE;

/// The most shares.
pub(crate) const MOST_SHARES: usize = GREATEST_WIDTH as usize;

/// How many shares are at the front, at most so many as a row of the widest square has, and the bytes after them; where one of them
/// is wrong, how many bytes are left from the field on that is.
pub(crate) fn count_shares(bytes: &[u8]) -> Result<(usize, &[u8]), usize>
    ensures value { ReadsMessage (λ x. (tagged_shares x.0 bytes.now, x.1.now)) result (shares_at greatest_width bytes.now) }
    ensures size { IfOk result (λ x. share_entry_size * x.0 + length x.1.now ≡ length bytes.now) }
    ensures few { IfOk result (λ x. x.0 ≤ greatest_width) }
    ensures within { IfErr result (λ left. left ≤ length bytes.now) }
{
    bytes_law(bytes);
    let mut count = 0;
    let mut rest = bytes;
    while count < MOST_SHARES {
        let (share, after) = share_field(rest)?;
        let Some(_share) = share else {
            return Ok((count, rest));
        };
        count += 1;
        rest = after;
    }
    Ok((count, rest))
}

/// So many shares, each behind its tags and lengths. The one refusal is that it is out of memory.
pub(crate) fn shares_in(alloc: Global, count: usize, bytes: &[u8]) -> Result<Vec<Share>, NoMemory>
    requires { share_entry_size * count ≤ length bytes.now }
    ensures value { IfOk result (λ shares. shares.items ≡ tagged_shares count bytes.now) }
    ensures len { IfOk result (λ shares. vec_len shares ≡ count) }
{
    shares_behind(alloc, FRONT_SIZE, count, bytes)
}

/// Appends shares for which there is capacity, each in its field.
pub(crate) fn put_shares(shares: &[Share], out: &mut Vec<u8>)
    requires capacity { HasCapacity out.old (length (shares_text shares.now)) }
    ensures appended { out.new.items ≡ out.old.items ++ shares_text shares.now }
    ensures len { vec_len out.new ≡ vec_len out.old + length (shares_text shares.now) }
    ensures capacity { vec_capacity out.old ≤ vec_capacity out.new }
{
    for share in shares {
        put_share(share, out);
    }
}
