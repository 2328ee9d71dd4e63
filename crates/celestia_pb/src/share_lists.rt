//! Lists of shares, read where they lie and written one after another.

ghost use Rattle.std.specs.Prelude.{◌≡◌, ◌+◌, ◌*◌, ◌≤◌, ◌<◌, ◌^◌, ◌++◌, length, vec_len, vec_capacity, IfOk};
ghost use Rattle.namespace_id.specs.Answers.{HasCapacity};
ghost use Rattle.namespace_id.specs.Sizes.{share_size};
ghost use Rattle.celestia_pb.specs.ShareLists.{share_behind, shares_behind};
ghost use Rattle.namespace_id.specs.Shares.{share_bytes};

use namespace_id::{NoMemory, SHARE_SIZE, Share, append};
use std::alloc::Global;

/// The share behind so many bytes.
fn share_behind(front: usize, bytes: &[u8]) -> Share
    requires { front + share_size ≤ length bytes.now }
    ensures { result ≡ share_behind front bytes.now }
{
    let mut share = Share([0; SHARE_SIZE]);
    share.0.copy_from_slice(&bytes[front..front + SHARE_SIZE]);
    share
}

/// So many shares, each behind so many bytes. The one refusal is that it is out of memory.
pub(crate) fn shares_behind(
    alloc: Global,
    front: usize,
    count: usize,
    bytes: &[u8],
) -> Result<Vec<Share>, NoMemory>
    requires size { (front + share_size) * count ≤ length bytes.now }
    requires few { front < 2 ^ 32 }
    ensures value { IfOk result (λ shares. shares.items ≡ shares_behind front count bytes.now) }
    ensures len { IfOk result (λ shares. vec_len shares ≡ count) }
{
    let mut shares = Vec::with_capacity(alloc, count)?;
    let mut rest = bytes;
    for _ in 0..count {
        let (_entry, after) = rest.split_at(front + SHARE_SIZE);
        let Ok(()) = shares.push(share_behind(front, rest)) else {
            return Err(NoMemory);
        };
        rest = after;
    }
    Ok(shares)
}

/// Appends the bytes of shares, one after another, for which there is capacity.
pub(crate) fn put_shares(shares: &[Share], out: &mut Vec<u8>)
    requires capacity { HasCapacity out.old (length (share_bytes shares.now)) }
    ensures appended { out.new.items ≡ out.old.items ++ share_bytes shares.now }
    ensures len { vec_len out.new ≡ vec_len out.old + length (share_bytes shares.now) }
    ensures capacity { vec_capacity out.old ≤ vec_capacity out.new }
{
    for share in shares {
        append(out, &share.0);
    }
}
