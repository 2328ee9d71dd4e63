//! The plain Merkle tree over any number of leaves, with the prefixes of RFC 6962: 0x00 for a leaf,
//! 0x01 for a node.

ghost use Rattle.std.specs.Prelude.{◌≡◌, ◌≤◌, ◌^◌, length};
ghost use Rattle.namespace_id.specs.Sizes.{most_depth};
ghost use Rattle.blob_commit.specs.Commitments.{root_over};

use data_header::inner_hash;
use nmt_tree::leaf_count;

/// The root over hashes of leaves, of which there are at most `2 ^ depth`. It takes no memory.
///
/// RFC 6962, 2.1.
pub(crate) fn root_over(depth: u8, hashes: &[[u8; 32]]) -> [u8; 32]
    requires depth { depth ≤ most_depth }
    requires some { 1 ≤ length hashes.now }
    ensures { result ≡ root_over depth hashes.now }
{
    if depth == 0 {
        return hashes[0];
    }
    let lower = depth - 1;
    let half = leaf_count(lower) as usize;
    if hashes.len() <= half {
        return root_over(lower, hashes);
    }
    let (left, right) = hashes.split_at(half);
    inner_hash(&root_over(lower, left), &root_over(lower, right))
}
