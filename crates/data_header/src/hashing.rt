//! The plain Merkle tree over axis roots, with the prefixes of RFC 6962: 0x00 for a leaf, 0x01 for
//! a node.
//!
//! Roots and paths are recursions on halves that keep nothing and hash anew each time. A header has
//! at most 2,048 axis roots, so a proof costs about four thousand hashes and no memory. `trees` has the
//! hashes of all nodes, for few digests and for many proofs.

ghost use Rattle.std.specs.Prelude.{◌≡◌, ◌^◌, ◌<◌, ℕ, length, IsTrue};
ghost use Rattle.namespace_id.specs.Powers.{is_power};
ghost use Rattle.data_header.specs.DataRoots.{leaf_hash, inner_hash, merkle_root, path_of, led};
ghost use Rattle.data_header.specs.Paths.{most_hashes};

use crate::RootPath;
use crate::trees::{FEW, few_root};
use namespace_id::Digest;
use sha2::{Digest as _, Sha256};

/// The hash of a leaf: of the byte 0x00 and a digest.
///
/// RFC 6962, 2.1.
#[tactic(auto, unfolding(crate::specs::DataRoots::leaf_hash))]
pub fn leaf_hash(digest: &Digest) -> [u8; 32]
    ensures { result ≡ leaf_hash digest.now }
{
    let mut hasher = Sha256::new();
    hasher.update(&[0]);
    hasher.update(&digest.0);
    hasher.finalize()
}

/// The hash of a node: of the byte 0x01 and two hashes.
///
/// RFC 6962, 2.1.
#[tactic(auto, unfolding(crate::specs::DataRoots::inner_hash))]
pub fn inner_hash(left: &[u8; 32], right: &[u8; 32]) -> [u8; 32]
    ensures { result ≡ inner_hash left.now right.now }
{
    let mut hasher = Sha256::new();
    hasher.update(&[1]);
    hasher.update(left);
    hasher.update(right);
    hasher.finalize()
}

/// The root by the halves of the digests. It takes no memory.
///
/// RFC 6962, 2.1.
pub(crate) fn merkle_root(digests: &[Digest]) -> [u8; 32]
    requires { IsTrue (is_power (length digests.now)) }
    ensures { (depth : ℕ) → length digests.now ≡ 2 ^ depth →
        result ≡ merkle_root depth digests.now }
{
    if digests.len() <= FEW {
        return few_root(digests);
    }
    let (left, right) = digests.split_at(digests.len() / 2);
    inner_hash(&merkle_root(left), &merkle_root(right))
}

/// The hashes that lead from a place of the digests to their root. It takes no memory.
///
/// RFC 6962, 2.1.1.
pub(crate) fn path_of(digests: &[Digest], place: usize) -> RootPath
    requires count { IsTrue (is_power (length digests.now)) }
    requires place { place < length digests.now }
    ensures value { (depth : ℕ) → length digests.now ≡ 2 ^ depth →
        result ≡ path_of depth digests.now place }
    ensures room { length result < most_hashes }
{
    if digests.len() == 1 {
        return RootPath::new();
    }
    let half = digests.len() / 2;
    let (left, right) = digests.split_at(half);
    if place < half {
        let mut path = path_of(left, place);
        path.push(merkle_root(right));
        path
    } else {
        let mut path = path_of(right, place - half);
        path.push(merkle_root(left));
        path
    }
}

/// Where hashes lead from a place upwards: at an odd place the next hash stands on the left.
///
/// RFC 6962, 2.1.1.
pub(crate) fn led(place: usize, hash: [u8; 32], hashes: &[[u8; 32]]) -> [u8; 32]
    ensures { result ≡ led place hash hashes.now }
{
    let mut place = place;
    let mut top = hash;
    for hash in hashes {
        top = if place % 2 == 0 {
            inner_hash(&top, hash)
        } else {
            inner_hash(hash, &top)
        };
        place /= 2;
    }
    top
}
