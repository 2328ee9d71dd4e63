//! The digests of leaves and nodes: namespaced hashes of 90 bytes, the least and the greatest
//! namespace below and a SHA-256 value.

ghost use Rattle.std.specs.Prelude.{◌≡◌, ◌++◌, IsTrue, IsOk, IsErr, IfOk, ◌↔◌, false};
ghost use Rattle.nmt_tree.specs.Digests.{leaf_digest, joined_greatest, node_digest, is_ordered_join};

use namespace_id::{DIGEST_SIZE, Digest, NAMESPACE_SIZE, Namespace, PARITY, Share, write_at};
use sha2::{Digest as _, Sha256};
use thiserror::Error;

/// A join of two digests that is not ordered.
#[derive(Clone, Copy, Debug, PartialEq, Eq, Error)]
#[error("the join of two digests is not ordered")]
pub struct Unordered;

/// A digest from its three parts.
pub(crate) fn digest_of(least: &Namespace, greatest: &Namespace, hash: &[u8; 32]) -> Digest
    ensures { result.0 ≡ least.now.0 ++ greatest.now.0 ++ hash.now }
{
    let mut bytes = [0; DIGEST_SIZE];
    write_at(&mut bytes, 0, &least.0);
    write_at(&mut bytes, NAMESPACE_SIZE, &greatest.0);
    write_at(&mut bytes, 2 * NAMESPACE_SIZE, hash);
    Digest(bytes)
}

/// The digest of the leaf over a share: its namespace twice, and the hash of the byte 0x00, the
/// namespace and the share.
///
/// Celestia specifications, "Data Structures", namespaced Merkle trees; RFC 6962, 2.1 (prefixes).
#[tactic(auto, unfolding(crate::specs::Digests::leaf_digest))]
pub fn leaf(name: &Namespace, share: &Share) -> Digest
    ensures { result ≡ leaf_digest name.now share.now }
{
    let mut hasher = Sha256::new();
    hasher.update(&[0]);
    hasher.update(&name.0);
    hasher.update(&share.0);
    digest_of(name, name, &hasher.finalize())
}

/// The greatest namespace of the node over two digests.
#[tactic(auto, unfolding(crate::specs::Digests::joined_greatest))]
pub(crate) fn greatest(left: &Digest, right: &Digest) -> Namespace
    ensures { result ≡ joined_greatest left.now right.now }
{
    if left.least().is_parity() {
        PARITY
    } else if right.least().is_parity() {
        left.greatest()
    } else {
        left.greatest().greater(right.greatest())
    }
}

/// The digest of the node over two digests, ordered or not: the left one's least namespace, their
/// greatest namespace, and the hash of the byte 0x01 and both digests. `PARITY` counts as the
/// greatest namespace only where the left one has no other.
///
/// Celestia specifications, "Data Structures", namespaced Merkle trees; RFC 6962, 2.1 (prefixes).
#[tactic(auto, unfolding(crate::specs::Digests::node_digest))]
pub fn node(left: &Digest, right: &Digest) -> Digest
    ensures { result ≡ node_digest left.now right.now }
{
    let mut hasher = Sha256::new();
    hasher.update(&[1]);
    hasher.update(&left.0);
    hasher.update(&right.0);
    digest_of(&left.least(), &greatest(left, right), &hasher.finalize())
}

/// Whether the join of two digests is ordered.
#[tactic(auto, unfolding(crate::specs::Digests::is_ordered_join))]
pub(crate) fn is_ordered(left: &Digest, right: &Digest) -> bool
    ensures { result ≡ is_ordered_join left.now right.now }
{
    left.greatest().is_at_most(&right.least())
        && left.least().is_at_most(&left.greatest())
        && right.least().is_at_most(&right.greatest())
}

/// The digest of the node over two digests, where their join is ordered: the left one's greatest
/// namespace is at most the right one's least, and neither has its least above its greatest.
///
/// Refuses every other join. It takes no memory.
///
/// Celestia specifications, "Data Structures", namespaced Merkle trees; that a digest's own
/// namespaces are looked at too is docs/RULES.md, "Trees".
pub fn join(left: &Digest, right: &Digest) -> Result<Digest, Unordered>
    ensures ordered { IsOk result ↔ IsTrue (is_ordered_join left.now right.now) }
    ensures unordered { IsErr result ↔ (is_ordered_join left.now right.now ≡ false) }
    ensures value { IfOk result (λ digest. digest ≡ node_digest left.now right.now) }
{
    if is_ordered(left, right) {
        Ok(node(left, right))
    } else {
        Err(Unordered)
    }
}
