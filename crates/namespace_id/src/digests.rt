//! Digests of namespaced Merkle trees.

ghost use Rattle.std.specs.Prelude.{◌≡◌};
ghost use Rattle.namespace_id.specs.Digests.{least_of, greatest_of, IsDigest, AreDigests};

use crate::{DIGEST_SIZE, NAMESPACE_SIZE, Namespace, bytes_law};

/// A namespaced hash: the value of a leaf or a node of a namespaced Merkle tree (NMT). 90 bytes:
/// the least namespace below it, the greatest, and a SHA-256 value.
///
/// Celestia specifications, "Data Structures", namespaced Merkle trees.
#[derive(Clone, Copy, Debug, PartialEq, Eq)]
pub struct Digest(pub [u8; DIGEST_SIZE]);

/// A digest of zeros, for a place that nothing has been written to.
pub const BLANK_DIGEST: Digest = Digest([0; DIGEST_SIZE]);

impl Digest {
    /// The least namespace below the node, bytes 0 to 28.
    ///
    /// Celestia specifications, "Data Structures", namespaced Merkle trees.
    pub fn least(&self) -> Namespace
        ensures { result ≡ least_of self.now }
    {
        let mut bytes = [0; NAMESPACE_SIZE];
        bytes.copy_from_slice(&self.0[..NAMESPACE_SIZE]);
        Namespace(bytes)
    }

    /// The greatest namespace below the node, bytes 29 to 57.
    ///
    /// Celestia specifications, "Data Structures", namespaced Merkle trees.
    pub fn greatest(&self) -> Namespace
        ensures { result ≡ greatest_of self.now }
    {
        let mut bytes = [0; NAMESPACE_SIZE];
        bytes.copy_from_slice(&self.0[NAMESPACE_SIZE..2 * NAMESPACE_SIZE]);
        Namespace(bytes)
    }
}

/// Says that a digest has 90 bytes, each below 256. It changes nothing.
pub fn digest_law(digest: &Digest)
    ensures { IsDigest digest.now }
{
    bytes_law(&digest.0);
}

/// Says that each digest of a slice has 90 bytes, each below 256. It changes nothing.
pub fn digests_law(digests: &[Digest])
    ensures { AreDigests digests.now }
{
    for digest in digests {
        digest_law(digest);
    }
}
