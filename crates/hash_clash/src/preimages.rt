//! Strings that were hashed, in an array, so that a collision is named with no memory.

ghost use Rattle.std.specs.Prelude.{◌≡◌, ◌<◌, ◌≤◌, ◌+◌, ◌↔◌, [], ◌∷◌, ◌++◌, length, replicate, IsNone, IfSome};
ghost use Rattle.nmt_proofs.specs.Clashes.{leaf_text, join_text};
ghost use Rattle.hash_clash.specs.Preimages.{longest};

use namespace_id::{Digest, NAMESPACE_SIZE, Namespace, SHARE_SIZE, Share, write_at};
use std::marker::Model;

/// The length in bytes of the longest string that a tree hashes: a prefix, a namespace and a share.
const LONGEST_STRING: usize = 1 + NAMESPACE_SIZE + SHARE_SIZE;

/// A string of up to 542 bytes that SHA-256 hashes. So long is what a tree hashes for a leaf: a
/// prefix of one byte, a namespace of 29 and a share of 512. For a node it is a prefix and two
/// digests of 90.
#[derive(Clone, Debug, Drop)]
pub struct Preimage {
    len: u16,
    bytes: [u8; LONGEST_STRING],
}

impl Model for Preimage {
    ghost use Rattle.std.specs.Prelude.{List, ℕ};
    ghost use Rattle.hash_clash.specs.Preimages.{used_bytes, IsPreimage};

    ghost Value = { List ℕ };

    ghost view = { λ p. used_bytes p.len p.bytes };

    ghost invariant = { λ p. IsPreimage p.len p.bytes };
}

/// No byte written.
fn blank() -> [u8; LONGEST_STRING]
    ensures { result ≡ replicate longest 0 }
{
    [0; LONGEST_STRING]
}

impl Preimage {
    /// No bytes.
    pub fn new() -> Preimage
        ensures { result ≡ [] }
    {
        Preimage {
            len: 0,
            bytes: blank(),
        }
    }

    /// The string of these bytes; none exactly where there are more than 542.
    pub fn of(bytes: &[u8]) -> Option<Preimage>
        ensures none { IsNone result ↔ (longest < length bytes.now) }
        ensures value { IfSome result (λ preimage. preimage ≡ bytes.now) }
    {
        if bytes.len() > LONGEST_STRING {
            return None;
        }
        let mut all = blank();
        write_at(&mut all, 0, bytes);
        Some(Preimage {
            len: bytes.len() as u16,
            bytes: all,
        })
    }

    /// A byte and two strings behind it.
    fn joined(prefix: u8, left: &[u8], right: &[u8]) -> Preimage
        requires { 1 + length left.now + length right.now ≤ longest }
        ensures { result ≡ prefix ∷ left.now ++ right.now }
    {
        let mut bytes = blank();
        write_at(&mut bytes, 0, &[prefix]);
        write_at(&mut bytes, 1, left);
        write_at(&mut bytes, 1 + left.len(), right);
        Preimage {
            len: (1 + left.len() + right.len()) as u16,
            bytes,
        }
    }

    /// What is hashed for a leaf: the byte 0x00, the namespace and the share.
    pub(crate) fn of_leaf(name: &Namespace, share: &Share) -> Preimage
        ensures { result ≡ leaf_text name.now share.now }
    {
        Preimage::joined(0, &name.0, &share.0)
    }

    /// What is hashed for a node: the byte 0x01 and both digests.
    pub(crate) fn of_node(left: &Digest, right: &Digest) -> Preimage
        ensures { result ≡ join_text left.now right.now }
    {
        Preimage::joined(1, &left.0, &right.0)
    }

    /// The bytes, without what is unused.
    pub fn bytes(&self) -> &[u8]
        ensures value { result.now ≡ self.now }
        ensures bound { length result.now ≤ longest }
    {
        &self.bytes[..self.len as usize]
    }
}
