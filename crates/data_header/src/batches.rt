//! Leaves and nodes of the plain Merkle tree eight at a time, hashed side by side.

ghost use Rattle.std.specs.Prelude.{◌≡◌, ◌++◌, ◌∷◌, ◌<◌, ◌+◌, ◌*◌, ℕ, length, take, get_or};
ghost use Rattle.namespace_id.specs.Digests.{no_digest};
ghost use Rattle.data_header.specs.DataRoots.{leaf_hash, inner_hash};
ghost use Rattle.data_header.specs.HashTrees.{hash_at};

use multi_sha256::digests;
use namespace_id::{DIGEST_SIZE, Digest, write_at};

/// How many leaves or nodes are hashed side by side.
pub(crate) const BATCH: usize = 8;

/// The bytes of a hash.
const HASH_SIZE: usize = 32;

/// The bytes of what is hashed over a leaf.
const LEAF_SIZE: usize = 1 + DIGEST_SIZE;

/// The bytes of what is hashed over a node.
const NODE_SIZE: usize = 1 + 2 * HASH_SIZE;

/// Either of these with the padding of SHA-256.
const ROOM: usize = 128;

/// Room for what is hashed over eight leaves or nodes.
pub(crate) const MESSAGES: [[u8; ROOM]; BATCH] = [[0; ROOM]; BATCH];

/// Writes what is hashed over a leaf.
fn write_leaf(message: &mut [u8; ROOM], digest: &Digest)
    ensures { take 91 message.new ≡ 0 ∷ digest.now.0 }
{
    message[0] = 0;
    write_at(message, 1, &digest.0);
}

/// Writes what is hashed over a node.
fn write_node(message: &mut [u8; ROOM], left: &[u8; HASH_SIZE], right: &[u8; HASH_SIZE])
    ensures { take 65 message.new ≡ 1 ∷ left.now ++ right.now }
{
    message[0] = 1;
    write_at(message, 1, left);
    write_at(message, 1 + HASH_SIZE, right);
}

/// The hashes of eight leaves, by way of a room.
pub(crate) fn eight_leaves(
    messages: &mut [[u8; ROOM]; BATCH],
    leaves: &[Digest],
) -> [[u8; HASH_SIZE]; BATCH]
    requires { length leaves.now ≡ 8 }
    ensures { (j : ℕ) → j < 8 → hash_at result j ≡ leaf_hash (get_or leaves.now j no_digest) }
{
    'messages: for j in 0..BATCH {
        write_leaf(&mut messages[j], &leaves[j]);
    }
    digests(messages, LEAF_SIZE)
}

/// The hashes of the eight nodes over sixteen hashes, joined in pairs, by way of a room.
pub(crate) fn eight_nodes(
    messages: &mut [[u8; ROOM]; BATCH],
    level: &[[u8; HASH_SIZE]],
) -> [[u8; HASH_SIZE]; BATCH]
    requires { length level.now ≡ 16 }
    ensures { (j : ℕ) → j < 8 →
        hash_at result j ≡ inner_hash (hash_at level.now (2 * j)) (hash_at level.now (2 * j + 1)) }
{
    'messages: for j in 0..BATCH {
        write_node(&mut messages[j], &level[2 * j], &level[2 * j + 1]);
    }
    digests(messages, NODE_SIZE)
}
