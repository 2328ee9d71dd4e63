//! Leaves and nodes eight at a time, hashed side by side.

ghost use Rattle.std.specs.Prelude.{◌≡◌, ◌++◌, ◌∷◌, ◌<◌, ℕ, [], length, take, slice_index_or};
ghost use Rattle.sha2.specs.Sha256.{sha256};
ghost use Rattle.nmt_tree.specs.Batches.{leaf_bytes, node_bytes};
ghost use Rattle.nmt_tree.specs.Levels.{leaf_digests, pairs};

use crate::hashing::{digest_of, greatest};
use multi_sha256::digests;
use namespace_id::{
    BLANK_DIGEST, DIGEST_SIZE, Digest, NAMESPACE_SIZE, Namespace, SHARE_SIZE, Share, write_at,
};

/// How many leaves or nodes are hashed side by side.
pub(crate) const BATCH: usize = 8;

/// The bytes of what is hashed over a leaf.
const LEAF_SIZE: usize = 1 + NAMESPACE_SIZE + SHARE_SIZE;

/// These with the padding of SHA-256.
const LEAF_ROOM: usize = 576;

/// The bytes of what is hashed over a node.
const NODE_SIZE: usize = 1 + 2 * DIGEST_SIZE;

/// These with the padding of SHA-256.
const NODE_ROOM: usize = 192;

/// Room for what is hashed over eight leaves.
pub(crate) const LEAF_MESSAGES: [[u8; LEAF_ROOM]; BATCH] = [[0; LEAF_ROOM]; BATCH];

/// Room for what is hashed over eight nodes.
pub(crate) const NODE_MESSAGES: [[u8; NODE_ROOM]; BATCH] = [[0; NODE_ROOM]; BATCH];

/// Writes what is hashed over a leaf.
fn write_leaf(message: &mut [u8; LEAF_ROOM], name: &Namespace, share: &Share)
    ensures { take 542 message.new ≡ 0 ∷ name.now.0 ++ share.now.0 }
{
    message[0] = 0;
    write_at(message, 1, &name.0);
    write_at(message, 1 + NAMESPACE_SIZE, &share.0);
}

/// Writes what is hashed over a node.
fn write_node(message: &mut [u8; NODE_ROOM], left: &Digest, right: &Digest)
    ensures { take 181 message.new ≡ 1 ∷ left.now.0 ++ right.now.0 }
{
    message[0] = 1;
    write_at(message, 1, &left.0);
    write_at(message, 1 + DIGEST_SIZE, &right.0);
}

/// The hashes of eight leaves, by way of a room.
fn leaf_hashes(
    messages: &mut [[u8; LEAF_ROOM]; BATCH],
    names: &[Namespace],
    shares: &[Share],
) -> [[u8; 32]; BATCH]
    requires names { length names.now ≡ 8 }
    requires shares { length shares.now ≡ 8 }
    ensures { (j : ℕ) → j < 8 →
        slice_index_or result j [] ≡ sha256 (leaf_bytes names.now shares.now j) }
{
    'messages: for j in 0..BATCH {
        write_leaf(&mut messages[j], &names[j], &shares[j]);
    }
    digests(messages, LEAF_SIZE)
}

/// The hashes of eight nodes over sixteen digests, by way of a room.
fn node_hashes(messages: &mut [[u8; NODE_ROOM]; BATCH], level: &[Digest]) -> [[u8; 32]; BATCH]
    requires { length level.now ≡ 16 }
    ensures { (j : ℕ) → j < 8 → slice_index_or result j [] ≡ sha256 (node_bytes level.now j) }
{
    'messages: for j in 0..BATCH {
        write_node(&mut messages[j], &level[2 * j], &level[2 * j + 1]);
    }
    digests(messages, NODE_SIZE)
}

/// The digests of eight leaves, by way of a room.
pub(crate) fn eight_leaves(
    messages: &mut [[u8; LEAF_ROOM]; BATCH],
    names: &[Namespace],
    shares: &[Share],
) -> [Digest; BATCH]
    requires names { length names.now ≡ 8 }
    requires shares { length shares.now ≡ 8 }
    ensures { result ≡ leaf_digests names.now shares.now }
{
    let hashes = leaf_hashes(messages, names, shares);
    let mut leaves = [BLANK_DIGEST; BATCH];
    'leaves: for j in 0..BATCH {
        leaves[j] = digest_of(&names[j], &names[j], &hashes[j]);
    }
    leaves
}

/// The digests of the eight nodes over sixteen digests, joined in pairs, by way of a room.
pub(crate) fn eight_nodes(
    messages: &mut [[u8; NODE_ROOM]; BATCH],
    level: &[Digest],
) -> [Digest; BATCH]
    requires { length level.now ≡ 16 }
    ensures { result ≡ pairs level.now }
{
    let hashes = node_hashes(messages, level);
    let mut nodes = [BLANK_DIGEST; BATCH];
    'nodes: for j in 0..BATCH {
        let (left, right) = (&level[2 * j], &level[2 * j + 1]);
        nodes[j] = digest_of(&left.least(), &greatest(left, right), &hashes[j]);
    }
    nodes
}
