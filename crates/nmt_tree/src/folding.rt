//! The root over digests of leaves, joined in place.
//!
//! Each level is written over the front of the one below it, so the slice with the leaves is all
//! the memory: for roots of which no part is asked again. `Tree` keeps the levels for inclusion
//! proofs.

ghost use Rattle.std.specs.Prelude.{◌≡◌, ◌/◌, ◌*◌, ◌^◌, ℕ, length, take, IsTrue};
ghost use Rattle.nmt_tree.specs.Roots.{is_leaf_count, halvings, root};
ghost use Rattle.nmt_tree.specs.Levels.{span, pairs};

use crate::batches::{BATCH, NODE_MESSAGES, eight_nodes};
use crate::{node, put_leaves};
use namespace_id::{Digest, Namespace, Share};

/// Writes the level above a level over the front of it. What is behind the front is no level.
fn join_pairs(digests: &mut [Digest])
    ensures { take (length digests.old / 2) digests.new ≡ pairs digests.old }
{
    let count = digests.len() / 2;
    let eights = count / BATCH;
    let mut messages = NODE_MESSAGES;
    'eights: for eight in 0..eights {
        let at = BATCH * eight;
        let made = eight_nodes(&mut messages, &digests[2 * at..2 * at + 2 * BATCH]);
        digests[at..at + BATCH].copy_from_slice(&made);
    }
    'rest: for i in BATCH * eights..count {
        digests[i] = node(&digests[2 * i], &digests[2 * i + 1]);
    }
}

/// The digest over all leaves.
fn fold(digests: &mut [Digest]) -> Digest
    requires { IsTrue (is_leaf_count (length digests.old)) }
    ensures { (depth : ℕ) → length digests.old ≡ 2 ^ depth → result ≡ span digests.old 0 depth }
{
    if digests.len() == 1 {
        return digests[0];
    }
    let half = digests.len() / 2;
    join_pairs(digests);
    fold(&mut digests[..half])
}

/// The root over the digests of leaves, a power of two from 1 to `MOST_LEAVES` of them, joined level
/// by level in place: afterwards the slice holds no digests of use.
///
/// It takes no memory, and does not look whether the joins are ordered.
///
/// Celestia specifications, "Data Structures", namespaced Merkle trees.
pub fn fold_root(digests: &mut [Digest]) -> Digest
    requires { IsTrue (is_leaf_count (length digests.old)) }
    ensures { result ≡ span digests.old 0 (halvings (length digests.old)) }
{
    fold(digests)
}

/// The root of leaves, given as two slices of one length, a power of two from 1 to `MOST_LEAVES`: that
/// of `plain_root`, by way of as many digests, which hold nothing of use afterwards. Leaves and nodes
/// are hashed eight at a time, side by side.
///
/// It takes no memory, and does not look whether the namespaces are in order.
///
/// Celestia specifications, "Data Structures", namespaced Merkle trees.
pub fn fold_leaves(names: &[Namespace], shares: &[Share], digests: &mut [Digest]) -> Digest
    requires count { IsTrue (is_leaf_count (length names.now)) }
    requires pairs { length shares.now ≡ length names.now }
    requires digests { length digests.old ≡ length names.now }
    ensures { result ≡ root (halvings (length names.now)) names.now shares.now }
{
    put_leaves(names, shares, digests);
    fold_root(digests)
}
