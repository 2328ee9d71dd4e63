//! The digests of all levels of a tree in one slice: the leaves first, then each level above them,
//! the root last.
//!
//! Level above level, and no tree of pointers: 2n - 1 digests in one piece of memory, and the
//! digest over 2^d leaves at a multiple of 2^d is read after d steps, each to the half place one
//! level up.

ghost use Rattle.std.specs.Prelude.{◌≡◌, ◌≤◌, ◌+◌, ◌*◌, ◌%◌, List, length, take, IsTrue};
ghost use Rattle.namespace_id.specs.declared.digests.Digest.{Digest};
ghost use Rattle.nmt_tree.specs.Roots.{is_leaf_count, halvings};
ghost use Rattle.nmt_tree.specs.Levels.{leaf_digests, levels, pairs, span};

use crate::batches::{BATCH, LEAF_MESSAGES, NODE_MESSAGES, eight_leaves, eight_nodes};
use crate::{leaf, node};
use namespace_id::{Digest, Namespace, Share};

/// Writes the digests of leaves, given as two slices of one length. They are hashed eight at a time,
/// side by side.
///
/// Celestia specifications, "Data Structures", namespaced Merkle trees.
pub fn put_leaves(names: &[Namespace], shares: &[Share], leaves: &mut [Digest])
    requires names { length names.now ≡ length leaves.old }
    requires shares { length shares.now ≡ length leaves.old }
    ensures { leaves.new ≡ leaf_digests names.now shares.now }
{
    let eights = leaves.len() / BATCH;
    let mut messages = LEAF_MESSAGES;
    'eights: for eight in 0..eights {
        let at = BATCH * eight;
        let made = eight_leaves(
            &mut messages,
            &names[at..at + BATCH],
            &shares[at..at + BATCH],
        );
        leaves[at..at + BATCH].copy_from_slice(&made);
    }
    'rest: for i in BATCH * eights..leaves.len() {
        leaves[i] = leaf(&names[i], &shares[i]);
    }
}

/// Writes the level above a level.
fn put_pairs(level: &[Digest], above: &mut [Digest])
    requires { length above.old + length above.old ≡ length level.now }
    ensures { above.new ≡ pairs level.now }
{
    let eights = above.len() / BATCH;
    let mut messages = NODE_MESSAGES;
    'eights: for eight in 0..eights {
        let at = BATCH * eight;
        let made = eight_nodes(&mut messages, &level[2 * at..2 * at + 2 * BATCH]);
        above[at..at + BATCH].copy_from_slice(&made);
    }
    'rest: for i in BATCH * eights..above.len() {
        above[i] = node(&level[2 * i], &level[2 * i + 1]);
    }
}

/// Writes the levels above the first, which is that of `count` leaves.
fn put_levels(count: usize, digests: &mut [Digest])
    requires count { IsTrue (is_leaf_count count) }
    requires room { length digests.old + 1 ≡ 2 * count }
    ensures { digests.new ≡ levels (halvings count) (take count digests.old) }
{
    if count > 1 {
        let (level, above) = digests.split_at_mut(count);
        put_pairs(level, &mut above[..count / 2]);
        put_levels(count / 2, above);
    }
}

/// Writes all levels over leaves.
pub(crate) fn put_tree(names: &[Namespace], shares: &[Share], digests: &mut [Digest])
    requires count { IsTrue (is_leaf_count (length names.now)) }
    requires pairs { length shares.now ≡ length names.now }
    requires room { length digests.old + 1 ≡ 2 * length names.now }
    ensures { digests.new ≡
        levels (halvings (length names.now)) (leaf_digests names.now shares.now) }
{
    put_leaves(names, shares, &mut digests[..names.len()]);
    put_levels(names.len(), digests);
}

/// Writes leaves that are digests already, and the levels above them.
pub(crate) fn put_above(leaves: &[Digest], digests: &mut [Digest])
    requires count { IsTrue (is_leaf_count (length leaves.now)) }
    requires room { length digests.old + 1 ≡ 2 * length leaves.now }
    ensures { digests.new ≡ levels (halvings (length leaves.now)) leaves.now }
{
    digests[..leaves.len()].copy_from_slice(leaves);
    put_levels(leaves.len(), digests);
}

/// The digest over `size` leaves from place `from` on, read from the levels over `count` leaves.
pub(crate) fn read(count: usize, digests: &[Digest], from: usize, size: usize) -> Digest
    requires count { IsTrue (is_leaf_count count) }
    requires size { IsTrue (is_leaf_count size) }
    requires aligned { from % size ≡ 0 }
    requires within { from + size ≤ count }
    requires room { length digests.now + 1 ≡ 2 * count }
    ensures { (leaves : List Digest) → length leaves ≡ count →
        digests.now ≡ levels (halvings count) leaves → result ≡ span leaves from (halvings size) }
{
    if size == 1 {
        digests[from]
    } else {
        read(count / 2, &digests[count..], from / 2, size / 2)
    }
}
