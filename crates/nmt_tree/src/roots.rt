//! The roots of leaf lists, by plain recursion on their halves.
//!
//! This is the definition, run: it keeps nothing, and hashes all leaves anew for each call. What is
//! asked more than one root or proof of the same leaves has `Tree` and `fold_root`.

ghost use Rattle.std.specs.Prelude.{◌≡◌, ◌≤◌, ◌^◌, ℕ, length, IsTrue};
ghost use Rattle.namespace_id.specs.Sizes.{most_depth};
ghost use Rattle.nmt_tree.specs.Roots.{is_leaf_count, halvings, root, is_ordered, strict_root};

use crate::{leaf, node};
use namespace_id::{Digest, Namespace, Share};

/// Whether a tree may have this many leaves: a power of two from 1 to `MOST_LEAVES`, the 2k of the
/// greatest width.
///
/// docs/RULES.md, "Trees".
pub fn is_leaf_count(n: usize) -> bool
    ensures { result ≡ is_leaf_count n }
{
    matches!(n, 1 | 2 | 4 | 8 | 16 | 32 | 64 | 128 | 256 | 512 | 1024)
}

/// How often a number of leaves is halved until it is one: the depth of the tree over them, and the
/// number of nodes of an inclusion proof of one leaf.
///
/// docs/RULES.md, "Trees".
pub fn halvings(n: usize) -> u8
    requires { IsTrue (is_leaf_count n) }
    ensures value { result ≡ halvings n }
    ensures power { 2 ^ result ≡ n }
    ensures bound { result ≤ most_depth }
{
    match n {
        1 => 0,
        2 => 1,
        4 => 2,
        8 => 3,
        16 => 4,
        32 => 5,
        64 => 6,
        128 => 7,
        256 => 8,
        512 => 9,
        _ => 10,
    }
}

/// How many leaves a tree of this depth has. The depth is at most `MOST_DEPTH`.
///
/// docs/RULES.md, "Trees".
pub fn leaf_count(depth: u8) -> u16
    requires { depth ≤ most_depth }
    ensures { result ≡ 2 ^ depth }
{
    1 << depth
}

/// The root by the halves of the leaves.
fn root_of(names: &[Namespace], shares: &[Share]) -> Digest
    requires count { IsTrue (is_leaf_count (length names.now)) }
    requires pairs { length shares.now ≡ length names.now }
    ensures { (depth : ℕ) → length names.now ≡ 2 ^ depth → result ≡ root depth names.now shares.now }
{
    if names.len() == 1 {
        return leaf(&names[0], &shares[0]);
    }
    let (left_names, right_names) = names.split_at(names.len() / 2);
    let (left_shares, right_shares) = shares.split_at(names.len() / 2);
    let left = root_of(left_names, left_shares);
    let right = root_of(right_names, right_shares);
    node(&left, &right)
}

/// The root of leaves, given as two slices of one length, a power of two from 1 to `MOST_LEAVES`: the
/// leaf's digest where there is one, else the node's over the roots of both halves.
///
/// It takes no memory, and does not look whether the namespaces are in order.
///
/// Celestia specifications, "Data Structures", namespaced Merkle trees.
pub fn plain_root(names: &[Namespace], shares: &[Share]) -> Digest
    requires count { IsTrue (is_leaf_count (length names.now)) }
    requires pairs { length shares.now ≡ length names.now }
    ensures { result ≡ root (halvings (length names.now)) names.now shares.now }
{
    root_of(names, shares)
}

/// Whether no namespace is followed by a smaller one.
///
/// Celestia specifications, "Data Structures", namespaced Merkle trees.
pub fn are_ordered(names: &[Namespace]) -> bool
    ensures { result ≡ is_ordered names.now }
{
    for i in 1..names.len() {
        if !names[i - 1].is_at_most(&names[i]) {
            return false;
        }
    }
    true
}

/// The root of leaves whose namespaces never fall; none where one is followed by a smaller one.
/// Shapes as for `plain_root`.
///
/// Celestia specifications, "Data Structures", namespaced Merkle trees.
#[tactic(auto, unfolding(crate::specs::Roots::strict_root))]
pub fn strict_root(names: &[Namespace], shares: &[Share]) -> Option<Digest>
    requires count { IsTrue (is_leaf_count (length names.now)) }
    requires pairs { length shares.now ≡ length names.now }
    ensures { result ≡ strict_root (halvings (length names.now)) names.now shares.now }
{
    if are_ordered(names) {
        Some(plain_root(names, shares))
    } else {
        None
    }
}
