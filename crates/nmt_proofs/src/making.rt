//! Openings made from a stored tree, by the recursion on intervals that reads them.

ghost use Rattle.std.specs.Prelude.{◌≡◌, ◌↔◌, ◌+◌, ◌*◌, ◌%◌, ◌^◌, ◌≤◌, ◌<◌, ℕ, List, length, replicate, get_or, true, IsSome};
ghost use Rattle.std.specs.Option.{ForSome};
ghost use Rattle.namespace_id.specs.declared.namespaces.Namespace.{Namespace};
ghost use Rattle.namespace_id.specs.declared.shares.Share.{Share};
ghost use Rattle.namespace_id.specs.declared.digests.Digest.{Digest};
ghost use Rattle.namespace_id.specs.Digests.{no_digest};
ghost use Rattle.namespace_id.specs.Sizes.{most_depth, most_leaves};
ghost use Rattle.nmt_tree.specs.Roots.{halvings};
ghost use Rattle.nmt_tree.specs.Levels.{leaf_digests, span, HasOrderedJoins};
ghost use Rattle.nmt_proofs.specs.Parts.{is_in_order};
ghost use Rattle.nmt_proofs.specs.Openings.{Shown, outside, Opens, digests_from, leaves_at, intervals_from};
ghost use Rattle.nmt_proofs.specs.Places.{AreAligned, AreAscending};
ghost use Rattle.nmt_proofs.specs.Merging.{Branch, AreBranches, merged_nodes, places_of_branches, names_of_branches, shares_of_branches};
ghost use Rattle.nmt_proofs.specs.Clashes.{whole, AreLeaves};
ghost use Rattle.nmt_proofs.specs.Making.{spans, AreAtLeaves, leaf_nodes, range_nodes, OpensDigest, OpensLeaf, OpensLeaves, CompletesRange, CompletesAbsence, subtrees, subtree_nodes, OpensSubtrees};
ghost use Rattle.nmt_proofs.specs.Pieces.{shown_pieces};

use crate::joining::{Piece, blank_pieces, count_outside, halves, is_piece};
use crate::{Absent, Nodes, Path};
use namespace_id::{BLANK_DIGEST, Digest, MOST_DEPTH};
use nmt_tree::{Tree, halvings, leaf_count};

/// Writes the digests of the intervals that hold no piece, left to right.
fn put_nodes(tree: &Tree, depth: u8, start: u16, pieces: &[Piece], nodes: &mut [Digest])
    requires filled { IsSome tree.now.leaves }
    requires small { tree.now.count ≤ most_leaves }
    requires depth { depth ≤ most_depth }
    requires aligned { start % 2 ^ depth ≡ 0 }
    requires interval { start + 2 ^ depth ≤ tree.now.count }
    requires count { length nodes.old ≡ length (outside depth start (shown_pieces pieces.now)) }
    ensures { ForSome tree.now.leaves (λ leaves.
        nodes.new ≡ spans leaves (outside depth start (shown_pieces pieces.now))) }
{
    if pieces.is_empty() {
        nodes[0] = tree.full_digest(start, leaf_count(depth));
        return;
    }
    if is_piece(depth, &pieces[0]) {
        return;
    }
    let (middle, left_pieces, right_pieces) = halves(depth, start, pieces);
    let left_count = count_outside(depth - 1, start, left_pieces);
    let (left_nodes, right_nodes) = nodes.split_at_mut(left_count);
    put_nodes(tree, depth - 1, start, left_pieces, left_nodes);
    put_nodes(tree, depth - 1, middle, right_pieces, right_nodes);
}

/// A path of these nodes.
fn path_of(nodes: &[Digest]) -> Path
    requires { length nodes.now ≤ most_depth }
    ensures { result ≡ nodes.now }
{
    let mut path = Path::new();
    for node in nodes {
        path.push(*node);
    }
    path
}

/// Nodes that are not written yet, as many as an opening may have.
fn blank_nodes() -> [Digest; 2 * MOST_DEPTH] {
    [BLANK_DIGEST; 2 * MOST_DEPTH]
}

/// Makes the NMT inclusion proof of one leaf: the nodes that open the leaf at place `pos`, below
/// the number of leaves, of a tree that isn't empty. They are the digests of the greatest subtrees
/// that don't hold the place, left to right, as many as the tree has levels below its root.
///
/// It takes no memory, and hashes nothing.
///
/// Celestia specifications, "Data Structures", namespaced Merkle tree inclusion proofs.
pub fn make_leaf(tree: &Tree, pos: u16) -> Path
    requires filled { IsSome tree.now.leaves }
    requires place { pos < tree.now.count }
    ensures nodes { ForSome tree.now.leaves (λ leaves.
        result ≡ leaf_nodes tree.now.count leaves pos) }

    // They open under the tree's root, for every tree that isn't empty.
    ensures digest { ForSome tree.now.leaves (λ leaves.
        OpensDigest tree.now.count leaves pos result) }
    ensures leaf { ForSome tree.now.leaves (λ leaves. OpensLeaf tree.now.count leaves pos result) }
{
    let pieces = [Piece {
        from: pos,
        size: 1,
        digest: tree.full_digest(pos, 1),
    }];
    let depth = halvings(tree.len() as usize);
    let mut nodes = blank_nodes();
    put_nodes(tree, depth, 0, &pieces, &mut nodes[..depth as usize]);
    path_of(&nodes[..depth as usize])
}

/// A list of these nodes.
fn list_of(nodes: &[Digest]) -> Nodes
    requires { length nodes.now ≤ 2 * most_depth }
    ensures { result ≡ nodes.now }
{
    let mut list = Nodes::new();
    for node in nodes {
        list.push(*node);
    }
    list
}

/// The digests of the intervals that hold no piece, left to right, at most `2 * MOST_DEPTH`, in a
/// tree of this depth.
fn nodes_beside(tree: &Tree, depth: u8, pieces: &[Piece]) -> Nodes
    requires filled { IsSome tree.now.leaves }
    requires depth { depth ≤ most_depth }
    requires count { tree.now.count ≡ 2 ^ depth }
    requires few { length (outside depth 0 (shown_pieces pieces.now)) ≤ 2 * most_depth }
    ensures { ForSome tree.now.leaves (λ leaves.
        result ≡ spans leaves (outside depth 0 (shown_pieces pieces.now))) }
{
    let count = count_outside(depth, 0, pieces);
    let mut nodes = blank_nodes();
    put_nodes(tree, depth, 0, pieces, &mut nodes[..count]);
    list_of(&nodes[..count])
}

/// Writes neighboring places as pieces, from one place on. Which digest they show is left open: the
/// intervals beside them don't depend on it.
fn put_places(from: u16, digest: Digest, pieces: &mut [Piece])
    requires { from + length pieces.old ≤ most_leaves }
    ensures { shown_pieces pieces.new ≡ digests_from from (replicate (length pieces.old) digest) }
{
    for i in 0..pieces.len() {
        pieces[i] = Piece {
            from: from + i as u16,
            size: 1,
            digest,
        };
    }
}

/// Makes the NMT range proof of `count` neighboring leaves, at least one, from place `from` on of a
/// tree that isn't empty: the nodes that open them. They are the digests of the greatest subtrees
/// that hold no place of the range, left to right, at most two a level.
///
/// It takes no memory, and hashes nothing.
///
/// Celestia specifications, "Data Structures", namespace proofs.
pub fn make_range(tree: &Tree, from: u16, count: u16) -> Nodes
    requires filled { IsSome tree.now.leaves }
    requires some { 0 < count }
    requires places { from + count ≤ tree.now.count }
    ensures nodes { ForSome tree.now.leaves (λ leaves.
        result ≡ range_nodes tree.now.count leaves from count) }

    // They open under the tree's root, and leave no other place for a namespace of which all leaves
    // stand in the range.
    ensures opens { ForSome tree.now.leaves (λ leaves.
        OpensLeaves tree.now.count leaves from count result) }
    ensures complete { ForSome tree.now.leaves (λ leaves.
        CompletesRange tree.now.count leaves from count result) }
{
    let depth = halvings(tree.len() as usize);
    let mut pieces = blank_pieces();
    let pieces = &mut pieces[..count as usize];
    put_places(from, BLANK_DIGEST, pieces);
    nodes_beside(tree, depth, pieces)
}

/// Makes the NMT absence proof at place `pos`, below the number of leaves, of a tree that isn't
/// empty: the digest of the leaf there, and the nodes that open it. It shows that a namespace is
/// absent where the leaf is the first above that namespace.
///
/// It takes no memory, and hashes nothing.
///
/// Celestia specifications, "Data Structures", namespace proofs.
pub fn make_absent(tree: &Tree, pos: u16) -> Absent
    requires filled { IsSome tree.now.leaves }
    requires place { pos < tree.now.count }
    ensures leaf { ForSome tree.now.leaves (λ leaves. result.leaf ≡ get_or leaves pos no_digest) }
    ensures nodes { ForSome tree.now.leaves (λ leaves.
        result.nodes ≡ leaf_nodes tree.now.count leaves pos) }

    // They open under the tree's root, and leave no place for a namespace that is above those
    // before the leaf and below the leaf's.
    ensures opens { ForSome tree.now.leaves (λ leaves.
        OpensDigest tree.now.count leaves pos result.nodes) }
    ensures complete { ForSome tree.now.leaves (λ leaves.
        CompletesAbsence tree.now.count leaves pos result.leaf result.nodes) }
{
    let depth = halvings(tree.len() as usize);
    let leaf = tree.full_digest(pos, 1);
    let pieces = [Piece {
        from: pos,
        size: 1,
        digest: leaf,
    }];
    Absent {
        leaf,
        nodes: nodes_beside(tree, depth, &pieces),
    }
}

/// Writes neighboring intervals as pieces, from one place on. Which digests they show is left open:
/// the intervals beside them don't depend on it.
fn put_sizes(from: u16, sizes: &[u16], digest: Digest, pieces: &mut [Piece])
    requires places { AreAligned from most_leaves sizes.now }
    requires room { length sizes.now ≡ length pieces.old }
    ensures { shown_pieces pieces.new ≡
        intervals_from from sizes.now (replicate (length sizes.now) digest) }
{
    let mut at = from;
    for i in 0..sizes.len() {
        pieces[i] = Piece {
            from: at,
            size: sizes[i],
            digest,
        };
        at += sizes[i];
    }
}

/// Makes the NMT proof of neighboring subtrees of a tree that isn't empty: the nodes that open
/// their digests. The first begins at place `from`; each has a power of two of places, and begins
/// at a multiple of that; there is one at least, and they end within the tree. The nodes are the
/// digests of the greatest subtrees that hold no place of theirs, left to right, at most two a
/// level.
///
/// It takes no memory, and hashes nothing.
///
/// Celestia specifications, "Data Structures", namespaced Merkle trees; docs/RULES.md, "Openings of
/// subtrees".
pub fn make_nodes(tree: &Tree, from: u16, sizes: &[u16]) -> Nodes
    requires filled { IsSome tree.now.leaves }
    requires some { 0 < length sizes.now }
    requires places { AreAligned from tree.now.count sizes.now }
    ensures nodes { ForSome tree.now.leaves (λ leaves.
        result ≡ subtree_nodes tree.now.count leaves from sizes.now) }

    // They open under the tree's root.
    ensures opens { ForSome tree.now.leaves (λ leaves.
        OpensSubtrees tree.now.count leaves from sizes.now result) }
{
    let depth = halvings(tree.len() as usize);
    let mut pieces = blank_pieces();
    let pieces = &mut pieces[..sizes.len()];
    put_sizes(from, sizes, BLANK_DIGEST, pieces);
    nodes_beside(tree, depth, pieces)
}

/// What the digests over leaves in the intervals that hold nothing shown open, and how openings of
/// single leaves become one.
pub fn making_laws()
    // Where every join over leaves is ordered, these digests open what is shown at single places.
    ensures opens { (depth : ℕ) (leaves : List Digest) (shown_pieces : List Shown) →
        AreAtLeaves leaves 0 (2 ^ depth) shown_pieces → HasOrderedJoins leaves 0 depth →
        Opens depth shown_pieces (spans leaves (outside depth 0 shown_pieces)) (span leaves 0 depth) }

    // A list's joins are ordered exactly where those of its part are.
    ensures in_order { (depth : ℕ) (names : List Namespace) (shares : List Share) →
        AreLeaves depth names shares → (HasOrderedJoins (leaf_digests names shares) 0 depth) ↔
        (is_in_order (whole depth names shares) ≡ true) }

    // The same as the first for neighboring subtrees.
    ensures subtrees { (depth from : ℕ) (leaves : List Digest) (sizes : List ℕ) →
        depth ≤ most_depth → AreAligned from (2 ^ depth) sizes → HasOrderedJoins leaves 0 depth →
        Opens depth (subtrees leaves from sizes)
        (spans leaves (outside depth 0 (subtrees leaves from sizes))) (span leaves 0 depth) }

    // One opening of several places takes at most half as many nodes as there are leaves.
    ensures few { (depth : ℕ) (places : List ℕ) (names : List Namespace) (shares : List Share) →
        0 < length places → length names ≡ length places → length shares ≡ length places →
        AreAscending 0 (2 ^ (depth + 1)) places →
        length (outside (depth + 1) 0 (leaves_at places names shares)) ≤ 2 ^ depth }

    // Openings of single leaves under one root, of which no two neighbors name a collision, are put
    // together to one opening of all their leaves.
    ensures merged { (depth : ℕ) (root beside : Digest) (branches : List Branch) →
        0 < length branches → AreBranches depth root branches →
        Opens depth (leaves_at (places_of_branches branches) (names_of_branches branches) (shares_of_branches branches))
        (merged_nodes depth 0 0 beside branches) root }
{}
