//! The value of an opening, by recursion on intervals.
//!
//! An interval of 2^depth places takes the next node where it holds no piece, is a piece, or is
//! halved by `halves`. This serves any pieces, one leaf, a range or none, where climbing from a
//! leaf by the bits of its place would serve one leaf alone. It is at most eleven deep, and takes no
//! memory.

ghost use Rattle.std.specs.Prelude.{ltb, ◌≡◌, ◌+◌, ◌-◌, ◌^◌, ◌≤◌, ◌<◌, ◌++◌, ℕ, List, length, take, drop, true, false, Some, None, if◌then◌else◌};
ghost use Rattle.namespace_id.specs.declared.digests.Digest.{Digest};
ghost use Rattle.namespace_id.specs.Sizes.{most_depth, most_leaves};
ghost use Rattle.nmt_tree.specs.Digests.{is_ordered_join, node_digest};
ghost use Rattle.nmt_proofs.specs.Parts.{join, ordered_digest};
ghost use Rattle.nmt_proofs.specs.Openings.{begun, is_interval, is_halved, outside, opened};
ghost use Rattle.nmt_proofs.specs.Pieces.{shown_pieces, shown_of};

use namespace_id::{BLANK_DIGEST, Digest, MOST_LEAVES};
use nmt_tree::{join, leaf_count};

/// The digest of an interval that an opening shows.
#[derive(Clone, Copy, Debug, PartialEq, Eq)]
pub(crate) struct Piece {
    pub(crate) from: u16,
    pub(crate) size: u16,
    pub(crate) digest: Digest,
}

/// Pieces that are not written yet, as many as a range may have.
pub(crate) fn blank_pieces() -> [Piece; MOST_LEAVES] {
    [Piece {
        from: 0,
        size: 0,
        digest: BLANK_DIGEST,
    }; MOST_LEAVES]
}

/// How many pieces begin before a place.
pub(crate) fn count_begun(pieces: &[Piece], middle: u16) -> usize
    ensures count { result ≡ begun middle (shown_pieces pieces.now) }
    ensures bound { result ≤ length pieces.now }
{
    for (i, piece) in pieces.iter().enumerate() {
        if piece.from >= middle {
            return i;
        }
    }
    pieces.len()
}

/// Whether the interval of this depth in which the piece begins is the piece.
pub(crate) fn is_piece(depth: u8, piece: &Piece) -> bool
    requires { depth ≤ most_depth }
    ensures shown { result ≡ is_interval depth (shown_of piece.now) }
    ensures halved { result ≡ false → 0 < depth }
{
    depth == 0 || piece.size == leaf_count(depth)
}

/// An interval that holds pieces and isn't one, by its halves: where the right one begins, and the
/// pieces of the left one and of the right one.
pub(crate) fn halves(depth: u8, start: u16, pieces: &[Piece]) -> (u16, &[Piece], &[Piece])
    requires depth { depth ≤ most_depth }
    requires interval { start + 2 ^ depth ≤ most_leaves }
    requires halved { is_halved depth (shown_pieces pieces.now) ≡ true }
    ensures depth { 0 < depth }
    ensures size { 2 ^ (depth - 1) + 2 ^ (depth - 1) ≡ 2 ^ depth }
    ensures middle { result.0 ≡ start + 2 ^ (depth - 1) }
    ensures outside { outside depth start (shown_pieces pieces.now) ≡
        outside (depth - 1) start (shown_pieces result.1.now)
        ++ outside (depth - 1) result.0 (shown_pieces result.2.now) }

    // The left half takes the first nodes, as many as it leaves intervals out.
    ensures opened { (nodes left right : List Digest) (count : ℕ) →
        count ≡ length (outside (depth - 1) start (shown_pieces result.1.now)) →
        left ≡ take count nodes → right ≡ drop count nodes →
        opened depth start (shown_pieces pieces.now) nodes ≡
        join (opened (depth - 1) start (shown_pieces result.1.now) left)
        (opened (depth - 1) result.0 (shown_pieces result.2.now) right) }
{
    let middle = start + leaf_count(depth - 1);
    let (left, right) = pieces.split_at(count_begun(pieces, middle));
    (middle, left, right)
}

/// How many intervals hold no piece.
pub(crate) fn count_outside(depth: u8, start: u16, pieces: &[Piece]) -> usize
    requires depth { depth ≤ most_depth }
    requires interval { start + 2 ^ depth ≤ most_leaves }
    ensures count { result ≡ length (outside depth start (shown_pieces pieces.now)) }
    ensures bound { result ≤ 2 ^ depth }
{
    if pieces.is_empty() {
        return 1;
    }
    if is_piece(depth, &pieces[0]) {
        return 0;
    }
    let (middle, left, right) = halves(depth, start, pieces);
    count_outside(depth - 1, start, left) + count_outside(depth - 1, middle, right)
}

/// The node over two digests, where the join is ordered.
pub(crate) fn ordered_node(left: &Digest, right: &Digest) -> Option<Digest>
    ensures { result ≡ (if is_ordered_join left.now right.now then Some (node_digest left.now right.now) else None) }
{
    join(left, right).ok()
}

/// The digest of the interval, where every join in it is ordered.
pub(crate) fn joined(depth: u8, start: u16, pieces: &[Piece], nodes: &[Digest]) -> Option<Digest>
    requires depth { depth ≤ most_depth }
    requires interval { start + 2 ^ depth ≤ most_leaves }
    requires count { length nodes.now ≡ length (outside depth start (shown_pieces pieces.now)) }
    ensures { result ≡ ordered_digest (opened depth start (shown_pieces pieces.now) nodes.now) }
{
    if pieces.is_empty() {
        return Some(nodes[0]);
    }
    if is_piece(depth, &pieces[0]) {
        return Some(pieces[0].digest);
    }
    let (middle, left_pieces, right_pieces) = halves(depth, start, pieces);
    let (left_nodes, right_nodes) = nodes.split_at(count_outside(depth - 1, start, left_pieces));
    let left = joined(depth - 1, start, left_pieces, left_nodes)?;
    let right = joined(depth - 1, middle, right_pieces, right_nodes)?;
    ordered_node(&left, &right)
}
