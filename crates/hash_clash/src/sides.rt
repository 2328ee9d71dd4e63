//! What is known of an interval of a tree, and its halves.

ghost use Rattle.std.specs.Prelude.{◌≡◌, ◌+◌, ◌^◌, ◌≤◌};
ghost use Rattle.namespace_id.specs.Sizes.{most_depth, most_leaves};
ghost use Rattle.nmt_proofs.specs.Parts.{digest_of};
ghost use Rattle.hash_clash.specs.Sides.{part_of, IsSide, IsSeenAs};

use crate::Opening;
use namespace_id::{Digest, Namespace, Share};
use nmt_tree::{leaf, leaf_count, node};

/// What is known of an interval.
#[derive(Clone, Copy)]
pub(crate) enum Side<'a> {
    /// Its digest alone.
    Given(&'a Digest),
    /// The leaf of an opening at a place, and the nodes of the opening that lie in the interval.
    Opened(u16, &'a Opening, &'a [Digest]),
    /// All leaves.
    Listed(&'a [Namespace], &'a [Share]),
}

/// What an interval is.
#[derive(Clone, Copy)]
pub(crate) enum Seen<'a> {
    /// Given by its digest.
    Given(&'a Digest),
    /// A leaf.
    Leaf(&'a Namespace, &'a Share),
    /// Joined of its halves.
    Join(Side<'a>, Side<'a>),
}

/// What an interval of 2 ^ depth places is.
pub(crate) fn look<'a>(depth: u8, start: u16, side: Side<'a>) -> Seen<'a>
    requires depth { depth ≤ most_depth }
    requires interval { start + 2 ^ depth ≤ most_leaves }
    requires side { IsSide depth side }
    ensures { IsSeenAs depth start side.entry result }
{
    match side {
        Side::Given(digest) => Seen::Given(digest),
        Side::Opened(pos, opening, nodes) => {
            if depth == 0 {
                return Seen::Leaf(&opening.name, &opening.share);
            }
            if pos < start + leaf_count(depth - 1) {
                let (left, right) = nodes.split_at(nodes.len() - 1);
                Seen::Join(Side::Opened(pos, opening, left), Side::Given(&right[0]))
            } else {
                let (left, right) = nodes.split_at(1);
                Seen::Join(Side::Given(&left[0]), Side::Opened(pos, opening, right))
            }
        }
        Side::Listed(names, shares) => {
            if depth == 0 {
                return Seen::Leaf(&names[0], &shares[0]);
            }
            let (left_names, right_names) = names.split_at(names.len() / 2);
            let (left_shares, right_shares) = shares.split_at(names.len() / 2);
            Seen::Join(
                Side::Listed(left_names, left_shares),
                Side::Listed(right_names, right_shares),
            )
        }
    }
}

/// The digest of an interval of 2 ^ depth places.
pub(crate) fn digest(depth: u8, start: u16, side: Side) -> Digest
    requires depth { depth ≤ most_depth }
    requires interval { start + 2 ^ depth ≤ most_leaves }
    requires side { IsSide depth side }
    ensures { result ≡ digest_of (part_of depth start side.entry) }
{
    match look(depth, start, side) {
        Seen::Given(digest) => *digest,
        Seen::Leaf(name, share) => leaf(name, share),
        Seen::Join(left, right) => {
            let middle = start + leaf_count(depth - 1);
            let left = digest(depth - 1, start, left);
            let right = digest(depth - 1, middle, right);
            node(&left, &right)
        }
    }
}
