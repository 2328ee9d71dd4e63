//! Which nodes leave a place for a namespace, and what a complete opening leaves no place for.

ghost use Rattle.std.specs.Prelude.{◌≡◌, ◌+◌, ◌^◌, ◌<◌, ◌≤◌, length, None};
ghost use Rattle.namespace_id.specs.declared.namespaces.Namespace.{Namespace};
ghost use Rattle.namespace_id.specs.declared.digests.Digest.{Digest};
ghost use Rattle.namespace_id.specs.Sizes.{most_depth, most_leaves};
ghost use Rattle.nmt_proofs.specs.Openings.{outside};
ghost use Rattle.nmt_proofs.specs.Complete.{excludes, first_break};
ghost use Rattle.nmt_proofs.specs.Pieces.{shown_pieces};
ghost use Rattle.nmt_proofs.specs.Laws.{RangeLeavesNoPlace, AbsenceLeavesNoPlace, RangeStandsBetween, AbsenceStandsBetween, RangeIsWhole, AbsenceIsTrue};

use crate::joining::{Piece, count_outside, halves, is_piece};
use namespace_id::{Digest, Namespace};

/// Whether a node leaves no place for the namespace, left or right of what is opened.
pub(crate) fn excludes(name: &Namespace, is_left: bool, node: &Digest) -> bool
    ensures { result ≡ excludes name.now is_left node.now }
{
    if is_left {
        !name.is_at_most(&node.greatest())
    } else {
        !node.least().is_at_most(name)
    }
}

/// The number of the first node that leaves a place for the namespace, of the nodes of an interval
/// in which the first has this number. What is opened begins at `from`.
pub(crate) fn first_break(
    depth: u8,
    start: u16,
    pieces: &[Piece],
    nodes: &[Digest],
    name: &Namespace,
    from: u16,
    number: u64,
) -> Option<u64>
    requires depth { depth ≤ most_depth }
    requires interval { start + 2 ^ depth ≤ most_leaves }
    requires count { length nodes.now ≡ length (outside depth start (shown_pieces pieces.now)) }
    requires numbers { number + length nodes.now < 2 ^ 64 }
    ensures { result ≡
        first_break name.now from number (outside depth start (shown_pieces pieces.now)) nodes.now }
{
    if pieces.is_empty() {
        return if excludes(name, start < from, &nodes[0]) {
            None
        } else {
            Some(number)
        };
    }
    if is_piece(depth, &pieces[0]) {
        return None;
    }
    let (middle, left, right) = halves(depth, start, pieces);
    let count = count_outside(depth - 1, start, left);
    let (left_nodes, right_nodes) = nodes.split_at(count);
    match first_break(depth - 1, start, left, left_nodes, name, from, number) {
        Some(found) => Some(found),
        None => {
            let number = number + count as u64;
            first_break(depth - 1, middle, right, right_nodes, name, from, number)
        }
    }
}

/// What is known of the digests over a list's leaves in the intervals that an opening leaves out.
pub fn complete_laws()
    // They leave no place where the namespaces before what is opened are below one, and those
    // behind are above it.
    ensures made_range { RangeLeavesNoPlace }
    ensures made_absence { AbsenceLeavesNoPlace }

    // Where namespaces never fall and they leave no place, it is exactly so, but that PARITY may
    // stand before what is opened.
    ensures range_between { RangeStandsBetween }
    ensures absence_between { AbsenceStandsBetween }

    // So no other leaf has the namespace, which isn't PARITY.
    ensures range { RangeIsWhole }
    ensures absence { AbsenceIsTrue }
{}
