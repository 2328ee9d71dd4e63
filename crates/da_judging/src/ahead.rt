//! The leaves that samples in frames show, and the nodes between neighboring ones, hashed ahead of their
//! judgement: those of several samples side by side.

ghost use Rattle.std.specs.Prelude.{◌≡◌, [], IfSome, IsTrue, Some};
ghost use Rattle.namespace_id.specs.Cells.{is_width, is_in_square};
ghost use Rattle.nmt_tree.specs.Queues.{queued};
ghost use Rattle.axis_roots.specs.declared.message.messages.Message.{Message as Sent};
ghost use Rattle.da_wire.specs.Reading.{raw_seen};
ghost use Rattle.da_wire.specs.Frames.{frames_of, raw_message};
ghost use Rattle.da_judging.specs.Ahead.{AreAhead, IsNextAhead};

use axis_roots::{PartialTrees, index, position};
use da_wire::{RawFrame, next_frame};
use frame_fields::{axis_at, cell_at, digest_at, node_list_at, shares_at, shown_front};
use namespace_id::{
    Axis, BLANK_DIGEST, Cell, DIGEST_SIZE, Digest, Share, is_in_square, leaf_namespace,
};
use nmt_tree::LeafQueue;

/// How many of eight nodes have to be of use: eight side by side take as long as up to four one by one.
const FEWEST: u8 = 5;

/// The cell and the share of a frame that may be a sample, where the square of width k has the cell.
fn shown(k: u16, frame: RawFrame<'_>) -> Option<(Cell, Share)>
    requires width { IsTrue (is_width k) }
    ensures inside { IfSome result (λ x. IsTrue (is_in_square k x.0)) }
    ensures sample { (m : Sent) → raw_message (raw_seen frame.entry) ≡ Some m →
        IfSome result (λ x. (x.0 ≡ m.cell) × (x.1 ≡ m.share)) }
{
    if frame.kind != b'M' {
        return None;
    }
    let (cell, share) = shown_front(frame.payload)?;
    if !is_in_square(k, cell) {
        return None;
    }
    Some((cell, share))
}

/// Adds the leaves that the first frames show to a queue that has none, as many as may wait, and up to
/// the first frame that shows none in the square of width k.
fn fill(queue: &mut LeafQueue, k: u16, bytes: &[u8])
    requires width { IsTrue (is_width k) }
    requires empty { queued queue.old ≡ [] }
    ensures { AreAhead k (queued queue.new) (frames_of bytes.now) }
{
    let mut rest = bytes;
    'frames: while queue.has_room() {
        let Some((frame, after)) = next_frame(rest) else {
            return;
        };
        let Some((cell, share)) = shown(k, frame) else {
            return;
        };
        queue.add(&leaf_namespace(k, cell, &share), &share);
        rest = after;
    }
}

/// Where the leaf of a sample stands, and the digests of its path.
#[derive(Clone, Copy)]
struct Standing<'a> {
    axis: Axis,
    cell: Cell,
    path: &'a [u8],
}

/// Where the leaf of a frame that may be a sample stands, and its path.
fn standing_of(frame: RawFrame<'_>) -> Option<Standing<'_>> {
    if frame.kind != b'M' {
        return None;
    }
    let (cell, rest) = cell_at(frame.payload)?;
    let (axis, rest) = axis_at(rest)?;
    let (_share, rest) = shares_at(1, rest)?;
    let (_count, path, _rest) = node_list_at(rest)?;
    Some(Standing { axis, cell, path })
}

/// A digest of a path.
fn node_of(path: &[u8], i: u32) -> Option<Digest> {
    let at = DIGEST_SIZE * i as usize;
    if path.len() < at {
        return None;
    }
    let (node, _rest) = digest_at(&path[at..])?;
    Some(node)
}

/// The digests of both halves of the least node over two samples, the second of which stands behind the
/// first in one row or column, and the place of the second; none where it stands elsewhere.
fn halves_over(first: &Standing<'_>, second: &Standing<'_>) -> Option<(u16, Digest, Digest)> {
    let place = position(second.axis, second.cell);
    let before = position(first.axis, first.cell);
    if first.axis != second.axis
        || index(first.axis, first.cell) != index(second.axis, second.cell)
        || before.checked_add(1) != Some(place)
    {
        return None;
    }
    // A path has a node left of its leaf for each bit of the place, from the highest on, and behind
    // these the node next to the leaf on the right. The lowest bit of `place` isn't one of `before`.
    let left = node_of(second.path, (place & before).count_ones())?;
    let right = node_of(first.path, before.count_ones())?;
    Some((place, left, right))
}

/// The digests of the halves of the nodes between neighboring samples among the first nine frames, each
/// pair at the place of its right half modulo 8; none where there are too few to hash all eight.
fn halves_ahead(bytes: &[u8]) -> Option<[Digest; 16]> {
    let mut halves = [BLANK_DIGEST; 16];
    let mut count = 0;
    let (frame, mut rest) = next_frame(bytes)?;
    let mut last = standing_of(frame)?;
    for _ in 0..8_u8 {
        let (frame, after) = next_frame(rest)?;
        let next = standing_of(frame)?;
        if let Some((place, left, right)) = halves_over(&last, &next) {
            let at = 2 * (place as usize % 8);
            halves[at] = left;
            halves[at + 1] = right;
            count += 1;
        }
        last = next;
        rest = after;
    }
    if count < FEWEST {
        return None;
    }
    Some(halves)
}

/// Hashes the nodes between the first frames, where these are neighboring samples.
fn hash_nodes(trees: &mut Option<PartialTrees>, bytes: &[u8])
    ensures kept { trees.new ≡ trees.old }
{
    let Some(kept) = trees else {
        return;
    };
    if let Some(halves) = halves_ahead(bytes) {
        kept.hash_ahead(halves);
    }
}

/// Fills a queue that has no leaves, where samples are judged by partial trees.
fn look_ahead(trees: &mut Option<PartialTrees>, queue: &mut LeafQueue, k: u16, bytes: &[u8])
    requires width { IsTrue (is_width k) }
    requires ahead { AreAhead k (queued queue.old) (frames_of bytes.now) }
    ensures ahead { AreAhead k (queued queue.new) (frames_of bytes.now) }
    ensures kept { trees.new ≡ trees.old }
{
    if trees.is_some() && queue.is_empty() {
        fill(queue, k, bytes);
        if !queue.has_room() {
            hash_nodes(trees, bytes);
        }
    }
}

/// The digest of the leaf that the first frame shows, if it is known; the queue has those of the frames
/// behind it. It takes no memory.
pub(crate) fn next_leaf(
    trees: &mut Option<PartialTrees>,
    queue: &mut LeafQueue,
    k: u16,
    bytes: &[u8],
) -> Option<Digest>
    requires width { IsTrue (is_width k) }
    requires ahead { AreAhead k (queued queue.old) (frames_of bytes.now) }
    ensures next { IsNextAhead k result (queued queue.new) (frames_of bytes.now) }
    ensures kept { trees.new ≡ trees.old }
{
    look_ahead(trees, queue, k, bytes);
    if queue.is_empty() {
        return None;
    }
    queue.next()
}
