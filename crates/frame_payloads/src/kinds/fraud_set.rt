//! The payload of a fraud claim with a set: judged where it lies, then read; and written.

ghost use Rattle.std.specs.Prelude.{◌≡◌, ◌≤◌, ◌*◌, List, length, None, Some, IfSome, MatchOption, vec_capacity, IsSome};
ghost use Rattle.std.specs.List.{flat_map, list_all, list_any};
ghost use Rattle.namespace_id.specs.Answers.{Gives};
ghost use Rattle.axis_roots.specs.Sets.{is_one_axis, is_along};
ghost use Rattle.frame_fields.specs.Fields.{many_at, read_items};
ghost use Rattle.frame_payloads.specs.Payloads.{GivesUnlessFull, Puts};
ghost use Rattle.frame_payloads.specs.kinds.Fraud.{cell_payload, set_payload, is_cell_placed, fits_form, tag_at, cell_path_at, set_cell_at, with_set_at, set_seen, most_cells, most_set_nodes};
ghost use Rattle.axis_roots.specs.declared.message.messages.Message.{Message as Sent};

use crate::codec::appending::put_short;
use crate::codec::outs::{Full, Out};
use crate::codec::writing::{count16, put_list16};
use crate::kinds::accused::{MOST_CELLS, accused_at, put_accused};
use axis_roots::{FraudClaim, Message, SetNodes, cell_on, index, is_along, position};
use frame_fields::{add, count16_at, digest_list_at, digests_of, path_at, share_at, u8_at, u16_at};
use namespace_id::{Axis, GREATEST_WIDTH};
use nmt_proofs::Path;
use std::alloc::{AllocError, Global};

/// The form of a claim with a set, the byte in front of it.
const FORM: u8 = 2;

/// The most nodes of a set, as many as open cells of an axis of the greatest square.
pub(crate) const MOST_NODES: u16 = GREATEST_WIDTH;

/// The tag of a cell that has a path along the crossing axis.
const CROSSING: u8 = 0;

/// The tag of a cell that the set shows.
const ALONG: u8 = 1;

/// A claim with a set, judged. The cells and the nodes are still bytes, behind their counts.
#[derive(Clone, Copy)]
pub(crate) struct SetFields<'a> {
    pub axis: Axis,
    pub index: u16,
    pub cell_count: u16,
    pub cells: &'a [u8],
    pub node_count: u16,
    pub nodes: &'a [u8],
}

/// Whether two axes are both rows or both columns.
fn is_one_axis(axis: Axis, other: Axis) -> bool
    ensures { result ≡ is_one_axis axis other }
{
    match (axis, other) {
        (Axis::Row, Axis::Row) => true,
        (Axis::Col, Axis::Col) => true,
        _ => false,
    }
}

/// The axis of a sample by its tag, and the bytes after it.
#[tactic(auto, unfolding(crate::specs::kinds::Fraud::tag_at))]
fn tag_at(axis: Axis, bytes: &[u8]) -> Option<(Axis, &[u8])>
    ensures { Gives (λ x. (x.0, x.1.now)) result (tag_at axis bytes.now) }
{
    let (tag, rest) = u8_at(bytes)?;
    match tag {
        CROSSING => Some((axis.crossing(), rest)),
        ALONG => Some((axis, rest)),
        _ => None,
    }
}

/// The path of a cell, and the bytes after it; none is written where the set shows the cell.
fn cell_path_at(along: bool, bytes: &[u8]) -> Option<(Path, &[u8])>
    ensures { Gives (λ x. (x.0, x.1.now)) result (cell_path_at along bytes.now) }
{
    if along {
        return Some((Path::new(), bytes));
    }
    path_at(bytes)
}

/// A cell on the accused axis, and the bytes after it.
#[tactic(auto, unfolding(crate::specs::kinds::Fraud::set_cell_at))]
pub(crate) fn set_cell_at(accused: Axis, index: u16, bytes: &[u8]) -> Option<(Message, &[u8])>
    ensures { Gives (λ x. (x.0, x.1.now)) result (set_cell_at accused index bytes.now) }
{
    let Some((pos, rest)) = u16_at(bytes) else {
        return None;
    };
    let Some((axis, rest)) = tag_at(accused, rest) else {
        return None;
    };
    let Some((share, rest)) = share_at(rest) else {
        return None;
    };
    let Some((path, rest)) = cell_path_at(is_one_axis(accused, axis), rest) else {
        return None;
    };
    let message = Message {
        cell: cell_on(accused, index, pos),
        axis,
        share,
        path,
    };
    Some((message, rest))
}

/// Whether the set shows one of so many cells, and the bytes after them.
fn after_cells(axis: Axis, index: u16, count: u16, bytes: &[u8]) -> Option<(bool, &[u8])>
    ensures { MatchOption result (many_at (set_cell_at axis index) count bytes.now ≡ None) (λ x.
        (cells : List Sent) × (many_at (set_cell_at axis index) count bytes.now ≡ Some (cells, x.1.now))
        × (x.0 ≡ list_any (is_along axis) cells)) }
{
    let mut shown = false;
    let mut rest = bytes;
    for _ in 0..count {
        let (cell, after) = set_cell_at(axis, index, rest)?;
        shown = shown || is_along(axis, &cell);
        rest = after;
    }
    Some((shown, rest))
}

/// The parts of the claim with a set whose payload the bytes are. It takes no memory.
#[tactic(auto, unfolding(crate::specs::kinds::Fraud::with_set_at, frame_fields::specs::Fields::list_at))]
pub(crate) fn set_fields(payload: &[u8]) -> Option<SetFields<'_>>
    ensures parts { Gives (λ f. set_seen f) result (with_set_at payload.now) }
    ensures cells { IfSome result (λ f.
        IsSome (many_at (set_cell_at f.axis f.index) f.cell_count f.cells.now)) }
    ensures few_cells { IfSome result (λ f. f.cell_count ≤ most_cells) }
    ensures nodes { IfSome result (λ f. length f.nodes.now ≡ 90 * f.node_count) }
    ensures few { IfSome result (λ f. f.node_count ≤ most_set_nodes) }
{
    let (axis, index, rest) = accused_at(FORM, payload)?;
    let (cell_count, cells) = count16_at(rest, MOST_CELLS)?;
    let (shown, rest) = after_cells(axis, index, cell_count, cells)?;
    let (node_count, nodes, rest) = digest_list_at(rest, MOST_NODES)?;
    if !rest.is_empty() || !shown {
        return None;
    }
    Some(SetFields {
        axis,
        index,
        cell_count,
        cells,
        node_count,
        nodes,
    })
}

/// Fills a list with so many cells on an accused axis, one after another, in place of what it held.
#[tactic(auto, using(crate::proofs::Fields::Many::kept_end))]
pub(crate) fn fill_cells(list: &mut Vec<Message>, axis: Axis, index: u16, count: u16, bytes: &[u8])
    requires cells { IsSome (many_at (set_cell_at axis index) count bytes.now) }
    requires capacity { count ≤ vec_capacity list.old }
    ensures items { list.new.items ≡ read_items (many_at (set_cell_at axis index) count bytes.now) }
    ensures capacity { vec_capacity list.old ≤ vec_capacity list.new }
{
    list.clear();
    let mut rest = bytes;
    for _ in 0..count {
        let (cell, after) = set_cell_at(axis, index, rest).unwrap();
        add(list, cell);
        rest = after;
    }
}

/// The claim with a set whose payload the bytes are. No memory is taken before they are known to be
/// one.
pub(crate) fn with_set(alloc: Global, payload: &[u8]) -> Result<Option<FraudClaim>, AllocError>
    ensures { GivesUnlessFull result (with_set_at payload.now) }
{
    let Some(fields) = set_fields(payload) else {
        return Ok(None);
    };
    let mut cells = Vec::with_capacity(alloc, fields.cell_count as usize)?;
    fill_cells(
        &mut cells,
        fields.axis,
        fields.index,
        fields.cell_count,
        fields.cells,
    );
    let nodes = digests_of(alloc, fields.node_count as usize, fields.nodes)?;
    Ok(Some(FraudClaim {
        axis: fields.axis,
        index: fields.index,
        cells,
        set: Some(SetNodes { nodes }),
    }))
}

/// Whether a cell of a claim with a set is on the accused axis, and has no path where the set shows it.
fn is_placed(claim: &FraudClaim, message: &Message) -> bool
    ensures { result ≡ is_cell_placed claim.now message.now }
{
    index(claim.axis, message.cell) == claim.index
        && (!is_along(claim.axis, message) || message.path.nodes().is_empty())
}

/// Whether all of these cells of a claim with a set are placed.
fn are_placed(claim: &FraudClaim, cells: &[Message]) -> bool
    ensures { result ≡ list_all (is_cell_placed claim.now) cells.now }
{
    cells.iter().all(|cell| is_placed(claim, cell))
}

/// Whether the set shows one of these cells.
fn has_shown(axis: Axis, cells: &[Message]) -> bool
    ensures { result ≡ list_any (is_along axis) cells.now }
{
    cells.iter().any(|cell| is_along(axis, cell))
}

/// Whether the cells of a claim can be written beside its set, if it has one.
pub(crate) fn fits_form(claim: &FraudClaim) -> bool
    ensures { result ≡ fits_form claim.now claim.now.set }
{
    match &claim.set {
        Some(set) => {
            are_placed(claim, &claim.cells)
                && has_shown(claim.axis, &claim.cells)
                && set.nodes.len() <= MOST_NODES as usize
        }
        None => true,
    }
}

/// Puts a cell: its position on the accused axis, its tag, its share, and its path where it has one.
fn put_cell<O: Out>(out: &mut O, axis: Axis, message: &Message) -> Result<(), Full>
    ensures { Puts O.byte O.held O.taken O.limit out.old out.new (cell_payload axis message.now) result }
{
    out.put(&position(axis, message.cell).to_be_bytes())?;
    if is_along(axis, message) {
        out.put(&[ALONG])?;
        return out.put(&message.share.0);
    }
    out.put(&[CROSSING])?;
    out.put(&message.share.0)?;
    put_short(out, message.path.nodes())
}

/// Puts cells, one after another.
fn put_cells<O: Out>(out: &mut O, axis: Axis, cells: &[Message]) -> Result<(), Full>
    ensures { Puts O.byte O.held O.taken O.limit out.old out.new (flat_map (cell_payload axis) cells.now) result }
{
    for cell in cells {
        put_cell(out, axis, cell)?;
    }
    Ok(())
}

/// Puts the payload of a claim with this set.
pub(crate) fn put_with_set<O: Out>(
    out: &mut O,
    claim: &FraudClaim,
    set: &SetNodes,
) -> Result<(), Full>
    ensures { Puts O.byte O.held O.taken O.limit out.old out.new (set_payload claim.now set.now) result }
{
    put_accused(out, FORM, claim.axis, claim.index)?;
    out.put(&count16(claim.cells.len()))?;
    put_cells(out, claim.axis, &claim.cells)?;
    put_list16(out, &set.nodes)
}
