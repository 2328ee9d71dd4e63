//! Room for a fraud claim, which holds one after another.

ghost use Rattle.std.specs.Prelude.{◌≡◌, ◌≤◌, ◌*◌, length, vec_capacity, true, false, Some, None, IsSome};
ghost use Rattle.std.specs.Option.{is_some, option_map};
ghost use Rattle.frame_fields.specs.Fields.{many_at, read_items};
ghost use Rattle.frame_fields.specs.Messages.{message_front};
ghost use Rattle.frame_payloads.specs.kinds.Fraud.{most_cells, most_set_nodes, set_cell_at, claim_cells_at, set_seen, fraud_at};

use crate::kinds::accused::MOST_CELLS;
use crate::kinds::fraud::plain_parts;
use crate::kinds::fraud_set::{MOST_NODES, SetFields, fill_cells, set_fields};
use axis_roots::{FraudClaim, Message, SetNodes};
use frame_fields::{add, count16_at, fill_digests, message_front};
use namespace_id::{Axis, Digest, NoMemory};
use std::alloc::Global;
use std::marker::Model;

/// Fills a list with so many samples, one after another, in place of what it held.
#[tactic(auto, using(crate::proofs::Fields::Many::kept_end))]
fn fill_samples(list: &mut Vec<Message>, count: u16, bytes: &[u8])
    requires samples { IsSome (many_at message_front count bytes.now) }
    requires capacity { count ≤ vec_capacity list.old }
    ensures items { list.new.items ≡ read_items (many_at message_front count bytes.now) }
    ensures capacity { vec_capacity list.old ≤ vec_capacity list.new }
{
    list.clear();
    let mut rest = bytes;
    for _ in 0..count {
        let (cell, after) = message_front(rest).unwrap();
        add(list, cell);
        rest = after;
    }
}

/// Fills a list with the samples of a claim without a set, behind their count, in place of what it held.
#[tactic(auto, unfolding(frame_fields::specs::Fields::list_at))]
fn fill_sample_list(list: &mut Vec<Message>, bytes: &[u8])
    requires samples { IsSome (claim_cells_at bytes.now) }
    requires capacity { most_cells ≤ vec_capacity list.old }
    ensures items { list.new.items ≡ read_items (claim_cells_at bytes.now) }
    ensures capacity { vec_capacity list.old ≤ vec_capacity list.new }
{
    let (count, rest) = count16_at(bytes, MOST_CELLS).unwrap();
    fill_samples(list, count, rest);
}

/// Room for the longest fraud claim that has a payload, which holds one claim after another. Contracts see the
/// claim that it holds; at first that is one with no cell.
#[derive(Drop)]
pub struct ClaimRoom {
    axis: Axis,
    index: u16,
    cells: Vec<Message>,
    has_set: bool,
    // those of the set, where there is one
    nodes: Vec<Digest>,
}

impl Model for ClaimRoom {
    ghost use Rattle.axis_roots.specs.Claims.{ClaimParts};
    ghost use Rattle.frame_payloads.specs.kinds.ClaimRooms.{set_where, IsClaimRoom};

    ghost Value = { ClaimParts };

    ghost view = { λ r. record {
      axis = r.axis;
      index = r.index;
      cells = r.cells.items;
      set = set_where r.has_set r.nodes.items;
    } };

    ghost invariant = { λ r. IsClaimRoom r.cells r.nodes };
}

impl ClaimRoom {
    /// A room with a claim of no cell. It takes all memory at once, that of `GREATEST_WIDTH` samples and as many
    /// digests, and refuses only where there is none; no other call of a room takes memory.
    pub fn new(alloc: Global) -> Result<ClaimRoom, NoMemory> {
        let cells = Vec::with_capacity(alloc, MOST_CELLS as usize)?;
        let nodes = Vec::with_capacity(alloc, MOST_NODES as usize)?;
        Ok(ClaimRoom {
            axis: Axis::Row,
            index: 0,
            cells,
            has_set: false,
            nodes,
        })
    }

    /// Holds the claim without a set of this axis and index, with the samples behind their count.
    fn hold_plain(&mut self, axis: Axis, index: u16, cells: &[u8])
        requires { IsSome (claim_cells_at cells.now) }
        ensures { self.new ≡ record {
          axis = axis;
          index = index;
          cells = read_items (claim_cells_at cells.now);
          set = None;
        } }
    {
        fill_sample_list(&mut self.cells, cells);
        self.axis = axis;
        self.index = index;
        self.has_set = false;
    }

    /// Holds a claim with a set.
    fn hold_set(&mut self, fields: SetFields<'_>)
        requires cells { IsSome (many_at (set_cell_at fields.axis fields.index) fields.cell_count fields.cells.now) }
        requires few_cells { fields.cell_count ≤ most_cells }
        requires nodes { length fields.nodes.now ≡ 90 * fields.node_count }
        requires few { fields.node_count ≤ most_set_nodes }
        ensures { self.new ≡ set_seen fields.entry }
    {
        fill_cells(
            &mut self.cells,
            fields.axis,
            fields.index,
            fields.cell_count,
            fields.cells,
        );
        self.nodes.clear();
        fill_digests(&mut self.nodes, fields.node_count as usize, fields.nodes);
        self.axis = fields.axis;
        self.index = fields.index;
        self.has_set = true;
    }

    /// Whether the bytes are the payload of a fraud claim, of one form or the other; then the room holds that
    /// claim, in place of what it held. Where they aren't, it has not changed. It takes no memory.
    ///
    /// docs/FORMATS.md, "Payloads".
    pub fn read(&mut self, payload: &[u8]) -> bool
        ensures read { result ≡ is_some (fraud_at payload.now) }
        ensures held { result ≡ true → fraud_at payload.now ≡ Some self.new }
        ensures unchanged { result ≡ false → self.new ≡ self.old }
    {
        if let Some((axis, index, cells)) = plain_parts(payload) {
            self.hold_plain(axis, index, cells);
            return true;
        }
        let Some(fields) = set_fields(payload) else {
            return false;
        };
        self.hold_set(fields);
        true
    }

    /// The axis that the claim accuses.
    pub fn axis(&self) -> Axis
        ensures { result ≡ self.now.axis }
    {
        self.axis
    }

    /// The index of that axis.
    pub fn index(&self) -> u16
        ensures { result ≡ self.now.index }
    {
        self.index
    }

    /// The samples of the claim.
    pub fn cells(&self) -> &[Message]
        ensures { result.now ≡ self.now.cells }
    {
        &self.cells
    }

    /// The nodes of its set, if it has one.
    pub fn set(&self) -> Option<&[Digest]>
        ensures { option_map (λ nodes. nodes.now) result ≡ self.now.set }
    {
        if self.has_set {
            return Some(&self.nodes);
        }
        None
    }

    /// The claim, which keeps the memory of the room.
    pub fn into_claim(self) -> FraudClaim
        ensures { result ≡ self }
    {
        let ClaimRoom {
            axis,
            index,
            cells,
            has_set,
            nodes,
        } = self;
        let set = if has_set {
            Some(SetNodes { nodes })
        } else {
            None
        };
        FraudClaim {
            axis,
            index,
            cells,
            set,
        }
    }
}
