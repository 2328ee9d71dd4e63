//! The text of the object of each kind of frame, put together without the object.

ghost use Rattle.std.specs.Prelude.{◌≡◌, ◌++◌, OnOk};
ghost use Rattle.std.specs.String.{string_bytes};
ghost use Rattle.da_show.specs.JsonTexts.{header_end, header_text, square_end, square_text, place_front, share_end, message_end, message_text, names_end, names_text, places_text, claim_end, claim_text, missing_text, clash_text, sample_text, request_text, units_end, block_end, block_text, commit_end, commit_counts, commit_text, rooted_end, rooted_text, transactions_text, refusal_text, state_text};

use super::lists::{
    put_blobs, put_cells, put_entries, put_lengths, put_message_cells, put_places, put_roots,
    put_shares,
};
use super::parts::{put_axis, put_hex, put_name};
use crate::words::{
    axis_word, digest_of, put_frame_number, put_number, put_reason, put_share_count, put_size,
    width_number,
};
use axis_roots::{Message, NsEntry};
use blob_commit::{CommitProof, RootedMessage};
use da_wire::{EntryPlace, Refusal};
use data_header::{Header, data_root};
use namespace_id::{Axis, Cell, Digest, Namespace, Share};
use share_split::Unit;
use square_layout::{Block, Square};
use std::alloc::{AllocError, Global};

/// Appends a header from its kind on, by its data root and the roots of its rows.
fn put_header_end(
    alloc: Global,
    out: &mut String,
    root: &[u8],
    rows: &[Digest],
) -> Result<(), AllocError>
    ensures { OnOk result (string_bytes out.new
        ≡ string_bytes out.old ++ header_end root.now rows.now) }
{
    out.push_str(",\"kind\":\"header\",\"root\":")?;
    put_hex(alloc, out, root)?;
    out.push_str(",\"rows\":")?;
    put_roots(alloc, out, rows)?;
    out.push_str("}")
}

/// Appends a header: its data root and its roots.
#[tactic(auto, unfolding(crate::specs::JsonTexts::header_text))]
pub(crate) fn put_header(alloc: Global, out: &mut String, header: &Header) -> Result<(), AllocError>
    ensures { OnOk result (string_bytes out.new ≡ string_bytes out.old ++ header_text header.now) }
{
    let root = data_root(header);
    out.push_str("{\"cols\":")?;
    put_roots(alloc, out, &header.cols)?;
    out.push_str(",\"k\":")?;
    put_number(out, header.k)?;
    put_header_end(alloc, out, &root, &header.rows)
}

/// Appends a square from its kind on.
fn put_square_end(alloc: Global, out: &mut String, shares: &[Share]) -> Result<(), AllocError>
    ensures { OnOk result (string_bytes out.new ≡ string_bytes out.old ++ square_end shares.now) }
{
    out.push_str(",\"kind\":\"square\",\"namespaces\":")?;
    put_shares(alloc, out, shares)?;
    out.push_str("}")
}

/// Appends a square: the namespaces of its shares.
#[tactic(auto, unfolding(crate::specs::JsonTexts::square_text))]
pub(crate) fn put_square(alloc: Global, out: &mut String, square: &Square) -> Result<(), AllocError>
    ensures { OnOk result (string_bytes out.new ≡ string_bytes out.old ++ square_text square.now) }
{
    out.push_str("{\"k\":")?;
    put_number(out, square.k)?;
    put_square_end(alloc, out, &square.shares)
}

/// Appends an axis and a column, which stand at the front of an object.
#[tactic(auto, unfolding(crate::specs::JsonTexts::place_front))]
fn put_place_front(out: &mut String, axis: Axis, col: u16) -> Result<(), AllocError>
    ensures { OnOk result (string_bytes out.new ≡ string_bytes out.old ++ place_front axis col) }
{
    out.push_str("{\"axis\":")?;
    put_axis(out, axis)?;
    out.push_str(",\"col\":")?;
    put_number(out, col)
}

/// Appends a row and the hash of a share, which stand at the end of an object.
#[tactic(auto, unfolding(crate::specs::JsonTexts::share_end))]
fn put_share_end(alloc: Global, out: &mut String, row: u16, share: &Share) -> Result<(), AllocError>
    ensures { OnOk result (string_bytes out.new
        ≡ string_bytes out.old ++ share_end row share.now) }
{
    let hash = digest_of(&share.0);
    out.push_str(",\"row\":")?;
    put_number(out, row)?;
    out.push_str(",\"share\":")?;
    put_hex(alloc, out, &hash)?;
    out.push('}')
}

/// Appends a sample from its kind on: how many nodes it has, its row and the hash of its share.
fn put_message_end(
    alloc: Global,
    out: &mut String,
    nodes: usize,
    row: u16,
    share: &Share,
) -> Result<(), AllocError>
    ensures { OnOk result (string_bytes out.new
        ≡ string_bytes out.old ++ message_end nodes row share.now) }
{
    out.push_str(",\"kind\":\"message\",\"nodes\":")?;
    put_size(out, nodes)?;
    put_share_end(alloc, out, row, share)
}

/// Appends a sample, with the hash of its share.
#[tactic(auto, unfolding(crate::specs::JsonTexts::message_text))]
pub(crate) fn put_message(
    alloc: Global,
    out: &mut String,
    message: &Message,
) -> Result<(), AllocError>
    ensures { OnOk result (string_bytes out.new
        ≡ string_bytes out.old ++ message_text message.now) }
{
    let nodes = message.path.nodes().len();
    put_place_front(out, message.axis, message.cell.col)?;
    put_message_end(alloc, out, nodes, message.cell.row, &message.share)
}

/// Appends a namespace answer from its kind on.
fn put_names_end(alloc: Global, out: &mut String, name: &Namespace) -> Result<(), AllocError>
    ensures { OnOk result (string_bytes out.new ≡ string_bytes out.old ++ names_end name.now) }
{
    out.push_str(",\"kind\":\"namespace\",\"namespace\":")?;
    put_name(alloc, out, name)?;
    out.push_str("}")
}

/// Appends a namespace answer.
pub(crate) fn put_names(
    alloc: Global,
    out: &mut String,
    name: &Namespace,
    entries: &[NsEntry],
) -> Result<(), AllocError>
    ensures { OnOk result (string_bytes out.new
        ≡ string_bytes out.old ++ names_text name.now entries.now) }
{
    out.push_str("{\"entries\":")?;
    put_entries(out, entries)?;
    put_names_end(alloc, out, name)
}

/// Appends a namespace answer by where its entries found something.
pub(crate) fn put_names_at(
    alloc: Global,
    out: &mut String,
    name: &Namespace,
    places: &[EntryPlace],
) -> Result<(), AllocError>
    ensures { OnOk result (string_bytes out.new
        ≡ string_bytes out.old ++ places_text name.now places.now) }
{
    out.push_str("{\"entries\":")?;
    put_places(out, places)?;
    put_names_end(alloc, out, name)
}

/// Appends a fraud claim from its index on.
fn put_claim_end(out: &mut String, index: u16) -> Result<(), AllocError>
    ensures { OnOk result (string_bytes out.new ≡ string_bytes out.old ++ claim_end index) }
{
    out.push_str(",\"index\":")?;
    put_number(out, index)?;
    out.push_str(",\"kind\":\"fraud\"}")
}

/// Appends a fraud claim of an axis and its index, with the cells of its samples.
#[tactic(auto, unfolding(crate::specs::JsonTexts::claim_text))]
pub(crate) fn put_claim(
    out: &mut String,
    axis: Axis,
    cells: &[Message],
    index: u16,
) -> Result<(), AllocError>
    ensures { OnOk result (string_bytes out.new
        ≡ string_bytes out.old ++ claim_text axis cells.now index) }
{
    out.push_str("{\"axis\":\"")?;
    out.push_str(axis_word(axis))?;
    out.push_str("\",\"cells\":")?;
    put_message_cells(out, cells)?;
    put_claim_end(out, index)
}

/// Appends missing cells of a square of width k.
#[tactic(auto, unfolding(crate::specs::JsonTexts::missing_text))]
pub(crate) fn put_missing(out: &mut String, cells: &[Cell], k: u16) -> Result<(), AllocError>
    ensures { OnOk result (string_bytes out.new
        ≡ string_bytes out.old ++ missing_text cells.now k) }
{
    out.push_str("{\"cells\":")?;
    put_cells(out, cells)?;
    out.push_str(",\"k\":")?;
    put_number(out, k)?;
    out.push_str(",\"kind\":\"missing\"}")
}

/// Appends a collision by its two strings.
pub(crate) fn put_clash(
    alloc: Global,
    out: &mut String,
    left: &[u8],
    right: &[u8],
) -> Result<(), AllocError>
    ensures { OnOk result (string_bytes out.new
        ≡ string_bytes out.old ++ clash_text left.now right.now) }
{
    out.push_str("{\"kind\":\"clash\",\"left\":")?;
    put_hex(alloc, out, left)?;
    out.push_str(",\"right\":")?;
    put_hex(alloc, out, right)?;
    out.push_str("}")
}

/// Appends a request for the sample of a cell on an axis.
pub(crate) fn put_sample(out: &mut String, cell: Cell, axis: Axis) -> Result<(), AllocError>
    ensures { OnOk result (string_bytes out.new ≡ string_bytes out.old ++ sample_text cell axis) }
{
    put_place_front(out, axis, cell.col)?;
    out.push_str(",\"kind\":\"sample\",\"row\":")?;
    put_number(out, cell.row)?;
    out.push_str("}")
}

/// Appends a request for the shares of a namespace.
pub(crate) fn put_request(
    alloc: Global,
    out: &mut String,
    name: &Namespace,
) -> Result<(), AllocError>
    ensures { OnOk result (string_bytes out.new ≡ string_bytes out.old ++ request_text name.now) }
{
    out.push_str("{\"kind\":\"request\",\"namespace\":")?;
    put_name(alloc, out, name)?;
    out.push_str("}")
}

/// Appends a block from its units on.
#[tactic(auto, unfolding(crate::specs::JsonTexts::units_end))]
fn put_units_end(out: &mut String, units: &[Unit], width: u16) -> Result<(), AllocError>
    ensures { OnOk result (string_bytes out.new
        ≡ string_bytes out.old ++ units_end units.now width) }
{
    out.push_str(",\"units\":")?;
    put_lengths(out, units)?;
    out.push_str(",\"width\":")?;
    put_number(out, width)?;
    out.push('}')
}

/// Appends a block from its kind on.
fn put_block_end(
    out: &mut String,
    pay: &[Unit],
    units: &[Unit],
    width: u16,
) -> Result<(), AllocError>
    ensures { OnOk result (string_bytes out.new
        ≡ string_bytes out.old ++ block_end pay.now units.now width) }
{
    out.push_str(",\"kind\":\"block\",\"pay\":")?;
    put_lengths(out, pay)?;
    put_units_end(out, units, width)
}

/// Appends a block: what it asks for, and the lengths of what is in it.
#[tactic(auto, unfolding(crate::specs::JsonTexts::block_text))]
pub(crate) fn put_block(alloc: Global, out: &mut String, block: &Block) -> Result<(), AllocError>
    ensures { OnOk result (string_bytes out.new ≡ string_bytes out.old ++ block_text block.now) }
{
    let width = width_number(block);
    out.push_str("{\"blobs\":")?;
    put_blobs(alloc, out, &block.blobs)?;
    put_block_end(out, &block.pay_units, &block.units, width)
}

/// Appends a commitment proof from its kind on: how many rows it has, and its start.
fn put_commit_end(out: &mut String, rows: usize, start: u32) -> Result<(), AllocError>
    ensures { OnOk result (string_bytes out.new ≡ string_bytes out.old ++ commit_end rows start) }
{
    out.push_str(",\"kind\":\"commit\",\"rows\":")?;
    put_size(out, rows)?;
    out.push_str(",\"start\":")?;
    put_share_count(out, start)?;
    out.push_str("}")
}

/// Appends a commitment proof from its count on.
fn put_commit_counts(
    out: &mut String,
    count: u32,
    k: u16,
    rows: usize,
    start: u32,
) -> Result<(), AllocError>
    ensures { OnOk result (string_bytes out.new
        ≡ string_bytes out.old ++ commit_counts count k rows start) }
{
    out.push_str(",\"count\":")?;
    put_share_count(out, count)?;
    out.push_str(",\"k\":")?;
    put_number(out, k)?;
    put_commit_end(out, rows, start)
}

/// Appends a commitment proof: its commitment, its range, and how many rows it has.
#[tactic(auto, unfolding(crate::specs::JsonTexts::commit_text))]
pub(crate) fn put_commit(
    alloc: Global,
    out: &mut String,
    proof: &CommitProof,
) -> Result<(), AllocError>
    ensures { OnOk result (string_bytes out.new ≡ string_bytes out.old ++ commit_text proof.now) }
{
    let rows = proof.rows.len();
    out.push_str("{\"commitment\":")?;
    put_hex(alloc, out, &proof.commitment)?;
    put_commit_counts(out, proof.count, proof.k, rows, proof.start)
}

/// Appends a root proof from its kind on: its root, its row and the hash of its share.
fn put_rooted_end(
    alloc: Global,
    out: &mut String,
    root: &Digest,
    row: u16,
    share: &Share,
) -> Result<(), AllocError>
    ensures { OnOk result (string_bytes out.new
        ≡ string_bytes out.old ++ rooted_end root.now row share.now) }
{
    out.push_str(",\"kind\":\"rooted\",\"root\":")?;
    put_hex(alloc, out, &root.0)?;
    put_share_end(alloc, out, row, share)
}

/// Appends a root proof: its sample, with the hash of its share, and the root of its axis.
#[tactic(auto, unfolding(crate::specs::JsonTexts::rooted_text))]
pub(crate) fn put_rooted(
    alloc: Global,
    out: &mut String,
    proof: &RootedMessage,
) -> Result<(), AllocError>
    ensures { OnOk result (string_bytes out.new ≡ string_bytes out.old ++ rooted_text proof.now) }
{
    put_place_front(out, proof.message.axis, proof.message.cell.col)?;
    out.push_str(",\"k\":")?;
    put_number(out, proof.k)?;
    put_rooted_end(
        alloc,
        out,
        &proof.root,
        proof.message.cell.row,
        &proof.message.share,
    )
}

/// Appends transactions: their lengths.
pub(crate) fn put_transactions(out: &mut String, units: &[Unit]) -> Result<(), AllocError>
    ensures { OnOk result (string_bytes out.new ≡ string_bytes out.old ++ transactions_text units.now) }
{
    out.push_str("{\"kind\":\"transactions\",\"lengths\":")?;
    put_lengths(out, units)?;
    out.push_str("}")
}

/// Appends a refusal.
pub(crate) fn put_refusal(out: &mut String, refusal: Refusal) -> Result<(), AllocError>
    ensures { OnOk result (string_bytes out.new ≡ string_bytes out.old ++ refusal_text refusal) }
{
    out.push_str("{\"kind\":\"refusal\",\"number\":")?;
    put_frame_number(out, refusal.number)?;
    out.push_str(",\"reason\":")?;
    put_reason(out, refusal.reason)?;
    out.push_str("}")
}

/// Appends a state.
pub(crate) fn put_state(out: &mut String) -> Result<(), AllocError>
    ensures { OnOk result (string_bytes out.new ≡ string_bytes out.old ++ state_text) }
{
    out.push_str("{\"kind\":\"state\"}")
}
