//! The lines of frames, each appended to a text, without a line feed.

ghost use Rattle.std.specs.Prelude.{◌≡◌, ◌++◌, length, OnOk};
ghost use Rattle.std.specs.String.{string_bytes};
ghost use Rattle.da_show.specs.Parts.{axis_word};
ghost use Rattle.da_show.specs.Text.{header_line, square_line, names_line, claim_line, missing_line, counts, sized_line, block_line, string_line, request_line, sample_line, cell_line, place, place_line, range_line, absence_line, axis_root_line, share_line, message_line, row_line, unit_line, block_blob_line, commit_line, rooted_line, transactions_line, refusal_line, state_line};

use crate::words::{
    axis_word, digest_word, hash_word, name_word, put_number, share_hash_word, share_name_word,
    signer_word, width_number,
};
use axis_roots::{Found, FraudClaim, Message};
use blob_commit::{CommitProof, RootedMessage};
use da_wire::{EntryPlace, FoundPlace, Refusal, UnitList};
use data_header::{Header, data_root};
use namespace_id::{Axis, Cell, Cells, Digest, NAMESPACE_SIZE, Namespace, Share};
use share_split::{Blob, Unit};
use square_layout::{Block, Square};
use std::alloc::{AllocError, Global};

/// A header's own line, with its data root.
pub(crate) fn put_header(alloc: Global, out: &mut String, header: &Header) -> Result<(), AllocError>
    ensures { OnOk result (string_bytes out.new ≡ string_bytes out.old ++ header_line header.now) }
{
    let k = header.k;
    let root = hash_word(alloc, &data_root(header))?;
    write!(out, "header k={k} root={root}")
}

/// A root with the word of its axis.
pub(crate) fn put_root(
    alloc: Global,
    out: &mut String,
    axis: Axis,
    number: usize,
    root: &Digest,
) -> Result<(), AllocError>
    ensures { OnOk result (string_bytes out.new
        ≡ string_bytes out.old ++ axis_root_line (axis_word axis) number root.now) }
{
    let axis = axis_word(axis);
    let digest = digest_word(alloc, root)?;
    write!(out, "{axis} {number} {digest}")
}

/// A square's own line.
pub(crate) fn put_square(out: &mut String, square: &Square) -> Result<(), AllocError>
    ensures { OnOk result (string_bytes out.new ≡ string_bytes out.old ++ square_line square.now) }
{
    let k = square.k;
    write!(out, "square k={k}")
}

/// A share: its number, its namespace and its info byte.
pub(crate) fn put_share(
    alloc: Global,
    out: &mut String,
    number: usize,
    share: &Share,
) -> Result<(), AllocError>
    ensures { OnOk result (string_bytes out.new
        ≡ string_bytes out.old ++ share_line number share.now) }
{
    let name = share_name_word(alloc, share)?;
    let info = hex::encode(alloc, [share.0[NAMESPACE_SIZE]])?;
    write!(out, "share {number} {name} {info}")
}

/// A cell and an axis, as a part of a line.
#[tactic(auto, unfolding(crate::specs::Text::place))]
fn put_place(out: &mut String, cell: Cell, axis: Axis) -> Result<(), AllocError>
    ensures { OnOk result (string_bytes out.new ≡ string_bytes out.old ++ place cell axis) }
{
    out.push_str("row=")?;
    put_number(out, cell.row)?;
    out.push_str(" col=")?;
    put_number(out, cell.col)?;
    out.push_str(" axis=")?;
    out.push_str(axis_word(axis))
}

/// A sample, with the hash of its share.
pub(crate) fn put_message(
    alloc: Global,
    out: &mut String,
    message: &Message,
) -> Result<(), AllocError>
    ensures { OnOk result (string_bytes out.new
        ≡ string_bytes out.old ++ message_line message.now) }
{
    let nodes = message.path.nodes().len();
    let share = share_hash_word(alloc, &message.share)?;
    out.push_str("message ")?;
    put_place(out, message.cell, message.axis)?;
    write!(out, " nodes={nodes} share={share}")
}

/// The own line of a namespace answer of so many entries.
pub(crate) fn put_names(
    alloc: Global,
    out: &mut String,
    name: &Namespace,
    count: usize,
) -> Result<(), AllocError>
    ensures { OnOk result (string_bytes out.new
        ≡ string_bytes out.old ++ names_line name.now count) }
{
    let name = name_word(alloc, name)?;
    write!(out, "namespace {name} entries={count}")
}

/// What is found in a row.
pub(crate) fn put_found(out: &mut String, row: u16, found: &Found) -> Result<(), AllocError>
    ensures { OnOk result (string_bytes out.new
        ≡ string_bytes out.old ++ row_line row found.now) }
{
    match found {
        Found::Range { start, shares, .. } => {
            let start = *start;
            let count = shares.list.len();
            write!(out, "row {row} range {start} {count}")
        }
        Found::Absence { pos, .. } => {
            let pos = *pos;
            write!(out, "row {row} absent {pos}")
        }
    }
}

/// A range by its row, its start and how many shares it has.
#[tactic(auto, unfolding(crate::specs::Text::range_line))]
fn put_range(out: &mut String, row: u16, start: u16, count: u16) -> Result<(), AllocError>
    ensures { OnOk result (string_bytes out.new
        ≡ string_bytes out.old ++ range_line row start count) }
{
    out.push_str("row ")?;
    put_number(out, row)?;
    out.push_str(" range ")?;
    put_number(out, start)?;
    out.push(' ')?;
    put_number(out, count)
}

/// An absence by its row and its column.
#[tactic(auto, unfolding(crate::specs::Text::absence_line))]
fn put_absence(out: &mut String, row: u16, pos: u16) -> Result<(), AllocError>
    ensures { OnOk result (string_bytes out.new ≡ string_bytes out.old ++ absence_line row pos) }
{
    out.push_str("row ")?;
    put_number(out, row)?;
    out.push_str(" absent ")?;
    put_number(out, pos)
}

/// Where something is found in a row.
pub(crate) fn put_place_line(out: &mut String, entry: &EntryPlace) -> Result<(), AllocError>
    ensures { OnOk result (string_bytes out.new ≡ string_bytes out.old ++ place_line entry.now) }
{
    match entry.found {
        FoundPlace::Range { start, count } => put_range(out, entry.row, start, count),
        FoundPlace::Absence { pos } => put_absence(out, entry.row, pos),
    }
}

/// A fraud claim's own line.
pub(crate) fn put_claim(out: &mut String, claim: &FraudClaim) -> Result<(), AllocError>
    ensures { OnOk result (string_bytes out.new ≡ string_bytes out.old ++ claim_line claim.now) }
{
    let axis = axis_word(claim.axis);
    let index = claim.index;
    let count = claim.cells.len();
    write!(out, "fraud {axis} {index} cells={count}")
}

/// The own line of missing cells.
pub(crate) fn put_missing(out: &mut String, cells: &Cells) -> Result<(), AllocError>
    ensures { OnOk result (string_bytes out.new ≡ string_bytes out.old ++ missing_line cells.now) }
{
    let k = cells.k;
    let count = cells.list.len();
    write!(out, "missing k={k} count={count}")
}

/// A cell.
pub(crate) fn put_cell(out: &mut String, cell: Cell) -> Result<(), AllocError>
    ensures { OnOk result (string_bytes out.new ≡ string_bytes out.old ++ cell_line cell) }
{
    let row = cell.row;
    let col = cell.col;
    write!(out, "cell {row} {col}")
}

/// A string of a collision behind a word that says which of the two it is.
pub(crate) fn put_string(
    alloc: Global,
    out: &mut String,
    word: &str,
    bytes: &[u8],
) -> Result<(), AllocError>
    ensures { OnOk result (string_bytes out.new
        ≡ string_bytes out.old ++ string_line word.now bytes.now) }
{
    let digits = hex::encode(alloc, bytes)?;
    write!(out, "{word} {digits}")
}

/// A request for the sample of a cell on an axis.
pub(crate) fn put_sample(out: &mut String, cell: Cell, axis: Axis) -> Result<(), AllocError>
    ensures { OnOk result (string_bytes out.new ≡ string_bytes out.old ++ sample_line cell axis) }
{
    out.push_str("sample ")?;
    put_place(out, cell, axis)
}

/// A request for the shares of a namespace.
pub(crate) fn put_request(
    alloc: Global,
    out: &mut String,
    name: &Namespace,
) -> Result<(), AllocError>
    ensures { OnOk result (string_bytes out.new ≡ string_bytes out.old ++ request_line name.now) }
{
    let name = name_word(alloc, name)?;
    write!(out, "request {name}")
}

/// How many units, units of payments and blobs there are, as a part of a line.
#[tactic(auto, unfolding(crate::specs::Text::counts))]
fn put_counts(
    out: &mut String,
    units: usize,
    pay_units: usize,
    blobs: usize,
) -> Result<(), AllocError>
    ensures { OnOk result (string_bytes out.new
        ≡ string_bytes out.old ++ counts units pay_units blobs) }
{
    write!(out, "units={units} pay={pay_units} blobs={blobs}")
}

/// The own line of a block that asks for this width, 0 for none, and has so much in it.
#[tactic(auto, unfolding(crate::specs::Text::sized_line))]
fn put_sized(
    out: &mut String,
    width: u16,
    units: usize,
    pay_units: usize,
    blobs: usize,
) -> Result<(), AllocError>
    ensures { OnOk result (string_bytes out.new
        ≡ string_bytes out.old ++ sized_line width units pay_units blobs) }
{
    write!(out, "block width={width} ")?;
    put_counts(out, units, pay_units, blobs)
}

/// A block's own line.
pub(crate) fn put_block(out: &mut String, block: &Block) -> Result<(), AllocError>
    ensures { OnOk result (string_bytes out.new ≡ string_bytes out.old ++ block_line block.now) }
{
    let units = block.units.len();
    let pay_units = block.pay_units.len();
    let blobs = block.blobs.len();
    put_sized(out, width_number(block), units, pay_units, blobs)
}

/// The length of a unit behind a word that says of which kind it is.
pub(crate) fn put_unit(out: &mut String, word: &str, unit: &Unit) -> Result<(), AllocError>
    ensures { OnOk result (string_bytes out.new
        ≡ string_bytes out.old ++ unit_line word.now unit.now) }
{
    let size = unit.bytes.len();
    write!(out, "{word} {size}")
}

/// A blob: its namespace, its length and its signer, if it has one.
pub(crate) fn put_blob(alloc: Global, out: &mut String, blob: &Blob) -> Result<(), AllocError>
    ensures { OnOk result (string_bytes out.new ≡ string_bytes out.old ++ block_blob_line blob.now) }
{
    let name = name_word(alloc, &blob.namespace)?;
    let size = blob.bytes.len();
    match &blob.signer {
        Some(signer) => {
            let signer = signer_word(alloc, signer)?;
            write!(out, "blob {name} {size} signer {signer}")
        }
        None => write!(out, "blob {name} {size}"),
    }
}

/// A commitment proof: its width, its range, its commitment, and how many rows it has.
pub(crate) fn put_commit(
    alloc: Global,
    out: &mut String,
    proof: &CommitProof,
) -> Result<(), AllocError>
    ensures { OnOk result (string_bytes out.new ≡ string_bytes out.old ++ commit_line proof.now) }
{
    let k = proof.k;
    let start = proof.start;
    let count = proof.count;
    let commitment = hash_word(alloc, &proof.commitment)?;
    let rows = proof.rows.len();
    write!(
        out,
        "commit k={k} start={start} count={count} commitment={commitment} rows={rows}"
    )
}

/// A root proof's own line, with the root of its axis.
pub(crate) fn put_rooted(
    alloc: Global,
    out: &mut String,
    proof: &RootedMessage,
) -> Result<(), AllocError>
    ensures { OnOk result (string_bytes out.new ≡ string_bytes out.old ++ rooted_line proof.now) }
{
    let k = proof.k;
    let root = digest_word(alloc, &proof.root)?;
    write!(out, "rooted k={k} root={root}")
}

/// Transactions' own line.
pub(crate) fn put_transactions(out: &mut String, units: &UnitList) -> Result<(), AllocError>
    ensures { OnOk result (string_bytes out.new
        ≡ string_bytes out.old ++ transactions_line units.now) }
{
    let count = units.list.len();
    write!(out, "transactions count={count}")
}

/// A refusal.
pub(crate) fn put_refusal(out: &mut String, refusal: Refusal) -> Result<(), AllocError>
    ensures { OnOk result (string_bytes out.new ≡ string_bytes out.old ++ refusal_line refusal) }
{
    let reason = refusal.reason.byte();
    let number = refusal.number;
    write!(out, "refusal reason={reason} number={number}")
}

/// A state.
pub(crate) fn put_state(out: &mut String) -> Result<(), AllocError>
    ensures { OnOk result (string_bytes out.new ≡ string_bytes out.old ++ state_line) }
{
    out.push_str("state")
}
