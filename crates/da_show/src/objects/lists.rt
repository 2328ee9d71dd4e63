//! Lists of objects, of strings and of numbers.

ghost use Rattle.std.specs.Prelude.{◌≡◌, ◌++◌, OnOk};
ghost use Rattle.std.specs.String.{string_bytes};
ghost use Rattle.da_show.specs.JsonTexts.{list_text, root_text, share_text, range_text, absence_text, found_text, entry_text, entry_place_text, cell_text, cell_of_text, length_text, signer_text, blob_end, blob_text};

use super::parts::{put_comma, put_hex, put_name};
use crate::words::{put_number, put_size};
use axis_roots::{Found, Message, NsEntry};
use da_wire::{EntryPlace, FoundPlace};
use namespace_id::{Cell, Digest, Namespace, Share};
use share_split::{Blob, SIGNER_SIZE, Unit};
use std::alloc::{AllocError, Global};

/// Appends a list of roots.
pub(crate) fn put_roots(alloc: Global, out: &mut String, roots: &[Digest]) -> Result<(), AllocError>
    ensures { OnOk result (string_bytes out.new
        ≡ string_bytes out.old ++ list_text root_text roots.now) }
{
    out.push('[')?;
    let mut later = false;
    for root in roots {
        put_comma(out, later)?;
        put_hex(alloc, out, &root.0)?;
        later = true;
    }
    out.push(']')
}

/// Appends a list of the namespaces of shares.
pub(crate) fn put_shares(
    alloc: Global,
    out: &mut String,
    shares: &[Share],
) -> Result<(), AllocError>
    ensures { OnOk result (string_bytes out.new
        ≡ string_bytes out.old ++ list_text share_text shares.now) }
{
    out.push('[')?;
    let mut later = false;
    for share in shares {
        put_comma(out, later)?;
        put_name(alloc, out, &share.namespace())?;
        later = true;
    }
    out.push(']')
}

/// Appends a range by its row, its start and how many shares it has.
#[tactic(auto, unfolding(crate::specs::JsonTexts::range_text))]
fn put_range(out: &mut String, row: u16, start: u16, count: usize) -> Result<(), AllocError>
    ensures { OnOk result (string_bytes out.new
        ≡ string_bytes out.old ++ range_text row start count) }
{
    out.push_str("{\"count\":")?;
    put_size(out, count)?;
    out.push_str(",\"row\":")?;
    put_number(out, row)?;
    out.push_str(",\"start\":")?;
    put_number(out, start)?;
    out.push('}')
}

/// Appends an absence by its row and its column.
#[tactic(auto, unfolding(crate::specs::JsonTexts::absence_text))]
fn put_absence(out: &mut String, row: u16, pos: u16) -> Result<(), AllocError>
    ensures { OnOk result (string_bytes out.new ≡ string_bytes out.old ++ absence_text row pos) }
{
    out.push_str("{\"pos\":")?;
    put_number(out, pos)?;
    out.push_str(",\"row\":")?;
    put_number(out, row)?;
    out.push('}')
}

/// Appends what is found in a row.
fn put_found(out: &mut String, row: u16, found: &Found) -> Result<(), AllocError>
    ensures { OnOk result (string_bytes out.new
        ≡ string_bytes out.old ++ found_text row found.now) }
{
    match found {
        Found::Range { start, shares, .. } => put_range(out, row, *start, shares.list.len()),
        Found::Absence { pos, .. } => put_absence(out, row, *pos),
    }
}

/// Appends a list of the entries of a namespace answer.
pub(crate) fn put_entries(out: &mut String, entries: &[NsEntry]) -> Result<(), AllocError>
    ensures { OnOk result (string_bytes out.new
        ≡ string_bytes out.old ++ list_text entry_text entries.now) }
{
    out.push('[')?;
    let mut later = false;
    for entry in entries {
        put_comma(out, later)?;
        put_found(out, entry.row, &entry.found)?;
        later = true;
    }
    out.push(']')
}

/// Appends where an entry found something.
fn put_place(out: &mut String, entry: &EntryPlace) -> Result<(), AllocError>
    ensures { OnOk result (string_bytes out.new ≡ string_bytes out.old ++ entry_place_text entry.now) }
{
    match entry.found {
        FoundPlace::Range { start, count } => put_range(out, entry.row, start, count as usize),
        FoundPlace::Absence { pos } => put_absence(out, entry.row, pos),
    }
}

/// Appends a list of where entries found something.
pub(crate) fn put_places(out: &mut String, places: &[EntryPlace]) -> Result<(), AllocError>
    ensures { OnOk result (string_bytes out.new
        ≡ string_bytes out.old ++ list_text entry_place_text places.now) }
{
    out.push('[')?;
    let mut later = false;
    for place in places {
        put_comma(out, later)?;
        put_place(out, place)?;
        later = true;
    }
    out.push(']')
}

/// Appends a cell.
#[tactic(auto, unfolding(crate::specs::JsonTexts::pair_text))]
fn put_cell(out: &mut String, cell: Cell) -> Result<(), AllocError>
    ensures { OnOk result (string_bytes out.new ≡ string_bytes out.old ++ cell_text cell) }
{
    out.push('[')?;
    put_number(out, cell.row)?;
    out.push(',')?;
    put_number(out, cell.col)?;
    out.push(']')
}

/// Appends a list of cells.
pub(crate) fn put_cells(out: &mut String, cells: &[Cell]) -> Result<(), AllocError>
    ensures { OnOk result (string_bytes out.new
        ≡ string_bytes out.old ++ list_text cell_text cells.now) }
{
    out.push('[')?;
    let mut later = false;
    for cell in cells {
        put_comma(out, later)?;
        put_cell(out, *cell)?;
        later = true;
    }
    out.push(']')
}

/// Appends a list of the cells of samples.
pub(crate) fn put_message_cells(out: &mut String, messages: &[Message]) -> Result<(), AllocError>
    ensures { OnOk result (string_bytes out.new
        ≡ string_bytes out.old ++ list_text cell_of_text messages.now) }
{
    out.push('[')?;
    let mut later = false;
    for message in messages {
        put_comma(out, later)?;
        put_cell(out, message.cell)?;
        later = true;
    }
    out.push(']')
}

/// Appends a list of the lengths of units.
pub(crate) fn put_lengths(out: &mut String, units: &[Unit]) -> Result<(), AllocError>
    ensures { OnOk result (string_bytes out.new
        ≡ string_bytes out.old ++ list_text length_text units.now) }
{
    out.push('[')?;
    let mut later = false;
    for unit in units {
        put_comma(out, later)?;
        put_size(out, unit.bytes.len())?;
        later = true;
    }
    out.push(']')
}

/// Appends the signer of a blob behind its namespace, if it has one.
fn put_signer(
    alloc: Global,
    out: &mut String,
    signer: &Option<[u8; SIGNER_SIZE]>,
) -> Result<(), AllocError>
    ensures { OnOk result (string_bytes out.new ≡ string_bytes out.old ++ signer_text signer.now) }
{
    match signer {
        Some(signer) => {
            out.push_str(",\"signer\":")?;
            put_hex(alloc, out, signer.as_slice())
        }
        None => Ok(()),
    }
}

/// Appends a blob from its namespace on.
fn put_blob_end(
    alloc: Global,
    out: &mut String,
    name: &Namespace,
    signer: &Option<[u8; SIGNER_SIZE]>,
) -> Result<(), AllocError>
    ensures { OnOk result (string_bytes out.new
        ≡ string_bytes out.old ++ blob_end name.now signer.now) }
{
    out.push_str(",\"namespace\":")?;
    put_name(alloc, out, name)?;
    put_signer(alloc, out, signer)?;
    out.push_str("}")
}

/// Appends a blob: its length, its namespace and its signer, if it has one.
#[tactic(auto, unfolding(crate::specs::JsonTexts::blob_text))]
fn put_blob(alloc: Global, out: &mut String, blob: &Blob) -> Result<(), AllocError>
    ensures { OnOk result (string_bytes out.new ≡ string_bytes out.old ++ blob_text blob.now) }
{
    out.push_str("{\"length\":")?;
    put_size(out, blob.bytes.len())?;
    put_blob_end(alloc, out, &blob.namespace, &blob.signer)
}

/// Appends a list of blobs.
pub(crate) fn put_blobs(alloc: Global, out: &mut String, blobs: &[Blob]) -> Result<(), AllocError>
    ensures { OnOk result (string_bytes out.new
        ≡ string_bytes out.old ++ list_text blob_text blobs.now) }
{
    out.push('[')?;
    let mut later = false;
    for blob in blobs {
        put_comma(out, later)?;
        put_blob(alloc, out, blob)?;
        later = true;
    }
    out.push(']')
}
