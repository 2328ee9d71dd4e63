//! Lines of lists, one for each element, each behind a line feed.

ghost use Rattle.std.specs.Prelude.{◌≡◌, ◌++◌, map, OnOk};
ghost use Rattle.std.specs.String.{string_bytes};
ghost use Rattle.da_show.specs.Parts.{axis_word};
ghost use Rattle.da_show.specs.Text.{following, numbered_lines, axis_root_line, share_line, message_line, entry_line, place_line, cell_line, unit_line, block_blob_line};

use super::lines::{
    put_blob, put_cell, put_found, put_message, put_place_line, put_root, put_share, put_unit,
};
use axis_roots::{Message, NsEntry};
use da_wire::EntryPlace;
use namespace_id::{Axis, Cell, Digest, Share};
use share_split::{Blob, Unit};
use std::alloc::{AllocError, Global};

/// The roots of the axes of a kind.
pub(crate) fn put_roots(
    alloc: Global,
    out: &mut String,
    axis: Axis,
    roots: &[Digest],
) -> Result<(), AllocError>
    ensures { OnOk result (string_bytes out.new ≡ string_bytes out.old
        ++ following (numbered_lines (axis_root_line (axis_word axis)) 0 roots.now)) }
{
    for i in 0..roots.len() {
        out.push('\n')?;
        put_root(alloc, out, axis, i, &roots[i])?;
    }
    Ok(())
}

/// Shares.
pub(crate) fn put_shares(
    alloc: Global,
    out: &mut String,
    shares: &[Share],
) -> Result<(), AllocError>
    ensures { OnOk result (string_bytes out.new ≡ string_bytes out.old
        ++ following (numbered_lines share_line 0 shares.now)) }
{
    for i in 0..shares.len() {
        out.push('\n')?;
        put_share(alloc, out, i, &shares[i])?;
    }
    Ok(())
}

/// Samples.
pub(crate) fn put_messages(
    alloc: Global,
    out: &mut String,
    messages: &[Message],
) -> Result<(), AllocError>
    ensures { OnOk result (string_bytes out.new ≡ string_bytes out.old
        ++ following (map message_line messages.now)) }
{
    for message in messages {
        out.push('\n')?;
        put_message(alloc, out, message)?;
    }
    Ok(())
}

/// The entries of a namespace answer.
pub(crate) fn put_entries(out: &mut String, entries: &[NsEntry]) -> Result<(), AllocError>
    ensures { OnOk result (string_bytes out.new ≡ string_bytes out.old
        ++ following (map entry_line entries.now)) }
{
    for entry in entries {
        out.push('\n')?;
        put_found(out, entry.row, &entry.found)?;
    }
    Ok(())
}

/// Where the entries of a namespace answer found something.
pub(crate) fn put_places(out: &mut String, places: &[EntryPlace]) -> Result<(), AllocError>
    ensures { OnOk result (string_bytes out.new ≡ string_bytes out.old
        ++ following (map place_line places.now)) }
{
    for place in places {
        out.push('\n')?;
        put_place_line(out, place)?;
    }
    Ok(())
}

/// Cells.
pub(crate) fn put_cells(out: &mut String, cells: &[Cell]) -> Result<(), AllocError>
    ensures { OnOk result (string_bytes out.new ≡ string_bytes out.old
        ++ following (map cell_line cells.now)) }
{
    for cell in cells {
        out.push('\n')?;
        put_cell(out, *cell)?;
    }
    Ok(())
}

/// Units behind a word that says of which kind they are.
pub(crate) fn put_units(out: &mut String, word: &str, units: &[Unit]) -> Result<(), AllocError>
    ensures { OnOk result (string_bytes out.new ≡ string_bytes out.old
        ++ following (map (unit_line word.now) units.now)) }
{
    for unit in units {
        out.push('\n')?;
        put_unit(out, word, unit)?;
    }
    Ok(())
}

/// Blobs.
pub(crate) fn put_blobs(alloc: Global, out: &mut String, blobs: &[Blob]) -> Result<(), AllocError>
    ensures { OnOk result (string_bytes out.new ≡ string_bytes out.old
        ++ following (map block_blob_line blobs.now)) }
{
    for blob in blobs {
        out.push('\n')?;
        put_blob(alloc, out, blob)?;
    }
    Ok(())
}
