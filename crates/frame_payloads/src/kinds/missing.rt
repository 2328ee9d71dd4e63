//! The payload of missing cells.

ghost use Rattle.std.specs.Prelude.{◌≡◌, ◌≤◌, ◌<◌, ◌*◌, length, take, drop, None, Some, IfOk, IfSome, IsTrue, MatchOption, true, ◌+◌, ◌++◌, ◌↔◌, IsSome, false, ◌==◌, vec_capacity};
ghost use Rattle.std.specs.Int.{w16, from_be_bytes};
ghost use Rattle.namespace_id.specs.Cells.{is_width, are_cells};
ghost use Rattle.namespace_id.specs.Answers.{HasCapacity};
ghost use Rattle.frame_fields.specs.Fields.{cells_of};
ghost use Rattle.frame_payloads.specs.kinds.Missing.{is_next, are_next, missing_at, missing_payload};
ghost use Rattle.frame_payloads.specs.Payloads.{GivesUnlessFull, IsSize, IsShort};

use crate::codec::sizes::{CELL_SIZE, COUNT_SIZE, MAX_PAYLOAD, WIDTH_SIZE};
use crate::codec::writing::{append_all, count32};
use frame_fields::{u16_at, u32_at};
use namespace_id::{Cell, Cells, append, is_before, is_in_square, is_width};
use std::alloc::{AllocError, Global};

/// The bytes in front of the cells: a width and a count.
const FRONT_SIZE: usize = WIDTH_SIZE as usize + COUNT_SIZE;

/// The most cells whose payload is within its limit.
const MAX_CELLS: usize = (MAX_PAYLOAD as usize - FRONT_SIZE) / CELL_SIZE;

/// The cell that the first four bytes are.
fn cell_of(bytes: &[u8]) -> Cell
    requires { 4 ≤ length bytes.now }
    ensures row { result.row ≡ from_be_bytes w16 (take 2 bytes.now) }
    ensures col { result.col ≡ from_be_bytes w16 (take 2 (drop 2 bytes.now)) }
{
    Cell {
        row: u16::from_be_bytes([bytes[0], bytes[1]]),
        col: u16::from_be_bytes([bytes[2], bytes[3]]),
    }
}

/// Whether a cell of the square of width k comes after another.
fn is_next(k: u16, before: Cell, cell: Cell) -> bool
    requires { IsTrue (is_width k) }
    ensures { result ≡ is_next k before cell }
{
    is_in_square(k, cell) && is_before(before, cell)
}

/// Whether so many cells, which are all of the bytes, go on after a cell in the square of width k.
fn are_next(k: u16, before: Cell, count: u32, bytes: &[u8]) -> bool
    requires width { IsTrue (is_width k) }
    requires all { length bytes.now ≡ 4 * count }
    ensures { result ≡ are_next k before (cells_of count bytes.now) }
{
    let mut before = before;
    let mut rest = bytes;
    for _ in 0..count {
        let cell = cell_of(rest);
        if !is_next(k, before, cell) {
            return false;
        }
        let (_cell, after) = rest.split_at(CELL_SIZE);
        before = cell;
        rest = after;
    }
    true
}

/// Whether all of the bytes are so many cells of the square of width k, strictly ascending in row-major
/// order. It takes no memory.
fn are_cells(k: u16, count: u32, bytes: &[u8]) -> bool
    requires some { 0 < count }
    requires all { length bytes.now ≡ 4 * count }
    ensures { result ≡ are_cells k (cells_of count bytes.now) }
{
    if !is_width(k) {
        return false;
    }
    let first = cell_of(bytes);
    if !is_in_square(k, first) {
        return false;
    }
    let (_first, rest) = bytes.split_at(CELL_SIZE);
    are_next(k, first, count - 1, rest)
}

/// So many cells, one after another, which are all of the bytes.
fn cells_of(alloc: Global, count: u32, bytes: &[u8]) -> Result<Vec<Cell>, AllocError>
    requires { length bytes.now ≡ 4 * count }
    ensures { IfOk result (λ cells. cells.items ≡ cells_of count bytes.now) }
{
    let mut cells = Vec::with_capacity(alloc, count as usize)?;
    let mut rest = bytes;
    for _ in 0..count {
        let (_cell, after) = rest.split_at(CELL_SIZE);
        cells.push(cell_of(rest))?;
        rest = after;
    }
    Ok(cells)
}

/// The width of a square, the number of its missing cells, and their bytes, of which all are there.
#[tactic(auto, unfolding(crate::specs::kinds::Missing::missing_at))]
fn missing_parts(payload: &[u8]) -> Option<(u16, u32, &[u8])>
    ensures parts { MatchOption result (missing_at payload.now ≡ None)
        (λ x. missing_at payload.now ≡ Some (record { k = x.0; list = cells_of x.1 x.2.now })) }
    ensures cells { IfSome result (λ x. are_cells x.0 (cells_of x.1 x.2.now) ≡ true) }
    ensures all { IfSome result (λ x. length x.2.now ≡ 4 * x.1) }
{
    let (k, rest) = u16_at(payload)?;
    let (count, cells) = u32_at(rest)?;
    if count == 0 || cells.len() != CELL_SIZE * count as usize {
        return None;
    }
    if !are_cells(k, count, cells) {
        return None;
    }
    Some((k, count, cells))
}

/// Whether the bytes are the payload of missing cells. It takes no memory.
pub fn is_missing(payload: &[u8]) -> bool
    ensures { IsTrue result ↔ IsSome (missing_at payload.now) }
{
    missing_parts(payload).is_some()
}

/// The missing cells whose payload the bytes are. No memory is taken before they are known to be some.
pub fn missing(alloc: Global, payload: &[u8]) -> Result<Option<Cells>, AllocError>
    ensures { GivesUnlessFull result (missing_at payload.now) }
{
    let Some((k, count, cells)) = missing_parts(payload) else {
        return Ok(None);
    };
    let list = cells_of(alloc, count, cells)?;
    Ok(Some(Cells { k, list }))
}

/// The length of the payload of missing cells, none where there are none or too many.
#[tactic(auto, using(crate::proofs::Forms::PayloadSizes::missing_sized, crate::proofs::Forms::PayloadSizes::missing_beyond))]
pub fn missing_size(cells: &Cells) -> Option<u32>
    ensures { IsSize (length cells.now.list == 0) (missing_payload cells.now) result }
{
    let count = cells.list.len();
    if count == 0 {
        return None;
    }
    if count > MAX_CELLS {
        return None;
    }
    Some(FRONT_SIZE as u32 + CELL_SIZE as u32 * count as u32)
}

/// Appends the payload of missing cells.
pub fn put_missing(out: &mut Vec<u8>, cells: &Cells)
    requires few { IsShort (missing_payload cells.now) }
    requires capacity { HasCapacity out.old (length (missing_payload cells.now)) }
    ensures appended { out.new.items ≡ out.old.items ++ missing_payload cells.now }
    ensures capacity { vec_capacity out.old ≤ vec_capacity out.new }
{
    append(out, &cells.k.to_be_bytes());
    append(out, &count32(cells.list.len()));
    append_all(out, &cells.list);
}
