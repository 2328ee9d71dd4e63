//! Samples that are those of a whole row, and the left half of the row.

ghost use Rattle.std.specs.Prelude.{◌≡◌, ◌<◌, ◌∷◌, [], length, IfOk, IfSome, MatchOption, vec_len};
ghost use Rattle.da_wire.specs.Single.{message_of};
ghost use Rattle.da_exchanging.specs.LeftHalf.{file_samples, is_at, shares_along, list_there, row_named, left_half_of, half_of};

use axis_roots::{Message, is_along};
use celestia_pb::{HalfRow, Side};
use da_wire::{Frame, next_value};
use namespace_id::{Axis, GREATEST_WIDTH, NoMemory, Share, is_width};
use std::alloc::Global;

/// The most shares of a half.
const MOST_SHARES: usize = GREATEST_WIDTH as usize;

/// The sample that a frame is.
fn message_of(frame: Frame) -> Option<Message>
    ensures { result ≡ message_of frame }
{
    match frame {
        Frame::Message(message) => Some(message),
        other => {
            drop(other);
            None
        }
    }
}

/// The sample at the front of a list of samples, and the bytes after it.
#[tactic(auto, using(crate::proofs::LeftHalfLemmas::message_there, crate::proofs::LeftHalfLemmas::first_sample))]
fn next_sample(alloc: Global, bytes: &[u8]) -> Result<Option<(Message, &[u8])>, NoMemory>
    ensures samples { IfOk result (λ found. MatchOption found (file_samples bytes.now ≡ [])
        (λ x. file_samples bytes.now ≡ x.0 ∷ file_samples x.1.now)) }
    ensures shorter { IfOk result (λ found. IfSome found (λ x. length x.1.now < length bytes.now)) }
{
    let Ok(found) = next_value(alloc, bytes, b"M") else {
        return Err(NoMemory);
    };
    let Some((frame, after)) = found else {
        return Ok(None);
    };
    let Some(message) = message_of(frame) else {
        // Never taken: the frame is of the one kind that was asked for.
        unreachable!();
    };
    Ok(Some((message, after)))
}

/// Whether a sample is that of this cell along its row.
fn is_at(row: u16, col: u64, message: &Message) -> bool
    ensures { result ≡ is_at row col message.now }
{
    is_along(Axis::Row, message) && message.cell.row == row && u64::from(message.cell.col) == col
}

/// The row that the first sample is of, 0 where there is none.
fn row_named(alloc: Global, bytes: &[u8]) -> Result<u16, NoMemory>
    ensures { IfOk result (λ row. row ≡ row_named (file_samples bytes.now)) }
{
    match next_sample(alloc, bytes)? {
        Some((message, _after)) => Ok(message.cell.row),
        None => Ok(0),
    }
}

/// The shares of samples of a row, from column 0; none where one isn't that of the next column.
fn shares_along(alloc: Global, row: u16, bytes: &[u8]) -> Result<Option<Vec<Share>>, NoMemory>
    ensures { IfOk result (λ found. list_there found ≡ shares_along row 0 (file_samples bytes.now)) }
{
    let mut shares = Vec::new(alloc);
    let mut rest = bytes;
    let mut col = 0;
    loop {
        let Some((message, after)) = next_sample(alloc, rest)? else {
            return Ok(Some(shares));
        };
        if !is_at(row, col, &message) {
            return Ok(None);
        }
        let Ok(()) = shares.push(message.share) else {
            return Err(NoMemory);
        };
        col += 1;
        rest = after;
    }
}

/// The left half of these shares of a row, where they are 2k for a width k, and the row is below 2k.
fn left_half(row: u16, mut shares: Vec<Share>) -> Option<HalfRow>
    ensures { result ≡ left_half_of row shares.items }
{
    let k = shares.len() / 2;
    if row as usize >= shares.len()
        || k > MOST_SHARES
        || !is_width(k as u16)
        || shares.len() != 2 * k
    {
        return None;
    }
    shares.truncate(k);
    Some(HalfRow {
        side: Side::Left,
        shares,
    })
}

/// The left half of the row of which the samples of a file are all, from column 0.
pub(crate) fn half_in(alloc: Global, bytes: &[u8]) -> Result<Option<HalfRow>, NoMemory>
    ensures { IfOk result (λ half. half ≡ half_of (file_samples bytes.now)) }
{
    let row = row_named(alloc, bytes)?;
    let Some(shares) = shares_along(alloc, row, bytes)? else {
        return Ok(None);
    };
    Ok(left_half(row, shares))
}
