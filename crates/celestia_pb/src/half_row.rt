//! Half rows as messages Row.

ghost use Rattle.std.specs.Prelude.{◌≡◌, ◌↔◌, ℕ, ◌+◌, ◌*◌, ◌≤◌, ◌++◌, ◌==◌, ◌&&◌, length, true, drop, Err, vec_len, vec_capacity, Ok, IfOk, IfErr, IsErrOf};
ghost use Rattle.namespace_id.specs.Answers.{Gives, HasCapacity};
ghost use Rattle.namespace_id.specs.Cells.{is_width};
ghost use Rattle.celestia_pb.specs.Reading.{ReadsMessage};
ghost use Rattle.celestia_pb.specs.RowShares.{tagged_shares};
ghost use Rattle.celestia_pb.specs.HalfRows.{HalfParts, IsHalf, side_number, half_row_text, side_at, half_row_left, half_row_value, HalfRowIsRead, ReadIsHalfRow, HalfRowIsCommon};

use crate::entries::{number_size, part_size};
use crate::errors::PbError;
use crate::row_shares::{count_shares, put_shares, shares_in};
use crate::sample::{DATA, SHARE};
use namespace_id::{NoMemory, SHARE_SIZE, Share, is_width, shares_law};
use proto_fields::{canonical_number, put_canonical_number};
use std::alloc::Global;
use std::marker::Model;

/// The field of the side; that of a share is `SHARE`.
const SIDE: u8 = 2;

/// A half of a row of an extended square: its original shares, or its recovery shares.
#[derive(Clone, Copy, Debug, PartialEq, Eq)]
pub enum Side {
    Left,
    Right,
}

/// Half a row as a node answers it: which half, and its k shares. Of which row, only the request says. Its type keeps that k is a
/// width.
///
/// CIP-19, "Row".
#[derive(Debug, Drop)]
pub struct HalfRow {
    pub side: Side,
    pub shares: Vec<Share>,
}

impl Model for HalfRow {
    ghost use Rattle.celestia_pb.specs.HalfRows.{HalfParts, IsHalf};

    ghost Value = { HalfParts };

    ghost view = { λ h. record { side = h.side; shares = h.shares.items } };

    ghost invariant = { λ h. IsHalf (record { side = h.side; shares = h.shares.items }) };
}

/// The side at the front, and the bytes after it.
fn side_at(bytes: &[u8]) -> Option<(Side, &[u8])>
    ensures { Gives (λ x. (x.0, x.1.now)) result (side_at bytes.now) }
{
    let (number, rest) = canonical_number(SIDE, bytes)?;
    match number {
        0 => Some((Side::Left, rest)),
        1 => Some((Side::Right, rest)),
        _ => None,
    }
}

/// Whether nothing is left, and these are k shares for a width k.
fn are_all(count: usize, rest: &[u8]) -> bool
    requires { count ≤ 512 }
    ensures { result ≡ ((length rest.now == 0) && is_width count) }
{
    rest.is_empty() && is_width(count as u16)
}

/// The side of the half row that a message is and the number of its shares, or how many bytes are left from the first field that
/// is wrong on.
fn half_row_parts(bytes: &[u8]) -> Result<(Side, usize), usize>
    ensures value { ReadsMessage (λ x. record { side = x.0; shares = tagged_shares x.1 bytes.now }) result (half_row_left bytes.now) }
    ensures size { IfOk result (λ x. 518 * x.1 ≤ length bytes.now) }
    ensures width { IfOk result (λ x. is_width x.1 ≡ true) }
{
    let (count, behind) = count_shares(bytes)?;
    let Some((side, rest)) = side_at(behind) else {
        return Err(behind.len());
    };
    if !are_all(count, rest) {
        return Err(rest.len());
    }
    Ok((side, count))
}

/// The half row whose shares lie in these bytes.
fn half_row_in(alloc: Global, side: Side, count: usize, bytes: &[u8]) -> Result<HalfRow, NoMemory>
    requires size { 518 * count ≤ length bytes.now }
    requires width { is_width count ≡ true }
    ensures { IfOk result (λ half. half ≡ record { side = side; shares = tagged_shares count bytes.now }) }
{
    let shares = shares_in(alloc, count, bytes)?;
    Ok(HalfRow { side, shares })
}

/// The half row that a message Row is: k shares, which are the original ones where the side is 0 and isn't spelled, and the recovery
/// shares where it is 1.
///
/// Refuses bytes that aren't the one spelling of a half row, with the offset of the first field that is wrong: a share that isn't in
/// its one spelling or of another length than 512, one behind the 512th, a side other than 0 and 1 or one that is 0 and spelled, and
/// any other field. Then a number of shares that is no width, none too, with the offset of the end. It takes memory once, when all
/// bytes are known to be right. Whether a row of a header has these shares is for a check.
///
/// CIP-19, "Row"; protobuf, "Encoding"; docs/RULES.md, "Celestia's messages".
pub fn read_half_row(alloc: Global, bytes: &[u8]) -> Result<HalfRow, PbError>
    ensures half { IfOk result (λ half. half_row_value bytes.now ≡ Ok half) }
    ensures at { (at : ℕ) → IsErrOf result (PbError.At at) ↔ (half_row_value bytes.now ≡ Err at) }
{
    match half_row_parts(bytes) {
        Ok((side, count)) => Ok(half_row_in(alloc, side, count, bytes)?),
        Err(left) => Err(PbError::at(bytes, left)),
    }
}

/// The number of a side.
fn side_number(side: Side) -> u64
    ensures { result ≡ side_number side }
{
    match side {
        Side::Left => 0,
        Side::Right => 1,
    }
}

/// How many bytes `put_half_row` appends: 518 for each share, and 2 of a right half.
pub fn half_row_size(half: &HalfRow) -> usize
    ensures { result ≡ length (half_row_text half.now) }
{
    shares_law(&half.shares);
    let share = part_size(SHARE, part_size(DATA, SHARE_SIZE));
    half.shares.len() * share + number_size(SIDE, side_number(half.side))
}

/// Appends the message of a half row for which there is capacity (`half_row_size`).
///
/// CIP-19, "Row"; protobuf, "Encoding".
pub fn put_half_row(half: &HalfRow, out: &mut Vec<u8>)
    requires capacity { HasCapacity out.old (length (half_row_text half.now)) }
    ensures appended { out.new.items ≡ out.old.items ++ half_row_text half.now }
    ensures len { vec_len out.new ≡ vec_len out.old + length (half_row_text half.now) }
    ensures capacity { vec_capacity out.old ≤ vec_capacity out.new }
{
    put_shares(&half.shares, out);
    put_canonical_number(SIDE, side_number(half.side), out);
}

/// The laws of the messages of half rows. It changes nothing. `sample_laws` says what the message of a share is.
pub fn half_row_laws()
    ensures read { HalfRowIsRead }
    ensures spelled { ReadIsHalfRow }
    ensures common { HalfRowIsCommon }
{}
