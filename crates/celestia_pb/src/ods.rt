//! Original squares as their shares alone.

ghost use Rattle.std.specs.Prelude.{◌≡◌, ◌↔◌, ℕ, ◌+◌, ◌*◌, ◌≤◌, ◌++◌, length, true, vec_len, vec_capacity, Ok, Err, IfOk, IfSome, IsErrOf};
ghost use Rattle.namespace_id.specs.Answers.{Gives, HasCapacity};
ghost use Rattle.namespace_id.specs.Cells.{is_width};
ghost use Rattle.namespace_id.specs.Sizes.{share_size, most_shares};
ghost use Rattle.celestia_pb.specs.Reading.{ReadsMessage};
ghost use Rattle.celestia_pb.specs.ShareLists.{shares_behind};
ghost use Rattle.celestia_pb.specs.Ods.{ods_text, least_width, square_width, ods_value, OdsIsRead, ReadIsOds};

use crate::errors::PbError;
use crate::share_lists::{put_shares, shares_behind};
use namespace_id::{MOST_SHARES, NoMemory, SHARE_SIZE, shares_law};
use square_layout::Square;
use std::alloc::Global;

/// The width of the least square that holds so many shares.
fn least_width(count: usize) -> u16
    requires { count ≤ most_shares }
    ensures value { result ≡ least_width count }
    ensures width { is_width result ≡ true }
{
    let mut k: u16 = 1;
    while count > k as usize * k as usize {
        k *= 2;
    }
    k
}

/// The width of the square that has so many shares.
fn square_width(count: usize) -> Option<u16>
    requires { count ≤ most_shares }
    ensures value { Gives (λ k. k) result (square_width count) }
    ensures width { IfSome result (λ k. is_width k ≡ true) }
    ensures full { IfSome result (λ k. k * k ≡ count) }
{
    let k = least_width(count);
    if k as usize * k as usize != count {
        return None;
    }
    Some(k)
}

/// The width of the square that bytes are, or the offset of what is wrong.
fn ods_width(bytes: &[u8]) -> Result<u16, usize>
    ensures value { ReadsMessage (λ k. record { k = k; shares = shares_behind 0 (k * k) bytes.now }) result (ods_value bytes.now) }
    ensures width { IfOk result (λ k. is_width k ≡ true) }
    ensures size { IfOk result (λ k. share_size * (k * k) ≡ length bytes.now) }
{
    let most = SHARE_SIZE * MOST_SHARES as usize;
    if bytes.len() > most {
        return Err(most);
    }
    let count = bytes.len() / SHARE_SIZE;
    if bytes.len() % SHARE_SIZE != 0 {
        return Err(SHARE_SIZE * count);
    }
    let Some(k) = square_width(count) else {
        return Err(bytes.len());
    };
    Ok(k)
}

/// The square of this width whose shares these bytes are.
fn square_in(alloc: Global, k: u16, bytes: &[u8]) -> Result<Square, NoMemory>
    requires width { is_width k ≡ true }
    requires size { share_size * (k * k) ≡ length bytes.now }
    ensures { IfOk result (λ square. square ≡ record { k = k; shares = shares_behind 0 (k * k) bytes.now }) }
{
    let shares = shares_behind(alloc, 0, k as usize * k as usize, bytes)?;
    Ok(Square { k, shares })
}

/// The original square that bytes are: its k * k shares, row by row, and nothing else. Its width isn't in the bytes: it is known
/// by how many they are.
///
/// Refuses more bytes than the shares of the widest square have, with the offset of the first share that is too many, 134,217,728;
/// then bytes that run out in a share, with the offset of this share; then a number of shares that isn't k * k for a width k, none
/// too, with the offset of the end. It takes memory once, when all bytes are known to be right.
///
/// Celestia specifications, "Data Structures"; docs/RULES.md, "Celestia's messages".
pub fn read_ods(alloc: Global, bytes: &[u8]) -> Result<Square, PbError>
    ensures square { IfOk result (λ square. ods_value bytes.now ≡ Ok square) }
    ensures at { (at : ℕ) → IsErrOf result (PbError.At at) ↔ (ods_value bytes.now ≡ Err at) }
{
    match ods_width(bytes) {
        Ok(k) => Ok(square_in(alloc, k, bytes)?),
        Err(at) => Err(PbError::At(at as u64)),
    }
}

/// How many bytes `put_ods` appends: 512 for each of the k * k shares.
pub fn ods_size(square: &Square) -> usize
    ensures { result ≡ length (ods_text square.now) }
{
    shares_law(&square.shares);
    SHARE_SIZE * (square.k as usize * square.k as usize)
}

/// Appends the shares of a square for which there is capacity (`ods_size`), row by row.
///
/// Celestia specifications, "Data Structures".
pub fn put_ods(square: &Square, out: &mut Vec<u8>)
    requires capacity { HasCapacity out.old (length (ods_text square.now)) }
    ensures appended { out.new.items ≡ out.old.items ++ ods_text square.now }
    ensures len { vec_len out.new ≡ vec_len out.old + length (ods_text square.now) }
    ensures capacity { vec_capacity out.old ≤ vec_capacity out.new }
{
    put_shares(&square.shares, out);
}

/// The laws of squares as their shares alone. It changes nothing.
pub fn ods_laws()
    ensures read { OdsIsRead }
    ensures spelled { ReadIsOds }
{}
