//! Data availability headers as messages DataAvailabilityHeader.

ghost use Rattle.std.specs.Prelude.{◌≡◌, ◌↔◌, ℕ, ◌+◌, ◌*◌, ◌≤◌, ◌++◌, ◌==◌, ◌&&◌, length, drop, true, Err, vec_len, vec_capacity, Ok, IfOk, IfErr, IsErrOf};
ghost use Rattle.namespace_id.specs.Answers.{HasCapacity};
ghost use Rattle.namespace_id.specs.Cells.{is_width};
ghost use Rattle.celestia_pb.specs.Reading.{ReadsMessage};
ghost use Rattle.celestia_pb.specs.Digests.{digests_in, entry_size};
ghost use Rattle.celestia_pb.specs.Headers.{dah_text, has_counts, dah_left, dah_value};
ghost use Rattle.celestia_pb.specs.Laws.{DahIsRead, ReadIsDah, DahIsCommon};

use crate::digests::{ENTRY_SIZE, count_digests, digests_in, put_digests};
use crate::errors::PbError;
use data_header::Header;
use namespace_id::{GREATEST_WIDTH, NoMemory, digests_law, is_width};
use std::alloc::Global;

/// The fields of row roots and of column roots.
const ROW_ROOTS: u8 = 1;

const COL_ROOTS: u8 = 2;

/// Whether nothing is left, and these are 2k row roots and 2k column roots for a width k.
fn are_all(rows: usize, cols: usize, rest: &[u8]) -> bool
    requires { rows ≤ 1024 }
    ensures { result ≡ ((length rest.now == 0) && has_counts rows cols) }
{
    let k = rows / 2;
    rest.is_empty() && is_width(k as u16) && rows == 2 * k && cols == rows
}

/// The width of the header that a message is, or how many bytes are left from the first field that is wrong on.
pub(crate) fn dah_width(bytes: &[u8]) -> Result<u16, usize>
    ensures value { ReadsMessage (λ k. record { k = k; rows = digests_in (2 * k) bytes.now; cols = digests_in (2 * k) (drop (entry_size * (2 * k)) bytes.now) })
        result (dah_left bytes.now) }
    ensures size { IfOk result (λ k. entry_size * (4 * k) ≡ length bytes.now) }
    ensures within { IfErr result (λ left. left ≤ length bytes.now) }
{
    let (rows, behind) = count_digests(ROW_ROOTS, 2 * GREATEST_WIDTH as usize, bytes)?;
    let (cols, rest) = count_digests(COL_ROOTS, rows, behind)?;
    if !are_all(rows, cols, rest) {
        return Err(rest.len());
    }
    Ok((rows / 2) as u16)
}

/// The header of this width whose roots lie in these bytes.
pub(crate) fn header_in(alloc: Global, k: u16, bytes: &[u8]) -> Result<Header, NoMemory>
    requires size { entry_size * (4 * k) ≡ length bytes.now }
    requires width { is_width k ≡ true }
    ensures { IfOk result (λ header. header ≡ record { k = k; rows = digests_in (2 * k) bytes.now; cols = digests_in (2 * k) (drop (entry_size * (2 * k)) bytes.now) }) }
{
    let count = 2 * k as usize;
    let rows = digests_in(alloc, count, bytes)?;
    let cols = digests_in(alloc, count, &bytes[ENTRY_SIZE * count..])?;
    Ok(Header { k, rows, cols })
}

/// The header that a message DataAvailabilityHeader is. It has 2k row roots and then 2k column roots, from the first row and
/// the first column on.
///
/// Refuses bytes that aren't the one spelling of a header, with the offset of the first field that is wrong: a root that isn't in
/// its one spelling or hasn't 90 bytes; a field other than a root, a row root behind a column root, a row root behind
/// 1,024, and a column root that has no row root. Then numbers of roots that aren't 2k and 2k for a width k, with the
/// offset of the end. It takes memory once all bytes are known to be right.
///
/// Celestia specifications, "Data Structures", available data header; protobuf, "Encoding"; docs/RULES.md, "Celestia's
/// messages".
pub fn read_dah(alloc: Global, bytes: &[u8]) -> Result<Header, PbError>
    ensures header { IfOk result (λ header. dah_value bytes.now ≡ Ok header) }
    ensures at { (at : ℕ) → IsErrOf result (PbError.At at) ↔ (dah_value bytes.now ≡ Err at) }
{
    match dah_width(bytes) {
        Ok(k) => Ok(header_in(alloc, k, bytes)?),
        Err(left) => Err(PbError::at(bytes, left)),
    }
}

/// How many bytes `put_dah` appends: 368 for each k.
pub fn dah_size(header: &Header) -> usize
    ensures { result ≡ length (dah_text header.now) }
{
    digests_law(&header.rows);
    digests_law(&header.cols);
    4 * ENTRY_SIZE * header.k as usize
}

/// Appends the message of a header for which there is capacity (`dah_size`).
///
/// Celestia specifications, "Data Structures", available data header; protobuf, "Encoding".
pub fn put_dah(header: &Header, out: &mut Vec<u8>)
    requires capacity { HasCapacity out.old (length (dah_text header.now)) }
    ensures appended { out.new.items ≡ out.old.items ++ dah_text header.now }
    ensures len { vec_len out.new ≡ vec_len out.old + length (dah_text header.now) }
    ensures capacity { vec_capacity out.old ≤ vec_capacity out.new }
{
    put_digests(ROW_ROOTS, &header.rows, out);
    put_digests(COL_ROOTS, &header.cols, out);
}

/// The laws of the messages of headers. It changes nothing.
pub fn dah_laws()
    ensures read { DahIsRead }
    ensures spelled { ReadIsDah }
    ensures common { DahIsCommon }
{}
