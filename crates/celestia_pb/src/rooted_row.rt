//! The message RowProof of one row: its root, and the plain Merkle proof of that under the data root.

ghost use Rattle.std.specs.Prelude.{◌≡◌, ◌==◌, ◌&&◌, ◌/◌, ◌*◌, ◌≤◌, ◌<◌, ◌^◌, ◌+◌, ◌++◌, true, length, vec_len, vec_capacity, IfOk, IfErr};
ghost use Rattle.namespace_id.specs.Answers.{HasCapacity};
ghost use Rattle.namespace_id.specs.Cells.{is_width};
ghost use Rattle.data_header.specs.Paths.{most_hashes};
ghost use Rattle.proto_fields.specs.Spelled.{bytes_field};
ghost use Rattle.celestia_pb.specs.Reading.{ReadsMessage};
ghost use Rattle.celestia_pb.specs.Messages.{number_left, optional_message};
ghost use Rattle.celestia_pb.specs.Digests.{digest_field};
ghost use Rattle.celestia_pb.specs.Inclusions.{is_place_stated};
ghost use Rattle.celestia_pb.specs.Aunts.{optional_at};
ghost use Rattle.celestia_pb.specs.RootedRows.{has_column, has_names, is_total, is_row, may_total, may_row, is_leaf, leaf_at, row_path_end, row_path_left, row_in, rooted_end, rooted_row_left};
ghost use Rattle.celestia_pb.specs.ShareProofs.{path_part, row_part};

use crate::aunts::{HASH_ENTRY_SIZE, aunts_at, put_aunts};
use crate::entries::{number_size, part_size, put_entry, put_front};
use crate::inclusions::is_start;
use crate::messages::{number_at, part_at};
use blob_commit::{RootedMessage, rooted_law};
use data_header::{RootPath, leaf_hash};
use namespace_id::{DIGEST_SIZE, Digest, GREATEST_WIDTH, HASH_SIZE, is_width};
use proto_fields::{begins_part, put_canonical_number};

/// The fields of the root and of its path, and those of the first and of the last row.
const ROOT: u8 = 1;

const PATH: u8 = 2;

const FIRST: u8 = 4;

const LAST: u8 = 5;

/// The fields of a path: the number of roots, the row, the hash of the leaf, and those that lead upwards.
const TOTAL: u8 = 1;

const INDEX: u8 = 2;

const LEAF: u8 = 3;

const AUNTS: u8 = 4;

/// What is told of the share before its row: its column, and whether its namespace may be its own, and that of parity shares.
#[derive(Clone, Copy)]
pub(crate) struct ShareFacts {
    pub col: u16,
    pub own: bool,
    pub parity: bool,
}

/// A row of a square of width `k`, and the hashes that lead from its root to the data root.
#[derive(Drop)]
pub(crate) struct RowPath {
    pub k: u16,
    pub row: u16,
    pub up: RootPath,
}

/// A row with its root.
#[derive(Drop)]
pub(crate) struct RootedRow {
    pub root: Digest,
    pub path: RowPath,
}

/// Whether a square of width `k` has the column, and it may have the namespace there.
fn has_column(told: Option<ShareFacts>, k: u64) -> bool
    requires { k < 2 ^ 62 }
    ensures { result ≡ has_column told k }
{
    let Some(told) = told else {
        return true;
    };
    let col = u64::from(told.col);
    col < 2 * k && (col < k || told.parity)
}

/// Whether the leaf in a row may have the namespace.
fn has_names(told: Option<ShareFacts>, k: u64, row: u64) -> bool
    ensures { result ≡ has_names told k row }
{
    let Some(told) = told else {
        return true;
    };
    if row < k && u64::from(told.col) < k {
        told.own
    } else {
        told.parity
    }
}

/// Whether a number is a width.
fn is_any_width(k: u64) -> bool
    ensures value { result ≡ is_width k }
    ensures few { result ≡ true → k ≤ 512 }
{
    if k > u64::from(GREATEST_WIDTH) {
        return false;
    }
    is_width(k as u16)
}

/// Whether a number is that of the roots of a square that has the column.
fn is_total(told: Option<ShareFacts>, total: u64) -> bool
    ensures value { result ≡ is_total told total }
    ensures few { result ≡ true → total / 4 ≤ 512 }
{
    let k = total / 4;
    is_any_width(k) && total == 4 * k && has_column(told, k)
}

/// Whether a number is a row of the square of so many roots, where the leaf may have the namespace.
fn is_row(told: Option<ShareFacts>, total: u64, row: u64) -> bool
    ensures value { result ≡ is_row told total row }
    ensures few { result ≡ true → row < 2 * (total / 4) }
{
    let k = total / 4;
    row < 2 * k && has_names(told, k, row)
}

/// The number of roots at the front, and the bytes after it; where it is wrong, how many bytes are left.
fn total_at(told: Option<ShareFacts>, bytes: &[u8]) -> Result<(u64, &[u8]), usize>
    ensures value { ReadsMessage (λ x. (x.0, x.1.now)) result (number_left (may_total told) 1 bytes.now) }
    ensures shorter { IfOk result (λ x. length x.1.now ≤ length bytes.now) }
    ensures within { IfErr result (λ left. left ≤ length bytes.now) }
{
    let (total, rest) = number_at(TOTAL, bytes)?;
    if total != 0 && !is_total(told, total) {
        return Err(bytes.len());
    }
    Ok((total, rest))
}

/// The row at the front, and the bytes after it; where it is wrong, how many bytes are left.
fn row_at(told: Option<ShareFacts>, total: u64, bytes: &[u8]) -> Result<(u64, &[u8]), usize>
    ensures value { ReadsMessage (λ x. (x.0, x.1.now)) result (number_left (may_row told total) 2 bytes.now) }
    ensures shorter { IfOk result (λ x. length x.1.now ≤ length bytes.now) }
    ensures within { IfErr result (λ left. left ≤ length bytes.now) }
{
    let (row, rest) = number_at(INDEX, bytes)?;
    if row != 0 && total != 0 && !is_row(told, total, row) {
        return Err(bytes.len());
    }
    Ok((row, rest))
}

/// Whether bytes are the hash of the leaf of this root; where that isn't known, whether they are a hash.
fn is_leaf(root: Option<Digest>, bytes: &[u8]) -> bool
    ensures { result ≡ is_leaf root bytes.now }
{
    let Some(root) = root else {
        return bytes.len() == HASH_SIZE;
    };
    let hash = leaf_hash(&root);
    bytes == &hash[..]
}

/// Whether the hash of the leaf is at the front, and the bytes after it; where another one is, how many bytes are left.
fn leaf_at(root: Option<Digest>, bytes: &[u8]) -> Result<(Option<bool>, &[u8]), usize>
    ensures value { ReadsMessage (λ x. (x.0, x.1.now)) result (optional_at (leaf_at root) 3 bytes.now) }
    ensures shorter { IfOk result (λ x. length x.1.now ≤ length bytes.now) }
    ensures within { IfErr result (λ left. left ≤ length bytes.now) }
{
    if !begins_part(LEAF, bytes) {
        return Ok((None, bytes));
    }
    let Some((part, rest)) = part_at(LEAF, bytes) else {
        return Err(bytes.len());
    };
    if !is_leaf(root, part) {
        return Err(bytes.len());
    }
    Ok((Some(true), rest))
}

/// Whether nothing is left, and these are the number of roots and the row of a path.
fn is_path(told: Option<ShareFacts>, total: u64, row: u64, rest: &[u8]) -> bool
    ensures value { result ≡ ((length rest.now == 0) && (is_total told total && is_row told total row)) }
    ensures few { result ≡ true → (total / 4 < 2 ^ 16) × (row < 2 ^ 16) }
{
    rest.is_empty() && is_total(told, total) && is_row(told, total, row)
}

/// The path that a message is, by what is told and by the root in front of it; where a field is wrong, how many bytes are left
/// from it on.
fn row_path_in(
    told: Option<ShareFacts>,
    root: Option<Digest>,
    bytes: &[u8],
) -> Result<RowPath, usize>
    ensures value { ReadsMessage (λ path. path) result (row_path_left told root bytes.now) }
    ensures within { IfErr result (λ left. left ≤ length bytes.now) }
{
    let (total, behind) = total_at(told, bytes)?;
    let (row, after) = row_at(told, total, behind)?;
    let (leaf, aunts) = leaf_at(root, after)?;
    let (up, rest) = aunts_at(AUNTS, aunts)?;
    if leaf.is_none() || !is_path(told, total, row, rest) {
        return Err(rest.len());
    }
    Ok(RowPath {
        k: (total / 4) as u16,
        row: row as u16,
        up,
    })
}

/// The path in a field that may be at the front, and the bytes after it; where it is wrong, how many bytes are left.
fn path_at(
    told: Option<ShareFacts>,
    root: Option<Digest>,
    bytes: &[u8],
) -> Result<(Option<RowPath>, &[u8]), usize>
    ensures value { ReadsMessage (λ x. (x.0, x.1.now)) result (optional_message (λ rest part. row_path_left told root part) 2 bytes.now) }
    ensures shorter { IfOk result (λ x. length x.1.now ≤ length bytes.now) }
    ensures within { IfErr result (λ left. left ≤ length bytes.now) }
{
    if !begins_part(PATH, bytes) {
        return Ok((None, bytes));
    }
    let Some((part, rest)) = part_at(PATH, bytes) else {
        return Err(bytes.len());
    };
    match row_path_in(told, root, part) {
        Ok(path) => Ok((Some(path), rest)),
        Err(left) => Err(left + rest.len()),
    }
}

/// The root at the front, if one is there, and the bytes after it; where it is wrong, how many bytes are left.
fn root_at(bytes: &[u8]) -> Result<(Option<Digest>, &[u8]), usize>
    ensures value { ReadsMessage (λ x. (x.0, x.1.now)) result (optional_at (digest_field 1) 1 bytes.now) }
    ensures shorter { IfOk result (λ x. length x.1.now ≤ length bytes.now) }
    ensures within { IfErr result (λ left. left ≤ length bytes.now) }
{
    if !begins_part(ROOT, bytes) {
        return Ok((None, bytes));
    }
    let Some((part, rest)) = part_at(ROOT, bytes) else {
        return Err(bytes.len());
    };
    if part.len() != DIGEST_SIZE {
        return Err(bytes.len());
    }
    let mut root = Digest([0; DIGEST_SIZE]);
    root.0.copy_from_slice(part);
    Ok((Some(root), rest))
}

/// A number that may be wanted at the front, and the bytes after it; where it is another one, how many bytes are left.
pub(crate) fn wanted_at(
    number: u8,
    wanted: Option<u64>,
    bytes: &[u8],
) -> Result<(u64, &[u8]), usize>
    requires { number < 16 }
    ensures value { ReadsMessage (λ x. (x.0, x.1.now)) result (number_left (is_place_stated wanted) number bytes.now) }
    ensures shorter { IfOk result (λ x. length x.1.now ≤ length bytes.now) }
    ensures within { IfErr result (λ left. left ≤ length bytes.now) }
{
    let (value, rest) = number_at(number, bytes)?;
    if !is_start(wanted, value) {
        return Err(bytes.len());
    }
    Ok((value, rest))
}

/// The row of a path.
fn row_in(path: &Option<RowPath>) -> Option<u64>
    ensures { result ≡ row_in path.now }
{
    match path {
        Some(path) => Some(u64::from(path.row)),
        None => None,
    }
}

/// The row of these, where all are there and nothing is left; else how many bytes are.
fn rooted_end(
    root: Option<Digest>,
    path: Option<RowPath>,
    first: u64,
    last: u64,
    rest: &[u8],
) -> Result<RootedRow, usize>
    ensures value { ReadsMessage (λ row. row) result (rooted_end root path first last rest.now) }
    ensures within { IfErr result (λ left. left ≤ length rest.now) }
{
    let (Some(root), Some(path)) = (root, path) else {
        return Err(rest.len());
    };
    let row = u64::from(path.row);
    if !rest.is_empty() || first != row || last != row {
        return Err(rest.len());
    }
    Ok(RootedRow { root, path })
}

/// The row that a message is, by what is told; where a field is wrong, how many bytes are left from it on.
fn rooted_row_in(told: Option<ShareFacts>, bytes: &[u8]) -> Result<RootedRow, usize>
    ensures value { ReadsMessage (λ row. row) result (rooted_row_left told bytes.now) }
    ensures within { IfErr result (λ left. left ≤ length bytes.now) }
{
    let (root, behind) = root_at(bytes)?;
    let (path, after) = path_at(told, root, behind)?;
    let row = row_in(&path);
    let (first, more) = wanted_at(FIRST, row, after)?;
    let (last, rest) = wanted_at(LAST, row, more)?;
    rooted_end(root, path, first, last, rest)
}

/// The row in a field of this number that may be at the front, and the bytes after it; where it is wrong, how many bytes are
/// left.
pub(crate) fn rooted_row_at(
    number: u8,
    told: Option<ShareFacts>,
    bytes: &[u8],
) -> Result<(Option<RootedRow>, &[u8]), usize>
    requires { number < 16 }
    ensures value { ReadsMessage (λ x. (x.0, x.1.now)) result (optional_message (λ rest part. rooted_row_left told part) number bytes.now) }
{
    if !begins_part(number, bytes) {
        return Ok((None, bytes));
    }
    let Some((part, rest)) = part_at(number, bytes) else {
        return Err(bytes.len());
    };
    match rooted_row_in(told, part) {
        Ok(row) => Ok((Some(row), rest)),
        Err(left) => Err(left + rest.len()),
    }
}

/// How many roots a header of width `k` has.
fn root_count(k: u16) -> u64
    ensures { result ≡ 4 * k }
{
    4 * u64::from(k)
}

/// How many bytes the path of a root proof's row takes.
#[tactic(auto, using(crate::proofs::RootedSizes::length_row_path))]
fn row_path_size(proof: &RootedMessage) -> usize
    ensures value { result ≡ length (path_part proof.now) }
    ensures few { result ≤ 1000 }
{
    rooted_law(proof);
    let row = u64::from(proof.message.cell.row);
    let hashes = HASH_ENTRY_SIZE + HASH_ENTRY_SIZE * proof.up.hashes().len();
    number_size(TOTAL, root_count(proof.k)) + (number_size(INDEX, row) + hashes)
}

/// How many bytes the row of a root proof takes.
#[tactic(auto, using(crate::proofs::RootedSizes::length_rooted_row))]
pub(crate) fn rooted_row_size(proof: &RootedMessage) -> usize
    ensures value { result ≡ length (row_part proof.now) }
    ensures few { result ≤ 2000 }
{
    rooted_law(proof);
    let row = u64::from(proof.message.cell.row);
    let rows = number_size(FIRST, row) + number_size(LAST, row);
    part_size(ROOT, DIGEST_SIZE) + (part_size(PATH, row_path_size(proof)) + rows)
}

/// Appends the path of a root proof's row, for which there is capacity.
fn put_row_path(proof: &RootedMessage, out: &mut Vec<u8>)
    requires capacity { HasCapacity out.old (length (path_part proof.now)) }
    ensures appended { out.new.items ≡ out.old.items ++ path_part proof.now }
    ensures len { vec_len out.new ≡ vec_len out.old + length (path_part proof.now) }
    ensures capacity { vec_capacity out.old ≤ vec_capacity out.new }
{
    let hash = leaf_hash(&proof.root);
    put_canonical_number(TOTAL, root_count(proof.k), out);
    put_canonical_number(INDEX, u64::from(proof.message.cell.row), out);
    put_entry(LEAF, &hash, out);
    put_aunts(AUNTS, proof.up.hashes(), out);
}

/// Appends the field of that path, for which there is capacity.
fn put_path(proof: &RootedMessage, out: &mut Vec<u8>)
    requires capacity { HasCapacity out.old (length (bytes_field 2 (path_part proof.now))) }
    ensures appended { out.new.items ≡ out.old.items ++ bytes_field 2 (path_part proof.now) }
    ensures len { vec_len out.new ≡ vec_len out.old + length (bytes_field 2 (path_part proof.now)) }
    ensures capacity { vec_capacity out.old ≤ vec_capacity out.new }
{
    put_front(PATH, row_path_size(proof), out);
    put_row_path(proof, out);
}

/// Appends the row of a root proof, for which there is capacity.
pub(crate) fn put_rooted_row(proof: &RootedMessage, out: &mut Vec<u8>)
    requires capacity { HasCapacity out.old (length (row_part proof.now)) }
    ensures appended { out.new.items ≡ out.old.items ++ row_part proof.now }
    ensures len { vec_len out.new ≡ vec_len out.old + length (row_part proof.now) }
    ensures capacity { vec_capacity out.old ≤ vec_capacity out.new }
{
    let row = u64::from(proof.message.cell.row);
    put_entry(ROOT, &proof.root.0, out);
    put_path(proof, out);
    put_canonical_number(FIRST, row, out);
    put_canonical_number(LAST, row, out);
}
