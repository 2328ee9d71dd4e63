//! Identifiers by which Celestia's nodes ask: SampleID and NamespaceDataID.

ghost use Rattle.std.specs.Prelude.{◌≡◌, ◌↔◌, ℕ, ◌+◌, ◌≤◌, ◌++◌, length, vec_len, vec_capacity, Ok, Err, IsErrOf};
ghost use Rattle.namespace_id.specs.Answers.{Gives, HasCapacity};
ghost use Rattle.celestia_pb.specs.Reading.{ReadsMessage};
ghost use Rattle.celestia_pb.specs.Ids.{sample_id_text, namespace_id_text, behind_height, short_at, name_front, sample_id_left, namespace_id_left, sample_id_value, namespace_id_value, SampleIdIsRead, ReadIsSampleId, NamespaceIdIsRead, ReadIsNamespaceId};

use crate::errors::PbError;
use namespace_id::{Cell, NAMESPACE_SIZE, Namespace, append};

/// The bytes of a height.
const HEIGHT_SIZE: usize = 8;

/// The bytes of the number of a row or a column.
const SHORT_SIZE: usize = 2;

/// The bytes of a SampleID.
pub const SAMPLE_ID_SIZE: usize = HEIGHT_SIZE + 2 * SHORT_SIZE;

/// The bytes of a NamespaceDataID.
pub const NAMESPACE_ID_SIZE: usize = HEIGHT_SIZE + NAMESPACE_SIZE;

/// The bytes after a height at the front, where it is this one.
fn behind_height(height: u64, bytes: &[u8]) -> Option<&[u8]>
    ensures { Gives (λ x. x.now) result (behind_height height bytes.now) }
{
    if bytes.len() < HEIGHT_SIZE {
        return None;
    }
    let (front, rest) = bytes.split_at(HEIGHT_SIZE);
    let wanted = height.to_be_bytes();
    if front != &wanted[..] {
        return None;
    }
    Some(rest)
}

/// A number of two bytes at the front, and the bytes after it.
fn short_at(bytes: &[u8]) -> Option<(u16, &[u8])>
    ensures { Gives (λ x. (x.0, x.1.now)) result (short_at bytes.now) }
{
    if bytes.len() < SHORT_SIZE {
        return None;
    }
    let (front, rest) = bytes.split_at(SHORT_SIZE);
    Some((u16::from_be_bytes([front[0], front[1]]), rest))
}

/// A namespace at the front, and the bytes after it.
fn name_at(bytes: &[u8]) -> Option<(Namespace, &[u8])>
    ensures { Gives (λ x. (x.0, x.1.now)) result (name_front bytes.now) }
{
    if bytes.len() < NAMESPACE_SIZE {
        return None;
    }
    let (front, rest) = bytes.split_at(NAMESPACE_SIZE);
    let mut name = Namespace([0; NAMESPACE_SIZE]);
    name.0.copy_from_slice(front);
    Some((name, rest))
}

/// The cell that a SampleID of this height names; where a number is wrong, how many bytes are left from it on.
fn sample_id_in(height: u64, bytes: &[u8]) -> Result<Cell, usize>
    ensures { ReadsMessage (λ cell. cell) result (sample_id_left height bytes.now) }
{
    let Some(behind) = behind_height(height, bytes) else {
        return Err(bytes.len());
    };
    let Some((row, after)) = short_at(behind) else {
        return Err(behind.len());
    };
    let Some((col, rest)) = short_at(after) else {
        return Err(after.len());
    };
    if !rest.is_empty() {
        return Err(rest.len());
    }
    Ok(Cell { row, col })
}

/// The namespace that a NamespaceDataID of this height names; where a number is wrong, how many bytes are left from it on.
fn namespace_id_in(height: u64, bytes: &[u8]) -> Result<Namespace, usize>
    ensures { ReadsMessage (λ name. name) result (namespace_id_left height bytes.now) }
{
    let Some(behind) = behind_height(height, bytes) else {
        return Err(bytes.len());
    };
    let Some((name, rest)) = name_at(behind) else {
        return Err(behind.len());
    };
    if !rest.is_empty() {
        return Err(rest.len());
    }
    Ok(name)
}

/// The cell that a SampleID names: the height, which is known, the row and the column, in 8, 2 and 2 bytes, the highest first.
/// It has no axis. The cell may be any.
///
/// Refuses another height, too few bytes, and bytes behind them, with the offset of the number that is wrong, or of the first
/// byte that is too many. It takes no memory, and never answers `NoMemory`.
///
/// CIP-19, "SampleID"; docs/RULES.md, "Celestia's messages".
pub fn read_sample_id(height: u64, bytes: &[u8]) -> Result<Cell, PbError>
    ensures cell { (cell : Cell) → (result ≡ Ok cell) ↔ (sample_id_value height bytes.now ≡ Ok cell) }
    ensures at { (at : ℕ) → IsErrOf result (PbError.At at) ↔ (sample_id_value height bytes.now ≡ Err at) }
{
    match sample_id_in(height, bytes) {
        Ok(cell) => Ok(cell),
        Err(left) => Err(PbError::at(bytes, left)),
    }
}

/// Appends the SampleID of a cell for which there is capacity, `SAMPLE_ID_SIZE` bytes.
///
/// CIP-19, "SampleID".
pub fn put_sample_id(height: u64, cell: Cell, out: &mut Vec<u8>)
    requires capacity { HasCapacity out.old 12 }
    ensures appended { out.new.items ≡ out.old.items ++ sample_id_text height cell }
    ensures len { vec_len out.new ≡ vec_len out.old + 12 }
    ensures capacity { vec_capacity out.old ≤ vec_capacity out.new }
{
    append(out, &height.to_be_bytes());
    append(out, &cell.row.to_be_bytes());
    append(out, &cell.col.to_be_bytes());
}

/// The namespace that a NamespaceDataID names: the height, which is known, and the namespace, in 8 and 29 bytes. The namespace
/// may be any 29 bytes.
///
/// Refuses as `read_sample_id` does. It takes no memory, and never answers `NoMemory`.
///
/// CIP-19, "NamespaceDataID"; docs/RULES.md, "Celestia's messages".
pub fn read_namespace_id(height: u64, bytes: &[u8]) -> Result<Namespace, PbError>
    ensures name { (name : Namespace) → (result ≡ Ok name) ↔ (namespace_id_value height bytes.now ≡ Ok name) }
    ensures at { (at : ℕ) → IsErrOf result (PbError.At at) ↔ (namespace_id_value height bytes.now ≡ Err at) }
{
    match namespace_id_in(height, bytes) {
        Ok(name) => Ok(name),
        Err(left) => Err(PbError::at(bytes, left)),
    }
}

/// Appends the NamespaceDataID of a namespace for which there is capacity, `NAMESPACE_ID_SIZE` bytes.
///
/// CIP-19, "NamespaceDataID".
pub fn put_namespace_id(height: u64, name: &Namespace, out: &mut Vec<u8>)
    requires capacity { HasCapacity out.old 37 }
    ensures appended { out.new.items ≡ out.old.items ++ namespace_id_text height name.now }
    ensures len { vec_len out.new ≡ vec_len out.old + 37 }
    ensures capacity { vec_capacity out.old ≤ vec_capacity out.new }
{
    append(out, &height.to_be_bytes());
    append(out, &name.0);
}

/// The laws of identifiers. It changes nothing.
pub fn id_laws()
    ensures sample_read { SampleIdIsRead }
    ensures sample_spelled { ReadIsSampleId }
    ensures namespace_read { NamespaceIdIsRead }
    ensures namespace_spelled { ReadIsNamespaceId }
{}
