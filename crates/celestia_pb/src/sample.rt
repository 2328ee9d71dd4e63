//! Samples as messages Sample.

ghost use Rattle.std.specs.Prelude.{◌≡◌, ◌↔◌, ℕ, ◌+◌, ◌≤◌, ◌++◌, length, vec_len, vec_capacity, Option, Ok, Err, IfOk, IfErr, IfSome, IsErrOf};
ghost use Rattle.namespace_id.specs.Answers.{Gives, HasCapacity};
ghost use Rattle.proto_fields.specs.Spelled.{bytes_field};
ghost use Rattle.celestia_pb.specs.Reading.{ReadsMessage};
ghost use Rattle.celestia_pb.specs.Messages.{optional_message};
ghost use Rattle.celestia_pb.specs.Inclusions.{inclusion_text};
ghost use Rattle.celestia_pb.specs.Samples.{share_message, axis_number, place_on, sample_text, place_wanted, share_front, share_left, axis_at, path_left, sample_left, sample_value};
ghost use Rattle.celestia_pb.specs.SampleLaws.{SampleIsRead, ReadIsSample, SampleIsCommon, ShareIsCommon, ProofIsCommon};

use crate::entries::{number_size, part_size, put_entry, put_front};
use crate::errors::PbError;
use crate::inclusions::{inclusion_at, inclusion_size, path_in, put_inclusion};
use crate::messages::part_at;
use namespace_id::{Axis, Cell, MOST_DEPTH, SHARE_SIZE, Share, share_law};
use nmt_proofs::Path;
use proto_fields::{begins_part, canonical_number, put_canonical_number};

/// The fields of the share, of its proof, and of its axis.
pub(crate) const SHARE: u8 = 1;

const PROOF: u8 = 2;

const AXIS: u8 = 3;

/// The field of the bytes of a share in its own message.
pub(crate) const DATA: u8 = 1;

/// A sample as a node answers it: a share with its inclusion proof along its row or its column. Of which cell, only the
/// request says; with it this is a sample that can be checked.
///
/// Celestia specifications, "Data Structures", namespaced Merkle tree inclusion proofs; CIP-19, "Sample".
#[derive(Debug, Drop)]
pub struct Sample {
    pub axis: Axis,
    pub share: Share,
    pub path: Path,
}

/// The share in a message at the front, and the bytes after it.
pub(crate) fn share_at(bytes: &[u8]) -> Option<(Share, &[u8])>
    ensures value { Gives (λ x. (x.0, x.1.now)) result (share_front bytes.now) }
    ensures shorter { IfSome result (λ x. length x.1.now ≤ length bytes.now) }
{
    let (data, rest) = part_at(DATA, bytes)?;
    if data.len() != SHARE_SIZE {
        return None;
    }
    let mut share = Share([0; SHARE_SIZE]);
    share.0.copy_from_slice(data);
    Some((share, rest))
}

/// The share that a message is; where a field is wrong, how many bytes are left from it on.
fn share_in(bytes: &[u8]) -> Result<Share, usize>
    ensures value { ReadsMessage (λ share. share) result (share_left bytes.now) }
    ensures within { IfErr result (λ left. left ≤ length bytes.now) }
{
    let Some((share, rest)) = share_at(bytes) else {
        return Err(bytes.len());
    };
    if !rest.is_empty() {
        return Err(rest.len());
    }
    Ok(share)
}

/// The share in a field that may be at the front, and the bytes after it; where it is wrong, how many bytes are left.
pub(crate) fn share_field(bytes: &[u8]) -> Result<(Option<Share>, &[u8]), usize>
    ensures value { ReadsMessage (λ x. (x.0, x.1.now)) result (optional_message (λ rest part. share_left part) 1 bytes.now) }
    ensures within { IfErr result (λ left. left ≤ length bytes.now) }
{
    if !begins_part(SHARE, bytes) {
        return Ok((None, bytes));
    }
    let Some((part, rest)) = part_at(SHARE, bytes) else {
        return Err(bytes.len());
    };
    match share_in(part) {
        Ok(share) => Ok((Some(share), rest)),
        Err(left) => Err(left + rest.len()),
    }
}

/// The axis at the front, and the bytes after it.
fn axis_at(bytes: &[u8]) -> Option<(Axis, &[u8])>
    ensures { Gives (λ x. (x.0, x.1.now)) result (axis_at bytes.now) }
{
    let (number, rest) = canonical_number(AXIS, bytes)?;
    match number {
        0 => Some((Axis::Row, rest)),
        1 => Some((Axis::Col, rest)),
        _ => None,
    }
}

/// The place of a cell on its row or its column.
pub(crate) fn place_on(axis: Axis, cell: Cell) -> u16
    ensures { result ≡ place_on axis cell }
{
    match axis {
        Axis::Row => cell.col,
        Axis::Col => cell.row,
    }
}

/// The place that a proof has to show, where the axis behind it is known.
fn place_wanted(cell: Cell, rest: &[u8]) -> Option<u64>
    ensures { result ≡ place_wanted cell (axis_at rest.now) }
{
    let (axis, _rest) = axis_at(rest)?;
    Some(u64::from(place_on(axis, cell)))
}

/// The nodes of the proof that a message is, whose axis follows; where a field is wrong, how many bytes are left from it on.
fn path_message(cell: Cell, rest: &[u8], bytes: &[u8]) -> Result<Path, usize>
    ensures value { ReadsMessage (λ path. path) result (path_left cell rest.now bytes.now) }
    ensures within { IfErr result (λ left. left ≤ length bytes.now) }
{
    let wanted = place_wanted(cell, rest);
    let (_start, count, nodes) = inclusion_at(wanted, 1, MOST_DEPTH, bytes)?;
    Ok(path_in(count, nodes))
}

/// The nodes of the proof in a field that may be at the front, and the bytes after it; where it is wrong, how many bytes are
/// left.
fn path_field(cell: Cell, bytes: &[u8]) -> Result<(Option<Path>, &[u8]), usize>
    ensures { ReadsMessage (λ x. (x.0, x.1.now)) result (optional_message (path_left cell) 2 bytes.now) }
{
    if !begins_part(PROOF, bytes) {
        return Ok((None, bytes));
    }
    let Some((part, rest)) = part_at(PROOF, bytes) else {
        return Err(bytes.len());
    };
    match path_message(cell, rest, part) {
        Ok(path) => Ok((Some(path), rest)),
        Err(left) => Err(left + rest.len()),
    }
}

/// The sample that a message is; where a field is wrong, how many bytes are left from it on.
fn sample_in(cell: Cell, bytes: &[u8]) -> Result<Sample, usize>
    ensures { ReadsMessage (λ sample. sample) result (sample_left cell bytes.now) }
{
    let (share, behind) = share_field(bytes)?;
    let (path, after) = path_field(cell, behind)?;
    let Some((axis, rest)) = axis_at(after) else {
        return Err(after.len());
    };
    let (Some(share), Some(path)) = (share, path) else {
        return Err(rest.len());
    };
    if !rest.is_empty() {
        return Err(rest.len());
    }
    Ok(Sample { axis, share, path })
}

/// The sample of a cell that a message Sample is: a share, its inclusion proof, and its axis, the row where it isn't spelled.
///
/// Refuses bytes that aren't the one spelling of a sample of the cell, with the offset of the first field that is wrong: one
/// that isn't in its one spelling; a share of another length than 512; a proof that begins at another place than the cell has
/// on its axis, ends behind another one than the next, has more than `MOST_DEPTH` nodes or one of another length than 90, has a
/// leaf hash, or doesn't pass over the parity namespace; an axis other than 0 and 1; and any other field. Then fields that
/// aren't there, with the offset of the end of their message. Where no axis can be read, any place is taken for the proof's.
/// Whether the nodes open the share is for a check. It takes no memory, and never answers `NoMemory`.
///
/// CIP-19, "Sample"; protobuf, "Encoding"; docs/RULES.md, "Celestia's messages".
pub fn read_sample(cell: Cell, bytes: &[u8]) -> Result<Sample, PbError>
    ensures sample { (sample : Sample) → (result ≡ Ok sample) ↔ (sample_value cell bytes.now ≡ Ok sample) }
    ensures at { (at : ℕ) → IsErrOf result (PbError.At at) ↔ (sample_value cell bytes.now ≡ Err at) }
{
    match sample_in(cell, bytes) {
        Ok(sample) => Ok(sample),
        Err(left) => Err(PbError::at(bytes, left)),
    }
}

/// The number of an axis.
pub(crate) fn axis_number(axis: Axis) -> u64
    ensures value { result ≡ axis_number axis }
    ensures few { result ≤ 1 }
{
    match axis {
        Axis::Row => 0,
        Axis::Col => 1,
    }
}

/// Appends the field of a share, for which there is capacity.
pub(crate) fn put_share(share: &Share, out: &mut Vec<u8>)
    requires capacity { HasCapacity out.old (length (bytes_field 1 (share_message share.now))) }
    ensures appended { out.new.items ≡ out.old.items ++ bytes_field 1 (share_message share.now) }
    ensures len { vec_len out.new ≡ vec_len out.old + length (bytes_field 1 (share_message share.now)) }
    ensures capacity { vec_capacity out.old ≤ vec_capacity out.new }
{
    put_front(SHARE, part_size(DATA, SHARE_SIZE), out);
    put_entry(DATA, &share.0, out);
}

/// Appends the field of the proof of the leaf at a place, for which there is capacity.
pub(crate) fn put_path(place: u16, path: &Path, out: &mut Vec<u8>)
    requires capacity { HasCapacity out.old (length (bytes_field 2 (inclusion_text place 1 path.now))) }
    ensures appended { out.new.items ≡ out.old.items ++ bytes_field 2 (inclusion_text place 1 path.now) }
    ensures len { vec_len out.new ≡ vec_len out.old + length (bytes_field 2 (inclusion_text place 1 path.now)) }
    ensures capacity { vec_capacity out.old ≤ vec_capacity out.new }
{
    let place = u64::from(place);
    put_front(PROOF, inclusion_size(place, path.nodes()), out);
    put_inclusion(place, path.nodes(), out);
}

/// How many bytes `put_sample` appends.
///
/// CIP-19, "Sample"; protobuf, "Encoding".
pub fn sample_size(cell: Cell, sample: &Sample) -> usize
    ensures { result ≡ length (sample_text cell sample.now) }
{
    share_law(&sample.share);
    let place = u64::from(place_on(sample.axis, cell));
    let proof = part_size(PROOF, inclusion_size(place, sample.path.nodes()));
    let share = part_size(SHARE, part_size(DATA, SHARE_SIZE));
    share + (proof + number_size(AXIS, axis_number(sample.axis)))
}

/// Appends the message of a sample of a cell for which there is capacity (`sample_size`).
///
/// CIP-19, "Sample"; protobuf, "Encoding".
pub fn put_sample(cell: Cell, sample: &Sample, out: &mut Vec<u8>)
    requires capacity { HasCapacity out.old (length (sample_text cell sample.now)) }
    ensures appended { out.new.items ≡ out.old.items ++ sample_text cell sample.now }
    ensures len { vec_len out.new ≡ vec_len out.old + length (sample_text cell sample.now) }
    ensures capacity { vec_capacity out.old ≤ vec_capacity out.new }
{
    put_share(&sample.share, out);
    put_path(place_on(sample.axis, cell), &sample.path, out);
    put_canonical_number(AXIS, axis_number(sample.axis), out);
}

/// The laws of the messages of samples. It changes nothing.
pub fn sample_laws()
    ensures read { SampleIsRead }
    ensures spelled { ReadIsSample }
    ensures common { SampleIsCommon }
    ensures share_common { ShareIsCommon }
    ensures proof_common { ProofIsCommon }
{}
