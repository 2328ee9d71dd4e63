//! The places of messages BadEncoding: a share with its proof, or nothing.

ghost use Rattle.std.specs.Prelude.{◌≡◌, ◌+◌, ◌*◌, ◌≤◌, ◌<◌, length, IfOk, IfErr, IfSome};
ghost use Rattle.namespace_id.specs.Answers.{Gives};
ghost use Rattle.namespace_id.specs.Sizes.{most_depth};
ghost use Rattle.celestia_pb.specs.Reading.{ReadsMessage};
ghost use Rattle.celestia_pb.specs.Digests.{digests_in, entry_size};
ghost use Rattle.celestia_pb.specs.Messages.{number_left, optional_message};
ghost use Rattle.celestia_pb.specs.BefpEntries.{is_mark, is_proof, proof_left, axis_field, start_wanted, data_at, entry_left, accused_cell, seen_place, step_left};

use crate::digests::count_digests;
use crate::inclusions::{Numbers, first_place, is_sum, path_in, start_at, stop_at};
use crate::messages::{number_at, part_at};
use crate::sample::{Sample, place_on, share_at};
use axis_roots::cell_on;
use namespace_id::{Axis, Cell, MOST_DEPTH, Share};
use nmt_proofs::Path;
use proto_fields::begins_part;

/// The fields of a share, of its proof, and of its axis.
pub(crate) const DATA: u8 = 1;

pub(crate) const PROOF: u8 = 2;

pub(crate) const AXIS: u8 = 3;

/// The fields of a proof's nodes and of the flag that the parity namespace is passed over.
const NODES: u8 = 3;

const FLAG: u8 = 5;

/// The field of a place.
pub(crate) const PLACE: u8 = 3;

/// The axis that a message accuses.
#[derive(Clone, Copy)]
pub(crate) struct Accused {
    pub axis: Axis,
    pub index: u16,
}

/// How many places and how many shares were seen, and the flag of their proofs, if there is one.
#[derive(Clone, Copy)]
pub(crate) struct Seen {
    pub place: u16,
    pub shares: u16,
    pub mark: Option<u64>,
}

/// Whether this is a flag: none, or that of the proofs before.
fn is_mark(mark: Option<u64>, flag: u64) -> bool
    ensures { result ≡ is_mark mark flag }
{
    match mark {
        None => flag <= 1,
        Some(before) => flag == 0 || flag == before,
    }
}

/// The flag at the front, and the bytes after it; where it is wrong, how many bytes are left.
fn mark_at(mark: Option<u64>, bytes: &[u8]) -> Result<(u64, &[u8]), usize>
    ensures value { ReadsMessage (λ x. (x.0, x.1.now)) result (number_left (is_mark mark) 5 bytes.now) }
    ensures shorter { IfOk result (λ x. length x.1.now ≤ length bytes.now) }
    ensures within { IfErr result (λ left. left ≤ length bytes.now) }
{
    let (flag, rest) = number_at(FLAG, bytes)?;
    if !is_mark(mark, flag) {
        return Err(bytes.len());
    }
    Ok((flag, rest))
}

/// Whether these are the numbers of a proof of the leaf at a place with this flag, and nothing is left.
fn is_proof(place: u64, mark: u64, numbers: Numbers, rest: &[u8]) -> bool
    ensures { result ≡ is_proof place mark numbers.start numbers.stop numbers.flag (length rest.now) }
{
    rest.is_empty()
        && numbers.start == place
        && is_sum(numbers.stop, place, 1)
        && numbers.flag == mark
}

/// How many nodes a proof of one leaf has, its flag, and the bytes that begin with the nodes; where a field is wrong, how many
/// bytes are left from it on.
fn proof_at(
    wanted: Option<u64>,
    mark: Option<u64>,
    bytes: &[u8],
) -> Result<(usize, u64, &[u8]), usize>
    ensures value { ReadsMessage (λ x. (digests_in x.0 x.2.now, x.1)) result (proof_left wanted mark bytes.now) }
    ensures size { IfOk result (λ x. entry_size * x.0 ≤ length x.2.now) }
    ensures few { IfOk result (λ x. x.0 ≤ most_depth) }
    ensures within { IfErr result (λ left. left ≤ length bytes.now) }
{
    let (start, behind) = start_at(wanted, bytes)?;
    let place = first_place(wanted, start);
    let (stop, nodes) = stop_at(place, 1, behind)?;
    let (count, after) = count_digests(NODES, MOST_DEPTH, nodes)?;
    let (flag, rest) = mark_at(mark, after)?;
    let numbers = Numbers { start, stop, flag };
    if !is_proof(place, first_place(mark, flag), numbers, rest) {
        return Err(rest.len());
    }
    Ok((count, flag, nodes))
}

/// The nodes and the flag of a proof of one leaf.
fn proof_in(wanted: Option<u64>, mark: Option<u64>, bytes: &[u8]) -> Result<(Path, u64), usize>
    ensures value { ReadsMessage (λ x. (x.0, x.1)) result (proof_left wanted mark bytes.now) }
    ensures within { IfErr result (λ left. left ≤ length bytes.now) }
{
    let (count, flag, nodes) = proof_at(wanted, mark, bytes)?;
    Ok((path_in(count, nodes), flag))
}

/// The axis that the field of this number is at the front, and the bytes after it.
pub(crate) fn axis_in(number: u8, bytes: &[u8]) -> Option<(Axis, &[u8])>
    requires { number < 16 }
    ensures value { Gives (λ x. (x.0, x.1.now)) result (axis_field number bytes.now) }
    ensures shorter { IfSome result (λ x. length x.1.now ≤ length bytes.now) }
{
    let Ok((kind, rest)) = number_at(number, bytes) else {
        return None;
    };
    match kind {
        0 => Some((Axis::Row, rest)),
        1 => Some((Axis::Col, rest)),
        _ => None,
    }
}

/// The place that a proof has to show, where its cell and its axis, which follows, are known.
fn start_wanted(cell: Option<Cell>, rest: &[u8]) -> Option<u64>
    ensures { result ≡ start_wanted cell rest.now }
{
    let cell = cell?;
    let (axis, _rest) = axis_in(AXIS, rest)?;
    Some(u64::from(place_on(axis, cell)))
}

/// The nodes and the flag of the proof in a field that may be at the front, and the bytes after it; where it is wrong, how
/// many bytes are left.
fn proof_field(
    cell: Option<Cell>,
    mark: Option<u64>,
    bytes: &[u8],
) -> Result<(Option<(Path, u64)>, &[u8]), usize>
    ensures value { ReadsMessage (λ x. (x.0, x.1.now)) result (optional_message (λ rest part. proof_left (start_wanted cell rest) mark part) 2 bytes.now) }
    ensures shorter { IfOk result (λ x. length x.1.now ≤ length bytes.now) }
    ensures within { IfErr result (λ left. left ≤ length bytes.now) }
{
    if !begins_part(PROOF, bytes) {
        return Ok((None, bytes));
    }
    let Some((part, rest)) = part_at(PROOF, bytes) else {
        return Err(bytes.len());
    };
    match proof_in(start_wanted(cell, rest), mark, part) {
        Ok(proof) => Ok((Some(proof), rest)),
        Err(left) => Err(left + rest.len()),
    }
}

/// The share in a field that may be at the front, and the bytes after it; where it is wrong, how many bytes are left.
pub(crate) fn data_at(bytes: &[u8]) -> Result<(Option<Share>, &[u8]), usize>
    ensures value { ReadsMessage (λ x. (x.0, x.1.now)) result (data_at bytes.now) }
    ensures shorter { IfOk result (λ x. length x.1.now ≤ length bytes.now) }
    ensures within { IfErr result (λ left. left ≤ length bytes.now) }
{
    if !begins_part(DATA, bytes) {
        return Ok((None, bytes));
    }
    let Some((share, rest)) = share_at(bytes) else {
        return Err(bytes.len());
    };
    Ok((Some(share), rest))
}

/// The sample that a message is, and the flag of its proof; where a field is wrong, how many bytes are left from it on.
fn entry_in(cell: Option<Cell>, mark: Option<u64>, bytes: &[u8]) -> Result<(Sample, u64), usize>
    ensures value { ReadsMessage (λ x. (x.0, x.1)) result (entry_left cell mark bytes.now) }
    ensures within { IfErr result (λ left. left ≤ length bytes.now) }
{
    let (share, behind) = data_at(bytes)?;
    let (proof, after) = proof_field(cell, mark, behind)?;
    let Some((axis, rest)) = axis_in(AXIS, after) else {
        return Err(after.len());
    };
    let (Some(share), Some((path, flag))) = (share, proof) else {
        return Err(rest.len());
    };
    if !rest.is_empty() {
        return Err(rest.len());
    }
    Ok((Sample { axis, share, path }, flag))
}

/// The cell at a place of the accused axis, where this is known.
fn cell_of(accused: Option<Accused>, place: u16) -> Option<Cell>
    ensures { result ≡ accused_cell accused place }
{
    let accused = accused?;
    Some(cell_on(accused.axis, accused.index, place))
}

/// The sample of the place at the front, if it has one, what was seen with it, and the bytes after it; where a field is
/// wrong, how many bytes are left from it on. There are fewer places before it than 1,024.
pub(crate) fn next_place(
    accused: Option<Accused>,
    most: u16,
    seen: Seen,
    bytes: &[u8],
) -> Result<(Option<Sample>, Seen, &[u8]), usize>
    requires places { seen.place < 1024 }
    requires shares { seen.shares ≤ seen.place }
    ensures value { ReadsMessage (λ x. ((x.0, x.1), x.2.now)) result (step_left accused most seen bytes.now) }
    ensures place { IfOk result (λ x. x.1.place ≡ seen.place + 1) }
    ensures shares { IfOk result (λ x. x.1.shares ≤ x.1.place) }
{
    let Some((part, rest)) = part_at(PLACE, bytes) else {
        return Err(bytes.len());
    };
    let place = seen.place + 1;
    if part.is_empty() {
        return Ok((None, Seen { place, ..seen }, rest));
    }
    if seen.shares >= most {
        return Err(bytes.len());
    }
    match entry_in(cell_of(accused, seen.place), seen.mark, part) {
        Err(left) => Err(left + rest.len()),
        Ok((sample, flag)) => {
            let shares = seen.shares + 1;
            let mark = Some(flag);
            Ok((
                Some(sample),
                Seen {
                    place,
                    shares,
                    mark,
                },
                rest,
            ))
        }
    }
}
