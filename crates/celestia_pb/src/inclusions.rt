//! nmt's message Proof, where it shows leaves.

ghost use Rattle.std.specs.Prelude.{◌≡◌, ◌==◌, ◌+◌, ◌*◌, ◌≤◌, ◌<◌, ◌^◌, ◌++◌, length, vec_len, vec_capacity, IfOk, IfErr};
ghost use Rattle.namespace_id.specs.Answers.{HasCapacity};
ghost use Rattle.namespace_id.specs.Sizes.{most_depth};
ghost use Rattle.celestia_pb.specs.Reading.{ReadsMessage};
ghost use Rattle.celestia_pb.specs.Digests.{digests_in, entry_size};
ghost use Rattle.celestia_pb.specs.Messages.{number_left};
ghost use Rattle.celestia_pb.specs.Inclusions.{is_place_stated, place_stated, is_stop, is_flag, is_whole, inclusion_text, inclusion_left};

use crate::digests::{ENTRY_SIZE, count_digests, entry_digest, put_digests};
use crate::entries::number_size;
use crate::messages::number_at;
use namespace_id::{Digest, digests_law};
use nmt_proofs::Path;
use proto_fields::put_canonical_number;

/// The fields of the first place, of the place behind the last, of a node, and of the flag that the parity namespace is
/// passed over.
const START: u8 = 1;

const END: u8 = 2;

const NODES: u8 = 3;

const FLAG: u8 = 5;

/// Whether this is a first place: any, or the one that is wanted, or none.
pub(crate) fn is_start(wanted: Option<u64>, start: u64) -> bool
    ensures { result ≡ is_place_stated wanted start }
{
    match wanted {
        None => true,
        Some(place) => start == 0 || start == place,
    }
}

/// The place that is the first one.
pub(crate) fn first_place(wanted: Option<u64>, start: u64) -> u64
    ensures { result ≡ place_stated wanted start }
{
    match wanted {
        None => start,
        Some(place) => place,
    }
}

/// Whether a number is the sum of two.
pub(crate) fn is_sum(stop: u64, place: u64, count: u64) -> bool
    ensures { result ≡ (stop == place + count) }
{
    stop >= count && stop - count == place
}

/// The first place at the front, and the bytes after it; where it is wrong, how many bytes are left.
pub(crate) fn start_at(wanted: Option<u64>, bytes: &[u8]) -> Result<(u64, &[u8]), usize>
    ensures value { ReadsMessage (λ x. (x.0, x.1.now)) result (number_left (is_place_stated wanted) 1 bytes.now) }
    ensures shorter { IfOk result (λ x. length x.1.now ≤ length bytes.now) }
    ensures within { IfErr result (λ left. left ≤ length bytes.now) }
{
    let (start, rest) = number_at(START, bytes)?;
    if !is_start(wanted, start) {
        return Err(bytes.len());
    }
    Ok((start, rest))
}

/// The place behind the last at the front, and the bytes after it; where it is wrong, how many bytes are left.
pub(crate) fn stop_at(place: u64, count: u64, bytes: &[u8]) -> Result<(u64, &[u8]), usize>
    ensures value { ReadsMessage (λ x. (x.0, x.1.now)) result (number_left (is_stop place count) 2 bytes.now) }
    ensures shorter { IfOk result (λ x. length x.1.now ≤ length bytes.now) }
    ensures within { IfErr result (λ left. left ≤ length bytes.now) }
{
    let (stop, rest) = number_at(END, bytes)?;
    if stop != 0 && !is_sum(stop, place, count) {
        return Err(bytes.len());
    }
    Ok((stop, rest))
}

/// The flag at the front, and the bytes after it; where it is wrong, how many bytes are left.
pub(crate) fn flag_at(bytes: &[u8]) -> Result<(u64, &[u8]), usize>
    ensures value { ReadsMessage (λ x. (x.0, x.1.now)) result (number_left is_flag 5 bytes.now) }
    ensures shorter { IfOk result (λ x. length x.1.now ≤ length bytes.now) }
    ensures within { IfErr result (λ left. left ≤ length bytes.now) }
{
    let (flag, rest) = number_at(FLAG, bytes)?;
    if flag > 1 {
        return Err(bytes.len());
    }
    Ok((flag, rest))
}

/// The numbers of a proof.
#[derive(Clone, Copy)]
pub(crate) struct Numbers {
    pub(crate) start: u64,
    pub(crate) stop: u64,
    pub(crate) flag: u64,
}

/// Whether these are the numbers of a proof of so many leaves from a place on, and nothing is left.
fn is_whole(place: u64, count: u64, numbers: Numbers, rest: &[u8]) -> bool
    ensures { result ≡ is_whole place count numbers.start numbers.stop numbers.flag (length rest.now) }
{
    rest.is_empty()
        && numbers.start == place
        && is_sum(numbers.stop, place, count)
        && numbers.flag == 1
}

/// The first place of a proof of so many leaves, from the place on that is wanted, how many nodes it has, at most so many, and
/// the bytes that begin with these; where a field is wrong, how many bytes are left from it on.
pub(crate) fn inclusion_at(
    wanted: Option<u64>,
    count: u64,
    most: usize,
    bytes: &[u8],
) -> Result<(u64, usize, &[u8]), usize>
    ensures value { ReadsMessage (λ x. (x.0, digests_in x.1 x.2.now)) result (inclusion_left wanted count most bytes.now) }
    ensures size { IfOk result (λ x. entry_size * x.1 ≤ length x.2.now) }
    ensures few { IfOk result (λ x. x.1 ≤ most) }
    ensures within { IfErr result (λ left. left ≤ length bytes.now) }
{
    let (start, behind) = start_at(wanted, bytes)?;
    let place = first_place(wanted, start);
    let (stop, nodes) = stop_at(place, count, behind)?;
    let (many, after) = count_digests(NODES, most, nodes)?;
    let (flag, rest) = flag_at(after)?;
    let numbers = Numbers { start, stop, flag };
    if !is_whole(place, count, numbers, rest) {
        return Err(rest.len());
    }
    Ok((start, many, nodes))
}

/// So many nodes, each behind a tag and a length.
pub(crate) fn path_in(count: usize, bytes: &[u8]) -> Path
    requires few { count ≤ most_depth }
    requires size { entry_size * count ≤ length bytes.now }
    ensures { result ≡ digests_in count bytes.now }
{
    let mut path = Path::new();
    let mut rest = bytes;
    for _ in 0..count {
        let (_entry, after) = rest.split_at(ENTRY_SIZE);
        path.push(entry_digest(rest));
        rest = after;
    }
    path
}

/// How many bytes the message of a proof of one leaf takes.
#[tactic(auto, using(crate::proofs::SizeLemmas::length_inclusion))]
pub(crate) fn inclusion_size(start: u64, nodes: &[Digest]) -> usize
    requires start { start < 2 ^ 16 }
    requires few { length nodes.now ≤ most_depth }
    ensures value { result ≡ length (inclusion_text start 1 nodes.now) }
    ensures few { result ≤ 1000 }
{
    digests_law(nodes);
    let places = number_size(START, start) + number_size(END, start + 1);
    places + (ENTRY_SIZE * nodes.len() + number_size(FLAG, 1))
}

/// Appends the message of a proof of one leaf, for which there is capacity.
pub(crate) fn put_inclusion(start: u64, nodes: &[Digest], out: &mut Vec<u8>)
    requires start { start < 2 ^ 16 }
    requires capacity { HasCapacity out.old (length (inclusion_text start 1 nodes.now)) }
    ensures appended { out.new.items ≡ out.old.items ++ inclusion_text start 1 nodes.now }
    ensures len { vec_len out.new ≡ vec_len out.old + length (inclusion_text start 1 nodes.now) }
    ensures capacity { vec_capacity out.old ≤ vec_capacity out.new }
{
    put_canonical_number(START, start, out);
    put_canonical_number(END, start + 1, out);
    put_digests(NODES, nodes, out);
    put_canonical_number(FLAG, 1, out);
}
