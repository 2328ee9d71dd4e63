//! nmt's message Proof as the answer for a row has it: of shares, or of an absence.

ghost use Rattle.std.specs.Prelude.{◌≡◌, ◌+◌, ◌*◌, ◌≤◌, ◌<◌, ◌^◌, ◌++◌, length, vec_len, vec_capacity, IfOk, IfErr};
ghost use Rattle.namespace_id.specs.Answers.{HasCapacity};
ghost use Rattle.celestia_pb.specs.Reading.{ReadsMessage};
ghost use Rattle.celestia_pb.specs.Digests.{digests_in, entry_size};
ghost use Rattle.celestia_pb.specs.Messages.{number_left};
ghost use Rattle.celestia_pb.specs.RowProofs.{leaf_count, hash_count, row_proof_text, is_short, has_all_parts, row_proof_left};
ghost use Rattle.namespace_id.specs.Sizes.{most_nodes};
ghost use Rattle.celestia_pb.specs.RowParts.{hashes_of, proof_parts};

use crate::digests::{ENTRY_SIZE, count_digests, entry_digest, put_digests};
use crate::entries::number_size;
use crate::inclusions::{flag_at, is_sum, stop_at};
use crate::messages::number_at;
use namespace_id::{Digest, MOST_DEPTH, digests_law};
use nmt_proofs::Nodes;
use proto_fields::put_canonical_number;

/// The fields of the first place, of the place behind the last, of a node, of the leaf hash of an absence, and of the flag that the
/// parity namespace is passed over.
const START: u8 = 1;

const END: u8 = 2;

const NODES: u8 = 3;

const LEAF_HASH: u8 = 4;

const FLAG: u8 = 5;

/// The most nodes.
const MOST_NODES: usize = 2 * MOST_DEPTH;

/// The proof of some shares, from a column on, or, with a leaf hash, that of an absence.
#[derive(Drop)]
pub(crate) struct RowProof {
    pub(crate) start: u16,
    pub(crate) nodes: Nodes,
    pub(crate) hash: Option<Digest>,
}

/// How many leaves a proof of so many shares is of.
fn leaf_count(count: usize) -> u64
    ensures { result ≡ leaf_count count }
{
    if count == 0 { 1 } else { count as u64 }
}

/// How many leaf hashes it has.
fn hash_count(count: usize) -> usize
    ensures value { result ≡ hash_count count }
    ensures few { result ≤ 1 }
{
    if count == 0 { 1 } else { 0 }
}

/// The first place at the front, and the bytes after it; where it is wrong, how many bytes are left.
fn short_at(bytes: &[u8]) -> Result<(u16, &[u8]), usize>
    ensures value { ReadsMessage (λ x. (x.0, x.1.now)) result (number_left is_short 1 bytes.now) }
    ensures shorter { IfOk result (λ x. length x.1.now ≤ length bytes.now) }
    ensures within { IfErr result (λ left. left ≤ length bytes.now) }
{
    let (start, rest) = number_at(START, bytes)?;
    if start >= 0x1_0000 {
        return Err(bytes.len());
    }
    Ok((start as u16, rest))
}

/// The numbers of a proof.
#[derive(Clone, Copy)]
struct Numbers {
    start: u64,
    stop: u64,
    hashes: usize,
    flag: u64,
}

/// Whether these are the numbers of a proof of so many shares, and nothing is left.
fn is_complete(count: usize, numbers: Numbers, rest: &[u8]) -> bool
    ensures { result ≡ has_all_parts count numbers.start numbers.stop numbers.hashes numbers.flag (length rest.now) }
{
    rest.is_empty()
        && is_sum(numbers.stop, numbers.start, leaf_count(count))
        && numbers.hashes == hash_count(count)
        && numbers.flag == 1
}

/// So many nodes, each behind a tag and a length.
fn nodes_in(count: usize, bytes: &[u8]) -> Nodes
    requires few { count ≤ most_nodes }
    requires size { entry_size * count ≤ length bytes.now }
    ensures { result ≡ digests_in count bytes.now }
{
    let mut nodes = Nodes::new();
    let mut rest = bytes;
    for _ in 0..count {
        let (_entry, after) = rest.split_at(ENTRY_SIZE);
        nodes.push(entry_digest(rest));
        rest = after;
    }
    nodes
}

/// The leaf hash behind a tag and a length, if there is one.
fn hash_in(count: usize, bytes: &[u8]) -> Option<Digest>
    requires few { count ≤ 1 }
    requires size { entry_size * count ≤ length bytes.now }
    ensures { hashes_of result ≡ digests_in count bytes.now }
{
    if count == 0 {
        return None;
    }
    Some(entry_digest(bytes))
}

/// The proof of so many shares that a message is; where a field is wrong, how many bytes are left from it on.
pub(crate) fn row_proof_in(count: usize, bytes: &[u8]) -> Result<RowProof, usize>
    ensures value { ReadsMessage proof_parts result (row_proof_left count bytes.now) }
    ensures within { IfErr result (λ left. left ≤ length bytes.now) }
{
    let (start, behind) = short_at(bytes)?;
    let place = u64::from(start);
    let (stop, nodes) = stop_at(place, leaf_count(count), behind)?;
    let (many, after) = count_digests(NODES, MOST_NODES, nodes)?;
    let (hashes, last) = count_digests(LEAF_HASH, hash_count(count), after)?;
    let (flag, rest) = flag_at(last)?;
    let numbers = Numbers {
        start: place,
        stop,
        hashes,
        flag,
    };
    if !is_complete(count, numbers, rest) {
        return Err(rest.len());
    }
    let hash = hash_in(hashes, after);
    Ok(RowProof {
        start,
        nodes: nodes_in(many, nodes),
        hash,
    })
}

/// How many bytes the message of a proof of so many shares takes.
#[tactic(auto, using(crate::proofs::RowProofLemmas::length_row_proof))]
pub(crate) fn row_proof_size(start: u16, count: usize, nodes: &[Digest], hashes: &[Digest]) -> usize
    requires shares { count < 2 ^ 16 }
    requires few { length nodes.now ≤ most_nodes }
    requires hashes { length hashes.now ≤ 1 }
    ensures value { result ≡ length (row_proof_text start count nodes.now hashes.now) }
    ensures few { result ≤ 2000 }
{
    digests_law(nodes);
    digests_law(hashes);
    let start = u64::from(start);
    let places = number_size(START, start) + number_size(END, start + leaf_count(count));
    places + (ENTRY_SIZE * nodes.len() + (ENTRY_SIZE * hashes.len() + number_size(FLAG, 1)))
}

/// Appends the message of a proof of so many shares, for which there is capacity.
pub(crate) fn put_row_proof(
    start: u16,
    count: usize,
    nodes: &[Digest],
    hashes: &[Digest],
    out: &mut Vec<u8>,
)
    requires shares { count < 2 ^ 16 }
    requires capacity { HasCapacity out.old (length (row_proof_text start count nodes.now hashes.now)) }
    ensures appended { out.new.items ≡ out.old.items ++ row_proof_text start count nodes.now hashes.now }
    ensures len { vec_len out.new ≡ vec_len out.old + length (row_proof_text start count nodes.now hashes.now) }
    ensures capacity { vec_capacity out.old ≤ vec_capacity out.new }
{
    let start = u64::from(start);
    put_canonical_number(START, start, out);
    put_canonical_number(END, start + leaf_count(count), out);
    put_digests(NODES, nodes, out);
    put_digests(LEAF_HASH, hashes, out);
    put_canonical_number(FLAG, 1, out);
}
