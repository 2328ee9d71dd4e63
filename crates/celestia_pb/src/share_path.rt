//! The message NMTProof of one share of a row.

ghost use Rattle.std.specs.Prelude.{◌≡◌, ◌==◌, ◌&&◌, ◌+◌, ◌≤◌, ◌<◌, ◌++◌, length, vec_len, vec_capacity, IfOk, IfErr};
ghost use Rattle.namespace_id.specs.Answers.{HasCapacity};
ghost use Rattle.namespace_id.specs.Sizes.{most_depth};
ghost use Rattle.celestia_pb.specs.Reading.{ReadsMessage};
ghost use Rattle.celestia_pb.specs.Messages.{number_left, optional_message};
ghost use Rattle.celestia_pb.specs.SharePaths.{share_path_text, is_column, share_path_left};

use crate::digests::{ENTRY_SIZE, count_digests, put_digests};
use crate::entries::number_size;
use crate::inclusions::{is_sum, path_in, stop_at};
use crate::messages::{number_at, part_at};
use namespace_id::{Digest, MOST_DEPTH, MOST_LEAVES, digests_law};
use nmt_proofs::Path;
use proto_fields::{begins_part, put_canonical_number};

/// The fields of the column, of the column behind it, and of a node.
const START: u8 = 1;

const END: u8 = 2;

const NODES: u8 = 3;

/// The field of the proof of a share in the message that has it.
pub(crate) const PROOF: u8 = 2;

/// The column of a share, and the nodes that open it under the root of its row.
#[derive(Drop)]
pub(crate) struct SharePath {
    pub col: u16,
    pub nodes: Path,
}

/// The column at the front, and the bytes after it; where it is wrong, how many bytes are left.
fn column_at(bytes: &[u8]) -> Result<(u16, &[u8]), usize>
    ensures value { ReadsMessage (λ x. (x.0, x.1.now)) result (number_left is_column 1 bytes.now) }
    ensures shorter { IfOk result (λ x. length x.1.now ≤ length bytes.now) }
    ensures within { IfErr result (λ left. left ≤ length bytes.now) }
{
    let (col, rest) = number_at(START, bytes)?;
    if col >= MOST_LEAVES as u64 {
        return Err(bytes.len());
    }
    Ok((col as u16, rest))
}

/// Whether nothing is left, and this is the column behind.
fn is_end(col: u64, stop: u64, rest: &[u8]) -> bool
    ensures { result ≡ ((length rest.now == 0) && (stop == col + 1)) }
{
    rest.is_empty() && is_sum(stop, col, 1)
}

/// The proof that a message is; where a field is wrong, how many bytes are left from it on.
fn share_path_in(bytes: &[u8]) -> Result<SharePath, usize>
    ensures value { ReadsMessage (λ path. path) result (share_path_left bytes.now) }
    ensures within { IfErr result (λ left. left ≤ length bytes.now) }
{
    let (col, behind) = column_at(bytes)?;
    let place = u64::from(col);
    let (stop, nodes) = stop_at(place, 1, behind)?;
    let (count, rest) = count_digests(NODES, MOST_DEPTH, nodes)?;
    if !is_end(place, stop, rest) {
        return Err(rest.len());
    }
    Ok(SharePath {
        col,
        nodes: path_in(count, nodes),
    })
}

/// The proof in a field that may be at the front, and the bytes after it; where it is wrong, how many bytes are left.
pub(crate) fn share_path_at(bytes: &[u8]) -> Result<(Option<SharePath>, &[u8]), usize>
    ensures value { ReadsMessage (λ x. (x.0, x.1.now)) result (optional_message (λ rest part. share_path_left part) 2 bytes.now) }
{
    if !begins_part(PROOF, bytes) {
        return Ok((None, bytes));
    }
    let Some((part, rest)) = part_at(PROOF, bytes) else {
        return Err(bytes.len());
    };
    match share_path_in(part) {
        Ok(path) => Ok((Some(path), rest)),
        Err(left) => Err(left + rest.len()),
    }
}

/// How many bytes the message takes.
#[tactic(auto, using(crate::proofs::SharePathLemmas::length_share_path))]
pub(crate) fn share_path_size(col: u16, nodes: &[Digest]) -> usize
    requires few { length nodes.now ≤ most_depth }
    ensures value { result ≡ length (share_path_text col nodes.now) }
    ensures few { result ≤ 1000 }
{
    digests_law(nodes);
    let place = u64::from(col);
    number_size(START, place) + (number_size(END, place + 1) + ENTRY_SIZE * nodes.len())
}

/// Appends the message, for which there is capacity.
pub(crate) fn put_share_path(col: u16, nodes: &[Digest], out: &mut Vec<u8>)
    requires capacity { HasCapacity out.old (length (share_path_text col nodes.now)) }
    ensures appended { out.new.items ≡ out.old.items ++ share_path_text col nodes.now }
    ensures len { vec_len out.new ≡ vec_len out.old + length (share_path_text col nodes.now) }
    ensures capacity { vec_capacity out.old ≤ vec_capacity out.new }
{
    let place = u64::from(col);
    put_canonical_number(START, place, out);
    put_canonical_number(END, place + 1, out);
    put_digests(NODES, nodes, out);
}
