//! What is found in a row as messages RowNamespaceData.

ghost use Rattle.std.specs.Prelude.{◌≡◌, ◌↔◌, ℕ, ◌+◌, ◌*◌, ◌≤◌, ◌^◌, ◌++◌, length, vec_len, vec_capacity, true, false, None, option_map, Ok, Err, IfOk, IfErr, IfSome, IsErrOf};
ghost use Rattle.namespace_id.specs.Answers.{HasCapacity};
ghost use Rattle.namespace_id.specs.Sizes.{greatest_width, most_nodes};
ghost use Rattle.celestia_pb.specs.Reading.{ReadsMessage};
ghost use Rattle.celestia_pb.specs.Messages.{optional_message};
ghost use Rattle.celestia_pb.specs.RowShares.{share_entry_size};
ghost use Rattle.celestia_pb.specs.RowProofs.{row_proof_left};
ghost use Rattle.celestia_pb.specs.RowData.{found_has_message, row_text, found_message, row_left, row_value};
ghost use Rattle.celestia_pb.specs.RowParts.{proof_parts, entry_by};
ghost use Rattle.celestia_pb.specs.RowDataLaws.{RowIsRead, ReadIsRow, RowIsCommon, RowProofIsCommon};

use crate::entries::{part_size, put_front};
use crate::errors::PbError;
use crate::messages::part_at;
use crate::row_proof::{RowProof, put_row_proof, row_proof_in, row_proof_size};
use crate::row_shares::{MOST_SHARES, SHARE_ENTRY_SIZE, count_shares, put_shares, shares_in};
use axis_roots::{Found, NsEntry, ShareList};
use namespace_id::{Digest, NoMemory, Share, shares_law};
use proto_fields::begins_part;
use std::alloc::Global;

/// The field of the proof; shares are in fields 1.
const PROOF: u8 = 2;

/// What the message of a row is made of: so many shares, which lie at its front, and their proof.
#[derive(Drop)]
pub(crate) struct RowParts {
    count: usize,
    proof: RowProof,
}

/// The proof of so many shares in a field that may be at the front, and the bytes after it; where it is wrong, how many bytes are
/// left.
fn proof_field(count: usize, bytes: &[u8]) -> Result<(Option<RowProof>, &[u8]), usize>
    ensures value { ReadsMessage (λ x. (option_map proof_parts x.0, x.1.now))
        result (optional_message (λ rest part. row_proof_left count part) 2 bytes.now) }
    ensures shorter { IfOk result (λ x. length x.1.now ≤ length bytes.now) }
    ensures within { IfErr result (λ left. left ≤ length bytes.now) }
{
    if !begins_part(PROOF, bytes) {
        return Ok((None, bytes));
    }
    let Some((part, rest)) = part_at(PROOF, bytes) else {
        return Err(bytes.len());
    };
    match row_proof_in(count, part) {
        Ok(proof) => Ok((Some(proof), rest)),
        Err(left) => Err(left + rest.len()),
    }
}

/// What the message of a row is made of; where a field is wrong, how many bytes are left from it on.
pub(crate) fn row_at(bytes: &[u8]) -> Result<RowParts, usize>
    ensures value { (row : ℕ) → ReadsMessage (λ parts. entry_by row parts bytes.now) result (row_left row bytes.now) }
    ensures size { IfOk result (λ parts. share_entry_size * parts.count ≤ length bytes.now) }
    ensures within { IfErr result (λ left. left ≤ length bytes.now) }
{
    let (count, behind) = count_shares(bytes)?;
    let (proof, rest) = proof_field(count, behind)?;
    let Some(proof) = proof else {
        return Err(rest.len());
    };
    if !rest.is_empty() {
        return Err(rest.len());
    }
    Ok(RowParts { count, proof })
}

/// The entry of a row of which the message is made of these. The one refusal is that it is out of memory.
pub(crate) fn entry_of(
    alloc: Global,
    row: u16,
    parts: RowParts,
    bytes: &[u8],
) -> Result<NsEntry, NoMemory>
    requires size { share_entry_size * parts.count ≤ length bytes.now }
    ensures { IfOk result (λ entry. entry ≡ entry_by row parts bytes.now) }
{
    let RowParts { count, proof } = parts;
    let RowProof { start, nodes, hash } = proof;
    let found = match hash {
        Some(leaf) => Found::Absence {
            pos: start,
            leaf,
            nodes,
        },
        None => Found::Range {
            start,
            shares: ShareList {
                list: shares_in(alloc, count, bytes)?,
            },
            nodes,
        },
    };
    Ok(NsEntry { row, found })
}

/// The entry of a row that a message RowNamespaceData is: shares with their range proof, or the proof of an absence where there are
/// no shares. The message doesn't name its row.
///
/// Refuses bytes that aren't the one spelling of an entry, with the offset of the first field that is wrong: one that isn't in its
/// one spelling; a share of another length than 512, and one behind `GREATEST_WIDTH`; a proof that begins at 65,536 or above, or
/// doesn't end as many places behind as there are shares (behind no shares: one place), has more than `2 * MOST_DEPTH` nodes, a
/// node or a leaf hash of another length than 90, a leaf hash behind shares, or doesn't pass over the parity namespace; and any
/// other field. Then fields that aren't there, the leaf hash of an absence among them, with the offset of the end of their message.
/// Whether it opens, and is complete, is for a check. It takes memory for the shares, once all bytes are known to be right.
///
/// CIP-19, "RowNamespaceData"; protobuf, "Encoding"; docs/RULES.md, "Celestia's messages".
pub fn read_row_data(alloc: Global, row: u16, bytes: &[u8]) -> Result<NsEntry, PbError>
    ensures entry { IfOk result (λ entry. row_value row bytes.now ≡ Ok entry) }
    ensures at { (at : ℕ) → IsErrOf result (PbError.At at) ↔ (row_value row bytes.now ≡ Err at) }
{
    match row_at(bytes) {
        Ok(parts) => Ok(entry_of(alloc, row, parts, bytes)?),
        Err(left) => Err(PbError::at(bytes, left)),
    }
}

/// Whether what is found has a message.
fn has_message(found: &Found) -> bool
    ensures { result ≡ found_has_message found.now }
{
    match found {
        Found::Range { shares, .. } => {
            let count = shares.list.len();
            0 < count && count <= MOST_SHARES
        }
        Found::Absence { .. } => true,
    }
}

/// How many bytes the message of shares and their proof takes.
#[tactic(auto, using(crate::proofs::RowDataLemmas::length_row))]
fn row_size(start: u16, shares: &[Share], nodes: &[Digest], hashes: &[Digest]) -> usize
    requires shares { length shares.now ≤ greatest_width }
    requires few { length nodes.now ≤ most_nodes }
    requires hashes { length hashes.now ≤ 1 }
    ensures value { result ≡ length (row_text shares.now start nodes.now hashes.now) }
    ensures few { result ≤ 2 ^ 20 }
{
    shares_law(shares);
    let proof = part_size(PROOF, row_proof_size(start, shares.len(), nodes, hashes));
    SHARE_ENTRY_SIZE * shares.len() + proof
}

/// Appends the message of shares and their proof, for which there is capacity.
fn put_row(start: u16, shares: &[Share], nodes: &[Digest], hashes: &[Digest], out: &mut Vec<u8>)
    requires shares { length shares.now ≤ greatest_width }
    requires few { length nodes.now ≤ most_nodes }
    requires hashes { length hashes.now ≤ 1 }
    requires capacity { HasCapacity out.old (length (row_text shares.now start nodes.now hashes.now)) }
    ensures appended { out.new.items ≡ out.old.items ++ row_text shares.now start nodes.now hashes.now }
    ensures len { vec_len out.new ≡ vec_len out.old + length (row_text shares.now start nodes.now hashes.now) }
    ensures capacity { vec_capacity out.old ≤ vec_capacity out.new }
{
    put_shares(shares, out);
    put_front(
        PROOF,
        row_proof_size(start, shares.len(), nodes, hashes),
        out,
    );
    put_row_proof(start, shares.len(), nodes, hashes, out);
}

/// How many bytes `put_row_data` appends. None where the entry has no message: it is a range of no shares, or of more than
/// `GREATEST_WIDTH`.
///
/// CIP-19, "RowNamespaceData"; protobuf, "Encoding".
pub fn row_data_size(entry: &NsEntry) -> Option<usize>
    ensures none { (result ≡ None) ↔ (found_has_message entry.now.found ≡ false) }
    ensures size { IfSome result (λ size. size ≡ length (found_message entry.now.found)) }
    ensures few { IfSome result (λ size. size ≤ 2 ^ 20) }
{
    if !has_message(&entry.found) {
        return None;
    }
    match &entry.found {
        Found::Range {
            start,
            shares,
            nodes,
        } => Some(row_size(*start, &shares.list, nodes.nodes(), &[])),
        Found::Absence { pos, leaf, nodes } => {
            Some(row_size(*pos, &[], nodes.nodes(), &[*leaf]))
        }
    }
}

/// Appends the message of an entry that has one, for which there is capacity (`row_data_size`). It doesn't name the row.
///
/// CIP-19, "RowNamespaceData"; protobuf, "Encoding".
pub fn put_row_data(entry: &NsEntry, out: &mut Vec<u8>)
    requires has { found_has_message entry.now.found ≡ true }
    requires capacity { HasCapacity out.old (length (found_message entry.now.found)) }
    ensures appended { out.new.items ≡ out.old.items ++ found_message entry.now.found }
    ensures len { vec_len out.new ≡ vec_len out.old + length (found_message entry.now.found) }
    ensures capacity { vec_capacity out.old ≤ vec_capacity out.new }
{
    match &entry.found {
        Found::Range {
            start,
            shares,
            nodes,
        } => put_row(*start, &shares.list, nodes.nodes(), &[], out),
        Found::Absence { pos, leaf, nodes } => put_row(*pos, &[], nodes.nodes(), &[*leaf], out),
    }
}

/// The laws of the messages of entries. It changes nothing.
pub fn row_data_laws()
    ensures read { RowIsRead }
    ensures spelled { ReadIsRow }
    ensures common { RowIsCommon }
    ensures proof_common { RowProofIsCommon }
{}
