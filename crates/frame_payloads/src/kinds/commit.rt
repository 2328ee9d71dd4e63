//! The payload of a commitment proof: judged where it lies, then read; and written.

ghost use Rattle.std.specs.Prelude.{◌≡◌, length, None, Some, IfSome, MatchOption, ◌+◌, ◌*◌, ◌++◌, IsSome, false, ◌↔◌, IsTrue};
ghost use Rattle.std.specs.List.{list_any};
ghost use Rattle.namespace_id.specs.Answers.{Gives, HasCapacity};
ghost use Rattle.frame_fields.specs.Fields.{read_items, digests_of};
ghost use Rattle.frame_payloads.specs.Payloads.{GivesUnlessFull, IsSize};
ghost use Rattle.frame_payloads.specs.kinds.Commit.{is_long_row, is_long_commit, row_bytes, commit_payload, row_at, rows_at, commit_at};

use crate::codec::appending::put_short;
use crate::codec::items::{Item, after_list16, list16};
use crate::codec::outs::{Full, Out};
use crate::codec::writing::{Text, append_text, put_list16, size_of};
use blob_commit::{CommitProof, CommitRow};
use data_header::RootPath;
use frame_fields::{
    digest_at, digest_list_at, digests_of, hash_at, hashes_at, nodes_at, u16_at, u32_at,
};
use namespace_id::{Digest, GREATEST_WIDTH};
use nmt_proofs::Nodes;
use std::alloc::{AllocError, Global};

/// The most rows of a commitment proof, as many as the greatest square has.
const MOST_ROWS: u16 = GREATEST_WIDTH;

/// The most subtrees in a row, as many as it has original shares in the greatest square.
const MOST_SUBTREES: u16 = GREATEST_WIDTH;

/// A row. Its subtrees are still bytes, behind their count.
#[derive(Drop)]
struct RowFields<'a> {
    root: Digest,
    up: RootPath,
    count: u16,
    subtrees: &'a [u8],
    nodes: Nodes,
}

/// The parts of a commitment proof. Its rows are still bytes, from their count on.
#[derive(Clone, Copy)]
struct CommitFields<'a> {
    k: u16,
    start: u32,
    count: u32,
    commitment: [u8; 32],
    rows: &'a [u8],
}

/// A row, and the bytes after it.
#[tactic(auto, unfolding(crate::specs::kinds::Commit::row_at))]
fn row_at(bytes: &[u8]) -> Option<(RowFields<'_>, &[u8])>
    ensures value { Gives (λ x. (
      record {
        root = x.0.root;
        up = x.0.up;
        subtrees = digests_of x.0.count x.0.subtrees.now;
        nodes = x.0.nodes;
      },
      x.1.now,
    )) result (row_at bytes.now) }
    ensures all { IfSome result (λ x. length x.0.subtrees.now ≡ 90 * x.0.count) }
{
    let Some((root, rest)) = digest_at(bytes) else {
        return None;
    };
    let Some((up, rest)) = hashes_at(rest) else {
        return None;
    };
    let Some((count, subtrees, rest)) = digest_list_at(rest, MOST_SUBTREES) else {
        return None;
    };
    let Some((nodes, rest)) = nodes_at(rest) else {
        return None;
    };
    let row = RowFields {
        root,
        up,
        count,
        subtrees,
        nodes,
    };
    Some((row, rest))
}

/// The parts of the commitment proof whose payload the bytes are. It takes no memory.
#[tactic(auto, unfolding(crate::specs::kinds::Commit::commit_at))]
fn commit_parts(payload: &[u8]) -> Option<CommitFields<'_>>
    ensures parts { MatchOption result (commit_at payload.now ≡ None)
        (λ f. commit_at payload.now ≡ Some (record {
          k = f.k;
          start = f.start;
          count = f.count;
          commitment = f.commitment;
          rows = read_items (rows_at f.rows.now);
        })) }
    ensures rows { IfSome result (λ f. IsSome (rows_at f.rows.now)) }
{
    let (k, rest) = u16_at(payload)?;
    let (start, rest) = u32_at(rest)?;
    let (count, rest) = u32_at(rest)?;
    let (commitment, rows) = hash_at(rest)?;
    let rest = after_list16::<CommitRow>(rows, MOST_ROWS)?;
    if !rest.is_empty() {
        return None;
    }
    Some(CommitFields {
        k,
        start,
        count,
        commitment,
        rows,
    })
}

/// Whether the bytes are the payload of a commitment proof. It takes no memory.
pub fn is_commit(payload: &[u8]) -> bool
    ensures { IsTrue result ↔ IsSome (commit_at payload.now) }
{
    commit_parts(payload).is_some()
}

impl Item for CommitRow {
    ghost at = { row_at };

    fn after(bytes: &[u8]) -> Option<&[u8]> {
        let (_row, rest) = row_at(bytes)?;
        Some(rest)
    }

    fn read(alloc: Global, bytes: &[u8]) -> Result<(CommitRow, &[u8]), AllocError> {
        let (fields, rest) = row_at(bytes).unwrap();
        let RowFields {
            root,
            up,
            count,
            subtrees,
            nodes,
        } = fields;
        let subtrees = digests_of(alloc, count as usize, subtrees)?;
        let row = CommitRow {
            root,
            up,
            subtrees,
            nodes,
        };
        Ok((row, rest))
    }
}

/// The commitment proof whose payload the bytes are. No memory is taken before they are known to be one.
pub fn commit(alloc: Global, payload: &[u8]) -> Result<Option<CommitProof>, AllocError>
    ensures { GivesUnlessFull result (commit_at payload.now) }
{
    let Some(fields) = commit_parts(payload) else {
        return Ok(None);
    };
    let rows = list16::<CommitRow>(alloc, fields.rows, MOST_ROWS)?;
    Ok(Some(CommitProof {
        k: fields.k,
        start: fields.start,
        count: fields.count,
        commitment: fields.commitment,
        rows,
    }))
}

/// Whether one of several rows has more subtrees than can be written.
fn has_long_row(rows: &[CommitRow]) -> bool
    ensures { result ≡ list_any is_long_row rows.now }
{
    rows.iter()
        .any(|row| row.subtrees.len() > MOST_SUBTREES as usize)
}

/// Whether a commitment proof has more rows than can be written, or more subtrees in one of them.
fn is_long_commit(proof: &CommitProof) -> bool
    ensures { result ≡ is_long_commit proof.now }
{
    proof.rows.len() > MOST_ROWS as usize || has_long_row(&proof.rows)
}

/// A row is its root, the hashes that lead from it to the data root, its subtrees, and its nodes.
impl Text for CommitRow {
    ghost text = { row_bytes };

    fn put<O: Out>(&self, out: &mut O) -> Result<(), Full> {
        out.put(&self.root.0)?;
        put_short(out, self.up.hashes())?;
        put_list16(out, &self.subtrees)?;
        put_short(out, self.nodes.nodes())
    }
}

impl Text for CommitProof {
    ghost text = { commit_payload };

    fn put<O: Out>(&self, out: &mut O) -> Result<(), Full> {
        out.put(&self.k.to_be_bytes())?;
        out.put(&self.start.to_be_bytes())?;
        out.put(&self.count.to_be_bytes())?;
        out.put(&self.commitment)?;
        put_list16(out, &self.rows)
    }
}

/// The length of the payload of a commitment proof, none where it has too many rows or too many subtrees
/// in one of them.
pub fn commit_size(proof: &CommitProof) -> Option<u32>
    ensures { IsSize (is_long_commit proof.now) (commit_payload proof.now) result }
{
    if is_long_commit(proof) {
        return None;
    }
    size_of(proof)
}

/// Appends the payload of a commitment proof.
pub fn put_commit(out: &mut Vec<u8>, proof: &CommitProof)
    requires short { is_long_commit proof.now ≡ false }
    requires capacity { HasCapacity out.old (length (commit_payload proof.now)) }
    ensures appended { out.new.items ≡ out.old.items ++ commit_payload proof.now }
{
    append_text(out, proof);
}
