//! Whether a commitment proof holds under a data root.

ghost use Rattle.std.specs.Prelude.{◌≡◌, ◌<◌, ◌≤◌, ◌+◌, ◌*◌, ◌%◌, ◌^◌, ◌-◌, ◌++◌, ◌↔◌, length, IsOk, IsErrOf, IsTrue, true, false, ℕ, List, Some, None};
ghost use Rattle.namespace_id.specs.Answers.{refusal_in};
ghost use Rattle.nmt_proofs.specs.declared.opening.OpenRefusal.{OpenRefusal as Refusal};
ghost use Rattle.namespace_id.specs.declared.cells.Axis.TheVariants.{Row};
ghost use Rattle.namespace_id.specs.Cells.{is_width};
ghost use Rattle.data_header.specs.Headers.{Roots};
ghost use Rattle.data_header.specs.DataRoots.{data_root_of, OpensRoot};
ghost use Rattle.square_layout.specs.Refusals.{max_shares};
ghost use Rattle.namespace_id.specs.Sizes.{greatest_width};
ghost use Rattle.blob_commit.specs.Bounds.{most_levels, most_subtrees};
ghost use Rattle.blob_commit.specs.Commitments.{leaf_hashes};
ghost use Rattle.blob_commit.specs.Proofs.{part_of_row, is_range, fits_rows, row_sizes, subtrees_of, has_commit_shape, CommitHolds};
ghost use Rattle.blob_commit.specs.Refusals.{is_led, first_unled, row_refusal, first_unopened, unled_row, unopened_row, has_commitment, commit_refusal};
ghost use Rattle.blob_commit.specs.Places.{IsOwnCommit};

use crate::buffers::Hashes;
use crate::commit_laws;
use crate::cutting::{cut_by, cut_count, levels_of};
use crate::hashing::root_over;
use crate::proofs::{CommitProof, CommitRow};
use crate::sizes::commit_law;
use data_header::{leaf_hash, open_root};
use namespace_id::{Axis, Digest, MOST_DEPTH, is_width};
use nmt_proofs::{OpenRefusal, open_nodes};
use share_split::subtree_width;
use thiserror::Error;

/// Why a commitment proof is refused. The variants stand in the order in which they are tested.
#[derive(Clone, Copy, Debug, PartialEq, Eq, Error)]
pub enum CommitRefusal {
    /// k isn't a width, the range isn't one that is proved, the rows aren't those that it touches,
    /// or a row hasn't a digest for each of its subtrees.
    #[error("the range, its rows or their subtrees do not fit the width")]
    Shape,
    /// The number of the first row whose hashes don't lead from its root to the data root.
    #[error("the root of row {0} does not lead to the data root")]
    Root(u32),
    /// The number of the first row whose subtrees don't open under its root.
    #[error("the subtrees of row {0} do not open: {1}")]
    Nodes(u32, OpenRefusal),
    /// The plain Merkle root over all subtrees is another.
    #[error("the subtrees have another commitment")]
    Commitment,
}

/// Whether a range lies in a square of width `k`, isn't empty, and begins at a multiple of the
/// width of its subtrees.
///
/// Celestia specifications, "Square Layout".
pub(crate) fn is_range(k: u16, start: u32, count: u32) -> bool
    requires { IsTrue (is_width k) }
    ensures { result ≡ is_range k start count }
{
    if count == 0 || start as u64 + count as u64 > k as u64 * k as u64 {
        return false;
    }
    start as u64 % subtree_width(count as u64) == 0
}

/// How many of `left` shares from the index `at` on lie in its row.
pub(crate) fn part_of_row(k: u16, at: u32, left: u32) -> u32
    requires { 0 < k }
    ensures { result ≡ part_of_row k at left }
{
    let rest = k as u32 - at % k as u32;
    if left <= rest { left } else { rest }
}

/// Whether rows are those that `left` shares from an index on touch, and each has a digest for each
/// subtree in it.
fn fits_rows(k: u16, levels: u8, at: u32, left: u32, rows: &[CommitRow]) -> bool
    requires width { IsTrue (is_width k) }
    requires levels { 1 ≤ levels }
    requires bound { levels ≤ most_levels }
    requires within { at + left ≤ max_shares }
    ensures { result ≡ fits_rows k levels at left rows.now }
{
    let Some((row, others)) = rows.split_first() else {
        return left == 0;
    };
    if left == 0 {
        return false;
    }
    let part = part_of_row(k, at, left);
    let subtrees: &[Digest] = &row.subtrees;
    if subtrees.len() != cut_count(levels, part) as usize {
        return false;
    }
    fits_rows(k, levels, at + part, left - part, others)
}

/// Whether the hashes of a row lead from its root to the data root. Its stack is free again before the
/// next row.
#[inline(never)]
fn is_led(root: &[u8; 32], k: u16, index: u16, row: &CommitRow) -> bool
    ensures { IsTrue result ↔ OpensRoot root.now k Row index row.now.root row.now.up }
{
    open_root(root, k, Axis::Row, index, &row.root, &row.up)
}

/// The number of the first row whose hashes don't lead to the data root.
fn first_unled(root: &[u8; 32], k: u16, index: u16, number: u32, rows: &[CommitRow]) -> Option<u32>
    requires index { index + length rows.now ≤ greatest_width }
    requires number { number + length rows.now ≤ greatest_width }
    ensures { result ≡ first_unled root.now k index number rows.now }
{
    let Some((row, others)) = rows.split_first() else {
        return None;
    };
    if !is_led(root, k, index, row) {
        return Some(number);
    }
    first_unled(root, k, index + 1, number + 1, others)
}

/// Adds the hashes of the leaves over digests. Its stack is free again before those of the next row.
#[inline(never)]
fn put_digests(digests: &[Digest], hashes: &mut Hashes)
    requires { length hashes.old + length digests.now ≤ most_subtrees }
    ensures { hashes.new ≡ hashes.old ++ leaf_hashes digests.now }
{
    for digest in digests {
        hashes.push(leaf_hash(digest));
    }
}

/// Adds those over the subtrees of rows.
pub(crate) fn put_rows(rows: &[CommitRow], hashes: &mut Hashes)
    requires { length hashes.old + length (subtrees_of rows.now) ≤ most_subtrees }
    ensures { hashes.new ≡ hashes.old ++ leaf_hashes (subtrees_of rows.now) }
{
    let Some((row, others)) = rows.split_first() else {
        return;
    };
    put_digests(&row.subtrees, hashes);
    put_rows(others, hashes);
}

/// Why the subtrees of a row don't open under its root. Its stack is free again before the next row.
#[inline(never)]
fn row_refusal(k: u16, levels: u8, at: u32, left: u32, row: &CommitRow) -> Option<OpenRefusal>
    requires width { IsTrue (is_width k) }
    requires levels { 1 ≤ levels }
    requires bound { levels ≤ most_levels }
    requires some { 0 < left }
    requires divides { k % 2 ^ (levels - 1) ≡ 0 }
    requires begins { at % 2 ^ (levels - 1) ≡ 0 }
    requires fits { length row.now.subtrees ≡ length (row_sizes k levels at left) }
    ensures { result ≡ row_refusal k levels at left row.now }
{
    let part = part_of_row(k, at, left);
    let sizes = cut_by(levels, part);
    let from = (at % k as u32) as u16;
    let opened = open_nodes(
        2 * k,
        from,
        sizes.sizes(),
        &row.subtrees,
        row.nodes.nodes(),
        &row.root,
    );
    match opened {
        Ok(()) => None,
        Err(why) => Some(why),
    }
}

/// The number of the first row whose subtrees don't open under its root, and why.
fn first_unopened(
    k: u16,
    levels: u8,
    at: u32,
    left: u32,
    number: u32,
    rows: &[CommitRow],
) -> Option<(u32, OpenRefusal)>
    requires width { IsTrue (is_width k) }
    requires levels { 1 ≤ levels }
    requires bound { levels ≤ most_levels }
    requires within { at + left ≤ k * k }
    requires divides { k % 2 ^ (levels - 1) ≡ 0 }
    requires begins { 0 < left → at % 2 ^ (levels - 1) ≡ 0 }
    requires fits { fits_rows k levels at left rows.now ≡ true }
    requires number { number + length rows.now ≤ greatest_width }
    ensures { result ≡ first_unopened k levels at left number rows.now }
{
    let Some((row, others)) = rows.split_first() else {
        return None;
    };
    if let Some(why) = row_refusal(k, levels, at, left, row) {
        return Some((number, why));
    }
    let part = part_of_row(k, at, left);
    first_unopened(k, levels, at + part, left - part, number + 1, others)
}

/// The four checks in their order.
fn judge(root: &[u8; 32], proof: &CommitProof) -> Result<(), CommitRefusal>
    ensures { refusal_in result ≡ commit_refusal root.now proof.now }
{
    let k = proof.k;
    let start = proof.start;
    let count = proof.count;
    if !is_width(k) || !is_range(k, start, count) {
        return Err(CommitRefusal::Shape);
    }
    let levels = levels_of(count);
    if !fits_rows(k, levels, start, count, &proof.rows) {
        return Err(CommitRefusal::Shape);
    }
    let index = (start / k as u32) as u16;
    if let Some(i) = first_unled(root, k, index, 0, &proof.rows) {
        return Err(CommitRefusal::Root(i));
    }
    if let Some((i, why)) = first_unopened(k, levels, start, count, 0, &proof.rows) {
        return Err(CommitRefusal::Nodes(i, why));
    }
    let mut hashes = Hashes::new();
    put_rows(&proof.rows, &mut hashes);
    if root_over(MOST_DEPTH as u8, hashes.hashes()) == proof.commitment {
        Ok(())
    } else {
        Err(CommitRefusal::Commitment)
    }
}

/// Verifies a proof of a commitment under a data root: whether the root of each row that the range
/// touches leads to the data root, the digests of its subtrees open under that, and the commitment
/// is the plain Merkle root over all of them. Under the data root of a square it then is the
/// commitment of the square's shares in the range, or it and the square name two strings with one
/// SHA-256 digest.
///
/// Refuses another shape, then the first row that doesn't lead to the data root, then the first row
/// whose subtrees don't open, with the reason of `open_nodes`, then another commitment. It takes no
/// memory.
///
/// docs/RULES.md, "Commitment proofs".
pub fn check_commit(root: &[u8; 32], proof: &CommitProof) -> Result<(), CommitRefusal>
    ensures accepts { IsOk result ↔ CommitHolds root.now proof.now }

    // Each refusal comes exactly where its test is the first that fails.
    ensures shape { IsErrOf result CommitRefusal.Shape ↔ (has_commit_shape proof.now ≡ false) }
    ensures root { (i : ℕ) → IsErrOf result (CommitRefusal.Root i) ↔
        (has_commit_shape proof.now ≡ true) × (unled_row root.now proof.now ≡ Some i) }
    ensures nodes { (i : ℕ) (why : Refusal) → IsErrOf result (CommitRefusal.Nodes i why) ↔
        (has_commit_shape proof.now ≡ true)
        × (unled_row root.now proof.now ≡ None)
        × (unopened_row proof.now ≡ Some (i, why)) }
    ensures commitment { IsErrOf result CommitRefusal.Commitment ↔
        (has_commit_shape proof.now ≡ true)
        × (unled_row root.now proof.now ≡ None)
        × (unopened_row proof.now ≡ None)
        × (has_commitment proof.now ≡ false) }

    // All of these at once.
    ensures first { refusal_in result ≡ commit_refusal root.now proof.now }

    // Under the data root of a square's header, what is accepted is of the square's shares, or the
    // proof and the square name a collision.
    ensures own { (header : Roots) → root.now ≡ data_root_of header → IsOk result →
        IsOwnCommit header proof.now }
{
    commit_law(proof);
    commit_laws();
    judge(root, proof)
}
