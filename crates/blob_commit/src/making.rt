//! Commitment proofs that are made from the trees of a square's rows.

ghost use Rattle.std.specs.Prelude.{◌≡◌, ◌↔◌, ◌+◌, ◌-◌, ◌*◌, ◌%◌, ◌^◌, ◌<◌, ◌≤◌, ◌++◌, length, IsTrue, IsSome, IsErrOf, IfOk, OnOk, true, false};
ghost use Rattle.std.specs.Option.{ForSome};
ghost use Rattle.namespace_id.specs.declared.cells.Axis.TheVariants.{Row};
ghost use Rattle.namespace_id.specs.Cells.{is_width};
ghost use Rattle.namespace_id.specs.Sizes.{most_leaves};
ghost use Rattle.nmt_tree.specs.Roots.{halvings};
ghost use Rattle.nmt_proofs.specs.Openings.{intervals_from, Opens};
ghost use Rattle.nmt_proofs.specs.Places.{AreAligned};
ghost use Rattle.nmt_proofs.specs.Making.{interval_digests};
ghost use Rattle.data_header.specs.DataRoots.{data_root_of, OpensRoot};
ghost use Rattle.blob_commit.specs.Bounds.{most_levels};
ghost use Rattle.blob_commit.specs.Cuts.{levels_of};
ghost use Rattle.blob_commit.specs.Proofs.{is_range, CommitHolds};
ghost use Rattle.blob_commit.specs.Making.{IsHeaderRowTree, BeginWithRowTrees, RowsHold, AddsRow, AddsRows};

use crate::buffers::Hashes;
use crate::cutting::{cut_by, levels_of};
use crate::hashing::root_over;
use crate::proofs::{CommitProof, CommitRow};
use crate::proving::{is_range, part_of_row, put_rows};
use data_header::DataTree;
use namespace_id::{Axis, Digest, MOST_DEPTH, NoMemory};
use nmt_proofs::make_nodes;
use nmt_tree::Tree;
use std::alloc::Global;
use thiserror::Error;

/// Why no commitment proof is made. The variants stand in the order in which they are tested.
#[derive(Clone, Copy, Debug, PartialEq, Eq, Error)]
pub enum ProveError {
    /// The range is empty, goes past the square, or doesn't begin at a multiple of the width of its
    /// subtrees.
    #[error("the range is none of the square's")]
    Range,
    /// There was no memory.
    #[error("out of memory")]
    NoMemory,
}

impl From<NoMemory> for ProveError {
    ghost use Rattle.blob_commit.specs.declared.making.ProveError.TheVariants.{NoMemory as Full};

    ghost from_gives = { λ _ e. e ≡ Full };

    fn from(_error: NoMemory) -> ProveError {
        ProveError::NoMemory
    }
}

/// Adds the digests of neighboring subtrees of a tree, from a place on.
fn put_subtrees(
    tree: &Tree,
    from: u16,
    sizes: &[u16],
    subtrees: &mut Vec<Digest>,
) -> Result<(), NoMemory>
    requires filled { IsSome tree.now.leaves }
    requires small { tree.now.count ≤ most_leaves }
    requires places { AreAligned from tree.now.count sizes.now }
    ensures { OnOk result (ForSome tree.now.leaves (λ leaves.
        subtrees.new.items ≡ subtrees.old.items ++ interval_digests leaves from sizes.now)) }
{
    let Some((size, others)) = sizes.split_first() else {
        return Ok(());
    };
    let Ok(()) = subtrees.push(tree.full_digest(from, *size)) else {
        return Err(NoMemory);
    };
    put_subtrees(tree, from + *size, others, subtrees)
}

/// Makes a row of a commitment proof, from the tree of a row of the original square: for the
/// subtrees of these sizes from a place on.
fn make_row(
    alloc: Global,
    roots: &DataTree,
    tree: &Tree,
    index: u16,
    from: u16,
    sizes: &[u16],
) -> Result<CommitRow, NoMemory>
    requires width { IsTrue (is_width roots.now.k) }
    requires index { index < roots.now.k }
    requires tree { IsHeaderRowTree roots.now index tree.now }
    requires some { 0 < length sizes.now }
    requires places { AreAligned from (2 * roots.now.k) sizes.now }
    ensures lead { IfOk result (λ row.
        OpensRoot (data_root_of roots.now) roots.now.k Row index row.root row.up) }
    ensures count { IfOk result (λ row. length row.subtrees ≡ length sizes.now) }
    ensures opens { IfOk result (λ row. Opens (halvings (2 * roots.now.k))
        (intervals_from from sizes.now row.subtrees) row.nodes row.root) }
{
    let mut subtrees = Vec::new(alloc);
    put_subtrees(tree, from, sizes, &mut subtrees)?;
    Ok(CommitRow {
        root: roots.root_of(Axis::Row, index),
        up: roots.proof(Axis::Row, index),
        subtrees,
        nodes: make_nodes(tree, from, sizes),
    })
}

/// What is left of a range: the index of its first share, and how many there are.
#[derive(Clone, Copy)]
struct Rest {
    at: u32,
    left: u32,
}

/// Adds the row that what is left of a range begins in. Its stack is free again before the next row.
#[inline(never)]
fn add_row(
    alloc: Global,
    roots: &DataTree,
    trees: &[Tree],
    levels: u8,
    rest: Rest,
    rows: &mut Vec<CommitRow>,
) -> Result<(), NoMemory>
    requires number { roots.now.k ≤ length trees.now }
    requires trees { BeginWithRowTrees roots.now trees.now }
    requires levels { 1 ≤ levels }
    requires bound { levels ≤ most_levels }
    requires some { 0 < rest.left }
    requires within { rest.at + rest.left ≤ roots.now.k * roots.now.k }
    requires divides { roots.now.k % 2 ^ (levels - 1) ≡ 0 }
    requires begins { rest.at % 2 ^ (levels - 1) ≡ 0 }
    ensures { OnOk result (AddsRow (data_root_of roots.now) roots.now.k levels rest.at rest.left
        rows.old.items rows.new.items) }
{
    let k = roots.width();
    let part = part_of_row(k, rest.at, rest.left);
    let sizes = cut_by(levels, part);
    let index = (rest.at / k as u32) as u16;
    let from = (rest.at % k as u32) as u16;
    let tree = &trees[index as usize];
    let row = make_row(alloc, roots, tree, index, from, sizes.sizes())?;
    let Ok(()) = rows.push(row) else {
        return Err(NoMemory);
    };
    Ok(())
}

/// Adds the rows that what is left of a range touches.
fn add_rows(
    alloc: Global,
    roots: &DataTree,
    trees: &[Tree],
    levels: u8,
    rest: Rest,
    rows: &mut Vec<CommitRow>,
) -> Result<(), NoMemory>
    requires number { roots.now.k ≤ length trees.now }
    requires trees { BeginWithRowTrees roots.now trees.now }
    requires levels { 1 ≤ levels }
    requires bound { levels ≤ most_levels }
    requires within { rest.at + rest.left ≤ roots.now.k * roots.now.k }
    requires divides { roots.now.k % 2 ^ (levels - 1) ≡ 0 }
    requires begins { 0 < rest.left → rest.at % 2 ^ (levels - 1) ≡ 0 }
    ensures { OnOk result (AddsRows (data_root_of roots.now) roots.now.k levels rest.at rest.left
        rows.old.items rows.new.items) }
{
    if rest.left == 0 {
        return Ok(());
    }
    add_row(alloc, roots, trees, levels, rest, rows)?;
    let part = part_of_row(roots.width(), rest.at, rest.left);
    let rest = Rest {
        at: rest.at + part,
        left: rest.left - part,
    };
    add_rows(alloc, roots, trees, levels, rest, rows)
}

/// The rows of a proof of the commitment of the shares in a range of the square.
fn rows_of(
    alloc: Global,
    roots: &DataTree,
    trees: &[Tree],
    start: u32,
    count: u32,
) -> Result<Vec<CommitRow>, NoMemory>
    requires width { IsTrue (is_width roots.now.k) }
    requires number { roots.now.k ≤ length trees.now }
    requires trees { BeginWithRowTrees roots.now trees.now }
    requires range { is_range roots.now.k start count ≡ true }
    ensures { IfOk result (λ rows. RowsHold (data_root_of roots.now) roots.now.k (levels_of count)
        start count rows.items) }
{
    let rest = Rest {
        at: start,
        left: count,
    };
    let mut rows = Vec::new(alloc);
    add_rows(alloc, roots, trees, levels_of(count), rest, &mut rows)?;
    Ok(rows)
}

/// Makes a proof of the commitment of the `count` shares from the row-major index `start` on, under
/// the data root of a header, from the tree over its roots. `trees` begin with the trees over the leaves
/// of the rows 0 to k - 1, none of them empty. No digest is hashed anew but for the commitment.
///
/// Refuses a range that has no share, that goes past the `k * k` shares of the square, or that
/// doesn't begin at a multiple of the width of its subtrees (`Range`), then out of memory. It
/// takes memory for the rows, and for the digests in each.
///
/// Celestia specifications, "Square Layout"; docs/RULES.md, "Commitment proofs".
pub fn prove_commit(
    alloc: Global,
    roots: &DataTree,
    trees: &[Tree],
    start: u32,
    count: u32,
) -> Result<CommitProof, ProveError>
    requires number { roots.now.k ≤ length trees.now }
    requires trees { BeginWithRowTrees roots.now trees.now }
    ensures range { IsErrOf result ProveError.Range ↔
        (is_range roots.now.k start count ≡ false) }

    // The proof is of this range, and holds under the header's data root.
    ensures k { IfOk result (λ proof. proof.k ≡ roots.now.k) }
    ensures start { IfOk result (λ proof. proof.start ≡ start) }
    ensures count { IfOk result (λ proof. proof.count ≡ count) }
    ensures holds { IfOk result (λ proof. CommitHolds (data_root_of roots.now) proof) }
{
    let k = roots.width();
    if !is_range(k, start, count) {
        return Err(ProveError::Range);
    }
    let rows = rows_of(alloc, roots, trees, start, count)?;
    let mut hashes = Hashes::new();
    put_rows(&rows, &mut hashes);
    let commitment = root_over(MOST_DEPTH as u8, hashes.hashes());
    Ok(CommitProof {
        k,
        start,
        count,
        commitment,
        rows,
    })
}
