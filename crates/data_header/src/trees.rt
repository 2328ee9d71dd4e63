//! The plain Merkle tree over a header's axis roots with the hashes of all its nodes, for many proofs
//! under one data root.

ghost use Rattle.std.specs.Prelude.{◌≡◌, ◌<◌, ◌≤◌, ◌+◌, ◌*◌, ◌^◌, ◌++◌, ℕ, IfOk, length, get_or, true};
ghost use Rattle.namespace_id.specs.Cells.{is_width};
ghost use Rattle.namespace_id.specs.Digests.{no_digest};
ghost use Rattle.data_header.specs.Headers.{root_of};
ghost use Rattle.data_header.specs.DataRoots.{leaf_hash, inner_hash, merkle_root, data_root_of, OpensRoot};
ghost use Rattle.data_header.specs.Paths.{most_hashes};
ghost use Rattle.data_header.specs.HashTrees.{hash_at, beside, siblings, AreTreeHashes};

use crate::batches::{BATCH, MESSAGES, eight_leaves, eight_nodes};
use crate::hashing::{inner_hash, leaf_hash};
use crate::proving::{root_halvings, root_place};
use crate::{Header, RootPath};
use namespace_id::{Axis, Digest, NoMemory};
use std::alloc::Global;
use std::marker::Model;

/// So many digests are few: the hashes of all nodes over them stand in an array.
pub(crate) const FEW: usize = 256;

/// Puts eight hashes, from a place on.
fn put_eight(hashes: &mut [[u8; 32]], at: usize, made: &[[u8; 32]; BATCH])
    requires { at + 8 ≤ length hashes.old }
    ensures count { length hashes.new ≡ length hashes.old }
    ensures put { (j : ℕ) → j < 8 → hash_at hashes.new (at + j) ≡ hash_at made.now j }
    ensures before { (i : ℕ) → i < at → hash_at hashes.new i ≡ hash_at hashes.old i }
    ensures behind { (i : ℕ) → at + 8 ≤ i → hash_at hashes.new i ≡ hash_at hashes.old i }
{
    for j in 0..BATCH {
        hashes[at + j] = made[j];
    }
}

/// Puts the hashes of leaves over digests, from a place on.
fn put_leaves(hashes: &mut [[u8; 32]], at: usize, digests: &[Digest])
    requires { at + length digests.now ≤ length hashes.old }
    ensures count { length hashes.new ≡ length hashes.old }
    ensures put { (i : ℕ) → i < length digests.now →
        hash_at hashes.new (at + i) ≡ leaf_hash (get_or digests.now i no_digest) }
    ensures kept { (i : ℕ) → i < at → hash_at hashes.new i ≡ hash_at hashes.old i }
{
    let eights = digests.len() / BATCH;
    let mut messages = MESSAGES;
    'eights: for eight in 0..eights {
        let first = BATCH * eight;
        let made = eight_leaves(&mut messages, &digests[first..first + BATCH]);
        put_eight(hashes, at + first, &made);
    }
    'rest: for i in BATCH * eights..digests.len() {
        hashes[at + i] = leaf_hash(&digests[i]);
    }
}

/// Puts the hashes of the nodes over so many leaves, from the last one up to the root.
fn put_inner(hashes: &mut [[u8; 32]], count: usize)
    requires { length hashes.old ≡ 2 * count }
    ensures count { length hashes.new ≡ length hashes.old }
    ensures leaves { (i : ℕ) → count ≤ i → hash_at hashes.new i ≡ hash_at hashes.old i }
    ensures inner { (i : ℕ) → 0 < i → i < count →
        hash_at hashes.new i ≡ inner_hash (hash_at hashes.new (2 * i)) (hash_at hashes.new (2 * i + 1)) }
{
    // The first eight places are no eight of one level.
    let eights = (count / BATCH).saturating_sub(1);
    let mut messages = MESSAGES;
    'eights: for eight in 0..eights {
        let first = count - BATCH * (eight + 1);
        let made = eight_nodes(&mut messages, &hashes[2 * first..2 * first + 2 * BATCH]);
        put_eight(hashes, first, &made);
    }
    'rest: for done in BATCH * eights + 1..count {
        let i = count - done;
        hashes[i] = inner_hash(&hashes[2 * i], &hashes[2 * i + 1]);
    }
}

/// Puts the hashes of the tree over digests.
fn put_tree(digests: &[Digest], hashes: &mut [[u8; 32]])
    requires { length hashes.old ≡ 2 * length digests.now }
    ensures { AreTreeHashes digests.now hashes.new }
{
    put_leaves(hashes, digests.len(), digests);
    put_inner(hashes, digests.len());
}

/// The root over few digests, by the hashes of all nodes, eight at a time. It takes no memory.
pub(crate) fn few_root(digests: &[Digest]) -> [u8; 32]
    requires some { 0 < length digests.now }
    requires few { length digests.now ≤ FEW }
    ensures { (depth : ℕ) → length digests.now ≡ 2 ^ depth →
        result ≡ merkle_root depth digests.now }
{
    let mut hashes = [[0; 32]; 2 * FEW];
    let hashes = &mut hashes[..2 * digests.len()];
    put_tree(digests, hashes);
    hashes[1]
}

/// Puts the hashes of the tree over the axis roots of a header.
fn put_hashes(header: &Header, hashes: &mut [[u8; 32]])
    requires { length hashes.old ≡ 2 * length (header.now.rows ++ header.now.cols) }
    ensures { AreTreeHashes (header.now.rows ++ header.now.cols) hashes.new }
{
    let side = header.rows.len();
    put_leaves(hashes, 2 * side, &header.rows);
    put_leaves(hashes, 3 * side, &header.cols);
    put_inner(hashes, 2 * side);
}

/// The place beside one, below the same node.
fn beside(place: usize) -> usize
    ensures { result ≡ beside place }
{
    if place % 2 == 0 { place + 1 } else { place - 1 }
}

/// The hashes beside the way from a place up to the root, so many levels below it.
fn siblings_from(hashes: &[[u8; 32]], place: usize, levels: usize) -> RootPath
    requires few { levels ≤ most_hashes }
    requires place { place < length hashes.now }
    requires even { length hashes.now ≡ 2 * 2 ^ levels }
    ensures { result ≡ siblings levels hashes.now place }
{
    let mut path = RootPath::new();
    let mut at = place;
    for _ in 0..levels {
        path.push(hashes[beside(at)]);
        at /= 2;
    }
    path
}

/// The hashes that lead from an axis root to the data root of its header.
fn proof_from(header: &Header, hashes: &[[u8; 32]], axis: Axis, index: u16) -> RootPath
    requires index { index < 2 * header.now.k }
    requires hashes { AreTreeHashes (header.now.rows ++ header.now.cols) hashes.now }
    ensures { OpensRoot (data_root_of header.now) header.now.k axis index (root_of header.now axis index) result }
{
    let k = header.k;
    let place = 4 * k as usize + root_place(k, axis, index);
    siblings_from(hashes, place, root_halvings(k))
}

/// The plain Merkle tree over the 4k axis roots of a data availability header, with the hashes of all its
/// nodes: they are made once, and each proof under the header's data root reads them. Contracts see the
/// header.
///
/// Celestia specifications, "Data Structures", available data header; RFC 6962, 2.1.
#[derive(Drop)]
pub struct DataTree {
    header: Header,
    hashes: Vec<[u8; 32]>,
}

impl Model for DataTree {
    ghost use Rattle.std.specs.Prelude.{◌++◌};
    ghost use Rattle.data_header.specs.Headers.{Roots};
    ghost use Rattle.data_header.specs.HashTrees.{AreTreeHashes};

    ghost Value = { Roots };

    ghost view = { λ t. t.header };

    ghost invariant = { λ t. AreTreeHashes (t.header.rows ++ t.header.cols) t.hashes.items };
}

impl DataTree {
    /// Hashes the tree over the axis roots of a header, and keeps a copy of these.
    ///
    /// It takes memory for 4k digests and 8k hashes. The one refusal is that it is out of memory.
    ///
    /// RFC 6962, 2.1.
    pub fn of(alloc: Global, header: &Header) -> Result<DataTree, NoMemory>
        ensures { IfOk result (λ tree. tree ≡ header.now) }
    {
        let header = header.copy(alloc)?;
        let Ok(mut hashes) = vec![in alloc; [0; 32]; 4 * header.rows.len()] else {
            return Err(NoMemory);
        };
        put_hashes(&header, &mut hashes);
        Ok(DataTree { header, hashes })
    }

    /// The width of the header.
    pub fn width(&self) -> u16
        ensures value { result ≡ self.now.k }
        ensures width { is_width result ≡ true }
    {
        self.header.k
    }

    /// The root of an axis, the row or column of this index, below 2k.
    pub fn root_of(&self, axis: Axis, index: u16) -> Digest
        requires { index < 2 * self.now.k }
        ensures { result ≡ root_of self.now axis index }
    {
        self.header.root_of(axis, index)
    }

    /// Makes the Merkle proof of an axis root under the header's data root, as `make_root_proof` does, but
    /// hashes nothing. The index is below 2k. It takes no memory.
    ///
    /// Celestia specifications, "Data Structures", available data header; RFC 6962, 2.1.1.
    pub fn proof(&self, axis: Axis, index: u16) -> RootPath
        requires { index < 2 * self.now.k }
        ensures { OpensRoot (data_root_of self.now) self.now.k axis index (root_of self.now axis index) result }
    {
        proof_from(&self.header, &self.hashes, axis, index)
    }
}
