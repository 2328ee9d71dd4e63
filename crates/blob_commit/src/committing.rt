//! The commitment of a blob's shares.

ghost use Rattle.std.specs.Prelude.{◌≡◌, ◌<◌, ◌≤◌, length, take, map, is_some, IsTrue, IfOk, IsErrOf, ◌↔◌, []};
ghost use Rattle.namespace_id.specs.Shares.{name_in};
ghost use Rattle.nmt_tree.specs.Roots.{is_leaf_count};
ghost use Rattle.share_split.specs.Blobs.{blob_shares_of, share_count};
ghost use Rattle.square_layout.specs.Refusals.{max_shares};
ghost use Rattle.blob_commit.specs.Commitments.{subtree_root, commitment_over};

use crate::buffers::Hashes;
use crate::cutting::{cut_by, levels_of};
use crate::hashing::root_over;
use data_header::leaf_hash;
use namespace_id::{BLANK_DIGEST, Digest, MOST_DEPTH, NAMESPACE_SIZE, Namespace, Share};
use nmt_tree::{fold_leaves, node, plain_root};
use share_split::{Blob, blob_laws, blob_share_count, blob_shares};
use square_layout::MAX_SHARES;
use std::alloc::Global;
use thiserror::Error;

/// So many shares are few: their namespaces and digests stand in arrays.
const FEW: usize = 128;

/// How many leaves are hashed side by side.
const BATCH: usize = 8;

/// Why a blob has no commitment. The variants stand in the order in which they are tested.
#[derive(Clone, Copy, Debug, PartialEq, Eq, Error)]
pub enum CommitError {
    /// There are no bytes.
    #[error("a blob has at least one byte")]
    Empty,
    /// There are more shares than the greatest square has.
    #[error("a blob has at most 262144 shares")]
    TooLarge,
    /// There was no memory.
    #[error("out of memory")]
    NoMemory,
}

/// Writes the namespaces that shares begin with.
fn put_names(shares: &[Share], names: &mut [Namespace])
    requires room { length shares.now ≡ length names.old }
    ensures { names.new ≡ map name_in shares.now }
{
    for i in 0..shares.len() {
        names[i] = shares[i].namespace();
    }
}

/// The root of a subtree over few shares. Leaves and nodes are hashed eight at a time where there are as
/// many.
fn few_root(shares: &[Share]) -> Digest
    requires count { IsTrue (is_leaf_count (length shares.now)) }
    requires few { length shares.now ≤ FEW }
    ensures { result ≡ subtree_root shares.now }
{
    let mut names = [Namespace([0; NAMESPACE_SIZE]); FEW];
    let names = &mut names[..shares.len()];
    put_names(shares, names);
    if shares.len() < BATCH {
        return plain_root(names, shares);
    }
    let mut digests = [BLANK_DIGEST; FEW];
    fold_leaves(names, shares, &mut digests[..shares.len()])
}

/// The root of a subtree over shares, each a leaf under the namespace that it begins with.
fn subtree_root(shares: &[Share]) -> Digest
    requires { IsTrue (is_leaf_count (length shares.now)) }
    ensures { result ≡ subtree_root shares.now }
{
    if shares.len() <= FEW {
        return few_root(shares);
    }
    let (left, right) = shares.split_at(shares.len() / 2);
    node(&subtree_root(left), &subtree_root(right))
}

/// The commitment of shares, 32 bytes: they are cut into subtrees, and it is the plain SHA-256
/// Merkle root over the roots of these. There is a share at least, and there are at most
/// `MAX_SHARES`. It takes no memory.
///
/// Celestia specifications, "Data Square Layout", blob share commitment rules; RFC 6962, 2.1.
pub fn commitment(shares: &[Share]) -> [u8; 32]
    requires some { 1 ≤ length shares.now }
    requires bound { length shares.now ≤ max_shares }
    ensures { result ≡ commitment_over shares.now }
{
    let count = shares.len() as u32;
    let sizes = cut_by(levels_of(count), count);
    let sizes = sizes.sizes();
    let mut hashes = Hashes::new();
    let mut rest = shares;
    for i in 0..sizes.len() {
        let (piece, after) = rest.split_at(sizes[i] as usize);
        hashes.push(leaf_hash(&subtree_root(piece)));
        rest = after;
    }
    root_over(MOST_DEPTH as u8, hashes.hashes())
}

/// The commitment of a blob: that of its shares, the first of which has its signer, if there is one.
/// The memory for these is taken at once.
///
/// Refuses a blob without bytes (`Empty`), then one of more than `MAX_SHARES` shares (`TooLarge`),
/// then out of memory.
///
/// Celestia specifications, "Data Square Layout", blob share commitment rules.
pub fn commitment_of(alloc: Global, blob: &Blob) -> Result<[u8; 32], CommitError>
    ensures value { IfOk result (λ commitment.
        commitment ≡ commitment_over (blob_shares_of blob.now.namespace blob.now.signer blob.now.bytes)) }
    ensures empty { IsErrOf result CommitError.Empty ↔ (blob.now.bytes ≡ []) }
    ensures too_large { IsErrOf result CommitError.TooLarge ↔
        (1 ≤ length blob.now.bytes) ×
        (max_shares < share_count (length blob.now.bytes) (is_some blob.now.signer)) }
{
    if blob.bytes.is_empty() {
        return Err(CommitError::Empty);
    }
    if blob_share_count(blob.bytes.len() as u64, blob.signer.is_some()) > MAX_SHARES {
        return Err(CommitError::TooLarge);
    }
    blob_laws();
    let mut shares = Vec::new(alloc);
    let signer = blob.signer.as_ref();
    let Ok(()) = blob_shares(&blob.namespace, &blob.bytes, signer, &mut shares) else {
        return Err(CommitError::NoMemory);
    };
    Ok(commitment(&shares))
}
