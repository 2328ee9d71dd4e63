//! What is true of every proof: its digests and hashes have their lengths.

ghost use Rattle.std.specs.List.{AllByRecursion};
ghost use Rattle.namespace_id.specs.Bytes.{IsString};
ghost use Rattle.blob_commit.specs.Proofs.{IsRow, IsCommit, IsRooted};

use crate::proofs::{CommitProof, CommitRow, RootedMessage};
use axis_roots::message_law;
use namespace_id::{bytes_law, digest_law, digests_law};

/// A hash has 32 bytes.
fn hash_law(hash: &[u8; 32])
    ensures { IsString 32 hash.now }
{
    bytes_law(hash);
}

/// So has each of several.
fn hashes_law(hashes: &[[u8; 32]])
    ensures { AllByRecursion (IsString 32) hashes.now }
{
    for hash in hashes {
        hash_law(hash);
    }
}

/// Says that a row of a commitment proof has digests and hashes of their lengths. It changes nothing.
pub fn row_law(row: &CommitRow)
    ensures { IsRow row.now }
{
    digest_law(&row.root);
    hashes_law(row.up.hashes());
    digests_law(&row.subtrees);
    digests_law(row.nodes.nodes());
}

/// So has each of several.
fn rows_law(rows: &[CommitRow])
    ensures { AllByRecursion IsRow rows.now }
{
    for row in rows {
        row_law(row);
    }
}

/// Says that a commitment proof has a hash, and digests and hashes of their lengths in each row. It
/// changes nothing.
pub fn commit_law(proof: &CommitProof)
    ensures { IsCommit proof.now }
{
    hash_law(&proof.commitment);
    rows_law(&proof.rows);
}

/// Says that a root proof has a sample, a digest and hashes of their lengths. It changes nothing.
pub fn rooted_law(proof: &RootedMessage)
    ensures { IsRooted proof.now }
{
    message_law(&proof.message);
    digest_law(&proof.root);
    hashes_law(proof.up.hashes());
}
