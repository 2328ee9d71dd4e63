//! Commitment proofs and root proofs as they are sent.

use axis_roots::Message;
use data_header::RootPath;
use namespace_id::Digest;
use nmt_proofs::Nodes;
use std::marker::Model;

/// A row of a commitment proof: its root, the Merkle proof of that under the data root, the digests
/// of the subtrees that the range has in the row, and the nodes that open these.
///
/// docs/RULES.md, "Commitment proofs".
#[derive(Debug, Drop)]
pub struct CommitRow {
    pub root: Digest,
    pub up: RootPath,
    pub subtrees: Vec<Digest>,
    pub nodes: Nodes,
}

impl Model for CommitRow {
    ghost use Rattle.blob_commit.specs.Proofs.{RowParts};

    ghost Value = { RowParts };

    ghost view = { λ r. record { root = r.root; up = r.up; subtrees = r.subtrees.items; nodes = r.nodes } };
}

/// A proof of a commitment: that shares of a square, the `count` from the row-major index `start`
/// on, have this commitment. Any numbers, digests and hashes may stand in it: whether it holds is
/// for `check_commit`.
///
/// docs/RULES.md, "Commitment proofs".
#[derive(Debug, Drop)]
pub struct CommitProof {
    pub k: u16,
    pub start: u32,
    pub count: u32,
    pub commitment: [u8; 32],
    pub rows: Vec<CommitRow>,
}

impl Model for CommitProof {
    ghost use Rattle.blob_commit.specs.Proofs.{RowParts, CommitParts};

    ghost Value = { CommitParts };

    ghost view = { λ p. record { k = p.k; start = p.start; count = p.count; commitment = p.commitment; rows = p.rows.items } };
}

/// A sample with the root of its axis, and the Merkle proof of that under the data root. Any
/// numbers, digests and hashes may stand in it: whether it holds is for `rooted`.
///
/// docs/RULES.md, "Commitment proofs".
#[derive(Debug, Drop)]
pub struct RootedMessage {
    pub k: u16,
    pub message: Message,
    pub root: Digest,
    pub up: RootPath,
}

impl Model for RootedMessage {
    ghost use Rattle.blob_commit.specs.Proofs.{RootedParts};

    ghost Value = { RootedParts };

    ghost view = { λ p. record { k = p.k; message = p.message; root = p.root; up = p.up } };
}
