//! Commitments of blobs: which subtrees cover a blob's shares, the commitment over their roots, and
//! proofs that lead from a commitment up to a data root.
#![tactic(auto)]

mod buffers;
mod committing;
mod cutting;
mod hashing;
mod laws;
mod making;
mod proofs;
mod proving;
mod rooting;
mod sizes;
mod trees;

pub use committing::{CommitError, commitment, commitment_of};
pub use laws::{
    commit_laws, commitment_laws, place_laws, range_laws, refusal_laws, sample_laws, shape_laws,
};
pub use making::{ProveError, prove_commit};
pub use proofs::{CommitProof, CommitRow, RootedMessage};
pub use proving::{CommitRefusal, check_commit};
pub use rooting::{RootedRefusal, rooted};
pub use sizes::{commit_law, rooted_law, row_law};
pub use trees::row_trees;
