//! Of commitments and root proofs.

ghost use Rattle.std.specs.Prelude.{◌≡◌, ◌<◌, Result};
ghost use Rattle.blob_commit.specs.declared.committing.CommitError.TheVariants.{NoMemory as Full};
ghost use Rattle.one_answer.specs.Ones.{AreOne};

use blob_commit::{
    CommitError, CommitProof, CommitRefusal, RootedMessage, RootedRefusal, check_commit,
    commitment_of, rooted,
};
use share_split::Blob;
use std::alloc::Global;

/// A blob has one commitment.
pub fn commitment_of_twice(
    alloc: Global,
    blob: &Blob,
) -> (Result<[u8; 32], CommitError>, Result<[u8; 32], CommitError>)
    ensures { AreOne (λ x. x) Full result.0 result.1 }
{
    let first = commitment_of(alloc, blob);
    let second = commitment_of(alloc, blob);
    (first, second)
}

/// A proof of a commitment has one judgement.
pub fn check_commit_twice(
    root: &[u8; 32],
    proof: &CommitProof,
) -> (Result<(), CommitRefusal>, Result<(), CommitRefusal>)
    ensures { result.0 ≡ result.1 }
{
    let first = check_commit(root, proof);
    let second = check_commit(root, proof);
    (first, second)
}

/// So has a root proof of a sample.
pub fn rooted_twice(
    root: &[u8; 32],
    proof: &RootedMessage,
) -> (Result<(), RootedRefusal>, Result<(), RootedRefusal>)
    ensures { result.0 ≡ result.1 }
{
    let first = rooted(root, proof);
    let second = rooted(root, proof);
    (first, second)
}
