//! Of blobs and units as shares.

ghost use Rattle.std.specs.Prelude.{◌≡◌, ◌<◌, Result, OnOk};
ghost use Rattle.share_split.specs.declared.joining.JoinError.TheVariants as join;
ghost use Rattle.share_split.specs.declared.blobs.SplitError.TheVariants as split;
ghost use Rattle.one_answer.specs.Ones.{AreOne};

use namespace_id::{Namespace, Share};
use share_split::{
    Blob, JoinError, SIGNER_SIZE, SplitError, Unit, blob_shares, join_blobs, join_units,
    unit_shares,
};
use std::alloc::Global;

/// A blob has one list of shares.
pub fn blob_shares_twice(
    namespace: &Namespace,
    bytes: &[u8],
    signer: Option<&[u8; SIGNER_SIZE]>,
    one: &mut Vec<Share>,
    other: &mut Vec<Share>,
) -> (Result<(), SplitError>, Result<(), SplitError>)
    requires same { one.old.items ≡ other.old.items }
    ensures answer { AreOne (λ x. x) split.NoMemory result.0 result.1 }
    ensures state { OnOk result.0 (OnOk result.1 (one.new.items ≡ other.new.items)) }
{
    let first = blob_shares(namespace, bytes, signer, one);
    let second = blob_shares(namespace, bytes, signer, other);
    (first, second)
}

/// So have units.
pub fn unit_shares_twice(
    alloc: Global,
    namespace: &Namespace,
    units: &[Unit],
    one: &mut Vec<Share>,
    other: &mut Vec<Share>,
) -> (Result<(), SplitError>, Result<(), SplitError>)
    requires same { one.old.items ≡ other.old.items }
    ensures answer { AreOne (λ x. x) split.NoMemory result.0 result.1 }
    ensures state { OnOk result.0 (OnOk result.1 (one.new.items ≡ other.new.items)) }
{
    let first = unit_shares(alloc, namespace, units, one);
    let second = unit_shares(alloc, namespace, units, other);
    (first, second)
}

/// Shares are read as one list of blobs.
pub fn join_blobs_twice(
    alloc: Global,
    shares: &[Share],
) -> (Result<Vec<Blob>, JoinError>, Result<Vec<Blob>, JoinError>)
    ensures { AreOne (λ blobs. blobs.items) join.NoMemory result.0 result.1 }
{
    let first = join_blobs(alloc, shares);
    let second = join_blobs(alloc, shares);
    (first, second)
}

/// They are read as one list of units.
pub fn join_units_twice(
    alloc: Global,
    shares: &[Share],
) -> (Result<Vec<Unit>, JoinError>, Result<Vec<Unit>, JoinError>)
    ensures { AreOne (λ units. units.items) join.NoMemory result.0 result.1 }
{
    let first = join_units(alloc, shares);
    let second = join_units(alloc, shares);
    (first, second)
}
