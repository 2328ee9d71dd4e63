//! Reading shares back as blobs and as units.

ghost use Rattle.std.specs.Prelude.{◌≡◌, ◌↔◌, ◌++◌, List, ℕ, Ok, IfOk, IfErr, OnOk};
ghost use Rattle.namespace_id.specs.declared.shares.Share.{Share as AShare};
ghost use Rattle.namespace_id.specs.Shares.{AreShares};
ghost use Rattle.share_split.specs.declared.joining.JoinError.TheVariants.{NoMemory};
ghost use Rattle.share_split.specs.Blobs.{NamedBytes};
ghost use Rattle.share_split.specs.Walks.{Joins, blobs_joined, units_of, sequence_from};
ghost use Rattle.share_split.specs.Joined.{AreBlobs, AreUnits};
ghost use Rattle.share_split.specs.Steps.{open_after, blobs_after};

use crate::parsing::{bad_reserved, units_of_text};
use crate::walking::{Open, with_blob_share, with_unit_share};
use crate::{Blob, Unit};
use namespace_id::{Share, shares_law};
use std::alloc::{AllocError, Global};
use thiserror::Error;

/// Why shares are not blobs, or not units. Each but the last has the number of a share. The variants
/// stand in the order in which a share is tested, and then all of a sequence; a list that ends in an
/// open sequence is `Short` too.
#[derive(Clone, Copy, Debug, PartialEq, Eq, Error)]
pub enum JoinError {
    /// The version of the share is above 1, or isn't 0 in compact shares, or isn't that of the first
    /// share of its sequence.
    #[error("the version of share {0} is above 1, not 0 for units, or not that of its sequence")]
    BadVersion(u64),
    /// The namespace of the share isn't that of its sequence.
    #[error("the namespace of share {0} is not that of its sequence")]
    MixedNamespace(u64),
    /// The sequence that begins at this share isn't complete where another one begins or the list
    /// ends.
    #[error("the sequence that begins at share {0} is cut short")]
    Short(u64),
    /// No sequence is open and the share begins none, or it stands behind the one sequence of
    /// units.
    #[error("share {0} begins no sequence")]
    NoStart(u64),
    /// A byte behind the content of the share isn't 0.
    #[error("a byte behind the content of share {0} is not zero")]
    NonZeroFill(u64),
    /// The length of a unit that begins in the share is no shortest varint below 2^32, or it or its
    /// unit runs past the sequence.
    #[error("the length of a unit that begins in share {0} is not one of a unit in the sequence")]
    BadVarint(u64),
    /// The reserved bytes of the share don't state where its first unit starts.
    #[error("the reserved bytes of share {0} do not state where its first unit starts")]
    BadReserved(u64),
    /// There was no memory.
    #[error("out of memory")]
    NoMemory,
}

impl From<AllocError> for JoinError {
    ghost from_gives = { λ _ e. e ≡ NoMemory };

    fn from(_error: AllocError) -> JoinError {
        JoinError::NoMemory
    }
}

/// What is left of a sequence. One that is complete is a blob, which is appended, or padding.
fn closed(sequence: Open, blobs: &mut Vec<Blob>) -> Result<Option<Open>, JoinError>
    ensures left { IfOk result (λ left. left ≡ open_after sequence) }
    ensures appended { OnOk result (blobs.new.items ≡ blobs.old.items ++ blobs_after sequence) }
    ensures full { IfErr result (λ e. e ≡ NoMemory) }
{
    if !sequence.is_complete() {
        return Ok(Some(sequence));
    }
    if sequence.size == 0 {
        return Ok(None);
    }
    let blob = Blob {
        namespace: sequence.namespace,
        bytes: sequence.bytes,
        signer: sequence.signer,
    };
    if blobs.push(blob).is_err() {
        return Err(JoinError::NoMemory);
    }
    Ok(None)
}

/// The blobs that shares are, in their order, those with a signer in shares of version 1. A share
/// that begins a sequence of length 0 is padding in both versions, has no signer, and is passed over.
///
/// Refuses, at the first share with one of these faults, in this order: a version above 1, or in a
/// sequence another than its first share's (`BadVersion`); in a sequence another namespace than its
/// first share's (`MixedNamespace`), then the start of another sequence (`Short`, with the first
/// share of the one that is cut short); where no sequence is open a share that begins none
/// (`NoStart`); a byte behind the content that isn't 0 (`NonZeroFill`). Then shares that end in an
/// open sequence (`Short`). Out of memory may come in place of any answer; memory is taken as
/// the content comes, and not for a length that a share promises.
///
/// Celestia specifications, "Shares"; docs/RULES.md, "Reading shares".
pub fn join_blobs(alloc: Global, shares: &[Share]) -> Result<Vec<Blob>, JoinError>
    ensures read { Joins (λ blobs. blobs.items) result (blobs_joined shares.now) }
    ensures blobs { IfOk result (λ blobs. AreBlobs shares.now blobs.items) }
{
    shares_law(shares);
    let mut blobs = Vec::new(alloc);
    let mut open = None;
    for i in 0..shares.len() {
        let sequence = with_blob_share(alloc, open, &shares[i], i as u64)?;
        open = closed(sequence, &mut blobs)?;
    }
    match open {
        None => Ok(blobs),
        Some(open) => Err(JoinError::Short(open.first)),
    }
}

/// The one sequence that compact shares are; none for no shares.
fn unit_sequence(alloc: Global, shares: &[Share]) -> Result<Option<Open>, JoinError>
    ensures { Joins (λ sequence. sequence) result (sequence_from 0 None shares.now) }
{
    let mut open = None;
    for i in 0..shares.len() {
        open = Some(with_unit_share(alloc, open, &shares[i], i as u64)?);
    }
    match open {
        None => Ok(None),
        Some(open) => {
            if !open.is_complete() {
                return Err(JoinError::Short(open.first));
            }
            Ok(Some(open))
        }
    }
}

/// The units that compact shares are, in their order; none for no shares, and for a sequence of
/// length 0.
///
/// Refuses, at the first share with one of these faults, in this order: a version that isn't 0
/// (`BadVersion`); in a sequence that isn't complete another namespace than its first share's
/// (`MixedNamespace`), then the start of another sequence (`Short`, with the first share); where
/// none is open a share that begins none, or any share after the one sequence (`NoStart`); a byte
/// behind the content that isn't 0 (`NonZeroFill`). Then shares that end in an open sequence
/// (`Short`). Then a length of a unit that is no shortest varint below 2^32, or that runs past the
/// sequence with its unit (`BadVarint`, with the share in which it begins). Then reserved bytes
/// that don't state where the first unit starts in their share (`BadReserved`). Out of memory may
/// come in place of any answer.
///
/// Celestia specifications, "Shares", transaction shares; docs/RULES.md, "Reading shares".
pub fn join_units(alloc: Global, shares: &[Share]) -> Result<Vec<Unit>, JoinError>
    ensures read { Joins (λ units. units.items) result (units_of shares.now) }
    ensures units { IfOk result (λ units. AreUnits shares.now units.items) }
{
    shares_law(shares);
    let Some(sequence) = unit_sequence(alloc, shares)? else {
        return Ok(Vec::new(alloc));
    };
    let placed = units_of_text(alloc, sequence.bytes.as_slice())?;
    match bad_reserved(shares, placed.starts.as_slice()) {
        Some(i) => Err(JoinError::BadReserved(i)),
        None => Ok(placed.units),
    }
}

/// Shares are read as blobs, or as units, exactly where they are their shares.
pub fn join_laws()
    ensures blobs { (shares : List AShare) (blobs : List NamedBytes) → AreShares shares →
        (blobs_joined shares ≡ Ok blobs) ↔ AreBlobs shares blobs }
    ensures units { (shares : List AShare) (units : List (List ℕ)) → AreShares shares →
        (units_of shares ≡ Ok units) ↔ AreUnits shares units }
{}
