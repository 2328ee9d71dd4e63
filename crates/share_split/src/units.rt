//! Units, as transactions, and their compact shares.

ghost use Rattle.std.specs.Prelude.{◌≡◌, ◌-◌, ◌^◌, ◌<◌, ◌++◌, ◌↔◌, length, min, OnOk, OnErr, IsErrOf};
ghost use Rattle.share_split.specs.Blobs.{max_sequence_length};
ghost use Rattle.share_split.specs.Units.{units_text, unit_shares_of, unit_share_count};
ghost use Rattle.share_split.specs.UnitLaws.{UnitSharesAreCounted, LongTextsTakeManyShares, UnitSharesAreShares, VarintIsRead, ReadIsVarint, VarintStates, VarintIsMarked, VarintIsShortest, ReservedIsFirst, ReservedIsNone};

use crate::compact::{compact_count, put_compact};
use crate::texts::{text_size, units_text};
use crate::{MAX_SEQUENCE_LENGTH, SplitError};
use namespace_id::{NAMESPACE_SIZE, Namespace, SHARE_SIZE, Share};
use std::alloc::Global;
use std::marker::Model;

/// The bytes of content in the first compact share of a sequence: a share without the namespace, the
/// info byte (1), the length of the sequence (4) and the reserved bytes (4).
///
/// Celestia specifications, "Shares", transaction shares.
pub const FIRST_COMPACT_CONTENT: usize = SHARE_SIZE - NAMESPACE_SIZE - 1 - 4 - 4;

/// The bytes of content in a later compact share: a share without the namespace, the info byte (1) and
/// the reserved bytes (4).
///
/// Celestia specifications, "Shares", transaction shares.
pub const LATER_COMPACT_CONTENT: usize = SHARE_SIZE - NAMESPACE_SIZE - 1 - 4;

/// A transaction, or a payment for blobs (PFB): the bytes of a unit of compact shares.
///
/// Celestia specifications, "Shares", transaction shares.
#[derive(Debug, Drop)]
pub struct Unit {
    pub bytes: Vec<u8>,
}

impl Model for Unit {
    ghost use Rattle.std.specs.Prelude.{ℕ, List};

    ghost Value = { List ℕ };

    ghost view = { λ u. u.bytes.items };
}

/// How many compact shares units take, or 2^64 - 1 where they take more. Takes no memory.
///
/// Celestia specifications, "Shares", transaction shares.
pub fn unit_share_count(units: &[Unit]) -> u64
    ensures { result ≡ min (unit_share_count units.now) (2 ^ 64 - 1) }
{
    if units.is_empty() {
        return 0;
    }
    compact_count(text_size(units)).min(u64::MAX as u128) as u64
}

/// Appends the compact shares of units, none for no units. The namespace may be any: those of units
/// are `TRANSACTION` and `PAY_FOR_BLOB`. The memory for the text of the units is taken at once, and then
/// that for all shares.
///
/// Refuses units that have with their lengths more than `MAX_SEQUENCE_LENGTH` bytes (`TooLong`), then
/// out of memory, and never anything else; a refusal leaves `out` as it was.
///
/// Celestia specifications, "Shares", transaction shares.
pub fn unit_shares(
    alloc: Global,
    namespace: &Namespace,
    units: &[Unit],
    out: &mut Vec<Share>,
) -> Result<(), SplitError>
    ensures written { OnOk result
        (out.new.items ≡ out.old.items ++ unit_shares_of namespace.now units.now) }
    ensures too_long { IsErrOf result SplitError.TooLong ↔
        (max_sequence_length < length (units_text units.now)) }
    ensures never { IsErrOf result SplitError.Empty → ⊥ }
    ensures unchanged { OnErr result (out.new.items ≡ out.old.items) }
{
    let size = text_size(units);
    if size > MAX_SEQUENCE_LENGTH as u128 {
        return Err(SplitError::TooLong);
    }
    if units.is_empty() {
        return Ok(());
    }
    let Ok(text) = units_text(alloc, units, size as usize) else {
        return Err(SplitError::NoMemory);
    };
    let count = compact_count(size) as usize;
    if out.reserve(count).is_err() {
        return Err(SplitError::NoMemory);
    }
    put_compact(out, namespace, units, &text, count);
    Ok(())
}

/// The laws of units and of their compact shares. It changes nothing.
pub fn unit_laws()
    ensures counted { UnitSharesAreCounted }
    ensures long { LongTextsTakeManyShares }
    ensures shares { UnitSharesAreShares }

    // Lengths as varints.
    ensures read { VarintIsRead }
    ensures one { ReadIsVarint }
    ensures states { VarintStates }
    ensures marked { VarintIsMarked }
    ensures shortest { VarintIsShortest }

    // The reserved bytes of a share.
    ensures reserved { ReservedIsFirst }
    ensures unreserved { ReservedIsNone }
{}
