//! Payments in their one spelling.

ghost use Rattle.std.specs.Prelude.{◌≡◌, ◌≤◌, ◌++◌, length, drop, map, IfOk, OnOk};
ghost use Rattle.std.specs.List.{flat_map};
ghost use Rattle.share_split.specs.Blobs.{signer_bytes};
ghost use Rattle.proto_fields.specs.Spelled.{bytes_field};
ghost use Rattle.tx_list.specs.Wrapped.{some_field};
ghost use Rattle.tx_list.specs.Spelled.{version_field, blob_spelling, payment_spelling, spelled_list};

use crate::wrapping::put_some_field;
use crate::{Payment, TxList};
use namespace_id::{NoMemory, append};
use proto_fields::{field_size, put_field, put_number, varint_size};
use share_split::{Blob, SIGNER_SIZE, Unit};
use std::alloc::Global;

/// The type id of a payment with its blobs.
const PAYMENT: [u8; 4] = *b"BLOB";

/// Appends the share version and the signer of a blob, where it has one.
fn put_signer(signer: Option<[u8; SIGNER_SIZE]>, out: &mut Vec<u8>) -> Result<(), NoMemory>
    ensures { OnOk result (out.new.items ≡
        out.old.items ++ (version_field signer ++ some_field 5 (signer_bytes signer))) }
{
    let Some(signer) = signer else {
        return Ok(());
    };
    let Ok(()) = out.reserve(varint_size(24) + varint_size(1)) else {
        return Err(NoMemory);
    };
    put_number(3, 1, out);
    put_some_field(5, &signer, out)
}

/// The id of a namespace: its bytes behind the version.
fn id_of(namespace: &[u8]) -> &[u8]
    requires { 1 ≤ length namespace.now }
    ensures { result.now ≡ drop 1 namespace.now }
{
    let (_version, id) = namespace.split_at(1);
    id
}

/// A blob as its payment carries it: its id, its bytes, its signer.
fn spelled_blob(alloc: Global, blob: &Blob) -> Result<Vec<u8>, NoMemory>
    ensures { IfOk result (λ bytes. bytes.items ≡ blob_spelling blob.now) }
{
    let mut bytes = Vec::new(alloc);
    put_some_field(1, id_of(&blob.namespace.0), &mut bytes)?;
    put_some_field(2, &blob.bytes, &mut bytes)?;
    put_signer(blob.signer, &mut bytes)?;
    Ok(bytes)
}

/// Appends the field of a blob, which is written where it is empty, too.
fn put_blob(alloc: Global, blob: &Blob, out: &mut Vec<u8>) -> Result<(), NoMemory>
    ensures { OnOk result (out.new.items ≡ out.old.items ++ bytes_field 2 (blob_spelling blob.now)) }
{
    let entry = spelled_blob(alloc, blob)?;
    let Ok(()) = out.reserve(field_size(2, entry.len() as u64) as usize) else {
        return Err(NoMemory);
    };
    put_field(2, &entry, out);
    Ok(())
}

/// Appends the fields of blobs.
fn put_blobs(alloc: Global, blobs: &[Blob], out: &mut Vec<u8>) -> Result<(), NoMemory>
    ensures { OnOk result (out.new.items ≡
        out.old.items ++ flat_map (λ blob. bytes_field 2 (blob_spelling blob)) blobs.now) }
{
    for blob in blobs {
        put_blob(alloc, blob, out)?;
    }
    Ok(())
}

/// The payment of a transaction for blobs in its one spelling.
pub(crate) fn spelled_payment(alloc: Global, tx: &[u8], blobs: &[Blob]) -> Result<Unit, NoMemory>
    ensures { IfOk result (λ unit. unit
        ≡ payment_spelling (record { tx = tx.now; blobs = blobs.now })) }
{
    let mut bytes = Vec::new(alloc);
    put_some_field(1, tx, &mut bytes)?;
    put_blobs(alloc, blobs, &mut bytes)?;
    put_some_field(3, &PAYMENT, &mut bytes)?;
    Ok(Unit { bytes })
}

/// Bytes once more.
pub(crate) fn copied_bytes(alloc: Global, bytes: &[u8]) -> Result<Vec<u8>, NoMemory>
    ensures { IfOk result (λ copy. copy.items ≡ bytes.now) }
{
    let mut copy = Vec::with_capacity(alloc, bytes.len())?;
    append(&mut copy, bytes);
    Ok(copy)
}

/// A transaction once more.
fn copied(alloc: Global, unit: &Unit) -> Result<Unit, NoMemory>
    ensures { IfOk result (λ copy. copy ≡ unit.now) }
{
    let bytes = copied_bytes(alloc, &unit.bytes)?;
    Ok(Unit { bytes })
}

/// Appends transactions once more.
fn push_units(alloc: Global, units: &[Unit], out: &mut Vec<Unit>) -> Result<(), NoMemory>
    ensures { OnOk result (out.new.items ≡ out.old.items ++ units.now) }
{
    for unit in units {
        let Ok(()) = out.push(copied(alloc, unit)?) else {
            return Err(NoMemory);
        };
    }
    Ok(())
}

/// Appends payments in their one spelling.
fn push_payments(alloc: Global, payments: &[Payment], out: &mut Vec<Unit>) -> Result<(), NoMemory>
    ensures { OnOk result (out.new.items ≡ out.old.items ++ map payment_spelling payments.now) }
{
    for payment in payments {
        let Ok(()) = out.push(spelled_payment(alloc, &payment.tx, &payment.blobs)?) else {
            return Err(NoMemory);
        };
    }
    Ok(())
}

/// The transactions of a list in its one spelling, of which the plain ones stay where they lie.
pub(crate) fn spelled_on(alloc: Global, list: TxList) -> Result<Vec<Unit>, NoMemory>
    ensures { IfOk result (λ units. units.items ≡ spelled_list list) }
{
    let TxList { units, payments } = list;
    let mut all = units;
    push_payments(alloc, &payments, &mut all)?;
    Ok(all)
}

/// The transactions of a list, as a block of the network has them: the plain ones as they are, and behind them the payments with
/// their blobs, each in its one spelling. It is refused for want of memory alone.
///
/// docs/RULES.md, "A block of the network".
pub fn spell_list(alloc: Global, list: &TxList) -> Result<Vec<Unit>, NoMemory>
    ensures { IfOk result (λ units. units.items ≡ spelled_list list.now) }
{
    let mut all = Vec::new(alloc);
    push_units(alloc, &list.units, &mut all)?;
    push_payments(alloc, &list.payments, &mut all)?;
    Ok(all)
}
