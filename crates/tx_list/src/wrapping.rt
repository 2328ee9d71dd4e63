//! Payments as their compact shares have them: wrapped with the places of their blobs.

ghost use Rattle.std.specs.Prelude.{◌≡◌, ◌≤◌, ◌++◌, length, min, ◌^◌, ◌-◌, ◌+◌, IfOk, OnOk};
ghost use Rattle.std.specs.List.{flat_map};
ghost use Rattle.proto_fields.specs.Varints.{varint};
ghost use Rattle.share_split.specs.Units.{unit_share_count};
ghost use Rattle.tx_list.specs.Payments.{blobs_of};
ghost use Rattle.tx_list.specs.Wrapped.{some_field, wrapped, wrap_all};
ghost use Rattle.tx_list.specs.Reserves.{list_reserve};

use crate::{Payment, TxList};
use namespace_id::{MOST_SHARES, NoMemory};
use proto_fields::{field_size, put_field, put_varint, varint_size};
use share_split::{Unit, unit_share_count};
use std::alloc::Global;

/// The type id of a wrapped payment.
const WRAPPED: [u8; 4] = *b"INDX";

/// Appends a field of bytes, where there are some.
pub(crate) fn put_some_field(number: u32, bytes: &[u8], out: &mut Vec<u8>) -> Result<(), NoMemory>
    ensures { OnOk result (out.new.items ≡ out.old.items ++ some_field number bytes.now) }
{
    if bytes.is_empty() {
        return Ok(());
    }
    let size = field_size(number, bytes.len() as u64);
    let Ok(()) = out.reserve(size as usize) else {
        return Err(NoMemory);
    };
    put_field(number, bytes, out);
    Ok(())
}

/// Places as varints, one behind another.
fn packed(alloc: Global, places: &[u32]) -> Result<Vec<u8>, NoMemory>
    ensures { IfOk result (λ bytes. bytes.items ≡ flat_map varint places.now) }
{
    let mut bytes = Vec::new(alloc);
    for place in places {
        let Ok(()) = bytes.reserve(varint_size(u64::from(*place))) else {
            return Err(NoMemory);
        };
        put_varint(&mut bytes, u64::from(*place));
    }
    Ok(bytes)
}

/// A transaction, wrapped with the places at which its blobs start.
pub(crate) fn wrapped(alloc: Global, tx: &[u8], places: &[u32]) -> Result<Unit, NoMemory>
    ensures { IfOk result (λ unit. unit ≡ wrapped tx.now places.now) }
{
    let packed = packed(alloc, places)?;
    let mut bytes = Vec::new(alloc);
    put_some_field(1, tx, &mut bytes)?;
    put_some_field(2, &packed, &mut bytes)?;
    put_some_field(3, &WRAPPED, &mut bytes)?;
    Ok(Unit { bytes })
}

/// Payments, wrapped with the places of their blobs, payment after payment.
pub(crate) fn wrap_all(
    alloc: Global,
    payments: &[Payment],
    places: &[u32],
) -> Result<Vec<Unit>, NoMemory>
    requires { length places.now ≡ length (blobs_of payments.now) }
    ensures { IfOk result (λ units. units.items ≡ wrap_all payments.now places.now) }
{
    let mut units = Vec::with_capacity(alloc, payments.len())?;
    let mut left = places;
    for payment in payments {
        let (own, others) = left.split_at(payment.blobs.len());
        let Ok(()) = units.push(wrapped(alloc, &payment.tx, own)?) else {
            return Err(NoMemory);
        };
        left = others;
    }
    Ok(units)
}

/// The place before which no blob of a list starts, which has so many blobs: how many compact shares the list takes at most;
/// 2^64 - 1 for any greater number.
pub(crate) fn list_reserve(alloc: Global, list: &TxList, count: usize) -> Result<u64, NoMemory>
    requires { count ≡ length (blobs_of list.now.payments) }
    ensures { IfOk result (λ reserve. reserve ≡ min (list_reserve list.now) (2 ^ 64 - 1)) }
{
    let Ok(places) = vec![in alloc; MOST_SHARES as u32; count] else {
        return Err(NoMemory);
    };
    let full = wrap_all(alloc, &list.payments, &places)?;
    Ok(unit_share_count(&list.units).saturating_add(unit_share_count(&full)))
}
