//! Whether a list has a square, by what was measured of its payments' blobs, of which none is kept.

ghost use Rattle.std.specs.Prelude.{◌≡◌, ◌++◌, min, IfOk, OnOk};
ghost use Rattle.std.specs.List.{flat_map};
ghost use Rattle.square_layout.specs.Refusals.{most_named};
ghost use Rattle.tx_list.specs.Reserves.{wrap_full};
ghost use Rattle.tx_list.specs.Measures.{full_of, bound_with, has_square};

use crate::measuring::Measure;
use crate::placing::blobs_of;
use crate::taking::read_list;
use crate::unwrapping::unwrapped;
use crate::wrapping::{wrap_all, wrapped};
use crate::{ListError, TxList};
use namespace_id::{MOST_SHARES, NoMemory};
use share_split::{Unit, unit_share_count};
use square_layout::{MAX_SHARES, plan_bound};
use std::alloc::Global;

/// Appends a payment, wrapped as long as its places can make it, where a unit is a wrapped payment.
fn push_full(alloc: Global, unit: &Unit, out: &mut Vec<Unit>) -> Result<(), NoMemory>
    ensures { OnOk result (out.new.items ≡ out.old.items ++ full_of unit.now) }
{
    let Some(wrapper) = unwrapped(alloc, &unit.bytes)? else {
        return Ok(());
    };
    let Ok(places) = vec![in alloc; MOST_SHARES as u32; wrapper.places.len()] else {
        return Err(NoMemory);
    };
    let Ok(()) = out.push(wrapped(alloc, wrapper.tx, &places)?) else {
        return Err(NoMemory);
    };
    Ok(())
}

/// Appends so all wrapped payments.
fn push_all_full(alloc: Global, units: &[Unit], out: &mut Vec<Unit>) -> Result<(), NoMemory>
    ensures { OnOk result (out.new.items ≡ out.old.items ++ flat_map full_of units.now) }
{
    for unit in units {
        push_full(alloc, unit, out)?;
    }
    Ok(())
}

/// The payments of a list, and wrapped payments behind them, each as long as its places can make it.
fn all_full(alloc: Global, list: &TxList, payments: &[Unit]) -> Result<Vec<Unit>, NoMemory>
    ensures { IfOk result (λ full. full.items
        ≡ wrap_full list.now.payments ++ flat_map full_of payments.now) }
{
    let blobs = blobs_of(alloc, &list.payments)?;
    let Ok(places) = vec![in alloc; MOST_SHARES as u32; blobs.len()] else {
        return Err(NoMemory);
    };
    let mut full = wrap_all(alloc, &list.payments, &places)?;
    push_all_full(alloc, payments, &mut full)?;
    Ok(full)
}

/// How many shares the width is for of the square of a list with wrapped payments behind it, whose blobs may take so many.
fn bound_with(alloc: Global, list: &TxList, payments: &[Unit], bound: u64) -> Result<u64, NoMemory>
    ensures { IfOk result (λ most. most ≡ min (bound_with list.now payments.now bound) most_named) }
{
    let full = all_full(alloc, list, payments)?;
    let reserve = unit_share_count(&list.units).saturating_add(unit_share_count(&full));
    let blobs = blobs_of(alloc, &list.payments)?;
    Ok(plan_bound(reserve, &blobs).saturating_add(bound))
}

/// Whether transactions have a square with wrapped payments behind them, of whose blobs this was measured.
pub(crate) fn has_square(
    alloc: Global,
    plain: Vec<Unit>,
    payments: &[Unit],
    blobs: Measure,
) -> Result<bool, NoMemory>
    ensures { IfOk result (λ has. has ≡ has_square plain.items payments.now blobs) }
{
    let list = match read_list(alloc, plain) {
        Ok(list) => list,
        Err(ListError::NoMemory) => return Err(NoMemory),
        Err(_why) => return Ok(false),
    };
    if !blobs.named {
        return Ok(false);
    }
    let most = bound_with(alloc, &list, payments, blobs.bound)?;
    Ok(most <= MAX_SHARES)
}
