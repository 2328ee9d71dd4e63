//! Laying out a plan: a square of the network.

ghost use Rattle.std.specs.Prelude.{◌≡◌, ◌≤◌, ◌+◌, ◌-◌, ◌++◌, [], map, length, min, true, IfOk, OnOk};
ghost use Rattle.namespace_id.specs.Names.{primary_reserved_padding};
ghost use Rattle.share_split.specs.Units.{unit_share_count};
ghost use Rattle.share_split.specs.Joined.{padding_share};
ghost use Rattle.square_layout.specs.Blocks.{HaveBytes};
ghost use Rattle.square_layout.specs.Layout.{end_of, placed_behind};
ghost use Rattle.square_layout.specs.Plans.{blobs_bound, front, lead, square_of_plan};
ghost use Rattle.square_layout.specs.Refusals.{max_shares, most_named};

use crate::Square;
use crate::counting::blob_bound;
use crate::ordering::in_order;
use crate::putting::{put_blobs, put_padding, put_units};
use crate::widths::{least_width, square_size};
use namespace_id::{
    NoMemory, PAY_FOR_BLOB, PRIMARY_RESERVED_PADDING, Share, TAIL_PADDING, TRANSACTION,
};
use share_split::{Blob, Unit, padding_share};
use std::alloc::Global;

/// Appends the compact shares of units of transactions, and those of payments.
fn put_front(
    alloc: Global,
    units: &[Unit],
    pay_units: &[Unit],
    out: &mut Vec<Share>,
) -> Result<(), NoMemory>
    requires { unit_share_count units.now + unit_share_count pay_units.now ≤ max_shares }
    ensures { OnOk result (out.new.items ≡ out.old.items ++ front (record {
      units = units.now;
      pay_units = pay_units.now;
      blobs = [];
      reserve = 0;
    })) }
{
    put_units(alloc, &TRANSACTION, units, out)?;
    put_units(alloc, &PAY_FOR_BLOB, pay_units, out)
}

/// Appends the padding between the compact shares and the place before which no blob starts, where there is a blob,
/// and then the blobs, which stand in this order.
fn put_behind(reserve: u64, order: &[&Blob], out: &mut Vec<Share>) -> Result<(), NoMemory>
    requires some { HaveBytes (map (λ blob. blob.now) order.now) }
    requires room { length out.old.items ≤ reserve }
    requires fits { end_of reserve (map (λ blob. blob.now) order.now) ≤ max_shares }
    ensures { OnOk result (out.new.items ≡ out.old.items
        ++ lead (reserve - length out.old.items) (map (λ blob. blob.now) order.now)
        ++ placed_behind true (padding_share primary_reserved_padding) reserve
        (map (λ blob. blob.now) order.now)) }
{
    if order.is_empty() {
        return Ok(());
    }
    let reserved = padding_share(&PRIMARY_RESERVED_PADDING);
    put_padding(reserved, reserve as usize, out)?;
    put_blobs(true, reserved, order, out)
}

/// How many shares the width of a plan is for, whose blobs don't start before `reserve`: as many as the blobs may
/// take at most; 2^64 - 1 for any greater number. Takes no memory.
///
/// docs/RULES.md, "A block of the network".
pub fn plan_bound(reserve: u64, blobs: &[&Blob]) -> u64
    requires { HaveBytes (map (λ blob. blob.now) blobs.now) }
    ensures { result ≡ min (reserve + blobs_bound (map (λ blob. blob.now) blobs.now)) most_named }
{
    let mut most = reserve;
    for blob in blobs {
        most = most.saturating_add(blob_bound(blob));
    }
    most
}

/// The square of a plan: units of transactions and of payments for blobs, borrowed blobs in any order, and the place
/// before which none of them starts. Its width is for the most shares that the blobs may take. The padding behind a
/// blob has the version of its shares.
///
/// Celestia specifications, "Square Layout"; docs/RULES.md, "A block of the network".
pub fn lay_plan(
    alloc: Global,
    units: &[Unit],
    pay_units: &[Unit],
    blobs: Vec<&Blob>,
    reserve: u64,
) -> Result<Square, NoMemory>
    requires some { HaveBytes (map (λ blob. blob.now) blobs.items) }
    requires room { unit_share_count units.now + unit_share_count pay_units.now ≤ reserve }
    requires few { reserve + blobs_bound (map (λ blob. blob.now) blobs.items) ≤ max_shares }
    ensures { IfOk result (λ square. square ≡ square_of_plan (record {
      units = units.now;
      pay_units = pay_units.now;
      blobs = map (λ blob. blob.now) blobs.entry.items;
      reserve = reserve;
    })) }
{
    let k = least_width(plan_bound(reserve, &blobs));
    let order = in_order(blobs)?;
    let Ok(mut shares) = Vec::with_capacity(alloc, square_size(k) as usize) else {
        return Err(NoMemory);
    };
    put_front(alloc, units, pay_units, &mut shares)?;
    put_behind(reserve, &order, &mut shares)?;
    let tail = padding_share(&TAIL_PADDING);
    put_padding(tail, square_size(k) as usize, &mut shares)?;
    Ok(Square { k, shares })
}
