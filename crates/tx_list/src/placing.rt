//! Where the blobs of payments start.

ghost use Rattle.std.specs.Prelude.{◌≡◌, ◌≤◌, ◌<◌, ◌++◌, map, length, IfOk, OnOk};
ghost use Rattle.std.specs.List.{AllByRecursion};
ghost use Rattle.square_layout.specs.Blocks.{HaveBytes};
ghost use Rattle.square_layout.specs.Layout.{end_of, in_order};
ghost use Rattle.square_layout.specs.Refusals.{max_shares};
ghost use Rattle.tx_list.specs.Payments.{blobs_of};
ghost use Rattle.tx_list.specs.Places.{numbered_from, order_numbered, places_from, blob_places};
ghost use Rattle.tx_list.specs.Steps.{numbered, unnumbered, put_places};

use crate::Payment;
use namespace_id::NoMemory;
use share_split::Blob;
use square_layout::{end_after, start_after};
use std::alloc::Global;

/// A blob with its number.
#[derive(Clone, Copy)]
struct NumberedBlob<'a> {
    number: usize,
    blob: &'a Blob,
}

/// Appends blobs, borrowed.
fn push_blobs<'a>(blobs: &'a [Blob], all: &mut Vec<&'a Blob>) -> Result<(), NoMemory>
    ensures { OnOk result (map (λ blob. blob.now) all.new.items
        ≡ map (λ blob. blob.now) all.old.items ++ blobs.now) }
{
    for blob in blobs {
        let Ok(()) = all.push(blob) else {
            return Err(NoMemory);
        };
    }
    Ok(())
}

/// The blobs of payments, borrowed, payment after payment.
pub(crate) fn blobs_of(alloc: Global, payments: &[Payment]) -> Result<Vec<&Blob>, NoMemory>
    ensures { IfOk result (λ blobs. map (λ blob. blob.now) blobs.items ≡ blobs_of payments.now) }
{
    let mut all = Vec::new(alloc);
    for payment in payments {
        push_blobs(&payment.blobs, &mut all)?;
    }
    Ok(all)
}

/// Blobs with their numbers, from 0 on.
fn numbered<'a>(alloc: Global, blobs: &[&'a Blob]) -> Result<Vec<NumberedBlob<'a>>, NoMemory>
    ensures { IfOk result (λ all. map numbered all.items
        ≡ numbered_from 0 (map (λ blob. blob.now) blobs.now)) }
{
    let mut all = Vec::with_capacity(alloc, blobs.len())?;
    for (number, blob) in blobs.iter().enumerate() {
        let Ok(()) = all.push(NumberedBlob {
            number,
            blob: *blob,
        }) else {
            return Err(NoMemory);
        };
    }
    Ok(all)
}

/// Numbered blobs by ascending namespace, and within one namespace as they came.
fn in_order(blobs: Vec<NumberedBlob>) -> Result<Vec<NumberedBlob>, NoMemory>
    ensures { IfOk result (λ order. map numbered order.items
        ≡ order_numbered (map numbered blobs.entry.items)) }
{
    let mut order = blobs;
    let Ok(()) = order.sort_by_key(|one| {
        let blob = one.blob;
        blob.namespace
    }) else {
        return Err(NoMemory);
    };
    Ok(order)
}

/// Writes the place of each blob at its number; the blobs stand in order, and what precedes them ends at `end`.
fn put_places(end: u64, order: &[NumberedBlob], places: &mut [u32])
    requires some { HaveBytes (unnumbered (map numbered order.now)) }
    requires numbers { AllByRecursion (λ one. one.number < length places.old) (map numbered order.now) }
    requires fits { end_of end (unnumbered (map numbered order.now)) ≤ max_shares }
    ensures { places.new ≡ put_places (places_from end (map numbered order.now)) places.old }
{
    let mut end = end;
    for one in order {
        places[one.number] = start_after(end, one.blob) as u32;
        end = end_after(end, one.blob);
    }
}

/// Where blobs start, none before `end`, in the order in which they came.
pub(crate) fn blob_places(alloc: Global, end: u64, blobs: &[&Blob]) -> Result<Vec<u32>, NoMemory>
    requires some { HaveBytes (map (λ blob. blob.now) blobs.now) }
    requires fits { end_of end (in_order (map (λ blob. blob.now) blobs.now)) ≤ max_shares }
    ensures { IfOk result (λ places. places.items
        ≡ blob_places end (map (λ blob. blob.now) blobs.now)) }
{
    let all = numbered(alloc, blobs)?;
    let order = in_order(all)?;
    let Ok(mut places) = vec![in alloc; 0; blobs.len()] else {
        return Err(NoMemory);
    };
    put_places(end, &order, &mut places);
    Ok(places)
}
