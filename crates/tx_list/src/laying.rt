//! Laying out a list of transactions as its square.

ghost use Rattle.std.specs.Prelude.{◌≡◌, ◌↔◌, ◌≤◌, ◌+◌, ℕ, map, length, true, IsErrOf, IfOk, Some};
ghost use Rattle.namespace_id.specs.Lists.{holds_along};
ghost use Rattle.namespace_id.specs.Names.{is_at_most};
ghost use Rattle.namespace_id.specs.Shares.{name_in};
ghost use Rattle.square_layout.specs.Refusals.{max_shares};
ghost use Rattle.tx_list.specs.Payments.{blobs_of};
ghost use Rattle.tx_list.specs.Reserves.{list_reserve, list_bound};
ghost use Rattle.tx_list.specs.Lists.{list_places, written_list, square_of_list};
ghost use Rattle.tx_list.specs.Refusals.{list_size_refusal, AnswersList};

use crate::placing::{blob_places, blobs_of};
use crate::wrapping::{list_reserve, wrap_all};
use crate::{ListError, TxList};
use share_split::Blob;
use square_layout::{MAX_SHARES, Square, lay_plan, plan_bound};
use std::alloc::Global;

/// The blobs of a list, payment after payment, the place before which none of them starts, and where each starts.
#[derive(Drop)]
struct Placed<'a> {
    blobs: Vec<&'a Blob>,
    reserve: u64,
    places: Vec<u32>,
}

/// The blobs of a list and their places.
fn place_blobs(alloc: Global, list: &TxList) -> Result<Placed<'_>, ListError>
    ensures first { AnswersList result (list_size_refusal list.now) }
    ensures blobs { IfOk result (λ placed.
        map (λ blob. blob.now) placed.blobs.items ≡ blobs_of list.now.payments) }
    ensures reserve { IfOk result (λ placed. placed.reserve ≡ list_reserve list.now) }
    ensures places { IfOk result (λ placed. placed.places.items ≡ list_places list.now) }
    ensures few { IfOk result (λ placed. list_bound list.now ≤ max_shares) }
{
    let Ok(blobs) = blobs_of(alloc, &list.payments) else {
        return Err(ListError::NoMemory);
    };
    let Ok(reserve) = list_reserve(alloc, list, blobs.len()) else {
        return Err(ListError::NoMemory);
    };
    let most = plan_bound(reserve, &blobs);
    if most > MAX_SHARES {
        return Err(ListError::TooLarge(most));
    }
    let Ok(places) = blob_places(alloc, reserve, &blobs) else {
        return Err(ListError::NoMemory);
    };
    Ok(Placed {
        blobs,
        reserve,
        places,
    })
}

/// The places at which the blobs of a list start in its square, payment after payment.
///
/// Refuses a list that may take more shares than the greatest square has (`TooLarge`). Out of memory may stand in place of it
/// and of the places.
///
/// docs/RULES.md, "A block of the network".
pub fn places(alloc: Global, list: &TxList) -> Result<Vec<u32>, ListError>
    ensures first { AnswersList result (list_size_refusal list.now) }
    ensures places { IfOk result (λ places. places.items ≡ list_places list.now) }
{
    let placed = place_blobs(alloc, list)?;
    Ok(placed.places)
}

/// The square of a list of transactions, as the network lays it out: the compact shares of its plain transactions, those of
/// its payments, each wrapped with the places of its blobs, and the blobs by ascending namespace, none before the place that
/// is reserved. Its width is for as many shares as the blobs may take at most.
///
/// Refuses a list that may take more shares than the greatest square has (`TooLarge`). Out of memory may stand in place of it
/// and of the square.
///
/// docs/RULES.md, "A block of the network"; Celestia specifications, "Square Layout".
pub fn lay_list(alloc: Global, list: &TxList) -> Result<Square, ListError>
    ensures first { AnswersList result (list_size_refusal list.now) }
    ensures square { IfOk result (λ square. square ≡ square_of_list list.now) }
    ensures names { IfOk result (λ square.
        holds_along is_at_most (map name_in square.shares) ≡ true) }
{
    let placed = place_blobs(alloc, list)?;
    let Ok(pay_units) = wrap_all(alloc, &list.payments, &placed.places) else {
        return Err(ListError::NoMemory);
    };
    let Ok(square) = lay_plan(alloc, &list.units, &pay_units, placed.blobs, placed.reserve) else {
        return Err(ListError::NoMemory);
    };
    Ok(square)
}
