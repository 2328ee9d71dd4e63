//! Payments as their compact shares have them, read: the transaction, and the places of its blobs.

ghost use Rattle.std.specs.Prelude.{◌≡◌, IfOk, IfSome, None, true, false};
ghost use Rattle.std.specs.List.{list_all};
ghost use Rattle.namespace_id.specs.Answers.{Gives};
ghost use Rattle.tx_list.specs.Unwrapped.{numbers_in, wrapped_tx, wrapped_places, small_numbers, is_wrapper};

use crate::reading::{bytes_in, is_fields};
use crate::wrapping::wrapped;
use namespace_id::NoMemory;
use proto_fields::number_at;
use std::alloc::Global;

/// The first number that no place is.
const LIMIT: u64 = 4_294_967_296;

/// A wrapped payment: the transaction in it, and the places of its blobs.
#[derive(Drop)]
pub(crate) struct Wrapper<'a> {
    pub(crate) tx: &'a [u8],
    pub(crate) places: Vec<u32>,
}

/// The numbers that varints state, one behind another, where each of them has 32 bits.
fn places_in(alloc: Global, bytes: &[u8]) -> Result<Option<Vec<u32>>, NoMemory>
    ensures { IfOk result (λ found. Gives (λ x. x.items) found (small_numbers (numbers_in bytes.now))) }
{
    let mut places = Vec::new(alloc);
    let mut rest = bytes;
    while let Some((number, after)) = number_at(rest) {
        if number >= LIMIT {
            return Ok(None);
        }
        let Ok(()) = places.push(number as u32) else {
            return Err(NoMemory);
        };
        rest = after;
    }
    Ok(Some(places))
}

/// The parts of a wrapped payment, where a unit is one.
pub(crate) fn unwrapped(alloc: Global, unit: &[u8]) -> Result<Option<Wrapper<'_>>, NoMemory>
    ensures none { IfOk result (λ found. (found ≡ None) → (is_wrapper unit.now ≡ false)) }
    ensures some { IfOk result (λ found. IfSome found (λ parts. is_wrapper unit.now ≡ true)) }
    ensures tx { IfOk result (λ found. IfSome found (λ parts. parts.tx.now ≡ wrapped_tx unit.now)) }
    ensures places { IfOk result (λ found. IfSome found (λ parts.
        parts.places.items ≡ wrapped_places unit.now)) }
{
    if !is_fields(unit) {
        return Ok(None);
    }
    let tx = bytes_in(unit, 1);
    let Some(places) = places_in(alloc, bytes_in(unit, 2))? else {
        return Ok(None);
    };
    if places.is_empty() {
        return Ok(None);
    }
    let again = wrapped(alloc, tx, &places)?;
    if again.bytes.as_slice() != unit {
        return Ok(None);
    }
    Ok(Some(Wrapper { tx, places }))
}
