//! The payload of transactions: judged where it lies, then read; and written.

ghost use Rattle.std.specs.Prelude.{◌≡◌, ◌++◌, ◌↔◌, false, length, Some, None, IfSome, IsSome, IsTrue, MatchOption};
ghost use Rattle.namespace_id.specs.Answers.{HasCapacity};
ghost use Rattle.frame_fields.specs.Fields.{read_items};
ghost use Rattle.frame_payloads.specs.Payloads.{GivesUnlessFull, IsSize, IsShort};
ghost use Rattle.frame_payloads.specs.kinds.Transactions.{transactions_at, transactions_payload};
ghost use Rattle.frame_payloads.specs.kinds.Units.{unit_at, counted_at};

use crate::codec::items::{after_list, list};
use crate::codec::outs::{Counter, Full};
use crate::codec::writing::put_list;
use crate::kinds::units::{MOST, UnitList};
use share_split::Unit;
use std::alloc::{AllocError, Global};

/// The bytes of the transactions whose payload the bytes are, from their count on. It takes no memory.
#[tactic(auto, unfolding(crate::specs::kinds::Transactions::transactions_at))]
fn transactions_parts(payload: &[u8]) -> Option<&[u8]>
    ensures parts { MatchOption result (transactions_at payload.now ≡ None)
        (λ units. transactions_at payload.now ≡ Some (read_items (counted_at unit_at units.now))) }
    ensures units { IfSome result (λ units. IsSome (counted_at unit_at units.now)) }
{
    let rest = after_list::<Unit>(payload, MOST)?;
    if !rest.is_empty() {
        return None;
    }
    Some(payload)
}

/// Whether the bytes are the payload of transactions. It takes no memory.
pub fn is_transactions(payload: &[u8]) -> bool
    ensures { IsTrue result ↔ IsSome (transactions_at payload.now) }
{
    transactions_parts(payload).is_some()
}

/// The transactions whose payload the bytes are. No memory is taken before they are known to be some.
pub fn transactions(alloc: Global, payload: &[u8]) -> Result<Option<UnitList>, AllocError>
    ensures { GivesUnlessFull result (transactions_at payload.now) }
{
    let Some(units) = transactions_parts(payload) else {
        return Ok(None);
    };
    let list = list::<Unit>(alloc, units, MOST)?;
    Ok(Some(UnitList { list }))
}

/// The length of the payload of transactions, none where it is too long.
pub fn transactions_size(units: &[Unit]) -> Option<u32>
    ensures { IsSize false (transactions_payload units.now) result }
{
    let mut count = Counter { size: 0 };
    match put_list(&mut count, units) {
        Ok(()) => Some(count.size),
        Err(Full) => None,
    }
}

/// Appends the payload of transactions.
pub fn put_transactions(out: &mut Vec<u8>, units: &[Unit])
    requires few { IsShort (transactions_payload units.now) }
    requires capacity { HasCapacity out.old (length (transactions_payload units.now)) }
    ensures appended { out.new.items ≡ out.old.items ++ transactions_payload units.now }
{
    put_list(out, units).unwrap();
}
