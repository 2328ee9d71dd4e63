//! Of lists of transactions.

ghost use Rattle.std.specs.Prelude.{◌≡◌, ◌<◌, Result};
ghost use Rattle.tx_list.specs.declared.refusals.ListError.TheVariants.{NoMemory as ListFull};
ghost use Rattle.tx_list.specs.declared.refusals.BackError.TheVariants.{NoMemory as BackFull};
ghost use Rattle.one_answer.specs.Ones.{AreOne};

use share_split::Unit;
use square_layout::Square;
use std::alloc::Global;
use tx_list::{BackError, ListError, TxList, lay_list, places, read_list, unlay_list};

/// Transactions are read as one list.
pub fn read_list_twice(
    alloc: Global,
    transactions: Vec<Unit>,
    copy: Vec<Unit>,
) -> (Result<TxList, ListError>, Result<TxList, ListError>)
    requires copy { copy.items ≡ transactions.items }
    ensures { AreOne (λ x. x) ListFull result.0 result.1 }
{
    let first = read_list(alloc, transactions);
    let second = read_list(alloc, copy);
    (first, second)
}

/// A list has one place for each blob.
pub fn places_twice(
    alloc: Global,
    list: &TxList,
) -> (Result<Vec<u32>, ListError>, Result<Vec<u32>, ListError>)
    ensures { AreOne (λ places. places.items) ListFull result.0 result.1 }
{
    let first = places(alloc, list);
    let second = places(alloc, list);
    (first, second)
}

/// It has one square.
pub fn lay_list_twice(
    alloc: Global,
    list: &TxList,
) -> (Result<Square, ListError>, Result<Square, ListError>)
    ensures { AreOne (λ x. x) ListFull result.0 result.1 }
{
    let first = lay_list(alloc, list);
    let second = lay_list(alloc, list);
    (first, second)
}

/// A square is laid out as one list.
pub fn unlay_list_twice(
    alloc: Global,
    square: &Square,
) -> (Result<Vec<Unit>, BackError>, Result<Vec<Unit>, BackError>)
    ensures { AreOne (λ transactions. transactions.items) BackFull result.0 result.1 }
{
    let first = unlay_list(alloc, square);
    let second = unlay_list(alloc, square);
    (first, second)
}
