//! From a square back to the list of transactions that is laid out as it.

ghost use Rattle.std.specs.Prelude.{◌≡◌, ◌⊎◌, ◌++◌, length, map, IfOk, IfErr, OnOk, Some, None, if◌then◌else◌};
ghost use Rattle.share_split.specs.Walks.{units_of};
ghost use Rattle.tx_list.specs.declared.refusals.BackError.TheVariants.{Units, Payments, Unlike, NoMemory};
ghost use Rattle.tx_list.specs.Reads.{list_of};
ghost use Rattle.tx_list.specs.Spelled.{payment_spelling, spelled_list};
ghost use Rattle.tx_list.specs.Backs.{IsBack, HaveNamedBlobs};
ghost use Rattle.tx_list.specs.Measures.{has_square};
ghost use Rattle.tx_list.specs.BackRefusals.{has_namespace, run_of, behind_run, first_front, second_front, front_refusal, front_units, blobs_at, places_refusal, payment_at, wrapper_refusal, wrappers_refusal, back_list, part_refusal, unlike_at, laid_refusal, back_refusal, AnswersBack};

use crate::bounding::has_square;
use crate::bounds::payments_law;
use crate::finding::blob_at;
use crate::laying::lay_list;
use crate::measuring::{Measure, measure_of};
use crate::spelling::{spelled_on, spelled_payment};
use crate::taking::read_list;
use crate::unwrapping::unwrapped;
use crate::{BackError, ListError};
use namespace_id::{NAMESPACE_SIZE, Namespace, PAY_FOR_BLOB, Share, TRANSACTION, shares_law};
use share_split::{Blob, JoinError, Unit, join_units};
use square_layout::Square;
use std::alloc::Global;

// ---- the fronts

/// Whether a share has this namespace.
fn has_namespace(share: &Share, name: &Namespace) -> bool
    ensures { result ≡ has_namespace name.now share.now }
{
    share.0[..NAMESPACE_SIZE] == name.0[..]
}

/// How many shares of a namespace stand at the front.
fn run_length(shares: &[Share], name: &Namespace) -> usize
    ensures { result ≡ length (run_of name.now shares.now) }
{
    for (count, share) in shares.iter().enumerate() {
        if !has_namespace(share, name) {
            return count;
        }
    }
    shares.len()
}

/// The shares of a namespace at the front, and those behind them.
fn split_run<'a>(shares: &'a [Share], name: &Namespace) -> (&'a [Share], &'a [Share])
    ensures run { result.0.now ≡ run_of name.now shares.now }
    ensures behind { result.1.now ≡ behind_run name.now shares.now }
{
    shares.split_at(run_length(shares, name))
}

/// The units of the first front.
fn plain_units(alloc: Global, front: &[Share]) -> Result<Vec<Unit>, BackError>
    ensures first { AnswersBack result (front_refusal Units (units_of front.now)) }
    ensures units { IfOk result (λ units. units.items ≡ front_units (units_of front.now)) }
{
    match join_units(alloc, front) {
        Ok(units) => Ok(units),
        Err(JoinError::NoMemory) => Err(BackError::NoMemory),
        Err(why) => Err(BackError::Units(why)),
    }
}

/// The units of the second front.
fn pay_units(alloc: Global, front: &[Share]) -> Result<Vec<Unit>, BackError>
    ensures first { AnswersBack result (front_refusal Payments (units_of front.now)) }
    ensures units { IfOk result (λ units. units.items ≡ front_units (units_of front.now)) }
{
    match join_units(alloc, front) {
        Ok(units) => Ok(units),
        Err(JoinError::NoMemory) => Err(BackError::NoMemory),
        Err(why) => Err(BackError::Payments(why)),
    }
}

// ---- payments

/// The blobs at the places of payment i.
fn blobs_at(alloc: Global, shares: &[Share], i: u64, places: &[u32]) -> Result<Vec<Blob>, BackError>
    ensures first { AnswersBack result (places_refusal i 0 shares.now places.now) }
    ensures blobs { IfOk result (λ blobs. blobs.items ≡ blobs_at shares.now places.now) }
{
    let mut blobs = Vec::new(alloc);
    for (j, place) in places.iter().enumerate() {
        let Ok(found) = blob_at(alloc, shares, *place) else {
            return Err(BackError::NoMemory);
        };
        let Some(blob) = found else {
            return Err(BackError::Index(i, j as u64));
        };
        let Ok(()) = blobs.push(blob) else {
            return Err(BackError::NoMemory);
        };
    }
    Ok(blobs)
}

/// Payment i, in its one spelling, which is this unit of the second front.
fn payment_at(alloc: Global, shares: &[Share], i: u64, unit: &Unit) -> Result<Unit, BackError>
    ensures first { AnswersBack result (wrapper_refusal i shares.now unit.now) }
    ensures payment { IfOk result (λ payment.
        payment ≡ payment_spelling (payment_at shares.now unit.now)) }
{
    let Ok(found) = unwrapped(alloc, &unit.bytes) else {
        return Err(BackError::NoMemory);
    };
    let Some(wrapper) = found else {
        return Err(BackError::Wrapper(i));
    };
    let blobs = blobs_at(alloc, shares, i, &wrapper.places)?;
    let Ok(payment) = spelled_payment(alloc, wrapper.tx, &blobs) else {
        return Err(BackError::NoMemory);
    };
    Ok(payment)
}

/// Appends the payments, each in its one spelling, that these units of the second front are.
fn push_payments(
    alloc: Global,
    shares: &[Share],
    units: &[Unit],
    out: &mut Vec<Unit>,
) -> Result<(), BackError>
    ensures first { AnswersBack result (wrappers_refusal 0 shares.now units.now) }
    ensures appended { OnOk result (out.new.items
        ≡ out.old.items ++ map payment_spelling (map (payment_at shares.now) units.now)) }
{
    for (i, unit) in units.iter().enumerate() {
        let payment = payment_at(alloc, shares, i as u64, unit)?;
        let Ok(()) = out.push(payment) else {
            return Err(BackError::NoMemory);
        };
    }
    Ok(())
}

/// Why a square isn't laid out as a list whose blobs may take more shares than it has: of the transactions of the first front, and
/// of payments that these units of the second are.
fn wide_refusal(
    alloc: Global,
    square: &Square,
    plain: Vec<Unit>,
    payments: &[Unit],
    blobs: Measure,
) -> BackError
    ensures { (result ≡ NoMemory) ⊎ (result ≡ Unlike
        (if has_square plain.items payments.now blobs then length square.now.shares else 0)) }
{
    match has_square(alloc, plain, payments, blobs) {
        Ok(true) => BackError::Unlike(square.shares.len() as u64),
        Ok(false) => BackError::Unlike(0),
        Err(_full) => BackError::NoMemory,
    }
}

/// The transactions that a square is read as: the plain ones, and the payments in their one spelling. Their blobs are first
/// measured, and are kept only where the square may hold them all.
fn transactions_in(alloc: Global, square: &Square) -> Result<Vec<Unit>, BackError>
    ensures refused { IfErr result (λ e. (e ≡ NoMemory) ⊎ (back_refusal square.now ≡ Some e)) }
    ensures parts { OnOk result (part_refusal square.now ≡ None) }
    ensures list { IfOk result (λ transactions. transactions.items ≡ spelled_list (back_list square.now)) }
{
    shares_law(&square.shares);
    let (front, behind) = split_run(&square.shares, &TRANSACTION);
    let (second, _rest) = split_run(behind, &PAY_FOR_BLOB);
    let mut transactions = plain_units(alloc, front)?;
    let payments = pay_units(alloc, second)?;
    let blobs = measure_of(alloc, &square.shares, &payments)?;
    if blobs.bound > square.shares.len() as u64 {
        return Err(wide_refusal(alloc, square, transactions, &payments, blobs));
    }
    push_payments(alloc, &square.shares, &payments, &mut transactions)?;
    Ok(transactions)
}

// ---- the square of the list

/// The first share in which two squares differ.
fn unlike_at(square: &Square, other: &Square) -> Option<u64>
    ensures { result ≡ unlike_at square.now other.now }
{
    if square.k != other.k {
        let k = u64::from(square.k.min(other.k));
        return Some(k * k);
    }
    for i in 0..square.shares.len() {
        if square.shares[i] != other.shares[i] {
            return Some(i as u64);
        }
    }
    None
}

/// Lays transactions out, compares the square with this one, and gives them in their one spelling. The plain ones stay where they
/// lie.
fn lay_again(
    alloc: Global,
    square: &Square,
    transactions: Vec<Unit>,
) -> Result<Vec<Unit>, BackError>
    ensures first { AnswersBack result (laid_refusal square.now transactions.items) }
    ensures named { OnOk result (HaveNamedBlobs transactions.items) }
    ensures list { IfOk result (λ again. again.items ≡ spelled_list (list_of transactions.items)) }
{
    let list = match read_list(alloc, transactions) {
        Ok(list) => list,
        Err(ListError::NoMemory) => return Err(BackError::NoMemory),
        Err(_why) => return Err(BackError::Unlike(0)),
    };
    payments_law(&list.payments);
    let laid = match lay_list(alloc, &list) {
        Ok(laid) => laid,
        Err(ListError::NoMemory) => return Err(BackError::NoMemory),
        Err(_why) => return Err(BackError::Unlike(0)),
    };
    if let Some(at) = unlike_at(square, &laid) {
        return Err(BackError::Unlike(at));
    }
    let Ok(again) = spelled_on(alloc, list) else {
        return Err(BackError::NoMemory);
    };
    Ok(again)
}

/// The list of transactions that is laid out as a square (`lay_list`), in its one spelling: the plain transactions, and behind
/// them the payments with their blobs.
///
/// Refuses, in this order: a first front that isn't units (`Units`), and a second one (`Payments`); of
/// the payments in turn, one that isn't a transaction wrapped with the places of its blobs (`Wrapper`), and then its first place
/// at which no blob begins (`Index`); a square other than that of the list which was so read (`Unlike`). Out of memory may come in
/// place of any answer. Before blobs are kept, each is read once, however often it is stated, and where those that are stated may
/// take more shares than the square has, it is refused. So blobs take no more memory than a few such squares. Plain transactions
/// are kept once, each as a string of its own.
///
/// docs/RULES.md, "A block of the network"; Celestia specifications, "Square Layout".
pub fn unlay_list(alloc: Global, square: &Square) -> Result<Vec<Unit>, BackError>
    ensures first { AnswersBack result (back_refusal square.now) }
    ensures list { IfOk result (λ transactions. transactions.items ≡ spelled_list (back_list square.now)) }
    ensures back { IfOk result (λ transactions. IsBack square.now transactions.items) }
{
    let transactions = transactions_in(alloc, square)?;
    let again = lay_again(alloc, square, transactions)?;
    Ok(again)
}
