//! From transactions to the list that they are read as.

ghost use Rattle.std.specs.Prelude.{◌≡◌, ◌-◌, ◌+◌, ◌^◌, ◌<◌, ◌≤◌, ◌==◌, ◌&&◌, [], ◌∷◌, ◌++◌, length, take, true, not, is_some, IfOk, Some, None, if◌then◌else◌};
ghost use Rattle.std.specs.List.{AllByRecursion};
ghost use Rattle.namespace_id.specs.Sizes.{namespace_size};
ghost use Rattle.proto_fields.specs.Fields.{own_bytes};
ghost use Rattle.proto_fields.specs.Values.{field_parts};
ghost use Rattle.tx_list.specs.Payments.{IsPayment};
ghost use Rattle.tx_list.specs.Reads.{tx_in, blob_of, payment_of, list_of};
ghost use Rattle.tx_list.specs.ReadRefusals.{has_version, read_refusal};
ghost use Rattle.tx_list.specs.Refusals.{RefusesFirst};
ghost use Rattle.tx_list.specs.Walks.{stated_parts, with_entries, with_blobs, judgement, taken_payments, IsTaken, IsTakenEntry, IsTakenPayment};

use crate::checking::{
    Checked, Judged, entry_refusal, has_payment, judged_by, plain_with, with_checked,
};
use crate::reading::{Stated, entry_of, read_blob};
use crate::spelling::copied_bytes;
use crate::{ListError, Payment, TxList};
use namespace_id::{NAMESPACE_SIZE, Namespace, NoMemory};
use proto_fields::{Field, bytes_or, field_at};
use share_split::{Blob, SIGNER_SIZE, Unit};
use std::alloc::Global;

/// The namespace of version 0 with an id.
fn name_of(id: &[u8]) -> Namespace
    requires { length id.now ≡ namespace_size - 1 }
    ensures { result.0 ≡ 0 ∷ id.now }
{
    let mut name = [0; NAMESPACE_SIZE];
    name[1..].copy_from_slice(id);
    Namespace(name)
}

/// The signer of a blob, which it has where its share version isn't 0.
fn signer_of(share_version: u64, signer: &[u8]) -> Option<[u8; SIGNER_SIZE]>
    requires { has_version share_version signer.now ≡ true }
    ensures { result ≡ (if share_version == 0 then None else Some signer.now) }
{
    if share_version == 0 {
        return None;
    }
    let mut own = [0; SIGNER_SIZE];
    own.copy_from_slice(signer);
    Some(own)
}

/// A blob as it was stated, on its own.
fn blob_of(alloc: Global, blob: Stated<'_>) -> Result<Blob, NoMemory>
    requires { IsTaken (stated_parts blob) }
    ensures { IfOk result (λ made. made ≡ blob_of (stated_parts blob.entry)) }
{
    let bytes = copied_bytes(alloc, blob.bytes)?;
    Ok(Blob {
        namespace: name_of(blob.id),
        bytes,
        signer: signer_of(blob.share_version, blob.signer),
    })
}

/// Appends a blob as it was stated, where it is taken, and says whether there was memory for it.
fn keep_blob(alloc: Global, blob: Stated<'_>, is_taken: bool, blobs: &mut Vec<Blob>) -> bool
    requires { is_taken ≡ true → IsTaken (stated_parts blob) }
    ensures { result ≡ true → is_taken ≡ true →
        blobs.new.items ≡ blobs.old.items ++ (blob_of (stated_parts blob.entry) ∷ []) }
{
    if !is_taken {
        return true;
    }
    let Ok(made) = blob_of(alloc, blob) else {
        return false;
    };
    blobs.push(made).is_ok()
}

/// Whether a blob is taken, of which bytes are fields or aren't, and why it isn't one.
fn is_taken(are_fields: bool, refusal: Option<ListError>) -> bool
    ensures { result ≡ (are_fields && not (is_some refusal)) }
{
    are_fields && refusal.is_none()
}

/// Whether both hold.
fn both(one: bool, other: bool) -> bool
    ensures { result ≡ (one && other) }
{
    one && other
}

/// Looks at the blob of payment i that a field carries, if it does, and appends it where it is taken. Says whether there was memory
/// for it.
fn with_field(
    alloc: Global,
    i: u64,
    field: Field<'_>,
    checked: &mut Checked,
    blobs: &mut Vec<Blob>,
) -> bool
    requires room { checked.old.count + 1 < 2 ^ 64 }
    ensures checked { checked.new ≡ with_entries i checked.old (own_bytes 2 (field_parts field.entry)) }
    ensures kept { result ≡ true → AllByRecursion IsTakenEntry (own_bytes 2 (field_parts field.entry)) →
        blobs.new.items ≡ with_blobs blobs.old.items (own_bytes 2 (field_parts field.entry)) }
{
    let Some(entry) = entry_of(field) else {
        return true;
    };
    let (blob, are_fields) = read_blob(entry);
    let refusal = entry_refusal(i, checked.count, blob, are_fields);
    *checked = with_checked(*checked, are_fields, refusal);
    keep_blob(alloc, blob, is_taken(are_fields, refusal), blobs)
}

/// What a walk over the fields of a transaction tells.
#[derive(Clone, Copy)]
struct Walked<'a> {
    judged: Judged,
    /// The transaction in it, if it is a payment.
    tx: &'a [u8],
    /// Whether there was memory for its blobs.
    is_whole: bool,
}

/// What transaction i is, and, where it is a payment, why it isn't taken. One walk over the fields tells all of it, and appends the
/// blobs that are taken.
///
/// docs/RULES.md, "A block of the network".
fn walk<'a>(alloc: Global, i: u64, bytes: &'a [u8], blobs: &mut Vec<Blob>) -> Walked<'a>
    requires { blobs.old.items ≡ [] }
    ensures judged { result.judged ≡ judgement i bytes.now }
    ensures tx { IsTakenPayment bytes.now → result.tx.now ≡ tx_in bytes.now }
    ensures blobs { result.is_whole ≡ true → IsTakenPayment bytes.now →
        blobs.new.items ≡ (payment_of bytes.now).blobs }
{
    let mut type_id = &bytes[..0];
    let mut tx = &bytes[..0];
    let mut checked = Checked {
        count: 0,
        are_fields: true,
        refusal: None,
    };
    let mut is_whole = true;
    let mut rest = bytes;
    while let Some((field, after)) = field_at(rest) {
        type_id = bytes_or(type_id, field, 3);
        tx = bytes_or(tx, field, 1);
        let is_kept = with_field(alloc, i, field, &mut checked, blobs);
        is_whole = both(is_whole, is_kept);
        rest = after;
    }
    Walked {
        judged: judged_by(i, rest, type_id, checked),
        tx,
        is_whole,
    }
}

/// What transaction i is, and whether there was memory for the payment, which is appended where one is taken.
fn read_one(alloc: Global, i: u64, bytes: &[u8], payments: &mut Vec<Payment>) -> (Judged, bool)
    ensures judged { result.0 ≡ judgement i bytes.now }
    ensures kept { result.1 ≡ true →
        payments.new.items ≡ payments.old.items ++ taken_payments (judgement i bytes.now) bytes.now }
{
    let mut blobs = Vec::new(alloc);
    let walked = walk(alloc, i, bytes, &mut blobs);
    if !has_payment(walked.judged) {
        return (walked.judged, true);
    }
    if !walked.is_whole {
        return (walked.judged, false);
    }
    let Ok(tx) = copied_bytes(alloc, walked.tx) else {
        return (walked.judged, false);
    };
    let Ok(()) = payments.push(Payment { tx, blobs }) else {
        return (walked.judged, false);
    };
    (walked.judged, true)
}

/// How many transactions are plain, which stand in front, and the payments that those behind them are; or the first one that isn't
/// taken, and why, whatever memory there is. Each is walked once.
///
/// docs/RULES.md, "A block of the network".
fn payments_behind(alloc: Global, transactions: &[Unit]) -> Result<(usize, Vec<Payment>), ListError>
    ensures first { RefusesFirst result (read_refusal transactions.now) }
    ensures count { IfOk result (λ read. read.0 ≤ length transactions.now) }
    ensures units { IfOk result (λ read.
        take read.0 transactions.now ≡ (list_of transactions.now).units) }
    ensures payments { IfOk result (λ read. read.1.items ≡ (list_of transactions.now).payments) }
    ensures payable { IfOk result (λ read. AllByRecursion IsPayment read.1.items) }
{
    let mut plain = 0;
    let mut payments = Vec::new(alloc);
    let mut is_whole = true;
    for (i, one) in transactions.iter().enumerate() {
        let (judged, is_kept) = read_one(alloc, i as u64, &one.bytes, &mut payments);
        plain = plain_with(i, plain, judged)?;
        is_whole = both(is_whole, is_kept);
    }
    if !is_whole {
        return Err(ListError::NoMemory);
    }
    Ok((plain, payments))
}

/// Reads the transactions of a block: which of them are payments for blobs, what these carry, and which are none. Fields may
/// stand in any order, the last of several counts, and fields of other numbers are passed over; a transaction that isn't read
/// as a payment is a plain one, whatever its bytes.
///
/// Refuses the first transaction that isn't taken, by the first check of it that fails, whatever memory there is: a plain one
/// behind a payment (`Behind`); a payment without blobs (`NoBlobs`); and of a payment's first blob that fails one, a namespace
/// that isn't one of a blob (`BadBlob`), a share version that doesn't go with the signer (`BadVersion`), no bytes (`NoBytes`).
/// A list that is taken is refused for want of memory alone. A refusal drops the transactions.
///
/// The fields of each transaction are walked once. The plain transactions stay where they lie; one of them takes memory only while
/// it is read, for what would be its blobs. Those that are payments are dropped, once their transactions and blobs are known.
///
/// docs/RULES.md, "A block of the network"; protobuf, "Encoding".
pub fn read_list(alloc: Global, transactions: Vec<Unit>) -> Result<TxList, ListError>
    ensures first { RefusesFirst result (read_refusal transactions.items) }
    ensures list { IfOk result (λ list. list ≡ list_of transactions.items) }
{
    let (count, payments) = payments_behind(alloc, &transactions)?;
    let mut units = transactions;
    units.truncate(count);
    Ok(TxList { units, payments })
}
