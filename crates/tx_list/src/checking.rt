//! Which transactions are taken: the checks of payments and of their blobs.

ghost use Rattle.std.specs.Prelude.{◌≡◌, ◌+◌, ◌<◌, ◌≤◌, ◌^◌, ◌==◌, ◌&&◌, List, ℕ, nat_lt, codes, length, None, IfOk, if◌then◌else◌};
ghost use Rattle.std.specs.Str.{bytes_eq};
ghost use Rattle.namespace_id.specs.Answers.{refusal_in};
ghost use Rattle.tx_list.specs.Reads.{is_payment};
ghost use Rattle.tx_list.specs.ReadRefusals.{name_refusal, has_version, blob_refusal, transaction_refusal};
ghost use Rattle.tx_list.specs.Walks.{stated_parts, with_checked, judgement, judged_fields, has_payment};

use crate::ListError;
use crate::reading::Stated;
use namespace_id::{NAMESPACE_SIZE, Namespace, NsError};
use share_split::SIGNER_SIZE;

/// The type id of a payment with its blobs.
const PAYMENT: [u8; 4] = *b"BLOB";

/// The bytes of a namespace's id.
const ID_SIZE: usize = NAMESPACE_SIZE - 1;

/// Why a version and an id are no namespace of a blob: the id's length comes first.
fn name_refusal(version: u64, id: &[u8]) -> Option<NsError>
    ensures { result ≡ name_refusal version id.now }
{
    if id.len() != ID_SIZE {
        return Some(NsError::Length);
    }
    if version != 0 {
        return Some(NsError::Version);
    }
    let mut name = [0; NAMESPACE_SIZE];
    name[1..].copy_from_slice(id);
    Namespace::blob(&name).err()
}

/// Whether a share version goes with a signer.
fn has_version(version: u64, signer: &[u8]) -> bool
    ensures { result ≡ has_version version signer.now }
{
    (version == 0 && signer.is_empty()) || (version == 1 && signer.len() == SIGNER_SIZE)
}

/// Why blob j of transaction i isn't one.
fn blob_refusal(i: u64, j: u64, blob: Stated<'_>) -> Option<ListError>
    ensures { result ≡ blob_refusal i j (stated_parts blob.entry) }
{
    if let Some(why) = name_refusal(blob.version, blob.id) {
        return Some(ListError::BadBlob(i, j, why));
    }
    if !has_version(blob.share_version, blob.signer) {
        return Some(ListError::BadVersion(i, j));
    }
    if blob.bytes.is_empty() {
        return Some(ListError::NoBytes(i, j));
    }
    None
}

/// Why blob j of transaction i isn't one; bytes that aren't fields state none.
pub(crate) fn entry_refusal(i: u64, j: u64, blob: Stated<'_>, are_fields: bool) -> Option<ListError>
    ensures { result ≡ (if are_fields then blob_refusal i j (stated_parts blob.entry) else None) }
{
    if !are_fields {
        return None;
    }
    blob_refusal(i, j, blob)
}

/// What is known of the blobs of a payment that were looked at.
#[derive(Clone, Copy)]
pub(crate) struct Checked {
    /// How many they are.
    pub(crate) count: u64,
    /// Whether each of them is fields.
    pub(crate) are_fields: bool,
    /// Why the first one that is refused is.
    pub(crate) refusal: Option<ListError>,
}

/// What a transaction is.
#[derive(Clone, Copy)]
pub(crate) enum Judged {
    /// No payment.
    Plain,
    /// A payment, and why it isn't taken.
    Payment(Option<ListError>),
}

/// What is known of the blobs of a payment with one more: whether it is fields, and why it isn't one.
pub(crate) fn with_checked(
    checked: Checked,
    are_fields: bool,
    refusal: Option<ListError>,
) -> Checked
    requires room { checked.count + 1 < 2 ^ 64 }
    ensures { result ≡ with_checked checked are_fields refusal }
{
    Checked {
        count: checked.count + 1,
        are_fields: checked.are_fields && are_fields,
        refusal: checked.refusal.or(refusal),
    }
}

/// Whether a transaction is a payment, by what a walk over its fields has left, the last type id, and whether its blobs are fields.
fn is_paying(rest: &[u8], type_id: &[u8], are_fields: bool) -> bool
    ensures { result ≡ ((length rest.now == 0) && bytes_eq type_id.now (codes "BLOB") && are_fields) }
{
    rest.is_empty() && type_id == PAYMENT.as_slice() && are_fields
}

/// What transaction i is, by what a walk over its fields has left, the last type id, and what is known of its blobs.
pub(crate) fn judged_by(i: u64, rest: &[u8], type_id: &[u8], checked: Checked) -> Judged
    ensures { result ≡ judged_fields i rest.now type_id.now checked }
{
    if !is_paying(rest, type_id, checked.are_fields) {
        return Judged::Plain;
    }
    if checked.count == 0 {
        return Judged::Payment(Some(ListError::NoBlobs(i)));
    }
    Judged::Payment(checked.refusal)
}

/// Whether a transaction is a payment that is taken.
pub(crate) fn has_payment(one: Judged) -> bool
    ensures { result ≡ has_payment one }
{
    match one {
        Judged::Payment(None) => true,
        Judged::Payment(Some(_)) | Judged::Plain => false,
    }
}

/// How many plain transactions stand in front of all payments, once transaction i was judged; and why it isn't taken.
pub(crate) fn plain_with(i: usize, plain: usize, one: Judged) -> Result<usize, ListError>
    requires room { plain ≤ i }
    requires place { i + 1 < 2 ^ 64 }
    ensures refused { (bytes : List ℕ) → one ≡ judgement i bytes →
        refusal_in result ≡ transaction_refusal i (nat_lt plain i) bytes }
    ensures count { (bytes : List ℕ) → one ≡ judgement i bytes →
        IfOk result (λ count. count ≡ (if is_payment bytes then plain else plain + 1)) }
{
    match one {
        Judged::Payment(Some(why)) => Err(why),
        Judged::Payment(None) => Ok(plain),
        Judged::Plain => {
            if plain < i {
                return Err(ListError::Behind(i as u64));
            }
            Ok(plain + 1)
        }
    }
}
