//! What transactions are read as.

ghost use Rattle.std.specs.Prelude.{◌≡◌, true};
ghost use Rattle.namespace_id.specs.Answers.{Gives};
ghost use Rattle.proto_fields.specs.Fields.{last_of, own_bytes, own_numbers, last_bytes};
ghost use Rattle.proto_fields.specs.Values.{field_parts};
ghost use Rattle.tx_list.specs.Reads.{are_fields, fields_in, stated};
ghost use Rattle.tx_list.specs.Walks.{blob_entry, stated_parts, lowered};

use proto_fields::{Field, Value, are_fields, bytes_or, field_at, last_bytes, number_or};

/// The field of a payment that is one of its blobs.
const ENTRY: u32 = 2;

/// A number of a blob has 32 bits, and others of what a varint states are passed over.
const RADIX: u64 = 4_294_967_296;

/// A blob as a payment states it.
#[derive(Clone, Copy)]
pub(crate) struct Stated<'a> {
    pub(crate) version: u64,
    pub(crate) id: &'a [u8],
    pub(crate) bytes: &'a [u8],
    pub(crate) share_version: u64,
    pub(crate) signer: &'a [u8],
}

/// Whether bytes are fields.
pub(crate) fn is_fields(bytes: &[u8]) -> bool
    ensures { result ≡ are_fields bytes.now }
{
    are_fields(bytes)
}

/// The bytes of the last field of a number, in bytes that are fields.
pub(crate) fn bytes_in(bytes: &[u8], number: u32) -> &[u8]
    requires { are_fields bytes.now ≡ true }
    ensures { result.now ≡ last_bytes number (fields_in bytes.now) }
{
    last_bytes(bytes, number)
}

/// The blob that a field of a payment carries, if it does.
pub(crate) fn entry_of(field: Field<'_>) -> Option<&[u8]>
    ensures { Gives (λ x. x.now) result (blob_entry (field_parts field.entry)) }
{
    if field.number != ENTRY {
        return None;
    }
    match field.value {
        Value::Bytes(bytes) => Some(bytes),
        Value::Number(_) | Value::Other => None,
    }
}

/// A blob as its fields state it up to one, and as they state it with this one: the last of several counts.
fn with_field<'a>(earlier: Stated<'a>, field: Field<'a>) -> Stated<'a>
    ensures version { result.version ≡
        last_of earlier.entry.version (own_numbers 4 (field_parts field.entry)) }
    ensures id { result.id.now ≡ last_of earlier.entry.id.now (own_bytes 1 (field_parts field.entry)) }
    ensures bytes { result.bytes.now ≡
        last_of earlier.entry.bytes.now (own_bytes 2 (field_parts field.entry)) }
    ensures share_version { result.share_version ≡
        last_of earlier.entry.share_version (own_numbers 3 (field_parts field.entry)) }
    ensures signer { result.signer.now ≡
        last_of earlier.entry.signer.now (own_bytes 5 (field_parts field.entry)) }
{
    Stated {
        version: number_or(earlier.version, field, 4),
        id: bytes_or(earlier.id, field, 1),
        bytes: bytes_or(earlier.bytes, field, 2),
        share_version: number_or(earlier.share_version, field, 3),
        signer: bytes_or(earlier.signer, field, 5),
    }
}

/// A blob whose numbers have 32 bits.
fn lowered(blob: Stated<'_>) -> Stated<'_>
    ensures { stated_parts result ≡ lowered (stated_parts blob.entry) }
{
    Stated {
        version: blob.version % RADIX,
        id: blob.id,
        bytes: blob.bytes,
        share_version: blob.share_version % RADIX,
        signer: blob.signer,
    }
}

/// The blob that bytes state if they are fields, and whether they are.
pub(crate) fn read_blob(entry: &[u8]) -> (Stated<'_>, bool)
    ensures fields { result.1 ≡ are_fields entry.now }
    ensures blob { are_fields entry.now ≡ true → stated_parts result.0 ≡ stated entry.now }
{
    let none = &entry[..0];
    let mut blob = Stated {
        version: 0,
        id: none,
        bytes: none,
        share_version: 0,
        signer: none,
    };
    let mut rest = entry;
    while let Some((field, after)) = field_at(rest) {
        blob = with_field(blob, field);
        rest = after;
    }
    (lowered(blob), rest.is_empty())
}
