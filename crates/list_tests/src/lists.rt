//! Lists of transactions, by docs/RULES.md, "A block of the network". No command reads them.

use namespace_id::{NAMESPACE_SIZE, Namespace, NsError, PAY_FOR_BLOB, TAIL_PADDING};
use proto_fields::{field_size, put_field, put_number, varint_size};
use share_split::Unit;
use square_layout::Square;
use std::alloc::Global;
use std::process::Abort;
use tx_list::{ListError, TxList, lay_list, places, read_list, spell_list};

/// The namespace of version 0 with this number in its last two bytes.
pub(crate) fn version_0(low: u16) -> Namespace {
    let mut bytes = [0; NAMESPACE_SIZE];
    bytes[27..].copy_from_slice(&low.to_be_bytes());
    Namespace(bytes)
}

/// Appends a field of bytes.
fn put(rt: &impl Abort, number: u32, bytes: &[u8], out: &mut Vec<u8>) {
    let size = field_size(number, bytes.len() as u64) as usize;
    out.reserve(size).expect(rt, "there is memory");
    put_field(number, bytes, out);
}

/// A blob of these bytes as a payment carries it.
fn blob(rt: &impl Abort, alloc: Global, id: &[u8], bytes: &[u8]) -> Vec<u8> {
    let mut out = Vec::new(alloc);
    put(rt, 1, id, &mut out);
    put(rt, 2, bytes, &mut out);
    out
}

/// A blob of one byte.
pub(crate) fn small_blob(rt: &impl Abort, alloc: Global, low: u16) -> Vec<u8> {
    blob(rt, alloc, &version_0(low).0[1..], &[7])
}

/// A payment of the transaction 5, 6 that carries these blobs.
pub(crate) fn payment(rt: &impl Abort, alloc: Global, blobs: &[Vec<u8>]) -> Unit {
    let mut bytes = Vec::new(alloc);
    put(rt, 1, &[5, 6], &mut bytes);
    for blob in blobs {
        put(rt, 2, blob, &mut bytes);
    }
    put(rt, 3, b"BLOB", &mut bytes);
    Unit { bytes }
}

/// The bytes of a share of a square, between these two places.
fn part<'a>(rt: &impl Abort, square: &'a Square, i: usize, from: usize, to: usize) -> &'a [u8] {
    let share = square.shares.get(i).expect(rt, "the share is there");
    share.0.get(from..to).expect(rt, "the part is there")
}

/// The namespace of a share of a square.
fn name<'a>(rt: &impl Abort, square: &'a Square, i: usize) -> &'a [u8] {
    part(rt, square, i, 0, NAMESPACE_SIZE)
}

/// A plain transaction.
pub(crate) fn plain(rt: &impl Abort, alloc: Global) -> Unit {
    let bytes = vec![in alloc; 9].expect(rt, "there is memory");
    Unit { bytes }
}

/// The bytes of the one transaction of a list, in its one spelling.
fn spelled(rt: &impl Abort, alloc: Global, list: &TxList) -> Vec<u8> {
    let mut all = spell_list(alloc, list).expect(rt, "there is memory");
    let one = all.pop().expect(rt, "there is one");
    one.bytes
}

#[test]
fn no_transactions(rt: HostRuntime) {
    let alloc = rt.alloc();
    let list = read_list(alloc, Vec::new(alloc)).expect(&rt, "none is refused");
    assert!(rt; list.units.is_empty() && list.payments.is_empty());
    let square = lay_list(alloc, &list).expect(&rt, "it is small");
    assert!(rt; square.k == 1);
    assert!(rt; name(&rt, &square, 0) == TAIL_PADDING.0.as_slice());
}

/// Two blobs whose namespaces fall: the places stand in the payment's order, and the blobs by their namespaces.
#[test]
fn one_payment(rt: HostRuntime) {
    let alloc = rt.alloc();
    let blobs = vec![in alloc;
        small_blob(&rt, alloc, 0x0202),
        small_blob(&rt, alloc, 0x0101),
    ]
    .expect(&rt, "there is memory");
    let all = vec![in alloc; payment(&rt, alloc, &blobs)].expect(&rt, "there is memory");
    let list = read_list(alloc, all).expect(&rt, "it is taken");
    assert!(rt; list.units.is_empty() && list.payments.len() == 1);
    let own = places(alloc, &list).expect(&rt, "it is small");
    assert!(rt; own.as_slice() == [2, 1].as_slice());
    let square = lay_list(alloc, &list).expect(&rt, "it is small");
    assert!(rt; square.k == 2);
    assert!(rt; name(&rt, &square, 0) == PAY_FOR_BLOB.0.as_slice());
    let wrapped = [14, 0x0a, 2, 5, 6, 0x12, 2, 2, 1, 0x1a, 4, 73, 78, 68, 88];
    assert!(rt; part(&rt, &square, 0, 38, 53) == wrapped.as_slice());
    assert!(rt; name(&rt, &square, 1) == version_0(0x0101).0.as_slice());
    assert!(rt; name(&rt, &square, 2) == version_0(0x0202).0.as_slice());
    assert!(rt; spelled(&rt, alloc, &list) == payment(&rt, alloc, &blobs).bytes);
}

/// Fields in another order, one that is no field of a payment, and two of a number, of which the last one counts.
#[test]
fn lenient_reading(rt: HostRuntime) {
    let alloc = rt.alloc();
    let mut bytes = Vec::new(alloc);
    put(&rt, 3, b"blob", &mut bytes);
    put(&rt, 3, b"BLOB", &mut bytes);
    put(&rt, 9, &[1, 2, 3], &mut bytes);
    put(&rt, 2, &small_blob(&rt, alloc, 0x0101), &mut bytes);
    put(&rt, 1, &[5, 6], &mut bytes);
    let all = vec![in alloc; Unit { bytes }].expect(&rt, "there is memory");
    let list = read_list(alloc, all).expect(&rt, "it is taken");
    assert!(rt; list.payments.len() == 1 && list.units.is_empty());
    let blobs = vec![in alloc; small_blob(&rt, alloc, 0x0101)].expect(&rt, "there is memory");
    assert!(rt; spelled(&rt, alloc, &list) == payment(&rt, alloc, &blobs).bytes);
}

/// A payment but for a blob that isn't fields.
#[test]
fn plain_transactions(rt: HostRuntime) {
    let alloc = rt.alloc();
    let broken = vec![in alloc; 0x0a, 5, 1].expect(&rt, "there is memory");
    let blobs = vec![in alloc; small_blob(&rt, alloc, 0x0101), broken].expect(
        &rt,
        "there is memory",
    );
    let all = vec![in alloc; payment(&rt, alloc, &blobs), plain(&rt, alloc)].expect(
        &rt,
        "there is memory",
    );
    let list = read_list(alloc, all).expect(&rt, "both are plain");
    assert!(rt; list.units.len() == 2 && list.payments.is_empty());
}

/// What a list of a payment for these blobs and of a plain transaction is refused for.
fn refusal(rt: &impl Abort, alloc: Global, blobs: &[Vec<u8>]) -> Option<ListError> {
    let all = vec![in alloc; payment(rt, alloc, blobs), plain(rt, alloc)].expect(
        rt,
        "there is memory",
    );
    read_list(alloc, all).err()
}

#[test]
fn refused_lists(rt: HostRuntime) {
    let alloc = rt.alloc();
    let good = small_blob(&rt, alloc, 0x0101);
    let reserved = small_blob(&rt, alloc, 1);
    let short = blob(&rt, alloc, &[0; 27], &[]);
    let empty = blob(&rt, alloc, &version_0(0x0101).0[1..], &[]);
    let mut versioned = small_blob(&rt, alloc, 0x0101);
    let size = varint_size(8 * 3) + varint_size(1);
    versioned.reserve(size).expect(&rt, "there is memory");
    put_number(3, 1, &mut versioned);
    assert!(rt;
        refusal(&rt, alloc, &[]) == Some(ListError::NoBlobs(0)),
        "no blobs"
    );
    let cases = [
        ("a payment before it", good, ListError::Behind(1)),
        (
            "a reserved namespace",
            reserved,
            ListError::BadBlob(0, 0, NsError::Reserved),
        ),
        (
            "a short id and no bytes",
            short,
            ListError::BadBlob(0, 0, NsError::Length),
        ),
        (
            "a share version without a signer",
            versioned,
            ListError::BadVersion(0, 0),
        ),
        ("no bytes", empty, ListError::NoBytes(0, 0)),
    ];
    for (name, one, want) in cases {
        let blobs = vec![in alloc; one].expect(&rt, "there is memory");
        assert!(rt; refusal(&rt, alloc, &blobs) == Some(want), "{name}");
    }
}
