//! Squares, read back as the lists that are laid out as them, by docs/RULES.md, "A block of the network". No command does so.

use crate::lists::{payment, plain, small_blob, version_0};
use namespace_id::{NAMESPACE_SIZE, Namespace, PAY_FOR_BLOB, SHARE_SIZE, Share, TRANSACTION};
use share_split::{JoinError, Unit, unit_shares};
use square_layout::Square;
use std::alloc::Global;
use std::process::Abort;
use tx_list::{BackError, lay_list, read_list, unlay_list};

/// A share of a namespace with zeros behind it, which begins nothing.
fn bare(name: &Namespace) -> Share {
    let mut bytes = [0; SHARE_SIZE];
    bytes[..NAMESPACE_SIZE].copy_from_slice(&name.0);
    Share(bytes)
}

/// The compact share of one payment, wrapped as these bytes.
fn pay_share(rt: &impl Abort, alloc: Global, unit: &[u8]) -> Share {
    let mut bytes = Vec::new(alloc);
    bytes.extend_from_slice(unit).expect(rt, "there is memory");
    let units = vec![in alloc; Unit { bytes }].expect(rt, "there is memory");
    let mut out = Vec::new(alloc);
    unit_shares(alloc, &PAY_FOR_BLOB, &units, &mut out).expect(rt, "it is short");
    out.pop().expect(rt, "there is one")
}

/// The square of width 2 of these shares.
fn square_of(rt: &impl Abort, alloc: Global, shares: [Share; 4]) -> Square {
    let shares = vec![in alloc; shares[0], shares[1], shares[2], shares[3]];
    let shares = shares.expect(rt, "there is memory");
    Square { k: 2, shares }
}

/// A plain transaction, and a payment for two blobs whose namespaces fall.
fn transactions(rt: &impl Abort, alloc: Global) -> Vec<Unit> {
    let blobs = vec![in alloc;
        small_blob(rt, alloc, 0x0202),
        small_blob(rt, alloc, 0x0101),
    ]
    .expect(rt, "there is memory");
    vec![in alloc; plain(rt, alloc), payment(rt, alloc, &blobs)].expect(rt, "there is memory")
}

/// The four shares of their square.
fn laid(rt: &impl Abort, alloc: Global) -> [Share; 4] {
    let list = read_list(alloc, transactions(rt, alloc)).expect(rt, "it is taken");
    let square = lay_list(alloc, &list).expect(rt, "it is small");
    let mut shares = [bare(&TRANSACTION); 4];
    for (i, place) in shares.iter_mut().enumerate() {
        *place = *square.shares.get(i).expect(rt, "the share is there");
    }
    shares
}

#[test]
fn there_and_back(rt: HostRuntime) {
    let alloc = rt.alloc();
    let all = transactions(&rt, alloc);
    let square = square_of(&rt, alloc, laid(&rt, alloc));
    let back = unlay_list(alloc, &square).expect(&rt, "it is its square");
    assert!(rt; back.len() == all.len());
    for (one, other) in back.iter().zip(all.iter()) {
        assert!(rt; one.bytes == other.bytes);
    }
}

#[test]
fn refused_squares(rt: HostRuntime) {
    let alloc = rt.alloc();
    let [first, second, low, high] = laid(&rt, alloc);
    let plain_share = bare(&TRANSACTION);
    let pay = bare(&PAY_FOR_BLOB);
    let blob = bare(&version_0(0x0101));
    let no_wrapper = pay_share(&rt, alloc, &[5]);
    let one_place = pay_share(
        &rt,
        alloc,
        &[0x0a, 2, 5, 6, 0x12, 1, 3, 0x1a, 4, 73, 78, 68, 88],
    );
    let cases = [
        (
            "a first front that begins nothing",
            [plain_share, second, low, high],
            BackError::Units(JoinError::NoStart(0)),
        ),
        (
            "a second front that begins nothing",
            [first, pay, low, high],
            BackError::Payments(JoinError::NoStart(0)),
        ),
        (
            "a unit that isn't wrapped",
            [first, no_wrapper, low, high],
            BackError::Wrapper(0),
        ),
        (
            "a place at which no blob begins",
            [first, second, blob, high],
            BackError::Index(0, 1),
        ),
        (
            "a blob that no payment states",
            [first, one_place, low, high],
            BackError::Unlike(1),
        ),
    ];
    for (name, shares, want) in cases {
        let square = square_of(&rt, alloc, shares);
        assert!(rt; unlay_list(alloc, &square).err() == Some(want), "{name}");
    }
}
