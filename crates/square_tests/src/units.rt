//! Units that are read back, and shares that are refused, by docs/RULES.md, "Reading shares". No
//! command reads units.

use namespace_id::{NAMESPACE_SIZE, SHARE_SIZE, Share, TRANSACTION};
use share_split::{JoinError, join_units};

/// A share with another byte at this place.
fn changed(share: &Share, at: usize, byte: u8) -> Share {
    let mut share = *share;
    if let Some(place) = share.0.get_mut(at) {
        *place = byte;
    }
    share
}

/// The first share of a compact sequence of length 0.
fn no_units() -> Share {
    let mut share = Share([0; SHARE_SIZE]);
    share.0[..NAMESPACE_SIZE].copy_from_slice(&TRANSACTION.0);
    share.0[29] = 1;
    share
}

/// The first share of units of 472 and 10 bytes.
fn first_of_units() -> Share {
    let mut share = no_units();
    share.0[32..34].copy_from_slice(&485u16.to_be_bytes());
    share.0[37] = 38;
    share.0[38..40].copy_from_slice(&[0xd8, 3]);
    share.0[40..].copy_from_slice(&[5; 472]);
    share
}

/// The second of them, which the second unit begins.
fn second_of_units() -> Share {
    let mut share = changed(&no_units(), 29, 0);
    share.0[33] = 34;
    share.0[34] = 10;
    share.0[35..45].copy_from_slice(&[6; 10]);
    share
}

/// The shares of units of 472 and 10 bytes: the second unit begins the second share.
fn units() -> [Share; 2] {
    [first_of_units(), second_of_units()]
}

#[test]
fn units_of_shares(rt: HostRuntime) {
    let alloc = rt.alloc();
    let read = join_units(alloc, &units()).expect(&rt, "the shares are those of units");
    assert!(rt; read.len() == 2);
    let first = &read[0];
    assert!(rt; first.bytes.as_slice() == [5; 472].as_slice());
    let second = &read[1];
    assert!(rt; second.bytes.as_slice() == [6; 10].as_slice());
    let none: [&[Share]; 2] = [&[], &[no_units()]];
    for shares in none {
        let read = join_units(alloc, shares).expect(&rt, "the shares are those of units");
        assert!(rt; read.is_empty());
    }
}

#[test]
fn shares_that_are_no_units(rt: HostRuntime) {
    let [first, second] = units();
    let mut longer = no_units();
    longer.0[33] = 2;
    longer.0[37] = 38;
    longer.0[38] = 0x80;
    let got = join_units(rt.alloc(), &[longer]);
    assert!(rt;
        got.err() == Some(JoinError::BadVarint(0)),
        "a length of no last byte"
    );
    let got = join_units(rt.alloc(), &[no_units(), no_units()]);
    assert!(rt;
        got.err() == Some(JoinError::NoStart(1)),
        "a share after the sequence"
    );
    let got = join_units(rt.alloc(), &[changed(&first, 37, 39), second]);
    assert!(rt;
        got.err() == Some(JoinError::BadReserved(0)),
        "reserved bytes of the first"
    );
}

/// A byte of the second share of the units is another one.
#[test]
fn later_shares_of_no_units(rt: HostRuntime) {
    let [first, second] = units();
    let cases = [
        ("reserved bytes", 33, 35, JoinError::BadReserved(1)),
        ("a unit past the sequence", 34, 11, JoinError::BadVarint(1)),
        ("a byte after the units", 45, 1, JoinError::NonZeroFill(1)),
    ];
    for (name, at, byte, want) in cases {
        let got = join_units(rt.alloc(), &[first, changed(&second, at, byte)]);
        assert!(rt; got.err() == Some(want), "{name}");
    }
}
