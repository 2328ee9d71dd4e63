//! Codewords of shares. Expected bytes: by tools/values.py, those of widths 256 and 512 by
//! klauspost/reedsolomon 1.14.1.

ghost use Rattle.std.specs.Prelude.{◌<◌, ◌≤◌, length};

use crate::inputs::share;
use leopard_code::{Room, are_positions, extend, rebuild};
use namespace_id::{SHARE_SIZE, Share, is_width};
use std::alloc::Global;
use std::process::Abort;

/// Extends in a new room.
fn extended(rt: &impl Abort, alloc: Global, originals: &[Share], recovery: &mut [Share]) {
    let count = originals.len();
    assert!(rt; count <= 128 && is_width(count as u16) && recovery.len() == count);
    let mut room = Room::new(alloc, count as u16).expect(rt, "there is memory");
    extend(&mut room, originals, recovery);
}

#[test]
fn extensions(rt: HostRuntime) {
    let unit = [share(0), share(0), share(0), share(1)];
    let cases: [(&[Share], &[Share]); 6] = [
        (&[share(7)], &[share(7)]),
        (&unit[2..], &[share(2), share(3)]),
        (&[share(5); 2], &[share(5); 2]),
        (&unit[..2], &unit[..2]),
        (&unit, &[share(9), share(11), share(14), share(13)]),
        (&[share(6); 4], &[share(6); 4]),
    ];
    for (originals, want) in cases {
        assert!(rt; want.len() <= 4);
        let mut recovery = [share(0); 4];
        let recovery = &mut recovery[..want.len()];
        extended(&rt, rt.alloc(), originals, recovery);
        assert!(rt; &*recovery == want);
    }
}

/// Rebuilds in a new room.
fn rebuilt(rt: &impl Abort, alloc: Global, known: &[u16], shares: &[Share], all: &mut [Share]) {
    let count = known.len();
    assert!(rt; count <= 128 && is_width(count as u16) && are_positions(count as u16, known));
    assert!(rt; shares.len() == count && all.len() == 2 * count);
    let mut room = Room::new(alloc, count as u16).expect(rt, "there is memory");
    rebuild(&mut room, known, shares, all);
}

#[test]
fn two_recovery_shares(rt: HostRuntime) {
    let mut all = [share(0); 4];
    rebuilt(&rt, rt.alloc(), &[2, 3], &[share(2), share(3)], &mut all);
    assert!(rt; all == [share(0), share(1), share(2), share(3)]);
}

#[test]
fn each_four_of_eight(rt: HostRuntime) {
    let bytes = [0, 0, 0, 1, 9, 11, 14, 13];
    let mut word = [share(0); 8];
    for pos in 0..8 {
        word[pos] = share(bytes[pos]);
    }
    for mask in 0..256_u16 {
        let mut known = [0; 4];
        let mut shares = [share(0); 4];
        let mut next = 0;
        for pos in 0..8_u16 {
            if (mask >> pos) & 1 == 1 && next < 4 {
                known[next] = pos;
                shares[next] = word[pos as usize];
                next += 1;
            }
        }
        if mask.count_ones() == 4 {
            let mut all = [share(255); 8];
            rebuilt(&rt, rt.alloc(), &known, &shares, &mut all);
            assert!(rt; all == word, "{mask}");
        }
    }
}

/// The original share of this number.
fn original(i: usize) -> Share
    requires { i < 128 }
{
    let mut bytes = [0; SHARE_SIZE];
    for b in 0..SHARE_SIZE {
        bytes[b] = ((i * b + 7 * i + b) % 256) as u8;
    }
    Share(bytes)
}

/// 128 originals.
fn originals() -> [Share; 128] {
    let mut originals = [share(0); 128];
    for i in 0..128 {
        originals[i] = original(i);
    }
    originals
}

#[test]
fn greatest_width(rt: HostRuntime) {
    let originals = originals();
    let mut recovery = [share(0); 128];
    extended(&rt, rt.alloc(), &originals, &mut recovery);
    let mut known = [0; 128];
    let mut shares = [share(0); 128];
    for i in 0..64 {
        known[i] = 2 * i as u16 + 1;
        shares[i] = originals[2 * i + 1];
        known[64 + i] = 128 + 2 * i as u16;
        shares[64 + i] = recovery[2 * i];
    }
    let mut all = [share(0); 256];
    rebuilt(&rt, rt.alloc(), &known, &shares, &mut all);
    for i in 0..128 {
        assert!(rt;
            all[i] == originals[i] && all[128 + i] == recovery[i],
            "{i}"
        );
    }
}

/// The recovery shares where the first word of one of `count` originals is 1, and all others are 0.
fn word_column(rt: &impl Abort, alloc: Global, count: usize, at: usize) -> Vec<Share> {
    assert!(rt; count == 256 || count == 512);
    assert!(rt; at < count);
    let originals = vec![in alloc; share(0); count];
    let mut originals = originals.expect(rt, "there is memory");
    let mut bytes = [0; SHARE_SIZE];
    bytes[0] = 1;
    originals[at] = Share(bytes);
    let recovery = vec![in alloc; share(0); count];
    let mut recovery = recovery.expect(rt, "there is memory");
    let mut room = Room::new(alloc, count as u16).expect(rt, "there is memory");
    extend(&mut room, &originals, &mut recovery);
    recovery
}

/// The first word of a share.
fn first_word(share: &Share) -> u16 {
    u16::from_le_bytes([share.0[0], share.0[32]])
}

#[test]
fn words(rt: HostRuntime) {
    let cases = [
        (256, 17, [(0, 8551), (1, 8518), (2, 63600), (255, 33122)]),
        (512, 511, [(0, 48763), (1, 33754), (2, 33625), (511, 57670)]),
    ];
    for (count, at, wanted) in cases {
        let recovery = word_column(&rt, rt.alloc(), count, at);
        for (pos, want) in wanted {
            assert!(rt; pos < recovery.len());
            assert!(rt; first_word(&recovery[pos]) == want, "{pos} of {count}");
        }
    }
}

/// Writes the positions of the recovery shares.
fn write_recovery(known: &mut [u16])
    requires { length known.old ≤ 512 }
{
    let count = known.len();
    for i in 0..count {
        known[i] = (count + i) as u16;
    }
}

/// What is rebuilt of the recovery shares alone, over words.
fn from_recovery(rt: &impl Abort, alloc: Global, recovery: &[Share]) -> Vec<Share> {
    let count = recovery.len();
    assert!(rt; count == 256 || count == 512);
    let known = vec![in alloc; 0; count];
    let mut known = known.expect(rt, "there is memory");
    write_recovery(&mut known);
    assert!(rt; known.len() == count && are_positions(count as u16, &known));
    let all = vec![in alloc; share(0); 2 * count];
    let mut all = all.expect(rt, "there is memory");
    let mut room = Room::new(alloc, count as u16).expect(rt, "there is memory");
    rebuild(&mut room, &known, recovery, &mut all);
    all
}

#[test]
fn words_of_recovery_shares(rt: HostRuntime) {
    for (count, at) in [(256, 17), (512, 511)] {
        let recovery = word_column(&rt, rt.alloc(), count, at);
        let all = from_recovery(&rt, rt.alloc(), &recovery);
        for pos in 0..count {
            assert!(rt; pos < all.len());
            assert!(rt;
                first_word(&all[pos]) == (pos == at) as u16,
                "{pos} of {count}"
            );
        }
    }
}

/// Writes one of each two positions, by the bits of its number.
fn write_either(known: &mut [u16])
    requires { length known.old ≤ 512 }
{
    for i in 0..known.len() {
        known[i] = 2 * i as u16 + (i.count_ones() % 2) as u16;
    }
}

/// What is rebuilt of `count` shares, one at one of each two positions. The first word of one of them
/// is 1, and all others are 0.
fn from_either(rt: &impl Abort, alloc: Global, count: usize, at: usize) -> Vec<Share> {
    assert!(rt; count == 256 || count == 512);
    assert!(rt; at < count);
    let known = vec![in alloc; 0; count];
    let mut known = known.expect(rt, "there is memory");
    write_either(&mut known);
    assert!(rt; known.len() == count && are_positions(count as u16, &known));
    let shares = vec![in alloc; share(0); count];
    let mut shares = shares.expect(rt, "there is memory");
    let mut bytes = [0; SHARE_SIZE];
    bytes[0] = 1;
    shares[at] = Share(bytes);
    let all = vec![in alloc; share(0); 2 * count];
    let mut all = all.expect(rt, "there is memory");
    let mut room = Room::new(alloc, count as u16).expect(rt, "there is memory");
    rebuild(&mut room, &known, &shares, &mut all);
    all
}

#[test]
fn words_of_either(rt: HostRuntime) {
    let cases = [
        (256, [(1, 31934), (2, 21644), (256, 29629), (511, 32258)]),
        (512, [(1, 16153), (2, 18879), (512, 11654), (1022, 19778)]),
    ];
    for (count, wanted) in cases {
        let all = from_either(&rt, rt.alloc(), count, 17);
        for (pos, want) in wanted {
            assert!(rt; pos < all.len());
            assert!(rt; first_word(&all[pos]) == want, "{pos} of {count}");
        }
    }
}
