//! A square of width 1, held, and its sample.

ghost use Rattle.std.specs.Prelude.{◌≡◌};

use namespace_id::{SHARE_SIZE, Share};
use square_layout::Square;
use square_serve::Held;
use std::alloc::Global;
use std::process::Abort;

/// The place of the one byte of the share that isn't 0: the last of its namespace.
const NAMED: usize = 28;

/// The digest of the leaf over the recovery share along the row, which is the share again: by hashlib, of a zero byte, 29 bytes
/// 0xff and the share.
const LEAF_HASH: [u8; 32] = [
    0x24, 0x79, 0x71, 0x14, 0x1c, 0x77, 0xd7, 0x1c, 0x8f, 0x06, 0xce, 0x65, 0xb2, 0xed, 0xcd, 0x83,
    0x51, 0xa3, 0xb5, 0xcf, 0x74, 0xcf, 0x73, 0x4d, 0x49, 0x93, 0x57, 0x42, 0x15, 0xb3, 0xab, 0x48,
];

/// The held square of one share.
pub(crate) fn held(rt: &impl Abort, alloc: Global) -> Held
    ensures { result.k ≡ 1 }
{
    let mut share = Share([0; SHARE_SIZE]);
    share.0[NAMED] = 5;
    let shares = vec![in alloc; share].expect(rt, "there is memory");
    Held::of(alloc, Square { k: 1, shares }).expect(rt, "there is memory")
}

/// The frame of its sample of cell (0, 0) along the row, of 613 bytes.
pub(crate) fn sample(rt: &impl Abort, alloc: Global) -> Vec<u8> {
    let mut bytes = Vec::new(alloc);
    let mut share = [0; SHARE_SIZE];
    share[NAMED] = 5;
    for part in [
        b"M\0\0\x02\x60\0\0\0\0\0".as_slice(),
        share.as_slice(),
        b"\x01".as_slice(),
        [0xff; 58].as_slice(),
        LEAF_HASH.as_slice(),
    ] {
        bytes.extend_from_slice(part).expect(rt, "there is memory");
    }
    bytes
}
