//! Headers, data roots and root proofs.

ghost use Rattle.std.specs.Prelude.{◌≡◌, ◌<◌};

use data_header::{Header, HeaderError, RootPath, data_root, make_root_proof, open_root};
use namespace_id::{Axis, Digest};
use std::alloc::Global;
use std::process::Abort;

/// Digests of 90 bytes `from` each, then of the next byte, up to that before `to`.
fn digests(rt: &impl Abort, alloc: Global, from: u8, to: u8) -> Vec<Digest> {
    let mut digests = Vec::new(alloc);
    for byte in from..to {
        digests
            .push(Digest([byte; 90]))
            .expect(rt, "there is memory");
    }
    digests
}

/// The first two hashes of three.
fn shortened(path: &RootPath) -> RootPath {
    let mut short = RootPath::new();
    if let [first, second, _] = path.hashes() {
        short.push(*first);
        short.push(*second);
    }
    short
}

/// The data root of the header of width 1 with roots of 90 bytes 1, 2, 3 and 4 each, by
/// tools/values.py.
const ROOT: [u8; 32] = [
    0xa2, 0x80, 0x9c, 0xad, 0x28, 0xe4, 0x31, 0x8a, 0x23, 0x23, 0xad, 0xcc, 0xec, 0x68, 0x94, 0x0a,
    0xc3, 0x42, 0x2e, 0xa8, 0xe0, 0x14, 0xa8, 0x77, 0xf8, 0x7f, 0xf6, 0x76, 0xbf, 0x69, 0x8c, 0xbc,
];

#[test]
fn headers(rt: HostRuntime) {
    let alloc = rt.alloc();
    let odd = Header::of(3, digests(&rt, alloc, 1, 2), digests(&rt, alloc, 2, 3));
    assert!(rt; odd.err() == Some(HeaderError::Width));
    let short = Header::of(1, digests(&rt, alloc, 1, 2), digests(&rt, alloc, 3, 5));
    assert!(rt; short.err() == Some(HeaderError::Count));
    let least = Header::of(1, digests(&rt, alloc, 1, 3), digests(&rt, alloc, 3, 5));
    let least = least.expect(&rt, "there are two roots each");
    assert!(rt; data_root(&least) == ROOT);
}

/// The path of a root of a header of width 2 opens with that root, at its place and whole.
fn opens_alone(rt: &impl Abort, header: &Header, axis: Axis, index: u16)
    requires width { header.now.k ≡ 2 }
    requires index { index < 4 }
{
    let root = data_root(header);
    let digest = header.root_of(axis, index);
    let other = Digest([9; 90]);
    let path = make_root_proof(header, axis, index);
    let short = shortened(&path);
    assert!(rt; short.hashes().len() == 2);
    assert!(rt; open_root(&root, 2, axis, index, &digest, &path));
    assert!(rt; !open_root(&root, 2, axis, 3 - index, &digest, &path));
    assert!(rt; !open_root(&root, 2, axis, index, &other, &path));
    assert!(rt; !open_root(&root, 2, axis, index, &digest, &short));
}

#[test]
fn root_paths(rt: HostRuntime) {
    let alloc = rt.alloc();
    let header = Header::of(2, digests(&rt, alloc, 1, 5), digests(&rt, alloc, 5, 9));
    let header = header.expect(&rt, "there are four roots each");
    for axis in [Axis::Row, Axis::Col] {
        for index in 0..4 {
            opens_alone(&rt, &header, axis, index);
        }
    }
}
