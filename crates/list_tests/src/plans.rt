//! Squares of plans, by docs/RULES.md, "A block of the network". No command lays out a plan that isn't a list's.

ghost use Rattle.std.specs.Prelude.{◌≤◌, length};

use crate::lists::version_0;
use namespace_id::{PRIMARY_RESERVED_PADDING, TAIL_PADDING};
use share_split::Blob;
use square_layout::{MAX_SHARES, lay_plan, plan_bound};
use std::alloc::Global;
use std::process::Abort;

/// A blob of one byte.
fn small(rt: &impl Abort, alloc: Global, low: u16) -> Blob
    ensures { 1 ≤ length result.bytes }
{
    Blob {
        namespace: version_0(low),
        bytes: vec![in alloc; 7].expect(rt, "there is memory"),
        signer: None,
    }
}

/// Two blobs whose namespaces fall, behind two reserved places that nothing takes.
#[test]
fn reserved_places(rt: HostRuntime) {
    let alloc = rt.alloc();
    let high = small(&rt, alloc, 0x0202);
    let low = small(&rt, alloc, 0x0101);
    let blobs = vec![in alloc; &high, &low].expect(&rt, "there is memory");
    assert!(rt; plan_bound(2, &blobs) <= MAX_SHARES);
    let square = lay_plan(alloc, &[], &[], blobs, 2).expect(&rt, "there is memory");
    assert!(rt; square.k == 2 && square.shares.len() == 4);
    let names = [
        PRIMARY_RESERVED_PADDING,
        PRIMARY_RESERVED_PADDING,
        version_0(0x0101),
        version_0(0x0202),
    ];
    for (share, name) in square.shares.iter().zip(names.iter()) {
        assert!(rt; share.namespace() == *name);
    }
}

/// No blobs: the reserved place decides the width, and nothing stands before the padding.
#[test]
fn no_blobs(rt: HostRuntime) {
    let alloc = rt.alloc();
    let blobs = Vec::new(alloc);
    assert!(rt; plan_bound(2, &blobs) <= MAX_SHARES);
    let square = lay_plan(alloc, &[], &[], blobs, 2).expect(&rt, "there is memory");
    assert!(rt; square.k == 2 && square.shares.len() == 4);
    for share in square.shares.iter() {
        assert!(rt; share.namespace() == TAIL_PADDING);
    }
}
