//! The least block that a number makes. Wider ones are made by the program's `demo`.

use sampling::block;

/// It has one blob alone, by tools/values.py.
#[test]
fn least_block(rt: HostRuntime) {
    let made = block(rt.alloc(), 7, 1).expect(&rt, "there is memory");
    assert!(rt; made.units.is_empty() && made.pay_units.is_empty());
    assert!(rt; made.blobs.len() == 1);
    let blob = &made.blobs[0];
    assert!(rt; blob.namespace.0[18..] == [0, 1, 0, 0, 0, 0, 0, 0, 0, 0, 1]);
    assert!(rt; blob.bytes.len() == 250);
    assert!(rt; blob.bytes.starts_with(&[0x0e, 0xd6, 0xcb, 0x0d]));
    assert!(rt; blob.bytes.ends_with(&[0xc6, 0x2f]));
}
