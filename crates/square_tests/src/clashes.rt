//! Strings and collisions.

use hash_clash::{Clash, Preimage};

#[test]
fn strings_that_are_no_collision(rt: HostRuntime) {
    let cases: [(&str, &[u8], &[u8]); 2] = [("equal", &[0], &[0]), ("two digests", &[0], &[1])];
    for (name, left, right) in cases {
        let left = Preimage::of(left).expect(&rt, "one byte");
        let right = Preimage::of(right).expect(&rt, "one byte");
        assert!(rt; Clash::of(left, right).is_none(), "{name}");
    }
}

#[test]
fn a_string_of_no_bytes(rt: HostRuntime) {
    assert!(rt; Preimage::new().bytes().is_empty());
}
