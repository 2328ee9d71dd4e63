//! Numbers of leaves.

use nmt_tree::is_leaf_count;

#[test]
fn leaf_counts(rt: HostRuntime) {
    for n in [1, 2, 4, 8, 16, 32, 64, 128, 256, 512, 1024] {
        assert!(rt; is_leaf_count(n), "{n}");
    }
    for n in [0, 3, 1023, 1025, 2048] {
        assert!(rt; !is_leaf_count(n), "{n}");
    }
}
