//! Namespaces of blobs.

use crate::inputs::version_0;
use namespace_id::{NAMESPACE_SIZE, Namespace, NsError, TAIL_PADDING};

/// By the Celestia specifications, "Namespace", and docs/RULES.md, "Namespaces".
#[test]
fn blob_namespaces(rt: HostRuntime) {
    let mut prefixed = [0; NAMESPACE_SIZE];
    prefixed[1] = 1;
    let reserved = version_0(0xff);
    let least = version_0(0x100);
    let cases: [(&str, &[u8], Option<NsError>); 6] = [
        ("28 bytes", &[0; 28], Some(NsError::Length)),
        ("parity", &[0xff; NAMESPACE_SIZE], Some(NsError::Version)),
        ("tail padding", &TAIL_PADDING.0, Some(NsError::Version)),
        ("a byte in the prefix", &prefixed, Some(NsError::Prefix)),
        ("greatest reserved", &reserved.0, Some(NsError::Reserved)),
        ("least of a blob", &least.0, None),
    ];
    for (name, bytes, want) in cases {
        assert!(rt; Namespace::blob(bytes).err() == want, "{name}");
    }
}
