//! A blob without bytes: it has no shares, and no commitment.

use blob_commit::{CommitError, commitment_of};
use namespace_id::{NAMESPACE_SIZE, Namespace};
use share_split::{Blob, SplitError, blob_shares};

#[test]
fn no_bytes(rt: HostRuntime) {
    let alloc = rt.alloc();
    let mut name = [0; NAMESPACE_SIZE];
    name[27] = 1;
    let blob = Blob {
        namespace: Namespace(name),
        bytes: Vec::new(alloc),
        signer: None,
    };
    assert!(rt;
        commitment_of(alloc, &blob) == Err(CommitError::Empty),
        "a commitment"
    );
    let mut shares = Vec::new(alloc);
    let written = blob_shares(&blob.namespace, &blob.bytes, None, &mut shares);
    assert!(rt; written == Err(SplitError::Empty), "shares");
    assert!(rt; shares.is_empty(), "nothing is written");
}
