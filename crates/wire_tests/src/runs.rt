//! Bytes that are told by runs of one value.

use std::alloc::Global;
use std::process::Abort;

/// Some bytes, and then so many of one value.
pub(crate) type Run = (&'static [u8], usize, u8);

/// The bytes that runs are.
pub(crate) fn joined(rt: &impl Abort, alloc: Global, runs: &[Run]) -> Vec<u8> {
    let mut all = Vec::new(alloc);
    for (bytes, count, byte) in runs {
        all.extend_from_slice(bytes).expect(rt, "there is memory");
        let more = vec![in alloc; *byte; *count].expect(rt, "there is memory");
        all.extend_from_slice(&more).expect(rt, "there is memory");
    }
    all
}
