//! Sequences that are too long.

use crate::inputs::version_0;
use namespace_id::TRANSACTION;
use share_split::{MAX_SEQUENCE_LENGTH, SplitError, Unit, blob_shares, unit_shares};

/// One byte more than a sequence may have: in a blob, in one unit with its length of five bytes, and by
/// a last unit, whose length of one byte is too much. The test takes 4 GiB, once.
#[test]
fn too_long(rt: HostRuntime) {
    let alloc = rt.alloc();
    let too_long = Err(SplitError::TooLong);
    let mut out = Vec::new(alloc);
    let mut bytes = Vec::new(alloc);
    bytes
        .resize(MAX_SEQUENCE_LENGTH + 1, 7)
        .expect(&rt, "there is memory");
    assert_eq!(rt;
        blob_shares(&version_0(0x0101), &bytes, None, &mut out),
        too_long
    );
    bytes.truncate(MAX_SEQUENCE_LENGTH - 4);
    let mut units = vec![in alloc; Unit { bytes }].expect(&rt, "there is memory");
    assert_eq!(rt;
        unit_shares(alloc, &TRANSACTION, &units, &mut out),
        too_long
    );
    for unit in &mut units {
        unit.bytes.truncate(MAX_SEQUENCE_LENGTH - 5);
    }
    units
        .push(Unit {
            bytes: Vec::new(alloc),
        })
        .expect(&rt, "there is memory");
    assert_eq!(rt;
        unit_shares(alloc, &TRANSACTION, &units, &mut out),
        too_long
    );
    assert!(rt; out.is_empty());
}
