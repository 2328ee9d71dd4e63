//! How many bytes the fields of a payload have.

pub(crate) use namespace_id::{DIGEST_SIZE, NAMESPACE_SIZE, SHARE_SIZE};

/// The greatest payload of a frame, 256 MiB.
pub const MAX_PAYLOAD: u32 = 268_435_456;

/// The bytes of a hash.
pub(crate) const HASH_SIZE: usize = 32;

/// The bytes of a cell.
pub(crate) const CELL_SIZE: usize = 4;

/// The bytes that state a width.
pub(crate) const WIDTH_SIZE: u32 = 2;

/// The bytes that state a count or a length.
pub(crate) const COUNT_SIZE: usize = 4;
