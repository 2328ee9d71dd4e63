//! Why bytes were not read as a message.

ghost use Rattle.std.specs.Prelude.{◌≡◌, ◌-◌, length};

use namespace_id::NoMemory;
use thiserror::Error;

/// Why bytes were not read as a message.
#[derive(Clone, Copy, Debug, PartialEq, Eq, Error)]
pub enum PbError {
    /// The first field that is wrong has its tag at this offset. The offset of a field that isn't there, or of one of which
    /// there are too few, is where the message that should have it ends.
    #[error("a field that is wrong at {0}")]
    At(u64),
    #[error("out of memory")]
    NoMemory,
}

impl PbError {
    /// The field of these bytes from which on so many are left, which are no more than there are.
    pub(crate) fn at(bytes: &[u8], left: usize) -> PbError
        ensures { result ≡ PbError.At (length bytes.now - left) }
    {
        let offset = bytes.len().saturating_sub(left);
        PbError::At(offset as u64)
    }
}

impl From<NoMemory> for PbError {
    ghost use Rattle.celestia_pb.specs.declared.errors.PbError.TheVariants.{NoMemory as Full};

    ghost from_gives = { λ _ e. e ≡ Full };

    fn from(_none: NoMemory) -> PbError {
        PbError::NoMemory
    }
}
