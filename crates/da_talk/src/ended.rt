//! How a talk ended.

/// How a talk ended.
#[derive(Clone, Copy, Debug, PartialEq, Eq)]
pub enum Ended {
    /// The bytes ended behind a whole frame, and all frames are answered.
    Done,
    /// At this offset no frame stands: it states a length above the limit, or the bytes ended within it.
    /// All frames before it are answered.
    Bad(u64),
    /// Bytes couldn't be heard. All frames that came before are answered.
    ReadFailed,
    /// A reply couldn't be said whole.
    WriteFailed,
    /// More than 2^64 - 1 bytes came.
    TooLong,
}
