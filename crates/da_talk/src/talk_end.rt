//! How a talk ended.

/// How a talk ended.
#[derive(Clone, Copy, Debug, PartialEq, Eq)]
pub enum TalkEnd {
    /// The bytes ended behind a whole frame, and all that was due was said, the last words too.
    Over,
    /// A frame ended the talk, and all that was due was said, the last words too. The bytes behind it aren't looked at.
    Decided,
    /// At this offset no frame stands: it states a length above the limit, or the bytes ended within it.
    /// All frames before it are replied to.
    Bad(u64),
    /// At this offset a frame begins that is none that is replied to. All frames before it are replied to, and no last words are said.
    Unfit(u64),
    /// Bytes couldn't be heard. All frames that came before are replied to.
    ReadFailed,
    /// What was due couldn't be said whole.
    WriteFailed,
    /// More than 2^64 - 1 bytes came.
    TooLong,
    /// Memory ran out for a frame. All frames before it are replied to.
    NoMemory,
}
