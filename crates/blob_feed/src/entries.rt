//! What is kept of a namespace at a height, and what a follower answers to an answer.

use namespace_id::NsError;
use share_split::{Blob, JoinError};
use square_serve::NsRefusal;
use thiserror::Error;

/// What a follower has of a namespace at a height: its blobs, or why its shares are no blobs.
#[derive(Debug, Drop)]
pub enum Entry {
    /// The blobs with their signers, in the order of their shares.
    Blobs(Vec<Blob>),
    /// The first fault of the shares, with the number of the share among those of the namespace.
    /// It is never out of memory.
    Malformed(JoinError),
}

/// What an answer that is taken brought.
#[derive(Clone, Copy, Debug, PartialEq, Eq)]
pub enum Taken {
    /// So many blobs.
    Blobs(u32),
    /// The first fault of the shares, as the entry has it.
    Malformed(JoinError),
}

/// Why an answer wasn't taken. The variants stand in the order in which they are tested.
#[derive(Clone, Copy, Debug, PartialEq, Eq, Error)]
pub enum FollowError {
    /// The namespace isn't one of a blob.
    #[error("not a namespace of a blob: {0}")]
    NotBlob(NsError),
    /// The filter doesn't want the namespace.
    #[error("the namespace is not wanted")]
    Unwanted,
    /// The answer isn't complete under the header of the last height.
    #[error("the answer is not complete: {0}")]
    Refused(NsRefusal),
    /// The last height has an entry for the namespace.
    #[error("the namespace has an entry at this height")]
    Twice,
    /// There was no memory.
    #[error("out of memory")]
    NoMemory,
}
