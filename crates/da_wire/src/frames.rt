//! Frames, and why bytes or values are none.

use axis_roots::{FraudClaim, Message, NsAnswer};
use blob_commit::{CommitProof, RootedMessage};
use data_header::Header;
use frame_payloads::{Refusal, UnitList};
use hash_clash::Clash;
use namespace_id::{Axis, Cell, Cells, Namespace};
use square_layout::{Block, Square};
use thiserror::Error;

/// The bytes in front of a payload: its kind, and its length.
pub(crate) const HEAD_SIZE: usize = 5;

/// A frame of any kind at the front of bytes. `size` is the length of all of it, 5 more than the
/// payload's.
#[derive(Clone, Copy, Debug)]
pub struct RawFrame<'a> {
    pub kind: u8,
    pub payload: &'a [u8],
    pub size: u64,
}

/// The value of a frame.
#[derive(Drop)]
pub enum Frame {
    /// H: a header.
    Header(Header),
    /// S: an original square.
    Square(Square),
    /// M: a sample.
    Message(Message),
    /// N: a namespace and what is found of it.
    Names(Namespace, NsAnswer),
    /// B: a fraud claim.
    Fraud(FraudClaim),
    /// K: missing cells.
    Missing(Cells),
    /// X: a SHA-256 collision.
    Clash(Clash),
    /// Q: a request for the sample of a cell on an axis.
    Sample(Cell, Axis),
    /// P: a request for the shares of a namespace.
    Request(Namespace),
    /// V: a block.
    Block(Block),
    /// C: a commitment proof.
    Commit(CommitProof),
    /// R: a sample with the proof of its axis root under the data root.
    Rooted(RootedMessage),
    /// T: transactions.
    Transactions(UnitList),
    /// E: a refusal.
    Refusal(Refusal),
    /// A: a state.
    State,
}

/// Why bytes are no frame. The variants but the last stand in the order in which they are tested; each
/// has an offset, that of the frame's first byte, or of the first byte after it for `Trailing`.
#[derive(Clone, Copy, Debug, PartialEq, Eq, Error)]
pub enum FrameError {
    /// The bytes end before the frame does.
    #[error("the frame at {0} is cut off")]
    Truncated(u64),
    /// The kind isn't one that is asked for.
    #[error("the frame at {0} is of another kind")]
    BadKind(u64),
    /// The payload is above its limit.
    #[error("the payload of the frame at {0} has more than 268435456 bytes")]
    TooLong(u64),
    /// The payload isn't in the grammar of its kind.
    #[error("the payload of the frame at {0} is not in its form")]
    BadPayload(u64),
    /// A byte follows the frame.
    #[error("byte {0} follows the frame")]
    Trailing(u64),
    /// There was no memory.
    #[error("out of memory")]
    NoMemory,
}

/// Why a value was not written.
#[derive(Clone, Copy, Debug, PartialEq, Eq, Error)]
pub enum SpellError {
    /// The value has no spelling: an empty list of missing cells, a block that asks for the width 0,
    /// a namespace answer of more than `GREATEST_WIDTH` entries or of a range of more than so many shares,
    /// a fraud claim of more than so many cells or of cells that don't fit its set, a collision of which
    /// one string is empty, a commitment proof of more than so many rows or with more than so many
    /// subtrees in one, or a payload above its limit.
    #[error("the value has no spelling")]
    Unspellable,
    /// There was no memory.
    #[error("out of memory")]
    NoMemory,
}
