//! How a run ends.

ghost use Rattle.std.specs.Prelude.{◌≡◌};
ghost use Rattle.da_status.specs.Statuses.{status_number};

use namespace_id::Axis;
use share_split::JoinError;
use square_layout::LayError;
use tx_list::{BackError, ListError};

/// Why what the files ask for can't be answered.
#[derive(Clone, Copy, Debug, PartialEq, Eq)]
pub enum Asked {
    /// The square has no header: the namespaces of a row or a column of its extension fall somewhere.
    NoHeader,
    /// The request with this number, counted from 0, has no answer.
    At(u64),
    /// More cells are to be drawn than may be.
    Count,
    /// A network can't have so many nodes, items or events, or a light node of it would draw too many cells.
    Nodes,
    /// The range has no share, goes past the square, or doesn't begin at a multiple of the width of its subtrees.
    Range,
    /// The shares are no blobs. No run has `JoinError::NoMemory` here: out of memory is a status of its own.
    Shares(JoinError),
    /// The square isn't one that a list of transactions is laid out as. No run has `BackError::NoMemory` here: out of
    /// memory is a status of its own.
    NoList(BackError),
    /// The list that is laid out as the square has no spelling: its payload would be above the limit.
    LongList,
    /// The frame has no bytes in the form that is asked for.
    Form,
}

/// How a run ended. Files are numbered from 0 among the words that name files; `at` is an offset in
/// bytes.
#[derive(Clone, Copy, Debug, PartialEq, Eq)]
pub enum Status {
    /// The output is complete.
    Done,
    /// The words are no command with its words.
    Usage,
    /// This file could not be opened.
    PickFault(u32),
    /// This file could not be read.
    ReadFault(u32),
    /// The output could not be written.
    WriteFault,
    /// There was no memory.
    NoMemory,
    /// This file isn't in its form, from this offset on.
    BadInput(u32, u64),
    /// This file has more bytes than its limit, `FILE_LIMIT`, or `STREAM_LIMIT` for the MESSAGES of `repair`.
    TooLong(u32),
    /// The block can't be laid out as a square. No run has `LayError::NoMemory` here: out of
    /// memory is a status of its own.
    BadBlock(LayError),
    /// The list of transactions can't be laid out as a square. No run has `ListError::NoMemory` here: out of
    /// memory is a status of its own.
    BadList(ListError),
    /// What the files ask for can't be answered.
    BadRequest(Asked),
    /// The output is a fraud proof against this axis, the row or column of this index.
    Fraud(Axis, u16),
    /// The output is so many missing cells, and so many frames were no proved sample.
    Missing(u32, u64),
    /// The output is a SHA-256 collision.
    Clash,
    /// The output is complete, and a line of it is a refusal.
    Refused,
    /// The output is so many planned cells that no proved sample showed, or so many of its lines say
    /// of a wanted namespace that no complete answer for it came.
    Waiting(u64),
}

impl Status {
    /// The number that the program ends with.
    pub fn number(self) -> u8
        ensures { result ≡ status_number self }
    {
        match self {
            Status::Done => 0,
            Status::Usage => 1,
            Status::PickFault(_) => 2,
            Status::ReadFault(_) => 3,
            Status::WriteFault => 4,
            Status::NoMemory => 5,
            Status::BadInput(..) => 6,
            Status::TooLong(_) => 7,
            Status::BadBlock(_) => 8,
            Status::BadList(_) => 8,
            Status::BadRequest(_) => 9,
            Status::Fraud(..) => 10,
            Status::Missing(..) => 11,
            Status::Clash => 12,
            Status::Refused => 13,
            Status::Waiting(_) => 14,
        }
    }
}
