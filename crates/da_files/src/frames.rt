//! Files that are one frame of a kind and nothing else, and outputs of one frame.

ghost use Rattle.std.specs.Prelude.{◌≡◌, ◌≢◌, ℕ, List, [], Option, IsSome, false};
ghost use Rattle.frame_payloads.specs.kinds.Fraud.{is_unwritten};
ghost use Rattle.frame_payloads.specs.kinds.Clash.{has_empty};
ghost use Rattle.da_wire.specs.declared.frames.Frame.{Frame};
ghost use Rattle.da_wire.specs.declared.frames.FrameError.TheVariants.{NoMemory};
ghost use Rattle.da_wire.specs.Reading.{only_of, Reads};
ghost use Rattle.da_wire.specs.Single.{single};
ghost use Rattle.da_wire.specs.Spelling.{spelling};
ghost use Rattle.da_wire.specs.declared.frames.Frame.TheVariants as FrameOf;
ghost use Rattle.da_status.specs.Statuses.{status_kind, output};
ghost use Rattle.da_files.specs.Frames.{header_in, square_in, message_in, claim_in, block_or_list_of, block_or_list_in, single_file, unread_of, ReadsSingle, Writes, WritesText, WritesWith};
ghost use Rattle.da_status.specs.Outcome.{EndsAtOnce};

use axis_roots::{FraudClaim, Message, claim_law};
use da_io::{Sink, write_all};
use da_status::Status;
use da_wire::{
    Frame, FrameError, SpellError, read_claim, read_header, read_message, read_only, read_square,
    value_laws, wire_laws, write_frame,
};
use data_header::Header;
use frame_payloads::UnitList;
use hash_clash::Clash;
use namespace_id::{Cells, shares_law};
use square_layout::{Block, Square};
use std::alloc::Global;

/// Why a file is not read as one frame.
pub enum Unread {
    /// It isn't one from this offset on.
    BadForm(u64),
    /// There was no memory for what it is.
    NoMemory,
}

/// What is laid out as a square: a block, or a list of transactions, as the nodes of the network give it.
#[derive(Drop)]
pub enum BlockOrList {
    /// V: a block.
    Block(Block),
    /// T: a list of transactions.
    Transactions(UnitList),
}

/// Why bytes are not one frame.
pub fn reason(error: FrameError) -> Unread
    ensures { result ≡ unread_of error }
{
    match error {
        FrameError::Truncated(at) => Unread::BadForm(at),
        FrameError::BadKind(at) => Unread::BadForm(at),
        FrameError::TooLong(at) => Unread::BadForm(at),
        FrameError::BadPayload(at) => Unread::BadForm(at),
        FrameError::Trailing(at) => Unread::BadForm(at),
        FrameError::NoMemory => Unread::NoMemory,
    }
}

/// What a file of one frame is, by what the reader of its kind answered.
pub fn in_file<A>(read: Result<A, FrameError>) -> Result<A, Unread>
    ensures { (value : Frame → Option A) (bytes kinds : List ℕ) →
        Reads NoMemory (λ x. x) read (single value (only_of bytes kinds)) →
        ReadsSingle result (single_file value (only_of bytes kinds)) }
{
    match read {
        Ok(value) => Ok(value),
        Err(error) => Err(reason(error)),
    }
}

/// The header that a file is: the frame of one and nothing else.
pub fn header_in(alloc: Global, bytes: &[u8]) -> Result<Header, Unread>
    ensures { ReadsSingle result (header_in bytes.now) }
{
    in_file(read_header(alloc, bytes))
}

/// Whether a file of samples is so long that keeping what they show of the trees under the header costs
/// less than it saves: 128 bytes for each share of the square.
pub fn is_long(header: &Header, messages: &[u8]) -> bool {
    let shares = u64::from(header.k) * u64::from(header.k);
    messages.len() as u64 >= 128 * shares
}

/// The square that a file is.
pub fn square_in(alloc: Global, bytes: &[u8]) -> Result<Square, Unread>
    ensures { ReadsSingle result (square_in bytes.now) }
{
    in_file(read_square(alloc, bytes))
}

/// The sample that a file is. It takes no memory.
pub fn message_in(bytes: &[u8]) -> Result<Message, Unread>
    ensures { ReadsSingle result (message_in bytes.now) }
{
    in_file(read_message(bytes))
}

/// The fraud claim that a file is.
pub fn claim_in(alloc: Global, bytes: &[u8]) -> Result<FraudClaim, Unread>
    ensures { ReadsSingle result (claim_in bytes.now) }
{
    in_file(read_claim(alloc, bytes))
}

/// The block or the list of transactions that a frame is, none of a frame of another kind.
fn block_or_list_of(frame: Frame) -> Option<BlockOrList>
    ensures { result ≡ block_or_list_of frame }
{
    match frame {
        Frame::Block(block) => Some(BlockOrList::Block(block)),
        Frame::Transactions(transactions) => Some(BlockOrList::Transactions(transactions)),
        other => {
            drop(other);
            None
        }
    }
}

/// The block or the list of transactions that a file is.
pub fn block_or_list_in(alloc: Global, bytes: &[u8]) -> Result<BlockOrList, Unread>
    ensures { ReadsSingle result (block_or_list_in bytes.now) }
{
    match read_only(alloc, bytes, b"VT") {
        Ok(frame) => match block_or_list_of(frame) {
            Some(value) => Ok(value),
            None => Err(Unread::BadForm(0)),
        },
        Err(error) => Err(reason(error)),
    }
}

/// The frame of a square.
pub fn square_frame(square: Square) -> Frame
    ensures value { result ≡ FrameOf.Square square }
    ensures spelled { IsSome (spelling result) }
{
    wire_laws();
    shares_law(&square.shares);
    let _k = square.k;
    Frame::Square(square)
}

/// The frame of missing cells.
pub fn missing_frame(cells: Cells) -> Frame
    requires { cells.list ≢ [] }
    ensures value { result ≡ FrameOf.Missing cells }
    ensures spelled { IsSome (spelling result) }
{
    wire_laws();
    let _k = cells.k;
    Frame::Missing(cells)
}

/// The frame of a claim that can be written.
pub fn claim_frame(claim: FraudClaim) -> Frame
    requires { is_unwritten claim ≡ false }
    ensures value { result ≡ FrameOf.Fraud claim }
    ensures spelled { IsSome (spelling result) }
{
    wire_laws();
    claim_law(&claim);
    Frame::Fraud(claim)
}

/// The frame of a collision.
pub fn clash_frame(clash: Clash) -> Frame
    requires { has_empty clash ≡ false }
    ensures value { result ≡ FrameOf.Clash clash }
    ensures spelled { IsSome (spelling result) }
{
    value_laws();
    let _left = clash.left().bytes();
    let _right = clash.right().bytes();
    Frame::Clash(clash)
}

/// Writes a text as one piece, and answers a status of a complete output.
pub fn put<O: Sink>(text: &[u8], status: Status, out: &mut O) -> Status
    requires { status_kind status ≡ output }
    ensures { EndsAtOnce (WritesText status text.now) (O.taken out.old) (O.taken out.new)
        (O.faults out.old) (O.faults out.new) (out.new ≡ out.old) result }
{
    match write_all(out, text) {
        Ok(()) => status,
        Err(_) => Status::WriteFault,
    }
}

/// Writes one frame, as one piece, and answers a status of a complete output. The text of the frame
/// takes the place of what `text` holds.
pub fn give_with<O: Sink>(frame: Frame, status: Status, text: &mut Vec<u8>, out: &mut O) -> Status
    requires spelled { IsSome (spelling frame) }
    requires status { status_kind status ≡ output }
    ensures { EndsAtOnce (WritesWith status frame) (O.taken out.old) (O.taken out.new)
        (O.faults out.old) (O.faults out.new) (out.new ≡ out.old) result }
{
    text.clear();
    let written = write_frame(&frame, text);
    drop(frame);
    match written {
        Ok(()) => put(text, status, out),
        // Never taken: the frame has a spelling. The type of the error has this variant too.
        Err(SpellError::Unspellable) => unreachable!(),
        Err(SpellError::NoMemory) => Status::NoMemory,
    }
}

/// Writes one frame, as one piece. The text of the frame takes the place of what `text` holds.
pub fn give<O: Sink>(frame: Frame, text: &mut Vec<u8>, out: &mut O) -> Status
    requires { IsSome (spelling frame) }
    ensures { EndsAtOnce (Writes frame) (O.taken out.old) (O.taken out.new) (O.faults out.old)
        (O.faults out.new) (out.new ≡ out.old) result }
{
    give_with(frame, Status::Done, text, out)
}
