//! What is written to the caller's buffer.

ghost use Rattle.std.specs.Prelude.{◌≡◌, ◌≢◌, ◌≤◌, ℕ, List, IsSome, Some, length};
ghost use Rattle.da_wire.specs.Spelling.{spelling};
ghost use Rattle.da_c.specs.Replies.{reply_status, FitsBuffer, OrFull, LeavesBuffer};
ghost use Rattle.da_c.specs.Calls.{root_size, most_header, RootCall, Spells, HeaderFrame, HeaderCall};

use crate::judging::HEADER;
use crate::replies::{Reply, unread_reply};
use axis_roots::header_of_square;
use da_files::{header_in, square_in};
use da_serving::header_frame;
use da_wire::{Frame, SpellError, write_frame};
use data_header::data_root;
use square_layout::Square;
use std::alloc::Global;

/// The place of the argument.
const SQUARE: u32 = 0;

/// Writes a text to the front of a buffer, where it fits there.
fn put(text: &[u8], buffer: &mut [u8]) -> Reply
    ensures leaves { LeavesBuffer (FitsBuffer text.now (length buffer.old)) buffer.old buffer.new result }
    ensures room { length text.now ≤ length buffer.old → reply_status result ≢ 15 }
{
    if buffer.len() < text.len() {
        return Reply::Short(text.len() as u64);
    }
    buffer[..text.len()].copy_from_slice(text);
    Reply::Done(text.len() as u64)
}

/// Writes the data root of a header.
pub(crate) fn root(alloc: Global, header: &[u8], buffer: &mut [u8]) -> Reply
    ensures leaves { LeavesBuffer (RootCall header.now (length buffer.old)) buffer.old buffer.new result }
    ensures room { root_size ≤ length buffer.old → reply_status result ≢ 15 }
{
    match header_in(alloc, header) {
        Ok(header) => put(&data_root(&header), buffer),
        Err(why) => unread_reply(HEADER, why),
    }
}

/// Writes the one spelling of a frame.
fn put_frame(alloc: Global, frame: &Frame, buffer: &mut [u8]) -> Reply
    requires { IsSome (spelling frame.now) }
    ensures leaves { LeavesBuffer (OrFull (Spells frame.now (length buffer.old))) buffer.old buffer.new result }
    ensures room { (text : List ℕ) → spelling frame.now ≡ Some text →
        length text ≤ length buffer.old → reply_status result ≢ 15 }
{
    let mut text = Vec::new(alloc);
    match write_frame(frame, &mut text) {
        Ok(()) => put(&text, buffer),
        // Never taken: the frame has a spelling. The type of the error has this variant too.
        Err(SpellError::Unspellable) => unreachable!(),
        Err(SpellError::NoMemory) => Reply::NoMemory,
    }
}

/// Writes the frame of a square's header, if it has one.
fn put_header(alloc: Global, square: &Square, buffer: &mut [u8]) -> Reply
    ensures leaves { LeavesBuffer (OrFull (HeaderFrame square.now (length buffer.old))) buffer.old buffer.new result }
    ensures room { most_header ≤ length buffer.old → reply_status result ≢ 15 }
{
    match header_of_square(alloc, square) {
        Ok(Some(header)) => put_frame(alloc, &header_frame(header), buffer),
        Ok(None) => Reply::NoHeader,
        Err(_) => Reply::NoMemory,
    }
}

/// Writes the frame of the header of the square that bytes are.
pub(crate) fn header(alloc: Global, square: &[u8], buffer: &mut [u8]) -> Reply
    ensures leaves { LeavesBuffer (HeaderCall square.now (length buffer.old)) buffer.old buffer.new result }
    ensures room { most_header ≤ length buffer.old → reply_status result ≢ 15 }
{
    match square_in(alloc, square) {
        Ok(square) => put_header(alloc, &square, buffer),
        Err(why) => unread_reply(SQUARE, why),
    }
}
