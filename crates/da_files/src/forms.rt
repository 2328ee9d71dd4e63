//! The shapes of the files of commands. Each function reads and judges files in their order; the first that
//! isn't in its form is refused, at the place where it leaves it.

ghost use Rattle.std.specs.Prelude.{◌≡◌, Ok, IfOk};
ghost use Rattle.da_files.specs.Contents.{contents_of, file_of};
ghost use Rattle.da_files.specs.Frames.{header_in, square_in, block_or_list_in};
ghost use Rattle.da_files.specs.Forms.{single_judged, messages_judged, requests_judged, IsJudged};

use crate::files::file;
use crate::frames::{BlockOrList, Unread, block_or_list_in, header_in, square_in};
use da_status::Status;
use da_wire::{bad_frame, bad_value};
use data_header::Header;
use square_layout::Square;
use std::alloc::Global;

/// HEADER: a header.
pub fn one_header(alloc: Global, files: &[Vec<u8>]) -> Result<Header, Status>
    ensures judged { IsJudged (single_judged header_in (contents_of files.now)) result }
    ensures header { IfOk result (λ header.
        header_in (file_of (contents_of files.now) 0) ≡ Ok header) }
{
    match header_in(alloc, file(files, 0)) {
        Ok(header) => Ok(header),
        Err(Unread::BadForm(at)) => Err(Status::BadInput(0, at)),
        Err(Unread::NoMemory) => Err(Status::NoMemory),
    }
}

/// SQUARE: a square.
pub fn one_square(alloc: Global, files: &[Vec<u8>]) -> Result<Square, Status>
    ensures judged { IsJudged (single_judged square_in (contents_of files.now)) result }
    ensures square { IfOk result (λ square.
        square_in (file_of (contents_of files.now) 0) ≡ Ok square) }
{
    match square_in(alloc, file(files, 0)) {
        Ok(square) => Ok(square),
        Err(Unread::BadForm(at)) => Err(Status::BadInput(0, at)),
        Err(Unread::NoMemory) => Err(Status::NoMemory),
    }
}

/// BLOCK: a block, or a list of transactions.
pub fn one_block(alloc: Global, files: &[Vec<u8>]) -> Result<BlockOrList, Status>
    ensures judged { IsJudged (single_judged block_or_list_in (contents_of files.now)) result }
    ensures block { IfOk result (λ block.
        block_or_list_in (file_of (contents_of files.now) 0) ≡ Ok block) }
{
    match block_or_list_in(alloc, file(files, 0)) {
        Ok(block) => Ok(block),
        Err(Unread::BadForm(at)) => Err(Status::BadInput(0, at)),
        Err(Unread::NoMemory) => Err(Status::NoMemory),
    }
}

/// HEADER and MESSAGES: a header, and a list of frames.
pub fn header_and_messages(alloc: Global, files: &[Vec<u8>]) -> Result<(Header, &[u8]), Status>
    ensures judged { IsJudged (messages_judged (contents_of files.now)) result }
    ensures header { IfOk result (λ read.
        header_in (file_of (contents_of files.now) 0) ≡ Ok read.0) }
    ensures messages { IfOk result (λ read.
        read.1.now ≡ file_of (contents_of files.now) 1) }
{
    let header = match header_in(alloc, file(files, 0)) {
        Ok(header) => header,
        Err(Unread::BadForm(at)) => return Err(Status::BadInput(0, at)),
        Err(Unread::NoMemory) => return Err(Status::NoMemory),
    };
    let messages = file(files, 1);
    match bad_frame(messages) {
        Some(at) => Err(Status::BadInput(1, at)),
        None => Ok((header, messages)),
    }
}

/// SQUARE and REQUESTS: a square, and a list of values of these kinds.
pub fn square_and_requests<'a>(
    alloc: Global,
    files: &'a [Vec<u8>],
    kinds: &[u8],
) -> Result<(Square, &'a [u8]), Status>
    ensures judged { IsJudged (requests_judged kinds.now (contents_of files.now)) result }
    ensures square { IfOk result (λ read.
        square_in (file_of (contents_of files.now) 0) ≡ Ok read.0) }
    ensures requests { IfOk result (λ read.
        read.1.now ≡ file_of (contents_of files.now) 1) }
{
    let square = match square_in(alloc, file(files, 0)) {
        Ok(square) => square,
        Err(Unread::BadForm(at)) => return Err(Status::BadInput(0, at)),
        Err(Unread::NoMemory) => return Err(Status::NoMemory),
    };
    let requests = file(files, 1);
    match bad_value(requests, kinds) {
        Some(at) => Err(Status::BadInput(1, at)),
        None => Ok((square, requests)),
    }
}
