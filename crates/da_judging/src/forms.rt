//! The shape of files with an answer. Files are read and judged in their order; the first that isn't in its form
//! is refused, at the place where it leaves it.

ghost use Rattle.std.specs.Prelude.{◌≡◌, Ok, IfOk};
ghost use Rattle.da_files.specs.Contents.{contents_of, file_of};
ghost use Rattle.da_files.specs.Frames.{header_in};
ghost use Rattle.da_files.specs.Forms.{under_judged, IsJudged};
ghost use Rattle.da_judging.specs.Verify.{answer_in};

use crate::answers::Answer;
use crate::verify::answer_in;
use da_files::{Unread, file, header_in};
use da_status::Status;
use data_header::Header;
use std::alloc::Global;

/// HEADER and ANSWER: a header, and an answer.
pub(crate) fn header_and_answer(
    alloc: Global,
    files: &[Vec<u8>],
) -> Result<(Header, Answer), Status>
    ensures judged { IsJudged (under_judged answer_in (contents_of files.now)) result }
    ensures header { IfOk result (λ read.
        header_in (file_of (contents_of files.now) 0) ≡ Ok read.0) }
    ensures answer { IfOk result (λ read.
        answer_in (file_of (contents_of files.now) 1) ≡ Ok read.1) }
{
    let header = match header_in(alloc, file(files, 0)) {
        Ok(header) => header,
        Err(Unread::BadForm(at)) => return Err(Status::BadInput(0, at)),
        Err(Unread::NoMemory) => return Err(Status::NoMemory),
    };
    match answer_in(alloc, file(files, 1)) {
        Ok(answer) => Ok((header, answer)),
        Err(Unread::BadForm(at)) => Err(Status::BadInput(1, at)),
        Err(Unread::NoMemory) => Err(Status::NoMemory),
    }
}
