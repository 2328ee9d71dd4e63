//! import ods FILE, export ods FILE: an original square as its shares alone.

ghost use Rattle.celestia_pb.specs.Ods.{ods_text, ods_value};
ghost use Rattle.da_status.specs.Judging.{Judged};
ghost use Rattle.da_status.specs.declared.status.Status.TheVariants as StatusOf;
ghost use Rattle.da_files.specs.Contents.{contents_of};
ghost use Rattle.da_files.specs.Frames.{square_in, WritesText};
ghost use Rattle.da_files.specs.Forms.{single_judged};
ghost use Rattle.da_exchanging.specs.Made.{IsMadeOutput};
ghost use Rattle.da_exchanging.specs.Ods.{ImportOdsOf, ExportOdsOf};

use crate::made::{FILE, frame_refusal, frame_text, message_refusal};
use celestia_pb::{ods_size, put_ods, read_ods};
use da_files::{file, square_frame, square_in};
use da_status::Status;
use square_layout::Square;
use std::alloc::Global;

/// The frame of the square whose shares FILE is.
pub(crate) fn import(alloc: Global, files: &[Vec<u8>]) -> Result<Vec<u8>, Status>
    ensures { IsMadeOutput (Judged (single_judged ods_value (contents_of files.now))
        (ImportOdsOf (contents_of files.now))) result }
{
    match read_ods(alloc, file(files, FILE)) {
        Ok(square) => frame_text(alloc, square_frame(square)),
        Err(why) => Err(message_refusal(why)),
    }
}

/// The shares of a square.
fn shares(alloc: Global, square: &Square) -> Result<Vec<u8>, Status>
    ensures { IsMadeOutput (WritesText StatusOf.Done (ods_text square.now)) result }
{
    let Ok(mut text) = Vec::with_capacity(alloc, ods_size(square)) else {
        return Err(Status::NoMemory);
    };
    put_ods(square, &mut text);
    Ok(text)
}

/// The shares of the square in FILE.
pub(crate) fn export(alloc: Global, files: &[Vec<u8>]) -> Result<Vec<u8>, Status>
    ensures { IsMadeOutput (Judged (single_judged square_in (contents_of files.now))
        (ExportOdsOf (contents_of files.now))) result }
{
    match square_in(alloc, file(files, FILE)) {
        Ok(square) => shares(alloc, &square),
        Err(why) => Err(frame_refusal(why)),
    }
}
