//! import dah FILE, export dah FILE: a header as the message DataAvailabilityHeader.

ghost use Rattle.std.specs.Prelude.{◌≡◌, IsSome};
ghost use Rattle.celestia_pb.specs.Headers.{dah_text, dah_value};
ghost use Rattle.da_wire.specs.declared.frames.Frame.TheVariants as FrameOf;
ghost use Rattle.da_wire.specs.Spelling.{spelling};
ghost use Rattle.da_status.specs.Judging.{Judged};
ghost use Rattle.da_status.specs.declared.status.Status.TheVariants as StatusOf;
ghost use Rattle.da_files.specs.Contents.{contents_of};
ghost use Rattle.da_files.specs.Frames.{header_in, WritesText};
ghost use Rattle.da_files.specs.Forms.{single_judged};
ghost use Rattle.da_exchanging.specs.Made.{IsMadeOutput};
ghost use Rattle.da_exchanging.specs.Dah.{ImportDahOf, ExportDahOf};

use crate::made::{FILE, frame_refusal, frame_text, message_refusal};
use celestia_pb::{dah_size, put_dah, read_dah};
use da_files::{file, header_in};
use da_status::Status;
use da_wire::{Frame, wire_laws};
use data_header::Header;
use namespace_id::digests_law;
use std::alloc::Global;

/// The frame of a header.
pub(crate) fn header_frame(header: Header) -> Frame
    ensures value { result ≡ FrameOf.Header header }
    ensures spelled { IsSome (spelling result) }
{
    wire_laws();
    digests_law(&header.rows);
    digests_law(&header.cols);
    let _k = header.k;
    Frame::Header(header)
}

/// The frame of the header that the message in FILE is.
pub(crate) fn import(alloc: Global, files: &[Vec<u8>]) -> Result<Vec<u8>, Status>
    ensures { IsMadeOutput (Judged (single_judged dah_value (contents_of files.now))
        (ImportDahOf (contents_of files.now))) result }
{
    match read_dah(alloc, file(files, FILE)) {
        Ok(header) => frame_text(alloc, header_frame(header)),
        Err(why) => Err(message_refusal(why)),
    }
}

/// The message of a header.
fn message(alloc: Global, header: &Header) -> Result<Vec<u8>, Status>
    ensures { IsMadeOutput (WritesText StatusOf.Done (dah_text header.now)) result }
{
    let Ok(mut text) = Vec::with_capacity(alloc, dah_size(header)) else {
        return Err(Status::NoMemory);
    };
    put_dah(header, &mut text);
    Ok(text)
}

/// The message of the header in FILE.
pub(crate) fn export(alloc: Global, files: &[Vec<u8>]) -> Result<Vec<u8>, Status>
    ensures { IsMadeOutput (Judged (single_judged header_in (contents_of files.now))
        (ExportDahOf (contents_of files.now))) result }
{
    match header_in(alloc, file(files, FILE)) {
        Ok(header) => message(alloc, &header),
        Err(why) => Err(frame_refusal(why)),
    }
}
