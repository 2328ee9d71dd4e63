//! import sample FILE ROW COL, export sample FILE: a sample of a cell as the message Sample.

ghost use Rattle.std.specs.Prelude.{◌≡◌, IsSome};
ghost use Rattle.celestia_pb.specs.Samples.{sample_value};
ghost use Rattle.da_wire.specs.Spelling.{spelling};
ghost use Rattle.da_status.specs.Judging.{Judged};
ghost use Rattle.da_status.specs.declared.status.Status.TheVariants as StatusOf;
ghost use Rattle.da_files.specs.Contents.{contents_of};
ghost use Rattle.da_files.specs.Frames.{message_in, WritesText};
ghost use Rattle.da_files.specs.Forms.{single_judged};
ghost use Rattle.da_exchanging.specs.Made.{IsMadeOutput};
ghost use Rattle.da_exchanging.specs.Sample.{sample_frame, message_text, ImportSampleOf, ExportSampleOf};

use crate::made::{FILE, frame_refusal, frame_text, message_refusal};
use axis_roots::{Message, message_law};
use celestia_pb::{Sample, put_sample, read_sample, sample_size};
use da_files::{file, message_in};
use da_status::Status;
use da_wire::{Frame, wire_laws};
use namespace_id::Cell;
use std::alloc::Global;

/// The frame of a sample of a cell.
fn sample_frame(cell: Cell, sample: Sample) -> Frame
    ensures value { result ≡ sample_frame cell sample }
    ensures spelled { IsSome (spelling result) }
{
    wire_laws();
    let message = Message {
        cell,
        axis: sample.axis,
        share: sample.share,
        path: sample.path,
    };
    message_law(&message);
    Frame::Message(message)
}

/// The frame of the sample of a cell that the message in FILE is.
pub(crate) fn import(alloc: Global, files: &[Vec<u8>], cell: Cell) -> Result<Vec<u8>, Status>
    ensures { IsMadeOutput (Judged (single_judged (sample_value cell) (contents_of files.now))
        (ImportSampleOf cell (contents_of files.now))) result }
{
    match read_sample(cell, file(files, FILE)) {
        Ok(sample) => frame_text(alloc, sample_frame(cell, sample)),
        Err(why) => Err(message_refusal(why)),
    }
}

/// The message of a sample.
fn message(alloc: Global, message: Message) -> Result<Vec<u8>, Status>
    ensures { IsMadeOutput (WritesText StatusOf.Done (message_text message)) result }
{
    let cell = message.cell;
    let sample = Sample {
        axis: message.axis,
        share: message.share,
        path: message.path,
    };
    let Ok(mut text) = Vec::with_capacity(alloc, sample_size(cell, &sample)) else {
        return Err(Status::NoMemory);
    };
    put_sample(cell, &sample, &mut text);
    Ok(text)
}

/// The message of the sample in FILE.
pub(crate) fn export(alloc: Global, files: &[Vec<u8>]) -> Result<Vec<u8>, Status>
    ensures { IsMadeOutput (Judged (single_judged message_in (contents_of files.now))
        (ExportSampleOf (contents_of files.now))) result }
{
    match message_in(file(files, FILE)) {
        Ok(sample) => message(alloc, sample),
        Err(why) => Err(frame_refusal(why)),
    }
}
