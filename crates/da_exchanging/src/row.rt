//! import row FILE ROW, export row FILE: half a row as the message Row.

ghost use Rattle.std.specs.Prelude.{◌≡◌, IfOk, IsSome};
ghost use Rattle.celestia_pb.specs.HalfRows.{half_row_text, half_row_value};
ghost use Rattle.da_wire.specs.declared.frames.Frame.TheVariants as FrameOf;
ghost use Rattle.da_wire.specs.Spelling.{spelling};
ghost use Rattle.da_wire.specs.Writing.{AppendsSpelling};
ghost use Rattle.da_status.specs.Judging.{Judged};
ghost use Rattle.da_status.specs.declared.status.Status.TheVariants as StatusOf;
ghost use Rattle.da_files.specs.Contents.{contents_of};
ghost use Rattle.da_files.specs.Frames.{WritesText};
ghost use Rattle.da_files.specs.Forms.{single_judged};
ghost use Rattle.da_exchanging.specs.Made.{IsMadeOutput};
ghost use Rattle.da_exchanging.specs.LeftHalf.{file_samples, half_of};
ghost use Rattle.da_exchanging.specs.Row.{row_frames, WritesFrames, RowOf, ImportRowOf, samples_judged, HalfBy, ExportRowOf};

use crate::left_half::half_in;
use crate::made::{FILE, message_refusal};
use axis_roots::{Message, message_law};
use celestia_pb::{HalfRow, half_row_size, put_half_row, read_half_row};
use da_files::file;
use da_status::{Asked, Status};
use da_wire::{Frame, SpellError, bad_value, wire_laws, write_frame};
use half_rows::{RowError, RowSamples, row_samples};
use namespace_id::NoMemory;
use std::alloc::Global;

/// The frame of a sample.
fn message_frame(message: Message) -> Frame
    ensures value { result ≡ FrameOf.Message message }
    ensures spelled { IsSome (spelling result) }
{
    wire_laws();
    message_law(&message);
    Frame::Message(message)
}

/// Appends a frame that has a spelling. The one refusal is that it is out of memory.
fn append_frame(frame: Frame, text: &mut Vec<u8>) -> Result<(), NoMemory>
    requires { IsSome (spelling frame) }
    ensures { IfOk result (λ done. AppendsSpelling frame text.old.items text.new.items) }
{
    let written = write_frame(&frame, text);
    drop(frame);
    match written {
        Ok(()) => Ok(()),
        // Never taken: the frame has a spelling. The type of the error has this variant too.
        Err(SpellError::Unspellable) => unreachable!(),
        Err(SpellError::NoMemory) => Err(NoMemory),
    }
}

/// The frames of the samples of a row, one after another.
fn sample_frames(alloc: Global, samples: &RowSamples) -> Result<Vec<u8>, Status>
    ensures { IsMadeOutput (WritesFrames (row_frames samples.now)) result }
{
    let mut text = Vec::new(alloc);
    for col in 0..samples.count() {
        let frame = message_frame(samples.sample(col));
        let Ok(()) = append_frame(frame, &mut text) else {
            return Err(Status::NoMemory);
        };
    }
    Ok(text)
}

/// The frames of the samples of the row of this number that has a half.
fn row_of(alloc: Global, row: u16, half: HalfRow) -> Result<Vec<u8>, Status>
    ensures { IsMadeOutput (RowOf row half) result }
{
    match row_samples(alloc, row, half) {
        Ok(samples) => sample_frames(alloc, &samples),
        Err(RowError::NoRow) => Err(Status::BadRequest(Asked::Form)),
        Err(RowError::Unordered) => Err(Status::BadRequest(Asked::NoHeader)),
        Err(RowError::NoMemory) => Err(Status::NoMemory),
    }
}

/// The frames of the samples of the row of this number of which the message in FILE is half.
pub(crate) fn import(alloc: Global, files: &[Vec<u8>], row: u16) -> Result<Vec<u8>, Status>
    ensures { IsMadeOutput (Judged (single_judged half_row_value (contents_of files.now))
        (ImportRowOf row (contents_of files.now))) result }
{
    match read_half_row(alloc, file(files, FILE)) {
        Ok(half) => row_of(alloc, row, half),
        Err(why) => Err(message_refusal(why)),
    }
}

/// The message of half a row.
fn message(alloc: Global, half: &HalfRow) -> Result<Vec<u8>, Status>
    ensures { IsMadeOutput (WritesText StatusOf.Done (half_row_text half.now)) result }
{
    let Ok(mut text) = Vec::with_capacity(alloc, half_row_size(half)) else {
        return Err(Status::NoMemory);
    };
    put_half_row(half, &mut text);
    Ok(text)
}

/// The message of half a row, where there is one.
fn message_or_none(alloc: Global, half: Option<HalfRow>) -> Result<Vec<u8>, Status>
    ensures { IsMadeOutput (HalfBy half) result }
{
    match half {
        Some(half) => message(alloc, &half),
        None => Err(Status::BadRequest(Asked::Form)),
    }
}

/// The message of the left half of the row of which the samples of a file are all.
fn message_of_row(alloc: Global, bytes: &[u8]) -> Result<Vec<u8>, Status>
    ensures { IsMadeOutput (HalfBy (half_of (file_samples bytes.now))) result }
{
    match half_in(alloc, bytes) {
        Ok(half) => message_or_none(alloc, half),
        Err(NoMemory) => Err(Status::NoMemory),
    }
}

/// The message of the left half of the row of which the samples in FILE are all.
pub(crate) fn export(alloc: Global, files: &[Vec<u8>]) -> Result<Vec<u8>, Status>
    ensures { IsMadeOutput (Judged (samples_judged (contents_of files.now))
        (ExportRowOf (contents_of files.now))) result }
{
    let bytes = file(files, FILE);
    if let Some(at) = bad_value(bytes, b"M") {
        return Err(Status::BadInput(FILE, at));
    }
    message_of_row(alloc, bytes)
}
