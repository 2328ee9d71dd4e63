//! wanted MISSING AXIS: the requests for missing cells, along an axis.

ghost use Rattle.std.specs.Prelude.{◌≡◌, ◌++◌, IfOk, OnOk};
ghost use Rattle.da_wire.specs.declared.frames.Frame.TheVariants as FrameOf;
ghost use Rattle.da_wire.specs.Values.{text_of};
ghost use Rattle.da_files.specs.Contents.{contents_of};
ghost use Rattle.da_files.specs.Frames.{ReadsSingle, WritesText};
ghost use Rattle.da_serving.specs.Wanted.{missing_in, requests_bytes, WantedOf};
ghost use Rattle.da_files.specs.Forms.{single_judged};
ghost use Rattle.da_status.specs.Judging.{Judged};
ghost use Rattle.da_status.specs.declared.status.Status.TheVariants as StatusOf;
ghost use Rattle.da_status.specs.Outcome.{EndsAtOnce};

use da_files::{Unread, file, in_file, put};
use da_io::Sink;
use da_status::Status;
use da_wire::{Frame, SpellError, read_missing, wire_laws, write_frame};
use namespace_id::{Axis, Cell, Cells, NoMemory};
use std::alloc::Global;

/// The place of the file among the words that name files.
const MISSING: u32 = 0;

/// The missing cells that a file is.
fn missing_in(alloc: Global, bytes: &[u8]) -> Result<Cells, Unread>
    ensures { ReadsSingle result (missing_in bytes.now) }
{
    in_file(read_missing(alloc, bytes))
}

/// Appends the request for the sample of a cell along an axis.
fn put_request(cell: Cell, axis: Axis, text: &mut Vec<u8>) -> Result<(), NoMemory>
    ensures { OnOk result
        (text.new.items ≡ text.old.items ++ text_of (FrameOf.Sample cell axis)) }
{
    wire_laws();
    let frame = Frame::Sample(cell, axis);
    let written = write_frame(&frame, text);
    drop(frame);
    match written {
        Ok(()) => Ok(()),
        // Never taken: a request has a spelling. The type of the error has this variant too.
        Err(SpellError::Unspellable) => unreachable!(),
        Err(SpellError::NoMemory) => Err(NoMemory),
    }
}

/// The requests for the samples of cells along an axis, in their order.
fn requests(alloc: Global, cells: &[Cell], axis: Axis) -> Result<Vec<u8>, NoMemory>
    ensures { IfOk result (λ text. text.items ≡ requests_bytes axis cells.now) }
{
    let mut text = Vec::new(alloc);
    let mut rest = cells;
    while let Some((cell, after)) = rest.split_first() {
        put_request(*cell, axis, &mut text)?;
        rest = after;
    }
    Ok(text)
}

/// Writes the requests for cells along an axis, as one piece.
pub fn give_requests<O: Sink>(alloc: Global, cells: &[Cell], axis: Axis, out: &mut O) -> Status
    ensures { EndsAtOnce (WritesText StatusOf.Done (requests_bytes axis cells.now))
        (O.taken out.old) (O.taken out.new) (O.faults out.old) (O.faults out.new)
        (out.new ≡ out.old) result }
{
    match requests(alloc, cells, axis) {
        Ok(text) => put(&text, Status::Done, out),
        Err(_) => Status::NoMemory,
    }
}

/// Answers the requests for the cells in MISSING along an axis. All memory is taken before the
/// write.
pub fn execute<O: Sink>(alloc: Global, files: &[Vec<u8>], axis: Axis, out: &mut O) -> Status
    ensures { EndsAtOnce (Judged (single_judged missing_in (contents_of files.now))
        (WantedOf axis (contents_of files.now))) (O.taken out.old) (O.taken out.new)
        (O.faults out.old) (O.faults out.new) (out.new ≡ out.old) result }
{
    match missing_in(alloc, file(files, MISSING)) {
        Ok(cells) => give_requests(alloc, &cells.list, axis, out),
        Err(Unread::BadForm(at)) => Status::BadInput(MISSING, at),
        Err(Unread::NoMemory) => Status::NoMemory,
    }
}
