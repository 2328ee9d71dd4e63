//! import and export of sample-id FILE HEIGHT and of namespace-id FILE HEIGHT: requests as identifiers of a height, SampleID and
//! NamespaceDataID.

ghost use Rattle.std.specs.Prelude.{◌≡◌, IsSome};
ghost use Rattle.celestia_pb.specs.Ids.{sample_id_text, namespace_id_text, sample_id_value, namespace_id_value};
ghost use Rattle.da_wire.specs.declared.frames.Frame.TheVariants as FrameOf;
ghost use Rattle.da_wire.specs.Spelling.{spelling};
ghost use Rattle.da_status.specs.Judging.{Judged};
ghost use Rattle.da_status.specs.declared.status.Status.TheVariants as StatusOf;
ghost use Rattle.da_files.specs.Contents.{contents_of};
ghost use Rattle.da_files.specs.Frames.{ReadsSingle, WritesText};
ghost use Rattle.da_files.specs.Forms.{single_judged};
ghost use Rattle.da_files.specs.Requests.{namespace_of};
ghost use Rattle.da_exchanging.specs.Made.{IsMadeOutput};
ghost use Rattle.da_exchanging.specs.Ids.{cell_of, asked_cell_in, asked_name_in, row_request, ImportSampleIdOf, ExportSampleIdOf, ImportNamespaceIdOf, ExportNamespaceIdOf};

use crate::made::{FILE, frame_refusal, frame_text, message_refusal};
use celestia_pb::{
    NAMESPACE_ID_SIZE, SAMPLE_ID_SIZE, put_namespace_id, put_sample_id, read_namespace_id,
    read_sample_id,
};
use da_files::{Unread, file, reason};
use da_status::Status;
use da_wire::{Frame, read_only, wire_laws};
use namespace_id::{Axis, Cell, Namespace, namespace_law};
use std::alloc::Global;

/// The cell whose sample a frame asks for.
fn cell_of(frame: Frame) -> Option<Cell>
    ensures { result ≡ cell_of frame }
{
    match frame {
        Frame::Sample(cell, _axis) => Some(cell),
        other => {
            drop(other);
            None
        }
    }
}

/// The namespace that a frame asks for.
fn name_of(frame: Frame) -> Option<Namespace>
    ensures { result ≡ namespace_of frame }
{
    match frame {
        Frame::Request(name) => Some(name),
        other => {
            drop(other);
            None
        }
    }
}

/// The cell whose sample a file asks for.
fn asked_cell_in(alloc: Global, bytes: &[u8]) -> Result<Cell, Unread>
    ensures { ReadsSingle result (asked_cell_in bytes.now) }
{
    match read_only(alloc, bytes, b"Q") {
        Ok(frame) => match cell_of(frame) {
            Some(cell) => Ok(cell),
            None => Err(Unread::BadForm(0)),
        },
        Err(error) => Err(reason(error)),
    }
}

/// The namespace that a file asks for.
fn asked_name_in(alloc: Global, bytes: &[u8]) -> Result<Namespace, Unread>
    ensures { ReadsSingle result (asked_name_in bytes.now) }
{
    match read_only(alloc, bytes, b"P") {
        Ok(frame) => match name_of(frame) {
            Some(name) => Ok(name),
            None => Err(Unread::BadForm(0)),
        },
        Err(error) => Err(reason(error)),
    }
}

/// The frame of the request for the sample of a cell along its row.
fn cell_frame(cell: Cell) -> Frame
    ensures value { result ≡ row_request cell }
    ensures spelled { IsSome (spelling result) }
{
    wire_laws();
    Frame::Sample(cell, Axis::Row)
}

/// The frame of the request for a namespace.
fn name_frame(name: Namespace) -> Frame
    ensures value { result ≡ FrameOf.Request name }
    ensures spelled { IsSome (spelling result) }
{
    wire_laws();
    namespace_law(&name);
    Frame::Request(name)
}

/// The request along the row for the cell that the SampleID in FILE names.
pub(crate) fn import_sample(
    alloc: Global,
    files: &[Vec<u8>],
    height: u64,
) -> Result<Vec<u8>, Status>
    ensures { IsMadeOutput (Judged (single_judged (sample_id_value height) (contents_of files.now))
        (ImportSampleIdOf height (contents_of files.now))) result }
{
    match read_sample_id(height, file(files, FILE)) {
        Ok(cell) => frame_text(alloc, cell_frame(cell)),
        Err(why) => Err(message_refusal(why)),
    }
}

/// The SampleID of a cell.
fn sample_id(alloc: Global, height: u64, cell: Cell) -> Result<Vec<u8>, Status>
    ensures { IsMadeOutput (WritesText StatusOf.Done (sample_id_text height cell)) result }
{
    let Ok(mut text) = Vec::with_capacity(alloc, SAMPLE_ID_SIZE) else {
        return Err(Status::NoMemory);
    };
    put_sample_id(height, cell, &mut text);
    Ok(text)
}

/// The SampleID of the cell for whose sample FILE asks.
pub(crate) fn export_sample(
    alloc: Global,
    files: &[Vec<u8>],
    height: u64,
) -> Result<Vec<u8>, Status>
    ensures { IsMadeOutput (Judged (single_judged asked_cell_in (contents_of files.now))
        (ExportSampleIdOf height (contents_of files.now))) result }
{
    match asked_cell_in(alloc, file(files, FILE)) {
        Ok(cell) => sample_id(alloc, height, cell),
        Err(why) => Err(frame_refusal(why)),
    }
}

/// The request for the namespace that the NamespaceDataID in FILE names.
pub(crate) fn import_namespace(
    alloc: Global,
    files: &[Vec<u8>],
    height: u64,
) -> Result<Vec<u8>, Status>
    ensures { IsMadeOutput (Judged (single_judged (namespace_id_value height) (contents_of files.now))
        (ImportNamespaceIdOf height (contents_of files.now))) result }
{
    match read_namespace_id(height, file(files, FILE)) {
        Ok(name) => frame_text(alloc, name_frame(name)),
        Err(why) => Err(message_refusal(why)),
    }
}

/// The NamespaceDataID of a namespace.
fn namespace_id(alloc: Global, height: u64, name: &Namespace) -> Result<Vec<u8>, Status>
    ensures { IsMadeOutput (WritesText StatusOf.Done (namespace_id_text height name.now)) result }
{
    let Ok(mut text) = Vec::with_capacity(alloc, NAMESPACE_ID_SIZE) else {
        return Err(Status::NoMemory);
    };
    put_namespace_id(height, name, &mut text);
    Ok(text)
}

/// The NamespaceDataID of the namespace for which FILE asks.
pub(crate) fn export_namespace(
    alloc: Global,
    files: &[Vec<u8>],
    height: u64,
) -> Result<Vec<u8>, Status>
    ensures { IsMadeOutput (Judged (single_judged asked_name_in (contents_of files.now))
        (ExportNamespaceIdOf height (contents_of files.now))) result }
{
    match asked_name_in(alloc, file(files, FILE)) {
        Ok(name) => namespace_id(alloc, height, &name),
        Err(why) => Err(frame_refusal(why)),
    }
}
