//! import row-data FILE ROW NAMESPACE, export row-data FILE: what is found of a namespace in one row as the message
//! RowNamespaceData.

ghost use Rattle.std.specs.Prelude.{◌≡◌, true, IsSome, IfOk};
ghost use Rattle.celestia_pb.specs.RowData.{found_has_message, row_value};
ghost use Rattle.da_wire.specs.Spelling.{spelling};
ghost use Rattle.da_status.specs.Judging.{Judged};
ghost use Rattle.da_files.specs.Contents.{contents_of};
ghost use Rattle.da_files.specs.Forms.{single_judged};
ghost use Rattle.da_exchanging.specs.Made.{WritesIf, IsMadeOutput};
ghost use Rattle.da_exchanging.specs.Answers.{ns_answer_in};
ghost use Rattle.da_exchanging.specs.RowData.{row_frame, answer_message, ImportRowDataOf, ExportRowDataOf};

use crate::answers::answer_in;
use crate::made::{FILE, frame_refusal, frame_text, message_refusal};
use axis_roots::{NsAnswer, NsEntry, answer_law};
use celestia_pb::{put_row_data, read_row_data, row_data_laws, row_data_size};
use da_files::file;
use da_status::{Asked, Status};
use da_wire::{Frame, wire_laws};
use namespace_id::{Namespace, NoMemory, bytes_law, namespace_law};
use std::alloc::Global;

/// The frame of the answer for a namespace that has this one entry. The one refusal is that it is out of memory.
fn row_frame(alloc: Global, name: Namespace, entry: NsEntry) -> Result<Frame, NoMemory>
    requires { found_has_message entry.found ≡ true }
    ensures value { IfOk result (λ frame. frame ≡ row_frame name entry) }
    ensures spelled { IfOk result (λ frame. IsSome (spelling frame)) }
{
    wire_laws();
    namespace_law(&name);
    let mut entries = Vec::with_capacity(alloc, 1)?;
    let Ok(()) = entries.push(entry) else {
        return Err(NoMemory);
    };
    let answer = NsAnswer { entries };
    answer_law(&answer);
    Ok(Frame::Names(name, answer))
}

/// The answer for a namespace that has the one entry of a row that the message in FILE is.
pub(crate) fn import(
    alloc: Global,
    files: &[Vec<u8>],
    row: u16,
    name: Namespace,
) -> Result<Vec<u8>, Status>
    ensures { IsMadeOutput (Judged (single_judged (row_value row) (contents_of files.now))
        (ImportRowDataOf row name (contents_of files.now))) result }
{
    row_data_laws();
    let bytes = file(files, FILE);
    bytes_law(bytes);
    match read_row_data(alloc, row, bytes) {
        Ok(entry) => match row_frame(alloc, name, entry) {
            Ok(frame) => frame_text(alloc, frame),
            Err(NoMemory) => Err(Status::NoMemory),
        },
        Err(why) => Err(message_refusal(why)),
    }
}

/// The message of the one entry of an answer. An answer of none or of several, or of an entry without a message, is refused.
fn message(alloc: Global, answer: &NsAnswer) -> Result<Vec<u8>, Status>
    ensures { IsMadeOutput (WritesIf (answer_message answer.now)) result }
{
    let [entry] = &answer.entries[..] else {
        return Err(Status::BadRequest(Asked::Form));
    };
    let Some(size) = row_data_size(entry) else {
        return Err(Status::BadRequest(Asked::Form));
    };
    let Ok(mut text) = Vec::with_capacity(alloc, size) else {
        return Err(Status::NoMemory);
    };
    put_row_data(entry, &mut text);
    Ok(text)
}

/// The message of the one entry of the answer in FILE.
pub(crate) fn export(alloc: Global, files: &[Vec<u8>]) -> Result<Vec<u8>, Status>
    ensures { IsMadeOutput (Judged (single_judged ns_answer_in (contents_of files.now))
        (ExportRowDataOf (contents_of files.now))) result }
{
    match answer_in(alloc, file(files, FILE)) {
        Ok((_name, answer)) => message(alloc, &answer),
        Err(why) => Err(frame_refusal(why)),
    }
}
