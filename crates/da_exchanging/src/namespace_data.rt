//! import namespace-data FILE HEADER NAMESPACE, export namespace-data FILE: what is found of a namespace in the rows of a header
//! that may hold it, as a stream of messages RowNamespaceData.

ghost use Rattle.std.specs.Prelude.{◌≡◌, ◌<◌, ◌*◌, IfOk, IsSome, false, Ok};
ghost use Rattle.data_header.specs.Headers.{Roots};
ghost use Rattle.square_serve.specs.Answers.{is_wanted, wanted_rows};
ghost use Rattle.frame_payloads.specs.kinds.Names.{is_long_answer};
ghost use Rattle.da_wire.specs.declared.frames.Frame.TheVariants as FrameOf;
ghost use Rattle.da_wire.specs.Spelling.{spelling};
ghost use Rattle.da_status.specs.Judging.{Judged};
ghost use Rattle.da_files.specs.Contents.{contents_of, file_of};
ghost use Rattle.da_files.specs.Frames.{ReadsSingle, header_in};
ghost use Rattle.da_files.specs.Forms.{single_judged};
ghost use Rattle.da_exchanging.specs.Made.{IsMadeOutput};
ghost use Rattle.da_exchanging.specs.NamespaceData.{data_under, namespace_data_judged, header_refusal, ImportNamespaceDataOf, entries_of, entries_in, StreamOf, ExportNamespaceDataOf};

use crate::made::{FILE, frame_refusal, frame_text, message_refusal};
use axis_roots::{NsAnswer, answer_law};
use celestia_pb::{
    namespace_data_laws, namespace_data_size, put_namespace_data, read_namespace_data,
};
use da_files::{Unread, file, header_in, reason};
use da_status::{Asked, Status};
use da_wire::{Frame, read_only, wire_laws};
use data_header::Header;
use namespace_id::{Axis, Namespace, NoMemory, bytes_law, namespace_law};
use std::alloc::Global;

/// The place of HEADER among the words that name files.
const HEADER: u32 = 1;

/// Whether a row may hold a namespace: it lies between the namespaces of the row's root.
///
/// docs/RULES.md, "Namespace answers".
fn is_wanted(header: &Header, name: &Namespace, row: u16) -> bool
    requires { row < 2 * header.now.k }
    ensures { result ≡ is_wanted header.now name.now row }
{
    let root = header.root_of(Axis::Row, row);
    root.least().is_at_most(name) && name.is_at_most(&root.greatest())
}

/// The rows of a header that may hold a namespace. The one refusal is that it is out of memory.
#[tactic(auto, using(crate::proofs::NamespaceDataLemmas::wanted_more, crate::proofs::NamespaceDataLemmas::wanted_same, crate::proofs::NamespaceDataLemmas::wanted_none))]
fn wanted_rows(alloc: Global, header: &Header, name: &Namespace) -> Result<Vec<u16>, NoMemory>
    ensures { IfOk result (λ rows. rows.items ≡ wanted_rows header.now name.now) }
{
    let mut rows = Vec::new(alloc);
    for row in 0..header.k {
        if is_wanted(header, name, row) {
            let Ok(()) = rows.push(row) else {
                return Err(NoMemory);
            };
        }
    }
    Ok(rows)
}

/// The frame of an answer.
fn answer_frame(name: Namespace, answer: NsAnswer) -> Frame
    requires { is_long_answer answer ≡ false }
    ensures value { result ≡ FrameOf.Names name answer }
    ensures spelled { IsSome (spelling result) }
{
    wire_laws();
    namespace_law(&name);
    answer_law(&answer);
    Frame::Names(name, answer)
}

/// The frame of the entries that the stream in FILE is under a header.
fn import_under(
    alloc: Global,
    files: &[Vec<u8>],
    header: Header,
    name: Namespace,
) -> Result<Vec<u8>, Status>
    requires { header_in (file_of (contents_of files.now) 1) ≡ Ok header }
    ensures { IsMadeOutput (Judged (namespace_data_judged name (contents_of files.now))
        (ImportNamespaceDataOf name (contents_of files.now))) result }
{
    namespace_data_laws();
    let bytes = file(files, FILE);
    bytes_law(bytes);
    let rows = match wanted_rows(alloc, &header, &name) {
        Ok(rows) => rows,
        Err(NoMemory) => return Err(Status::NoMemory),
    };
    match read_namespace_data(alloc, &rows, bytes) {
        Ok(answer) => frame_text(alloc, answer_frame(name, answer)),
        Err(why) => Err(message_refusal(why)),
    }
}

/// The status of why HEADER isn't read as a header.
fn header_refusal(why: Unread) -> Status
    ensures { result ≡ header_refusal why }
{
    match why {
        Unread::BadForm(at) => Status::BadInput(HEADER, at),
        Unread::NoMemory => Status::NoMemory,
    }
}

/// The frame of the entries that the stream in FILE is under HEADER, which is judged first.
pub(crate) fn import(alloc: Global, files: &[Vec<u8>], name: Namespace) -> Result<Vec<u8>, Status>
    ensures { IsMadeOutput (Judged (namespace_data_judged name (contents_of files.now))
        (ImportNamespaceDataOf name (contents_of files.now))) result }
{
    match header_in(alloc, file(files, HEADER)) {
        Ok(header) => import_under(alloc, files, header, name),
        Err(why) => Err(header_refusal(why)),
    }
}

/// The entries that a frame has.
fn entries_of(frame: Frame) -> Option<NsAnswer>
    ensures { result ≡ entries_of frame }
{
    match frame {
        Frame::Names(_name, answer) => Some(answer),
        other => {
            drop(other);
            None
        }
    }
}

/// The entries of the frame that a file is.
fn entries_in(alloc: Global, bytes: &[u8]) -> Result<NsAnswer, Unread>
    ensures { ReadsSingle result (entries_in bytes.now) }
{
    match read_only(alloc, bytes, b"N") {
        Ok(frame) => match entries_of(frame) {
            Some(answer) => Ok(answer),
            None => Err(Unread::BadForm(0)),
        },
        Err(error) => Err(reason(error)),
    }
}

/// The stream of entries.
fn stream(alloc: Global, answer: &NsAnswer) -> Result<Vec<u8>, Status>
    ensures { IsMadeOutput (StreamOf answer.now) result }
{
    let Some(size) = namespace_data_size(answer) else {
        return Err(Status::BadRequest(Asked::Form));
    };
    let Ok(mut text) = Vec::with_capacity(alloc, size) else {
        return Err(Status::NoMemory);
    };
    put_namespace_data(answer, &mut text);
    Ok(text)
}

/// The stream of what was found of a namespace, in FILE.
pub(crate) fn export(alloc: Global, files: &[Vec<u8>]) -> Result<Vec<u8>, Status>
    ensures { IsMadeOutput (Judged (single_judged entries_in (contents_of files.now))
        (ExportNamespaceDataOf (contents_of files.now))) result }
{
    match entries_in(alloc, file(files, FILE)) {
        Ok(answer) => stream(alloc, &answer),
        Err(why) => Err(frame_refusal(why)),
    }
}
