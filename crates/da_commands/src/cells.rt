//! cells HEADER KEY COUNT AXIS: the requests of a light node that has no messages yet, by a key
//! that is a word or stands in a file.

ghost use Rattle.std.specs.Prelude.{◌≡◌};
ghost use Rattle.da_files.specs.Contents.{contents_of};
ghost use Rattle.da_files.specs.Frames.{header_in};
ghost use Rattle.da_files.specs.Forms.{single_judged};
ghost use Rattle.da_commands.specs.Cells.{HasNoClaim, Asks, AsksFirst, CellsOf, cells_by_judged, CellsByOf};
ghost use Rattle.da_status.specs.Judging.{Judged};
ghost use Rattle.da_status.specs.Outcome.{EndsAtOnce};

use da_files::{file, one_header, put};
use da_io::Sink;
use da_judging::light::verdict;
use da_judging::read_key;
use da_serving::wanted::give_requests;
use da_status::{Asked, Status};
use data_header::Header;
use light_node::Light;
use namespace_id::Axis;
use sampling::DrawError;
use std::alloc::Global;

/// The place of the file of the key among the words that name files.
const KEY: u32 = 1;

/// Writes what is asked for after a verdict on no messages, along an axis. All memory is taken
/// before the write.
fn ask<O: Sink>(alloc: Global, light: Light, axis: Axis, out: &mut O) -> Status
    requires { HasNoClaim light }
    ensures { EndsAtOnce (Asks axis light) (O.taken out.old) (O.taken out.new) (O.faults out.old)
        (O.faults out.new) (out.new ≡ out.old) result }
{
    match light {
        Light::Available => put(b"", Status::Done, out),
        // Never taken: without messages there is no claim.
        Light::Rejected(upheld) => {
            drop(upheld.into_claim());
            unreachable!()
        }
        Light::Waiting(cells) => give_requests(alloc, &cells.list, axis, out),
    }
}

/// Answers the requests under a header along an axis, where so many cells are drawn by the key.
fn cells<O: Sink>(
    alloc: Global,
    header: &Header,
    key: &[u8; 32],
    count: u32,
    axis: Axis,
    out: &mut O,
) -> Status
    ensures { EndsAtOnce (AsksFirst axis key.now count header.now) (O.taken out.old)
        (O.taken out.new) (O.faults out.old) (O.faults out.new) (out.new ≡ out.old) result }
{
    let planned = match sampling::cells(alloc, key, header.k, count) {
        Ok(planned) => planned,
        Err(DrawError::TooMany) => return Status::BadRequest(Asked::Count),
        Err(DrawError::NoMemory) => return Status::NoMemory,
    };
    match verdict(alloc, header, &[], &planned) {
        Ok(light) => ask(alloc, light, axis, out),
        Err(_) => Status::NoMemory,
    }
}

/// Answers the requests along an axis for the cells that a light node wants first that draws so many
/// by the key, under the header in HEADER. All memory is taken before the write.
#[tactic(auto, using(da_files::proofs::FormLemmas::refused_once, da_files::proofs::FormLemmas::once_single))]
pub(crate) fn execute<O: Sink>(
    alloc: Global,
    files: &[Vec<u8>],
    key: &[u8; 32],
    count: u32,
    axis: Axis,
    out: &mut O,
) -> Status
    ensures { EndsAtOnce (Judged (single_judged header_in (contents_of files.now))
        (CellsOf key.now count axis (contents_of files.now))) (O.taken out.old) (O.taken out.new)
        (O.faults out.old) (O.faults out.new) (out.new ≡ out.old) result }
{
    match one_header(alloc, files) {
        Ok(header) => cells(alloc, &header, key, count, axis, out),
        Err(status) => status,
    }
}

/// Answers the same by the key in KEY.
pub(crate) fn execute_by<O: Sink>(
    alloc: Global,
    files: &[Vec<u8>],
    count: u32,
    axis: Axis,
    out: &mut O,
) -> Status
    ensures { EndsAtOnce (Judged (cells_by_judged (contents_of files.now))
        (CellsByOf count axis (contents_of files.now))) (O.taken out.old) (O.taken out.new)
        (O.faults out.old) (O.faults out.new) (out.new ≡ out.old) result }
{
    let header = match one_header(alloc, files) {
        Ok(header) => header,
        Err(status) => return status,
    };
    match read_key(file(files, KEY)) {
        Ok(key) => cells(alloc, &header, &key, count, axis, out),
        Err(at) => Status::BadInput(KEY, at),
    }
}
