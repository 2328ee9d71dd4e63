//! root HEADER, root HEADER ROOT: the data root of a header, and whether it is a given one.

ghost use Rattle.std.specs.Prelude.{◌≡◌};
ghost use Rattle.da_files.specs.Contents.{contents_of};
ghost use Rattle.da_files.specs.Frames.{header_in};
ghost use Rattle.da_judging.specs.Root.{root_refusal, TellsRoot, RootOf, RootIsOf};
ghost use Rattle.da_files.specs.Forms.{single_judged};
ghost use Rattle.da_status.specs.Judging.{Judged};
ghost use Rattle.da_status.specs.Outcome.{EndsAtOnce};

use crate::verify::give_line;
use da_files::{hash_line, one_header, put};
use da_io::Sink;
use da_status::Status;
use data_header::{Header, data_root};
use std::alloc::Global;

/// The number of the refusal of a header by the data root that it is to have, none where it has it.
fn root_refusal(header: &Header, root: &[u8; 32]) -> Option<u64>
    ensures { result ≡ root_refusal header.now root.now }
{
    if data_root(header) == *root {
        None
    } else {
        Some(1)
    }
}

/// Writes the line of a header's data root. It takes no memory.
fn give_root<O: Sink>(header: &Header, out: &mut O) -> Status
    ensures { EndsAtOnce (TellsRoot header.now) (O.taken out.old) (O.taken out.new)
        (O.faults out.old) (O.faults out.new) (out.new ≡ out.old) result }
{
    put(hash_line(&data_root(header)).as_bytes(), Status::Done, out)
}

/// Answers the data root of the header in HEADER.
#[tactic(auto, using(da_files::proofs::FormLemmas::refused_once, da_files::proofs::FormLemmas::once_single))]
pub fn root<O: Sink>(alloc: Global, files: &[Vec<u8>], out: &mut O) -> Status
    ensures { EndsAtOnce (Judged (single_judged header_in (contents_of files.now))
        (RootOf (contents_of files.now))) (O.taken out.old) (O.taken out.new) (O.faults out.old)
        (O.faults out.new) (out.new ≡ out.old) result }
{
    match one_header(alloc, files) {
        Ok(header) => give_root(&header, out),
        Err(status) => status,
    }
}

/// Answers whether the header in HEADER has this data root.
#[tactic(auto, using(da_files::proofs::FormLemmas::refused_once))]
pub fn root_is<O: Sink>(alloc: Global, files: &[Vec<u8>], root: &[u8; 32], out: &mut O) -> Status
    ensures { EndsAtOnce (Judged (single_judged header_in (contents_of files.now))
        (RootIsOf root.now (contents_of files.now))) (O.taken out.old) (O.taken out.new)
        (O.faults out.old) (O.faults out.new) (out.new ≡ out.old) result }
{
    match one_header(alloc, files) {
        Ok(header) => give_line(root_refusal(&header, root), out),
        Err(status) => status,
    }
}
