//! header SQUARE: the header of a square (a data availability header).

ghost use Rattle.std.specs.Prelude.{◌≡◌, ◌+◌, ◌*◌, ℕ, List, length, Some, IsSome};
ghost use Rattle.da_wire.specs.Spelling.{spelling};
ghost use Rattle.da_wire.specs.declared.frames.Frame.TheVariants as FrameOf;
ghost use Rattle.da_files.specs.Contents.{contents_of};
ghost use Rattle.da_serving.specs.Header.{Heads, HeaderOf};
ghost use Rattle.da_files.specs.Forms.{single_judged};
ghost use Rattle.da_files.specs.Frames.{square_in};
ghost use Rattle.da_status.specs.Judging.{Judged};
ghost use Rattle.da_status.specs.Outcome.{EndsAtOnce};

use axis_roots::header_of_square;
use da_files::{give, one_square};
use da_io::Sink;
use da_status::{Asked, Status};
use da_wire::{Frame, wire_laws};
use data_header::Header;
use namespace_id::digests_law;
use square_layout::Square;
use std::alloc::Global;

/// The frame of a header. It has a spelling, of 7 bytes and 360 for each k.
pub fn header_frame(header: Header) -> Frame
    ensures value { result ≡ FrameOf.Header header }
    ensures spelled { IsSome (spelling result) }
    ensures size { (text : List ℕ) → spelling result ≡ Some text →
        length text ≡ 7 + 360 * header.k }
{
    wire_laws();
    digests_law(&header.rows);
    digests_law(&header.cols);
    let _k = header.k;
    Frame::Header(header)
}

/// Writes the header of a square, if it has one. All memory is taken before the write.
fn give_header<O: Sink>(alloc: Global, square: &Square, out: &mut O) -> Status
    ensures { EndsAtOnce (Heads square.now) (O.taken out.old) (O.taken out.new) (O.faults out.old)
        (O.faults out.new) (out.new ≡ out.old) result }
{
    match header_of_square(alloc, square) {
        Ok(Some(header)) => give(header_frame(header), &mut Vec::new(alloc), out),
        Ok(None) => Status::BadRequest(Asked::NoHeader),
        Err(_) => Status::NoMemory,
    }
}

/// Computes the header of the square in SQUARE.
#[tactic(auto, using(da_files::proofs::FormLemmas::refused_once, da_files::proofs::FormLemmas::once_single))]
pub fn execute<O: Sink>(alloc: Global, files: &[Vec<u8>], out: &mut O) -> Status
    ensures { EndsAtOnce (Judged (single_judged square_in (contents_of files.now))
        (HeaderOf (contents_of files.now))) (O.taken out.old) (O.taken out.new) (O.faults out.old)
        (O.faults out.new) (out.new ≡ out.old) result }
{
    match one_square(alloc, files) {
        Ok(square) => give_header(alloc, &square, out),
        Err(status) => status,
    }
}
