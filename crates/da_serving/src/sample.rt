//! sample SQUARE REQUESTS: the samples of a square that are asked for.

ghost use Rattle.std.specs.Prelude.{◌≡◌, IsSome, ◌∷◌, []};
ghost use Rattle.da_wire.specs.declared.frames.Frame.TheVariants as FrameOf;
ghost use Rattle.da_wire.specs.Spelling.{spelling, sample_kind};
ghost use Rattle.da_files.specs.Contents.{contents_of};
ghost use Rattle.da_files.specs.Requests.{IsNext};
ghost use Rattle.da_serving.specs.Sample.{samples_in, SampleOf};
ghost use Rattle.da_files.specs.Forms.{requests_judged};
ghost use Rattle.da_status.specs.Judging.{Judged};
ghost use Rattle.da_status.specs.Outcome.{Ends};

use crate::extension::Extension;
use crate::serving::{Server, answer};
use axis_roots::{Message, message_law};
use da_io::Sink;
use da_status::Status;
use da_wire::{Frame, wire_laws};
use namespace_id::{Axis, Cell, NoMemory, is_in_square};
use square_layout::Square;
use std::alloc::Global;

/// Up to this width the whole extension takes 34 MB, and a sample is made of it sooner.
const NARROW: u16 = 128;

/// The request at the front of a list of requests for samples, and the bytes after it.
pub(crate) fn next_sample(bytes: &[u8]) -> Option<((Cell, Axis), &[u8])>
    ensures { IsNext samples_in bytes.now result }
{
    da_wire::next_sample(bytes)
}

/// The frame of a sample.
fn message_frame(message: Message) -> Frame
    ensures value { result ≡ FrameOf.Message message }
    ensures spelled { IsSome (spelling result) }
{
    wire_laws();
    message_law(&message);
    Frame::Message(message)
}

impl Server for Extension {
    type Request = (Cell, Axis);

    ghost use Rattle.da_serving.specs.Extension.{IsExtensionOf};
    ghost use Rattle.da_serving.specs.Sample.{samples_in, is_asked_inside, AllowsSample};

    ghost asked = { samples_in };

    ghost passes = { is_asked_inside };

    ghost allows = { AllowsSample };

    ghost serves = { IsExtensionOf };

    fn next(bytes: &[u8]) -> Option<((Cell, Axis), &[u8])> {
        next_sample(bytes)
    }

    fn passes(square: &Square, asked: &(Cell, Axis)) -> bool {
        is_in_square(square.k, asked.0)
    }

    fn law(_requests: &[u8]) {
        wire_laws();
    }

    fn hold(alloc: Global, square: Square, requests: &[u8]) -> Result<Option<Extension>, NoMemory> {
        Extension::of(alloc, square, requests, NARROW)
    }

    fn frame(&mut self, _alloc: Global, asked: (Cell, Axis)) -> Result<Frame, NoMemory> {
        Ok(message_frame(self.sample(asked)))
    }
}

/// Answers to the requests in REQUESTS over the square in SQUARE.
pub fn execute<O: Sink>(alloc: Global, files: &[Vec<u8>], out: &mut O) -> Status
    ensures { Ends (Judged (requests_judged (sample_kind ∷ []) (contents_of files.now))
        (SampleOf (contents_of files.now))) (O.taken out.old) (O.taken out.new) (O.faults out.old)
        (O.faults out.new) (out.new ≡ out.old) result }
{
    answer::<Extension, O>(alloc, files, b"Q", out)
}
