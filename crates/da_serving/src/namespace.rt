//! namespace SQUARE REQUESTS: the shares of namespaces in a square, complete.

ghost use Rattle.std.specs.Prelude.{◌≡◌, IsSome, false, ◌∷◌, []};
ghost use Rattle.da_wire.specs.declared.frames.Frame.TheVariants as FrameOf;
ghost use Rattle.da_wire.specs.Spelling.{spelling, request_kind};
ghost use Rattle.frame_payloads.specs.kinds.Names.{is_long_answer};
ghost use Rattle.da_files.specs.Contents.{contents_of};
ghost use Rattle.da_serving.specs.Namespace.{NamespaceOf};
ghost use Rattle.da_files.specs.Forms.{requests_judged};
ghost use Rattle.da_status.specs.Judging.{Judged};
ghost use Rattle.da_status.specs.Outcome.{Ends};

use crate::serving::{Server, answer};
use axis_roots::{NsAnswer, answer_law};
use da_files::next_name;
use da_io::Sink;
use da_status::Status;
use da_wire::{Frame, value_laws, wire_laws};
use namespace_id::{Namespace, NoMemory, bytes_law, namespace_law};
use square_layout::Square;
use square_serve::{HeldError, HeldRows, ServeError, serve_laws};
use std::alloc::Global;

/// The frame of an answer.
fn answer_frame(name: Namespace, answer: NsAnswer) -> Frame
    requires { is_long_answer answer ≡ false }
    ensures value { result ≡ FrameOf.Names name answer }
    ensures spelled { IsSome (spelling result) }
{
    wire_laws();
    namespace_law(&name);
    answer_law(&answer);
    Frame::Names(name, answer)
}

impl Server for HeldRows {
    type Request = Namespace;

    ghost use Rattle.std.specs.Prelude.{◌≡◌};
    ghost use Rattle.axis_roots.specs.Grids.{IsHeaderOf};
    ghost use Rattle.da_files.specs.Requests.{namespaces_in};
    ghost use Rattle.da_serving.specs.Namespace.{is_other, AllowsNames};

    ghost asked = { namespaces_in };

    ghost passes = { λ square. is_other };

    ghost allows = { AllowsNames };

    ghost serves = { λ held square header. IsHeaderOf header square × (held ≡ square) };

    fn next(bytes: &[u8]) -> Option<(Namespace, &[u8])> {
        next_name(bytes)
    }

    fn passes(_square: &Square, name: &Namespace) -> bool {
        !name.is_parity()
    }

    fn law(requests: &[u8]) {
        wire_laws();
        value_laws();
        serve_laws();
        bytes_law(requests);
    }

    fn hold(alloc: Global, square: Square, _requests: &[u8]) -> Result<Option<HeldRows>, NoMemory> {
        match HeldRows::of(alloc, square) {
            Ok(held) => Ok(Some(held)),
            Err(HeldError::NoHeader) => Ok(None),
            Err(HeldError::NoMemory) => Err(NoMemory),
        }
    }

    fn frame(&mut self, alloc: Global, name: Namespace) -> Result<Frame, NoMemory> {
        match self.namespace(alloc, &name) {
            Ok(found) => Ok(answer_frame(name, found)),
            Err(ServeError::NoMemory) => Err(NoMemory),
            // Never taken: the request was judged. The call refuses `PARITY`.
            Err(ServeError::Parity) => unreachable!(),
        }
    }
}

/// Answers to the requests in REQUESTS over the square in SQUARE.
pub fn execute<O: Sink>(alloc: Global, files: &[Vec<u8>], out: &mut O) -> Status
    ensures { Ends (Judged (requests_judged (request_kind ∷ []) (contents_of files.now))
        (NamespaceOf (contents_of files.now))) (O.taken out.old) (O.taken out.new)
        (O.faults out.old) (O.faults out.new) (out.new ≡ out.old) result }
{
    answer::<HeldRows, O>(alloc, files, b"P", out)
}
