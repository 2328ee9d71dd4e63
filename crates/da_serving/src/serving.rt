//! Requests over a square, answered one after another.
//!
//! What answers is a `Server`. It is held for a square only where no request is refused, and then makes the frame of
//! each request, which is written before the next one is made: so memory holds one answer at a time.

ghost use Rattle.std.specs.Prelude.{◌≡◌, List, ℕ, Bool, true, None, IfOk, IsSome};
ghost use Rattle.std.specs.List.{AllByRecursion};
ghost use Rattle.data_header.specs.Headers.{Roots};
ghost use Rattle.square_layout.specs.Blocks.{SquareShares};
ghost use Rattle.axis_roots.specs.Grids.{IsHeaderOf};
ghost use Rattle.da_wire.specs.declared.frames.Frame.{Frame as Sent};
ghost use Rattle.da_wire.specs.Spelling.{spelling};
ghost use Rattle.da_files.specs.Contents.{contents_of, square_file};
ghost use Rattle.da_files.specs.Forms.{requests_judged, Over};
ghost use Rattle.da_files.specs.Frames.{square_in};
ghost use Rattle.da_files.specs.Requests.{failing_from, IsNext};
ghost use Rattle.da_serving.specs.Choices.{HasFrame};
ghost use Rattle.da_serving.specs.Serving.{requests_file, IsMadeServer, Serves};
ghost use Rattle.da_status.specs.Judging.{Judged};
ghost use Rattle.da_status.specs.Outcome.{Ends};

use da_files::{give, square_and_requests};
use da_io::Sink;
use da_status::{Asked, Status};
use da_wire::Frame;
use namespace_id::NoMemory;
use square_layout::Square;
use square_serve::{HeldError, HeldRows};
use std::alloc::Global;

/// What answers requests over a square that has a header.
pub(crate) trait Server: Drop {
    /// What is asked for.
    type Request: Copy;

    /// The requests in bytes.
    ghost asked: { List ℕ → List Self.Request };

    /// Whether a square has what is asked for.
    ghost passes: { SquareShares → Self.Request → Bool };

    /// The frames that a request allows under the header of a square.
    ghost allows: { SquareShares → Roots → Self.Request → Sent → Type 0 };

    /// It answers for a square, under the square's header.
    ghost serves: { Self → SquareShares → Roots → Type 0 };

    /// The request at the front of bytes, and the bytes after it.
    fn next(bytes: &[u8]) -> Option<(Self::Request, &[u8])>
        ensures { IsNext asked bytes.now result };

    /// Whether a square has what is asked for.
    fn passes(square: &Square, request: &Self::Request) -> bool
        ensures { result ≡ passes square.now request.now };

    /// Says that requests that all pass allow a frame that has a spelling each.
    fn law(requests: &[u8])
        ensures { (square : SquareShares) (header : Roots) → IsHeaderOf header square →
            AllByRecursion (λ request. passes square request ≡ true) (asked requests.now) →
            AllByRecursion (HasFrame (allows square header)) (asked requests.now) };

    /// Holds a square for these requests; nothing where it has no header.
    fn hold(alloc: Global, square: Square, requests: &[u8]) -> Result<Option<Self>, NoMemory>
        ensures { IfOk result (IsMadeServer serves square) };

    /// The frame that answers a request that passes.
    fn frame(&mut self, alloc: Global, request: Self::Request) -> Result<Frame, NoMemory>
        requires { (square : SquareShares) × (header : Roots) × serves self.old square header
            × (passes square request ≡ true) }
        ensures allowed { IfOk result (λ frame. (square : SquareShares) (header : Roots) →
            serves self.old square header → allows square header request frame) }
        ensures spelled { IfOk result (λ frame. IsSome (spelling frame)) }
        ensures kept { self.new ≡ self.old };
}

/// The number of the first request for what a square doesn't have.
fn first_refused<S: Server>(square: &Square, requests: &[u8]) -> Option<u64>
    ensures { result ≡ failing_from (S.passes square.now) 0 (S.asked requests.now) }
{
    let mut rest = requests;
    let mut number = 0;
    while let Some(next) = S::next(rest) {
        if !S::passes(square, &next.0) {
            return Some(number);
        }
        number += 1;
        rest = next.1;
    }
    None
}

/// Writes the answers to requests that all pass, one at a time.
fn give_all<S: Server, O: Sink>(
    alloc: Global,
    square: Square,
    requests: &[u8],
    out: &mut O,
) -> Status
    requires { failing_from (S.passes square) 0 (S.asked requests.now) ≡ None }
    ensures { Ends (Serves square (S.passes square) (S.allows square) (S.asked requests.now))
        (O.taken out.old) (O.taken out.new) (O.faults out.old) (O.faults out.new)
        (out.new ≡ out.old) result }
{
    S::law(requests);
    let mut server = match S::hold(alloc, square, requests) {
        Ok(Some(server)) => server,
        Ok(None) => return Status::BadRequest(Asked::NoHeader),
        Err(_) => return Status::NoMemory,
    };
    let mut text = Vec::new(alloc);
    let mut rest = requests;
    while let Some(next) = S::next(rest) {
        let Ok(frame) = server.frame(alloc, next.0) else {
            return Status::NoMemory;
        };
        let status = give(frame, &mut text, out);
        match status {
            Status::Done => rest = next.1,
            failed => return failed,
        }
    }
    Status::Done
}

/// Answers to the requests over a square. For one that is refused nothing is extended.
fn serve<S: Server, O: Sink>(alloc: Global, square: Square, requests: &[u8], out: &mut O) -> Status
    ensures { Ends (Serves square (S.passes square) (S.allows square) (S.asked requests.now))
        (O.taken out.old) (O.taken out.new) (O.faults out.old) (O.faults out.new)
        (out.new ≡ out.old) result }
{
    match first_refused::<S>(&square, requests) {
        None => give_all::<S, O>(alloc, square, requests, out),
        Some(number) => match HeldRows::of(alloc, square) {
            Ok(_held) => Status::BadRequest(Asked::At(number)),
            Err(HeldError::NoHeader) => Status::BadRequest(Asked::NoHeader),
            Err(HeldError::NoMemory) => Status::NoMemory,
        },
    }
}

/// Answers to the requests in REQUESTS, which are of these kinds, over the square in SQUARE.
pub(crate) fn answer<S: Server, O: Sink>(
    alloc: Global,
    files: &[Vec<u8>],
    kinds: &[u8],
    out: &mut O,
) -> Status
    ensures { Ends (Judged (requests_judged kinds.now (contents_of files.now))
        (Over (square_in (square_file (contents_of files.now))) (λ square. Serves square
        (S.passes square) (S.allows square) (S.asked (requests_file (contents_of files.now))))))
        (O.taken out.old) (O.taken out.new) (O.faults out.old) (O.faults out.new)
        (out.new ≡ out.old) result }
{
    match square_and_requests(alloc, files, kinds) {
        Ok((square, requests)) => serve::<S, O>(alloc, square, requests, out),
        Err(status) => status,
    }
}
