//! prove SQUARE REQUESTS, prove SQUARE START COUNT: proofs under the data root of a square, for cells that
//! are asked for and for the commitment of its shares in a range.

ghost use Rattle.std.specs.Prelude.{◌≡◌, Some, true, false, IfOk, IsErrOf, IsSome, ◌∷◌, []};
ghost use Rattle.data_header.specs.DataRoots.{data_root_of};
ghost use Rattle.axis_roots.specs.Grids.{header_of_grid};
ghost use Rattle.axis_roots.specs.Openings.{IsProved};
ghost use Rattle.blob_commit.specs.Proofs.{has_commit_shape, is_range, CommitHolds, RootedHolds};
ghost use Rattle.da_wire.specs.declared.frames.Frame.TheVariants as FrameOf;
ghost use Rattle.da_wire.specs.Spelling.{spelling, sample_kind};
ghost use Rattle.da_files.specs.Contents.{contents_of};
ghost use Rattle.da_serving.specs.Prove.{ProvesRange, ProveOf, ProveRangeOf};
ghost use Rattle.da_files.specs.Forms.{requests_judged, single_judged};
ghost use Rattle.da_files.specs.Frames.{square_in};
ghost use Rattle.da_status.specs.Judging.{Judged};
ghost use Rattle.da_status.specs.Outcome.{Ends, EndsAtOnce};

use crate::extension::Extension;
use crate::sample::next_sample;
use crate::serving::{Server, answer};
use axis_roots::{Grid, Message, grid_laws, header_of, index};
use blob_commit::{
    CommitProof, ProveError, RootedMessage, commit_law, prove_commit, row_trees, sample_laws,
};
use da_files::{give, one_square};
use da_io::Sink;
use da_status::{Asked, Status};
use da_wire::{Frame, frame_law, wire_laws};
use data_header::{DataTree, Header};
use namespace_id::{Axis, Cell, NoMemory, is_in_square};
use square_layout::Square;
use std::alloc::Global;

/// The root proof of a sample that is proved under a header, from the tree over the header's roots.
fn root_proof(roots: &DataTree, message: Message) -> RootedMessage
    requires { IsProved roots.now message }
    ensures width { result.k ≡ roots.now.k }
    ensures message { result.message ≡ message }
    ensures holds { RootedHolds (data_root_of roots.now) result }
{
    let axis = message.axis;
    let index = index(axis, message.cell);
    RootedMessage {
        k: roots.width(),
        message,
        root: roots.root_of(axis, index),
        up: roots.proof(axis, index),
    }
}

/// The frame of a root proof.
fn rooted_frame(proof: RootedMessage) -> Frame
    ensures value { result ≡ FrameOf.Rooted proof }
    ensures spelled { IsSome (spelling result) }
{
    wire_laws();
    let frame = Frame::Rooted(proof);
    frame_law(&frame);
    frame
}

/// The extension of a square, and the tree over the roots of the square's header.
#[derive(Drop)]
struct Rooting {
    extension: Extension,
    roots: DataTree,
}

impl Server for Rooting {
    type Request = (Cell, Axis);

    ghost use Rattle.std.specs.Prelude.{◌≡◌};
    ghost use Rattle.da_serving.specs.Extension.{IsExtensionOf};
    ghost use Rattle.da_serving.specs.Sample.{samples_in, is_asked_inside};
    ghost use Rattle.da_serving.specs.Prove.{AllowsRootProof};

    ghost asked = { samples_in };

    ghost passes = { is_asked_inside };

    ghost allows = { AllowsRootProof };

    ghost serves = { λ rooting square header. IsExtensionOf rooting.extension square header
        × (rooting.roots ≡ header) };

    fn next(bytes: &[u8]) -> Option<((Cell, Axis), &[u8])> {
        next_sample(bytes)
    }

    fn passes(square: &Square, asked: &(Cell, Axis)) -> bool {
        is_in_square(square.k, asked.0)
    }

    fn law(_requests: &[u8]) {
        wire_laws();
        sample_laws();
    }

    fn hold(alloc: Global, square: Square, requests: &[u8]) -> Result<Option<Rooting>, NoMemory> {
        let Some(mut extension) = Extension::of(alloc, square, requests, 0)? else {
            return Ok(None);
        };
        let roots = extension.roots(alloc)?;
        Ok(Some(Rooting { extension, roots }))
    }

    fn frame(&mut self, _alloc: Global, asked: (Cell, Axis)) -> Result<Frame, NoMemory> {
        let message = self.extension.sample(asked);
        Ok(rooted_frame(root_proof(&self.roots, message)))
    }
}

/// Answers to the requests in REQUESTS with root proofs over the square in SQUARE.
pub fn execute<O: Sink>(alloc: Global, files: &[Vec<u8>], out: &mut O) -> Status
    ensures { Ends (Judged (requests_judged (sample_kind ∷ []) (contents_of files.now))
        (ProveOf (contents_of files.now))) (O.taken out.old) (O.taken out.new) (O.faults out.old)
        (O.faults out.new) (out.new ≡ out.old) result }
{
    answer::<Rooting, O>(alloc, files, b"Q", out)
}

/// The frame of a commitment proof that has its shape.
fn commit_frame(proof: CommitProof) -> Frame
    requires { has_commit_shape proof ≡ true }
    ensures value { result ≡ FrameOf.Commit proof }
    ensures spelled { IsSome (spelling result) }
{
    wire_laws();
    let frame = Frame::Commit(proof);
    frame_law(&frame);
    frame
}

/// The proof of the commitment of the shares in a range of the square, under the header of its grid.
fn range_proof(
    alloc: Global,
    grid: &Grid,
    header: &Header,
    start: u32,
    count: u32,
) -> Result<CommitProof, ProveError>
    requires { header_of_grid grid.now.k grid.now.shares ≡ Some header.now }
    ensures range { IsErrOf result ProveError.Range → is_range header.now.k start count ≡ false }
    ensures k { IfOk result (λ proof. proof.k ≡ header.now.k) }
    ensures start { IfOk result (λ proof. proof.start ≡ start) }
    ensures count { IfOk result (λ proof. proof.count ≡ count) }
    ensures holds { IfOk result (λ proof. CommitHolds (data_root_of header.now) proof) }
{
    let trees = row_trees(alloc, grid, header)?;
    let roots = DataTree::of(alloc, header)?;
    prove_commit(alloc, &roots, &trees, start, count)
}

/// Writes the proof of a range of a square, if the square has a header and the range is one of it. All memory is
/// taken before the write.
fn prove_range<O: Sink>(
    alloc: Global,
    square: &Square,
    start: u32,
    count: u32,
    out: &mut O,
) -> Status
    ensures { EndsAtOnce (ProvesRange square.now start count) (O.taken out.old) (O.taken out.new)
        (O.faults out.old) (O.faults out.new) (out.new ≡ out.old) result }
{
    grid_laws();
    let _k = square.k;
    let Ok(grid) = Grid::extend(alloc, square) else {
        return Status::NoMemory;
    };
    let header = match header_of(alloc, &grid) {
        Ok(Some(header)) => header,
        Ok(None) => return Status::BadRequest(Asked::NoHeader),
        Err(_) => return Status::NoMemory,
    };
    match range_proof(alloc, &grid, &header, start, count) {
        Ok(proof) => {
            commit_law(&proof);
            give(commit_frame(proof), &mut Vec::new(alloc), out)
        }
        Err(ProveError::Range) => Status::BadRequest(Asked::Range),
        Err(ProveError::NoMemory) => Status::NoMemory,
    }
}

/// Answers the proof of a range of the square in SQUARE.
#[tactic(auto, using(da_files::proofs::FormLemmas::refused_once))]
pub fn range<O: Sink>(
    alloc: Global,
    files: &[Vec<u8>],
    start: u32,
    count: u32,
    out: &mut O,
) -> Status
    ensures { EndsAtOnce (Judged (single_judged square_in (contents_of files.now))
        (ProveRangeOf start count (contents_of files.now))) (O.taken out.old) (O.taken out.new)
        (O.faults out.old) (O.faults out.new) (out.new ≡ out.old) result }
{
    match one_square(alloc, files) {
        Ok(square) => prove_range(alloc, &square, start, count, out),
        Err(status) => status,
    }
}
