//! What is written for requests, and what an answer to a request shows.

ghost use Rattle.std.specs.Prelude.{None};
ghost use Rattle.namespace_id.specs.declared.cells.Axis.{Axis};
ghost use Rattle.namespace_id.specs.declared.cells.Cell.{Cell};
ghost use Rattle.namespace_id.specs.declared.namespaces.Namespace.{Namespace};
ghost use Rattle.data_header.specs.Headers.{Roots};
ghost use Rattle.square_layout.specs.Blocks.{SquareShares};
ghost use Rattle.axis_roots.specs.Grids.{IsHeaderOf};
ghost use Rattle.da_wire.specs.declared.frames.Frame.{Frame};
ghost use Rattle.da_wire.specs.Spelling.{IsFrame};
ghost use Rattle.da_judging.specs.declared.answers.Answer.{Answer};
ghost use Rattle.da_judging.specs.declared.answers.Request.{Request};
ghost use Rattle.da_judging.specs.declared.answers.Request.TheVariants.{Sample, Names};
ghost use Rattle.da_judging.specs.Answers.{answer_frame, is_answer_to, IsFrameTo};
ghost use Rattle.da_serving.specs.Sample.{AllowsSample};
ghost use Rattle.da_serving.specs.Prove.{AllowsRootProof};
ghost use Rattle.da_serving.specs.Namespace.{AllowsNames};
ghost use Rattle.da_judging.specs.VerifyFor.{IsRefusalFor, ShowsAsked};

use axis_roots::{claim_laws, message_laws};
use blob_commit::{commit_laws, refusal_laws};
use square_serve::answer_laws;

/// What is written for requests, and what an answer to a request shows under the header of a square.
pub fn answering_laws()
    // Each frame that `sample`, `prove` and `namespace` may write for a request is that of an answer
    // to it.
    ensures sample { (square : SquareShares) (header : Roots) (cell : Cell) (axis : Axis)
        (frame : Frame) → AllowsSample square header (cell, axis) frame →
        IsFrameTo (Sample cell axis) frame }
    ensures prove { (square : SquareShares) (header : Roots) (cell : Cell) (axis : Axis)
        (frame : Frame) → AllowsRootProof square header (cell, axis) frame →
        IsFrameTo (Sample cell axis) frame }
    ensures namespace { (square : SquareShares) (header : Roots) (name : Namespace) (frame : Frame) →
        AllowsNames square header name frame → IsFrameTo (Names name) frame }

    // To a request an answer is not refused under the header of a square only where it shows the share
    // that the square's extension has at the cell that is asked for, or exactly the square's shares of
    // the namespace that is, or they name a collision.
    ensures own { (header : Roots) (request : Request) (answer : Answer) (square : SquareShares) →
        IsFrame (answer_frame answer) → IsHeaderOf header square →
        IsRefusalFor (is_answer_to request answer) header answer None →
        ShowsAsked request answer square }
{
    message_laws();
    claim_laws();
    answer_laws();
    commit_laws();
    refusal_laws();
}
