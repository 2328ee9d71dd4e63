//! Answers and requests, and whether an answer is to a request.

ghost use Rattle.std.specs.Prelude.{◌≡◌};
ghost use Rattle.da_judging.specs.Answers.{answer_of, request_of, is_of_cell, is_sample, is_for, is_answer_to};

use axis_roots::{FraudClaim, Message, NsAnswer, is_along};
use blob_commit::{CommitProof, RootedMessage};
use da_wire::Frame;
use namespace_id::{Axis, Cell, Namespace};

/// An answer, which is judged under a header. Each has the frame of its kind.
#[derive(Drop)]
pub enum Answer {
    /// M: a sample.
    Message(Message),
    /// N: a namespace and what is found of it.
    Names(Namespace, NsAnswer),
    /// B: a fraud claim.
    Fraud(FraudClaim),
    /// C: a commitment proof.
    Commit(CommitProof),
    /// R: a sample with the proof of its axis root under the data root.
    Rooted(RootedMessage),
}

/// What is asked for. Each has the frame of its kind.
#[derive(Clone, Copy, Debug, PartialEq, Eq)]
pub enum Request {
    /// Q: the sample of a cell on an axis.
    Sample(Cell, Axis),
    /// P: the shares of a namespace.
    Names(Namespace),
}

/// The answer that a frame is, none of a frame of another kind.
pub(crate) fn answer_of(frame: Frame) -> Option<Answer>
    ensures { result ≡ answer_of frame }
{
    match frame {
        Frame::Message(message) => Some(Answer::Message(message)),
        Frame::Names(name, answer) => Some(Answer::Names(name, answer)),
        Frame::Fraud(claim) => Some(Answer::Fraud(claim)),
        Frame::Commit(proof) => Some(Answer::Commit(proof)),
        Frame::Rooted(proof) => Some(Answer::Rooted(proof)),
        other => {
            drop(other);
            None
        }
    }
}

/// The request that a frame is, none of a frame of another kind.
pub(crate) fn request_of(frame: Frame) -> Option<Request>
    ensures { result ≡ request_of frame }
{
    match frame {
        Frame::Sample(cell, axis) => Some(Request::Sample(cell, axis)),
        Frame::Request(name) => Some(Request::Names(name)),
        other => {
            drop(other);
            None
        }
    }
}

/// Whether a sample is of a cell, along an axis.
fn is_of_cell(cell: Cell, axis: Axis, message: &Message) -> bool
    ensures { result ≡ is_of_cell cell axis message.now }
{
    message.cell.row == cell.row && message.cell.col == cell.col && is_along(axis, message)
}

/// Whether an answer is a sample of a cell along an axis, by itself or in a root proof.
fn is_sample(cell: Cell, axis: Axis, answer: &Answer) -> bool
    ensures { result ≡ is_sample cell axis answer.now }
{
    match answer {
        Answer::Message(message) => is_of_cell(cell, axis, message),
        Answer::Rooted(proof) => is_of_cell(cell, axis, &proof.message),
        Answer::Names(..) | Answer::Fraud(_) | Answer::Commit(_) => false,
    }
}

/// Whether an answer is a namespace answer for a namespace.
fn is_for(name: &Namespace, answer: &Answer) -> bool
    ensures { result ≡ is_for name.now answer.now }
{
    match answer {
        Answer::Names(other, _) => other.0 == name.0,
        Answer::Message(_) | Answer::Fraud(_) | Answer::Commit(_) | Answer::Rooted(_) => false,
    }
}

/// Whether an answer is to a request, before any proof is looked at: to one for a sample a sample, or
/// a root proof with one, of its cell along its axis; to one for a namespace a namespace answer for it.
/// It takes no memory.
///
/// docs/RULES.md, "Answers to a request".
pub fn is_answer_to(request: &Request, answer: &Answer) -> bool
    ensures { result ≡ is_answer_to request.now answer.now }
{
    match request {
        Request::Sample(cell, axis) => is_sample(*cell, *axis, answer),
        Request::Names(name) => is_for(name, answer),
    }
}
