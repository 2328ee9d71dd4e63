//! One answer under one header.

ghost use Rattle.std.specs.Prelude.{◌≡◌, ◌↔◌, Some, None, IsErrOf, IfOk, OnOk};
ghost use Rattle.share_split.specs.Walks.{blobs_joined};
ghost use Rattle.square_serve.specs.declared.checking.NsRefusal.{NsRefusal as Refusal};
ghost use Rattle.square_serve.specs.Answers.{answer_refusal};
ghost use Rattle.blob_feed.specs.Feeds.{shares_shown, read_of};

use crate::Entry;
use crate::gathering::joined;
use axis_roots::NsAnswer;
use data_header::Header;
use namespace_id::{Namespace, NoMemory};
use square_serve::{NsRefusal, check_namespace};
use std::alloc::Global;
use thiserror::Error;

/// Why an answer wasn't read. The variants stand in the order in which they are tested.
#[derive(Clone, Copy, Debug, PartialEq, Eq, Error)]
pub enum ReadError {
    /// The answer isn't complete under the header.
    #[error("the answer is not complete: {0}")]
    Refused(NsRefusal),
    /// There was no memory.
    #[error("out of memory")]
    NoMemory,
}

/// What the shares of an answer for a namespace are read as, where the answer is complete under the
/// header: their blobs, or the first fault of them. A follower enters the same, of which this keeps
/// nothing.
///
/// Refuses an answer that isn't complete (`Refused`, as `check_namespace`), then out of memory.
///
/// Celestia specifications, "Data Structures", namespace proofs; docs/RULES.md, "Following
/// namespaces".
pub fn read_answer(
    alloc: Global,
    header: &Header,
    namespace: &Namespace,
    answer: &NsAnswer,
) -> Result<Entry, ReadError>
    ensures read { IfOk result (λ entry. read_of entry ≡ blobs_joined (shares_shown answer.now)) }
    ensures complete { OnOk result
        (answer_refusal header.now namespace.now answer.now ≡ None) }
    ensures refused { (why : Refusal) → IsErrOf result (ReadError.Refused why) ↔
        (answer_refusal header.now namespace.now answer.now ≡ Some why) }
{
    if let Err(why) = check_namespace(header, namespace, answer) {
        return Err(ReadError::Refused(why));
    }
    match joined(alloc, answer) {
        Ok(entry) => Ok(entry),
        Err(NoMemory) => Err(ReadError::NoMemory),
    }
}
