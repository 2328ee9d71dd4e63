//! Files that are one namespace answer.

ghost use Rattle.std.specs.Prelude.{◌≡◌};
ghost use Rattle.da_files.specs.Frames.{ReadsSingle};
ghost use Rattle.da_exchanging.specs.Answers.{ns_answer_of, ns_answer_in};

use axis_roots::NsAnswer;
use da_files::{Unread, reason};
use da_wire::{Frame, read_only};
use namespace_id::Namespace;
use std::alloc::Global;

/// The answer for a namespace that a frame is.
fn answer_of(frame: Frame) -> Option<(Namespace, NsAnswer)>
    ensures { result ≡ ns_answer_of frame }
{
    match frame {
        Frame::Names(name, answer) => Some((name, answer)),
        other => {
            drop(other);
            None
        }
    }
}

/// The answer for a namespace that a file is.
pub(crate) fn answer_in(alloc: Global, bytes: &[u8]) -> Result<(Namespace, NsAnswer), Unread>
    ensures { ReadsSingle result (ns_answer_in bytes.now) }
{
    match read_only(alloc, bytes, b"N") {
        Ok(frame) => match answer_of(frame) {
            Some(answer) => Ok(answer),
            None => Err(Unread::BadForm(0)),
        },
        Err(error) => Err(reason(error)),
    }
}
