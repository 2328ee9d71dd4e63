//! The payload of a sample.

ghost use Rattle.std.specs.Prelude.{◌≡◌, Some};
ghost use Rattle.axis_roots.specs.declared.message.messages.Message.{Message as Sent};
ghost use Rattle.namespace_id.specs.Answers.{Gives};
ghost use Rattle.frame_fields.specs.Messages.{message_front, message_at, shown_front};

use crate::{axis_at, cell_at, path_at, share_at};
use axis_roots::Message;
use namespace_id::{Cell, Share};

/// The sample at the front of bytes, and the bytes after it. It takes no memory.
///
/// docs/FORMATS.md, "Payloads".
#[tactic(auto, unfolding(crate::specs::Messages::message_front))]
pub fn message_front(bytes: &[u8]) -> Option<(Message, &[u8])>
    ensures { Gives (λ x. (x.0, x.1.now)) result (message_front bytes.now) }
{
    let (cell, rest) = cell_at(bytes)?;
    let (axis, rest) = axis_at(rest)?;
    let (share, rest) = share_at(rest)?;
    let (path, rest) = path_at(rest)?;
    let message = Message {
        cell,
        axis,
        share,
        path,
    };
    Some((message, rest))
}

/// The sample whose payload the bytes are; none where they aren't in the grammar of M. It takes no
/// memory.
///
/// docs/FORMATS.md, "Payloads".
#[tactic(auto, unfolding(crate::specs::Messages::message_at))]
pub fn message(payload: &[u8]) -> Option<Message>
    ensures { result ≡ message_at payload.now }
{
    let (message, rest) = message_front(payload)?;
    if !rest.is_empty() {
        return None;
    }
    Some(message)
}

/// The cell and the share of the sample at the front of bytes, without its nodes, which may then be of
/// any form; none where there aren't both. It takes no memory.
///
/// docs/FORMATS.md, "Payloads".
#[tactic(auto, unfolding(crate::specs::Messages::shown_front), using(crate::proofs::StepLemmas::sample_shown))]
pub fn shown_front(bytes: &[u8]) -> Option<(Cell, Share)>
    ensures value { result ≡ shown_front bytes.now }

    // Of a payload that is a sample they are those of the sample.
    ensures sample { (m : Sent) → message_at bytes.now ≡ Some m →
        result ≡ Some (m.cell, m.share) }
{
    let (cell, rest) = cell_at(bytes)?;
    let (_axis, rest) = axis_at(rest)?;
    let (share, _rest) = share_at(rest)?;
    Some((cell, share))
}
