//! The payload of a sample.

ghost use Rattle.std.specs.Prelude.{◌≡◌, ◌≤◌, length, vec_len, Some, ◌+◌, ◌++◌, vec_capacity, false};
ghost use Rattle.namespace_id.specs.Answers.{HasCapacity};
ghost use Rattle.frame_payloads.specs.kinds.Message.{message_payload};
ghost use Rattle.frame_payloads.specs.Payloads.{IsSize};

use crate::codec::appending::{axis_byte, put_short};
use crate::codec::outs::{Full, Out};
use crate::codec::sizes::{CELL_SIZE, DIGEST_SIZE, SHARE_SIZE};
use crate::codec::writing::{Text, append_text};
use axis_roots::Message;
use namespace_id::{MOST_DEPTH, digests_law, share_law};

/// The bytes of a sample whose path has no nodes: its cell, its axis, its share, and the count 0.
pub(crate) const BARE_SIZE: usize = CELL_SIZE + 1 + SHARE_SIZE + 1;

/// The most bytes of the payload of a sample.
pub const MOST_MESSAGE: usize = BARE_SIZE + DIGEST_SIZE * MOST_DEPTH;

/// The length of the payload of a sample.
#[tactic(auto, using(crate::proofs::Forms::PayloadSizes::message_sized))]
pub fn message_size(message: &Message) -> u32
    ensures { IsSize false (message_payload message.now) (Some result) }
{
    let nodes = message.path.nodes();
    share_law(&message.share);
    digests_law(nodes);
    BARE_SIZE as u32 + DIGEST_SIZE as u32 * nodes.len() as u32
}

impl Text for Message {
    ghost text = { message_payload };

    fn put<O: Out>(&self, out: &mut O) -> Result<(), Full> {
        self.cell.put(out)?;
        out.put(&[axis_byte(self.axis)])?;
        out.put(&self.share.0)?;
        put_short(out, self.path.nodes())
    }
}

/// Appends the payload of a sample.
pub fn put_message(out: &mut Vec<u8>, message: &Message)
    requires capacity { HasCapacity out.old (length (message_payload message.now)) }
    ensures appended { out.new.items ≡ out.old.items ++ message_payload message.now }
    ensures len { vec_len out.new ≡ vec_len out.old + length (message_payload message.now) }
    ensures capacity { vec_capacity out.old ≤ vec_capacity out.new }
{
    append_text(out, message);
}
