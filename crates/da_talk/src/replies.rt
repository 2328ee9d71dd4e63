//! The reply to what is asked of a held square.

ghost use Rattle.std.specs.Prelude.{◌≡◌, ◌≤◌, ◌+◌, ◌++◌, [], vec_capacity, true};
ghost use Rattle.namespace_id.specs.Answers.{HasCapacity};
ghost use Rattle.namespace_id.specs.Cells.{is_width};
ghost use Rattle.frame_payloads.specs.kinds.Message.{message_payload, most_message};
ghost use Rattle.da_wire.specs.Spelling.{frame, message_kind};
ghost use Rattle.da_talk.specs.Replies.{most_reply, reply, sample_reply, names_reply};

use crate::Asked;
use crate::frames::{HEAD_SIZE, put_head, put_refusal_frame};
use crate::names::put_names;
use axis_roots::{Message, message_law};
use frame_payloads::{MOST_MESSAGE, Reason, message_size, put_message};
use namespace_id::{Axis, Cell, DIGEST_SIZE, MOST_DEPTH, NAMESPACE_SIZE, Namespace, SHARE_SIZE};
use square_serve::Held;

/// The most bytes of a reply of a held square of width `k`: a text in which replies are spelled needs room
/// for so many.
pub fn most_reply(k: u16) -> usize
    requires { is_width k ≡ true }
    ensures { result ≡ most_reply k }
{
    let k = k as usize;
    let entry = 8 + SHARE_SIZE * k + DIGEST_SIZE * (2 * MOST_DEPTH);
    HEAD_SIZE + MOST_MESSAGE.max(NAMESPACE_SIZE + 2 + entry * k)
}

/// Appends the frame of a sample.
fn put_frame(text: &mut Vec<u8>, message: &Message)
    requires capacity { HasCapacity text.old (5 + most_message) }
    ensures appended { text.new.items ≡ text.old.items
        ++ frame message_kind (message_payload message.now) }
    ensures capacity { vec_capacity text.old ≤ vec_capacity text.new }
{
    message_law(message);
    put_head(text, b'M', message_size(message));
    put_message(text, message);
}

/// Writes the reply to a request for a sample, with a number.
fn put_sample(text: &mut Vec<u8>, held: &mut Held, number: u64, cell: Cell, axis: Axis)
    requires empty { text.old.items ≡ [] }
    requires capacity { HasCapacity text.old (most_reply held.old.k) }
    ensures kept { held.new ≡ held.old }
    ensures reply { text.new.items ≡ sample_reply held.old number cell axis }
    ensures capacity { vec_capacity text.old ≤ vec_capacity text.new }
{
    match held.sample(cell, axis) {
        Ok(message) => put_frame(text, &message),
        Err(_) => put_refusal_frame(text, Reason::NoAnswer, number),
    }
}

/// Writes the reply to a request for a namespace, with a number.
fn put_answer(text: &mut Vec<u8>, held: &mut Held, number: u64, name: Namespace)
    requires empty { text.old.items ≡ [] }
    requires capacity { HasCapacity text.old (most_reply held.old.k) }
    ensures kept { held.new ≡ held.old }
    ensures reply { text.new.items ≡ names_reply held.old number name }
    ensures capacity { vec_capacity text.old ≤ vec_capacity text.new }
{
    if name.is_parity() {
        put_refusal_frame(text, Reason::NoAnswer, number);
        return;
    }
    held.held_law();
    put_names(text, held, &name);
}

/// Writes the reply to what the frame with a number asks for into an empty text. It takes no memory.
pub(crate) fn put_reply(text: &mut Vec<u8>, held: &mut Held, number: u64, asked: Asked)
    requires empty { text.old.items ≡ [] }
    requires capacity { HasCapacity text.old (most_reply held.old.k) }
    ensures kept { held.new ≡ held.old }
    ensures reply { text.new.items ≡ reply held.old number asked }
    ensures capacity { vec_capacity text.old ≤ vec_capacity text.new }
{
    match asked {
        Asked::Sample(cell, axis) => put_sample(text, held, number, cell, axis),
        Asked::Names(name) => put_answer(text, held, number, name),
        Asked::Nothing => put_refusal_frame(text, Reason::NoSuchFrame, number),
    }
}
