//! The payloads of requests: for the sample of a cell, and for the shares of a namespace.

ghost use Rattle.std.specs.Prelude.{◌≡◌, length, Some, ◌+◌, ◌++◌, false, None};
ghost use Rattle.namespace_id.specs.Answers.{HasCapacity};
ghost use Rattle.frame_payloads.specs.kinds.Requests.{sample_at, request_at, sample_payload, request_payload};
ghost use Rattle.frame_payloads.specs.Payloads.{IsSize};

use crate::codec::appending::axis_byte;
use crate::codec::sizes::{CELL_SIZE, NAMESPACE_SIZE};
use crate::codec::writing::append_text;
use frame_fields::{axis_at, cell_at, name_of};
use namespace_id::{Axis, Cell, Namespace, append, namespace_law};

/// The bytes of a request for a sample: its cell and its axis.
pub const SAMPLE_SIZE: u32 = CELL_SIZE as u32 + 1;

/// The sample request whose payload the bytes are.
#[tactic(auto, unfolding(crate::specs::kinds::Requests::sample_at))]
pub fn sample(payload: &[u8]) -> Option<(Cell, Axis)>
    ensures { result ≡ sample_at payload.now }
{
    let Some((cell, rest)) = cell_at(payload) else {
        return None;
    };
    let Some((axis, rest)) = axis_at(rest) else {
        return None;
    };
    if !rest.is_empty() {
        return None;
    }
    Some((cell, axis))
}

/// The namespace request whose payload the bytes are.
#[tactic(auto, unfolding(crate::specs::kinds::Requests::request_at))]
pub fn request(payload: &[u8]) -> Option<Namespace>
    ensures { result ≡ request_at payload.now }
{
    if payload.len() != NAMESPACE_SIZE {
        return None;
    }
    Some(name_of(payload))
}

/// The length of the payload of a namespace request.
#[tactic(auto, using(crate::proofs::Forms::PayloadSizes::request_sized))]
pub fn request_size(name: &Namespace) -> u32
    ensures { IsSize false (request_payload name.now) (Some result) }
{
    namespace_law(name);
    NAMESPACE_SIZE as u32
}

/// Appends the payload of a sample request.
pub fn put_sample(out: &mut Vec<u8>, cell: Cell, axis: Axis)
    requires capacity { HasCapacity out.old (length (sample_payload cell axis)) }
    ensures appended { out.new.items ≡ out.old.items ++ sample_payload cell axis }
{
    append_text(out, &cell);
    append(out, &[axis_byte(axis)]);
}
