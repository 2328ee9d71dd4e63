//! The payload of an original square.

ghost use Rattle.std.specs.Prelude.{◌≡◌, ◌*◌, length, vec_len, None, Some, IfOk, IfSome, IsTrue, MatchOption, ◌+◌, ◌++◌, ◌↔◌, IsSome, false};
ghost use Rattle.namespace_id.specs.Cells.{is_width};
ghost use Rattle.namespace_id.specs.Answers.{HasCapacity};
ghost use Rattle.frame_fields.specs.Fields.{shares_of};
ghost use Rattle.frame_payloads.specs.kinds.Square.{square_at, square_payload};
ghost use Rattle.frame_payloads.specs.Payloads.{GivesUnlessFull, IsSize};

use crate::bounds::square_law;
use crate::codec::sizes::{SHARE_SIZE, WIDTH_SIZE};
use crate::codec::writing::append_all;
use frame_fields::{shares_of, u16_at};
use namespace_id::{append, is_width};
use square_layout::Square;
use std::alloc::{AllocError, Global};

/// The width of a square, and the bytes of its shares, of which all are there.
#[tactic(auto, unfolding(crate::specs::kinds::Square::square_at))]
fn square_parts(payload: &[u8]) -> Option<(u16, &[u8])>
    ensures parts { MatchOption result (square_at payload.now ≡ None)
        (λ x. square_at payload.now ≡
        Some (record { k = x.0; shares = shares_of (x.0 * x.0) x.1.now })) }
    ensures width { IfSome result (λ x. IsTrue (is_width x.0)) }
    ensures all { IfSome result (λ x. length x.1.now ≡ 512 * (x.0 * x.0)) }
{
    let (k, shares) = u16_at(payload)?;
    if !is_width(k) || shares.len() != SHARE_SIZE * (k as usize * k as usize) {
        return None;
    }
    Some((k, shares))
}

/// Whether the bytes are the payload of a square. It takes no memory.
pub fn is_square(payload: &[u8]) -> bool
    ensures { IsTrue result ↔ IsSome (square_at payload.now) }
{
    square_parts(payload).is_some()
}

/// The square whose payload the bytes are. No memory is taken before they are known to be one.
pub fn square(alloc: Global, payload: &[u8]) -> Result<Option<Square>, AllocError>
    ensures { GivesUnlessFull result (square_at payload.now) }
{
    let Some((k, bytes)) = square_parts(payload) else {
        return Ok(None);
    };
    let shares = shares_of(alloc, k as usize * k as usize, bytes)?;
    Ok(Some(Square { k, shares }))
}

/// The length of the payload of a square.
#[tactic(auto, using(crate::proofs::Forms::PayloadSizes::square_sized))]
pub fn square_size(square: &Square) -> u32
    ensures { IsSize false (square_payload square.now) (Some result) }
{
    square_law(square);
    WIDTH_SIZE + SHARE_SIZE as u32 * (u32::from(square.k) * u32::from(square.k))
}

/// Appends the payload of a square.
pub fn put_square(out: &mut Vec<u8>, square: &Square)
    requires capacity { HasCapacity out.old (length (square_payload square.now)) }
    ensures appended { out.new.items ≡ out.old.items ++ square_payload square.now }
{
    append(out, &square.k.to_be_bytes());
    append_all(out, &square.shares);
}
