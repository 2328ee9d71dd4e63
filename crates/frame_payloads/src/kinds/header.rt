//! The payload of a header.

ghost use Rattle.std.specs.Prelude.{◌≡◌, ◌*◌, length, None, Some, IfOk, IfSome, IsTrue, MatchOption, ◌+◌, ◌++◌, ◌↔◌, IsSome, false};
ghost use Rattle.namespace_id.specs.Cells.{is_width};
ghost use Rattle.namespace_id.specs.Answers.{HasCapacity};
ghost use Rattle.frame_payloads.specs.kinds.Header.{roots_of, header_at, header_payload};
ghost use Rattle.frame_payloads.specs.Payloads.{GivesUnlessFull, IsSize};

use crate::bounds::header_law;
use crate::codec::sizes::{DIGEST_SIZE, WIDTH_SIZE};
use crate::codec::writing::append_all;
use data_header::Header;
use frame_fields::{digests_of, u16_at};
use namespace_id::{append, is_width};
use std::alloc::{AllocError, Global};

/// The bytes of 2k roots, for each k.
const SIDE_SIZE: usize = 2 * DIGEST_SIZE;

/// The bytes of all roots, 4k of them, for each k.
const ROOTS_SIZE: usize = 2 * SIDE_SIZE;

/// The width of a header, and the bytes of its roots, of which all are there.
#[tactic(auto, unfolding(crate::specs::kinds::Header::header_at))]
fn header_parts(payload: &[u8]) -> Option<(u16, &[u8])>
    ensures parts { MatchOption result (header_at payload.now ≡ None)
        (λ x. header_at payload.now ≡ Some (roots_of x.0 x.1.now)) }
    ensures width { IfSome result (λ x. IsTrue (is_width x.0)) }
    ensures all { IfSome result (λ x. length x.1.now ≡ 360 * x.0) }
{
    let (k, roots) = u16_at(payload)?;
    if !is_width(k) || roots.len() != ROOTS_SIZE * k as usize {
        return None;
    }
    Some((k, roots))
}

/// Whether the bytes are the payload of a header. It takes no memory.
pub fn is_header(payload: &[u8]) -> bool
    ensures { IsTrue result ↔ IsSome (header_at payload.now) }
{
    header_parts(payload).is_some()
}

/// The header whose payload the bytes are. No memory is taken before they are known to be one.
pub fn header(alloc: Global, payload: &[u8]) -> Result<Option<Header>, AllocError>
    ensures { GivesUnlessFull result (header_at payload.now) }
{
    let Some((k, roots)) = header_parts(payload) else {
        return Ok(None);
    };
    let (rows, cols) = roots.split_at(SIDE_SIZE * k as usize);
    let rows = digests_of(alloc, 2 * k as usize, rows)?;
    let cols = digests_of(alloc, 2 * k as usize, cols)?;
    Ok(Some(Header { k, rows, cols }))
}

/// The length of the payload of a header.
#[tactic(auto, using(crate::proofs::Forms::PayloadSizes::header_sized))]
pub fn header_size(header: &Header) -> u32
    ensures { IsSize false (header_payload header.now) (Some result) }
{
    header_law(header);
    WIDTH_SIZE + ROOTS_SIZE as u32 * u32::from(header.k)
}

/// Appends the payload of a header.
pub fn put_header(out: &mut Vec<u8>, header: &Header)
    requires capacity { HasCapacity out.old (length (header_payload header.now)) }
    ensures appended { out.new.items ≡ out.old.items ++ header_payload header.now }
{
    append(out, &header.k.to_be_bytes());
    append_all(out, &header.rows);
    append_all(out, &header.cols);
}
