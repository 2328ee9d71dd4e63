//! The payload of a root proof. Nothing here takes memory.

ghost use Rattle.std.specs.Prelude.{◌≡◌, length, Some, ◌+◌, ◌++◌, false, None};
ghost use Rattle.namespace_id.specs.Answers.{HasCapacity};
ghost use Rattle.frame_payloads.specs.kinds.Rooted.{rooted_payload, rooted_at};
ghost use Rattle.frame_payloads.specs.Payloads.{IsSize};

use crate::codec::appending::put_short;
use crate::codec::sizes::{DIGEST_SIZE, HASH_SIZE, WIDTH_SIZE};
use crate::kinds::message::{BARE_SIZE as MESSAGE_SIZE, put_message};
use blob_commit::{RootedMessage, rooted_law};
use frame_fields::{digest_at, hashes_at, message_front, u16_at};
use namespace_id::append;

/// The bytes of a root proof whose sample has no nodes and that has no hashes: its width, its sample,
/// the root, and the count 0.
const BARE_SIZE: u32 = WIDTH_SIZE + MESSAGE_SIZE as u32 + DIGEST_SIZE as u32 + 1;

/// The root proof whose payload the bytes are.
#[tactic(auto, unfolding(crate::specs::kinds::Rooted::rooted_at))]
pub fn rooted(payload: &[u8]) -> Option<RootedMessage>
    ensures { result ≡ rooted_at payload.now }
{
    let Some((k, rest)) = u16_at(payload) else {
        return None;
    };
    let Some((message, rest)) = message_front(rest) else {
        return None;
    };
    let Some((root, rest)) = digest_at(rest) else {
        return None;
    };
    let Some((up, rest)) = hashes_at(rest) else {
        return None;
    };
    if !rest.is_empty() {
        return None;
    }
    Some(RootedMessage {
        k,
        message,
        root,
        up,
    })
}

/// The length of the payload of a root proof.
#[tactic(auto, using(crate::proofs::Forms::CommitSizes::rooted_sized))]
pub fn rooted_size(proof: &RootedMessage) -> u32
    ensures { IsSize false (rooted_payload proof.now) (Some result) }
{
    rooted_law(proof);
    let nodes = proof.message.path.nodes();
    let hashes = proof.up.hashes();
    BARE_SIZE + DIGEST_SIZE as u32 * nodes.len() as u32 + HASH_SIZE as u32 * hashes.len() as u32
}

/// Appends the payload of a root proof.
pub fn put_rooted(out: &mut Vec<u8>, proof: &RootedMessage)
    requires capacity { HasCapacity out.old (length (rooted_payload proof.now)) }
    ensures appended { out.new.items ≡ out.old.items ++ rooted_payload proof.now }
{
    append(out, &proof.k.to_be_bytes());
    put_message(out, &proof.message);
    append(out, &proof.root.0);
    put_short(out, proof.up.hashes()).unwrap();
}
