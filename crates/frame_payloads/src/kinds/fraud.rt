//! The payload of a fraud claim: judged where it lies, then read; and written. A claim without a set has
//! form 1, and one with a set form 2.

ghost use Rattle.std.specs.Prelude.{◌≡◌, ◌≤◌, ◌∷◌, length, map, None, Some, IfSome, MatchOption, ◌+◌, ◌++◌, ◌↔◌, IsSome, IsTrue, false};
ghost use Rattle.namespace_id.specs.Answers.{HasCapacity};
ghost use Rattle.axis_roots.specs.Proved.{kept_message};
ghost use Rattle.frame_fields.specs.Fields.{read_items};
ghost use Rattle.frame_payloads.specs.Payloads.{GivesUnlessFull, IsSize, Puts};
ghost use Rattle.std.specs.Int.{w16};
ghost use Rattle.frame_payloads.specs.codec.Texts.{list_bytes};
ghost use Rattle.frame_fields.specs.Messages.{message_front};
ghost use Rattle.frame_payloads.specs.kinds.Message.{message_payload};
ghost use Rattle.frame_payloads.specs.kinds.Fraud.{plain_form, accused_bytes, is_unwritten, fraud_payload, claim_cells_at, plain_at, fraud_at};

use crate::bounds::proof_law;
use crate::codec::items::{Item, after_list16, list16};
use crate::codec::outs::{Full, Out};
use crate::codec::writing::{Text, append_text, put_list16, size_of};
use crate::kinds::accused::{MOST_CELLS, accused_at, put_accused};
use crate::kinds::fraud_set::{fits_form, put_with_set, set_fields, with_set};
use axis_roots::{FraudClaim, FraudProof, Message, Proved};
use frame_fields::message_front;
use namespace_id::{Axis, NoMemory};
use std::alloc::{AllocError, Global};

/// The form of a claim without a set, the byte in front of it.
const FORM: u8 = 1;

impl Item for Message {
    ghost at = { message_front };

    fn after(bytes: &[u8]) -> Option<&[u8]> {
        let (_message, rest) = message_front(bytes)?;
        Some(rest)
    }

    fn read(_alloc: Global, bytes: &[u8]) -> Result<(Message, &[u8]), AllocError> {
        Ok(message_front(bytes).unwrap())
    }
}

/// The axis that a claim without a set accuses, its index, and the bytes of its cells from their count
/// on, of which all are there. It takes no memory.
#[tactic(auto, unfolding(crate::specs::kinds::Fraud::plain_at))]
pub(crate) fn plain_parts(payload: &[u8]) -> Option<(Axis, u16, &[u8])>
    ensures parts { MatchOption result (plain_at payload.now ≡ None)
        (λ x. plain_at payload.now ≡ Some (record {
          axis = x.0;
          index = x.1;
          cells = read_items (claim_cells_at x.2.now);
          set = None;
        })) }
    ensures cells { IfSome result (λ x. IsSome (claim_cells_at x.2.now)) }
{
    let (axis, index, cells) = accused_at(FORM, payload)?;
    let rest = after_list16::<Message>(cells, MOST_CELLS)?;
    if !rest.is_empty() {
        return None;
    }
    Some((axis, index, cells))
}

/// Whether the bytes are the payload of a fraud claim, of one form or the other. It takes no memory.
pub fn is_fraud(payload: &[u8]) -> bool
    ensures { IsTrue result ↔ IsSome (fraud_at payload.now) }
{
    plain_parts(payload).is_some() || set_fields(payload).is_some()
}

/// The claim without a set whose payload the bytes are. No memory is taken before they are known to be
/// one.
fn plain(alloc: Global, payload: &[u8]) -> Result<Option<FraudClaim>, AllocError>
    ensures { GivesUnlessFull result (plain_at payload.now) }
{
    let Some((axis, index, bytes)) = plain_parts(payload) else {
        return Ok(None);
    };
    let cells = list16::<Message>(alloc, bytes, MOST_CELLS)?;
    Ok(Some(FraudClaim {
        axis,
        index,
        cells,
        set: None,
    }))
}

/// The fraud claim whose payload the bytes are. No memory is taken before they are known to be one.
pub fn fraud(alloc: Global, payload: &[u8]) -> Result<Option<FraudClaim>, AllocError>
    ensures { GivesUnlessFull result (fraud_at payload.now) }
{
    // The form is the first byte, so the payload of a claim of one form is at once none of the other.
    match plain(alloc, payload)? {
        Some(claim) => Ok(Some(claim)),
        None => with_set(alloc, payload),
    }
}

/// The fraud claim whose payload the bytes are; none where they aren't one. Out of memory comes in place of a
/// claim alone.
///
/// docs/FORMATS.md, "Payloads".
pub fn claim(alloc: Global, payload: &[u8]) -> Result<Option<FraudClaim>, NoMemory>
    ensures { GivesUnlessFull result (fraud_at payload.now) }
{
    match fraud(alloc, payload) {
        Ok(claim) => Ok(claim),
        Err(_) => Err(NoMemory),
    }
}

/// Whether a claim has no spelling: its cells don't fit its set, or it has more cells than can be
/// written.
fn is_unwritten(claim: &FraudClaim) -> bool
    ensures { result ≡ is_unwritten claim.now }
{
    !fits_form(claim) || claim.cells.len() > MOST_CELLS as usize
}

/// Puts the payload of a claim without a set: the axis that it accuses, and cells that are written as
/// samples.
fn put_plain<T: Text, O: Out>(out: &mut O, axis: Axis, index: u16, cells: &[T]) -> Result<(), Full>
    ensures { Puts O.byte O.held O.taken O.limit out.old out.new
        (plain_form ∷ accused_bytes axis index ++ list_bytes w16 T.text cells.now) result }
{
    put_accused(out, FORM, axis, index)?;
    put_list16(out, cells)
}

impl Text for FraudClaim {
    ghost text = { fraud_payload };

    fn put<O: Out>(&self, out: &mut O) -> Result<(), Full> {
        match &self.set {
            Some(set) => put_with_set(out, self, set),
            None => put_plain(out, self.axis, self.index, &self.cells),
        }
    }
}

/// A certificate is written as the sample that it keeps.
impl Text for Proved {
    ghost text = { λ proved. message_payload (kept_message proved) };

    fn put<O: Out>(&self, out: &mut O) -> Result<(), Full> {
        self.message().put(out)
    }
}

/// A fraud proof is written as its claim.
impl Text for FraudProof {
    ghost text = { λ proof. fraud_payload proof.claim };

    fn put<O: Out>(&self, out: &mut O) -> Result<(), Full> {
        proof_law(self);
        put_plain(out, self.axis, self.index, &self.cells)
    }
}

/// The length of the payload of a fraud claim, none where it can't be written.
pub fn fraud_size(claim: &FraudClaim) -> Option<u32>
    ensures { IsSize (is_unwritten claim.now) (fraud_payload claim.now) result }
{
    if is_unwritten(claim) {
        return None;
    }
    size_of(claim)
}

/// The length of the payload of a fraud proof's claim.
#[tactic(auto, using(crate::proofs::Forms::FraudSizes::within_told, crate::proofs::Forms::FraudSizes::fraud_few, crate::proofs::Forms::FraudSizes::fraud_sized))]
pub fn proof_size(proof: &FraudProof) -> u32
    ensures { IsSize (is_unwritten proof.now.claim) (fraud_payload proof.now.claim)
        (Some result) }
{
    proof_law(proof);
    size_of(proof).unwrap()
}

/// Appends the payload of a fraud claim.
pub fn put_fraud(out: &mut Vec<u8>, claim: &FraudClaim)
    requires short { is_unwritten claim.now ≡ false }
    requires capacity { HasCapacity out.old (length (fraud_payload claim.now)) }
    ensures appended { out.new.items ≡ out.old.items ++ fraud_payload claim.now }
{
    append_text(out, claim);
}

/// Appends the payload of a fraud proof's claim.
pub fn put_proof(out: &mut Vec<u8>, proof: &FraudProof)
    requires capacity { HasCapacity out.old (length (fraud_payload proof.now.claim)) }
    ensures appended { out.new.items ≡ out.old.items ++ fraud_payload proof.now.claim }
{
    append_text(out, proof);
}
