//! What is told of the answers of a repair.

ghost use Rattle.std.specs.Prelude.{◌≡◌, ◌↔◌, IsTrue, IfOk, map, option_map};
ghost use Rattle.axis_roots.specs.Proved.{kept_message};
ghost use Rattle.repair_queue.specs.Verdicts.{VerdictParts};
ghost use Rattle.repair_queue.specs.Answers.{verdict_parts};
ghost use Rattle.da_demo.specs.Trials.{IsOutcome, IsUpheld};
ghost use Rattle.da_demo.specs.Steps.{verdict_claim};

use crate::{Outcome, Upheld};
use axis_roots::{FraudClaim, FraudProof, Message, Proved};
use befp_verify::{VerifyRoom, verify};
use data_header::Header;
use namespace_id::{NoMemory, cells_laws};
use repair_queue::Verdict;
use square_layout::Square;
use std::alloc::Global;

/// Whether two squares are one.
fn is_same(one: &Square, other: &Square) -> bool
    ensures { IsTrue result ↔ (one.now ≡ other.now) }
{
    one.k == other.k && one.shares == other.shares
}

/// Takes the answer of a repair apart: what is told of it where this square was laid out, and its
/// fraud proof, where it has one.
pub(crate) fn tell(verdict: Verdict, square: &Square) -> (Outcome, Option<FraudProof>)
    ensures outcome { IsOutcome square.now (verdict_parts verdict) result.0 }
    ensures proof { verdict_claim (verdict_parts verdict) ≡ option_map (λ proof. proof.claim) result.1 }
{
    cells_laws();
    match verdict {
        Verdict::Whole(other) if is_same(&other, square) => (Outcome::Whole, None),
        Verdict::Whole(_) => (Outcome::Other, None),
        Verdict::Fraud(proof) => (Outcome::Fraud(proof.axis, proof.index), Some(proof)),
        Verdict::Missing(cells) => (Outcome::Missing(cells.list.len() as u32), None),
        Verdict::Clash(_) => (Outcome::Clash, None),
    }
}

/// The samples of certificates.
fn messages_of(alloc: Global, cells: Vec<Proved>) -> Result<Vec<Message>, NoMemory>
    ensures { IfOk result (λ messages. messages.items ≡ map kept_message cells.items) }
{
    let Ok(mut messages) = Vec::with_capacity(alloc, cells.len()) else {
        return Err(NoMemory);
    };
    for proved in cells {
        let Ok(()) = messages.push(proved.into_message()) else {
            return Err(NoMemory);
        };
    }
    Ok(messages)
}

/// The claim of a fraud proof.
fn claim_of(alloc: Global, proof: FraudProof) -> Result<FraudClaim, NoMemory>
    ensures { IfOk result (λ claim. claim ≡ proof.claim) }
{
    Ok(FraudClaim {
        axis: proof.axis,
        index: proof.index,
        cells: messages_of(alloc, proof.cells)?,
        set: None,
    })
}

/// Whether the claim is accepted that an answer's fraud proof makes, where it has one.
pub(crate) fn judge(
    alloc: Global,
    header: &Header,
    proof: Option<FraudProof>,
) -> Result<Upheld, NoMemory>
    ensures { (verdict : VerdictParts) →
        verdict_claim verdict ≡ option_map (λ proof. proof.claim) proof →
        IfOk result (IsUpheld header.now verdict) }
{
    let Some(proof) = proof else {
        return Ok(Upheld::None);
    };
    let claim = claim_of(alloc, proof)?;
    let mut room = VerifyRoom::new(alloc, header.k)?;
    match verify(&mut room, header, claim) {
        Ok(upheld) => {
            let _claim = upheld.into_claim();
            Ok(Upheld::Yes)
        }
        Err(_) => Ok(Upheld::No),
    }
}
