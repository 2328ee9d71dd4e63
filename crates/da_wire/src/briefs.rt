//! Values of the kinds whose frames may be short, as far as they are shown.
//!
//! An entry of a namespace answer may have eight bytes, and is a value of one and a half kilobytes; a `Frame` is one
//! as large, whatever its kind. What is shown of such frames is read here in as few bytes as it needs.

ghost use Rattle.std.specs.Prelude.{◌≡◌, ◌<◌, length, IfOk, OnErr, IfSome, IsSome};
ghost use Rattle.namespace_id.specs.Answers.{Gives};
ghost use Rattle.frame_payloads.specs.Payloads.{GivesUnlessFull};
ghost use Rattle.da_wire.specs.Briefs.{brief_of_kind, brief_at, brief_and_rest};

use crate::kinds::Kind;
use crate::reading::raw_among;
use axis_roots::FraudClaim;
use frame_payloads::{
    PlaceList, Refusal, UnitList, block, fraud, missing, places, refusal, request, sample, state,
    transactions,
};
use namespace_id::{Axis, Cell, Cells, Namespace};
use square_layout::Block;
use std::alloc::{AllocError, Global};

/// The kinds of the frames that may be short.
const KINDS: &[u8] = b"NBKQPVTEA";

/// The value of a frame that may be short. Of a namespace answer it has no shares, digests or nodes, but where its
/// entries found something.
#[derive(Drop)]
pub enum Brief {
    /// N: a namespace, and where something is found of it.
    Names(Namespace, PlaceList),
    /// B: a fraud claim.
    Fraud(FraudClaim),
    /// K: missing cells.
    Missing(Cells),
    /// Q: a request for the sample of a cell on an axis.
    Sample(Cell, Axis),
    /// P: a request for the shares of a namespace.
    Request(Namespace),
    /// V: a block.
    Block(Block),
    /// T: transactions.
    Transactions(UnitList),
    /// E: a refusal.
    Refusal(Refusal),
    /// A: a state.
    State,
}

/// The brief value of this kind whose payload the bytes are.
fn brief_of_kind(alloc: Global, kind: Kind, payload: &[u8]) -> Result<Option<Brief>, AllocError>
    ensures { GivesUnlessFull result (brief_of_kind kind payload.now) }
{
    match kind {
        Kind::Names => match places(alloc, payload)? {
            Some((name, found)) => Ok(Some(Brief::Names(name, found))),
            None => Ok(None),
        },
        Kind::Fraud => match fraud(alloc, payload)? {
            Some(claim) => Ok(Some(Brief::Fraud(claim))),
            None => Ok(None),
        },
        Kind::Missing => match missing(alloc, payload)? {
            Some(cells) => Ok(Some(Brief::Missing(cells))),
            None => Ok(None),
        },
        Kind::Sample => match sample(payload) {
            Some((cell, axis)) => Ok(Some(Brief::Sample(cell, axis))),
            None => Ok(None),
        },
        Kind::Request => match request(payload) {
            Some(name) => Ok(Some(Brief::Request(name))),
            None => Ok(None),
        },
        Kind::Block => match block(alloc, payload)? {
            Some(block) => Ok(Some(Brief::Block(block))),
            None => Ok(None),
        },
        Kind::Transactions => match transactions(alloc, payload)? {
            Some(units) => Ok(Some(Brief::Transactions(units))),
            None => Ok(None),
        },
        Kind::Refusal => match refusal(payload) {
            Some(refusal) => Ok(Some(Brief::Refusal(refusal))),
            None => Ok(None),
        },
        Kind::State => match state(payload) {
            Some(_) => Ok(Some(Brief::State)),
            None => Ok(None),
        },
        _ => Ok(None),
    }
}

/// The brief value of the kind that a byte is, whose payload the bytes are.
#[tactic(auto, unfolding(crate::specs::Briefs::brief_at))]
fn brief_at(alloc: Global, kind: u8, payload: &[u8]) -> Result<Option<Brief>, AllocError>
    ensures { GivesUnlessFull result (brief_at kind payload.now) }
{
    match Kind::of(kind) {
        Some(kind) => brief_of_kind(alloc, kind, payload),
        None => Ok(None),
    }
}

/// The brief value of the frame at the front of bytes, and the bytes after it; none where no frame of N, B,
/// K, Q, P, V, T, E or A in the grammar stands there. Out of memory comes in place of a value alone.
///
/// docs/FORMATS.md, "Lists of frames".
pub fn next_brief(alloc: Global, bytes: &[u8]) -> Result<Option<(Brief, &[u8])>, AllocError>
    ensures after { IfOk result (λ found.
        Gives (λ x. (x.0, x.1.now)) found (brief_and_rest bytes.now)) }
    ensures memory { OnErr result (IsSome (brief_and_rest bytes.now)) }
    ensures shorter { IfOk result (λ found.
        IfSome found (λ x. length x.1.now < length bytes.now)) }
{
    let Ok(frame) = raw_among(bytes, KINDS) else {
        return Ok(None);
    };
    match brief_at(alloc, frame.kind, frame.payload)? {
        Some(value) => Ok(Some((value, &bytes[frame.size as usize..]))),
        None => Ok(None),
    }
}
