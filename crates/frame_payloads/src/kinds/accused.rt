//! The front of a fraud claim's payload: its form, and the axis that it accuses.

ghost use Rattle.std.specs.Prelude.{◌∷◌};
ghost use Rattle.namespace_id.specs.Answers.{Gives};
ghost use Rattle.frame_payloads.specs.Payloads.{Puts};
ghost use Rattle.frame_payloads.specs.kinds.Fraud.{accused_bytes, accused_at};

use crate::codec::appending::axis_byte;
use crate::codec::outs::{Full, Out};
use frame_fields::{axis_at, u8_at, u16_at};
use namespace_id::{Axis, GREATEST_WIDTH};

/// The most cells of a claim, as many as recover an axis of the greatest square.
pub(crate) const MOST_CELLS: u16 = GREATEST_WIDTH;

/// The axis that a claim of this form accuses, its index, and the bytes after it.
#[tactic(auto, unfolding(crate::specs::kinds::Fraud::accused_at))]
pub(crate) fn accused_at(wanted: u8, bytes: &[u8]) -> Option<(Axis, u16, &[u8])>
    ensures { Gives (λ x. ((x.0, x.1), x.2.now)) result (accused_at wanted bytes.now) }
{
    let Some((form, rest)) = u8_at(bytes) else {
        return None;
    };
    if form != wanted {
        return None;
    }
    let Some((axis, rest)) = axis_at(rest) else {
        return None;
    };
    let Some((index, rest)) = u16_at(rest) else {
        return None;
    };
    Some((axis, index, rest))
}

/// Puts the form of a claim, and the axis that it accuses.
pub(crate) fn put_accused<O: Out>(out: &mut O, form: u8, axis: Axis, index: u16) -> Result<(), Full>
    ensures { Puts O.byte O.held O.taken O.limit out.old out.new (form ∷ accused_bytes axis index) result }
{
    out.put(&[form, axis_byte(axis)])?;
    out.put(&index.to_be_bytes())
}
