//! What a frame asks for.

ghost use Rattle.std.specs.Prelude.{◌≡◌};
ghost use Rattle.std.specs.Option.{option_map};
ghost use Rattle.namespace_id.specs.Sizes.{namespace_size};
ghost use Rattle.da_wire.specs.Reading.{Raw, raw_seen};
ghost use Rattle.da_talk.specs.Handed.{if_within};
ghost use Rattle.da_talk.specs.Replies.{asked_by};

use da_wire::RawFrame;
use frame_payloads::{request, sample};
use namespace_id::{Axis, Cell, Namespace};

/// What a frame asks for.
#[derive(Clone, Copy, Debug, PartialEq, Eq)]
pub enum Asked {
    /// The sample of a cell along an axis.
    Sample(Cell, Axis),
    /// The shares of a namespace.
    Names(Namespace),
    /// Nothing: it is no request in the grammar.
    Nothing,
}

/// What the frame of this kind and this payload asks for.
pub fn asks_for(kind: u8, payload: &[u8]) -> Asked
    ensures { result ≡ asked_by kind payload.now }
{
    match kind {
        b'Q' => match sample(payload) {
            Some((cell, axis)) => Asked::Sample(cell, axis),
            None => Asked::Nothing,
        },
        b'P' => match request(payload) {
            Some(name) => Asked::Names(name),
            None => Asked::Nothing,
        },
        _ => Asked::Nothing,
    }
}

/// What a frame asks for that is handed where its payload is no longer than that of a request for a namespace. A longer one
/// asks for nothing.
pub(crate) fn asked_in(frame: Option<RawFrame<'_>>) -> Asked
    ensures { (raw : Raw) → option_map (λ f. raw_seen f) frame.entry ≡ if_within namespace_size raw →
        result ≡ asked_by raw.kind raw.payload }
{
    match frame {
        Some(frame) => asks_for(frame.kind, frame.payload),
        None => Asked::Nothing,
    }
}
