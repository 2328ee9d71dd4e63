//! What a frame is to an attender.

ghost use Rattle.std.specs.Prelude.{◌≡◌, IfOk};
ghost use Rattle.std.specs.Option.{option_map};
ghost use Rattle.frame_payloads.specs.Payloads.{max_payload};
ghost use Rattle.da_wire.specs.Reading.{Raw, raw_seen};
ghost use Rattle.da_talk.specs.Handed.{if_within};
ghost use Rattle.da_attending.specs.Attended.{item_in};
ghost use Rattle.da_attending.specs.Attenders.{item_handed, header_item, answer_item};

use axis_roots::NsAnswer;
use da_wire::RawFrame;
use data_header::Header;
use frame_payloads::{header, names};
use namespace_id::{Namespace, NoMemory};
use std::alloc::Global;

/// A header, or an answer with the namespace that it is for.
#[derive(Drop)]
pub(crate) enum Handed {
    Header(Header),
    Answer(Namespace, NsAnswer),
}

/// The header of the grammar that a frame is.
fn header_in(alloc: Global, payload: &[u8]) -> Result<Option<Handed>, NoMemory>
    ensures { IfOk result (λ found. option_map item_handed found ≡ header_item payload.now) }
{
    match header(alloc, payload) {
        Ok(Some(header)) => Ok(Some(Handed::Header(header))),
        Ok(None) => Ok(None),
        Err(_) => Err(NoMemory),
    }
}

/// The namespace answer of the grammar that a frame is.
fn answer_in(alloc: Global, payload: &[u8]) -> Result<Option<Handed>, NoMemory>
    ensures { IfOk result (λ found. option_map item_handed found ≡ answer_item payload.now) }
{
    match names(alloc, payload) {
        Ok(Some((name, answer))) => Ok(Some(Handed::Answer(name, answer))),
        Ok(None) => Ok(None),
        Err(_) => Err(NoMemory),
    }
}

/// The header or the answer of the grammar that a frame is. One whose payload is above the limit is none.
pub(crate) fn item_in(
    alloc: Global,
    frame: Option<RawFrame<'_>>,
) -> Result<Option<Handed>, NoMemory>
    ensures { IfOk result (λ found. (raw : Raw) →
        option_map (λ f. raw_seen f) frame.entry ≡ if_within max_payload raw →
        option_map item_handed found ≡ item_in raw) }
{
    let Some(frame) = frame else {
        return Ok(None);
    };
    match frame.kind {
        b'H' => header_in(alloc, frame.payload),
        b'N' => answer_in(alloc, frame.payload),
        _ => Ok(None),
    }
}
