//! The items among frames.

ghost use Rattle.std.specs.Prelude.{◌≡◌, ◌<◌, List, length, slice_get, Some, IfOk};
ghost use Rattle.da_net.specs.declared.items.Item.{Item as Put};
ghost use Rattle.da_wire.specs.Reading.{raw_seen};
ghost use Rattle.da_wire.specs.Frames.{frames_of};
ghost use Rattle.da_script.specs.Plays.{frame_item, items_in, item_sizes, event_of};
ghost use Rattle.da_script.specs.Parts.{AreFramesOf, IsPuttable, payload_sizes};

use crate::reading::Move;
use da_net::{Item, NetEvent};
use da_wire::{RawFrame, claim, next_frame};
use frame_fields::message;
use namespace_id::NoMemory;
use std::alloc::Global;

/// The item that a frame is; none where it is neither a sample nor a claim.
fn item_in(alloc: Global, frame: RawFrame<'_>) -> Result<Option<Item>, NoMemory>
    ensures { IfOk result (λ found. found ≡ frame_item (raw_seen frame.entry)) }
{
    match frame.kind {
        b'M' => Ok(message(frame.payload).map(Item::Message)),
        b'B' => Ok(claim(alloc, frame.payload)?.map(Item::Claim)),
        _ => Ok(None),
    }
}

/// The frames that are items, in their order.
pub(crate) fn items_in<'a>(alloc: Global, messages: &'a [u8]) -> Result<Vec<RawFrame<'a>>, NoMemory>
    ensures items { IfOk result (λ frames.
        AreFramesOf frames.items (items_in (frames_of messages.now))) }
    ensures sizes { IfOk result (λ frames.
        payload_sizes frames.items ≡ item_sizes (frames_of messages.now)) }
{
    let mut frames = Vec::new(alloc);
    let mut rest = messages;
    while let Some((frame, after)) = next_frame(rest) {
        if item_in(alloc, frame)?.is_some() {
            let Ok(()) = frames.push(frame) else {
                return Err(NoMemory);
            };
        }
        rest = after;
    }
    Ok(frames)
}

/// The item that a frame is which is one.
fn item_at(alloc: Global, frames: &[RawFrame<'_>], place: u32) -> Result<Item, NoMemory>
    requires items { (items : List Put) × AreFramesOf frames.now items }
    requires place { place < length frames.now }
    ensures { (items : List Put) → AreFramesOf frames.now items →
        IfOk result (λ one. slice_get items place ≡ Some one) }
{
    match item_in(alloc, frames[place as usize])? {
        Some(item) => Ok(item),
        None => unreachable!(),
    }
}

/// The event of a network that an event of a script is.
pub(crate) fn event_of(
    alloc: Global,
    frames: &[RawFrame<'_>],
    one: Move,
) -> Result<NetEvent, NoMemory>
    requires items { (items : List Put) × AreFramesOf frames.now items }
    requires put { IsPuttable (length frames.now) one }
    ensures { (items : List Put) → AreFramesOf frames.now items →
        IfOk result (λ given. event_of items one ≡ Some given) }
{
    match one {
        Move::Put(place) => Ok(NetEvent::Put(item_at(alloc, frames, place)?)),
        Move::Hand { item, node } => Ok(NetEvent::Hand { item, node }),
        Move::Publish(node) => Ok(NetEvent::Publish { node }),
    }
}
