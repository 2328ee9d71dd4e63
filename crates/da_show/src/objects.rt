//! The JSON of frames.

ghost use Rattle.std.specs.Prelude.{◌≡◌, ◌++◌, Some, IfOk, OnOk};
ghost use Rattle.std.specs.String.{string_bytes};
ghost use Rattle.da_wire.specs.declared.frames.Frame.{Frame as FrameOf};
ghost use Rattle.da_wire.specs.Briefs.{brief_of};
ghost use Rattle.da_show.specs.Json.{json_text};
ghost use Rattle.da_show.specs.JsonTexts.{frame_text, brief_json};

mod kinds;
mod lists;
mod parts;

use da_wire::{Brief, Frame};
use namespace_id::NoMemory;
use std::alloc::{AllocError, Global};

/// Appends the text of a frame's object.
fn put_object(alloc: Global, out: &mut String, frame: &Frame) -> Result<(), AllocError>
    ensures { OnOk result (string_bytes out.new ≡ string_bytes out.old ++ frame_text frame.now) }
{
    match frame {
        Frame::Header(header) => kinds::put_header(alloc, out, header),
        Frame::Square(square) => kinds::put_square(alloc, out, square),
        Frame::Message(message) => kinds::put_message(alloc, out, message),
        Frame::Names(name, answer) => kinds::put_names(alloc, out, name, &answer.entries),
        Frame::Fraud(claim) => kinds::put_claim(out, claim.axis, &claim.cells, claim.index),
        Frame::Missing(cells) => kinds::put_missing(out, &cells.list, cells.k),
        Frame::Clash(clash) => {
            kinds::put_clash(alloc, out, clash.left().bytes(), clash.right().bytes())
        }
        Frame::Sample(cell, axis) => kinds::put_sample(out, *cell, *axis),
        Frame::Request(name) => kinds::put_request(alloc, out, name),
        Frame::Block(block) => kinds::put_block(alloc, out, block),
        Frame::Commit(proof) => kinds::put_commit(alloc, out, proof),
        Frame::Rooted(proof) => kinds::put_rooted(alloc, out, proof),
        Frame::Transactions(units) => kinds::put_transactions(out, &units.list),
        Frame::Refusal(refusal) => kinds::put_refusal(out, *refusal),
        Frame::State => kinds::put_state(out),
    }
}

/// A frame as one JSON object on one line, without spaces and with its keys in ascending order of
/// bytes.
///
/// It refuses only where there is no memory.
///
/// docs/FORMATS.md, "JSON of frames".
pub fn show_json(alloc: Global, frame: &Frame) -> Result<String, NoMemory>
    ensures text { IfOk result (λ text. string_bytes text ≡ json_text frame.now) }
{
    let mut out = String::new(alloc);
    match put_object(alloc, &mut out, frame) {
        Ok(()) => Ok(out),
        Err(AllocError) => Err(NoMemory),
    }
}

/// Appends the text of the object of a brief value.
fn put_brief_object(alloc: Global, out: &mut String, brief: &Brief) -> Result<(), AllocError>
    ensures { OnOk result (string_bytes out.new ≡ string_bytes out.old ++ brief_json brief.now) }
{
    match brief {
        Brief::Names(name, found) => kinds::put_names_at(alloc, out, name, &found.list),
        Brief::Fraud(claim) => kinds::put_claim(out, claim.axis, &claim.cells, claim.index),
        Brief::Missing(cells) => kinds::put_missing(out, &cells.list, cells.k),
        Brief::Sample(cell, axis) => kinds::put_sample(out, *cell, *axis),
        Brief::Request(name) => kinds::put_request(alloc, out, name),
        Brief::Block(block) => kinds::put_block(alloc, out, block),
        Brief::Transactions(units) => kinds::put_transactions(out, &units.list),
        Brief::Refusal(refusal) => kinds::put_refusal(out, *refusal),
        Brief::State => kinds::put_state(out),
    }
}

/// Appends what `show_json` gives for the value that this is brief of.
///
/// It refuses only where there is no memory.
///
/// docs/FORMATS.md, "JSON of frames".
pub fn put_brief_json(alloc: Global, out: &mut String, brief: &Brief) -> Result<(), NoMemory>
    ensures object { OnOk result (string_bytes out.new ≡ string_bytes out.old ++ brief_json brief.now) }
    ensures text { (value : FrameOf) → brief_of value ≡ Some brief.now →
        OnOk result (string_bytes out.new ≡ string_bytes out.old ++ json_text value) }
{
    match put_brief_object(alloc, out, brief) {
        Ok(()) => Ok(()),
        Err(AllocError) => Err(NoMemory),
    }
}
