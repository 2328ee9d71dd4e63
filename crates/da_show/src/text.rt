//! The text of frames.

ghost use Rattle.std.specs.Prelude.{◌≡◌, ◌++◌, Some, IfOk, OnOk};
ghost use Rattle.std.specs.String.{string_bytes};
ghost use Rattle.da_wire.specs.declared.frames.Frame.{Frame as FrameOf};
ghost use Rattle.da_wire.specs.Briefs.{brief_of};
ghost use Rattle.da_show.specs.Text.{joined, lines_of, brief_lines, shown_text};

mod kinds;
mod lines;
mod lists;

use da_wire::{Brief, Frame};
use namespace_id::NoMemory;
use std::alloc::{AllocError, Global};

/// Appends the text of a frame.
fn put_frame(alloc: Global, out: &mut String, frame: &Frame) -> Result<(), AllocError>
    ensures { OnOk result (string_bytes out.new
        ≡ string_bytes out.old ++ joined (lines_of frame.now)) }
{
    match frame {
        Frame::Header(header) => kinds::header(alloc, out, header),
        Frame::Square(square) => kinds::square(alloc, out, square),
        Frame::Message(message) => lines::put_message(alloc, out, message),
        Frame::Names(name, answer) => kinds::names(alloc, out, name, answer),
        Frame::Fraud(claim) => kinds::claim(alloc, out, claim),
        Frame::Missing(cells) => kinds::missing(out, cells),
        Frame::Clash(clash) => kinds::clash(alloc, out, clash),
        Frame::Sample(cell, axis) => lines::put_sample(out, *cell, *axis),
        Frame::Request(name) => lines::put_request(alloc, out, name),
        Frame::Block(block) => kinds::block(alloc, out, block),
        Frame::Commit(proof) => lines::put_commit(alloc, out, proof),
        Frame::Rooted(proof) => kinds::rooted(alloc, out, proof),
        Frame::Transactions(units) => kinds::transactions(out, units),
        Frame::Refusal(refusal) => lines::put_refusal(out, *refusal),
        Frame::State => lines::put_state(out),
    }
}

/// The lines of a frame, with a line feed between each two and none at the end: what it is and what
/// is in it, numbers in decimal and bytes in lower-case hexadecimal digits. Of the share in a
/// sample it shows the SHA-256 value.
///
/// It refuses only where there is no memory.
///
/// docs/FORMATS.md, "Text of frames".
pub fn show(alloc: Global, frame: &Frame) -> Result<String, NoMemory>
    ensures text { IfOk result (λ text. string_bytes text ≡ shown_text frame.now) }
{
    let mut out = String::new(alloc);
    match put_frame(alloc, &mut out, frame) {
        Ok(()) => Ok(out),
        Err(AllocError) => Err(NoMemory),
    }
}

/// Appends the text of a brief value.
fn put_lines(alloc: Global, out: &mut String, brief: &Brief) -> Result<(), AllocError>
    ensures { OnOk result (string_bytes out.new
        ≡ string_bytes out.old ++ joined (brief_lines brief.now)) }
{
    match brief {
        Brief::Names(name, found) => kinds::places(alloc, out, name, found),
        Brief::Fraud(claim) => kinds::claim(alloc, out, claim),
        Brief::Missing(cells) => kinds::missing(out, cells),
        Brief::Sample(cell, axis) => lines::put_sample(out, *cell, *axis),
        Brief::Request(name) => lines::put_request(alloc, out, name),
        Brief::Block(block) => kinds::block(alloc, out, block),
        Brief::Transactions(units) => kinds::transactions(out, units),
        Brief::Refusal(refusal) => lines::put_refusal(out, *refusal),
        Brief::State => lines::put_state(out),
    }
}

/// Appends what `show` gives for the value that this is brief of.
///
/// It refuses only where there is no memory.
///
/// docs/FORMATS.md, "Text of frames".
pub fn put_brief(alloc: Global, out: &mut String, brief: &Brief) -> Result<(), NoMemory>
    ensures lines { OnOk result (string_bytes out.new
        ≡ string_bytes out.old ++ joined (brief_lines brief.now)) }
    ensures text { (value : FrameOf) → brief_of value ≡ Some brief.now →
        OnOk result (string_bytes out.new ≡ string_bytes out.old ++ shown_text value) }
{
    match put_lines(alloc, out, brief) {
        Ok(()) => Ok(()),
        Err(AllocError) => Err(NoMemory),
    }
}
