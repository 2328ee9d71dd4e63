//! check HEADER MESSAGES: which samples of a list of frames are proved under a header.

ghost use Rattle.std.specs.Prelude.{◌≡◌, IfSome};
ghost use Rattle.da_wire.specs.Reading.{raw_seen};
ghost use Rattle.da_wire.specs.Frames.{frames_of};
ghost use Rattle.da_files.specs.Contents.{contents_of};
ghost use Rattle.da_judging.specs.Ahead.{IsLeafDigestOf};
ghost use Rattle.da_judging.specs.Check.{finding_of, line_of, is_ok, Lists, CheckOf};
ghost use Rattle.da_files.specs.Forms.{messages_judged};
ghost use Rattle.da_status.specs.Judging.{Judged};
ghost use Rattle.da_status.specs.Outcome.{EndsAtOnce};

use crate::ahead::next_leaf;
use axis_roots::{CheckRefusal, PartialTrees, opens_hashed_by};
use da_files::{header_and_messages, is_long};
use da_io::{LineRoom, Sink};
use da_status::Status;
use da_wire::{RawFrame, next_frame};
use data_header::Header;
use frame_fields::message;
use namespace_id::Digest;
use nmt_tree::LeafQueue;
use std::alloc::Global;

/// What `check` finds of a frame.
#[derive(Clone, Copy)]
pub enum Finding {
    /// It is a sample that is proved.
    Proved,
    /// It is no sample of the grammar.
    NoMessage,
    /// It is a sample that the first check which fails refuses.
    Refused(CheckRefusal),
}

/// What is found of a frame under a header, by the partial trees under it where there are some, and by the
/// digest of the leaf that the frame shows where it is known.
fn finding_of(
    header: &Header,
    trees: &mut Option<PartialTrees>,
    frame: RawFrame<'_>,
    leaf: Option<Digest>,
) -> Finding
    requires under { IfSome trees.old (λ kept. kept ≡ header.now) }
    requires leaf { IfSome leaf (λ digest. IsLeafDigestOf header.now.k digest (raw_seen frame)) }
    ensures value { result ≡ finding_of header.now (raw_seen frame.entry) }
    ensures kept { trees.new ≡ trees.old }
{
    if frame.kind != b'M' {
        return Finding::NoMessage;
    }
    let Some(message) = message(frame.payload) else {
        return Finding::NoMessage;
    };
    match opens_hashed_by(header, trees, &message, leaf) {
        Ok(()) => Finding::Proved,
        Err(why) => Finding::Refused(why),
    }
}

/// The line for what is found of a frame.
fn line_of(finding: Finding) -> &'static [u8]
    ensures { result.now ≡ line_of finding }
{
    match finding {
        Finding::Proved => b"ok\n",
        Finding::NoMessage => b"refused 0\n",
        Finding::Refused(CheckRefusal::OutOfSquare) => b"refused 1\n",
        Finding::Refused(CheckRefusal::NodeCount) => b"refused 2\n",
        Finding::Refused(CheckRefusal::Unordered) => b"refused 3\n",
        Finding::Refused(CheckRefusal::OtherRoot) => b"refused 4\n",
    }
}

fn is_ok(finding: Finding) -> bool
    ensures { result ≡ is_ok finding }
{
    matches!(finding, Finding::Proved)
}

/// Writes the line of each frame, as many at a time as the room holds. It takes no memory.
fn list<O: Sink>(
    header: &Header,
    trees: &mut Option<PartialTrees>,
    messages: &[u8],
    out: &mut O,
) -> Status
    requires under { IfSome trees.old (λ kept. kept ≡ header.now) }
    ensures { EndsAtOnce (Lists header.now (frames_of messages.now)) (O.taken out.old)
        (O.taken out.new) (O.faults out.old) (O.faults out.new) (out.new ≡ out.old) result }
{
    let mut room = LineRoom::new();
    let mut queue = LeafQueue::new();
    let mut rest = messages;
    let mut all_ok = true;
    while let Some((frame, after)) = next_frame(rest) {
        let leaf = next_leaf(trees, &mut queue, header.k, rest);
        let finding = finding_of(header, trees, frame, leaf);
        let Ok(()) = room.add(line_of(finding), out) else {
            return Status::WriteFault;
        };
        all_ok &= is_ok(finding);
        rest = after;
    }
    match room.flush(out) {
        Ok(()) if all_ok => Status::Done,
        Ok(()) => Status::Refused,
        Err(_) => Status::WriteFault,
    }
}

/// Answers to the samples in MESSAGES under the header in HEADER. All memory is taken before the first
/// write.
#[tactic(auto, using(da_files::proofs::FormLemmas::refused_once))]
pub fn execute<O: Sink>(alloc: Global, files: &[Vec<u8>], out: &mut O) -> Status
    ensures { EndsAtOnce (Judged (messages_judged (contents_of files.now))
        (CheckOf (contents_of files.now))) (O.taken out.old) (O.taken out.new) (O.faults out.old)
        (O.faults out.new) (out.new ≡ out.old) result }
{
    let (header, messages) = match header_and_messages(alloc, files) {
        Ok(read) => read,
        Err(status) => return status,
    };
    let mut trees = None;
    if is_long(&header, messages) {
        let Ok(kept) = PartialTrees::new(alloc, &header) else {
            return Status::NoMemory;
        };
        trees = Some(kept);
    }
    list(&header, &mut trees, messages, out)
}
