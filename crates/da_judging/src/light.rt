//! light HEADER MESSAGES KEY COUNT: the verdict of a light node that drew its cells by a key, which is a word or
//! stands in a file.

ghost use Rattle.std.specs.Prelude.{◌≡◌, ◌≢◌, ◌<◌, ◌^◌, List, [], IfOk, IsSome, OnOk, Some, length, slice_get, true, false};
ghost use Rattle.std.specs.List.{list_all};
ghost use Rattle.namespace_id.specs.declared.cells.Cell.{Cell as Place};
ghost use Rattle.namespace_id.specs.Cells.{is_in_square};
ghost use Rattle.light_node.specs.declared.events.Light.TheVariants as verdict;
ghost use Rattle.light_node.specs.Events.{IsLight};
ghost use Rattle.light_node.specs.Nodes.{NodeStands, IsSameNode};
ghost use Rattle.light_node.specs.Plans.{PicksInside, IsPlanOf};
ghost use Rattle.da_wire.specs.declared.frames.Frame.TheVariants as FrameOf;
ghost use Rattle.frame_payloads.specs.kinds.Fraud.{is_unwritten};
ghost use Rattle.da_wire.specs.Reading.{raw_seen};
ghost use Rattle.da_wire.specs.Spelling.{spelling};
ghost use Rattle.da_wire.specs.Frames.{frames_of};
ghost use Rattle.da_files.specs.Contents.{contents_of};
ghost use Rattle.da_judging.specs.Light.{event_in, events_in, GivesLight, HasOutput, Lights, LightOf, light_by_judged, LightByOf};
ghost use Rattle.da_files.specs.Forms.{messages_judged};
ghost use Rattle.da_status.specs.Judging.{Judged};
ghost use Rattle.da_status.specs.Outcome.{EndsAtOnce};

use crate::keys::read_key;
use befp_verify::Upheld;
use da_files::{claim_frame, file, give_with, header_and_messages, is_long, missing_frame, put};
use da_io::Sink;
use da_status::{Asked, Status};
use da_wire::{RawFrame, claim, next_frame};
use data_header::Header;
use frame_fields::message;
use light_node::{Event, Light, LightNode, Picker};
use namespace_id::{Cell, CellRoom, Cells, NoMemory};
use sampling::{DrawError, cells};
use std::alloc::Global;

/// The place of the file of the key among the words that name files.
const KEY: u32 = 2;

/// The sample or the claim that a frame is; none where it is neither.
fn event_in(alloc: Global, frame: RawFrame<'_>) -> Result<Option<Event>, NoMemory>
    ensures { IfOk result (λ found. found ≡ event_in (raw_seen frame.entry)) }
{
    match frame.kind {
        b'M' => Ok(message(frame.payload).map(Event::Sample)),
        b'B' => Ok(claim(alloc, frame.payload)?.map(Event::Claim)),
        _ => Ok(None),
    }
}

/// Hands a node the samples and claims among frames, in their order.
fn hand_over<F: Picker>(
    alloc: Global,
    messages: &[u8],
    node: &mut LightNode<F>,
) -> Result<(), NoMemory>
    ensures stands { OnOk result ((plan : List Place) → NodeStands F.picks node.old plan [] →
        NodeStands F.picks node.new plan (events_in (frames_of messages.now))) }
    ensures kept { OnOk result (IsSameNode node.old node.new) }
{
    let mut rest = messages;
    while let Some((frame, after)) = next_frame(rest) {
        if let Some(event) = event_in(alloc, frame)? {
            let _state = node.event(event);
        }
        rest = after;
    }
    Ok(())
}

/// Has a node keep what samples show, where many come.
fn remember_many<F: Picker>(
    alloc: Global,
    header: &Header,
    messages: &[u8],
    node: &mut LightNode<F>,
) -> Result<(), NoMemory>
    ensures { node.new ≡ node.old }
{
    if is_long(header, messages) {
        node.remember(alloc)?;
    }
    Ok(())
}

/// The verdict under a header on samples, where the picker's cells for the first `count` numbers are
/// planned.
fn judge<F: Picker>(
    alloc: Global,
    header: &Header,
    messages: &[u8],
    count: u32,
    pick: F,
) -> Result<Light, NoMemory>
    requires { PicksInside F.can_pick F.picks pick count header.now.k }
    ensures { IfOk result (λ light. (plan : List Place) × (length plan ≡ count)
        × IsPlanOf F.picks pick plan
        × IsLight header.now plan (events_in (frames_of messages.now)) light) }
{
    let room = CellRoom::new(alloc, header.k)?;
    let mut node = LightNode::new(alloc, header, count, pick)?;
    node.more(count)?;
    remember_many(alloc, header, messages, &mut node)?;
    hand_over(alloc, messages, &mut node)?;
    Ok(node.finish(room))
}

/// The verdict under a header on samples, where these cells are planned.
pub fn verdict(
    alloc: Global,
    header: &Header,
    messages: &[u8],
    planned: &[Cell],
) -> Result<Light, NoMemory>
    requires few { length planned.now < 2 ^ 32 }
    requires inside { list_all (is_in_square header.now.k) planned.now ≡ true }
    ensures { IfOk result
        (IsLight header.now planned.now (events_in (frames_of messages.now))) }
{
    let count = planned.len() as u32;
    judge(
        alloc,
        header,
        messages,
        count,
        |number|
            requires { number < length planned.now }
            ensures { slice_get planned.entry.now number ≡ Some result }
        { planned[number as usize] },
    )
}

/// Writes a claim that was accepted.
fn give_claim<O: Sink>(alloc: Global, upheld: Upheld, out: &mut O) -> Status
    requires { is_unwritten upheld ≡ false }
    ensures { EndsAtOnce (GivesLight (verdict.Rejected upheld)) (O.taken out.old) (O.taken out.new)
        (O.faults out.old) (O.faults out.new) (out.new ≡ out.old) result }
{
    let claim = upheld.claim();
    let status = Status::Fraud(claim.axis, claim.index);
    give_with(
        claim_frame(upheld.into_claim()),
        status,
        &mut Vec::new(alloc),
        out,
    )
}

/// Writes the cells that are waited for.
fn give_waiting<O: Sink>(alloc: Global, cells: Cells, out: &mut O) -> Status
    requires { cells.list ≢ [] }
    ensures { EndsAtOnce (GivesLight (verdict.Waiting cells)) (O.taken out.old) (O.taken out.new)
        (O.faults out.old) (O.faults out.new) (out.new ≡ out.old) result }
{
    let status = Status::Waiting(cells.list.len() as u64);
    give_with(missing_frame(cells), status, &mut Vec::new(alloc), out)
}

/// Writes a verdict. All memory is taken before the write.
fn give_verdict<O: Sink>(alloc: Global, light: Light, out: &mut O) -> Status
    requires { HasOutput light }
    ensures { EndsAtOnce (GivesLight light) (O.taken out.old) (O.taken out.new) (O.faults out.old)
        (O.faults out.new) (out.new ≡ out.old) result }
{
    match light {
        Light::Available => put(b"available\n", Status::Done, out),
        Light::Rejected(upheld) => give_claim(alloc, upheld, out),
        Light::Waiting(cells) => give_waiting(alloc, cells, out),
    }
}

/// Answers the verdict under a header on samples, where so many cells are drawn by the key.
fn light<O: Sink>(
    alloc: Global,
    header: &Header,
    messages: &[u8],
    key: &[u8; 32],
    count: u32,
    out: &mut O,
) -> Status
    ensures { EndsAtOnce (Lights key.now count header.now (frames_of messages.now)) (O.taken out.old)
        (O.taken out.new) (O.faults out.old) (O.faults out.new) (out.new ≡ out.old) result }
{
    let planned = match cells(alloc, key, header.k, count) {
        Ok(planned) => planned,
        Err(DrawError::TooMany) => return Status::BadRequest(Asked::Count),
        Err(DrawError::NoMemory) => return Status::NoMemory,
    };
    match verdict(alloc, header, messages, &planned) {
        Ok(light) => give_verdict(alloc, light, out),
        Err(_) => Status::NoMemory,
    }
}

/// Answers what a light node that draws so many cells by the key comes to by the samples in MESSAGES
/// under the header in HEADER.
#[tactic(auto, using(da_files::proofs::FormLemmas::refused_once))]
pub fn execute<O: Sink>(
    alloc: Global,
    files: &[Vec<u8>],
    key: &[u8; 32],
    count: u32,
    out: &mut O,
) -> Status
    ensures { EndsAtOnce (Judged (messages_judged (contents_of files.now))
        (LightOf key.now count (contents_of files.now))) (O.taken out.old) (O.taken out.new)
        (O.faults out.old) (O.faults out.new) (out.new ≡ out.old) result }
{
    let (header, messages) = match header_and_messages(alloc, files) {
        Ok(read) => read,
        Err(status) => return status,
    };
    light(alloc, &header, messages, key, count, out)
}

/// Answers what a light node that draws so many cells by the key in KEY comes to by the samples in
/// MESSAGES under the header in HEADER.
pub fn execute_by<O: Sink>(alloc: Global, files: &[Vec<u8>], count: u32, out: &mut O) -> Status
    ensures { EndsAtOnce (Judged (light_by_judged (contents_of files.now))
        (LightByOf count (contents_of files.now))) (O.taken out.old) (O.taken out.new)
        (O.faults out.old) (O.faults out.new) (out.new ≡ out.old) result }
{
    let (header, messages) = match header_and_messages(alloc, files) {
        Ok(read) => read,
        Err(status) => return status,
    };
    match read_key(file(files, KEY)) {
        Ok(key) => light(alloc, &header, messages, &key, count, out),
        Err(at) => Status::BadInput(KEY, at),
    }
}
