//! attend WANTED TALK: what comes to be known of wanted namespaces, told while the frames of TALK come.

ghost use Rattle.std.specs.Prelude.{◌≡◌, ◌≢◌, ◌≤◌, ◌+◌, ◌↔◌, Some, true, IsSome, vec_capacity};
ghost use Rattle.std.specs.String.{string_bytes};
ghost use Rattle.frame_payloads.specs.Payloads.{max_payload};
ghost use Rattle.da_io.specs.declared.inputs.LastCall.TheVariants.{Fine};
ghost use Rattle.da_io.specs.Faults.{count_on};
ghost use Rattle.da_status.specs.declared.status.Status.TheVariants.{Usage};
ghost use Rattle.da_status.specs.Statuses.{status_kind, input_count, output_count};
ghost use Rattle.da_files.specs.Requests.{namespaces_in};
ghost use Rattle.da_following.specs.Follow.{each_once};
ghost use Rattle.da_words.specs.Words.{words_of};
ghost use Rattle.da_talk.specs.Spoken.{hear_count, say_count};
ghost use Rattle.da_attending.specs.Attended.{most_missing_lines, attending};
ghost use Rattle.da_attending.specs.Attenders.{IsFreshAttender};
ghost use Rattle.da_conversing.specs.Words.{is_attend};
ghost use Rattle.da_conversing.specs.Tellings.{ToldOver, TellsOver, IsKept};
ghost use Rattle.da_conversing.specs.Attends.{AttendsOver, AttendsTo, AnswersAttend};

use crate::reading::wanted_of;
use crate::tellings::status_of;
use crate::words::word_at;
use da_attending::{Attender, attend, most_missing};
use da_following::{first_other, wanted_names};
use da_io::{Inputs, Sink};
use da_status::{Asked, Status};
use da_talk::{Pipe, TalkEnd};
use frame_payloads::MAX_PAYLOAD;
use namespace_id::Namespace;
use std::alloc::Global;

/// The number of TALK among the words that name files.
const TALK: u32 = 1;

/// The bytes of the longest frame that an attender is handed.
const FRAME_SIZE: usize = 5 + MAX_PAYLOAD as usize;

/// Hands an attender the frames of the picked file as they come.
fn talk<I: Inputs, O: Sink>(
    attender: &mut Attender<'_>,
    room: &mut Vec<u8>,
    text: &mut Vec<u8>,
    inputs: &mut I,
    out: &mut O,
) -> TalkEnd
    requires fresh { IsFreshAttender attender.old }
    requires capacity { 5 + max_payload ≤ vec_capacity room.old }
    requires text { most_missing_lines attender.old.names ≤ vec_capacity text.old }
    requires fine { I.ended inputs.old ≡ Fine }
    ensures talk { ToldOver I.Inputs O.Sink (attending attender.old.names) inputs.old inputs.new
        out.old out.new attender.new.status result }
    ensures kept { IsKept result (Some attender.new.status) }
    ensures input_faults { I.faults inputs.new ≡ count_on (I.faults inputs.old) (hear_count result) }
    ensures output_faults { O.faults out.new ≡ count_on (O.faults out.old) (say_count result) }
    ensures files { I.files inputs.new ≡ I.files inputs.old }
    ensures told { IsSome (O.taken out.old) ↔ IsSome (O.taken out.new) }
{
    let mut line = Pipe { inputs, out };
    attend(attender, room, text, &mut line)
}

/// Picks the file with a name, TALK, and hands an attender its frames as they come.
fn talk_over<I: Inputs, O: Sink>(
    attender: &mut Attender<'_>,
    room: &mut Vec<u8>,
    text: &mut Vec<u8>,
    name: String,
    inputs: &mut I,
    out: &mut O,
) -> Status
    requires fresh { IsFreshAttender attender.old }
    requires capacity { 5 + max_payload ≤ vec_capacity room.old }
    requires text { most_missing_lines attender.old.names ≤ vec_capacity text.old }
    ensures talk { TellsOver I.Inputs O.Sink (attending attender.old.names) Some 1
        (string_bytes name) inputs.old inputs.new out.old out.new result }
    ensures other { result ≢ Usage }
    ensures input_faults { I.faults inputs.new ≡ input_count (status_kind result) (I.faults inputs.old) }
    ensures output_faults { O.faults out.new ≡ output_count (status_kind result) (O.faults out.old) }
    ensures files { I.files inputs.new ≡ I.files inputs.old }
    ensures told { IsSome (O.taken out.old) ↔ IsSome (O.taken out.new) }
{
    let Ok(()) = inputs.pick(name) else {
        return Status::PickFault(TALK);
    };
    let end = talk(attender, room, text, inputs, out);
    status_of(TALK, end, Some(attender.status()))
}

/// Attends to namespaces by the frames of the file with a name, TALK, as they come. All memory but that of answers and of their lines
/// is taken before TALK is picked.
fn answer_names<I: Inputs, O: Sink>(
    alloc: Global,
    names: &[Namespace],
    name: String,
    inputs: &mut I,
    out: &mut O,
) -> Status
    ensures course { AttendsOver I.Inputs O.Sink inputs.old inputs.new out.old out.new names.now
        (string_bytes name) result }
    ensures other { result ≢ Usage }
    ensures input_faults { I.faults inputs.new ≡ input_count (status_kind result) (I.faults inputs.old) }
    ensures output_faults { O.faults out.new ≡ output_count (status_kind result) (O.faults out.old) }
    ensures files { I.files inputs.new ≡ I.files inputs.old }
    ensures told { IsSome (O.taken out.old) ↔ IsSome (O.taken out.new) }
{
    let Some(most) = most_missing(names) else {
        return Status::NoMemory;
    };
    let Ok(mut room) = Vec::with_capacity(alloc, FRAME_SIZE) else {
        return Status::NoMemory;
    };
    let Ok(mut text) = Vec::with_capacity(alloc, most) else {
        return Status::NoMemory;
    };
    let Ok(mut attender) = Attender::new(alloc, names) else {
        return Status::NoMemory;
    };
    talk_over(&mut attender, &mut room, &mut text, name, inputs, out)
}

/// Attends to the namespaces that are asked for, each once, ascending.
fn answer_each<I: Inputs, O: Sink>(
    alloc: Global,
    wanted: &[u8],
    name: String,
    inputs: &mut I,
    out: &mut O,
) -> Status
    ensures course { AttendsOver I.Inputs O.Sink inputs.old inputs.new out.old out.new
        (each_once (namespaces_in wanted.now)) (string_bytes name) result }
    ensures other { result ≢ Usage }
    ensures input_faults { I.faults inputs.new ≡ input_count (status_kind result) (I.faults inputs.old) }
    ensures output_faults { O.faults out.new ≡ output_count (status_kind result) (O.faults out.old) }
    ensures files { I.files inputs.new ≡ I.files inputs.old }
    ensures told { IsSome (O.taken out.old) ↔ IsSome (O.taken out.new) }
{
    let Ok(names) = wanted_names(alloc, wanted) else {
        return Status::NoMemory;
    };
    answer_names(alloc, &names, name, inputs, out)
}

/// Attends to the namespaces that are asked for, if all are ones of blobs.
fn answer_wanted<I: Inputs, O: Sink>(
    alloc: Global,
    wanted: &[u8],
    name: String,
    inputs: &mut I,
    out: &mut O,
) -> Status
    ensures course { AttendsTo I.Inputs O.Sink inputs.old inputs.new out.old out.new
        (namespaces_in wanted.now) (string_bytes name) result }
    ensures other { result ≢ Usage }
    ensures input_faults { I.faults inputs.new ≡ input_count (status_kind result) (I.faults inputs.old) }
    ensures output_faults { O.faults out.new ≡ output_count (status_kind result) (O.faults out.old) }
    ensures files { I.files inputs.new ≡ I.files inputs.old }
    ensures told { IsSome (O.taken out.old) ↔ IsSome (O.taken out.new) }
{
    match first_other(wanted) {
        Some(number) => Status::BadRequest(Asked::At(number)),
        None => answer_each(alloc, wanted, name, inputs, out),
    }
}

/// Runs `attend WANTED TALK`, without a note.
pub(crate) fn answer_attend<I: Inputs, O: Sink>(
    alloc: Global,
    words: &[String],
    inputs: &mut I,
    out: &mut O,
) -> Status
    requires { is_attend (words_of words.now) ≡ true }
    ensures course { AnswersAttend I.Inputs O.Sink (words_of words.now) inputs.old inputs.new out.old
        out.new result }
    ensures other { result ≢ Usage }
    ensures input_faults { I.faults inputs.new ≡ input_count (status_kind result) (I.faults inputs.old) }
    ensures output_faults { O.faults out.new ≡ output_count (status_kind result) (O.faults out.old) }
    ensures files { I.files inputs.new ≡ I.files inputs.old }
    ensures told { IsSome (O.taken out.old) ↔ IsSome (O.taken out.new) }
{
    let Ok(first) = word_at(alloc, words, 1) else {
        return Status::NoMemory;
    };
    let Ok(second) = word_at(alloc, words, 2) else {
        return Status::NoMemory;
    };
    match wanted_of(alloc, first, inputs) {
        Ok(wanted) => answer_wanted(alloc, &wanted, second, inputs, out),
        Err(status) => status,
    }
}
