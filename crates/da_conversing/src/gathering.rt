//! gather HEADER TALK: a repair that is fed with the frames of TALK as they come.

ghost use Rattle.std.specs.Prelude.{◌≡◌, ◌≢◌, ◌≤◌, ◌+◌, ◌↔◌, true, IsSome, vec_capacity};
ghost use Rattle.std.specs.String.{string_bytes};
ghost use Rattle.frame_payloads.specs.kinds.Message.{most_message};
ghost use Rattle.da_io.specs.declared.inputs.LastCall.TheVariants.{Fine};
ghost use Rattle.da_io.specs.Faults.{count_on};
ghost use Rattle.da_status.specs.declared.status.Status.TheVariants.{Usage};
ghost use Rattle.da_status.specs.Statuses.{status_kind, input_count, output_count};
ghost use Rattle.da_words.specs.Words.{words_of};
ghost use Rattle.da_talk.specs.Spoken.{hear_count, say_count};
ghost use Rattle.da_gathering.specs.Gatherings.{most_gathered};
ghost use Rattle.da_gathering.specs.Gathered.{IsFreshGathering, gathering};
ghost use Rattle.da_conversing.specs.Words.{is_gather};
ghost use Rattle.da_conversing.specs.Tellings.{ToldOver, TellsOver, IsKept};
ghost use Rattle.da_conversing.specs.Gathers.{GathersUnder, AnswersGather};

use crate::reading::header_of;
use crate::tellings::status_of;
use crate::words::word_at;
use da_gathering::{Gatherer, gather, most_gathered};
use da_io::{Inputs, Sink};
use da_status::Status;
use da_talk::{Pipe, TalkEnd};
use data_header::Header;
use frame_payloads::MOST_MESSAGE;
use std::alloc::Global;

/// The number of TALK among the words that name files.
const TALK: u32 = 1;

/// The bytes of the longest frame that a repair is fed with.
const FRAME_SIZE: usize = 5 + MOST_MESSAGE;

/// Feeds a repair with the frames of the picked file as they come.
fn talk<I: Inputs, O: Sink>(
    gatherer: &mut Gatherer<'_>,
    room: &mut Vec<u8>,
    text: &mut Vec<u8>,
    inputs: &mut I,
    out: &mut O,
) -> TalkEnd
    requires fresh { IsFreshGathering gatherer.old }
    requires capacity { 5 + most_message ≤ vec_capacity room.old }
    requires text { most_gathered gatherer.old.header.k ≤ vec_capacity text.old }
    requires fine { I.ended inputs.old ≡ Fine }
    ensures talk { ToldOver I.Inputs O.Sink (gathering gatherer.old.header) inputs.old inputs.new
        out.old out.new gatherer.new.status result }
    ensures kept { IsKept result gatherer.new.status }
    ensures input_faults { I.faults inputs.new ≡ count_on (I.faults inputs.old) (hear_count result) }
    ensures output_faults { O.faults out.new ≡ count_on (O.faults out.old) (say_count result) }
    ensures files { I.files inputs.new ≡ I.files inputs.old }
    ensures told { IsSome (O.taken out.old) ↔ IsSome (O.taken out.new) }
{
    let mut line = Pipe { inputs, out };
    gather(gatherer, room, text, &mut line)
}

/// Picks the file with a name, TALK, and feeds a repair with its frames as they come.
fn talk_over<I: Inputs, O: Sink>(
    gatherer: &mut Gatherer<'_>,
    room: &mut Vec<u8>,
    text: &mut Vec<u8>,
    name: String,
    inputs: &mut I,
    out: &mut O,
) -> Status
    requires fresh { IsFreshGathering gatherer.old }
    requires capacity { 5 + most_message ≤ vec_capacity room.old }
    requires text { most_gathered gatherer.old.header.k ≤ vec_capacity text.old }
    ensures talk { TellsOver I.Inputs O.Sink (gathering gatherer.old.header) (λ kept. kept) 1
        (string_bytes name) inputs.old inputs.new out.old out.new result }
    ensures other { result ≢ Usage }
    ensures input_faults { I.faults inputs.new ≡ input_count (status_kind result) (I.faults inputs.old) }
    ensures output_faults { O.faults out.new ≡ output_count (status_kind result) (O.faults out.old) }
    ensures files { I.files inputs.new ≡ I.files inputs.old }
    ensures told { IsSome (O.taken out.old) ↔ IsSome (O.taken out.new) }
{
    let Ok(()) = inputs.pick(name) else {
        return Status::PickFault(TALK);
    };
    let end = talk(gatherer, room, text, inputs, out);
    status_of(TALK, end, gatherer.status())
}

/// Repairs under a header by the frames of the file with a name, TALK, as they come. All memory is taken before TALK is picked.
fn answer_header<I: Inputs, O: Sink>(
    alloc: Global,
    header: &Header,
    name: String,
    inputs: &mut I,
    out: &mut O,
) -> Status
    ensures course { GathersUnder I.Inputs O.Sink inputs.old inputs.new out.old out.new header.now
        (string_bytes name) result }
    ensures other { result ≢ Usage }
    ensures input_faults { I.faults inputs.new ≡ input_count (status_kind result) (I.faults inputs.old) }
    ensures output_faults { O.faults out.new ≡ output_count (status_kind result) (O.faults out.old) }
    ensures files { I.files inputs.new ≡ I.files inputs.old }
    ensures told { IsSome (O.taken out.old) ↔ IsSome (O.taken out.new) }
{
    let Ok(mut room) = Vec::with_capacity(alloc, FRAME_SIZE) else {
        return Status::NoMemory;
    };
    let Ok(mut text) = Vec::with_capacity(alloc, most_gathered(header.k)) else {
        return Status::NoMemory;
    };
    let Ok(mut gatherer) = Gatherer::new(alloc, header) else {
        return Status::NoMemory;
    };
    talk_over(&mut gatherer, &mut room, &mut text, name, inputs, out)
}

/// Runs `gather HEADER TALK`, without a note.
pub(crate) fn answer_gather<I: Inputs, O: Sink>(
    alloc: Global,
    words: &[String],
    inputs: &mut I,
    out: &mut O,
) -> Status
    requires { is_gather (words_of words.now) ≡ true }
    ensures course { AnswersGather I.Inputs O.Sink (words_of words.now) inputs.old inputs.new out.old
        out.new result }
    ensures other { result ≢ Usage }
    ensures input_faults { I.faults inputs.new ≡ input_count (status_kind result) (I.faults inputs.old) }
    ensures output_faults { O.faults out.new ≡ output_count (status_kind result) (O.faults out.old) }
    ensures files { I.files inputs.new ≡ I.files inputs.old }
    ensures told { IsSome (O.taken out.old) ↔ IsSome (O.taken out.new) }
{
    let Ok(first) = word_at(alloc, words, 1) else {
        return Status::NoMemory;
    };
    let Ok(second) = word_at(alloc, words, 2) else {
        return Status::NoMemory;
    };
    match header_of(alloc, first, inputs) {
        Ok(header) => answer_header(alloc, &header, second, inputs, out),
        Err(status) => status,
    }
}
