//! watch HEADER KEY COUNT TALK: a light node that is handed the frames of TALK as they come.

ghost use Rattle.std.specs.Prelude.{◌≡◌, ◌≢◌, ◌⊎◌, ◌<◌, ◌≤◌, ◌+◌, ◌^◌, ◌↔◌, Some, true, IfOk, IsSome, length, slice_get, vec_capacity};
ghost use Rattle.std.specs.List.{list_all};
ghost use Rattle.std.specs.String.{string_bytes};
ghost use Rattle.namespace_id.specs.Cells.{is_in_square};
ghost use Rattle.da_io.specs.declared.inputs.LastCall.TheVariants.{Fine};
ghost use Rattle.da_io.specs.Faults.{count_on};
ghost use Rattle.da_status.specs.declared.status.Status.TheVariants.{Usage, NoMemory as OutOfMemory};
ghost use Rattle.da_status.specs.Statuses.{status_kind, input_count, output_count};
ghost use Rattle.da_words.specs.Words.{words_of};
ghost use Rattle.da_talk.specs.Spoken.{hear_count, say_count};
ghost use Rattle.da_watching.specs.Sizes.{most_claim, most_said};
ghost use Rattle.light_node.specs.Plans.{PicksInside};
ghost use Rattle.da_watching.specs.Watchers.{PicksOf, IsFreshWatcher, watching};
ghost use Rattle.da_conversing.specs.Words.{watch_call, key_file_name, watch_talk_name};
ghost use Rattle.da_conversing.specs.Tellings.{ToldOver, TellsOver, IsKept};
ghost use Rattle.da_conversing.specs.Watches.{WatchesOver, WatchesUnder, AnswersWatch};

use crate::reading::{header_of, key_of};
use crate::tellings::status_of;
use crate::words::{KeyWord, Watch, key_name_at, talk_file, word_at};
use da_io::{Inputs, NoMemory, Sink};
use da_status::{Asked, Status};
use da_talk::{Pipe, TalkEnd};
use da_watching::{MOST_CLAIM, Watcher, most_said, watch};
use data_header::Header;
use light_node::Picker;
use namespace_id::Cell;
use sampling::{DrawError, cells};
use std::alloc::Global;

/// The bytes of the longest frame that a light node is handed.
const FRAME_SIZE: usize = 5 + MOST_CLAIM;

/// TALK: its number among the words that name files, and its name.
#[derive(Drop)]
struct TalkFile {
    file: u32,
    name: String,
}

/// The names of the files behind HEADER: that of the file that KEY names, where it names one, and that of TALK.
#[derive(Drop)]
struct Names {
    key: String,
    talk: String,
}

/// A header, and the cells that were drawn of its square.
#[derive(Clone, Copy)]
struct Drawn<'a> {
    header: &'a Header,
    cells: &'a [Cell],
}

/// The key of draws, and how many there are.
#[derive(Clone, Copy)]
struct Draws {
    key: [u8; 32],
    count: u32,
}

/// Hands a light node the frames of the picked file as they come.
fn talk<I: Inputs, O: Sink, F: Picker>(
    watcher: &mut Watcher<'_, F>,
    room: &mut Vec<u8>,
    text: &mut Vec<u8>,
    inputs: &mut I,
    out: &mut O,
) -> TalkEnd
    requires fresh { IsFreshWatcher F.picks watcher.old }
    requires capacity { 5 + most_claim ≤ vec_capacity room.old }
    requires text { most_said watcher.old.header.k ≤ vec_capacity text.old }
    requires fine { I.ended inputs.old ≡ Fine }
    ensures talk { ToldOver I.Inputs O.Sink (watching watcher.old.header watcher.old.plan) inputs.old
        inputs.new out.old out.new watcher.new.status result }
    ensures kept { IsKept result (Some watcher.new.status) }
    ensures input_faults { I.faults inputs.new ≡ count_on (I.faults inputs.old) (hear_count result) }
    ensures output_faults { O.faults out.new ≡ count_on (O.faults out.old) (say_count result) }
    ensures files { I.files inputs.new ≡ I.files inputs.old }
    ensures told { IsSome (O.taken out.old) ↔ IsSome (O.taken out.new) }
{
    let mut line = Pipe { inputs, out };
    watch(watcher, room, text, &mut line)
}

/// Picks TALK, and hands a light node its frames as they come.
fn talk_over<I: Inputs, O: Sink, F: Picker>(
    watcher: &mut Watcher<'_, F>,
    room: &mut Vec<u8>,
    text: &mut Vec<u8>,
    to: TalkFile,
    inputs: &mut I,
    out: &mut O,
) -> Status
    requires fresh { IsFreshWatcher F.picks watcher.old }
    requires capacity { 5 + most_claim ≤ vec_capacity room.old }
    requires text { most_said watcher.old.header.k ≤ vec_capacity text.old }
    ensures talk { TellsOver I.Inputs O.Sink (watching watcher.old.header watcher.old.plan) Some to.file
        (string_bytes to.name) inputs.old inputs.new out.old out.new result }
    ensures other { result ≢ Usage }
    ensures input_faults { I.faults inputs.new ≡ input_count (status_kind result) (I.faults inputs.old) }
    ensures output_faults { O.faults out.new ≡ output_count (status_kind result) (O.faults out.old) }
    ensures files { I.files inputs.new ≡ I.files inputs.old }
    ensures told { IsSome (O.taken out.old) ↔ IsSome (O.taken out.new) }
{
    let Ok(()) = inputs.pick(to.name) else {
        return Status::PickFault(to.file);
    };
    let end = talk(watcher, room, text, inputs, out);
    status_of(to.file, end, Some(watcher.status()))
}

/// Watches by a picker of the drawn cells. All memory is taken before TALK is picked.
fn answer_picked<I: Inputs, O: Sink, F: Picker>(
    alloc: Global,
    drawn: Drawn<'_>,
    pick: F,
    to: TalkFile,
    inputs: &mut I,
    out: &mut O,
) -> Status
    requires few { length drawn.cells.now < 2 ^ 32 }
    requires picker { PicksInside F.can_pick F.picks pick (length drawn.cells.now) drawn.header.now.k }
    requires picks { PicksOf F.picks pick drawn.cells.now }
    ensures course { ((result ≡ OutOfMemory) × (inputs.new ≡ inputs.old) × (out.new ≡ out.old))
        ⊎ TellsOver I.Inputs O.Sink (watching drawn.entry.header.now drawn.entry.cells.now) Some
        to.file (string_bytes to.name) inputs.old inputs.new out.old out.new result }
    ensures other { result ≢ Usage }
    ensures input_faults { I.faults inputs.new ≡ input_count (status_kind result) (I.faults inputs.old) }
    ensures output_faults { O.faults out.new ≡ output_count (status_kind result) (O.faults out.old) }
    ensures files { I.files inputs.new ≡ I.files inputs.old }
    ensures told { IsSome (O.taken out.old) ↔ IsSome (O.taken out.new) }
{
    let Drawn { header, cells } = drawn;
    let Ok(mut room) = Vec::with_capacity(alloc, FRAME_SIZE) else {
        return Status::NoMemory;
    };
    let Ok(mut text) = Vec::with_capacity(alloc, most_said(header.k)) else {
        return Status::NoMemory;
    };
    let Ok(mut watcher) = Watcher::new(alloc, header, cells, pick) else {
        return Status::NoMemory;
    };
    talk_over(&mut watcher, &mut room, &mut text, to, inputs, out)
}

/// Watches under a header where these cells were drawn.
fn answer_plan<I: Inputs, O: Sink>(
    alloc: Global,
    header: &Header,
    cells: &[Cell],
    to: TalkFile,
    inputs: &mut I,
    out: &mut O,
) -> Status
    requires few { length cells.now < 2 ^ 32 }
    requires inside { list_all (is_in_square header.now.k) cells.now ≡ true }
    ensures course { ((result ≡ OutOfMemory) × (inputs.new ≡ inputs.old) × (out.new ≡ out.old))
        ⊎ TellsOver I.Inputs O.Sink (watching header.now cells.now) Some to.file
        (string_bytes to.name) inputs.old inputs.new out.old out.new result }
    ensures other { result ≢ Usage }
    ensures input_faults { I.faults inputs.new ≡ input_count (status_kind result) (I.faults inputs.old) }
    ensures output_faults { O.faults out.new ≡ output_count (status_kind result) (O.faults out.old) }
    ensures files { I.files inputs.new ≡ I.files inputs.old }
    ensures told { IsSome (O.taken out.old) ↔ IsSome (O.taken out.new) }
{
    answer_picked(
        alloc,
        Drawn { header, cells },
        |number|
            requires { number < length cells.now }
            ensures { slice_get cells.entry.now number ≡ Some result }
        { cells[number as usize] },
        to,
        inputs,
        out,
    )
}

/// Watches under a header where a key draws so many cells.
fn answer_key<I: Inputs, O: Sink>(
    alloc: Global,
    header: &Header,
    draws: Draws,
    to: TalkFile,
    inputs: &mut I,
    out: &mut O,
) -> Status
    ensures course { WatchesOver I.Inputs O.Sink inputs.old inputs.new out.old out.new header.now draws.key
        draws.count to.file (string_bytes to.name) result }
    ensures other { result ≢ Usage }
    ensures input_faults { I.faults inputs.new ≡ input_count (status_kind result) (I.faults inputs.old) }
    ensures output_faults { O.faults out.new ≡ output_count (status_kind result) (O.faults out.old) }
    ensures files { I.files inputs.new ≡ I.files inputs.old }
    ensures told { IsSome (O.taken out.old) ↔ IsSome (O.taken out.new) }
{
    match cells(alloc, &draws.key, header.k, draws.count) {
        Ok(planned) => answer_plan(alloc, header, &planned, to, inputs, out),
        Err(DrawError::TooMany) => Status::BadRequest(Asked::Count),
        Err(DrawError::NoMemory) => Status::NoMemory,
    }
}

/// Watches under a header by a key that is a word or stands in a file.
fn answer_header<I: Inputs, O: Sink>(
    alloc: Global,
    header: &Header,
    words: Watch,
    names: Names,
    inputs: &mut I,
    out: &mut O,
) -> Status
    ensures course { WatchesUnder I.Inputs O.Sink inputs.old inputs.new out.old out.new header.now
        words.key words.count (string_bytes names.key) (string_bytes names.talk) result }
    ensures other { result ≢ Usage }
    ensures input_faults { I.faults inputs.new ≡ input_count (status_kind result) (I.faults inputs.old) }
    ensures output_faults { O.faults out.new ≡ output_count (status_kind result) (O.faults out.old) }
    ensures files { I.files inputs.new ≡ I.files inputs.old }
    ensures told { IsSome (O.taken out.old) ↔ IsSome (O.taken out.new) }
{
    let Names {
        key: file,
        talk: name,
    } = names;
    let to = TalkFile {
        file: talk_file(words.key),
        name,
    };
    let count = words.count;
    match words.key {
        KeyWord::Key(key) => answer_key(alloc, header, Draws { key, count }, to, inputs, out),
        KeyWord::Named => match key_of(alloc, file, inputs) {
            Ok(key) => answer_key(alloc, header, Draws { key, count }, to, inputs, out),
            Err(status) => status,
        },
    }
}

/// The names of the files behind HEADER.
fn names_of(alloc: Global, words: &[String]) -> Result<Names, NoMemory>
    requires { length words.now ≡ 5 }
    ensures key { IfOk result (λ names. string_bytes names.key ≡ key_file_name (words_of words.now)) }
    ensures talk { IfOk result (λ names. string_bytes names.talk ≡ watch_talk_name (words_of words.now)) }
{
    let key = key_name_at(alloc, words)?;
    let talk = word_at(alloc, words, 4)?;
    Ok(Names { key, talk })
}

/// Runs `watch HEADER KEY COUNT TALK`, whose KEY and COUNT are known, without a note.
pub(crate) fn answer_watch<I: Inputs, O: Sink>(
    alloc: Global,
    words: &[String],
    values: Watch,
    inputs: &mut I,
    out: &mut O,
) -> Status
    requires { watch_call (words_of words.now) ≡ Some values }
    ensures course { AnswersWatch I.Inputs O.Sink (words_of words.now) inputs.old inputs.new out.old
        out.new result }
    ensures other { result ≢ Usage }
    ensures input_faults { I.faults inputs.new ≡ input_count (status_kind result) (I.faults inputs.old) }
    ensures output_faults { O.faults out.new ≡ output_count (status_kind result) (O.faults out.old) }
    ensures files { I.files inputs.new ≡ I.files inputs.old }
    ensures told { IsSome (O.taken out.old) ↔ IsSome (O.taken out.new) }
{
    let Ok(first) = word_at(alloc, words, 1) else {
        return Status::NoMemory;
    };
    let Ok(names) = names_of(alloc, words) else {
        return Status::NoMemory;
    };
    match header_of(alloc, first, inputs) {
        Ok(header) => answer_header(alloc, &header, values, names, inputs, out),
        Err(status) => status,
    }
}
