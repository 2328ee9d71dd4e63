//! The top call.

ghost use Rattle.std.specs.Prelude.{◌≡◌, ◌≢◌, ◌↔◌, length, ◌<◌, [], Some, None, IsSome};
ghost use Rattle.da_status.specs.declared.status.Status.TheVariants.{Usage};
ghost use Rattle.da_words.specs.declared.command.Command.TheVariants as CommandOf;
ghost use Rattle.da_words.specs.Commands.{IsRunnable};
ghost use Rattle.da_cli.specs.Limits.{limits_of};
ghost use Rattle.da_words.specs.Words.{words_of, call_of, last_file, files_of_words, HasFiles};
ghost use Rattle.da_status.specs.Statuses.{status_kind, input_count, output_count};
ghost use Rattle.da_cli.specs.Gathered.{IsLast};
ghost use Rattle.da_cli.specs.Causes.{FaultCause, ExcessCause, LastBy, PickCount};
ghost use Rattle.da_status.specs.Outcome.{Untouched};
ghost use Rattle.da_status.specs.Notes.{note_of, Notes};
ghost use Rattle.da_cli.specs.Own.{AreOwn};
ghost use Rattle.da_cli.specs.Ran.{Ran};
ghost use Rattle.da_cli.specs.Run.{IsEarly, status_of, LeavesTold, Completes};

use crate::files::{Stop, gather};
use crate::laws::run_laws;
use crate::repair::stream;
use da_commands::execute;
use da_io::{Inputs, Sink};
use da_status::{Status, note};
use da_words::{Call, Command, call_of, file_words, plain_count};
use std::alloc::Global;

/// The status of files that were not read whole.
fn status_of(stop: Stop) -> Status
    ensures { result ≡ status_of stop }
{
    match stop {
        Stop::PickFault(i) => Status::PickFault(i),
        Stop::ReadFault(i) => Status::ReadFault(i),
        Stop::TooLong(i) => Status::TooLong(i),
        Stop::NoMemory => Status::NoMemory,
    }
}

/// Runs a command over files that are gathered, without a note.
fn answer_gathered<I: Inputs, O: Sink>(
    alloc: Global,
    words: &[String],
    call: Call,
    inputs: &mut I,
    out: &mut O,
) -> Status
    requires call { Some call ≡ call_of (words_of words.now) }
    requires files { last_file call < length words.now }
    requires few { call.files < 16 }
    requires runnable { IsRunnable call.command }
    requires gathered { call.command ≢ CommandOf.Repair }
    ensures ran { Ran I.Inputs O.Sink (words_of words.now) inputs.old inputs.new out.old out.new
        result }
    ensures late { IsEarly (call_of (words_of words.now)) (out.new ≡ out.old) result }
{
    let plain = plain_count(call.command, call.files);
    match gather(alloc, file_words(words, call), plain, call.files, inputs) {
        Ok(contents) => execute(alloc, call.command, &contents, out),
        Err(stop) => status_of(stop),
    }
}

/// Runs `repair` over a session that is fed as MESSAGES is read, without a note.
fn answer_streamed<I: Inputs, O: Sink>(
    alloc: Global,
    words: &[String],
    call: Call,
    inputs: &mut I,
    out: &mut O,
) -> Status
    requires call { Some call ≡ call_of (words_of words.now) }
    requires few { last_file call < length words.now }
    requires own { HasFiles call.command call.files }
    requires repair { call.command ≡ CommandOf.Repair }
    ensures ran { Ran I.Inputs O.Sink (words_of words.now) inputs.old inputs.new out.old out.new
        result }
    ensures late { IsEarly (call_of (words_of words.now)) (out.new ≡ out.old) result }
{
    match stream(alloc, &words[1..3], inputs, out) {
        Ok(status) => status,
        Err(stop) => status_of(stop),
    }
}

/// Runs the command that the words are, without a note.
fn answer<I: Inputs, O: Sink>(
    alloc: Global,
    words: &[String],
    inputs: &mut I,
    out: &mut O,
) -> Status
    ensures ran { Ran I.Inputs O.Sink (words_of words.now) inputs.old inputs.new out.old out.new
        result }
    ensures late { IsEarly (call_of (words_of words.now)) (out.new ≡ out.old) result }
{
    let Some(call) = call_of(words) else {
        return Status::Usage;
    };
    if matches!(call.command, Command::Repair) {
        answer_streamed(alloc, words, call, inputs, out)
    } else {
        answer_gathered(alloc, words, call, inputs, out)
    }
}

/// Runs the command that the words are: reads its files in the order of the words, gives its output
/// to `out` and the line of its status to `notes`.
///
/// The words are those after the program's name. `Usage` is decided first; then each file is picked
/// and read to its end; then the files are judged in their order, and then what they ask for; then
/// comes the output. What is decided before the output leaves `out` as it was. Out of memory may be
/// answered at any step after the words.
pub fn run<I: Inputs, O: Sink, N: Sink>(
    alloc: Global,
    words: &[String],
    inputs: &mut I,
    out: &mut O,
    notes: &mut N,
) -> Status
    // Words, files, output and status belong together, where the files are told.
    ensures meaning { LeavesTold (I.files inputs.old) (words_of words.now) (O.taken out.old)
        (O.taken out.new) result }
    ensures complete { Completes (I.files inputs.old) (words_of words.now) (O.taken out.old)
        (O.taken out.new) result }

    // Under the header of a square `ok` stands only for samples that show the square's own share, namespace
    // answers that show exactly its shares, proofs of the commitment of its shares in a range and root proofs
    // of its own share, each to the request or the commitment where there is one; `compact` refuses a claim;
    // a repair answers this square or the missing cells; `light` writes no claim; `follow` tells of the
    // square's shares; no node of `net` rejects or has a collision; and what `prove` writes of a range is a
    // proof of the commitment of the square's shares in it. Or a collision is named, as a fraud claim always
    // does. All where the files are told.
    ensures own { AreOwn (I.files inputs.old) (words_of words.now) }

    // `Usage` comes exactly where the words are no command. Where no word names a file, nothing is
    // read.
    ensures usage { (result ≡ Usage) ↔ (call_of (words_of words.now) ≡ None) }
    ensures idle { files_of_words (words_of words.now) ≡ [] → inputs.new ≡ inputs.old }

    // What is decided before the output leaves it as it was.
    ensures untouched { Untouched (out.new ≡ out.old) result }

    // All commands but `sample`, `namespace`, `prove` of requests, `show` and `json` take all of their memory
    // before they write.
    ensures late { IsEarly (call_of (words_of words.now)) (out.new ≡ out.old) result }

    // A failed pick or read, an excess of length: of which file, and after which others.
    ensures fault { FaultCause (limits_of (words_of words.now)) (I.files inputs.old)
        (files_of_words (words_of words.now)) (I.picked inputs.new) (I.ended inputs.new) result }
    ensures excess { ExcessCause (limits_of (words_of words.now)) (I.files inputs.old)
        (files_of_words (words_of words.now)) (I.picked inputs.new) (I.given inputs.new) (inputs.new ≡ inputs.old) result }

    // Failures are counted, and none is hidden behind another status.
    ensures input_faults { I.faults inputs.new ≡ input_count (status_kind result) (I.faults inputs.old) }
    ensures output_faults { O.faults out.new ≡ output_count (status_kind result) (O.faults out.old) }

    // As many picks are made as words name files, or up to the one that a status of reading names; none
    // with `Usage`, and perhaps fewer where memory ran out. Where all files were read, the last call on
    // the inputs was of the last one, and did not fail.
    ensures picks { PickCount (length (files_of_words (words_of words.now))) (I.picks inputs.old)
        (I.picks inputs.new) result }
    ensures last { LastBy (status_kind result) (IsLast (files_of_words (words_of words.now))
        (I.picked inputs.new) (I.ended inputs.new)) }

    // What stays.
    ensures files { I.files inputs.new ≡ I.files inputs.old }
    ensures told { IsSome (O.taken out.old) ↔ IsSome (O.taken out.new) }

    // The notes take the line of the status.
    ensures note { Notes (note_of result) (N.taken notes.old) (N.taken notes.new)
        (N.faults notes.old) (N.faults notes.new) }
{
    run_laws();
    let status = answer(alloc, words, inputs, out);
    note(status, notes);
    status
}
