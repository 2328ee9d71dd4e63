//! The top call of the commands that stay.

ghost use Rattle.std.specs.Prelude.{◌≡◌, ◌↔◌, true, false, IsSome};
ghost use Rattle.da_status.specs.declared.status.Status.TheVariants.{Usage};
ghost use Rattle.da_status.specs.Statuses.{status_kind, input_count, output_count};
ghost use Rattle.da_status.specs.Notes.{note_of, Notes};
ghost use Rattle.da_words.specs.Words.{words_of};
ghost use Rattle.da_conversing.specs.Words.{is_hold, is_gather, is_attend, is_watch, is_stay};
ghost use Rattle.da_conversing.specs.Attends.{AnswersAttend};
ghost use Rattle.da_conversing.specs.Courses.{Converses, RepliesWhole};
ghost use Rattle.da_conversing.specs.Gathers.{AnswersGather};
ghost use Rattle.da_conversing.specs.Watches.{AnswersWatch};

use crate::attending::answer_attend;
use crate::gathering::answer_gather;
use crate::holding::answer_hold;
use crate::watching::answer_watch;
use crate::words::{has_talk, watch_call};
use da_io::{Inputs, Sink};
use da_status::{Status, note};
use std::alloc::Global;

/// Runs the command that the words are, without a note.
fn answer<I: Inputs, O: Sink>(
    alloc: Global,
    words: &[String],
    inputs: &mut I,
    out: &mut O,
) -> Status
    ensures usage { (result ≡ Usage) ↔ (is_stay (words_of words.now) ≡ false) }
    ensures other { is_stay (words_of words.now) ≡ false →
        (inputs.new ≡ inputs.old) × (out.new ≡ out.old) }
    ensures hold { is_hold (words_of words.now) ≡ true →
        Converses I.Inputs O.Sink (words_of words.now) inputs.old inputs.new out.old out.new result }
    ensures whole { is_hold (words_of words.now) ≡ true → RepliesWhole result (I.files inputs.old)
        (words_of words.now) (O.taken out.old) (O.taken out.new) }
    ensures gather { is_gather (words_of words.now) ≡ true →
        AnswersGather I.Inputs O.Sink (words_of words.now) inputs.old inputs.new out.old out.new result }
    ensures watch { is_watch (words_of words.now) ≡ true →
        AnswersWatch I.Inputs O.Sink (words_of words.now) inputs.old inputs.new out.old out.new result }
    ensures attend { is_attend (words_of words.now) ≡ true →
        AnswersAttend I.Inputs O.Sink (words_of words.now) inputs.old inputs.new out.old out.new result }
    ensures input_faults { I.faults inputs.new ≡ input_count (status_kind result) (I.faults inputs.old) }
    ensures output_faults { O.faults out.new ≡ output_count (status_kind result) (O.faults out.old) }
    ensures files { I.files inputs.new ≡ I.files inputs.old }
    ensures told { IsSome (O.taken out.old) ↔ IsSome (O.taken out.new) }
{
    if has_talk("hold", words) {
        return answer_hold(alloc, words, inputs, out);
    }
    if has_talk("gather", words) {
        return answer_gather(alloc, words, inputs, out);
    }
    if has_talk("attend", words) {
        return answer_attend(alloc, words, inputs, out);
    }
    match watch_call(words) {
        Some(watch) => answer_watch(alloc, words, watch, inputs, out),
        None => Status::Usage,
    }
}

/// Runs the command that the words are: `hold SQUARE TALK`, `gather HEADER TALK`, `watch HEADER KEY COUNT TALK` or `attend WANTED TALK`.
/// It reads the files before TALK and makes what replies, and then replies to the frames of TALK as they come. Replies go to `out`, and the line of
/// the status to `notes`.
///
/// The words are those after the program's name. `Usage` is decided first. All files but TALK are read and judged, and all memory is
/// taken but that of the answers that an attender is handed and of their lines, before TALK is picked. Whenever the talk waits for
/// bytes, all that is due to the frames that came is in `out`, and nothing else.
///
/// docs/FORMATS.md, "Talks".
pub fn converse<I: Inputs, O: Sink, N: Sink>(
    alloc: Global,
    words: &[String],
    inputs: &mut I,
    out: &mut O,
    notes: &mut N,
) -> Status
    // `Usage` comes exactly where the words are no command that stays, and then nothing is read or written.
    ensures usage { (result ≡ Usage) ↔ (is_stay (words_of words.now) ≡ false) }
    ensures other { is_stay (words_of words.now) ≡ false →
        (inputs.new ≡ inputs.old) × (out.new ≡ out.old) }

    // What came of hold: why SQUARE isn't held, or a talk over TALK whose replies are those of the held square, each
    // said before more bytes were waited for.
    ensures hold { is_hold (words_of words.now) ≡ true →
        Converses I.Inputs O.Sink (words_of words.now) inputs.old inputs.new out.old out.new result }

    // Where the files are told, status 0 of hold says that TALK is a list of frames and that the replies to all
    // of them were written, which `reply_laws` compares with other commands.
    ensures whole { is_hold (words_of words.now) ≡ true → RepliesWhole result (I.files inputs.old)
        (words_of words.now) (O.taken out.old) (O.taken out.new) }

    // What came of gather: why HEADER isn't one, or a talk over TALK whose replies are those of a repair under it, with the
    // status of its last words.
    ensures gather { is_gather (words_of words.now) ≡ true →
        AnswersGather I.Inputs O.Sink (words_of words.now) inputs.old inputs.new out.old out.new result }

    // What came of watch: why HEADER or KEY isn't one or COUNT is too large, or a talk over TALK whose replies are those of a
    // light node that draws its cells by the key, with the status of its last words.
    ensures watch { is_watch (words_of words.now) ≡ true →
        AnswersWatch I.Inputs O.Sink (words_of words.now) inputs.old inputs.new out.old out.new result }

    // What came of attend: why WANTED isn't a list of requests for namespaces of blobs, or a talk over TALK whose lines are those of
    // what came to be known of them, with the status of its last words.
    ensures attend { is_attend (words_of words.now) ≡ true →
        AnswersAttend I.Inputs O.Sink (words_of words.now) inputs.old inputs.new out.old out.new result }

    // Failures are counted, and none is hidden behind another status.
    ensures input_faults { I.faults inputs.new ≡ input_count (status_kind result) (I.faults inputs.old) }
    ensures output_faults { O.faults out.new ≡ output_count (status_kind result) (O.faults out.old) }

    // What stays.
    ensures files { I.files inputs.new ≡ I.files inputs.old }
    ensures told { IsSome (O.taken out.old) ↔ IsSome (O.taken out.new) }

    // The notes take the line of the status.
    ensures note { Notes (note_of result) (N.taken notes.old) (N.taken notes.new)
        (N.faults notes.old) (N.faults notes.new) }
{
    let status = answer(alloc, words, inputs, out);
    note(status, notes);
    status
}
