//! repair HEADER MESSAGES over a session that is fed as MESSAGES is read.

ghost use Rattle.std.specs.Prelude.{◌≡◌, [], length};
ghost use Rattle.std.specs.String.{string_bytes};
ghost use Rattle.repair_queue.specs.SessionParts.{SessionStands};
ghost use Rattle.da_cli.specs.StreamedRepair.{RepairsFile, StreamsSecond, Streams};
ghost use Rattle.da_words.specs.Words.{words_of};

use crate::feeding::fed_laws;
use crate::files::{Stop, read_file};
use crate::passes::{feed_file, skim_file};
use axis_roots::message_laws;
use da_commands::{Unread, give_verdict, header_in};
use da_io::{Inputs, Sink};
use da_status::Status;
use data_header::Header;
use repair_queue::{Session, verdict_laws};
use std::alloc::Global;

/// The places of the files among the words that name files.
const HEADER: u32 = 0;

const MESSAGES: u32 = 1;

/// Feeds a repair with the file that a word names, MESSAGES, and answers what it comes to.
fn repair_file<I: Inputs, O: Sink>(
    alloc: Global,
    header: &Header,
    session: Session,
    name: String,
    inputs: &mut I,
    out: &mut O,
) -> Result<Status, Stop>
    requires under { session.header ≡ header.now }
    requires none { SessionStands session [] }
    ensures { RepairsFile I.Inputs O.Sink (string_bytes name) header.now inputs.old inputs.new
        out.old out.new result }
{
    let mut session = session;
    let fed = match feed_file(header, &mut session, name, MESSAGES, inputs) {
        Ok(fed) => fed,
        Err(stop) => {
            drop(session);
            return Err(stop);
        }
    };
    match fed {
        Ok(lies) => {
            fed_laws();
            verdict_laws();
            message_laws();
            let _k = header.k;
            Ok(give_verdict(alloc, header, session.finish(), lies, out))
        }
        Err(at) => {
            drop(session);
            Ok(Status::BadInput(MESSAGES, at))
        }
    }
}

/// Judges HEADER, whose bytes these are, and answers what repair comes to by the file that a word names,
/// MESSAGES, which is read to its end in any case. Memory may run out before.
fn second_file<I: Inputs, O: Sink>(
    alloc: Global,
    text: &[u8],
    name: String,
    inputs: &mut I,
    out: &mut O,
) -> Result<Status, Stop>
    ensures { StreamsSecond I.Inputs O.Sink (string_bytes name) text.now inputs.old inputs.new
        out.old out.new result }
{
    match header_in(alloc, text) {
        Ok(header) => {
            let Ok(session) = Session::new(alloc, &header) else {
                return Err(Stop::NoMemory);
            };
            repair_file(alloc, &header, session, name, inputs, out)
        }
        Err(Unread::BadForm(at)) => match skim_file(name, MESSAGES, inputs) {
            Ok(()) => Ok(Status::BadInput(HEADER, at)),
            Err(stop) => Err(stop),
        },
        Err(Unread::NoMemory) => Err(Stop::NoMemory),
    }
}

/// Reads the files that two words name, HEADER and MESSAGES, and answers what repair comes to; or why they
/// were not read. The bytes of MESSAGES are not kept.
pub(crate) fn stream<I: Inputs, O: Sink>(
    alloc: Global,
    words: &[String],
    inputs: &mut I,
    out: &mut O,
) -> Result<Status, Stop>
    requires { length words.now ≡ 2 }
    ensures { Streams I.Inputs O.Sink (words_of words.now) inputs.old inputs.new out.old out.new
        result }
{
    let Ok(first) = words[0].clone() else {
        return Err(Stop::NoMemory);
    };
    let Ok(second) = words[1].clone() else {
        return Err(Stop::NoMemory);
    };
    let text = match read_file(alloc, first, HEADER, inputs) {
        Ok(text) => text,
        Err(stop) => return Err(stop),
    };
    second_file(alloc, &text, second, inputs, out)
}
