//! net HEADER MESSAGES SCRIPT: what comes of a script of a network.

ghost use Rattle.std.specs.Prelude.{◌≡◌};
ghost use Rattle.da_words.specs.declared.command.Command.TheVariants as CommandOf;
ghost use Rattle.da_files.specs.Contents.{contents_of};
ghost use Rattle.da_commands.specs.Meaning.{Meaning};
ghost use Rattle.da_status.specs.Outcome.{EndsAtOnce};

use da_files::{file, header_and_messages, put};
use da_io::Sink;
use da_script::{PlayError, play};
use da_status::{Asked, Status};
use std::alloc::Global;

/// The place of the last file among the words that name files.
const SCRIPT: u32 = 2;

/// Answers the lines of the script in SCRIPT over the items in MESSAGES under the header in HEADER. All memory is
/// taken, and all is played, before the output.
pub(crate) fn execute<O: Sink>(alloc: Global, files: &[Vec<u8>], out: &mut O) -> Status
    ensures { EndsAtOnce (Meaning CommandOf.Net (contents_of files.now)) (O.taken out.old)
        (O.taken out.new) (O.faults out.old) (O.faults out.new) (out.new ≡ out.old) result }
{
    let (header, messages) = match header_and_messages(alloc, files) {
        Ok(read) => read,
        Err(status) => return status,
    };
    let script = file(files, SCRIPT);
    match play(alloc, header, messages, script) {
        Ok(text) => put(&text, Status::Done, out),
        Err(PlayError::BadScript(at)) => Status::BadInput(SCRIPT, at),
        Err(PlayError::Nodes) => Status::BadRequest(Asked::Nodes),
        Err(PlayError::NoMemory) => Status::NoMemory,
    }
}
