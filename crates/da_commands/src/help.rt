//! help, version: the commands with their words, and the version of the program.

ghost use Rattle.std.specs.Prelude.{◌≡◌};
ghost use Rattle.da_commands.specs.Help.{HelpOf, VersionOf};
ghost use Rattle.da_status.specs.Outcome.{EndsAtOnce};

use da_files::put;
use da_io::Sink;
use da_status::Status;

/// The commands with their words, one a line.
const COMMANDS: &[u8] = b"\
    da build BLOCK\n\
    da header SQUARE\n\
    da sample SQUARE REQUESTS\n\
    da namespace SQUARE REQUESTS\n\
    da hold SQUARE TALK\n\
    da verify HEADER ANSWER\n\
    da verify HEADER ANSWER COMMITMENT\n\
    da verify HEADER ANSWER REQUEST\n\
    da compact HEADER CLAIM\n\
    da check HEADER MESSAGES\n\
    da repair HEADER MESSAGES\n\
    da gather HEADER TALK\n\
    da light HEADER MESSAGES KEY COUNT\n\
    da watch HEADER KEY COUNT TALK\n\
    da wanted MISSING AXIS\n\
    da cells HEADER KEY COUNT AXIS\n\
    da blobs SHARES\n\
    da transactions SQUARE\n\
    da find SQUARE COMMITMENT\n\
    da commit BLOCK\n\
    da prove SQUARE REQUESTS\n\
    da prove SQUARE START COUNT\n\
    da follow WANTED ANSWERS\n\
    da attend WANTED TALK\n\
    da root HEADER\n\
    da root HEADER ROOT\n\
    da net HEADER MESSAGES SCRIPT\n\
    da show FILE\n\
    da json FILE\n\
    da import dah FILE\n\
    da import header FILE\n\
    da import sample FILE ROW COL\n\
    da import row-data FILE ROW NAMESPACE\n\
    da import namespace-data FILE HEADER NAMESPACE\n\
    da import befp FILE HASH HEIGHT\n\
    da import ods FILE\n\
    da import row FILE ROW\n\
    da import share-proof FILE\n\
    da import sample-id FILE HEIGHT\n\
    da import namespace-id FILE HEIGHT\n\
    da export dah FILE\n\
    da export sample FILE\n\
    da export row-data FILE\n\
    da export namespace-data FILE\n\
    da export befp FILE WIDTH HASH HEIGHT\n\
    da export ods FILE\n\
    da export row FILE\n\
    da export share-proof FILE\n\
    da export sample-id FILE HEIGHT\n\
    da export namespace-id FILE HEIGHT\n\
    da demo NUMBER WIDTH\n\
    da help\n\
    da version\n";

/// The name of the program, and its version.
const VERSION: &[u8] = b"da 0.2.0\n";

/// Answers the commands with their words. It takes no memory.
pub(crate) fn help<O: Sink>(out: &mut O) -> Status
    ensures { EndsAtOnce HelpOf (O.taken out.old) (O.taken out.new) (O.faults out.old)
        (O.faults out.new) (out.new ≡ out.old) result }
{
    put(COMMANDS, Status::Done, out)
}

/// Answers the version of the program. It takes no memory.
pub(crate) fn version<O: Sink>(out: &mut O) -> Status
    ensures { EndsAtOnce VersionOf (O.taken out.old) (O.taken out.new) (O.faults out.old)
        (O.faults out.new) (out.new ≡ out.old) result }
{
    put(VERSION, Status::Done, out)
}
