//! Files that are picked and read to their ends, whose bytes are not kept.

ghost use Rattle.std.specs.Prelude.{◌≡◌, ◌++◌, List};
ghost use Rattle.std.specs.String.{string_bytes};
ghost use Rattle.axis_roots.specs.declared.message.messages.Message.{Message as Sent};
ghost use Rattle.repair_queue.specs.SessionParts.{SessionStands};
ghost use Rattle.da_cli.specs.Streamed.{FeedsFile, Skims};

use crate::feeding::{FeedFault, feed_all};
use crate::files::Stop;
use da_io::{Inputs, PIECE_SIZE};
use data_header::Header;
use repair_queue::Session;

/// The bytes that MESSAGES of `repair` may have, which are not kept: 2 GiB.
pub const STREAM_LIMIT: u64 = 2_147_483_648;

/// Picks the file that a word names, file `i`, and feeds a session with its proved samples. Answers how
/// many of its frames are lies, or the first place at which no frame stands though bytes are left.
pub(crate) fn feed_file<I: Inputs>(
    header: &Header,
    session: &mut Session,
    name: String,
    i: u32,
    inputs: &mut I,
) -> Result<Result<u64, u64>, Stop>
    requires under { session.old.header ≡ header.now }
    ensures header { session.new.header ≡ header.now }
    ensures fed { FeedsFile I.Inputs i (string_bytes name) inputs.old inputs.new header.now
        (λ more. (ms : List Sent) → SessionStands session.old ms → SessionStands session.new (ms ++ more))
        result }
{
    if inputs.pick(name).is_err() {
        return Err(Stop::PickFault(i));
    }
    match feed_all(header, session, inputs, STREAM_LIMIT) {
        Ok(lies) => Ok(Ok(lies)),
        Err(FeedFault::Bad(at)) => Ok(Err(at)),
        Err(FeedFault::ReadFailed) => Err(Stop::ReadFault(i)),
        Err(FeedFault::TooLong(_)) => Err(Stop::TooLong(i)),
    }
}

/// Picks the file that a word names, file `i`, and passes over its bytes.
pub(crate) fn skim_file<I: Inputs>(name: String, i: u32, inputs: &mut I) -> Result<(), Stop>
    ensures { Skims I.Inputs i (string_bytes name) inputs.old inputs.new result }
{
    if inputs.pick(name).is_err() {
        return Err(Stop::PickFault(i));
    }
    let mut taken = 0;
    let mut buf = [0; PIECE_SIZE];
    loop {
        let Ok(count) = inputs.read(&mut buf) else {
            return Err(Stop::ReadFault(i));
        };
        if count == 0 {
            return Ok(());
        }
        if count as u64 > STREAM_LIMIT - taken {
            return Err(Stop::TooLong(i));
        }
        taken += count as u64;
    }
}
