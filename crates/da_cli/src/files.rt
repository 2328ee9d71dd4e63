//! Reading the files of a command, in the order of the words.

ghost use Rattle.std.specs.Prelude.{◌≡◌, ◌≤◌, ◌<◌, length, IfErr, IfOk, Some, Ok, Err};
ghost use Rattle.std.specs.String.{string_bytes};
ghost use Rattle.da_cli.specs.Limits.{file_limit, file_limits};
ghost use Rattle.da_words.specs.Words.{words_of, files_named};
ghost use Rattle.da_io.specs.Faults.{count_on};
ghost use Rattle.da_io.specs.declared.inputs.LastCall.TheVariants.{Fine};
ghost use Rattle.da_cli.specs.Gathered.{bytes_read, files_read, IsLastOf, PicksIn, ReadsFile, StopsFile, GathersFiles, StopsIn, count_after, WithinLimit, WithinLimits};

use da_io::{InputFault, Inputs, read_all};
use da_words::name_at;
use std::alloc::Global;

/// The bytes that one input file may have, 512 MiB.
pub const FILE_LIMIT: u64 = 536_870_912;

/// Why the files were not read whole.
#[derive(Clone, Copy)]
pub(crate) enum Stop {
    PickFault(u32),
    ReadFault(u32),
    TooLong(u32),
    NoMemory,
}

/// Picks the file that a word names and reads it to its end. It is file `i`.
pub(crate) fn read_file<I: Inputs>(
    alloc: Global,
    name: String,
    i: u32,
    inputs: &mut I,
) -> Result<Vec<u8>, Stop>
    ensures content { ReadsFile file_limit (I.files inputs.old) (string_bytes name) (bytes_read result) }
    ensures stop { IfErr result (StopsFile file_limit i (I.ended inputs.new) (I.given inputs.new)) }
    ensures faults { I.faults inputs.new ≡ count_after (I.faults inputs.old) result }
    ensures within { WithinLimit file_limit (I.given inputs.new) result }
    ensures picks { I.picks inputs.new ≡ count_on (I.picks inputs.old) 1 }
    ensures fine { IfOk result (λ _. I.ended inputs.new ≡ Fine) }
    ensures picked { I.picked inputs.new ≡ Some (string_bytes name) }
    ensures files { I.files inputs.new ≡ I.files inputs.old }
{
    if inputs.pick(name).is_err() {
        return Err(Stop::PickFault(i));
    }
    match read_all(alloc, inputs, FILE_LIMIT) {
        Ok(content) => Ok(content),
        Err(InputFault::ReadFailed) => Err(Stop::ReadFault(i)),
        Err(InputFault::TooLong(_)) => Err(Stop::TooLong(i)),
        Err(InputFault::NoMemory) => Err(Stop::NoMemory),
    }
}

/// Picks and reads the files of the first `count` words to their ends, and stops at the first
/// failure or excess of length. The first `plain` words are names as they stand, and the others
/// stand in the place of KEY.
pub(crate) fn gather<I: Inputs>(
    alloc: Global,
    words: &[String],
    plain: usize,
    count: usize,
    inputs: &mut I,
) -> Result<Vec<Vec<u8>>, Stop>
    requires few { length words.now < 16 }
    requires count { count ≤ length words.now }
    ensures contents { GathersFiles file_limits (I.files inputs.old)
        (files_named plain (words_of words.now)) count (files_read result) }
    ensures stop { IfErr result (StopsIn file_limits (I.files inputs.old)
        (files_named plain (words_of words.now)) (I.picked inputs.new) (I.ended inputs.new)
        (I.given inputs.new)) }
    ensures faults { I.faults inputs.new ≡ count_after (I.faults inputs.old) result }
    ensures within { 0 < count →
        WithinLimits file_limits (files_named plain (words_of words.now)) count (I.picked inputs.new)
        (I.given inputs.new) (inputs.new ≡ inputs.old) (files_read result) }
    ensures last { IfOk result (λ _. IsLastOf (files_named plain (words_of words.now)) count
        (I.picked inputs.new) (I.ended inputs.new)) }
    ensures picks { PicksIn (I.picks inputs.old) (I.picks inputs.new) count result }
    ensures idle { count ≡ 0 → inputs.new ≡ inputs.old }
    ensures files { I.files inputs.new ≡ I.files inputs.old }
{
    let mut contents = Vec::new(alloc);
    for i in 0..count {
        let Ok(name) = String::from_str(alloc, name_at(words, plain, i)) else {
            return Err(Stop::NoMemory);
        };
        let content = match read_file(alloc, name, i as u32, inputs) {
            Ok(content) => content,
            Err(stop) => return Err(stop),
        };
        let Ok(()) = contents.push(content) else {
            return Err(Stop::NoMemory);
        };
    }
    Ok(contents)
}
