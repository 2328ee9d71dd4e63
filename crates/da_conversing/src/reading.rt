//! Files that are read whole before TALK is picked.

ghost use Rattle.std.specs.Prelude.{◌≡◌, Some};
ghost use Rattle.std.specs.String.{string_bytes};
ghost use Rattle.da_io.specs.Faults.{count_on};
ghost use Rattle.da_files.specs.Frames.{header_in};
ghost use Rattle.da_judging.specs.Keys.{key_file_in};
ghost use Rattle.da_conversing.specs.Inputs.{ReadsContent, ReadsValue, reading_faults};
ghost use Rattle.da_conversing.specs.Attends.{ReadsWanted};

use da_cli::FILE_LIMIT;
use da_files::{Unread, header_in};
use da_io::{InputFault, Inputs, read_all};
use da_judging::read_key;
use da_status::Status;
use da_wire::bad_value;
use data_header::Header;
use std::alloc::Global;

/// The number of HEADER among the words that name files.
const HEADER: u32 = 0;

/// The number of WANTED among the words that name files.
const WANTED: u32 = 0;

/// The number of KEY among the words that name files.
const KEY: u32 = 1;

/// The bytes of the file with a number and a name.
pub(crate) fn content_of<I: Inputs>(
    alloc: Global,
    file: u32,
    name: String,
    inputs: &mut I,
) -> Result<Vec<u8>, Status>
    ensures content { ReadsContent file (I.files inputs.old) (string_bytes name) (I.ended inputs.new)
        (I.given inputs.new) result }
    ensures faults { I.faults inputs.new ≡ reading_faults result (I.faults inputs.old) }
    ensures picked { I.picked inputs.new ≡ Some (string_bytes name) }
    ensures picks { I.picks inputs.new ≡ count_on (I.picks inputs.old) 1 }
    ensures files { I.files inputs.new ≡ I.files inputs.old }
{
    if inputs.pick(name).is_err() {
        return Err(Status::PickFault(file));
    }
    match read_all(alloc, inputs, FILE_LIMIT) {
        Ok(content) => Ok(content),
        Err(InputFault::ReadFailed) => Err(Status::ReadFault(file)),
        Err(InputFault::TooLong(_)) => Err(Status::TooLong(file)),
        Err(InputFault::NoMemory) => Err(Status::NoMemory),
    }
}

/// The header in the file with a name, HEADER.
pub(crate) fn header_of<I: Inputs>(
    alloc: Global,
    name: String,
    inputs: &mut I,
) -> Result<Header, Status>
    ensures header { ReadsValue header_in 0 (I.files inputs.old) (string_bytes name) (I.ended inputs.new)
        (I.given inputs.new) result }
    ensures faults { I.faults inputs.new ≡ reading_faults result (I.faults inputs.old) }
    ensures picked { I.picked inputs.new ≡ Some (string_bytes name) }
    ensures picks { I.picks inputs.new ≡ count_on (I.picks inputs.old) 1 }
    ensures files { I.files inputs.new ≡ I.files inputs.old }
{
    let content = content_of(alloc, HEADER, name, inputs)?;
    match header_in(alloc, &content) {
        Ok(header) => Ok(header),
        Err(Unread::BadForm(at)) => Err(Status::BadInput(HEADER, at)),
        Err(Unread::NoMemory) => Err(Status::NoMemory),
    }
}

/// The key in the file with a name, which KEY names.
pub(crate) fn key_of<I: Inputs>(
    alloc: Global,
    name: String,
    inputs: &mut I,
) -> Result<[u8; 32], Status>
    ensures key { ReadsValue key_file_in 1 (I.files inputs.old) (string_bytes name) (I.ended inputs.new)
        (I.given inputs.new) result }
    ensures faults { I.faults inputs.new ≡ reading_faults result (I.faults inputs.old) }
    ensures picked { I.picked inputs.new ≡ Some (string_bytes name) }
    ensures picks { I.picks inputs.new ≡ count_on (I.picks inputs.old) 1 }
    ensures files { I.files inputs.new ≡ I.files inputs.old }
{
    let content = content_of(alloc, KEY, name, inputs)?;
    match read_key(&content) {
        Ok(key) => Ok(key),
        Err(at) => Err(Status::BadInput(KEY, at)),
    }
}

/// The requests for namespaces in the file with a name, WANTED.
pub(crate) fn wanted_of<I: Inputs>(
    alloc: Global,
    name: String,
    inputs: &mut I,
) -> Result<Vec<u8>, Status>
    ensures wanted { ReadsWanted (I.files inputs.old) (string_bytes name) (I.ended inputs.new)
        (I.given inputs.new) result }
    ensures faults { I.faults inputs.new ≡ reading_faults result (I.faults inputs.old) }
    ensures picked { I.picked inputs.new ≡ Some (string_bytes name) }
    ensures picks { I.picks inputs.new ≡ count_on (I.picks inputs.old) 1 }
    ensures files { I.files inputs.new ≡ I.files inputs.old }
{
    let content = content_of(alloc, WANTED, name, inputs)?;
    match bad_value(&content, b"P") {
        None => Ok(content),
        Some(at) => Err(Status::BadInput(WANTED, at)),
    }
}
