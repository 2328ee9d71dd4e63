//! Outputs that are made whole before they are written, and the refusals of FILE, the first file.

ghost use Rattle.std.specs.Prelude.{◌≡◌, IsSome};
ghost use Rattle.da_wire.specs.Spelling.{spelling};
ghost use Rattle.da_files.specs.Frames.{Writes};
ghost use Rattle.da_exchanging.specs.Made.{pb_refusal, frame_refusal, IsMadeOutput};

use celestia_pb::PbError;
use da_files::Unread;
use da_status::Status;
use da_wire::{Frame, SpellError, write_frame};
use std::alloc::Global;

/// The place of FILE among the words that name files.
pub(crate) const FILE: u32 = 0;

/// The status of why the bytes of FILE aren't read as a message.
pub(crate) fn message_refusal(why: PbError) -> Status
    ensures { result ≡ pb_refusal why }
{
    match why {
        PbError::At(at) => Status::BadInput(FILE, at),
        PbError::NoMemory => Status::NoMemory,
    }
}

/// The status of why FILE isn't read as one frame.
pub(crate) fn frame_refusal(why: Unread) -> Status
    ensures { result ≡ frame_refusal why }
{
    match why {
        Unread::BadForm(at) => Status::BadInput(FILE, at),
        Unread::NoMemory => Status::NoMemory,
    }
}

/// The spelling of a frame that has one.
pub(crate) fn frame_text(alloc: Global, frame: Frame) -> Result<Vec<u8>, Status>
    requires { IsSome (spelling frame) }
    ensures { IsMadeOutput (Writes frame) result }
{
    let mut text = Vec::new(alloc);
    let written = write_frame(&frame, &mut text);
    drop(frame);
    match written {
        Ok(()) => Ok(text),
        // Never taken: the frame has a spelling. The type of the error has this variant too.
        Err(SpellError::Unspellable) => unreachable!(),
        Err(SpellError::NoMemory) => Err(Status::NoMemory),
    }
}
