//! import header FILE: an extended header as the message ExtendedHeader, of which the axis roots are taken.

ghost use Rattle.std.specs.Prelude.{◌≡◌};
ghost use Rattle.celestia_pb.specs.Extended.{extended_value};
ghost use Rattle.da_status.specs.Judging.{Judged};
ghost use Rattle.da_files.specs.Contents.{contents_of};
ghost use Rattle.da_files.specs.Forms.{single_judged};
ghost use Rattle.da_exchanging.specs.Made.{IsMadeOutput};
ghost use Rattle.da_exchanging.specs.Header.{extended_roots, WritesRoots, ImportHeaderOf};

use crate::dah::header_frame;
use crate::made::{FILE, frame_text, message_refusal};
use celestia_pb::{Extended, read_extended};
use da_files::file;
use da_status::Status;
use data_header::{Header, data_root};
use std::alloc::Global;

/// The axis roots of an extended header, where its data hash is their data root.
fn roots_of(extended: Extended) -> Option<Header>
    ensures { result ≡ extended_roots extended }
{
    let Extended { data_hash, roots } = extended;
    if data_root(&roots) == data_hash {
        Some(roots)
    } else {
        None
    }
}

/// The frame of the axis roots of an extended header. Where its data hash isn't their data root it is refused.
fn roots_text(alloc: Global, extended: Extended) -> Result<Vec<u8>, Status>
    ensures { IsMadeOutput (WritesRoots extended) result }
{
    match roots_of(extended) {
        Some(roots) => frame_text(alloc, header_frame(roots)),
        None => Err(Status::Refused),
    }
}

/// The frame of the axis roots of the extended header that the message in FILE is.
pub(crate) fn import(alloc: Global, files: &[Vec<u8>]) -> Result<Vec<u8>, Status>
    ensures { IsMadeOutput (Judged (single_judged extended_value (contents_of files.now))
        (ImportHeaderOf (contents_of files.now))) result }
{
    match read_extended(alloc, file(files, FILE)) {
        Ok(extended) => roots_text(alloc, extended),
        Err(why) => Err(message_refusal(why)),
    }
}
