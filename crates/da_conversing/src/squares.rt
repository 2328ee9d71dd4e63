//! SQUARE, read and held before TALK is picked.

ghost use Rattle.std.specs.Prelude.{◌≡◌, Some};
ghost use Rattle.std.specs.String.{string_bytes};
ghost use Rattle.da_io.specs.Faults.{count_on};
ghost use Rattle.da_conversing.specs.Inputs.{reading_faults};
ghost use Rattle.da_conversing.specs.Squares.{ReadsSquare, HoldsSquare};

use crate::reading::content_of;
use da_files::{Unread, square_in};
use da_io::Inputs;
use da_status::{Asked, Status};
use square_layout::Square;
use square_serve::{Held, HeldError};
use std::alloc::Global;

/// The number of SQUARE among the words that name files.
const SQUARE: u32 = 0;

/// The square in the file with a name.
pub(crate) fn square_of<I: Inputs>(
    alloc: Global,
    name: String,
    inputs: &mut I,
) -> Result<Square, Status>
    ensures square { ReadsSquare (I.files inputs.old) (string_bytes name) (I.ended inputs.new)
        (I.given inputs.new) result }
    ensures faults { I.faults inputs.new ≡ reading_faults result (I.faults inputs.old) }
    ensures picked { I.picked inputs.new ≡ Some (string_bytes name) }
    ensures picks { I.picks inputs.new ≡ count_on (I.picks inputs.old) 1 }
    ensures files { I.files inputs.new ≡ I.files inputs.old }
{
    let content = content_of(alloc, SQUARE, name, inputs)?;
    match square_in(alloc, &content) {
        Ok(square) => Ok(square),
        Err(Unread::BadForm(at)) => Err(Status::BadInput(SQUARE, at)),
        Err(Unread::NoMemory) => Err(Status::NoMemory),
    }
}

/// A square, held.
pub(crate) fn held_of(alloc: Global, square: Square) -> Result<Held, Status>
    ensures { HoldsSquare square result }
{
    match Held::of(alloc, square) {
        Ok(held) => Ok(held),
        Err(HeldError::NoHeader) => Err(Status::BadRequest(Asked::NoHeader)),
        Err(HeldError::NoMemory) => Err(Status::NoMemory),
    }
}
