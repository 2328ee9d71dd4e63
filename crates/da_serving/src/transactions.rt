//! transactions SQUARE: the list of transactions that a square is laid out of.

ghost use Rattle.std.specs.Prelude.{◌≡◌};
ghost use Rattle.da_files.specs.Contents.{contents_of};
ghost use Rattle.da_serving.specs.Transactions.{Unlays, TransactionsOf};
ghost use Rattle.da_files.specs.Forms.{single_judged};
ghost use Rattle.da_files.specs.Frames.{square_in};
ghost use Rattle.da_status.specs.Judging.{Judged};
ghost use Rattle.da_status.specs.Outcome.{EndsAtOnce};

use da_files::{one_square, put};
use da_io::Sink;
use da_status::{Asked, Status};
use da_wire::{Frame, SpellError, write_frame};
use frame_payloads::UnitList;
use square_layout::Square;
use std::alloc::Global;
use tx_list::{BackError, unlay_list};

/// Writes the list that a square is laid out of, if there is one and it has a spelling. All memory is taken before the
/// write.
fn unlay<O: Sink>(alloc: Global, square: &Square, out: &mut O) -> Status
    ensures { EndsAtOnce (Unlays square.now) (O.taken out.old) (O.taken out.new) (O.faults out.old)
        (O.faults out.new) (out.new ≡ out.old) result }
{
    let list = match unlay_list(alloc, square) {
        Ok(list) => list,
        Err(BackError::NoMemory) => return Status::NoMemory,
        Err(why) => return Status::BadRequest(Asked::NoList(why)),
    };
    let frame = Frame::Transactions(UnitList { list });
    let mut text = Vec::new(alloc);
    match write_frame(&frame, &mut text) {
        Ok(()) => put(&text, Status::Done, out),
        Err(SpellError::Unspellable) => Status::BadRequest(Asked::LongList),
        Err(SpellError::NoMemory) => Status::NoMemory,
    }
}

/// Answers the list of the square in SQUARE.
#[tactic(auto, using(da_files::proofs::FormLemmas::refused_once))]
pub fn execute<O: Sink>(alloc: Global, files: &[Vec<u8>], out: &mut O) -> Status
    ensures { EndsAtOnce (Judged (single_judged square_in (contents_of files.now))
        (TransactionsOf (contents_of files.now))) (O.taken out.old) (O.taken out.new)
        (O.faults out.old) (O.faults out.new) (out.new ≡ out.old) result }
{
    match one_square(alloc, files) {
        Ok(square) => unlay(alloc, &square, out),
        Err(status) => status,
    }
}
