//! build BLOCK: the square of a block, or of a list of transactions.

ghost use Rattle.std.specs.Prelude.{◌≡◌, IfOk};
ghost use Rattle.tx_list.specs.Reads.{list_of};
ghost use Rattle.tx_list.specs.Lists.{square_of_list};
ghost use Rattle.tx_list.specs.Refusals.{AnswersList};
ghost use Rattle.da_files.specs.Contents.{contents_of};
ghost use Rattle.da_serving.specs.Build.{Builds, list_refusal, BuildsList, BuildsEither, BuildOf};
ghost use Rattle.da_files.specs.Forms.{single_judged};
ghost use Rattle.da_files.specs.Frames.{block_or_list_in};
ghost use Rattle.da_status.specs.Judging.{Judged};
ghost use Rattle.da_status.specs.Outcome.{EndsAtOnce};

use da_files::{BlockOrList, give, one_block, square_frame};
use da_io::Sink;
use da_status::Status;
use share_split::Unit;
use square_layout::{Block, LayError, Square, lay};
use std::alloc::Global;
use tx_list::{ListError, lay_list, read_list};

/// Writes the square of a block. All memory is taken before the write.
fn build_square<O: Sink>(alloc: Global, block: &Block, out: &mut O) -> Status
    ensures { EndsAtOnce (Builds block.now) (O.taken out.old) (O.taken out.new) (O.faults out.old)
        (O.faults out.new) (out.new ≡ out.old) result }
{
    match lay(alloc, block) {
        Ok(square) => give(square_frame(square), &mut Vec::new(alloc), out),
        Err(LayError::NoMemory) => Status::NoMemory,
        Err(why) => Status::BadBlock(why),
    }
}

/// The square of a list of transactions, or the first check that fails.
fn list_square(alloc: Global, transactions: Vec<Unit>) -> Result<Square, ListError>
    ensures first { AnswersList result (list_refusal transactions.items) }
    ensures square { IfOk result (λ square. square ≡ square_of_list (list_of transactions.items)) }
{
    let list = read_list(alloc, transactions)?;
    lay_list(alloc, &list)
}

/// Writes the square of a list of transactions. All memory is taken before the write.
fn build_list<O: Sink>(alloc: Global, transactions: Vec<Unit>, out: &mut O) -> Status
    ensures { EndsAtOnce (BuildsList transactions.items) (O.taken out.old) (O.taken out.new)
        (O.faults out.old) (O.faults out.new) (out.new ≡ out.old) result }
{
    match list_square(alloc, transactions) {
        Ok(square) => give(square_frame(square), &mut Vec::new(alloc), out),
        Err(ListError::NoMemory) => Status::NoMemory,
        Err(why) => Status::BadList(why),
    }
}

/// Writes the square of either. All memory is taken before the write.
fn build_either<O: Sink>(alloc: Global, block: BlockOrList, out: &mut O) -> Status
    ensures { EndsAtOnce (BuildsEither block) (O.taken out.old) (O.taken out.new) (O.faults out.old)
        (O.faults out.new) (out.new ≡ out.old) result }
{
    match block {
        BlockOrList::Block(block) => build_square(alloc, &block, out),
        BlockOrList::Transactions(transactions) => build_list(alloc, transactions.list, out),
    }
}

/// Lays out what is in BLOCK.
#[tactic(auto, using(da_files::proofs::FormLemmas::refused_once))]
pub fn execute<O: Sink>(alloc: Global, files: &[Vec<u8>], out: &mut O) -> Status
    ensures { EndsAtOnce (Judged (single_judged block_or_list_in (contents_of files.now))
        (BuildOf (contents_of files.now))) (O.taken out.old) (O.taken out.new) (O.faults out.old)
        (O.faults out.new) (out.new ≡ out.old) result }
{
    match one_block(alloc, files) {
        Ok(block) => build_either(alloc, block, out),
        Err(status) => status,
    }
}
