//! commit BLOCK: the commitments of the blobs of a block, or of a list of transactions.

ghost use Rattle.std.specs.Prelude.{◌≡◌, ◌≤◌, ◌++◌, length, IfOk, OnOk};
ghost use Rattle.std.specs.List.{AllByRecursion};
ghost use Rattle.square_layout.specs.Layout.{share_count_of};
ghost use Rattle.square_layout.specs.Refusals.{max_shares, layout_refusal, AnswersLaying};
ghost use Rattle.tx_list.specs.Payments.{blobs_of};
ghost use Rattle.tx_list.specs.Refusals.{AnswersList};
ghost use Rattle.da_files.specs.Contents.{contents_of};
ghost use Rattle.da_files.specs.Frames.{block_or_list_in};
ghost use Rattle.da_serving.specs.Build.{list_refusal};
ghost use Rattle.da_serving.specs.Commit.{commitment_of, commitment_line, commitment_lines, list_lines, Commits, CommitsList, CommitsEither, CommitOf};
ghost use Rattle.da_files.specs.Forms.{single_judged};
ghost use Rattle.da_status.specs.Judging.{Judged};
ghost use Rattle.da_status.specs.Outcome.{EndsAtOnce};

use blob_commit::{CommitError, commitment_of};
use da_files::{BlockOrList, hash_line, one_block, put};
use da_io::Sink;
use da_status::Status;
use namespace_id::NoMemory;
use share_split::{Blob, Unit};
use square_layout::{Block, LayError, lay};
use std::alloc::Global;
use tx_list::{ListError, Payment, places, read_list};

/// The commitment of a blob that has bytes, and no more shares than the greatest square.
pub(crate) fn commitment_in(alloc: Global, blob: &Blob) -> Result<[u8; 32], NoMemory>
    requires some { 1 ≤ length blob.now.bytes }
    requires few { share_count_of blob.now ≤ max_shares }
    ensures { IfOk result (λ commitment. commitment ≡ commitment_of blob.now) }
{
    match commitment_of(alloc, blob) {
        Ok(commitment) => Ok(commitment),
        Err(CommitError::NoMemory) => Err(NoMemory),
        // Never taken: the blob has bytes. The type of the error has this variant too.
        Err(CommitError::Empty) => unreachable!(),
        // Never taken: the blob has few shares.
        Err(CommitError::TooLarge) => unreachable!(),
    }
}

/// Appends the line of such a blob.
fn put_line(alloc: Global, blob: &Blob, text: &mut Vec<u8>) -> Result<(), NoMemory>
    requires some { 1 ≤ length blob.now.bytes }
    requires few { share_count_of blob.now ≤ max_shares }
    ensures { OnOk result (text.new.items ≡ text.old.items ++ commitment_line blob.now) }
{
    let line = hash_line(&commitment_in(alloc, blob)?);
    text.extend_from_slice(line.as_bytes())?;
    Ok(())
}

/// Appends the lines of such blobs, in their order.
fn put_lines(alloc: Global, blobs: &[Blob], text: &mut Vec<u8>) -> Result<(), NoMemory>
    requires { AllByRecursion (λ blob.
        (1 ≤ length blob.bytes) × (share_count_of blob ≤ max_shares)) blobs.now }
    ensures { OnOk result (text.new.items ≡ text.old.items ++ commitment_lines blobs.now) }
{
    let mut rest = blobs;
    while let Some((blob, after)) = rest.split_first() {
        put_line(alloc, blob, text)?;
        rest = after;
    }
    Ok(())
}

/// The lines of the blobs of payments, which are such blobs, payment after payment.
fn payment_lines(alloc: Global, payments: &[Payment]) -> Result<Vec<u8>, NoMemory>
    requires { AllByRecursion (λ payment. AllByRecursion (λ blob.
        (1 ≤ length blob.bytes) × (share_count_of blob ≤ max_shares)) payment.blobs) payments.now }
    ensures { IfOk result (λ text. text.items ≡ commitment_lines (blobs_of payments.now)) }
{
    let mut text = Vec::new(alloc);
    let mut rest = payments;
    while let Some((payment, after)) = rest.split_first() {
        put_lines(alloc, &payment.blobs, &mut text)?;
        rest = after;
    }
    Ok(text)
}

/// The lines of the blobs of a block that can be laid out, or the first check that fails. Its square is let go before
/// they are made.
fn block_lines(alloc: Global, block: &Block) -> Result<Vec<u8>, LayError>
    ensures first { AnswersLaying result (layout_refusal block.now) }
    ensures lines { IfOk result (λ text. text.items ≡ commitment_lines block.now.blobs) }
{
    drop(lay(alloc, block)?);
    let mut text = Vec::new(alloc);
    match put_lines(alloc, &block.blobs, &mut text) {
        Ok(()) => Ok(text),
        Err(_) => Err(LayError::NoMemory),
    }
}

/// Writes the lines of the blobs of a block, if it can be laid out. All memory is taken before the
/// write.
fn commit<O: Sink>(alloc: Global, block: &Block, out: &mut O) -> Status
    ensures { EndsAtOnce (Commits block.now) (O.taken out.old) (O.taken out.new) (O.faults out.old)
        (O.faults out.new) (out.new ≡ out.old) result }
{
    match block_lines(alloc, block) {
        Ok(text) => put(&text, Status::Done, out),
        Err(LayError::NoMemory) => Status::NoMemory,
        Err(why) => Status::BadBlock(why),
    }
}

/// The lines of the blobs of a list of transactions that can be laid out, or the first check that fails. No square is
/// made of it.
fn list_lines(alloc: Global, transactions: Vec<Unit>) -> Result<Vec<u8>, ListError>
    ensures first { AnswersList result (list_refusal transactions.items) }
    ensures lines { IfOk result (λ text. text.items ≡ list_lines transactions.items) }
{
    let list = read_list(alloc, transactions)?;
    drop(places(alloc, &list)?);
    match payment_lines(alloc, &list.payments) {
        Ok(text) => Ok(text),
        Err(_) => Err(ListError::NoMemory),
    }
}

/// Writes the lines of the blobs of a list of transactions, if it can be laid out. All memory is taken
/// before the write.
fn commit_list<O: Sink>(alloc: Global, transactions: Vec<Unit>, out: &mut O) -> Status
    ensures { EndsAtOnce (CommitsList transactions.items) (O.taken out.old) (O.taken out.new)
        (O.faults out.old) (O.faults out.new) (out.new ≡ out.old) result }
{
    match list_lines(alloc, transactions) {
        Ok(text) => put(&text, Status::Done, out),
        Err(ListError::NoMemory) => Status::NoMemory,
        Err(why) => Status::BadList(why),
    }
}

/// Writes the lines of the blobs of either. All memory is taken before the write.
fn commit_either<O: Sink>(alloc: Global, block: BlockOrList, out: &mut O) -> Status
    ensures { EndsAtOnce (CommitsEither block) (O.taken out.old) (O.taken out.new)
        (O.faults out.old) (O.faults out.new) (out.new ≡ out.old) result }
{
    match block {
        BlockOrList::Block(block) => commit(alloc, &block, out),
        BlockOrList::Transactions(transactions) => commit_list(alloc, transactions.list, out),
    }
}

/// Answers the commitments of the blobs of what is in BLOCK.
#[tactic(auto, using(da_files::proofs::FormLemmas::refused_once))]
pub fn execute<O: Sink>(alloc: Global, files: &[Vec<u8>], out: &mut O) -> Status
    ensures { EndsAtOnce (Judged (single_judged block_or_list_in (contents_of files.now))
        (CommitOf (contents_of files.now))) (O.taken out.old) (O.taken out.new) (O.faults out.old)
        (O.faults out.new) (out.new ≡ out.old) result }
{
    match one_block(alloc, files) {
        Ok(block) => commit_either(alloc, block, out),
        Err(status) => status,
    }
}
