//! What repair writes: the square of a header, or what is wrong or missing.

ghost use Rattle.std.specs.Prelude.{◌≡◌, ◌≢◌, IsSome, false, List, []};
ghost use Rattle.axis_roots.specs.declared.message.messages.Message as sent;
ghost use Rattle.repair_queue.specs.Verdicts.{missing, fraud, IsVerdict};
ghost use Rattle.repair_queue.specs.Answers.{verdict_parts};
ghost use Rattle.da_wire.specs.declared.frames.Frame.TheVariants as FrameOf;
ghost use Rattle.da_wire.specs.Spelling.{spelling};
ghost use Rattle.da_judging.specs.Repair.{GivesVerdict};
ghost use Rattle.da_status.specs.Outcome.{EndsAtOnce};

use axis_roots::FraudProof;
use da_files::{clash_frame, give, give_with, missing_frame, put, square_frame};
use da_io::Sink;
use da_status::Status;
use da_wire::{Frame, value_laws, write_proof};
use data_header::Header;
use hash_clash::Clash;
use namespace_id::{Cells, NoMemory};
use repair_queue::Verdict;
use std::alloc::Global;

/// Writes missing cells, where so many frames were lies.
fn give_missing<O: Sink>(alloc: Global, cells: Cells, lies: u64, out: &mut O) -> Status
    requires { cells.list ≢ [] }
    ensures { EndsAtOnce (GivesVerdict lies (missing cells)) (O.taken out.old) (O.taken out.new)
        (O.faults out.old) (O.faults out.new) (out.new ≡ out.old) result }
{
    value_laws();
    let status = Status::Missing(cells.list.len() as u32, lies);
    give_with(missing_frame(cells), status, &mut Vec::new(alloc), out)
}

/// Writes the claim of a fraud proof. How many frames were lies plays no part.
fn give_proof<O: Sink>(alloc: Global, proof: &FraudProof, out: &mut O) -> Status
    ensures { EndsAtOnce (GivesVerdict 0 (fraud proof.now.claim)) (O.taken out.old) (O.taken out.new)
        (O.faults out.old) (O.faults out.new) (out.new ≡ out.old) result }
{
    let status = Status::Fraud(proof.axis, proof.index);
    let mut text = Vec::new(alloc);
    match write_proof(proof, &mut text) {
        Ok(()) => put(&text, status, out),
        Err(_) => Status::NoMemory,
    }
}

/// Writes the verdict of a repair, where so many frames were lies. All memory is taken before the write.
pub fn give_verdict<O: Sink>(
    alloc: Global,
    header: &Header,
    verdict: Verdict,
    lies: u64,
    out: &mut O,
) -> Status
    requires { (ms : List sent.Message) × IsVerdict header.now ms (verdict_parts verdict) }
    ensures { EndsAtOnce (GivesVerdict lies (verdict_parts verdict)) (O.taken out.old) (O.taken out.new)
        (O.faults out.old) (O.faults out.new) (out.new ≡ out.old) result }
{
    let _k = header.k;
    match verdict {
        Verdict::Whole(square) => give(square_frame(square), &mut Vec::new(alloc), out),
        Verdict::Missing(cells) => give_missing(alloc, cells, lies, out),
        Verdict::Fraud(proof) => give_proof(alloc, &proof, out),
        Verdict::Clash(clash) => {
            give_with(clash_frame(clash), Status::Clash, &mut Vec::new(alloc), out)
        }
    }
}
