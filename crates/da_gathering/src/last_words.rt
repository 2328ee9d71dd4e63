//! The last words of a repair: one frame, written where there is room for it.

ghost use Rattle.std.specs.Prelude.{◌≡◌, ◌≤◌, ◌<◌, [], List, length, vec_capacity, true, false};
ghost use Rattle.namespace_id.specs.Cells.{is_width};
ghost use Rattle.axis_roots.specs.declared.message.messages.Message as sent;
ghost use Rattle.repair_queue.specs.Verdicts.{whole, missing, fraud, clash, IsVerdict};
ghost use Rattle.repair_queue.specs.Answers.{verdict_parts};
ghost use Rattle.frame_payloads.specs.kinds.Clash.{has_empty};
ghost use Rattle.da_judging.specs.Repair.{GivesVerdict};
ghost use Rattle.da_gathering.specs.Gatherings.{most_gathered};

use axis_roots::FraudProof;
use da_status::Status;
use da_talk::{put_head, put_missing_frame};
use da_wire::value_laws;
use data_header::Header;
use frame_payloads::{
    MOST_MESSAGE, clash_size, proof_law, proof_size, put_clash, put_proof, put_square, square_size,
};
use hash_clash::Clash;
use namespace_id::{Cells, SHARE_SIZE, shares_law};
use repair_queue::Verdict;
use square_layout::Square;

/// The bytes of a frame before its payload.
const HEAD_SIZE: usize = 5;

/// The most bytes that a repair under a header of width `k` writes at once: the text of its talk needs room for so many.
pub fn most_gathered(k: u16) -> usize
    requires { is_width k ≡ true }
    ensures { result ≡ most_gathered k }
{
    let k = k as usize;
    HEAD_SIZE + (2 + SHARE_SIZE * (k * k)).max(6 + MOST_MESSAGE * k)
}

/// Writes a square into an empty text.
fn put_whole(text: &mut Vec<u8>, square: &Square, lies: u64) -> Status
    requires empty { text.old.items ≡ [] }
    requires capacity { most_gathered square.now.k ≤ vec_capacity text.old }
    ensures { GivesVerdict lies (whole square.now) text.new.items result }
{
    shares_law(&square.shares);
    let _k = square.k;
    put_head(text, b'S', square_size(square));
    put_square(text, square);
    Status::Done
}

/// Writes missing cells into an empty text.
fn put_missing(text: &mut Vec<u8>, cells: &Cells, lies: u64) -> Status
    requires empty { text.old.items ≡ [] }
    requires some { 0 < length cells.now.list }
    requires capacity { most_gathered cells.now.k ≤ vec_capacity text.old }
    ensures { GivesVerdict lies (missing cells.now) text.new.items result }
{
    value_laws();
    let k = cells.k;
    put_missing_frame(text, k, &cells.list);
    Status::Missing(cells.list.len() as u32, lies)
}

/// Writes the claim of a fraud proof into an empty text.
fn put_fraud(text: &mut Vec<u8>, proof: &FraudProof, lies: u64) -> Status
    requires empty { text.old.items ≡ [] }
    requires capacity { most_gathered (length proof.now.claim.cells) ≤ vec_capacity text.old }
    ensures { GivesVerdict lies (fraud proof.now.claim) text.new.items result }
{
    proof_law(proof);
    put_head(text, b'B', proof_size(proof));
    put_proof(text, proof);
    Status::Fraud(proof.axis, proof.index)
}

/// Writes a collision into an empty text.
fn put_pair(text: &mut Vec<u8>, pair: &Clash, lies: u64) -> Status
    requires empty { text.old.items ≡ [] }
    requires full { has_empty pair.now ≡ false }
    requires capacity { most_gathered 1 ≤ vec_capacity text.old }
    ensures { GivesVerdict lies (clash pair.now.left pair.now.right) text.new.items result }
{
    value_laws();
    let _left = pair.left().bytes();
    let _right = pair.right().bytes();
    put_head(text, b'X', clash_size(pair).unwrap());
    put_clash(text, pair);
    Status::Clash
}

/// Writes the answer of a repair into an empty text, where so many frames were lies. It takes no memory.
pub(crate) fn put_verdict(
    text: &mut Vec<u8>,
    header: &Header,
    verdict: Verdict,
    lies: u64,
) -> Status
    requires empty { text.old.items ≡ [] }
    requires verdict { (ms : List sent.Message) × IsVerdict header.now ms (verdict_parts verdict) }
    requires capacity { most_gathered header.now.k ≤ vec_capacity text.old }
    ensures { GivesVerdict lies (verdict_parts verdict) text.new.items result }
{
    let _k = header.k;
    match verdict {
        Verdict::Whole(square) => put_whole(text, &square, lies),
        Verdict::Missing(cells) => put_missing(text, &cells, lies),
        Verdict::Fraud(proof) => put_fraud(text, &proof, lies),
        Verdict::Clash(pair) => put_pair(text, &pair, lies),
    }
}
