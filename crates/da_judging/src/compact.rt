//! compact HEADER CLAIM: an accepted fraud claim with one proof of all its cells along the accused axis.

ghost use Rattle.std.specs.Prelude.{◌≡◌};
ghost use Rattle.axis_roots.specs.Claims.{ClaimParts, Accepts};
ghost use Rattle.befp_verify.specs.Compacting.{IsCompacted};
ghost use Rattle.da_files.specs.Contents.{contents_of};
ghost use Rattle.da_files.specs.Frames.{claim_in};
ghost use Rattle.da_judging.specs.Compact.{WritesMade, Compacts, CompactsJudged, CompactOf};
ghost use Rattle.da_files.specs.Forms.{under_judged};
ghost use Rattle.da_status.specs.Judging.{Judged};
ghost use Rattle.da_status.specs.Outcome.{EndsAtOnce};

use crate::verify::{fraud_number, verdict_line};
use axis_roots::FraudClaim;
use befp_verify::{Compacted, Upheld, VerifyRoom, verify};
use da_files::{
    Unread, claim_frame, claim_in, clash_frame, file, give, give_with, one_header, put,
};
use da_io::Sink;
use da_status::Status;
use data_header::Header;
use std::alloc::Global;

/// The place of the last file among the words that name files.
const CLAIM: u32 = 1;

/// Writes what a claim was made into that is accepted under a header.
fn give_made<O: Sink>(alloc: Global, header: &Header, made: Compacted, out: &mut O) -> Status
    requires made { (claim : ClaimParts) × Accepts header.now claim × IsCompacted header.now claim made }
    ensures { EndsAtOnce (WritesMade made) (O.taken out.old) (O.taken out.new) (O.faults out.old)
        (O.faults out.new) (out.new ≡ out.old) result }
{
    match made {
        Compacted::Claim(claim) => give(claim_frame(claim), &mut Vec::new(alloc), out),
        Compacted::Clash(clash) => {
            give_with(clash_frame(clash), Status::Clash, &mut Vec::new(alloc), out)
        }
    }
}

/// Writes what an accepted claim is made into. All memory is taken before the write.
fn give_compacted<O: Sink>(alloc: Global, header: &Header, upheld: Upheld, out: &mut O) -> Status
    requires accepted { Accepts header.now upheld }
    ensures { EndsAtOnce (Compacts header.now upheld) (O.taken out.old) (O.taken out.new)
        (O.faults out.old) (O.faults out.new) (out.new ≡ out.old) result }
{
    let made = befp_verify::compact(alloc, header, &upheld);
    let _claim = upheld.into_claim();
    match made {
        Ok(made) => give_made(alloc, header, made, out),
        Err(_) => Status::NoMemory,
    }
}

/// Writes what a claim is made into that is accepted under a header, or the number of the check that refuses it.
fn judge<O: Sink>(alloc: Global, header: &Header, claim: FraudClaim, out: &mut O) -> Status
    ensures { EndsAtOnce (CompactsJudged header.now claim) (O.taken out.old) (O.taken out.new)
        (O.faults out.old) (O.faults out.new) (out.new ≡ out.old) result }
{
    let Ok(mut room) = VerifyRoom::new(alloc, header.k) else {
        return Status::NoMemory;
    };
    match verify(&mut room, header, claim) {
        Ok(upheld) => give_compacted(alloc, header, upheld, out),
        Err(refused) => {
            let line = verdict_line(Some(fraud_number(refused.why)));
            put(line.as_bytes(), Status::Refused, out)
        }
    }
}

/// Makes the claim in CLAIM compact under the header in HEADER.
pub fn execute<O: Sink>(alloc: Global, files: &[Vec<u8>], out: &mut O) -> Status
    ensures { EndsAtOnce (Judged (under_judged claim_in (contents_of files.now))
        (CompactOf (contents_of files.now))) (O.taken out.old) (O.taken out.new) (O.faults out.old)
        (O.faults out.new) (out.new ≡ out.old) result }
{
    let header = match one_header(alloc, files) {
        Ok(header) => header,
        Err(status) => return status,
    };
    match claim_in(alloc, file(files, CLAIM)) {
        Ok(claim) => judge(alloc, &header, claim, out),
        Err(Unread::BadForm(at)) => Status::BadInput(CLAIM, at),
        Err(Unread::NoMemory) => Status::NoMemory,
    }
}
