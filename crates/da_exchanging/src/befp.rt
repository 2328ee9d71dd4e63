//! import befp FILE HASH HEIGHT, export befp FILE WIDTH HASH HEIGHT: a fraud claim without a set as the message BadEncoding.

ghost use Rattle.celestia_pb.specs.Befp.{befp_value};
ghost use Rattle.da_status.specs.Judging.{Judged};
ghost use Rattle.da_files.specs.Contents.{contents_of};
ghost use Rattle.da_files.specs.Frames.{claim_in};
ghost use Rattle.da_files.specs.Forms.{single_judged};
ghost use Rattle.da_exchanging.specs.Made.{WritesIf, IsMadeOutput};
ghost use Rattle.da_exchanging.specs.Befp.{claim_message, ImportBefpOf, ExportBefpOf};

use crate::made::{FILE, frame_refusal, frame_text, message_refusal};
use axis_roots::FraudClaim;
use celestia_pb::{befp_laws, befp_size, put_befp, read_befp};
use da_files::{claim_frame, claim_in, file};
use da_status::{Asked, Status};
use namespace_id::bytes_law;
use std::alloc::Global;

/// The frame of the claim that the message in FILE is, of the header with this hash and this height.
pub(crate) fn import(
    alloc: Global,
    files: &[Vec<u8>],
    hash: &[u8; 32],
    height: u64,
) -> Result<Vec<u8>, Status>
    ensures { IsMadeOutput (Judged (single_judged (befp_value hash.now height) (contents_of files.now))
        (ImportBefpOf hash.now height (contents_of files.now))) result }
{
    befp_laws();
    let bytes = file(files, FILE);
    bytes_law(bytes);
    match read_befp(alloc, hash, height, bytes) {
        Ok(claim) => frame_text(alloc, claim_frame(claim)),
        Err(why) => Err(message_refusal(why)),
    }
}

/// The message of a claim against an axis of a square of width `k`. A claim without a message is refused.
fn message(
    alloc: Global,
    k: u16,
    hash: &[u8; 32],
    height: u64,
    claim: &FraudClaim,
) -> Result<Vec<u8>, Status>
    ensures { IsMadeOutput (WritesIf (claim_message k hash.now height claim.now)) result }
{
    let Some(size) = befp_size(k, height, claim) else {
        return Err(Status::BadRequest(Asked::Form));
    };
    let Ok(mut text) = Vec::with_capacity(alloc, size) else {
        return Err(Status::NoMemory);
    };
    put_befp(k, hash, height, claim, &mut text);
    Ok(text)
}

/// The message of the claim in FILE, against an axis of a square of width `k` whose header has this hash and this height.
pub(crate) fn export(
    alloc: Global,
    files: &[Vec<u8>],
    k: u16,
    hash: &[u8; 32],
    height: u64,
) -> Result<Vec<u8>, Status>
    ensures { IsMadeOutput (Judged (single_judged claim_in (contents_of files.now))
        (ExportBefpOf k hash.now height (contents_of files.now))) result }
{
    match claim_in(alloc, file(files, FILE)) {
        Ok(claim) => message(alloc, k, hash, height, &claim),
        Err(why) => Err(frame_refusal(why)),
    }
}
