//! import share-proof FILE, export share-proof FILE: a root proof along a row as the message ShareProof of one share.

ghost use Rattle.std.specs.Prelude.{◌≡◌, IsSome};
ghost use Rattle.celestia_pb.specs.ShareProofs.{share_proof_value};
ghost use Rattle.da_wire.specs.declared.frames.Frame.TheVariants as FrameOf;
ghost use Rattle.da_wire.specs.Spelling.{spelling};
ghost use Rattle.da_status.specs.Judging.{Judged};
ghost use Rattle.da_files.specs.Contents.{contents_of};
ghost use Rattle.da_files.specs.Frames.{ReadsSingle};
ghost use Rattle.da_files.specs.Forms.{single_judged};
ghost use Rattle.da_exchanging.specs.Made.{IsMadeOutput};
ghost use Rattle.da_exchanging.specs.ShareProof.{rooted_of, rooted_in, ProofAnswer, ImportShareProofOf, ExportShareProofOf};

use crate::made::{FILE, frame_refusal, frame_text, message_refusal};
use blob_commit::RootedMessage;
use celestia_pb::{put_share_proof, read_share_proof, share_proof_size};
use da_files::{Unread, file, reason};
use da_status::{Asked, Status};
use da_wire::{Frame, frame_law, read_only, wire_laws};
use std::alloc::Global;

/// The root proof that a frame is.
fn rooted_of(frame: Frame) -> Option<RootedMessage>
    ensures { result ≡ rooted_of frame }
{
    match frame {
        Frame::Rooted(proof) => Some(proof),
        other => {
            drop(other);
            None
        }
    }
}

/// The root proof that a file is.
fn rooted_in(alloc: Global, bytes: &[u8]) -> Result<RootedMessage, Unread>
    ensures { ReadsSingle result (rooted_in bytes.now) }
{
    match read_only(alloc, bytes, b"R") {
        Ok(frame) => match rooted_of(frame) {
            Some(proof) => Ok(proof),
            None => Err(Unread::BadForm(0)),
        },
        Err(error) => Err(reason(error)),
    }
}

/// The frame of a root proof.
fn rooted_frame(proof: RootedMessage) -> Frame
    ensures value { result ≡ FrameOf.Rooted proof }
    ensures spelled { IsSome (spelling result) }
{
    wire_laws();
    let frame = Frame::Rooted(proof);
    frame_law(&frame);
    frame
}

/// The frame of the root proof that the message in FILE is.
pub(crate) fn import(alloc: Global, files: &[Vec<u8>]) -> Result<Vec<u8>, Status>
    ensures { IsMadeOutput (Judged (single_judged share_proof_value (contents_of files.now))
        (ImportShareProofOf (contents_of files.now))) result }
{
    match read_share_proof(file(files, FILE)) {
        Ok(proof) => frame_text(alloc, rooted_frame(proof)),
        Err(why) => Err(message_refusal(why)),
    }
}

/// The message of a root proof, if it has one.
fn message(alloc: Global, proof: RootedMessage) -> Result<Vec<u8>, Status>
    ensures { IsMadeOutput (ProofAnswer proof) result }
{
    let Some(size) = share_proof_size(&proof) else {
        return Err(Status::BadRequest(Asked::Form));
    };
    let Ok(mut text) = Vec::with_capacity(alloc, size) else {
        return Err(Status::NoMemory);
    };
    put_share_proof(&proof, &mut text);
    Ok(text)
}

/// The message of the root proof in FILE, if it has one.
pub(crate) fn export(alloc: Global, files: &[Vec<u8>]) -> Result<Vec<u8>, Status>
    ensures { IsMadeOutput (Judged (single_judged rooted_in (contents_of files.now))
        (ExportShareProofOf (contents_of files.now))) result }
{
    match rooted_in(alloc, file(files, FILE)) {
        Ok(proof) => message(alloc, proof),
        Err(why) => Err(frame_refusal(why)),
    }
}
