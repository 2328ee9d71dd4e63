//! Writing frames: capacity for all of a spelling is made first, and then no write can fail.

ghost use Rattle.std.specs.Prelude.{◌≡◌, length, None, ◌+◌, ◌++◌, ◌↔◌, OnOk, OnErr, IsErrOf, IsSome};
ghost use Rattle.namespace_id.specs.Answers.{HasCapacity};
ghost use Rattle.da_wire.specs.Spelling.{spelling};
ghost use Rattle.da_wire.specs.declared.frames.Frame.TheVariants as FrameOf;
ghost use Rattle.da_wire.specs.Writing.{kind_of, payload_of, has_none, HasSize, AppendsSpelling, IsReadBack, appended};
ghost use Rattle.frame_payloads.specs.Payloads.{IsShort, IsSize};

use crate::bounds::frame_law;
use crate::frames::HEAD_SIZE;
use crate::{Frame, SpellError};
use axis_roots::FraudProof;
use frame_payloads::{
    REFUSAL_SIZE, SAMPLE_SIZE, block_size, clash_size, commit_size, fraud_size, header_size,
    message_size, missing_size, names_size, proof_law, proof_size, put_block, put_clash,
    put_commit, put_fraud, put_header, put_message, put_missing, put_names, put_proof, put_refusal,
    put_rooted, put_sample, put_square, put_transactions, request_size, rooted_size, square_size,
    transactions_size,
};
use namespace_id::{NoMemory, append};

/// The byte of the kind of a value.
fn kind_of(frame: &Frame) -> u8
    ensures { result ≡ kind_of frame.now }
{
    match frame {
        Frame::Header(_) => b'H',
        Frame::Square(_) => b'S',
        Frame::Message(_) => b'M',
        Frame::Names(..) => b'N',
        Frame::Fraud(_) => b'B',
        Frame::Missing(_) => b'K',
        Frame::Clash(_) => b'X',
        Frame::Sample(..) => b'Q',
        Frame::Request(_) => b'P',
        Frame::Block(_) => b'V',
        Frame::Commit(_) => b'C',
        Frame::Rooted(_) => b'R',
        Frame::Transactions(_) => b'T',
        Frame::Refusal(_) => b'E',
        Frame::State => b'A',
    }
}

/// The length of the payload that is written of a value, where one is.
fn written_size(frame: &Frame) -> Option<u32>
    ensures { IsSize (has_none frame.now) (payload_of frame.now) result }
{
    match frame {
        Frame::Header(header) => Some(header_size(header)),
        Frame::Square(square) => Some(square_size(square)),
        Frame::Message(message) => Some(message_size(message)),
        Frame::Names(name, answer) => names_size(name, answer),
        Frame::Fraud(claim) => fraud_size(claim),
        Frame::Missing(cells) => missing_size(cells),
        Frame::Clash(clash) => clash_size(clash),
        Frame::Sample(..) => Some(SAMPLE_SIZE),
        Frame::Request(name) => Some(request_size(name)),
        Frame::Block(block) => block_size(block),
        Frame::Commit(proof) => commit_size(proof),
        Frame::Rooted(proof) => Some(rooted_size(proof)),
        Frame::Transactions(units) => transactions_size(&units.list),
        Frame::Refusal(_) => Some(REFUSAL_SIZE),
        Frame::State => Some(0),
    }
}

/// The length of the payload of a value that has a spelling.
fn payload_size(frame: &Frame) -> Option<u32>
    ensures { HasSize frame.now result }
{
    written_size(frame)
}

/// Appends the payload of a value.
fn put_payload(out: &mut Vec<u8>, frame: &Frame)
    requires capacity { HasCapacity out.old (length (payload_of frame.now)) }
    requires few { IsShort (payload_of frame.now) }
    requires spelled { IsSome (spelling frame.now) }
    ensures appended { out.new.items ≡ out.old.items ++ payload_of frame.now }
{
    match frame {
        Frame::Header(header) => put_header(out, header),
        Frame::Square(square) => put_square(out, square),
        Frame::Message(message) => put_message(out, message),
        Frame::Names(name, answer) => put_names(out, name, answer),
        Frame::Fraud(claim) => put_fraud(out, claim),
        Frame::Missing(cells) => put_missing(out, cells),
        Frame::Clash(clash) => put_clash(out, clash),
        Frame::Sample(cell, axis) => put_sample(out, *cell, *axis),
        Frame::Request(name) => append(out, &name.0),
        Frame::Block(block) => put_block(out, block),
        Frame::Commit(proof) => put_commit(out, proof),
        Frame::Rooted(proof) => put_rooted(out, proof),
        Frame::Transactions(units) => put_transactions(out, &units.list),
        Frame::Refusal(refusal) => put_refusal(out, *refusal),
        Frame::State => {}
    }
}

/// Appends the one spelling of a value, which is read back as the value.
///
/// Refuses a value that has none (`Unspellable`), then out of memory; a refusal leaves `out` as it was.
///
/// docs/FORMATS.md, "Frames" and "Payloads".
pub fn write_frame(frame: &Frame, out: &mut Vec<u8>) -> Result<(), SpellError>
    ensures written { OnOk result (AppendsSpelling frame.now out.old.items out.new.items) }
    ensures read_back { OnOk result (IsReadBack frame.now (appended out.old.items out.new.items)) }
    ensures unspellable { IsErrOf result SpellError.Unspellable ↔ (spelling frame.now ≡ None) }
    ensures unchanged { OnErr result (out.new.items ≡ out.old.items) }
{
    let Some(size) = payload_size(frame) else {
        return Err(SpellError::Unspellable);
    };
    if out.reserve(HEAD_SIZE + size as usize).is_err() {
        return Err(SpellError::NoMemory);
    }
    append(out, &[kind_of(frame)]);
    append(out, &size.to_be_bytes());
    put_payload(out, frame);
    frame_law(frame);
    Ok(())
}

/// Appends the one spelling of a fraud proof's claim, which is read back as the claim. Refuses only
/// where it is out of memory, and then leaves `out` as it was.
///
/// docs/FORMATS.md, "Payloads".
pub fn write_proof(proof: &FraudProof, out: &mut Vec<u8>) -> Result<(), NoMemory>
    ensures written { OnOk result
        (AppendsSpelling (FrameOf.Fraud proof.now.claim) out.old.items out.new.items) }
    ensures read_back { OnOk result
        (IsReadBack (FrameOf.Fraud proof.now.claim) (appended out.old.items out.new.items)) }
    ensures unchanged { OnErr result (out.new.items ≡ out.old.items) }
{
    let size = proof_size(proof);
    if out.reserve(HEAD_SIZE + size as usize).is_err() {
        return Err(NoMemory);
    }
    append(out, &[b'B']);
    append(out, &size.to_be_bytes());
    put_proof(out, proof);
    proof_law(proof);
    Ok(())
}
