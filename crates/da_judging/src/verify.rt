//! verify HEADER ANSWER, verify HEADER ANSWER REQUEST, verify HEADER ANSWER COMMITMENT: whether one answer holds
//! under a header, and is to a request or proves a commitment.

ghost use Rattle.std.specs.Prelude.{◌≡◌, IfOk};
ghost use Rattle.std.specs.Option.{option_map};
ghost use Rattle.data_header.specs.DataRoots.{data_root_of};
ghost use Rattle.blob_commit.specs.Refusals.{commit_refusal, rooted_refusal};
ghost use Rattle.da_judging.specs.declared.answers.Answer.TheVariants as AnswerOf;
ghost use Rattle.da_judging.specs.Answers.{is_answer_to};
ghost use Rattle.da_files.specs.Contents.{contents_of};
ghost use Rattle.da_files.specs.Frames.{ReadsSingle, WritesText};
ghost use Rattle.da_judging.specs.Verify.{check_number, ns_number, fraud_number, commit_number, rooted_number, IsAnswerRefusal, verdict_line, verdict_status, answer_in, VerifyOf};
ghost use Rattle.da_judging.specs.VerifyFor.{request_in, IsRefusalFor, VerifiesIf, verify_for_judged, VerifyForOf};
ghost use Rattle.da_judging.specs.VerifyCommitment.{states_commitment, VerifyCommitmentOf};
ghost use Rattle.da_files.specs.Forms.{under_judged};
ghost use Rattle.da_status.specs.Judging.{Judged};
ghost use Rattle.da_status.specs.Outcome.{EndsAtOnce};
ghost use Rattle.da_status.specs.Statuses.{status_kind, output};

use crate::answers::{Answer, Request, answer_of, is_answer_to, request_of};
use crate::forms::header_and_answer;
use axis_roots::{CheckRefusal, FraudClaim, opens};
use befp_verify::{FraudRefusal, VerifyRoom};
use blob_commit::{CommitProof, CommitRefusal, RootedMessage, RootedRefusal, check_commit, rooted};
use da_files::{Unread, file, put, reason};
use da_io::Sink;
use da_status::{Line, Status, around};
use da_wire::read_only;
use data_header::{Header, data_root};
use namespace_id::NoMemory;
use square_serve::{NsRefusal, check_namespace};
use std::alloc::Global;

/// The place of the last file among the words that name files.
const REQUEST: u32 = 2;

/// The answer that a file is.
pub fn answer_in(alloc: Global, bytes: &[u8]) -> Result<Answer, Unread>
    ensures { ReadsSingle result (answer_in bytes.now) }
{
    match read_only(alloc, bytes, b"MNBCR") {
        Ok(frame) => match answer_of(frame) {
            Some(answer) => Ok(answer),
            None => Err(Unread::BadForm(0)),
        },
        Err(error) => Err(reason(error)),
    }
}

/// The request that a file is.
pub fn request_in(alloc: Global, bytes: &[u8]) -> Result<Request, Unread>
    ensures { ReadsSingle result (request_in bytes.now) }
{
    match read_only(alloc, bytes, b"QP") {
        Ok(frame) => match request_of(frame) {
            Some(request) => Ok(request),
            None => Err(Unread::BadForm(0)),
        },
        Err(error) => Err(reason(error)),
    }
}

/// Whether an answer is a commitment proof that states this commitment, before any proof is looked at.
/// It takes no memory.
pub fn states_commitment(commitment: &[u8; 32], answer: &Answer) -> bool
    ensures { result ≡ states_commitment commitment.now answer.now }
{
    match answer {
        Answer::Commit(proof) => proof.commitment == *commitment,
        Answer::Message(_) | Answer::Names(..) | Answer::Fraud(_) | Answer::Rooted(_) => false,
    }
}

/// The number of the check that refuses a sample.
pub fn check_number(why: CheckRefusal) -> u64
    ensures { result ≡ check_number why }
{
    match why {
        CheckRefusal::OutOfSquare => 1,
        CheckRefusal::NodeCount => 2,
        CheckRefusal::Unordered => 3,
        CheckRefusal::OtherRoot => 4,
    }
}

/// The number of the check that refuses a namespace answer.
fn ns_number(why: NsRefusal) -> u64
    ensures { result ≡ ns_number why }
{
    match why {
        NsRefusal::Parity => 1,
        NsRefusal::Rows(_) => 2,
        NsRefusal::Proof(..) => 3,
    }
}

/// The number of the check that refuses a fraud claim.
pub(crate) fn fraud_number(why: FraudRefusal) -> u64
    ensures { result ≡ fraud_number why }
{
    match why {
        FraudRefusal::Shape => 1,
        FraudRefusal::Cell(..) => 2,
        FraudRefusal::Set(..) => 4,
        FraudRefusal::AxisMatches => 3,
    }
}

/// The number of the check that refuses a commitment proof.
fn commit_number(why: CommitRefusal) -> u64
    ensures { result ≡ commit_number why }
{
    match why {
        CommitRefusal::Shape => 1,
        CommitRefusal::Root(_) => 2,
        CommitRefusal::Nodes(..) => 3,
        CommitRefusal::Commitment => 4,
    }
}

/// The number of the check that refuses a root proof.
fn rooted_number(why: RootedRefusal) -> u64
    ensures { result ≡ rooted_number why }
{
    match why {
        RootedRefusal::Shape => 1,
        RootedRefusal::Root => 2,
        RootedRefusal::Path(_) => 3,
    }
}

/// The number of the check that refuses a fraud claim, none of one that is accepted. It takes the
/// memory that verifying needs.
fn refuse_claim(alloc: Global, header: &Header, claim: FraudClaim) -> Result<Option<u64>, NoMemory>
    ensures { IfOk result (λ refusal. IsAnswerRefusal header.now (AnswerOf.Fraud claim) refusal) }
{
    let mut room = VerifyRoom::new(alloc, header.k)?;
    match befp_verify::verify(&mut room, header, claim) {
        Ok(upheld) => {
            let _claim = upheld.into_claim();
            Ok(None)
        }
        Err(refused) => Ok(Some(fraud_number(refused.why))),
    }
}

/// The number of the check that refuses a commitment proof under a header's data root, none of one
/// that holds.
fn refuse_commit(header: &Header, proof: &CommitProof) -> Option<u64>
    ensures { result ≡
        option_map commit_number (commit_refusal (data_root_of header.now) proof.now) }
{
    match check_commit(&data_root(header), proof) {
        Ok(()) => None,
        Err(why) => Some(commit_number(why)),
    }
}

/// The number of the check that refuses a root proof under a header's data root, none of one that
/// holds.
fn refuse_rooted(header: &Header, proof: &RootedMessage) -> Option<u64>
    ensures { result ≡
        option_map rooted_number (rooted_refusal (data_root_of header.now) proof.now) }
{
    match rooted(&data_root(header), proof) {
        Ok(()) => None,
        Err(why) => Some(rooted_number(why)),
    }
}

/// The number of the check that refuses an answer, none of one that holds. It takes memory for a fraud
/// claim alone.
pub fn refusal_of(alloc: Global, header: &Header, answer: Answer) -> Result<Option<u64>, NoMemory>
    ensures { IfOk result (λ refusal. IsAnswerRefusal header.now answer refusal) }
{
    match answer {
        Answer::Message(message) => match opens(header, &message) {
            Ok(()) => Ok(None),
            Err(why) => Ok(Some(check_number(why))),
        },
        Answer::Names(name, answer) => match check_namespace(header, &name, &answer) {
            Ok(()) => Ok(None),
            Err(why) => Ok(Some(ns_number(why))),
        },
        Answer::Fraud(claim) => refuse_claim(alloc, header, claim),
        Answer::Commit(proof) => Ok(refuse_commit(header, &proof)),
        Answer::Rooted(proof) => Ok(refuse_rooted(header, &proof)),
    }
}

/// The number of the check that refuses an answer, by whether it is what is asked for; none of one that
/// holds and is. It takes memory for a fraud claim alone.
fn refusal_if(
    asked: bool,
    alloc: Global,
    header: &Header,
    answer: Answer,
) -> Result<Option<u64>, NoMemory>
    ensures { IfOk result (λ refusal. IsRefusalFor asked header.now answer refusal) }
{
    if !asked {
        return Ok(Some(0));
    }
    refusal_of(alloc, header, answer)
}

/// The number of the check that refuses an answer to a request, none of one that holds. It takes
/// memory for a fraud claim alone.
pub fn refusal_for(
    alloc: Global,
    header: &Header,
    answer: Answer,
    request: &Request,
) -> Result<Option<u64>, NoMemory>
    ensures { IfOk result (λ refusal.
        IsRefusalFor (is_answer_to request.now answer) header.now answer refusal) }
{
    refusal_if(is_answer_to(request, &answer), alloc, header, answer)
}

/// The line for an answer.
#[tactic(auto, using(da_status::proofs::DigitLemmas::digits_fit))]
pub(crate) fn verdict_line(refusal: Option<u64>) -> Line
    ensures { result ≡ verdict_line refusal }
{
    let mut line = Line::new();
    match refusal {
        Some(number) => around(&mut line, b"refused ", number, b"\n"),
        None => line.put(b"ok\n"),
    }
    line
}

/// The status for an answer.
fn verdict_status(refusal: Option<u64>) -> Status
    ensures value { result ≡ verdict_status refusal }
    ensures output { status_kind result ≡ output }
{
    match refusal {
        Some(_) => Status::Refused,
        None => Status::Done,
    }
}

/// Writes the line for an answer. It takes no memory.
pub(crate) fn give_line<O: Sink>(refusal: Option<u64>, out: &mut O) -> Status
    ensures { EndsAtOnce (WritesText (verdict_status refusal) (verdict_line refusal))
        (O.taken out.old) (O.taken out.new) (O.faults out.old) (O.faults out.new)
        (out.new ≡ out.old) result }
{
    let line = verdict_line(refusal);
    put(line.as_bytes(), verdict_status(refusal), out)
}

/// Writes the line for an answer under a header, by whether it is what is asked for. Where there is no
/// memory for a fraud claim nothing is written.
fn verify<O: Sink>(
    asked: bool,
    alloc: Global,
    header: &Header,
    answer: Answer,
    out: &mut O,
) -> Status
    ensures { EndsAtOnce (VerifiesIf asked header.now answer) (O.taken out.old) (O.taken out.new)
        (O.faults out.old) (O.faults out.new) (out.new ≡ out.old) result }
{
    let Ok(refusal) = refusal_if(asked, alloc, header, answer) else {
        return Status::NoMemory;
    };
    give_line(refusal, out)
}

/// Answers whether the answer in ANSWER holds under the header in HEADER. All memory is taken before the
/// write.
#[tactic(auto, using(da_files::proofs::FormLemmas::refused_once))]
pub fn execute<O: Sink>(alloc: Global, files: &[Vec<u8>], out: &mut O) -> Status
    ensures { EndsAtOnce (Judged (under_judged answer_in (contents_of files.now))
        (VerifyOf (contents_of files.now))) (O.taken out.old) (O.taken out.new) (O.faults out.old)
        (O.faults out.new) (out.new ≡ out.old) result }
{
    let (header, answer) = match header_and_answer(alloc, files) {
        Ok(read) => read,
        Err(status) => return status,
    };
    verify(true, alloc, &header, answer, out)
}

/// Answers whether the answer in ANSWER is to the request in REQUEST, and holds under the header in
/// HEADER. All memory is taken before the write.
pub fn execute_for<O: Sink>(alloc: Global, files: &[Vec<u8>], out: &mut O) -> Status
    ensures { EndsAtOnce (Judged (verify_for_judged (contents_of files.now))
        (VerifyForOf (contents_of files.now))) (O.taken out.old) (O.taken out.new)
        (O.faults out.old) (O.faults out.new) (out.new ≡ out.old) result }
{
    let (header, answer) = match header_and_answer(alloc, files) {
        Ok(read) => read,
        Err(status) => return status,
    };
    match request_in(alloc, file(files, REQUEST)) {
        Ok(request) => {
            let asked = is_answer_to(&request, &answer);
            let status = verify(asked, alloc, &header, answer, out);
            drop(header);
            status
        }
        Err(Unread::BadForm(at)) => {
            drop(answer);
            drop(header);
            Status::BadInput(REQUEST, at)
        }
        Err(Unread::NoMemory) => {
            drop(answer);
            drop(header);
            Status::NoMemory
        }
    }
}

/// Answers whether the answer in ANSWER is a proof of this commitment, and holds under the header in
/// HEADER. All memory is taken before the write.
#[tactic(auto, using(da_files::proofs::FormLemmas::refused_once))]
pub fn execute_commitment<O: Sink>(
    alloc: Global,
    files: &[Vec<u8>],
    commitment: &[u8; 32],
    out: &mut O,
) -> Status
    ensures { EndsAtOnce (Judged (under_judged answer_in (contents_of files.now))
        (VerifyCommitmentOf commitment.now (contents_of files.now))) (O.taken out.old)
        (O.taken out.new) (O.faults out.old) (O.faults out.new) (out.new ≡ out.old) result }
{
    let (header, answer) = match header_and_answer(alloc, files) {
        Ok(read) => read,
        Err(status) => return status,
    };
    let asked = states_commitment(commitment, &answer);
    verify(asked, alloc, &header, answer, out)
}
