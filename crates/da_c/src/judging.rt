//! What is judged under a header.

ghost use Rattle.std.specs.Prelude.{◌≡◌};
ghost use Rattle.da_c.specs.Replies.{reply_status, IsExact};
ghost use Rattle.da_c.specs.Calls.{Checks, IsProvedUnder, IsOwnUnder, HoldsCall, VerifyCall};

use crate::replies::{Reply, unread_reply, verdict};
use axis_roots::opens;
use da_files::{header_in, message_in};
use da_judging::{answer_in, check_number, refusal_for, refusal_of, request_in};
use std::alloc::Global;

/// The places of the arguments.
pub(crate) const HEADER: u32 = 0;

const ANSWER: u32 = 1;

const REQUEST: u32 = 2;

/// Whether a sample is proved under a header.
pub(crate) fn check(alloc: Global, header: &[u8], message: &[u8]) -> Reply
    ensures reply { Checks header.now message.now result }
    ensures proved { IsExact (IsProvedUnder header.now message.now) (reply_status result) }
    ensures own { reply_status result ≡ 0 → IsOwnUnder header.now message.now }
{
    let header = match header_in(alloc, header) {
        Ok(header) => header,
        Err(why) => return unread_reply(HEADER, why),
    };
    let message = match message_in(message) {
        Ok(message) => message,
        Err(why) => return unread_reply(ANSWER, why),
    };
    match opens(&header, &message) {
        Ok(()) => verdict(None),
        Err(why) => verdict(Some(check_number(why))),
    }
}

/// Whether an answer holds under a header, whatever was asked.
pub(crate) fn holds(alloc: Global, header: &[u8], answer: &[u8]) -> Reply
    ensures { HoldsCall header.now answer.now result }
{
    let header = match header_in(alloc, header) {
        Ok(header) => header,
        Err(why) => return unread_reply(HEADER, why),
    };
    let answer = match answer_in(alloc, answer) {
        Ok(answer) => answer,
        Err(why) => return unread_reply(ANSWER, why),
    };
    match refusal_of(alloc, &header, answer) {
        Ok(refusal) => verdict(refusal),
        Err(_) => Reply::NoMemory,
    }
}

/// Whether an answer is to a request, and holds under a header.
pub(crate) fn verify(alloc: Global, header: &[u8], answer: &[u8], request: &[u8]) -> Reply
    ensures { VerifyCall header.now answer.now request.now result }
{
    let header = match header_in(alloc, header) {
        Ok(header) => header,
        Err(why) => return unread_reply(HEADER, why),
    };
    let answer = match answer_in(alloc, answer) {
        Ok(answer) => answer,
        Err(why) => return unread_reply(ANSWER, why),
    };
    let request = match request_in(alloc, request) {
        Ok(request) => request,
        Err(why) => return unread_reply(REQUEST, why),
    };
    match refusal_for(alloc, &header, answer, &request) {
        Ok(refusal) => verdict(refusal),
        Err(_) => Reply::NoMemory,
    }
}
