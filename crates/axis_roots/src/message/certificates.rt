//! Certificates: only a sample that is proved under a header gets one.

ghost use Rattle.std.specs.Prelude.{◌≡◌, ◌↔◌, IsOk, IfOk, IfErr, Some};
ghost use Rattle.axis_roots.specs.Messages.{message_refusal};
ghost use Rattle.axis_roots.specs.Openings.{IsProved};
ghost use Rattle.axis_roots.specs.Own.{IsOwn};
ghost use Rattle.axis_roots.specs.Proved.{IsUnder, kept_message};

use super::messages::{CheckRefusal, Message, index, opens};
use super::proved::Proved;
use data_header::Header;

/// A sample that is not proved, handed back unchanged, and why.
#[derive(Debug, Drop)]
pub struct RefusedMessage {
    pub message: Message,
    pub why: CheckRefusal,
}

/// Verifies a sample under a data availability header, as `opens` does, and makes the certificate
/// of one that is accepted.
///
/// Refuses what `opens` refuses, with its reason, and hands the sample back unchanged. It takes no
/// memory. Who only wants the judgement, and not to hand the sample on, calls `opens`.
///
/// docs/RULES.md, "Proved samples".
pub fn check(header: &Header, message: Message) -> Result<Proved, RefusedMessage>
    ensures accepts { IsOk result ↔ IsProved header.now message }
    ensures under { IfOk result (IsUnder header.now) }
    ensures message { IfOk result (λ proved. kept_message proved ≡ message) }
    ensures own { IsOk result → IsOwn header.now message }

    // A refusal names the first check that fails, and hands the sample back.
    ensures why { IfErr result (λ refused. Some refused.why ≡ message_refusal header.now message) }
    ensures returned { IfErr result (λ refused. refused.message ≡ message) }
{
    if let Err(why) = opens(header, &message) {
        return Err(RefusedMessage { message, why });
    }
    let root = header.root_of(message.axis, index(message.axis, message.cell));
    Ok(Proved::of(header.k, message, root))
}
