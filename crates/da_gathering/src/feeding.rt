//! Samples that a session is fed with.

ghost use Rattle.std.specs.Prelude.{◌≡◌, ◌++◌, List, IsSome};
ghost use Rattle.axis_roots.specs.declared.message.messages.Message as sent;
ghost use Rattle.repair_queue.specs.SessionParts.{SessionStands};
ghost use Rattle.da_gathering.specs.Gatherings.{IsSessionOver};
ghost use Rattle.da_gathering.specs.Gathered.{reason_for};
ghost use Rattle.da_gathering.specs.Fed.{finding_by, samples_there};

use axis_roots::{Message, message_law, message_laws};
use da_talk::sample_reason;
use data_header::Header;
use frame_payloads::Reason;
use repair_queue::{Session, SessionState, session_laws};

/// Feeds a session with the sample that a frame is, where it is one that is proved. Else it answers why the frame is refused.
pub(crate) fn feed(
    header: &Header,
    session: &mut Session,
    sample: Option<Message>,
) -> Option<Reason>
    requires under { session.old.header ≡ header.now }
    ensures header { session.new.header ≡ header.now }
    ensures reason { result ≡ reason_for (finding_by header.now sample) }
    ensures stands { (ms : List sent.Message) → SessionStands session.old ms →
        SessionStands session.new (ms ++ samples_there sample) }
    ensures kept { IsSome result → session.new ≡ session.old }
{
    let Some(message) = sample else {
        return Some(Reason::NoSuchFrame);
    };
    session_laws();
    message_laws();
    message_law(&message);
    let _k = header.k;
    match session.check(message) {
        Ok(proved) => {
            session.feed(proved);
            None
        }
        Err(refused) => Some(sample_reason(refused.why)),
    }
}

/// Whether a session is over: it found a fraud proof or a collision, or all cells follow.
pub(crate) fn is_over(session: &Session) -> bool
    ensures { (ms : List sent.Message) → SessionStands session.now ms → IsSessionOver result session.now }
{
    session_laws();
    match session.state() {
        SessionState::Open => session.has_all(),
        SessionState::Fraud | SessionState::Clash => true,
    }
}
