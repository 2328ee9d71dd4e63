//! Of repairs.

ghost use Rattle.std.specs.Prelude.{◌≡◌, ◌<◌, List, Result, IsOk, IfOk, IfErr, map};
ghost use Rattle.std.specs.List.{AllByRecursion};
ghost use Rattle.axis_roots.specs.declared.message.messages.Message.{Message as Sent};
ghost use Rattle.axis_roots.specs.Proved.{IsUnder, kept_message};
ghost use Rattle.repair_queue.specs.declared.sessions.SessionState.TheVariants as state;
ghost use Rattle.repair_queue.specs.SessionParts.{SessionStands};
ghost use Rattle.repair_queue.specs.Sessions.{session_state};
ghost use Rattle.repair_queue.specs.Verdicts.{AreAlike};
ghost use Rattle.repair_queue.specs.Answers.{verdict_parts};

use axis_roots::{Message, Proved, RefusedMessage};
use data_header::Header;
use namespace_id::{CellRoom, NoMemory};
use repair_queue::{Session, SessionState, Verdict, repair_list, verdict_laws};
use std::alloc::Global;

/// Two verdicts on one list are alike.
pub fn repair_list_twice(
    alloc: Global,
    header: &Header,
    messages: Vec<Proved>,
    copy: Vec<Proved>,
) -> (Result<Verdict, NoMemory>, Result<Verdict, NoMemory>)
    requires under { AllByRecursion (IsUnder header.now) messages.items }
    requires copy { copy.items ≡ messages.items }
    ensures { IfOk result.0 (λ one. IfOk result.1 (λ other. AreAlike (verdict_parts one) (verdict_parts other))) }
{
    verdict_laws();
    let first = repair_list(alloc, header, messages);
    let second = repair_list(alloc, header, copy);
    (first, second)
}

/// Two verdicts of sessions that stand for one list are alike.
pub fn finish_twice(one: Session, other: Session) -> (Verdict, Verdict)
    requires header { other.header ≡ one.header }
    ensures { (ms : List Sent) → SessionStands one ms → SessionStands other ms →
        AreAlike (verdict_parts result.0) (verdict_parts result.1) }
{
    verdict_laws();
    let first = one.finish();
    let second = other.finish();
    (first, second)
}

/// Two sessions that stand for one list, and are fed one sample, answer alike.
pub fn feed_twice(one: Session, other: Session, message: Proved, copy: Proved) -> (Verdict, Verdict)
    requires header { other.header ≡ one.header }
    requires under { IsUnder one.header message }
    requires under_copy { IsUnder one.header copy }
    requires copy { kept_message copy ≡ kept_message message }
    ensures { (ms : List Sent) → SessionStands one ms → SessionStands other ms →
        AreAlike (verdict_parts result.0) (verdict_parts result.1) }
{
    let mut one = one;
    let mut other = other;
    one.feed(message);
    other.feed(copy);
    finish_twice(one, other)
}

/// A sample has one judgement and one certificate, whatever the session was fed with.
pub fn session_check_twice(
    one: &mut Session,
    other: &mut Session,
    message: Message,
    copy: Message,
) -> (
    Result<Proved, RefusedMessage>,
    Result<Proved, RefusedMessage>,
)
    requires header { other.old.header ≡ one.old.header }
    requires copy { copy ≡ message }
    ensures accepts { IsOk result.0 → IsOk result.1 }
    ensures kept { IfOk result.0 (λ one. IfOk result.1 (λ other. kept_message one ≡ kept_message other)) }
    ensures refused { IfErr result.0 (λ one. IfErr result.1 (λ other. one ≡ other)) }
{
    let first = one.check(message);
    let second = other.check(copy);
    (first, second)
}

/// Two open sessions that stand for one list miss the same cells.
pub fn missing_twice(
    one: &Session,
    other: &Session,
    one_room: &mut CellRoom,
    other_room: &mut CellRoom,
)
    requires header { other.now.header ≡ one.now.header }
    requires one_open { session_state one.now ≡ state.Open }
    requires other_open { session_state other.now ≡ state.Open }
    requires one_room { one_room.old.k ≡ one.now.header.k }
    requires other_room { other_room.old.k ≡ other.now.header.k }
    ensures state { (ms : List Sent) → SessionStands one.now ms → SessionStands other.now ms →
        one_room.new ≡ other_room.new }
{
    one.missing(one_room);
    other.missing(other_room);
}

/// They have all cells, or both have not.
pub fn has_all_twice(one: &Session, other: &Session) -> (bool, bool)
    requires header { other.now.header ≡ one.now.header }
    requires one_open { session_state one.now ≡ state.Open }
    requires other_open { session_state other.now ≡ state.Open }
    ensures { (ms : List Sent) → SessionStands one.now ms → SessionStands other.now ms → result.0 ≡ result.1 }
{
    (one.has_all(), other.has_all())
}
