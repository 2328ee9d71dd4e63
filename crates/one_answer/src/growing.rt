//! Of repairs whose sessions grow.

ghost use Rattle.std.specs.Prelude.{◌≡◌, ◌<◌, List, Result, OnOk};
ghost use Rattle.axis_roots.specs.declared.message.messages.Message.{Message as Sent};
ghost use Rattle.axis_roots.specs.Proved.{IsUnder, kept_message};
ghost use Rattle.repair_queue.specs.SessionParts.{SessionStands};
ghost use Rattle.repair_queue.specs.Verdicts.{AreAlike};
ghost use Rattle.repair_queue.specs.Answers.{verdict_parts};

use axis_roots::Proved;
use namespace_id::NoMemory;
use repair_queue::{GrowingSession, Verdict, verdict_laws};

/// Two verdicts of such sessions that stand for one list are alike.
pub fn finish_twice(one: GrowingSession, other: GrowingSession) -> (Verdict, Verdict)
    requires header { other.header ≡ one.header }
    ensures { (ms : List Sent) → SessionStands one ms → SessionStands other ms →
        AreAlike (verdict_parts result.0) (verdict_parts result.1) }
{
    verdict_laws();
    let first = one.finish();
    let second = other.finish();
    (first, second)
}

/// Two of them that stand for one list, and take one sample, answer alike.
pub fn feed_twice(
    one: GrowingSession,
    other: GrowingSession,
    message: Proved,
    copy: Proved,
) -> (
    (Result<(), NoMemory>, Result<(), NoMemory>),
    (Verdict, Verdict),
)
    requires header { other.header ≡ one.header }
    requires under { IsUnder one.header message }
    requires under_copy { IsUnder one.header copy }
    requires copy { kept_message copy ≡ kept_message message }
    ensures { (ms : List Sent) → SessionStands one ms → SessionStands other ms →
        OnOk result.0.0 (OnOk result.0.1 (AreAlike (verdict_parts result.1.0) (verdict_parts result.1.1))) }
{
    let mut one = one;
    let mut other = other;
    let first = one.feed(message);
    let second = other.feed(copy);
    let verdicts = finish_twice(one, other);
    ((first, second), verdicts)
}
