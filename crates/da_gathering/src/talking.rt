//! What a repair replies to the frames of a talk.

ghost use Rattle.std.specs.Prelude.{◌≡◌, ◌≢◌, ◌≤◌, ◌↔◌, [], List, Some, true, false, vec_capacity};
ghost use Rattle.namespace_id.specs.Cells.{CellList};
ghost use Rattle.axis_roots.specs.declared.message.messages.Message.{Message};
ghost use Rattle.repair_queue.specs.SessionParts.{SessionStands};
ghost use Rattle.repair_queue.specs.Verdicts.{missing, IsVerdict};
ghost use Rattle.frame_payloads.specs.kinds.Message.{most_message};
ghost use Rattle.da_wire.specs.declared.frames.Frame.TheVariants as kinds;
ghost use Rattle.da_wire.specs.Spelling.{spelling};
ghost use Rattle.da_talk.specs.declared.talker.Turn.TheVariants as turn;
ghost use Rattle.da_gathering.specs.Gatherings.{IsSessionOver, most_gathered};
ghost use Rattle.da_gathering.specs.Gathered.{IsFreshGathering, HasGathered, RepliesOn, AreLastWords};

use crate::Gatherer;
use crate::feeding::{feed, is_over};
use crate::last_words::put_verdict;
use da_talk::{Talker, Turn, asks_state, put_missing_frame, put_refusal_frame, sample_in};
use da_wire::RawFrame;
use data_header::Header;
use namespace_id::{CellRoom, NoMemory};
use repair_queue::{Session, session_laws};

/// Writes the missing cells of a session that isn't over into an empty text.
fn tell(header: &Header, session: &Session, room: &mut CellRoom, text: &mut Vec<u8>)
    requires under { session.now.header ≡ header.now }
    requires stands { (ms : List Message) × SessionStands session.now ms }
    requires goes { IsSessionOver false session.now }
    requires room { room.old.k ≡ header.now.k }
    requires empty { text.old.items ≡ [] }
    requires fits { most_gathered header.now.k ≤ vec_capacity text.old }
    ensures width { room.new.k ≡ room.old.k }
    ensures missing { (ms : List Message) → SessionStands session.now ms → (cells : CellList)
        × IsVerdict header.now ms (missing cells) × (spelling (kinds.Missing cells) ≡ Some text.new.items) }
    ensures capacity { vec_capacity text.old ≤ vec_capacity text.new }
{
    session_laws();
    let k = header.k;
    session.missing(room);
    put_missing_frame(text, k, room.cells());
}

/// How a talk goes on behind a proved sample.
fn turn_of(over: bool) -> Turn
    ensures goes_on { (result ≡ turn.GoesOn) ↔ (over ≡ false) }
    ensures over { (result ≡ turn.Over) ↔ (over ≡ true) }
    ensures fits { result ≢ turn.Unfit }
{
    if over { Turn::Over } else { Turn::GoesOn }
}

impl<'a> Talker for Gatherer<'a> {
    ghost use Rattle.std.specs.Prelude.{◌≡◌, [], true, false};

    ghost is_fresh = { IsFreshGathering };

    ghost led = { λ first now frames. HasGathered first.header frames now };

    ghost is_over = { λ g. g.is_over };

    ghost longest = { λ g. most_message };

    ghost most = { λ g. most_gathered g.header.k };

    ghost takes_memory = { λ g. ⊥ };

    ghost begins = { λ first text. text ≡ [] };

    ghost replies = { λ first frames frame text. RepliesOn first.header frames frame text };

    ghost refuses = { λ first frames frame. ⊥ };

    ghost decides = { λ first now frames text. AreLastWords first.header frames false text now.status };

    ghost ends = { λ first now frames text. AreLastWords first.header frames true text now.status };

    ghost takes_none = { λ first now frames led takes. takes };

    fn begin(&mut self, _text: &mut Vec<u8>) {}

    fn answer(
        &mut self,
        number: u64,
        frame: Option<RawFrame<'_>>,
        text: &mut Vec<u8>,
    ) -> Result<Turn, NoMemory> {
        // None is left behind the last words.
        let Some(session) = &mut self.session else {
            return Ok(Turn::GoesOn);
        };
        session_laws();
        if asks_state(frame) {
            tell(self.header, session, &mut self.room, text);
            return Ok(Turn::GoesOn);
        }
        match feed(self.header, session, sample_in(frame)) {
            Some(reason) => {
                self.lies = self.lies.saturating_add(1);
                put_refusal_frame(text, reason, number);
                Ok(Turn::GoesOn)
            }
            None => {
                self.over = is_over(session);
                Ok(turn_of(self.over))
            }
        }
    }

    fn close(&mut self, text: &mut Vec<u8>) {
        let Some(session) = self.session.take() else {
            return;
        };
        session_laws();
        let status = put_verdict(text, self.header, session.finish(), self.lies);
        self.status = Some(status);
    }
}
