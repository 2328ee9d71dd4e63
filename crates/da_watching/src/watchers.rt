//! Watchers: light nodes that reply to the frames of a talk.

ghost use Rattle.std.specs.Prelude.{◌≡◌, ◌<◌, ◌≤◌, ◌^◌, [], Some, None, true, false, length, vec_capacity, IfOk, MatchOption};
ghost use Rattle.std.specs.Option.{is_some};
ghost use Rattle.axis_roots.specs.Claims.{ClaimParts, Accepts};
ghost use Rattle.frame_payloads.specs.declared.refusals.Reason.{Reason as Why};
ghost use Rattle.frame_payloads.specs.kinds.Fraud.{fraud_at};
ghost use Rattle.light_node.specs.Plans.{PicksInside};
ghost use Rattle.da_talk.specs.Replies.{refusal};
ghost use Rattle.da_watching.specs.Sizes.{most_claim, most_said};
ghost use Rattle.da_watching.specs.Watched.{BeginsWatching, RepliesWatching, Decides, EndsWatching, IsFalseAccusal};
ghost use Rattle.da_watching.specs.Watchers.{PicksOf, IsFreshWatcher, HasFed, HasSeen};

use crate::handed::{Handed, handed_in};
use crate::saying::{claim_reason, put_claim, put_news, put_verdict};
use axis_roots::{FraudClaim, Message};
use befp_verify::{ClaimView, Upheld, VerifyRoom, judge, verify};
use da_status::Status;
use da_talk::{Talker, Turn, asks_state, put_refusal_frame, sample_reason};
use da_wire::RawFrame;
use data_header::Header;
use frame_payloads::{ClaimRoom, Reason};
use light_node::{LightNode, LightState, Picker};
use namespace_id::{Cell, CellRoom, NoMemory};
use std::alloc::Global;
use std::marker::Model;

/// A sampling light node that replies to the frames of a talk: it tells lies and its state, and ends the talk with the first
/// fraud claim that is accepted under its header.
///
/// It may be dropped at any time.
///
/// docs/FORMATS.md, "Talks".
pub struct Watcher<'a, F: Picker> {
    header: &'a Header,
    // the drawn cells, which contracts see
    planned: &'a [Cell],
    // what was handed to it shows which of them wait
    node: LightNode<F>,
    // the cells that wait, where they are told
    cells: CellRoom,
    room: VerifyRoom,
    // where claims are read, until one is accepted
    claims: Option<ClaimRoom>,
    // the accepted claim that ended the talk
    claim: Option<Upheld>,
    status: Status,
}

impl<'a, F: Picker> Model for Watcher<'a, F> {
    ghost use Rattle.std.specs.Prelude.{◌≡◌, IsSome, None};
    ghost use Rattle.da_watching.specs.Watchers.{WatchParts};

    ghost Value = { WatchParts F };

    ghost view = { λ w. record {
      header = w.header.now;
      plan = w.planned.now;
      node = w.node;
      claim = w.claim;
      status = w.status;
    } };

    ghost invariant = { λ w. (w.node.header ≡ w.header.now) × (w.room ≡ w.header.now.k) × (w.cells.k ≡ w.header.now.k)
        × (w.claim ≡ None → IsSome w.claims) };
}

impl<'a, F: Picker> Drop for Watcher<'a, F> {
    fn drop(self) {
        let Watcher {
            header: _,
            planned: _,
            node: _,
            cells: _,
            room: _,
            claims: _,
            claim,
            status: _,
        } = self;
        spend(claim);
    }
}

/// Lets a certificate go.
fn spend(claim: Option<Upheld>) {
    if let Some(upheld) = claim {
        let _claim = upheld.into_claim();
    }
}

/// The claim in a room, where it lies.
fn view(claims: &ClaimRoom) -> ClaimView<'_>
    ensures { result ≡ claims.now }
{
    ClaimView {
        axis: claims.axis(),
        index: claims.index(),
        cells: claims.cells(),
        set: claims.set(),
    }
}

/// Reads the claim of the grammar that a payload is, and answers why it is a lie, none where it is accepted: then the room holds
/// it.
fn lie_in(
    room: &mut VerifyRoom,
    header: &Header,
    claims: &mut ClaimRoom,
    payload: &[u8],
) -> Option<Reason>
    requires room { room.old ≡ header.now.k }
    ensures judged { MatchOption result
        ((fraud_at payload.now ≡ Some claims.new) × Accepts header.now claims.new)
        (IsFalseAccusal header.now (fraud_at payload.now)) }
    ensures room { room.new ≡ room.old }
{
    if !claims.read(payload) {
        return Some(Reason::NoSuchFrame);
    }
    match judge(room, header, &view(claims)) {
        Some(why) => Some(claim_reason(why)),
        None => None,
    }
}

/// The certificate of a claim that is accepted.
fn uphold(room: &mut VerifyRoom, header: &Header, claim: FraudClaim) -> Upheld
    requires room { room.old ≡ header.now.k }
    requires accepted { Accepts header.now claim }
    ensures upheld { result ≡ claim }
    ensures room { room.new ≡ room.old }
{
    verify(room, header, claim).unwrap()
}

impl<'a, F: Picker> Watcher<'a, F> {
    /// A watcher under a header that draws the cells that the picker answers, to which nothing was said yet. It takes all memory
    /// at once, and refuses only where there is none; then the picker is dropped.
    pub fn new(
        alloc: Global,
        header: &'a Header,
        planned: &'a [Cell],
        pick: F,
    ) -> Result<Watcher<'a, F>, NoMemory>
        requires few { length planned.now < 2 ^ 32 }
        requires picker { PicksInside F.can_pick F.picks pick (length planned.now) header.now.k }
        requires picks { PicksOf F.picks pick planned.now }
        ensures header { IfOk result (λ watcher. watcher.header ≡ header.now) }
        ensures plan { IfOk result (λ watcher. watcher.plan ≡ planned.now) }
        ensures fresh { IfOk result (IsFreshWatcher F.picks) }
    {
        let count = planned.len() as u32;
        let cells = CellRoom::new(alloc, header.k)?;
        let room = VerifyRoom::new(alloc, header.k)?;
        let claims = ClaimRoom::new(alloc)?;
        let mut node = LightNode::new(alloc, header, count, pick)?;
        node.more(count)?;
        node.remember(alloc)?;
        Ok(Watcher {
            header,
            planned,
            node,
            cells,
            room,
            claims: Some(claims),
            claim: None,
            status: Status::Done,
        })
    }

    /// The status that goes with the last words of its talk.
    pub fn status(&self) -> Status
        ensures { result ≡ self.now.status }
    {
        self.status
    }

    /// Takes a sample: one that isn't proved is a lie, and another is taken by the node.
    fn take_sample(&mut self, number: u64, message: &Message, text: &mut Vec<u8>)
        requires empty { text.old.items ≡ [] }
        requires capacity { most_said self.old.header.k ≤ vec_capacity text.old }
        ensures told { HasSeen F.picks self.old self.new message.now number text.new.items }
        ensures claim { self.new.claim ≡ self.old.claim }
        ensures header { self.new.header ≡ self.old.header }
        ensures plan { self.new.plan ≡ self.old.plan }
        ensures capacity { vec_capacity text.old ≤ vec_capacity text.new }
    {
        let before = self.node.state();
        if let Err(why) = self.node.judge(message) {
            put_refusal_frame(text, sample_reason(why), number);
            return;
        }
        let now = self.node.state();
        put_news(before, now, text);
    }

    /// Takes the payload of a claim, and answers whether the talk goes on: one that isn't of the grammar or isn't accepted is a lie,
    /// and another is kept and ends it.
    fn take_claim(&mut self, number: u64, payload: &[u8], text: &mut Vec<u8>) -> bool
        requires open { self.old.claim ≡ None }
        requires empty { text.old.items ≡ [] }
        requires capacity { most_said self.old.header.k ≤ vec_capacity text.old }
        ensures lie { result ≡ true → (reason : Why) × IsFalseAccusal self.old.header (fraud_at payload.now) reason
            × (text.new.items ≡ refusal reason number) × (self.new ≡ self.old) }
        ensures accepted { result ≡ false → (claim : ClaimParts) × (fraud_at payload.now ≡ Some claim)
            × Accepts self.old.header claim × (self.new.claim ≡ Some claim) × (text.new.items ≡ []) }
        ensures header { self.new.header ≡ self.old.header }
        ensures plan { self.new.plan ≡ self.old.plan }
        ensures capacity { vec_capacity text.old ≤ vec_capacity text.new }
    {
        let mut claims = self.claims.take().unwrap();
        if let Some(reason) = lie_in(&mut self.room, self.header, &mut claims, payload) {
            put_refusal_frame(text, reason, number);
            self.claims = Some(claims);
            return true;
        }
        let upheld = uphold(&mut self.room, self.header, claims.into_claim());
        spend(self.claim.replace(upheld));
        false
    }
}

impl<'a, F: Picker> Talker for Watcher<'a, F> {
    ghost is_fresh = { λ w. IsFreshWatcher F.picks w };

    ghost led = { λ first now frames. HasFed F.picks first now frames };

    ghost is_over = { λ w. is_some w.claim };

    ghost longest = { λ w. most_claim };

    ghost most = { λ w. most_said w.header.k };

    ghost takes_memory = { λ w. ⊥ };

    ghost begins = { λ first text. BeginsWatching first.header first.plan text };

    ghost replies = { λ first frames frame text. RepliesWatching first.header first.plan frames frame text };

    ghost refuses = { λ first frames frame. ⊥ };

    ghost decides = { λ first now frames text. Decides first.header frames text now.status };

    ghost ends = { λ first now frames text. EndsWatching first.header first.plan frames text now.status };

    fn begin(&mut self, text: &mut Vec<u8>) {
        put_news(LightState::Waiting, self.node.state(), text);
    }

    fn answer(
        &mut self,
        number: u64,
        frame: Option<RawFrame<'_>>,
        text: &mut Vec<u8>,
    ) -> Result<Turn, NoMemory> {
        let header = self.header;
        if asks_state(frame) {
            let _status = put_verdict(header.k, &self.node, &mut self.cells, text);
            return Ok(Turn::GoesOn);
        }
        match handed_in(frame) {
            Handed::Sample(message) => {
                self.take_sample(number, &message, text);
                Ok(Turn::GoesOn)
            }
            Handed::Claim(payload) => {
                if self.take_claim(number, payload, text) {
                    return Ok(Turn::GoesOn);
                }
                Ok(Turn::Over)
            }
            Handed::Neither => {
                put_refusal_frame(text, Reason::NoSuchFrame, number);
                Ok(Turn::GoesOn)
            }
        }
    }

    fn close(&mut self, text: &mut Vec<u8>) {
        if let Some(upheld) = &self.claim {
            self.status = put_claim(upheld, text);
            return;
        }
        let header = self.header;
        self.status = put_verdict(header.k, &self.node, &mut self.cells, text);
    }

    ghost takes_none = { λ first now frames led takes. takes };
}
