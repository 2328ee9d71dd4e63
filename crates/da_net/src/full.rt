//! Full nodes.

ghost use Rattle.std.specs.Prelude.{◌≡◌, List, [], ◌∷◌, ◌++◌, length, true, false};
ghost use Rattle.axis_roots.specs.declared.message.messages.Message.{Message as Sent};
ghost use Rattle.axis_roots.specs.Proved.{IsUnder, kept_message};
ghost use Rattle.axis_roots.specs.Claims.{ClaimParts, Accepts};
ghost use Rattle.repair_queue.specs.Verdicts.{fraud};
ghost use Rattle.repair_queue.specs.Answers.{verdict_parts};
ghost use Rattle.repair_queue.specs.SessionParts.{SessionStands};
ghost use Rattle.da_net.specs.declared.items.Item.{Item as Handed};
ghost use Rattle.da_net.specs.declared.items.Item.TheVariants as item;
ghost use Rattle.da_net.specs.Networks.{rejecting, IsRejecting, IsClashing};
ghost use Rattle.da_net.specs.Nodes.{HasSpareClaim, standing_by, IsFullNode, IsEnding, EndsSo, ComesOfFeeding, SpareAfter};

use crate::copies::{ClaimRoom, claim_of, copy_claim};
use axis_roots::{FraudClaim, Message, Proved, check};
use data_header::Header;
use hash_clash::Clash;
use repair_queue::{Session, SessionState, Verdict};

/// What ended a full node's repair.
#[derive(Drop)]
pub(crate) enum End {
    Clash(Clash),
    Rejected(FraudClaim),
}

/// A session that was fed: it goes on, or it ended.
#[derive(Drop)]
pub(crate) enum Fed {
    On(Session),
    Ended(End),
}

/// A full node: its session, until something ends it.
#[derive(Drop)]
pub(crate) struct FullNode {
    pub(crate) session: Option<Session>,
    pub(crate) end: Option<End>,
}

/// What ends a node whose session has this verdict, which is a fraud proof or a collision.
fn end_of(verdict: Verdict, room: &mut Option<ClaimRoom>) -> End
    requires ending { IsEnding (verdict_parts verdict) }
    requires room { (claim : ClaimParts) → verdict_parts verdict ≡ fraud claim →
        HasSpareClaim (length claim.cells) room.old }
    ensures ends { EndsSo (verdict_parts verdict) result }
    ensures room { SpareAfter room.old room.new result }
{
    match verdict {
        Verdict::Fraud(proof) => End::Rejected(claim_of(proof, room.take().unwrap())),
        Verdict::Clash(clash) => End::Clash(clash),
        Verdict::Whole(_) | Verdict::Missing(_) => unreachable!(),
    }
}

/// Feeds a session, and finishes it where that ends it.
fn feed(session: Session, header: &Header, proved: Proved, room: &mut Option<ClaimRoom>) -> Fed
    requires header { session.header ≡ header.now }
    requires fed { (fed : List Sent) × SessionStands session fed }
    requires under { IsUnder header.now proved }
    requires room { HasSpareClaim header.now.k room.old }
    ensures fed { (fed : List Sent) → SessionStands session fed →
        ComesOfFeeding header.now (fed ++ kept_message proved ∷ []) room.old room.new result }
{
    let mut session = session;
    match session.feed(proved) {
        SessionState::Open => Fed::On(session),
        SessionState::Fraud | SessionState::Clash => Fed::Ended(end_of(session.finish(), room)),
    }
}

/// Whether a node ended with a claim.
fn has_claim(end: &Option<End>) -> bool
    ensures yes { result ≡ true → IsRejecting (standing_by end.now) }
    ensures no { result ≡ false → IsRejecting (standing_by end.now) → ⊥ }
{
    match end {
        Some(End::Rejected(_)) => true,
        Some(End::Clash(_)) | None => false,
    }
}

impl FullNode {
    /// Takes a sample.
    pub(crate) fn take(&mut self, header: &Header, message: Message, room: &mut Option<ClaimRoom>)
        requires node { (items : List Handed) × IsFullNode header.now items self.old }
        requires room { (IsRejecting (standing_by self.old.end) → ⊥) →
            HasSpareClaim header.now.k room.old }
        ensures stands { (items : List Handed) → IsFullNode header.now items self.old →
            IsFullNode header.now (items ++ item.Message message ∷ []) self.new }
        ensures room { (IsRejecting (standing_by self.new.end) → ⊥) →
            HasSpareClaim header.now.k room.new }
        ensures keeps { IsRejecting (standing_by self.old.end) → self.new.end ≡ self.old.end }
        ensures clashes { IsClashing (standing_by self.old.end) → self.new.end ≡ self.old.end }
    {
        if self.end.is_some() {
            return;
        }
        let Ok(proved) = check(header, message) else {
            return;
        };
        let Some(session) = self.session.take() else {
            return;
        };
        match feed(session, header, proved, room) {
            Fed::On(session) => drop(self.session.replace(session)),
            Fed::Ended(end) => self.end = Some(end),
        }
    }

    /// Takes an accepted claim.
    pub(crate) fn accept(
        &mut self,
        header: &Header,
        claim: &FraudClaim,
        room: &mut Option<ClaimRoom>,
    )
        requires accepts { Accepts header.now claim.now }
        requires room { (IsRejecting (standing_by self.old.end) → ⊥) →
            HasSpareClaim header.now.k room.old }
        ensures stands { (items : List Handed) → IsFullNode header.now items self.old →
            IsFullNode header.now (items ++ item.Claim claim.now ∷ []) self.new }
        ensures rejects { IsRejecting (standing_by self.new.end) }
        ensures keeps { IsRejecting (standing_by self.old.end) → self.new.end ≡ self.old.end }
        ensures claims { (IsRejecting (standing_by self.old.end) → ⊥) →
            standing_by self.new.end ≡ rejecting claim.now }
    {
        if has_claim(&self.end) {
            return;
        }
        let copy = copy_claim(claim, room.take().unwrap());
        self.end = Some(End::Rejected(copy));
    }
}
