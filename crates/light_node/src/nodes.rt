//! Light nodes: no event walks over the plan.
//!
//! Marks of shown cells are never taken away, and wanted cells stay at their places, so the first
//! wanted cell without a mark only moves on: `next` walks over the wanted cells once in the life of
//! a node. The state is that a claim is kept, or that `next` is at the end, or isn't.
//!
//! Each cell of the square has a mark, planned or not: a proved sample counts also where it comes
//! before its cell is planned, and then it is gone. So `more` has only to move `next` on. The
//! wanted cells are those of the plan, each once; both lists have the same first cell that isn't
//! shown, so `next_wanted` answers the earliest of the plan. Row by row the waiting cells are
//! listed only when they are asked for, by a walk over all cells of the square.

ghost use Rattle.std.specs.Prelude.{◌≡◌, ◌↔◌, ◌+◌, ◌≤◌, ◌++◌, ℕ, true, List, [], ◌∷◌, IsOk, IfOk, OnOk, OnErr, length, option_copied};
ghost use Rattle.namespace_id.specs.declared.cells.Cell.{Cell as Place};
ghost use Rattle.namespace_id.specs.Answers.{refusal_in};
ghost use Rattle.namespace_id.specs.Cells.{is_width};
ghost use Rattle.axis_roots.specs.Messages.{message_refusal};
ghost use Rattle.axis_roots.specs.Openings.{IsProved};
ghost use Rattle.light_node.specs.declared.events.Event.{Event as Happened};
ghost use Rattle.light_node.specs.declared.events.Event.TheVariants.{Sample, Claim};
ghost use Rattle.light_node.specs.Events.{IsFirstAccepted, IsState, IsLight, AreWaitedFor};
ghost use Rattle.light_node.specs.Plans.{PicksInside, IsNextWanted};
ghost use Rattle.light_node.specs.Nodes.{NodeStands, IsSameNode};

use crate::marks::{fill_unmarked, first_unmarked, has_mark, mark};
use crate::wanted::want;
use crate::{Event, Light, LightState, Picker};
use axis_roots::{CheckRefusal, FraudClaim, Message, PartialTrees, opens_by};
use befp_verify::{Upheld, VerifyRoom, verify};
use data_header::Header;
use indexmap::IndexSet;
use namespace_id::{Cell, CellRoom, NoMemory};
use std::alloc::Global;
use std::marker::Model;

/// A sampling light node: a header, a plan of cells, and what it was handed so far. Contracts see
/// for which plan and for which list of events it stands.
///
/// It may be dropped at any time.
///
/// Al-Bassam, Sonnino, Buterin and Khoffi, fraud and data availability proofs.
pub struct LightNode<F: Picker> {
    header: Header,
    limit: u32,
    pick: F,
    planned: u32,
    // what accepted samples have shown of the trees under the header, where that is kept
    trees: Option<PartialTrees>,
    // the planned cells, each once, in the order of the plan
    wanted: IndexSet<Cell>,
    // for each cell of the square, row-major, whether a proved sample showed it
    shown: Vec<bool>,
    // the place of the first wanted cell that isn't shown
    next: usize,
    room: VerifyRoom,
    claim: Option<Upheld>,
}

impl<F: Picker> Model for LightNode<F> {
    ghost use Rattle.std.specs.Prelude.{◌≡◌, IfSome};
    ghost use Rattle.light_node.specs.Nodes.{NodeParts, IsNode};

    ghost Value = { NodeParts F };

    ghost view = { λ n. record {
      header = n.header;
      limit = n.limit;
      pick = n.pick;
      planned = n.planned;
      wanted = n.wanted.keys;
      shown = n.shown.items;
      next = n.next;
      claim = n.claim;
    } };

    ghost invariant = { λ n. (n.room ≡ n.header.k) × IsNode F.can_pick F.picks (record {
      header = n.header;
      limit = n.limit;
      pick = n.pick;
      planned = n.planned;
      wanted = n.wanted.keys;
      shown = n.shown.items;
      next = n.next;
      claim = n.claim;
    }) × IfSome n.trees (λ trees. trees ≡ n.header) };
}

impl<F: Picker> Drop for LightNode<F> {
    fn drop(self) {
        let LightNode {
            header: _,
            limit: _,
            pick: _,
            planned: _,
            trees: _,
            wanted: _,
            shown: _,
            next: _,
            room: _,
            claim,
        } = self;
        spend(claim);
    }
}

/// Lets a certificate go.
fn spend(claim: Option<Upheld>) {
    if let Some(upheld) = claim {
        let _claim = upheld.into_claim();
    }
}

/// The width of a header's square.
fn width(header: &Header) -> u16
    ensures value { result ≡ header.now.k }
    ensures width { is_width result ≡ true }
{
    header.k
}

impl<F: Picker> LightNode<F> {
    /// A node that has planned nothing and was handed nothing. It keeps a copy of the header, and
    /// the picker, which may be asked for each number below `limit` and then names a cell of the
    /// square.
    ///
    /// It refuses only where there is no memory, and then the picker is dropped.
    pub fn new(
        alloc: Global,
        header: &Header,
        limit: u32,
        pick: F,
    ) -> Result<LightNode<F>, NoMemory>
        requires picker { PicksInside F.can_pick F.picks pick limit header.now.k }
        ensures header { IfOk result (λ node. node.header ≡ header.now) }
        ensures limit { IfOk result (λ node. node.limit ≡ limit) }
        ensures picker { IfOk result (λ node. node.pick ≡ pick) }
        ensures stands { IfOk result (λ node. NodeStands F.picks node [] []) }
    {
        let header = header.copy(alloc)?;
        let k = width(&header);
        let room = VerifyRoom::new(alloc, k)?;
        let in_row = 2 * k as usize;
        let shown = vec![in alloc; false; in_row * in_row]?;
        Ok(LightNode {
            header,
            limit,
            pick,
            planned: 0,
            trees: None,
            wanted: IndexSet::new(alloc),
            shown,
            next: 0,
            room,
            claim: None,
        })
    }

    /// Keeps from now on what accepted samples show of the trees under the header, so that later ones
    /// are hashed only up to what is known: where many are to come. For a square of width k it takes
    /// 4k trees of 4k digests. It changes no answer.
    ///
    /// It refuses only where there is no memory, and then nothing has changed.
    pub fn remember(&mut self, alloc: Global) -> Result<(), NoMemory>
        ensures kept { self.new ≡ self.old }
    {
        if self.trees.is_none() {
            self.trees = Some(PartialTrees::new(alloc, &self.header)?);
        }
        Ok(())
    }

    /// Plans the picker's cells for the next `count` numbers too. A cell that comes again is wanted
    /// once.
    ///
    /// It refuses only where there is no memory, and then nothing has changed.
    pub fn more(&mut self, count: u32) -> Result<(), NoMemory>
        requires limit { self.old.planned + count ≤ self.old.limit }
        ensures stands { OnOk result ((plan : List Place) (events : List Happened) →
            NodeStands F.picks self.old plan events →
            (cells : List Place) × (length cells ≡ count)
            × NodeStands F.picks self.new (plan ++ cells) events) }
        ensures planned { OnOk result (self.new.planned ≡ self.old.planned + count) }
        ensures kept { IsSameNode self.old self.new }
        ensures unchanged { OnErr result (self.new ≡ self.old) }
    {
        want(&self.pick, self.planned, count, &mut self.wanted)?;
        self.planned += count;
        let k = width(&self.header);
        self.next = first_unmarked(k, &self.shown, self.wanted.as_slice(), self.next);
        Ok(())
    }

    /// The earliest planned cell that no proved sample showed; none where each was shown. It takes
    /// no memory.
    pub fn next_wanted(&self) -> Option<Cell>
        ensures { (plan : List Place) (events : List Happened) →
            NodeStands F.picks self.now plan events →
            IsNextWanted self.now.header plan events result }
    {
        self.wanted.get_index(self.next).copied()
    }

    /// Judges a sample, and takes it where it is proved under the header: its cell is shown then, planned
    /// already or not. One that isn't proved is refused with the reason of `opens`, and changes nothing. It
    /// takes no memory.
    ///
    /// docs/RULES.md, "Proved samples".
    pub fn judge(&mut self, message: &Message) -> Result<(), CheckRefusal>
        ensures accepts { IsOk result ↔ IsProved self.old.header message.now }
        ensures first { refusal_in result ≡ message_refusal self.old.header message.now }
        ensures stands { (plan : List Place) (events : List Happened) →
            NodeStands F.picks self.old plan events →
            NodeStands F.picks self.new plan (events ++ Sample message.now ∷ []) }
        ensures planned { self.new.planned ≡ self.old.planned }
        ensures kept { IsSameNode self.old self.new }
        ensures unchanged { OnErr result (self.new ≡ self.old) }
    {
        if let Err(why) = opens_by(&self.header, &mut self.trees, message) {
            return Err(why);
        }
        let k = width(&self.header);
        mark(k, &mut self.shown, message.cell);
        self.next = first_unmarked(k, &self.shown, self.wanted.as_slice(), self.next);
        Ok(())
    }

    /// Marks the cell of a sample, where it is proved. A sample of a marked cell changes nothing, so
    /// nothing of it is hashed.
    fn sample(&mut self, message: &Message)
        ensures stands { (plan : List Place) (events : List Happened) →
            NodeStands F.picks self.old plan events →
            NodeStands F.picks self.new plan (events ++ Sample message.now ∷ []) }
        ensures planned { self.new.planned ≡ self.old.planned }
        ensures kept { IsSameNode self.old self.new }
    {
        let k = width(&self.header);
        if has_mark(k, &self.shown, message.cell) {
            return;
        }
        let _judged = self.judge(message);
    }

    /// Keeps a claim, where it is accepted and none was before.
    fn accuse(&mut self, claim: FraudClaim)
        ensures stands { (plan : List Place) (events : List Happened) →
            NodeStands F.picks self.old plan events →
            NodeStands F.picks self.new plan (events ++ Claim claim ∷ []) }
        ensures planned { self.new.planned ≡ self.old.planned }
        ensures kept { IsSameNode self.old self.new }
    {
        if self.claim.is_some() {
            return;
        }
        let Ok(upheld) = verify(&mut self.room, &self.header, claim) else {
            return;
        };
        spend(self.claim.replace(upheld));
    }

    /// Takes a sample or a claim, and answers the state after it. A sample that isn't proved under
    /// the header changes nothing, and a proved one counts also where its cell wasn't planned yet.
    /// The first accepted claim is kept for good. It takes no memory.
    pub fn event(&mut self, event: Event) -> LightState
        ensures stands { (plan : List Place) (events : List Happened) →
            NodeStands F.picks self.old plan events →
            NodeStands F.picks self.new plan (events ++ event ∷ []) }
        ensures state { (plan : List Place) (events : List Happened) →
            NodeStands F.picks self.old plan events →
            IsState self.old.header plan (events ++ event ∷ []) result }
        ensures planned { self.new.planned ≡ self.old.planned }
        ensures kept { IsSameNode self.old self.new }
    {
        match event {
            Event::Sample(message) => self.sample(&message),
            Event::Claim(claim) => self.accuse(claim),
        }
        self.state()
    }

    /// The state over everything so far, also before any event: without a plan and without an
    /// accepted claim the data counts as available. It takes no memory.
    pub fn state(&self) -> LightState
        ensures { (plan : List Place) (events : List Happened) →
            NodeStands F.picks self.now plan events →
            IsState self.now.header plan events result }
    {
        if self.claim().is_some() {
            return LightState::Rejected;
        }
        if self.next_wanted().is_some() {
            return LightState::Waiting;
        }
        LightState::Available
    }

    /// The first accepted claim; none where the node isn't rejecting. It takes no memory.
    pub fn claim(&self) -> Option<&FraudClaim>
        ensures { (plan : List Place) (events : List Happened) →
            NodeStands F.picks self.now plan events →
            IsFirstAccepted self.now.header events (option_copied result) }
    {
        match &self.claim {
            Some(upheld) => Some(upheld.claim()),
            None => None,
        }
    }

    /// Fills the room with the planned cells that no proved sample showed, row-major, in place of
    /// what it held. The room is for the header's width. It takes no memory.
    pub fn waiting(&self, room: &mut CellRoom)
        requires room { room.old.k ≡ self.now.header.k }
        ensures width { room.new.k ≡ room.old.k }
        ensures filled { (plan : List Place) (events : List Happened) →
            NodeStands F.picks self.now plan events →
            AreWaitedFor self.now.header plan events room.new }
    {
        fill_unmarked(width(&self.header), &self.shown, &self.wanted, room);
        // A room tells that its cells are row-major.
        let _cells = room.cells();
    }

    /// Ends the node with its verdict over everything so far. The room is for the header's width.
    /// It takes no memory.
    pub fn finish(self, room: CellRoom) -> Light
        requires room { room.k ≡ self.header.k }
        ensures { (plan : List Place) (events : List Happened) →
            NodeStands F.picks self plan events →
            IsLight self.header plan events result }
    {
        let LightNode {
            header,
            limit: _,
            pick: _,
            planned: _,
            trees: _,
            wanted,
            shown,
            next: _,
            room: _,
            claim,
        } = self;
        if let Some(upheld) = claim {
            return Light::Rejected(upheld);
        }
        let mut cells = room;
        fill_unmarked(width(&header), &shown, &wanted, &mut cells);
        if cells.cells().is_empty() {
            return Light::Available;
        }
        Light::Waiting(cells.into_cells())
    }
}
