//! Networks.

ghost use Rattle.std.specs.Prelude.{◌≡◌, ◌<◌, ◌≤◌, ℕ, true, false, length, map, slice_get, vec_len, ◌↔◌, ◌⊎◌, IsSome, IfSome, IfOk, OnErr, IsErrOf, MatchOption, Some, None, option_copied};
ghost use Rattle.std.specs.List.{Contains, list_any, AllByRecursion};
ghost use Rattle.namespace_id.specs.Answers.{refusal_in};
ghost use Rattle.square_layout.specs.Blocks.{SquareShares};
ghost use Rattle.axis_roots.specs.Grids.{IsHeaderOf};
ghost use Rattle.axis_roots.specs.Claims.{ClaimParts, Accepts};
ghost use Rattle.repair_queue.specs.Settled.{IsSettled};
ghost use Rattle.da_net.specs.declared.items.Item.TheVariants as item;
ghost use Rattle.da_net.specs.declared.items.NetEvent.TheVariants as event;
ghost use Rattle.da_net.specs.declared.items.Kept.TheVariants as kept;
ghost use Rattle.da_net.specs.Networks.{NodeKind, light, messages_of, handed, IsRun};
ghost use Rattle.da_net.specs.Promises.{PoolNames};
ghost use Rattle.da_net.specs.Nodes.{IsFreshNode};
ghost use Rattle.da_net.specs.Nets.{fresh, is_too_many, clash_in, AreMissed, network_of, has_claim, why_not, why_not_hand, why_not_publish, HasHappened, HasState, alarm_at, rejecting_claim, is_publishing, is_pooling, is_full, IsSameNet, IsPooled, IsHanded, IsPublished};
ghost use Rattle.da_net.specs.StepRefusals.{IsFull, LacksItem, LacksNode, LacksClaim, PublishesAgain};

use crate::items::{Item, Kept, NetError, NetEvent, NodeState, StepRefusal, Stepped};
use crate::making::make_seats;
use crate::seats::{Entry, Seat, claim, clash, copied, hand, judge, missing, state};
use axis_roots::FraudClaim;
use befp_verify::VerifyRoom;
use data_header::Header;
use hash_clash::Clash;
use light_node::{LightNode, Picker};
use namespace_id::CellRoom;
use std::alloc::Global;
use std::marker::Model;

/// A network of full nodes and light nodes under one header. It keeps its pool of items and the list of its steps.
pub struct Net<F: Picker> {
    header: Header,
    room: VerifyRoom,
    seats: Vec<Seat<F>>,
    most_items: u32,
    most_steps: u32,
    pool: Vec<Entry>,
    steps: Vec<Kept>,
}

impl<F: Picker> Model for Net<F> {
    ghost use Rattle.std.specs.Prelude.{◌≡◌, map};
    ghost use Rattle.da_net.specs.Nets.{NetParts};
    ghost use Rattle.da_net.specs.Seats.{node_kind, alarm_of, pool_items, IsNet, HasPlaces};

    ghost Value = { NetParts };

    ghost view = { λ n. record {
      header = n.header;
      nodes = map (λ seat. node_kind seat.node) n.seats.items;
      alarms = map (λ seat. alarm_of seat.node) n.seats.items;
      most_items = n.most_items;
      most_steps = n.most_steps;
      pool = pool_items n.pool.items;
      steps = n.steps.items;
    } };

    ghost invariant = { λ n. (n.room ≡ n.header.k)
        × IsNet F.picks n.header n.seats.items n.pool.items n.steps.items
        × HasPlaces n.most_items n.pool × HasPlaces n.most_steps n.steps };
}

impl<F: Picker> Drop for Net<F> {
    fn drop(self) {
        let Net {
            header: _,
            room: _,
            seats: _,
            most_items: _,
            most_steps: _,
            pool: _,
            steps: _,
        } = self;
    }
}

/// Whether an event puts an item into the pool.
fn is_pooling(event: &NetEvent) -> bool
    ensures { result ≡ is_pooling event.now }
{
    match event {
        NetEvent::Put(_) | NetEvent::Publish { node: _ } => true,
        NetEvent::Hand { item: _, node: _ } => false,
    }
}

/// Whether a network can't be made for so many nodes, items and steps.
fn is_too_many(full: u16, lights: usize, items: u32, steps: u32) -> bool
    ensures { result ≡ is_too_many full lights items steps }
{
    full > 8 || lights > 64 || items > 65_536 || steps > 1_048_576
}

impl<F: Picker> Net<F> {
    /// Whether there is no capacity for an event.
    fn is_full(&self, event: &NetEvent) -> bool
        ensures { result ≡ is_full self.now event.now }
    {
        if self.most_steps as usize <= self.steps.len() {
            return true;
        }
        is_pooling(event) && self.most_items as usize <= self.pool.len()
    }

    /// Puts an item into the pool.
    fn put(&mut self, item: Item) -> u32
        requires { is_full self.old (event.Put item) ≡ false }
        ensures kept { IsSameNet self.old self.new }
        ensures pooled { IsPooled self.old self.new item kept.Put result }
    {
        let place = self.pool.len() as u32;
        let entry = judge(&mut self.room, &self.header, item);
        self.pool.push_reserved(entry);
        self.steps.push_reserved(Kept::Put);
        place
    }

    /// Hands an item of the pool to a node.
    fn hand(&mut self, item: u32, node: u16) -> NodeState
        requires room { is_full self.old (event.Hand item node) ≡ false }
        requires item { item < length self.old.pool }
        requires node { node < length self.old.nodes }
        ensures kept { IsSameNet self.old self.new }
        ensures handed { IsHanded self.old self.new item node result }
    {
        let seat = &mut self.seats[node as usize];
        hand(seat, &self.header, &self.pool[item as usize]);
        let state = state(seat);
        self.steps.push_reserved(Kept::Hand { item, node });
        state
    }

    /// Publishes the claim of a node that rejects and hasn't published it.
    fn publish(&mut self, by: u16) -> u32
        requires room { is_full self.old (event.Publish by) ≡ false }
        requires node { by < length self.old.nodes }
        requires rejects { IsSome (rejecting_claim (alarm_at self.old by)) }
        requires first { list_any (is_publishing by) self.old.steps ≡ false }
        ensures kept { IsSameNet self.old self.new }
        ensures published { IsPublished self.old self.new by result }
    {
        let place = self.pool.len() as u32;
        let claim = copied(&mut self.seats[by as usize], &self.header);
        self.pool.push_reserved(Entry {
            item: Item::Claim(claim),
            accepted: true,
        });
        self.steps.push_reserved(Kept::Publish { node: by });
        place
    }

    /// Whether a node rejects.
    fn is_rejecting(&self, node: u16) -> bool
        requires { node < length self.now.nodes }
        ensures { result ≡ has_claim (rejecting_claim (alarm_at self.now node)) }
    {
        claim(&self.seats[node as usize]).is_some()
    }

    /// Whether a node has published its claim.
    fn has_published(&self, node: u16) -> bool
        requires { node < length self.now.nodes }
        ensures { result ≡ list_any (is_publishing node) self.now.steps }
    {
        self.seats[node as usize].published.is_none()
    }

    /// Hands an item to a node, where both are there.
    fn try_hand(&mut self, item: u32, node: u16) -> Result<Stepped, StepRefusal>
        requires room { is_full self.old (event.Hand item node) ≡ false }
        ensures kept { IsSameNet self.old self.new }
        ensures refusal { refusal_in result ≡ why_not_hand self.old item node }
        ensures happened { IfOk result (HasHappened self.old (event.Hand item node) self.new) }
        ensures unchanged { OnErr result (self.new ≡ self.old) }
    {
        if self.pool.len() <= item as usize {
            return Err(StepRefusal::NoItem);
        }
        if self.seats.len() <= node as usize {
            return Err(StepRefusal::NoNode);
        }
        Ok(Stepped::Handed(self.hand(item, node)))
    }

    /// Publishes the claim of a node, where it is there, rejects, and hasn't published it.
    fn try_publish(&mut self, by: u16) -> Result<Stepped, StepRefusal>
        requires room { is_full self.old (event.Publish by) ≡ false }
        ensures kept { IsSameNet self.old self.new }
        ensures refusal { refusal_in result ≡ why_not_publish self.old by }
        ensures happened { IfOk result (HasHappened self.old (event.Publish by) self.new) }
        ensures unchanged { OnErr result (self.new ≡ self.old) }
    {
        if self.seats.len() <= by as usize {
            return Err(StepRefusal::NoNode);
        }
        if !self.is_rejecting(by) {
            return Err(StepRefusal::NotRejecting);
        }
        if self.has_published(by) {
            return Err(StepRefusal::Published);
        }
        Ok(Stepped::Pooled(self.publish(by)))
    }

    /// The pool and the steps are those of one run. It changes nothing.
    pub fn run_law(&self)
        ensures { IsRun (network_of self.now) self.now.pool self.now.steps }
    {
        // Reading a number tells what holds of the whole.
        let _most = self.most_items;
    }

    /// Takes one step, or refuses it for the first test that fails.
    fn try_step(&mut self, event: NetEvent) -> Result<Stepped, StepRefusal>
        ensures refusal { refusal_in result ≡ why_not self.old event }
        ensures happened { IfOk result (HasHappened self.old event self.new) }
        ensures unchanged { OnErr result (self.new ≡ self.old) }
        ensures kept { IsSameNet self.old self.new }
    {
        if self.is_full(&event) {
            return Err(StepRefusal::Full(event));
        }
        match event {
            NetEvent::Put(item) => Ok(Stepped::Pooled(self.put(item))),
            NetEvent::Hand { item, node } => self.try_hand(item, node),
            NetEvent::Publish { node } => self.try_publish(node),
        }
    }

    /// Takes one step: the adversary puts an item into the pool, an item of the pool is handed to a node, or a node that
    /// rejects publishes its claim. An item stays in the pool. A node that was handed an accepted claim rejects from then
    /// on, and keeps the claim that it first held.
    ///
    /// Refuses a step for which there is no capacity, and hands the event back; then an item that isn't in the pool;
    /// then a node that isn't there; then the publishing of a node that doesn't reject, and of one that has published.
    /// A refusal changes nothing. It takes no memory.
    ///
    /// docs/RULES.md, "Networks".
    pub fn step(&mut self, event: NetEvent) -> Result<Stepped, StepRefusal>
        // Each refusal comes exactly where its test is the first that fails.
        ensures full { IsErrOf result (StepRefusal.Full event) ↔ IsFull self.old event }
        ensures no_item { IsErrOf result StepRefusal.NoItem ↔ LacksItem self.old event }
        ensures no_node { IsErrOf result StepRefusal.NoNode ↔ LacksNode self.old event }
        ensures not_rejecting { IsErrOf result StepRefusal.NotRejecting ↔ LacksClaim self.old event }
        ensures published { IsErrOf result StepRefusal.Published ↔ PublishesAgain self.old event }

        // All of these at once.
        ensures refusal { refusal_in result ≡ why_not self.old event }

        // What a step did; a refusal changes nothing.
        ensures happened { IfOk result (HasHappened self.old event self.new) }
        ensures unchanged { OnErr result (self.new ≡ self.old) }
        ensures kept { IsSameNet self.old self.new }
    {
        self.try_step(event)
    }

    /// The state of a node. It takes no memory.
    pub fn state(&self, node: u16) -> NodeState
        requires { node < length self.now.nodes }
        ensures state { HasState self.now node result }

        // Who was handed an accepted claim rejects, and an open node is settled.
        ensures rejects { (claim : ClaimParts) →
            Contains (handed self.now.pool self.now.steps node) (item.Claim claim) →
            Accepts self.now.header claim → result ≡ NodeState.Rejected }
        ensures settled { result ≡ NodeState.Open →
            IsSettled self.now.header (messages_of (handed self.now.pool self.now.steps node)) }

        // Under the header of a square a node rejects or has a collision only where a sample in the pool, by itself or
        // in a claim, or the set of a claim in the pool, and the square name a collision.
        ensures own { (square : SquareShares) → IsHeaderOf self.now.header square →
            (result ≡ NodeState.Rejected) ⊎ (result ≡ NodeState.Clash) →
            PoolNames self.now.pool square }

        // A node in another state was not alarmed.
        ensures calm { (result ≡ NodeState.Rejected → ⊥) → (result ≡ NodeState.Clash → ⊥) →
            alarm_at self.now node ≡ None }
    {
        state(&self.seats[node as usize])
    }

    /// The claim by which a node rejects, the first that it held; none where it doesn't reject. It takes no memory.
    pub fn claim(&self, node: u16) -> Option<&FraudClaim>
        requires { node < length self.now.nodes }
        ensures value { option_copied result ≡ rejecting_claim (alarm_at self.now node) }
        ensures accepts { IfSome (option_copied result) (Accepts self.now.header) }
    {
        claim(&self.seats[node as usize])
    }

    /// The SHA-256 collision of a node; none where its state isn't `Clash`. It takes no memory.
    pub fn clash(&self, node: u16) -> Option<&Clash>
        requires { node < length self.now.nodes }
        ensures { MatchOption result (clash_in (alarm_at self.now node) ≡ None)
            (λ clash. clash_in (alarm_at self.now node) ≡ Some (clash.now.left, clash.now.right)) }
    {
        clash(&self.seats[node as usize])
    }

    /// Fills the room with the cells that a node misses, row-major, in place of what it held: those that don't follow from
    /// what a full node was handed, or those that a light node planned and no proved sample showed. The node neither rejects
    /// nor has a collision, and the room is for the header's width. It takes no memory.
    pub fn missing(&self, node: u16, room: &mut CellRoom)
        requires node { node < length self.now.nodes }
        requires open { alarm_at self.now node ≡ None }
        requires room { room.old.k ≡ self.now.header.k }
        ensures width { room.new.k ≡ room.old.k }
        ensures missed { (kind : NodeKind) → slice_get self.now.nodes node ≡ Some kind →
            AreMissed self.now.header kind (handed self.now.pool self.now.steps node) room.new }
    {
        missing(&self.seats[node as usize], room);
    }

    /// A network of so many full nodes and of light nodes under the header to which nothing was handed, with capacity
    /// for so many items and steps. Full nodes have the numbers from 0 on, light nodes the next ones. It takes all
    /// memory of the network.
    ///
    /// Refuses more than 8 full nodes, 64 light nodes, 65,536 items or 1,048,576 steps. A refusal drops what was handed
    /// in.
    pub fn new(
        alloc: Global,
        header: Header,
        full: u16,
        lights: Vec<LightNode<F>>,
        items: u32,
        steps: u32,
    ) -> Result<Net<F>, NetError>
        requires lights { AllByRecursion (IsFreshNode F.picks header) lights.items }
        ensures too_many { IsErrOf result NetError.TooMany ↔
            (is_too_many full (vec_len lights) items steps ≡ true) }
        ensures made { IfOk result (λ net. net ≡ fresh header full
            (map (λ n. light n.wanted) lights.items) items steps) }
    {
        if is_too_many(full, lights.len(), items, steps) {
            return Err(NetError::TooMany);
        }
        let Ok(seats) = make_seats(alloc, &header, full, lights) else {
            return Err(NetError::NoMemory);
        };
        let Ok(room) = VerifyRoom::new(alloc, header.k) else {
            return Err(NetError::NoMemory);
        };
        let Ok(pool) = Vec::with_capacity(alloc, items as usize) else {
            return Err(NetError::NoMemory);
        };
        let Ok(list) = Vec::with_capacity(alloc, steps as usize) else {
            return Err(NetError::NoMemory);
        };
        Ok(Net {
            header,
            room,
            seats,
            most_items: items,
            most_steps: steps,
            pool,
            steps: list,
        })
    }
}

/// For how many nodes, items and steps a network is made.
pub fn limit_laws()
    // For up to 8 full nodes, 64 light nodes, 65,536 items and 1,048,576 steps, and for no more.
    ensures most { (fulls lights items steps : ℕ) → (is_too_many fulls lights items steps ≡ false) ↔
        (fulls ≤ 8) × (lights ≤ 64) × (items ≤ 65536) × (steps ≤ 1048576) }
{}
