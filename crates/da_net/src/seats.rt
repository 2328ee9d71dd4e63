//! What a network keeps for each of its nodes, and of each item.

ghost use Rattle.std.specs.Prelude.{◌≡◌, ℕ, List, [], ◌∷◌, ◌++◌, IsSome, MatchOption, Some, None, option_copied};
ghost use Rattle.axis_roots.specs.Claims.{Accepts};
ghost use Rattle.data_header.specs.Headers.{Roots};
ghost use Rattle.da_net.specs.declared.items.Item.{Item as Handed};
ghost use Rattle.da_net.specs.declared.items.Item.TheVariants as item;
ghost use Rattle.da_net.specs.Networks.{Standing, clashing, rejecting, IsNetItem};
ghost use Rattle.da_net.specs.Nets.{standing_state, light_state, rejecting_claim, clash_in, AreMissed, AfterClash};
ghost use Rattle.da_net.specs.Nodes.{HasSpareClaim, standing_by};
ghost use Rattle.da_net.specs.Seats.{node_kind, alarm_of, IsSeat, IsSeatStep, SeatStands, IsJudgedEntry, IsCopied};

use crate::copies::{ClaimRoom, copy_claim, copy_message};
use crate::full::{End, FullNode};
use crate::items::{Item, NodeState};
use crate::lights::{hand_claim, hand_sample};
use axis_roots::{FraudClaim, Message, message_law};
use befp_verify::{VerifyRoom, verify};
use data_header::Header;
use hash_clash::Clash;
use light_node::{LightNode, LightState, Picker, light_laws};
use namespace_id::CellRoom;

/// A node.
#[derive(Drop)]
pub(crate) enum Node<F: Picker> {
    Full(FullNode),
    Light(LightNode<F>),
}

/// A node with a room for the claim that it keeps, and one for the claim that it publishes.
#[derive(Drop)]
pub(crate) struct Seat<F: Picker> {
    pub(crate) node: Node<F>,
    pub(crate) kept: Option<ClaimRoom>,
    pub(crate) published: Option<ClaimRoom>,
}

/// An item of the pool, and whether it is a claim that is accepted.
#[derive(Drop)]
pub(crate) struct Entry {
    pub(crate) item: Item,
    pub(crate) accepted: bool,
}

/// An item with the judgement on it.
pub(crate) fn judge(room: &mut VerifyRoom, header: &Header, item: Item) -> Entry
    requires room { room.old ≡ header.now.k }
    ensures room { room.new ≡ room.old }
    ensures item { result.item ≡ item }
    ensures shape { IsNetItem item }
    ensures judged { IsJudgedEntry header.now result }
{
    match item {
        Item::Message(message) => {
            message_law(&message);
            Entry {
                item: Item::Message(message),
                accepted: false,
            }
        }
        Item::Claim(claim) => match verify(room, header, claim) {
            Ok(upheld) => Entry {
                item: Item::Claim(upheld.into_claim()),
                accepted: true,
            },
            Err(refused) => Entry {
                item: Item::Claim(refused.claim),
                accepted: false,
            },
        },
    }
}

/// Hands a sample to a node.
fn hand_message<F: Picker>(seat: &mut Seat<F>, header: &Header, message: &Message)
    requires seat { (items : List Handed) × IsSeat F.picks header.now items seat.old }
    ensures step { (items : List Handed) → IsSeat F.picks header.now items seat.old →
        IsSeatStep F.picks header.now (items ++ item.Message message.now ∷ []) seat.old seat.new }
    ensures clashes { (left right : List ℕ) →
        alarm_of seat.old.node ≡ Some (clashing left right) →
        alarm_of seat.new.node ≡ Some (clashing left right) }
{
    let copy = copy_message(message);
    match &mut seat.node {
        Node::Full(node) => node.take(header, copy, &mut seat.kept),
        Node::Light(node) => hand_sample(node, copy),
    }
}

/// Hands an accepted claim to a node.
fn hand_accepted<F: Picker>(seat: &mut Seat<F>, header: &Header, claim: &FraudClaim)
    requires seat { (items : List Handed) × IsSeat F.picks header.now items seat.old }
    requires accepts { Accepts header.now claim.now }
    ensures step { (items : List Handed) → IsSeat F.picks header.now items seat.old →
        IsSeatStep F.picks header.now (items ++ item.Claim claim.now ∷ []) seat.old seat.new }
    ensures clashes { (left right : List ℕ) →
        alarm_of seat.old.node ≡ Some (clashing left right) →
        alarm_of seat.new.node ≡ Some (rejecting claim.now) }
{
    match &mut seat.node {
        Node::Full(node) => node.accept(header, claim, &mut seat.kept),
        Node::Light(node) => hand_claim(node, header, claim, &mut seat.kept),
    }
}

/// Hands an item to a node.
pub(crate) fn hand<F: Picker>(seat: &mut Seat<F>, header: &Header, entry: &Entry)
    requires seat { (items : List Handed) × IsSeat F.picks header.now items seat.old }
    requires judged { IsJudgedEntry header.now entry.now }
    ensures step { (items : List Handed) → IsSeat F.picks header.now items seat.old →
        IsSeatStep F.picks header.now (items ++ entry.now.item ∷ []) seat.old seat.new }
    ensures clashes { (left right : List ℕ) →
        alarm_of seat.old.node ≡ Some (clashing left right) →
        AfterClash header.now left right entry.now.item (alarm_of seat.new.node) }
{
    match &entry.item {
        Item::Message(message) => hand_message(seat, header, message),
        Item::Claim(claim) => {
            if entry.accepted {
                hand_accepted(seat, header, claim);
            }
        }
    }
}

/// The state of a full node, by what ended it.
fn state_by(end: &Option<End>) -> NodeState
    ensures { result ≡ standing_state (standing_by end.now) }
{
    match end {
        None => NodeState::Open,
        Some(End::Clash(_)) => NodeState::Clash,
        Some(End::Rejected(_)) => NodeState::Rejected,
    }
}

/// The state of a light node.
fn state_with(state: LightState) -> NodeState
    ensures { result ≡ light_state state }
{
    match state {
        LightState::Waiting => NodeState::Waiting,
        LightState::Available => NodeState::Available,
        LightState::Rejected => NodeState::Rejected,
    }
}

/// The state of a node.
pub(crate) fn state<F: Picker>(seat: &Seat<F>) -> NodeState
    ensures { (header : Roots) (items : List Handed) → IsSeat F.picks header items seat.now →
        (standing : Standing) × SeatStands header items seat.now standing
        × (result ≡ standing_state standing) }
{
    match &seat.node {
        Node::Full(node) => state_by(&node.end),
        Node::Light(node) => state_with(node.state()),
    }
}

/// The claim by which a node rejects.
pub(crate) fn claim<F: Picker>(seat: &Seat<F>) -> Option<&FraudClaim>
    requires seat { (header : Roots) × (items : List Handed) × IsSeat F.picks header items seat.now }
    ensures { option_copied result ≡ rejecting_claim (alarm_of seat.now.node) }
{
    light_laws();
    match &seat.node {
        Node::Full(node) => match &node.end {
            Some(End::Rejected(claim)) => Some(claim),
            Some(End::Clash(_)) | None => None,
        },
        Node::Light(node) => node.claim(),
    }
}

/// Copies the claim by which a node rejects into the room for publishing it.
pub(crate) fn copied<F: Picker>(seat: &mut Seat<F>, header: &Header) -> FraudClaim
    requires seat { (items : List Handed) × IsSeat F.picks header.now items seat.old }
    requires rejects { IsSome (rejecting_claim (alarm_of seat.old.node)) }
    requires room { HasSpareClaim header.now.k seat.old.published }
    ensures { IsCopied seat.old seat.new result }
{
    let room = seat.published.take().unwrap();
    copy_claim(claim(seat).unwrap(), room)
}

/// The collision of a node.
pub(crate) fn clash<F: Picker>(seat: &Seat<F>) -> Option<&Clash>
    ensures { MatchOption result (clash_in (alarm_of seat.now.node) ≡ None)
        (λ clash. clash_in (alarm_of seat.now.node) ≡ Some (clash.now.left, clash.now.right)) }
{
    match &seat.node {
        Node::Full(node) => match &node.end {
            Some(End::Clash(clash)) => Some(clash),
            Some(End::Rejected(_)) | None => None,
        },
        Node::Light(_) => None,
    }
}

/// Fills the room with the cells that a node misses.
pub(crate) fn missing<F: Picker>(seat: &Seat<F>, room: &mut CellRoom)
    requires open { alarm_of seat.now.node ≡ None }
    requires seat { (header : Roots) × (items : List Handed) × IsSeat F.picks header items seat.now
        × (room.old.k ≡ header.k) }
    ensures width { room.new.k ≡ room.old.k }
    ensures missed { (header : Roots) (items : List Handed) → IsSeat F.picks header items seat.now →
        AreMissed header (node_kind seat.now.node) items room.new }
{
    match &seat.node {
        Node::Full(node) => {
            if let Some(session) = &node.session {
                session.missing(room);
            }
        }
        Node::Light(node) => node.waiting(room),
    }
}
