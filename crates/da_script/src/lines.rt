//! The lines of events and nodes.

ghost use Rattle.std.specs.Prelude.{◌≡◌, ◌+◌, ◌<◌, ◌≤◌, ◌++◌, length, None};
ghost use Rattle.da_net.specs.Nets.{HasState, alarm_at};
ghost use Rattle.da_script.specs.Plays.{state_word, step_line, refusal_number, refused_line, IsNodeLine};
ghost use Rattle.da_script.specs.Parts.{claim_tail, IsTailed};

use axis_roots::FraudClaim;
use da_net::{Net, NodeState, StepRefusal, Stepped};
use da_status::{Line, around, axis_note};
use light_node::Picker;
use namespace_id::CellRoom;

/// A state, in a word.
fn state_word(state: NodeState) -> &'static [u8]
    ensures value { result.now ≡ state_word state }
    ensures few { length result.now ≤ 9 }
{
    match state {
        NodeState::Open => b"open",
        NodeState::Clash => b"clash",
        NodeState::Waiting => b"waiting",
        NodeState::Available => b"available",
        NodeState::Rejected => b"rejected",
    }
}

/// The line of an event that happened.
pub(crate) fn step_line(stepped: Stepped) -> Line
    ensures { result ≡ step_line stepped }
{
    let mut line = Line::new();
    match stepped {
        Stepped::Pooled(place) => around(&mut line, b"pooled ", u64::from(place), b"\n"),
        Stepped::Handed(state) => {
            line.put(b"handed ");
            line.put(state_word(state));
            line.put(b"\n");
        }
    }
    line
}

/// The number of the refusal of an event.
fn refusal_number(why: &StepRefusal) -> u64
    ensures { result ≡ refusal_number why.now }
{
    match why {
        StepRefusal::Full(_) => 1,
        StepRefusal::NoItem => 2,
        StepRefusal::NoNode => 3,
        StepRefusal::NotRejecting => 4,
        StepRefusal::Published => 5,
    }
}

/// The line of an event that is refused.
pub(crate) fn refused_line(why: &StepRefusal) -> Line
    ensures { result ≡ refused_line why.now }
{
    let mut line = Line::new();
    around(&mut line, b"refused ", refusal_number(why), b"\n");
    line
}

/// Puts the axis of a claim.
fn put_claim(line: &mut Line, claim: &FraudClaim)
    requires { length line.old ≤ 40 }
    ensures value { line.new ≡ line.old ++ claim_tail claim.now }
    ensures few { length line.new ≤ length line.old + 29 }
{
    line.put(b" ");
    line.put(axis_note(claim.axis));
    around(line, b"", u64::from(claim.index), b"");
}

/// Puts what the line of a node has behind its state.
fn put_tail<F: Picker>(
    line: &mut Line,
    net: &Net<F>,
    node: u16,
    state: NodeState,
    room: &mut CellRoom,
)
    requires line { length line.old ≤ 40 }
    requires node { node < length net.now.nodes }
    requires state { HasState net.now node state }
    requires calm { (state ≡ NodeState.Rejected → ⊥) → (state ≡ NodeState.Clash → ⊥) →
        alarm_at net.now node ≡ None }
    requires room { room.old.k ≡ net.now.header.k }
    ensures tail { IsTailed net.now node state line.old line.new }
    ensures few { length line.new ≤ length line.old + 29 }
    ensures room { room.new.k ≡ room.old.k }
{
    match state {
        NodeState::Open => {
            net.missing(node, room);
            around(line, b" missing ", room.cells().len() as u64, b"");
        }
        NodeState::Waiting => {
            net.missing(node, room);
            around(line, b" ", room.cells().len() as u64, b"");
        }
        NodeState::Rejected => put_claim(line, net.claim(node).unwrap()),
        NodeState::Clash | NodeState::Available => {}
    }
}

/// The line of a node. The room is for the header's width.
pub(crate) fn node_line<F: Picker>(net: &Net<F>, node: u16, room: &mut CellRoom) -> Line
    requires node { node < length net.now.nodes }
    requires room { room.old.k ≡ net.now.header.k }
    ensures line { IsNodeLine net.now node result }
    ensures room { room.new.k ≡ room.old.k }
{
    let state = net.state(node);
    let mut line = Line::new();
    around(&mut line, b"node ", u64::from(node), b" ");
    line.put(state_word(state));
    put_tail(&mut line, net, node, state, room);
    line.put(b"\n");
    line
}
