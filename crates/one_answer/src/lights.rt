//! Of light nodes.

ghost use Rattle.std.specs.Prelude.{◌≡◌, ◌≤◌, ◌+◌, ℕ, List, Result, OnOk};
ghost use Rattle.std.specs.Option.{option_copied};
ghost use Rattle.namespace_id.specs.declared.cells.Cell.{Cell as Place};
ghost use Rattle.light_node.specs.declared.events.Event.{Event as Happened};
ghost use Rattle.light_node.specs.Nodes.{NodeStands};
ghost use Rattle.one_answer.specs.Pickers.{PicksOne};

use axis_roots::{CheckRefusal, FraudClaim, Message};
use light_node::{Event, Light, LightNode, LightState, Picker, light_laws};
use namespace_id::{Cell, CellRoom, NoMemory};

/// Two nodes that stand for one plan and the same events have one state after one event more.
pub fn event_twice<F: Picker>(
    one: &mut LightNode<F>,
    other: &mut LightNode<F>,
    event: Event,
    copy: Event,
) -> (LightState, LightState)
    requires header { other.old.header ≡ one.old.header }
    requires copy { copy ≡ event }
    ensures { (plan : List Place) (events : List Happened) → NodeStands F.picks one.old plan events →
        NodeStands F.picks other.old plan events → result.0 ≡ result.1 }
{
    light_laws();
    let first = one.event(event);
    let second = other.event(copy);
    (first, second)
}

/// A sample has one judgement, whatever the nodes are for.
pub fn judge_twice<F: Picker>(
    one: &mut LightNode<F>,
    other: &mut LightNode<F>,
    message: &Message,
) -> (Result<(), CheckRefusal>, Result<(), CheckRefusal>)
    requires header { other.old.header ≡ one.old.header }
    ensures { result.0 ≡ result.1 }
{
    let first = one.judge(message);
    let second = other.judge(message);
    (first, second)
}

/// They have one state.
pub fn state_twice<F: Picker>(one: &LightNode<F>, other: &LightNode<F>) -> (LightState, LightState)
    requires header { other.now.header ≡ one.now.header }
    ensures { (plan : List Place) (events : List Happened) → NodeStands F.picks one.now plan events →
        NodeStands F.picks other.now plan events → result.0 ≡ result.1 }
{
    light_laws();
    (one.state(), other.state())
}

/// They have one accepted claim, or none.
pub fn claim_twice<'a, F: Picker>(
    one: &'a LightNode<F>,
    other: &'a LightNode<F>,
) -> (Option<&'a FraudClaim>, Option<&'a FraudClaim>)
    requires header { other.now.header ≡ one.now.header }
    ensures { (plan : List Place) (events : List Happened) → NodeStands F.picks one.now plan events →
        NodeStands F.picks other.now plan events → option_copied result.0 ≡ option_copied result.1 }
{
    light_laws();
    (one.claim(), other.claim())
}

/// They have one verdict.
pub fn finish_twice<F: Picker>(
    one: LightNode<F>,
    other: LightNode<F>,
    one_room: CellRoom,
    other_room: CellRoom,
) -> (Light, Light)
    requires header { other.header ≡ one.header }
    requires one_room { one_room.k ≡ one.header.k }
    requires other_room { other_room.k ≡ other.header.k }
    ensures { (plan : List Place) (events : List Happened) → NodeStands F.picks one plan events →
        NodeStands F.picks other plan events → result.0 ≡ result.1 }
{
    light_laws();
    let first = one.finish(one_room);
    let second = other.finish(other_room);
    (first, second)
}

/// They wait for the same cells.
pub fn waiting_twice<F: Picker>(
    one: &LightNode<F>,
    other: &LightNode<F>,
    one_room: &mut CellRoom,
    other_room: &mut CellRoom,
)
    requires header { other.now.header ≡ one.now.header }
    requires one_room { one_room.old.k ≡ one.now.header.k }
    requires other_room { other_room.old.k ≡ other.now.header.k }
    ensures state { (plan : List Place) (events : List Happened) → NodeStands F.picks one.now plan events →
        NodeStands F.picks other.now plan events → one_room.new ≡ other_room.new }
{
    one.waiting(one_room);
    other.waiting(other_room);
}

/// They want one cell next, or none.
pub fn next_wanted_twice<F: Picker>(
    one: &LightNode<F>,
    other: &LightNode<F>,
) -> (Option<Cell>, Option<Cell>)
    requires header { other.now.header ≡ one.now.header }
    ensures { (plan : List Place) (events : List Happened) → NodeStands F.picks one.now plan events →
        NodeStands F.picks other.now plan events → result.0 ≡ result.1 }
{
    (one.next_wanted(), other.next_wanted())
}

/// A picker that answers one cell to each number has one plan.
pub fn more_twice<F: Picker>(
    one: &mut LightNode<F>,
    other: &mut LightNode<F>,
    count: u32,
) -> (Result<(), NoMemory>, Result<(), NoMemory>)
    requires limit { one.old.planned + count ≤ one.old.limit }
    requires same { other.old ≡ one.old }
    ensures state { PicksOne F.picks one.old.pick →
        (plan : List Place) (events : List Happened) → NodeStands F.picks one.old plan events →
        OnOk result.0 (OnOk result.1 (one.new.wanted ≡ other.new.wanted)) }
{
    let first = one.more(count);
    let second = other.more(count);
    (first, second)
}
