//! Of networks.

ghost use Rattle.std.specs.Prelude.{◌≡◌, ◌<◌, ◌-◌, Result, None, IsOk, IfSome, length};
ghost use Rattle.std.specs.List.{AllByRecursion};
ghost use Rattle.da_net.specs.declared.items.NetError.TheVariants.{NoMemory as Full};
ghost use Rattle.da_net.specs.Nodes.{IsFreshNode};
ghost use Rattle.one_answer.specs.Ones.{AreOne};
ghost use Rattle.da_net.specs.Nets.{alarm_at};

use da_net::{Net, NetError, NetEvent, NodeState, StepRefusal, Stepped};
use data_header::Header;
use light_node::{LightNode, Picker};
use namespace_id::CellRoom;
use std::alloc::Global;

/// Nodes are one network, or too many.
pub fn new_twice<F: Picker>(
    alloc: Global,
    headers: (Header, Header),
    full: u16,
    lights: Vec<LightNode<F>>,
    copies: Vec<LightNode<F>>,
    sizes: (u32, u32),
) -> (Result<Net<F>, NetError>, Result<Net<F>, NetError>)
    requires headers { headers.1 ≡ headers.0 }
    requires lights { AllByRecursion (IsFreshNode F.picks headers.0) lights.items }
    requires copies { copies.items ≡ lights.items }
    ensures { AreOne (λ x. x) Full result.0 result.1 }
{
    let (header, copy) = headers;
    let (items, steps) = sizes;
    let first = Net::new(alloc, header, full, lights, items, steps);
    let second = Net::new(alloc, copy, full, copies, items, steps);
    (first, second)
}

/// A step leaves one pool and one list of steps, and is refused for one reason.
pub fn step_twice<F: Picker>(
    one: &mut Net<F>,
    other: &mut Net<F>,
    event: NetEvent,
    copy: NetEvent,
) -> (Result<Stepped, StepRefusal>, Result<Stepped, StepRefusal>)
    requires same { one.old ≡ other.old }
    requires copy { copy ≡ event }
    ensures accepts { IsOk result.0 → IsOk result.1 }
    ensures pool { one.new.pool ≡ other.new.pool }
    ensures steps { one.new.steps ≡ other.new.steps }
{
    let first = one.step(event);
    let second = other.step(copy);
    (first, second)
}

/// A node has one state.
pub fn state_twice<F: Picker>(net: &Net<F>, node: u16) -> (NodeState, NodeState)
    requires { node < length net.now.nodes }
    ensures { result.0 ≡ result.1 }
{
    (net.state(node), net.state(node))
}

/// After a handing it is the one that the step answers.
pub fn handed_state<F: Picker>(
    net: &mut Net<F>,
    item: u32,
    node: u16,
) -> Option<(NodeState, NodeState)>
    ensures { IfSome result (λ states. states.0 ≡ states.1) }
{
    let Ok(Stepped::Handed(state)) = net.step(NetEvent::Hand { item, node }) else {
        return None;
    };
    Some((state, net.state(node)))
}

/// A node that nothing alarmed misses the same cells, whoever asks.
pub fn missing_twice<F: Picker>(net: &Net<F>, node: u16, one: &mut CellRoom, other: &mut CellRoom)
    requires node { node < length net.now.nodes }
    requires open { alarm_at net.now node ≡ None }
    requires one { one.old.k ≡ net.now.header.k }
    requires other { other.old.k ≡ net.now.header.k }
    ensures state { one.new ≡ other.new }
{
    net.missing(node, one);
    net.missing(node, other);
}
