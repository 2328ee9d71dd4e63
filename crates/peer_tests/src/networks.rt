//! A network that was made for no items. What other steps come to is shown by rows of the command `net`.

use crate::squares::{grid, header, message};
use da_net::{Item, Net, NetEvent, StepRefusal};
use light_node::{LightNode, Picker};
use namespace_id::{Axis, Cell};
use std::alloc::Global;
use std::process::Abort;

/// Whether a sample that is put into a network of one full node and no items comes back.
fn comes_back<F: Picker>(rt: &impl Abort, alloc: Global, _pick: F) -> bool {
    let grid = grid(rt, alloc);
    let nobody: Vec<LightNode<F>> = Vec::new(alloc);
    let message = message(rt, alloc, &grid, Cell { row: 3, col: 0 }, Axis::Col);
    let header = header(rt, alloc, &grid);
    let mut net = Net::new(alloc, header, 1, nobody, 0, 1).expect(rt, "there is memory");
    matches!(
        net.step(NetEvent::Put(Item::Message(message))),
        Err(StepRefusal::Full(NetEvent::Put(Item::Message(_))))
    )
}

#[test]
fn a_put_without_room(rt: HostRuntime) {
    let pick = |_number: u32| -> Cell { Cell { row: 0, col: 0 } };
    assert!(rt; comes_back(&rt, rt.alloc(), pick));
}
