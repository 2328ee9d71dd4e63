//! Light nodes whose pickers are closures: one that is told to pick more, and one that picks one cell again and again. What
//! comes of claims is shown by rows of the command `light`.

ghost use Rattle.std.specs.Prelude.{◌≡◌, ℕ, ◌<◌, true};
ghost use Rattle.namespace_id.specs.Cells.{is_in_square};
ghost use Rattle.light_node.specs.Plans.{PicksInside};

use crate::squares::{DATA_ROOT, grid, header, message};
use axis_roots::{Grid, Message};
use data_header::data_root;
use light_node::{Event, LightNode, LightState, Picker};
use namespace_id::{Axis, Cell, CellRoom, Share};
use nmt_proofs::Path;
use std::alloc::Global;
use std::process::Abort;

/// The cells that a picker of the diagonal names.
const DIAGONAL: [Cell; 4] = [
    Cell { row: 0, col: 0 },
    Cell { row: 1, col: 1 },
    Cell { row: 2, col: 2 },
    Cell { row: 3, col: 3 },
];

/// The sample of a cell, along its row.
fn sample(rt: &impl Abort, alloc: Global, grid: &Grid, cell: Cell) -> Event {
    Event::Sample(message(rt, alloc, grid, cell, Axis::Row))
}

/// A sample of a cell without any nodes.
fn unproved(cell: Cell) -> Event {
    Event::Sample(Message {
        cell,
        axis: Axis::Row,
        share: Share([5; 512]),
        path: Path::new(),
    })
}

/// A node has this state after an event.
fn tell<F: Picker>(
    rt: &impl Abort,
    node: &mut LightNode<F>,
    event: Event,
    state: LightState,
    name: &str,
)
    ensures header { node.new.header ≡ node.old.header }
    ensures limit { node.new.limit ≡ node.old.limit }
    ensures planned { node.new.planned ≡ node.old.planned }
{
    assert!(rt; node.event(event) == state, "{name}");
}

/// How a node of limit 4 that picks the diagonal fares.
fn follows_the_diagonal<F: Picker>(rt: &impl Abort, alloc: Global, pick: F)
    requires { PicksInside F.can_pick F.picks pick 4 2 }
{
    let grid = grid(rt, alloc);
    let header = header(rt, alloc, &grid);
    assert_eq!(rt; data_root(&header), DATA_ROOT);
    let mut node = LightNode::new(alloc, &header, 4, pick).expect(rt, "there is memory");
    node.more(2).expect(rt, "there is memory");
    assert!(rt; node.next_wanted() == Some(DIAGONAL[0]), "the first cell");
    let first = sample(rt, alloc, &grid, DIAGONAL[0]);
    tell(rt, &mut node, first, LightState::Waiting, "one shown");
    assert!(rt; node.next_wanted() == Some(DIAGONAL[1]), "the second cell");
    tell(
        rt,
        &mut node,
        unproved(DIAGONAL[1]),
        LightState::Waiting,
        "not proved",
    );
    let second = sample(rt, alloc, &grid, DIAGONAL[1]);
    tell(rt, &mut node, second, LightState::Available, "both shown");
    node.more(2).expect(rt, "there is memory");
    let mut room = CellRoom::new(alloc, 2).expect(rt, "there is memory");
    node.waiting(&mut room);
    assert!(rt; room.cells() == &DIAGONAL[2..], "two more");
}

/// How a node of limit 3 fares whose picker names the second cell of the diagonal each time: it plans it once.
fn plans_once<F: Picker>(rt: &impl Abort, alloc: Global, pick: F)
    requires { PicksInside F.can_pick F.picks pick 3 2 }
{
    let grid = grid(rt, alloc);
    let header = header(rt, alloc, &grid);
    let mut node = LightNode::new(alloc, &header, 3, pick).expect(rt, "there is memory");
    node.more(3).expect(rt, "there is memory");
    let mut room = CellRoom::new(alloc, 2).expect(rt, "there is memory");
    node.waiting(&mut room);
    assert!(rt; room.cells() == &DIAGONAL[1..2], "one cell");
    let one = sample(rt, alloc, &grid, DIAGONAL[1]);
    tell(rt, &mut node, one, LightState::Available, "shown");
    assert!(rt; node.next_wanted().is_none(), "no more");
}

#[test]
fn one_cell(rt: HostRuntime) {
    plans_once(
        &rt,
        rt.alloc(),
        |_number: u32| -> Cell
            ensures { is_in_square 2 result ≡ true }
        { Cell { row: 1, col: 1 } },
    );
}

#[test]
fn diagonal(rt: HostRuntime) {
    follows_the_diagonal(
        &rt,
        rt.alloc(),
        |number: u32| -> Cell
            requires { number < 4 }
            ensures { is_in_square 2 result ≡ true }
        {
            Cell {
                row: number as u16,
                col: number as u16,
            }
        },
    );
}
