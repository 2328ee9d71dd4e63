//! Values that have no spelling, by docs/FORMATS.md, "Payloads".

use axis_roots::{Found, FraudClaim, Message, NsAnswer, NsEntry, SetNodes, ShareList};
use da_wire::{Frame, SpellError, write_frame};
use namespace_id::{Axis, Cell, Cells, Digest, Namespace, Share};
use nmt_proofs::{Nodes, Path};
use square_layout::Block;
use std::alloc::Global;
use std::process::Abort;

/// No cells, of the square of width 1.
fn no_cells(rt: &impl Abort, alloc: Global) -> Frame {
    Frame::Missing(Cells::of(1, Vec::new(alloc)).expect(rt, "it is a list of cells"))
}

/// The block of nothing that asks for the width 0.
fn narrow_block(alloc: Global) -> Frame {
    Frame::Block(Block {
        units: Vec::new(alloc),
        pay_units: Vec::new(alloc),
        blobs: Vec::new(alloc),
        width: Some(0),
    })
}

/// The answer of so many ranges of as many shares.
fn answer(rt: &impl Abort, alloc: Global, ranges: u16, shares: usize) -> Frame {
    let mut entries = Vec::new(alloc);
    for row in 0..ranges {
        let list = vec![in alloc; Share([5; 512]); shares].expect(rt, "there is memory");
        let found = Found::Range {
            start: 1,
            shares: ShareList { list },
            nodes: Nodes::new(),
        };
        entries
            .push(NsEntry { row, found })
            .expect(rt, "there is memory");
    }
    Frame::Names(Namespace([9; 29]), NsAnswer { entries })
}

/// A path of one node.
fn one_node() -> Path {
    let mut path = Path::new();
    path.push(Digest([6; 90]));
    path
}

/// A sample of a cell.
fn message(row: u16, col: u16, axis: Axis, path: Path) -> Message {
    Message {
        cell: Cell { row, col },
        axis,
        share: Share([5; 512]),
        path,
    }
}

/// The claim against column 3 by so many cells, each on its row, with such a set.
fn claim(rt: &impl Abort, alloc: Global, count: u16, set: Option<SetNodes>) -> Frame {
    let mut cells = Vec::new(alloc);
    for row in 0..count {
        cells
            .push(message(row, 3, Axis::Row, Path::new()))
            .expect(rt, "there is memory");
    }
    Frame::Fraud(FraudClaim {
        axis: Axis::Col,
        index: 3,
        cells,
        set,
    })
}

/// The set of so many nodes.
fn set(rt: &impl Abort, alloc: Global, nodes: usize) -> Option<SetNodes> {
    let nodes = vec![in alloc; Digest([6; 90]); nodes].expect(rt, "there is memory");
    Some(SetNodes { nodes })
}

/// The claim against column 3 by a cell that a set of so many nodes shows, and by one more cell.
fn shown(rt: &impl Abort, alloc: Global, nodes: usize, more: Message) -> Frame {
    let first = message(0, 3, Axis::Col, Path::new());
    let cells = vec![in alloc; first, more].expect(rt, "there is memory");
    Frame::Fraud(FraudClaim {
        axis: Axis::Col,
        index: 3,
        cells,
        set: set(rt, alloc, nodes),
    })
}

/// `write_frame` refuses a value, and leaves one byte as it was.
fn is_refused(rt: &impl Abort, alloc: Global, name: &str, value: Frame) {
    let mut out = Vec::from_slice(alloc, &[3]).expect(rt, "there is memory");
    let refused = write_frame(&value, &mut out).err();
    assert_eq!(rt;
        (refused, out.len()),
        (Some(SpellError::Unspellable), 1),
        "{name}"
    );
}

#[test]
fn values_without_spelling(rt: HostRuntime) {
    let alloc = rt.alloc();
    is_refused(&rt, alloc, "no cells", no_cells(&rt, alloc));
    is_refused(&rt, alloc, "width 0", narrow_block(alloc));
    is_refused(&rt, alloc, "513 entries", answer(&rt, alloc, 513, 0));
    is_refused(&rt, alloc, "513 shares", answer(&rt, alloc, 1, 513));
}

#[test]
fn claims_without_spelling(rt: HostRuntime) {
    let alloc = rt.alloc();
    is_refused(&rt, alloc, "513 cells", claim(&rt, alloc, 513, None));
    let shows_no_cell = claim(&rt, alloc, 1, set(&rt, alloc, 0));
    is_refused(&rt, alloc, "a set that shows no cell", shows_no_cell);
    let cases = [
        ("513 nodes", 513, message(1, 3, Axis::Col, Path::new())),
        (
            "a shown cell's path",
            1,
            message(1, 3, Axis::Col, one_node()),
        ),
        (
            "a cell off the axis",
            1,
            message(1, 2, Axis::Row, Path::new()),
        ),
    ];
    for (name, nodes, more) in cases {
        is_refused(&rt, alloc, name, shown(&rt, alloc, nodes, more));
    }
}
