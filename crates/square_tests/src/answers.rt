//! Answers to requests for a namespace.

use crate::inputs::{named_share, square_of, version_0};
use axis_roots::{Found, NsAnswer, NsEntry};
use namespace_id::{Axis, Cell};
use nmt_proofs::{Nodes, OpenRefusal};
use nmt_tree::leaf;
use square_serve::{Held, HeldRows, NsRefusal, check_namespace};
use std::alloc::Global;
use std::process::Abort;

/// An answer of one entry, of what is found in row 0.
fn answer(rt: &impl Abort, alloc: Global, found: Found) -> NsAnswer {
    let entries = vec![in alloc; NsEntry { row: 0, found }].expect(rt, "there is memory");
    NsAnswer { entries }
}

/// The square of these namespaces, held.
fn held(rt: &impl Abort, alloc: Global, names: [u16; 4]) -> Held {
    Held::of(alloc, square_of(rt, alloc, names)).expect(rt, "the namespaces do not fall")
}

/// How many entries an answer has, and the row, the first column and the number of shares of the
/// first one.
fn shape(answer: &NsAnswer) -> (usize, u16, u16, usize) {
    let count = answer.entries.len();
    if count == 0 {
        return (0, 0, 0, 0);
    }
    let entry = &answer.entries[0];
    match &entry.found {
        Found::Range { start, shares, .. } => (count, entry.row, *start, shares.list.len()),
        Found::Absence { pos, .. } => (count, entry.row, *pos, 0),
    }
}

/// By docs/RULES.md, "Namespace answers".
#[test]
fn answers_of_two_rows(rt: HostRuntime) {
    let mut held = held(&rt, rt.alloc(), [1, 3, 3, 7]);
    let mut rows = HeldRows::of(rt.alloc(), square_of(&rt, rt.alloc(), [1, 3, 3, 7])).expect(
        &rt,
        "the namespaces do not fall",
    );
    let cases = [
        ("in both rows", 3, (2, 0, 1, 1)),
        ("in the first row", 1, (1, 0, 0, 1)),
        ("absent from the first row", 2, (1, 0, 1, 0)),
        ("absent from the second row", 5, (1, 1, 1, 0)),
        ("above all", 8, (0, 0, 0, 0)),
    ];
    for (name, low, want) in cases {
        let answer = held.namespace(rt.alloc(), &version_0(low));
        let answer = answer.expect(&rt, "there is memory");
        assert!(rt; shape(&answer) == want, "{name}");
        let answer = rows.namespace(rt.alloc(), &version_0(low));
        let answer = answer.expect(&rt, "there is memory");
        assert!(rt; shape(&answer) == want, "{name}, without the extension");
    }
}

/// The nodes beside a cell of row 0 and beside the pair that it stands in; the first alone, or both.
fn nodes_beside(rt: &impl Abort, held: &mut Held, col: u16, both: bool) -> Nodes {
    let message = held.sample(Cell { row: 0, col }, Axis::Row);
    let message = message.expect(rt, "the cell is in the square");
    let path = message.path.nodes();
    let mut nodes = Nodes::new();
    if path.len() == 2 {
        nodes.push(path[0]);
        if both {
            nodes.push(path[1]);
        }
    }
    nodes
}

/// Why an answer for namespace 3 of what is found in row 0 alone isn't complete.
fn refusal(rt: &impl Abort, alloc: Global, held: &mut Held, found: Found) -> Option<NsRefusal> {
    let answer = answer(rt, alloc, found);
    check_namespace(held.header(), &version_0(3), &answer).err()
}

#[test]
fn absences_at_other_places(rt: HostRuntime) {
    let alloc = rt.alloc();
    let mut held = held(&rt, alloc, [1, 4, 5, 7]);
    let unordered = NsRefusal::Proof(0, OpenRefusal::Unordered);
    let node_count = NsRefusal::Proof(0, OpenRefusal::NodeCount);
    let cases = [
        ("as it is", 1, true, None),
        ("position 0", 0, true, Some(unordered)),
        ("a node too few", 1, false, Some(node_count)),
    ];
    for (name, pos, both, want) in cases {
        let found = Found::Absence {
            pos,
            leaf: leaf(&version_0(4), &named_share(4)),
            nodes: nodes_beside(&rt, &mut held, 1, both),
        };
        assert!(rt; refusal(&rt, alloc, &mut held, found) == want, "{name}");
    }
}
