//! Rooms of cells, and cells that a key draws.

use namespace_id::{Cell, CellRoom};
use sampling::{DrawError, cells};
use std::alloc::Global;
use std::process::Abort;

/// A room is filled, emptied, filled anew and made a list.
#[test]
fn rooms(rt: HostRuntime) {
    let first = Cell { row: 0, col: 1 };
    let last = Cell { row: 1, col: 0 };
    let mut room = CellRoom::new(rt.alloc(), 1).expect(&rt, "there is memory");
    room.add(first);
    room.add(last);
    assert!(rt; room.cells() == [first, last].as_slice(), "filled");
    room.clear();
    assert!(rt; room.cells().is_empty(), "emptied");
    room.add(last);
    let cells = room.into_cells();
    assert!(rt; cells.list.as_slice() == [last].as_slice(), "filled anew");
}

/// The key whose bytes count up from 0.
const COUNTING: [u8; 32] = [
    0, 1, 2, 3, 4, 5, 6, 7, 8, 9, 10, 11, 12, 13, 14, 15, 16, 17, 18, 19, 20, 21, 22, 23, 24, 25,
    26, 27, 28, 29, 30, 31,
];

/// All cells of width 1, the first four of width 4, and the first three and the last of the most that are
/// drawn of width 128, as a key draws them: row and column.
#[derive(Clone, Copy, Drop)]
struct Drawn {
    least: [(u16, u16); 4],
    some: [(u16, u16); 4],
    most: [(u16, u16); 3],
    last: (u16, u16),
}

/// Whether the cells begin with these.
fn begins(cells: &[Cell], want: &[(u16, u16)]) -> bool {
    for i in 0..want.len() {
        if i >= cells.len() || (cells[i].row, cells[i].col) != want[i] {
            return false;
        }
    }
    true
}

/// Whether the key draws these cells.
fn draws(rt: &impl Abort, alloc: Global, key: &[u8; 32], want: &Drawn) -> bool {
    let least = cells(alloc, key, 1, 4).expect(rt, "there is memory");
    let some = cells(alloc, key, 4, 4).expect(rt, "there is memory");
    let most = cells(alloc, key, 128, 4096).expect(rt, "there is memory");
    begins(&least, &want.least)
        && begins(&some, &want.some)
        && begins(&most, &want.most)
        && begins(&most[4095..], &[want.last])
}

/// The cells by tools/values.py, whose block function gives the vector of RFC 8439, 2.3.2.
#[test]
fn drawn_cells(rt: HostRuntime) {
    let counting = Drawn {
        least: [(0, 1), (1, 0), (0, 0), (1, 1)],
        some: [(7, 1), (2, 0), (5, 1), (2, 6)],
        most: [(253, 57), (90, 148), (243, 143)],
        last: (132, 139),
    };
    let zeros = Drawn {
        least: [(1, 0), (1, 1), (0, 1), (0, 0)],
        some: [(6, 6), (2, 4), (7, 5), (7, 6)],
        most: [(184, 118), (241, 188), (80, 225)],
        last: (120, 165),
    };
    let greatest_bytes = Drawn {
        least: [(1, 0), (1, 1), (0, 0), (0, 1)],
        some: [(6, 6), (0, 2), (4, 5), (3, 1)],
        most: [(184, 246), (212, 217), (250, 146)],
        last: (89, 204),
    };
    assert!(rt; draws(&rt, rt.alloc(), &COUNTING, &counting));
    assert!(rt; draws(&rt, rt.alloc(), &[0; 32], &zeros));
    assert!(rt; draws(&rt, rt.alloc(), &[255; 32], &greatest_bytes));
}

#[test]
fn too_many(rt: HostRuntime) {
    for (k, count) in [(1, 5), (128, 4097)] {
        assert!(rt; cells(rt.alloc(), &COUNTING, k, count).err() == Some(DrawError::TooMany));
    }
}
