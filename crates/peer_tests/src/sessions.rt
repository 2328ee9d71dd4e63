//! Sessions that are fed by themselves, and lists of samples, on the headers of the two squares of width 2.

ghost use Rattle.std.specs.Prelude.{◌≡◌};
ghost use Rattle.axis_roots.specs.Proved.{IsUnder};

use crate::squares::{bad_grid, grid, header, message};
use axis_roots::{Grid, Proved, check};
use data_header::Header;
use namespace_id::{Axis, Cell, CellRoom};
use repair_queue::{Session, SessionState, Verdict, repair_list};
use std::alloc::Global;
use std::process::Abort;

/// What an answer is: its name, and how many shares or cells it has.
fn told(verdict: Verdict) -> (&'static str, usize) {
    match verdict {
        Verdict::Whole(square) => ("whole", square.shares.len()),
        Verdict::Fraud(proof) => ("fraud", proof.cells.len()),
        Verdict::Missing(cells) => ("missing", cells.list.len()),
        Verdict::Clash(_clash) => ("collision", 0),
    }
}

/// The sample of a cell along an axis, where the session stands after it, and how many cells it misses then; 0 where it ended.
type Fed = (u16, u16, Axis, SessionState, usize);

/// How many cells a session misses; 0 where it ended.
fn count_missing(session: &Session, room: &mut CellRoom) -> usize
    requires room { room.old.k ≡ session.now.header.k }
    ensures room { room.new.k ≡ room.old.k }
{
    if session.state() != SessionState::Open {
        return 0;
    }
    session.missing(room);
    room.cells().len()
}

/// Feeds a session with the samples of cells of a square, one by one.
fn feed(
    rt: &impl Abort,
    alloc: Global,
    session: &mut Session,
    room: &mut CellRoom,
    grid: &Grid,
    cells: &[Fed],
)
    requires room { room.old.k ≡ session.old.header.k }
{
    for (row, col, axis, state, missing) in cells {
        let cell = Cell {
            row: *row,
            col: *col,
        };
        let message = message(rt, alloc, grid, cell, *axis);
        let proved = session.check(message).ok().expect(rt, "it is proved");
        assert!(rt; session.feed(proved) == *state, "{row},{col}");
        assert!(rt; count_missing(session, room) == *missing, "{row},{col}");
    }
}

/// What a session under the header of a square answers at its end that was fed with samples of cells.
fn ends(rt: &impl Abort, alloc: Global, grid: &Grid, cells: &[Fed]) -> (&'static str, usize)
    requires { grid.now.k ≡ 2 }
{
    let header = header(rt, alloc, grid);
    let mut room = CellRoom::new(alloc, 2).expect(rt, "there is memory");
    let mut session = Session::new(alloc, &header).expect(rt, "there is memory");
    assert!(rt; count_missing(&session, &mut room) == 16, "nothing fed");
    feed(rt, alloc, &mut session, &mut room, grid, cells);
    told(session.finish())
}

#[test]
fn a_square(rt: HostRuntime) {
    let cells = [
        (0, 0, Axis::Row, SessionState::Open, 15),
        (0, 1, Axis::Row, SessionState::Open, 12),
        (1, 0, Axis::Row, SessionState::Open, 9),
        (2, 3, Axis::Row, SessionState::Open, 0),
    ];
    let alloc = rt.alloc();
    let end = ends(&rt, alloc, &grid(&rt, alloc), &cells);
    assert!(rt; end == ("whole", 4), "all cells");
}

#[test]
fn a_bad_row(rt: HostRuntime) {
    let cells = [
        (3, 0, Axis::Col, SessionState::Open, 15),
        (3, 1, Axis::Col, SessionState::Fraud, 0),
        (0, 0, Axis::Col, SessionState::Fraud, 0),
    ];
    let alloc = rt.alloc();
    let end = ends(&rt, alloc, &bad_grid(&rt, alloc), &cells);
    assert!(rt; end == ("fraud", 2), "row 3");
}

/// The proved sample of a cell, along its column.
fn proved(
    rt: &impl Abort,
    alloc: Global,
    header: &Header,
    grid: &Grid,
    row: u16,
    col: u16,
) -> Proved
    ensures { IsUnder header.now result }
{
    let message = message(rt, alloc, grid, Cell { row, col }, Axis::Col);
    check(header, message).ok().expect(rt, "it is proved")
}

/// A list of no samples, and one of four of a square from which all of its cells follow.
#[test]
fn lists_of_a_square(rt: HostRuntime) {
    let alloc = rt.alloc();
    let grid = grid(&rt, alloc);
    let header = header(&rt, alloc, &grid);
    let none = repair_list(alloc, &header, Vec::new(alloc)).expect(&rt, "there is memory");
    assert!(rt; told(none) == ("missing", 16), "no sample");
    let list = vec![in alloc;
        proved(&rt, alloc, &header, &grid, 0, 0),
        proved(&rt, alloc, &header, &grid, 1, 0),
        proved(&rt, alloc, &header, &grid, 0, 1),
        proved(&rt, alloc, &header, &grid, 3, 2),
    ];
    let list = list.ok().expect(&rt, "there is memory");
    let all = repair_list(alloc, &header, list).expect(&rt, "there is memory");
    assert!(rt; told(all) == ("whole", 4), "four samples");
}

/// Two samples of the bad row.
#[test]
fn a_list_of_a_bad_row(rt: HostRuntime) {
    let alloc = rt.alloc();
    let grid = bad_grid(&rt, alloc);
    let header = header(&rt, alloc, &grid);
    let list = vec![in alloc;
        proved(&rt, alloc, &header, &grid, 3, 1),
        proved(&rt, alloc, &header, &grid, 3, 2),
    ];
    let list = list.ok().expect(&rt, "there is memory");
    let two = repair_list(alloc, &header, list).expect(&rt, "there is memory");
    assert!(rt; told(two) == ("fraud", 2), "row 3");
}
