//! Talks of a repair over a line in memory, on the headers of the two squares of width 2.

ghost use Rattle.std.specs.Prelude.{◌≡◌};

use crate::squares::{bad_grid, grid, header, message};
use axis_roots::Grid;
use da_gathering::{Gatherer, gather, most_gathered};
use da_io::{Inputs, MemInputs, MemSink};
use da_status::Status;
use da_talk::{Happened, Logged, Pipe, TalkEnd};
use da_wire::{Frame, write_frame};
use frame_payloads::MOST_MESSAGE;
use namespace_id::{Axis, Cell};
use std::alloc::Global;
use std::process::Abort;

/// What came of a talk: how many bytes were heard, which were said, how it ended, and the status that was kept.
#[derive(Drop)]
struct Talked {
    heard: usize,
    said: Vec<u8>,
    end: TalkEnd,
    status: Option<Status>,
}

/// How many bytes were heard.
fn heard(rt: &impl Abort, log: &Option<Vec<Happened>>) -> usize {
    let Some(events) = log else {
        panic!(rt; "there is memory for the log")
    };
    let mut count: usize = 0;
    for event in events {
        if let Happened::Heard(bytes) = event {
            count = count.wrapping_add(bytes.len());
        }
    }
    count
}

/// Whether bytes hold others from an offset on.
fn holds(bytes: &[u8], at: usize, part: &[u8]) -> bool {
    match bytes.get(at..) {
        Some(rest) => rest.starts_with(part),
        None => false,
    }
}

/// Adds the frame of the sample of a cell, with another last byte of its share where `flip` isn't 0.
fn add(
    rt: &impl Abort,
    alloc: Global,
    talk: &mut Vec<u8>,
    grid: &Grid,
    at: (u16, u16, Axis),
    flip: u8,
) {
    let cell = Cell {
        row: at.0,
        col: at.1,
    };
    let mut message = message(rt, alloc, grid, cell, at.2);
    message.share.0[511] ^= flip;
    write_frame(&Frame::Message(message), talk).expect(rt, "there is memory");
}

/// A talk of a repair under the header of a square: each read gives a byte.
fn talk(rt: &impl Abort, alloc: Global, grid: &Grid, talk: Vec<u8>) -> Talked
    requires { grid.now.k ≡ 2 }
{
    let header = header(rt, alloc, grid);
    let mut gatherer = Gatherer::new(alloc, &header).expect(rt, "there is memory");
    let mut room = Vec::with_capacity(alloc, 5 + MOST_MESSAGE).expect(rt, "there is memory");
    let mut text = Vec::with_capacity(alloc, most_gathered(2)).expect(rt, "there is memory");
    let name = String::from_str(alloc, "talk").expect(rt, "there is memory");
    let names = vec![in alloc; name].expect(rt, "there is memory");
    let contents = vec![in alloc; talk].expect(rt, "there is memory");
    let mut inputs = MemInputs::new(names, contents, 1, Vec::new(alloc));
    let name = String::from_str(alloc, "talk").expect(rt, "there is memory");
    inputs.pick(name).expect(rt, "the file is there");
    let mut out = MemSink::new(alloc, 10_000, 1000, Vec::new(alloc)).expect(rt, "there is memory");
    let mut line = Logged::new(
        alloc,
        Pipe {
            inputs: &mut inputs,
            out: &mut out,
        },
    );
    let end = gather(&mut gatherer, &mut room, &mut text, &mut line);
    let heard = heard(rt, line.log());
    drop(line);
    Talked {
        heard,
        said: out.bytes,
        end,
        status: gatherer.status(),
    }
}

// A frame that asks, a sample, the same with another share, and three samples more, from which all cells follow. Behind them
// stands a frame that isn't read.
#[test]
fn a_square_at_once(rt: HostRuntime) {
    let alloc = rt.alloc();
    let grid = grid(&rt, alloc);
    let mut frames = Vec::new(alloc);
    frames
        .extend_from_slice(b"A\0\0\0\0")
        .expect(&rt, "there is memory");
    add(&rt, alloc, &mut frames, &grid, (0, 0, Axis::Row), 0);
    add(&rt, alloc, &mut frames, &grid, (0, 0, Axis::Row), 1);
    add(&rt, alloc, &mut frames, &grid, (0, 1, Axis::Row), 0);
    add(&rt, alloc, &mut frames, &grid, (1, 0, Axis::Row), 0);
    add(&rt, alloc, &mut frames, &grid, (2, 3, Axis::Row), 0);
    let wanted = frames.len();
    frames
        .extend_from_slice(b"Z\0\0\0\0")
        .expect(&rt, "there is memory");
    let told = talk(&rt, alloc, &grid, frames);
    assert!(rt;
        told.end == TalkEnd::Decided && told.status == Some(Status::Done),
        "the end"
    );
    assert!(rt; told.heard == wanted, "what is heard");
    assert!(rt; told.said.len() == 75 + 14 + 2055, "what is said");
    // The 16 cells are missing, frame 2 fails the fourth check, and then the square.
    assert!(rt;
        holds(&told.said, 0, b"K\0\0\0\x46\0\x02\0\0\0\x10"),
        "the missing cells"
    );
    assert!(rt;
        holds(&told.said, 75, b"E\0\0\0\x09\x04\0\0\0\0\0\0\0\x02"),
        "the lie"
    );
    assert!(rt; holds(&told.said, 89, b"S\0\0\x08\x02\0\x02"), "the square");
}

// Two samples of the bad row.
#[test]
fn a_bad_row_at_once(rt: HostRuntime) {
    let alloc = rt.alloc();
    let grid = bad_grid(&rt, alloc);
    let mut frames = Vec::new(alloc);
    add(&rt, alloc, &mut frames, &grid, (3, 0, Axis::Col), 0);
    add(&rt, alloc, &mut frames, &grid, (3, 1, Axis::Col), 0);
    let wanted = frames.len();
    add(&rt, alloc, &mut frames, &grid, (0, 0, Axis::Col), 0);
    let told = talk(&rt, alloc, &grid, frames);
    assert!(rt; told.end == TalkEnd::Decided, "the end");
    assert!(rt;
        told.status == Some(Status::Fraud(Axis::Row, 3)),
        "the status"
    );
    assert!(rt; told.heard == wanted, "what is heard");
    // Form 1, row 3, two cells, each with a path of two nodes.
    assert!(rt; told.said.len() == 5 + 6 + 2 * 698, "what is said");
    assert!(rt;
        holds(&told.said, 0, b"B\0\0\x05\x7a\x01\0\0\x03\0\x02"),
        "the claim"
    );
}

// A frame of a kind that isn't there, a state with a payload, and a sample that is none.
#[test]
fn lies_to_the_end(rt: HostRuntime) {
    let alloc = rt.alloc();
    let grid = grid(&rt, alloc);
    let mut frames = Vec::new(alloc);
    frames
        .extend_from_slice(b"Z\0\0\0\x01zA\0\0\0\x01aM\0\0\0\0")
        .expect(&rt, "there is memory");
    let wanted = frames.len();
    let told = talk(&rt, alloc, &grid, frames);
    assert!(rt; told.end == TalkEnd::Over, "the end");
    assert!(rt; told.status == Some(Status::Missing(16, 3)), "the status");
    assert!(rt; told.heard == wanted, "what is heard");
    assert!(rt; told.said.len() == 3 * 14 + 75, "what is said");
    assert!(rt;
        holds(&told.said, 0, b"E\0\0\0\x09\0\0\0\0\0\0\0\0\0"),
        "frame 0"
    );
    assert!(rt;
        holds(&told.said, 14, b"E\0\0\0\x09\0\0\0\0\0\0\0\0\x01"),
        "frame 1"
    );
    assert!(rt;
        holds(&told.said, 28, b"E\0\0\0\x09\0\0\0\0\0\0\0\0\x02"),
        "frame 2"
    );
    assert!(rt;
        holds(&told.said, 42, b"K\0\0\0\x46\0\x02\0\0\0\x10"),
        "the missing cells"
    );
}
