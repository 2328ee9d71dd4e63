//! Sinks in memory and real ones, and writes that fail.

use da_io::{LineRoom, MemSink, OutSink, Sink, WriteFailed, write_all};
use std::fs;
use std::io::Cursor;

#[test]
fn pieces(rt: HostRuntime) {
    let alloc = rt.alloc();
    let cases = [
        ("whole", 10, 99, Ok(()), "0123456789"),
        ("little room", 7, 99, Err(WriteFailed), "0123456"),
        ("second piece fails", 10, 1, Err(WriteFailed), "012"),
    ];
    for (name, room, fail, want, taken) in cases {
        let fail = vec![in alloc; fail].expect(&rt, "there is memory");
        let mut out = MemSink::new(alloc, room, 3, fail).expect(&rt, "there is memory");
        assert_eq!(rt; write_all(&mut out, b"0123456789"), want, "{name}");
        assert_eq!(rt; out.bytes.as_slice(), taken.as_bytes(), "{name}");
    }
}

/// Gives a sink lines of 3,000, 2,000, 5,000 and 10 bytes by way of a room.
fn give_lines(out: &mut MemSink) -> Result<(), WriteFailed> {
    let line = [b'a'; 5000];
    let mut room = LineRoom::new();
    for len in [3000, 2000, 5000, 10] {
        room.add(&line[..len], out)?;
    }
    room.flush(out)
}

/// Lines are held until the next one doesn't fit beside them, and one that is longer than the room is given on whole.
/// Each row has the number of the write that fails, and how many bytes are taken.
#[test]
fn held_lines(rt: HostRuntime) {
    let alloc = rt.alloc();
    let cases = [(0, 0), (1, 3000), (2, 5000), (3, 10000), (4, 10010)];
    for (fail, taken) in cases {
        let calls = vec![in alloc; fail].expect(&rt, "there is memory");
        let mut out = MemSink::new(alloc, 20000, 20000, calls).expect(&rt, "there is memory");
        let wrote = give_lines(&mut out);
        assert_eq!(rt; wrote.is_err(), fail < 4, "write {fail}");
        assert_eq!(rt; out.bytes.len(), taken, "write {fail}");
    }
}

#[test]
fn real_sinks(rt: HostRuntime) {
    let file = fs::File::create(&rt, "da_io_written").expect(&rt, "the file is made");
    let mut out = OutSink::new(file);
    let wrote = write_all(&mut out, b"0123456789");
    let written = fs::read_to_string(&rt, "da_io_written").expect(&rt, "the file is read");
    fs::remove_file(&rt, "da_io_written").expect(&rt, "the file is removed");
    assert_eq!(rt; wrote, Ok(()));
    assert_eq!(rt; written.as_str(), "0123456789");
    let device = fs::File::create(&rt, "/dev/full").expect(&rt, "the device is there");
    let mut full = OutSink::new(device);
    assert_eq!(rt; write_all(&mut full, b"0"), Err(WriteFailed), "full");
}

/// A stream that takes a part of a piece, and then none.
#[test]
fn streams_with_little_room(rt: HostRuntime) {
    let mut room = [0; 7];
    let mut out = OutSink::new(Cursor::new(room.as_mut_slice()));
    let part = out.write(b"0123456789");
    let none = out.write(b"789");
    assert_eq!(rt; part, Ok(7), "a part");
    assert_eq!(rt; none, Err(WriteFailed), "no room");
    drop(out);
    assert_eq!(rt; room.as_slice(), b"0123456".as_slice());
}
