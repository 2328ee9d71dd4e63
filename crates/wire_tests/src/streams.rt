//! Streams of frames, by docs/FORMATS.md, "Streams of frames".

ghost use Rattle.std.specs.Prelude.{◌<◌};

use crate::runs::joined;
use da_wire::{FrameError, FrameStream, Pushed};

/// An answer without its sample: of a frame, whether it is a sample; an error where it is `Bad`.
fn told(answer: Pushed) -> Result<Option<bool>, u64> {
    match answer {
        Pushed::More => Ok(None),
        Pushed::Frame(message) => Ok(Some(message.is_some())),
        Pushed::Bad(at) => Err(at),
    }
}

#[test]
fn a_length_above_the_limit(rt: HostRuntime) {
    let bytes = b"Z\0\0\0\0M\x10\0\0\x01";
    let mut stream = FrameStream::new();
    let (first, answer) = stream.push(bytes);
    assert_eq!(rt; (first, told(answer)), (5, Ok(Some(false))));
    let (second, answer) = stream.push(&bytes[5..]);
    assert_eq!(rt; (second, told(answer)), (5, Err(5)));
    assert_eq!(rt; stream.end(), Some(FrameError::TooLong(5)));
    let (later, answer) = stream.push(b"Z\0\0\0\0Z");
    assert_eq!(rt; (later, told(answer)), (6, Err(5)), "after it");
    let (none, answer) = stream.push(b"");
    assert_eq!(rt; (none, told(answer)), (0, Err(5)), "no bytes after it");
}

#[test]
fn a_frame_cut_off(rt: HostRuntime) {
    let mut stream = FrameStream::new();
    let (none, answer) = stream.push(b"");
    assert_eq!(rt; (none, told(answer)), (0, Ok(None)), "no bytes");
    assert_eq!(rt; stream.end(), None, "no bytes");
    let (count, answer) = stream.push(b"M\0\0\x02");
    assert_eq!(rt; (count, told(answer)), (4, Ok(None)));
    assert_eq!(rt; stream.end(), Some(FrameError::Truncated(0)));
}

/// How many frames bytes in pieces of a size have, how many of them are samples, and why the bytes are no
/// list of frames.
fn counted(bytes: &[u8], size: usize) -> (u64, u64, Option<FrameError>)
    requires { 0 < size }
{
    let mut stream = FrameStream::new();
    let mut frames: u64 = 0;
    let mut messages: u64 = 0;
    let mut rest = bytes;
    while !rest.is_empty() {
        let (count, answer) = stream.push(&rest[..size.min(rest.len())]);
        rest = &rest[count..];
        match told(answer) {
            Ok(Some(true)) => {
                frames = frames.saturating_add(1);
                messages = messages.saturating_add(1);
            }
            Ok(Some(false)) => frames = frames.saturating_add(1),
            Ok(None) | Err(_) => {}
        }
    }
    (frames, messages, stream.end())
}

// Five samples of one node and a request, in pieces that cut heads and payloads.
#[test]
fn frames_in_any_cutting(rt: HostRuntime) {
    let alloc = rt.alloc();
    let message = joined(&rt, alloc, &[(b"M\0\0\x02\x60", 517, 0), (b"\x01", 90, 6)]);
    let mut bytes = Vec::new(alloc);
    for _ in 0..5 {
        bytes
            .extend_from_slice(&message)
            .expect(&rt, "there is memory");
    }
    bytes
        .extend_from_slice(b"Q\0\0\0\x05\0\x01\0\x02\x01")
        .expect(&rt, "there is memory");
    for size in [1, 7, 1_000] {
        assert_eq!(rt; counted(&bytes, size), (6, 5, None), "pieces of {size}");
    }
}

// The longest payload of a sample has 1,418 bytes.
#[test]
fn longest_messages(rt: HostRuntime) {
    let alloc = rt.alloc();
    let longest = joined(&rt, alloc, &[(b"M\0\0\x05\x8a", 517, 0), (b"\x0a", 900, 0)]);
    assert_eq!(rt; counted(&longest, 100), (1, 1, None), "1,418 bytes");
    let longer = joined(&rt, alloc, &[(b"M\0\0\x05\x8b", 517, 0), (b"\x0a", 901, 0)]);
    assert_eq!(rt; counted(&longer, 100), (1, 0, None), "1,419 bytes");
}

/// The kind and the payload of the frame that a stream tells.
fn last(stream: &FrameStream) -> Option<(u8, &[u8])> {
    match stream.last() {
        Some(frame) => Some((frame.kind, frame.payload)),
        None => None,
    }
}

/// The kind of the frame that a stream tells, and how many bytes its payload has.
fn last_size(stream: &FrameStream) -> Option<(u8, usize)> {
    match stream.last() {
        Some(frame) => Some((frame.kind, frame.payload.len())),
        None => None,
    }
}

#[test]
fn the_frame_that_ended(rt: HostRuntime) {
    let mut stream = FrameStream::new();
    assert_eq!(rt; last(&stream), None, "no bytes");
    stream.push(b"Z\0\0\0\x02a");
    assert_eq!(rt; last(&stream), None, "a frame under way");
    stream.push(b"bQ");
    let frame: (u8, &[u8]) = (b'Z', b"ab");
    assert_eq!(rt; last(&stream), Some(frame));
    stream.push(b"");
    assert_eq!(rt; last(&stream), Some(frame), "no bytes after it");
    stream.push(b"Q");
    assert_eq!(rt; last(&stream), None, "a byte after it");
}

// A frame of 1,418 bytes is told, and one of a byte more isn't.
#[test]
fn the_longest_frame_that_is_told(rt: HostRuntime) {
    let alloc = rt.alloc();
    let longest = joined(&rt, alloc, &[(b"Z\0\0\x05\x8a", 1_418, 7)]);
    let mut stream = FrameStream::new();
    stream.push(&longest);
    assert_eq!(rt; last_size(&stream), Some((b'Z', 1_418)));
    let longer = joined(&rt, alloc, &[(b"Z\0\0\x05\x8b", 1_419, 7)]);
    stream.push(&longer);
    assert_eq!(rt; last_size(&stream), None);
}
