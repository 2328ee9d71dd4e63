//! Frames that are read and written again, by docs/FORMATS.md, "Payloads": one of each kind but X, as no collision of
//! SHA-256 is known. What values frames have, and which are refused, is shown by rows of the command `show`.

use crate::runs::{Run, joined};
use da_wire::{Frame, FrameError, read_frame, write_frame};
use std::alloc::Global;
use std::process::Abort;

/// Frames of a header, a square, a sample, two missing cells, a request for a sample and one for a namespace, a refusal and
/// a state.
const SHORT: [(&str, &[Run]); 8] = [
    ("H", &[(b"H\0\0\x01\x6a\0\x01", 360, 7)]),
    ("S", &[(b"S\0\0\x02\x02\0\x01", 512, 5)]),
    ("M", &[(b"M\0\0\x02\x60", 517, 0), (b"\x01", 90, 6)]),
    (
        "K",
        &[(b"K\0\0\0\x0e\0\x01\0\0\0\x02\0\0\0\0\0\x01\0\x01", 0, 0)],
    ),
    ("Q", &[(b"Q\0\0\0\x05\0\x01\0\x02\x01", 0, 0)]),
    ("P", &[(b"P\0\0\0\x1d", 29, 9)]),
    ("E", &[(b"E\0\0\0\x09\x05", 8, 7)]),
    ("A", &[(b"A\0\0\0\0", 0, 0)]),
];

/// Frames of an answer of a range and an absence, of a claim with a set of one node, of a block of a signed blob, and of
/// two transactions, one of no bytes.
const LONG: [(&str, &[Run]); 4] = [
    (
        "N",
        &[
            (b"N\0\0\x03\xef", 29, 9),
            (b"\0\x02\0\x02\0\0\x01\0\x01", 512, 5),
            (b"\x02", 180, 6),
            (b"\0\x03\x01\0\x03", 90, 8),
            (b"\x02", 180, 6),
        ],
    ),
    (
        "B",
        &[
            (b"B\0\0\x05\x1d\x02\x01\0\x03\0\x02\0\0\x01", 512, 5),
            (b"\0\x02\0", 512, 4),
            (b"\x02", 180, 6),
            (b"\0\x01", 90, 7),
        ],
    ),
    (
        "V",
        &[
            (b"V\0\0\0\x45", 13, 0),
            (b"\x01", 29, 9),
            (b"\x01", 20, 8),
            (b"\0\0\0\x01a", 0, 0),
        ],
    ),
    (
        "T",
        &[(b"T\0\0\0\x37\0\0\0\x02", 4, 0), (b"\0\0\0\x2b", 43, 7)],
    ),
];

/// The value of the frame at offset 7, and the offset behind it.
fn read(alloc: Global, bytes: &[u8]) -> Result<(Frame, u64), FrameError> {
    read_frame(alloc, bytes, 7)
}

/// Frames are read and written again.
fn are_written_again(rt: &impl Abort, alloc: Global, frames: &[(&str, &[Run])]) {
    for (name, runs) in frames {
        let bytes = joined(rt, alloc, runs);
        let (value, end) = read(alloc, &bytes).expect(rt, "the bytes are a value");
        assert!(rt; end.wrapping_sub(7) == bytes.len() as u64, "{name}");
        let mut again = Vec::new(alloc);
        write_frame(&value, &mut again).expect(rt, "the value has a spelling");
        assert!(rt; again.as_slice() == bytes.as_slice(), "{name}");
    }
}

#[test]
fn short_frames(rt: HostRuntime) {
    are_written_again(&rt, rt.alloc(), &SHORT);
}

#[test]
fn long_frames(rt: HostRuntime) {
    are_written_again(&rt, rt.alloc(), &LONG);
}

#[test]
fn bytes_that_are_no_frame(rt: HostRuntime) {
    let alloc = rt.alloc();
    let heads: [(&str, &[u8], FrameError); 4] = [
        ("no byte", b"", FrameError::Truncated(7)),
        ("kind Z", b"Z\0\0\0\0", FrameError::BadKind(7)),
        ("above the limit", b"M\x10\0\0\x01", FrameError::TooLong(7)),
        (
            "axis 2",
            b"Q\0\0\0\x05\0\x01\0\x02\x02",
            FrameError::BadPayload(7),
        ),
    ];
    for (name, bytes, want) in heads {
        assert_eq!(rt; read(alloc, bytes).err(), Some(want), "{name}");
    }
}
