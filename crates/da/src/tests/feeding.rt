//! A session that is fed from a file.

use super::failures::{File, add, files, inputs};
use da_cli::{FILE_LIMIT, FeedFault, feed_all};
use da_io::{Inputs, MemInputs};
use da_wire::{Frame, read_only};
use data_header::Header;
use repair_queue::{Session, SessionState};
use std::alloc::Global;
use std::process::Abort;

/// The header's frame of the square of blobs of 1, 479 and 1 bytes, as it came out of two programs in other languages.
const HEADER: &str = "\
    48000002d2000200000000000000000000000000000000000000000000000000000001010000000000000000000000\
    0000000000000000000000000000000001022c26d2af32decfa4a5e51ce1f7b1e9476e8239306dbb35a7e1c76a1abe\
    bbf8910000000000000000000000000000000000000000000000000000000102000000000000000000000000000000\
    0000000000000000000000000104743186f1c6a35f48fcbb3472699f4452a828cf5aefb358c8095125b0066818e3ff\
    ffffffffffffffffffffffffffffffffffffffffffffffffffffffffffffffffffffffffffffffffffffffffffffff\
    fffffffffffffffffffffd403d5e3a27f5753bd699101b0088dce9728efb9804b5e25cad24c9e142b391ffffffffff\
    ffffffffffffffffffffffffffffffffffffffffffffffffffffffffffffffffffffffffffffffffffffffffffffff\
    ffffffffffff83f6be947febd032c30675d34aec3e14ef674f9d3e48e5ca48f67b0c334e0311000000000000000000\
    0000000000000000000000000000000000000101000000000000000000000000000000000000000000000000000000\
    01029cb81f2431bb0727ffa6671cb0d3655c5a38558f50e1b1eea5e98513a6b4b44b00000000000000000000000000\
    000000000000000000000000000001020000000000000000000000000000000000000000000000000000000104d976\
    def1e7ff350156041d35a579aa5e68c4e1f9539a22d332a64b79a3fc5ddfffffffffffffffffffffffffffffffffff\
    ffffffffffffffffffffffffffffffffffffffffffffffffffffffffffffffffffffffffffffffffff7206ca6d87c1\
    590b9576965059e591913bf8101df96978f21a8b5c778b81b537ffffffffffffffffffffffffffffffffffffffffff\
    ffffffffffffffffffffffffffffffffffffffffffffffffffffffffffffffffffffffffff5bb62dfa5135190db3cb\
    29274ba3eef47b9c652dfd0e343edb0dba6085dbebdb";

/// The value of a hexadecimal digit.
fn digit(byte: u8) -> u8 {
    if byte.is_ascii_digit() {
        byte.wrapping_sub(b'0')
    } else {
        byte.wrapping_sub(b'a').wrapping_add(10)
    }
}

/// Whether these are the bytes of a text of hexadecimal digits.
fn are(bytes: &[u8], text: &str) -> bool {
    let digits = text.as_bytes();
    for i in 0..bytes.len() {
        let Some(pair) = digits.get(i.wrapping_mul(2)..) else {
            return false;
        };
        let [high, low, ..] = pair else {
            return false;
        };
        if bytes[i] != digit(*high).wrapping_mul(16).wrapping_add(digit(*low)) {
            return false;
        }
    }
    digits.len() == bytes.len().wrapping_mul(2)
}

/// A file of these bytes, picked. The call with the number `fail` fails; the pick is call 0.
fn picked(rt: &impl Abort, alloc: Global, content: &[u8], fail: u64) -> MemInputs {
    let mut files = Vec::new(alloc);
    add(rt, alloc, &mut files, "m", content);
    let mut inputs = inputs(rt, alloc, &files, fail);
    let name = String::from_str(alloc, "m").expect(rt, "there is memory");
    inputs.pick(name).expect(rt, "the file is there");
    inputs
}

/// What is answered of these samples, and the state of the session then. The call with the number `fail` fails; the pick
/// is call 0.
fn answered(
    rt: &impl Abort,
    alloc: Global,
    header: &Header,
    messages: &[u8],
    limit: u64,
    fail: u64,
) -> (Result<u64, FeedFault>, SessionState) {
    let mut inputs = picked(rt, alloc, messages, fail);
    let mut session = Session::new(alloc, header).expect(rt, "there is memory");
    let answer = feed_all(header, &mut session, &mut inputs, limit.min(FILE_LIMIT));
    (answer, session.state())
}

/// The content of a file.
fn content<'a>(rt: &impl Abort, files: &'a [File], name: &str) -> &'a [u8] {
    for file in files {
        if file.name.as_str() == name {
            return &file.content;
        }
    }
    panic!(rt; "no file {name}")
}

#[test]
fn messages_that_are_fed(rt: HostRuntime) {
    let alloc = rt.alloc();
    let files = files(&rt, alloc);
    let frame = content(&rt, &files, "h");
    assert!(rt; are(frame, HEADER));
    let Ok(Frame::Header(header)) = read_only(alloc, frame, b"H") else {
        panic!(rt; "no header");
    };
    let four = content(&rt, &files, "four");
    let cut = b"Z\0\0\0\0M\0\0\x02";
    let open = SessionState::Open;
    let cases: [(&[u8], u64, u64, Result<u64, FeedFault>); 7] = [
        (four, 2812, 99, Ok(0)),
        (four, 2811, 99, Err(FeedFault::TooLong(2811))),
        (four, 10, 99, Err(FeedFault::TooLong(10))),
        (four, 10_000, 2, Err(FeedFault::ReadFailed)),
        (cut, 9, 99, Err(FeedFault::Bad(5))),
        (cut, 8, 99, Err(FeedFault::TooLong(8))),
        (&cut[..5], 9, 99, Ok(1)),
    ];
    for (messages, limit, fail, want) in cases {
        let got = answered(&rt, alloc, &header, messages, limit, fail);
        assert_eq!(rt; got, (want, open), "{limit} {fail}");
    }
}
