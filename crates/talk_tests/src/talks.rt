//! Talks over a held square, by docs/FORMATS.md, "Talks".

ghost use Rattle.std.specs.Prelude.{◌<◌};

use crate::squares::{held, sample};
use da_io::{Inputs, MemInputs, MemSink};
use da_talk::{Ended, Happened, Logged, Pipe, hold, most_reply};
use std::alloc::Global;
use std::process::Abort;

/// An event of a talk: whether bytes were said, and the bytes.
type Event<'a> = (bool, &'a [u8]);

/// A request for the sample of cell (0, 0) along its row.
const REQUEST: &[u8] = b"Q\0\0\0\x05\0\0\0\0\0";

/// A request for one of a cell outside the square.
const OUTSIDE: &[u8] = b"Q\0\0\0\x05\0\x02\0\0\0";

/// The first of these, and a frame that states a length above the limit.
const LONG: &[u8] = b"Q\0\0\0\x05\0\0\0\0\0Q\x10\0\0\x01";

/// A name.
fn text(rt: &impl Abort, alloc: Global, text: &str) -> String {
    String::from_str(alloc, text).expect(rt, "there is memory")
}

/// The parts, one after another.
fn joined(rt: &impl Abort, alloc: Global, parts: &[&[u8]]) -> Vec<u8> {
    let mut all = Vec::new(alloc);
    for part in parts {
        all.extend_from_slice(part).expect(rt, "there is memory");
    }
    all
}

/// A picked file of these bytes. Each read gives at most `piece` of them; the pick is call 0, and the call with the number `fail`
/// fails.
fn picked(rt: &impl Abort, alloc: Global, bytes: &[u8], piece: usize, fail: u64) -> MemInputs
    requires { 0 < piece }
{
    let content = Vec::from_slice(alloc, bytes).expect(rt, "there is memory");
    let names = vec![in alloc; text(rt, alloc, "talk")].expect(rt, "there is memory");
    let contents = vec![in alloc; content].expect(rt, "there is memory");
    let fail = vec![in alloc; fail].expect(rt, "there is memory");
    let mut inputs = MemInputs::new(names, contents, piece, fail);
    inputs
        .pick(text(rt, alloc, "talk"))
        .expect(rt, "the file is there");
    inputs
}

/// What happened, as an event of a talk.
fn event_of(happened: &Happened) -> Event<'_> {
    match happened {
        Happened::Heard(bytes) => (false, bytes),
        Happened::Said(bytes) => (true, bytes),
    }
}

/// Whether a log is these events.
fn is_log(log: &Option<Vec<Happened>>, want: &[Event<'_>]) -> bool {
    let Some(log) = log else {
        return false;
    };
    if log.len() != want.len() {
        return false;
    }
    for (happened, event) in log.iter().zip(want) {
        if event_of(happened) != *event {
            return false;
        }
    }
    true
}

/// Talks over the square of one share, and asserts how the talk ended and what happened, in its order.
fn talk(
    rt: &impl Abort,
    alloc: Global,
    inputs: &mut MemInputs,
    name: &str,
    want: &[Event<'_>],
    end: Ended,
) {
    let mut held = held(rt, alloc);
    let mut out = MemSink::new(alloc, 4000, 4000, Vec::new(alloc)).expect(rt, "there is memory");
    let mut text = Vec::with_capacity(alloc, most_reply(1)).expect(rt, "there is memory");
    let mut line = Logged::new(
        alloc,
        Pipe {
            inputs,
            out: &mut out,
        },
    );
    assert_eq!(rt; hold(&mut held, &mut text, &mut line), end, "{name}");
    assert!(rt; is_log(line.log(), want), "{name}");
}

// A cell outside the square, an unknown kind, a request without a payload, and one of `PARITY` are refused, each with its number,
// and the requests behind them are answered.
#[test]
fn replies_in_their_order(rt: HostRuntime) {
    let alloc = rt.alloc();
    let told = sample(&rt, alloc);
    let told = told.as_slice();
    let parity = joined(&rt, alloc, &[b"P\0\0\0\x1d", &[0xff; 29]]);

    let mut none = picked(&rt, alloc, b"", 9, 99);
    talk(
        &rt,
        alloc,
        &mut none,
        "nothing",
        &[(false, b"")],
        Ended::Done,
    );

    let all = joined(&rt, alloc, &[REQUEST, OUTSIDE, REQUEST]);
    let mut apart = picked(&rt, alloc, &all, 10, 99);
    let refused: Event<'_> = (true, b"E\0\0\0\x09\x05\0\0\0\0\0\0\0\x01");
    talk(
        &rt,
        alloc,
        &mut apart,
        "a frame a read",
        &[
            (false, REQUEST),
            (true, told),
            (false, OUTSIDE),
            refused,
            (false, REQUEST),
            (true, told),
            (false, b""),
        ],
        Ended::Done,
    );
    let mut whole = picked(&rt, alloc, &all, 99, 99);
    talk(
        &rt,
        alloc,
        &mut whole,
        "all in one read",
        &[
            (false, &all),
            (true, told),
            refused,
            (true, told),
            (false, b""),
        ],
        Ended::Done,
    );

    let all = joined(&rt, alloc, &[b"Z\0\0\0\0Q\0\0\0\0", &parity, REQUEST]);
    let mut others = picked(&rt, alloc, &all, 99, 99);
    talk(
        &rt,
        alloc,
        &mut others,
        "no requests",
        &[
            (false, &all),
            (true, b"E\0\0\0\x09\0\0\0\0\0\0\0\0\0"),
            (true, b"E\0\0\0\x09\0\0\0\0\0\0\0\0\x01"),
            (true, b"E\0\0\0\x09\x05\0\0\0\0\0\0\0\x02"),
            (true, told),
            (false, b""),
        ],
        Ended::Done,
    );
}

#[test]
fn a_request_cut_anywhere(rt: HostRuntime) {
    let alloc = rt.alloc();
    let told = sample(&rt, alloc);
    let told = told.as_slice();
    let mut bytes = picked(&rt, alloc, REQUEST, 1, 99);
    talk(
        &rt,
        alloc,
        &mut bytes,
        "bytes",
        &[
            (false, b"Q"),
            (false, b"\0"),
            (false, b"\0"),
            (false, b"\0"),
            (false, b"\x05"),
            (false, b"\0"),
            (false, b"\0"),
            (false, b"\0"),
            (false, b"\0"),
            (false, b"\0"),
            (true, told),
            (false, b""),
        ],
        Ended::Done,
    );
}

#[test]
fn talks_that_end_early(rt: HostRuntime) {
    let alloc = rt.alloc();
    let told = sample(&rt, alloc);
    let told = told.as_slice();

    let all = joined(&rt, alloc, &[REQUEST, b"Q\0\0"]);
    let mut cut = picked(&rt, alloc, &all, 99, 99);
    talk(
        &rt,
        alloc,
        &mut cut,
        "a frame cut off",
        &[(false, &all), (true, told), (false, b"")],
        Ended::Bad(10),
    );

    let all = joined(&rt, alloc, &[LONG, REQUEST]);
    let mut long = picked(&rt, alloc, &all, 15, 99);
    talk(
        &rt,
        alloc,
        &mut long,
        "a length above the limit",
        &[(false, LONG), (true, told)],
        Ended::Bad(10),
    );

    let all = joined(&rt, alloc, &[REQUEST, REQUEST]);
    let mut failing = picked(&rt, alloc, &all, 10, 2);
    talk(
        &rt,
        alloc,
        &mut failing,
        "the second read fails",
        &[(false, REQUEST), (true, told), (false, b"")],
        Ended::ReadFailed,
    );
}

/// Talks over the square of one share to a sink: how the talk ended, and whether the events are told.
fn end_of(
    rt: &impl Abort,
    alloc: Global,
    inputs: &mut MemInputs,
    out: &mut MemSink,
) -> (Ended, bool) {
    let mut held = held(rt, alloc);
    let mut text = Vec::with_capacity(alloc, most_reply(1)).expect(rt, "there is memory");
    let mut line = Logged::new(alloc, Pipe { inputs, out });
    let end = hold(&mut held, &mut text, &mut line);
    (end, line.log().is_some())
}

// Of a reply that can't be said whole the line took 87 bytes, and the log tells nothing more.
#[test]
fn a_reply_that_fails(rt: HostRuntime) {
    let alloc = rt.alloc();
    let told = sample(&rt, alloc);
    let all = joined(&rt, alloc, &[REQUEST, REQUEST]);
    let mut inputs = picked(&rt, alloc, &all, 99, 99);
    let mut out = MemSink::new(alloc, 700, 4000, Vec::new(alloc)).expect(&rt, "there is memory");
    let ended = end_of(&rt, alloc, &mut inputs, &mut out);
    assert_eq!(rt; ended, (Ended::WriteFailed, false));
    let both = joined(&rt, alloc, &[&told, &told]);
    assert_eq!(rt; Some(out.bytes.as_slice()), both.get(..700));
}
