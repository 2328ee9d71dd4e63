//! Files in memory and real ones: whole reads, and picks and reads that fail.

ghost use Rattle.std.specs.Prelude.{◌<◌};

use da_io::{FileInputs, InputFault, Inputs, MemInputs, PickFailed, read_all};
use std::alloc::Global;
use std::fs;
use std::process::Abort;

/// A name.
fn text(rt: &impl Abort, alloc: Global, text: &str) -> String {
    String::from_str(alloc, text).expect(rt, "there is memory")
}

/// One file, named "a". Each read gives at most `piece` bytes, and the call with the number `fail` fails.
fn file(rt: &impl Abort, alloc: Global, content: &[u8], piece: usize, fail: u64) -> MemInputs
    requires { 0 < piece }
{
    let content = Vec::from_slice(alloc, content).expect(rt, "there is memory");
    let names = vec![in alloc; text(rt, alloc, "a")].expect(rt, "there is memory");
    let contents = vec![in alloc; content].expect(rt, "there is memory");
    let fail = vec![in alloc; fail].expect(rt, "there is memory");
    MemInputs::new(names, contents, piece, fail)
}

/// How many bytes are left of the picked file, where they are 10 at most.
fn whole_len<I: Inputs>(alloc: Global, inputs: &mut I) -> Result<usize, InputFault> {
    match read_all(alloc, inputs, 10) {
        Ok(content) => Ok(content.len()),
        Err(fault) => Err(fault),
    }
}

// The pick is call 0.
#[test]
fn files_within_a_limit(rt: HostRuntime) {
    let alloc = rt.alloc();
    let cases = [
        ("at the limit", "0123456789", 3, 99, Ok(10)),
        (
            "above it",
            "0123456789x",
            3,
            99,
            Err(InputFault::TooLong(10)),
        ),
        ("in one piece", "0123456789", 100, 99, Ok(10)),
        ("empty", "", 3, 99, Ok(0)),
        (
            "failed read",
            "0123456789",
            3,
            2,
            Err(InputFault::ReadFailed),
        ),
    ];
    for (name, content, piece, fail, want) in cases {
        let mut inputs = file(&rt, alloc, content.as_bytes(), piece, fail);
        assert_eq!(rt; inputs.pick(text(&rt, alloc, "a")), Ok(()), "{name}");
        assert_eq!(rt; whole_len(alloc, &mut inputs), want, "{name}");
    }
}

#[test]
fn failed_picks(rt: HostRuntime) {
    let alloc = rt.alloc();
    let mut inputs = file(&rt, alloc, b"0123456789", 3, 1);
    let cases = [
        ("absent", "b", Err(PickFailed)),
        ("told to fail", "a", Err(PickFailed)),
        ("there", "a", Ok(())),
    ];
    for (name, file, want) in cases {
        assert_eq!(rt; inputs.pick(text(&rt, alloc, file)), want, "{name}");
    }
}

#[test]
fn real_files(rt: HostRuntime) {
    let alloc = rt.alloc();
    fs::write(&rt, "da_io_small", "0123456789").expect(&rt, "the file is written");
    let mut inputs = FileInputs::new(&rt);
    let there = inputs.pick(text(&rt, alloc, "da_io_small"));
    let absent = inputs.pick(text(&rt, alloc, "da_io_none"));
    let nothing = whole_len(alloc, &mut inputs);
    let again = inputs.pick(text(&rt, alloc, "da_io_small"));
    let content = read_all(alloc, &mut inputs, 10);
    fs::remove_file(&rt, "da_io_small").expect(&rt, "the file is removed");
    assert_eq!(rt; there, Ok(()), "there");
    assert_eq!(rt; absent, Err(PickFailed), "absent");
    assert_eq!(rt; nothing, Ok(0), "what is left after a failed pick");
    assert_eq!(rt; again, Ok(()), "there again");
    let content = content.expect(&rt, "the file is read");
    assert_eq!(rt; content.as_slice(), b"0123456789".as_slice());
}
