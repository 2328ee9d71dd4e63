//! One call that fails: the calls of each kind are numbered from 0, and one after another fails, until a run makes no call
//! of that number.

use da_cli::Status::{Done, Missing, PickFault, ReadFault, Refused, Waiting, WriteFault};
use da_cli::{Status, run};
use da_io::{MemInputs, MemSink};
use std::alloc::Global;
use std::process::Abort;

/// The number of a call that no run makes.
const NEVER: u64 = u64::MAX;

/// A light node that draws no cell.
const LIGHT: &str =
    "light h one 0000000000000000000000000000000000000000000000000000000000000000 0";

/// A data root that no header here has.
const OTHER_ROOT: &str = "root h 0000000000000000000000000000000000000000000000000000000000000000";

/// A file in memory.
#[derive(Drop)]
pub(super) struct File {
    pub(super) name: String,
    pub(super) content: Vec<u8>,
}

/// How a run ended, and what its output took.
#[derive(Drop)]
struct Ran {
    status: Status,
    out: MemSink,
}

/// Files that are read 1,000 bytes at a time, and of whose picks and reads one fails.
pub(super) fn inputs(rt: &impl Abort, alloc: Global, files: &[File], fail: u64) -> MemInputs {
    let mut names = Vec::new(alloc);
    let mut contents = Vec::new(alloc);
    for file in files {
        let name = file.name.clone().expect(rt, "there is memory");
        let content = file.content.clone().expect(rt, "there is memory");
        names.push(name).expect(rt, "there is memory");
        contents.push(content).expect(rt, "there is memory");
    }
    assert!(rt; names.len() == contents.len(), "a name for each file");
    let fail = vec![in alloc; fail].expect(rt, "there is memory");
    MemInputs::new(names, contents, 1000, fail)
}

/// A sink that takes up to so many bytes at a time, and of whose writes one fails.
fn sink(rt: &impl Abort, alloc: Global, piece: usize, fail: u64) -> MemSink {
    let fail = vec![in alloc; fail].expect(rt, "there is memory");
    MemSink::new(alloc, 1 << 16, piece.max(1), fail).expect(rt, "there is memory")
}

/// Runs words over files into sinks that take so many bytes at a time. The calls of these numbers fail: a pick or a read, a
/// write of the output, a write of the note.
fn run_failing(
    rt: &impl Abort,
    alloc: Global,
    words: &str,
    files: &[File],
    piece: usize,
    fail: (u64, u64, u64),
) -> Ran {
    let mut all = Vec::new(alloc);
    for word in words.split(' ') {
        let word = String::from_str(alloc, word).expect(rt, "there is memory");
        all.push(word).expect(rt, "there is memory");
    }
    let mut inputs = inputs(rt, alloc, files, fail.0);
    let mut out = sink(rt, alloc, piece, fail.1);
    let mut notes = sink(rt, alloc, piece, fail.2);
    let status = run(alloc, &all, &mut inputs, &mut out, &mut notes);
    Ran { status, out }
}

/// Adds a file.
pub(super) fn add(
    rt: &impl Abort,
    alloc: Global,
    files: &mut Vec<File>,
    name: &str,
    content: &[u8],
) {
    let name = String::from_str(alloc, name).expect(rt, "there is memory");
    let content = Vec::from_slice(alloc, content).expect(rt, "there is memory");
    files
        .push(File { name, content })
        .expect(rt, "there is memory");
}

/// Adds bytes behind others.
fn put(rt: &impl Abort, bytes: &mut Vec<u8>, more: &[u8]) {
    bytes.extend_from_slice(more).expect(rt, "there is memory");
}

/// The frame of a block of blobs of 1, 479 and 1 bytes, whose square has width 2.
fn block(rt: &impl Abort, alloc: Global) -> Vec<u8> {
    let mut bytes = Vec::new(alloc);
    put(rt, &mut bytes, &[b'V', 0, 0, 2, 0x55, 0, 0, 0, 0]);
    put(rt, &mut bytes, &[0, 0, 0, 0, 0, 0, 0, 0, 0, 3]);
    for (name, first, count) in [(1, 31usize, 1usize), (2, 62, 479), (4, 93, 1)] {
        put(rt, &mut bytes, &[0; 27]);
        let len = [(count / 256) as u8, (count % 256) as u8];
        put(rt, &mut bytes, &[1, name, 0, 0, 0, len[0], len[1]]);
        for i in 0..count {
            let sum = first.wrapping_add(i.wrapping_mul(7)).wrapping_add(i / 251);
            put(rt, &mut bytes, &[(sum % 255 + 1) as u8]);
        }
    }
    bytes
}

/// Requests for the samples of cells, each on its row.
fn requests(rt: &impl Abort, alloc: Global, cells: &[(u8, u8)]) -> Vec<u8> {
    let mut bytes = Vec::new(alloc);
    for &(row, col) in cells {
        put(rt, &mut bytes, &[b'Q', 0, 0, 0, 5, 0, row, 0, col, 0]);
    }
    bytes
}

/// A proved sample; then one with another share, one without its second node, one of row 4, one with another node; and a
/// frame of another kind.
fn refused(rt: &impl Abort, alloc: Global, one: &[u8; 703]) -> Vec<u8> {
    let mut bytes = Vec::new(alloc);
    put(rt, &mut bytes, one);
    let mut share = *one;
    share[521] ^= 1;
    put(rt, &mut bytes, &share);
    put(rt, &mut bytes, &[b'M', 0, 0, 2, 0x60]);
    put(rt, &mut bytes, &one[5..522]);
    put(rt, &mut bytes, &[1]);
    put(rt, &mut bytes, &one[523..613]);
    let mut row = *one;
    row[6] = 4;
    put(rt, &mut bytes, &row);
    put(rt, &mut bytes, &one[..523]);
    put(rt, &mut bytes, &[0; 90]);
    put(rt, &mut bytes, &one[613..]);
    put(rt, &mut bytes, &[b'Q', 0, 0, 0, 5, 0, 0, 0, 0, 0]);
    bytes
}

/// Adds requests for four cells, for three and for one.
fn add_requests(rt: &impl Abort, alloc: Global, files: &mut Vec<File>) {
    let cells = requests(rt, alloc, &[(0, 0), (0, 1), (1, 0), (2, 3)]);
    add(rt, alloc, files, "cells", &cells);
    let diagonal = requests(rt, alloc, &[(0, 0), (1, 1), (2, 2)]);
    add(rt, alloc, files, "diagonal", &diagonal);
    add(rt, alloc, files, "corner", &requests(rt, alloc, &[(0, 0)]));
}

/// Adds a namespace, a script that puts a sample and hands it to a full node, and a claim of no cells.
fn add_others(rt: &impl Abort, alloc: Global, files: &mut Vec<File>) {
    let mut name = [0; 34];
    name[0] = b'P';
    name[4] = 29;
    name[32] = 1;
    name[33] = 2;
    add(rt, alloc, files, "name", &name);
    let mut script = [0; 18];
    script[1] = 1;
    script[11] = 1;
    add(rt, alloc, files, "script", &script);
    let claim = [b'B', 0, 0, 0, 6, 1, 1, 0, 3, 0, 0];
    add(rt, alloc, files, "claim", &claim);
}

/// A block, requests, a namespace, a script, a claim, and what the program makes of the first two: the square "s", its header
/// "h", samples and missing cells.
pub(super) fn files(rt: &impl Abort, alloc: Global) -> Vec<File> {
    let mut files = Vec::new(alloc);
    add(rt, alloc, &mut files, "block", &block(rt, alloc));
    add_requests(rt, alloc, &mut files);
    add_others(rt, alloc, &mut files);
    let made = [
        ("s", "build block"),
        ("h", "header s"),
        ("four", "sample s cells"),
        ("three", "sample s diagonal"),
        ("missing", "repair h three"),
        ("one", "sample s corner"),
    ];
    for (name, words) in made {
        let ran = run_failing(rt, alloc, words, &files, 4096, (NEVER, NEVER, NEVER));
        add(rt, alloc, &mut files, name, &ran.out.bytes);
    }
    files
}

/// Words, and how many bytes a sink takes at a time; then a kind of calls, and the numbers of those of which each fails in a
/// run of its own, from the first up to the last and without it; then how these runs end, how many bytes the output takes in
/// the first of them, and how many more in each later one.
type Runs = (
    &'static str,
    usize,
    &'static str,
    u64,
    u64,
    Status,
    usize,
    usize,
);

/// The numbers of the calls that fail: a pick or a read, a write of the output, a write of the note.
fn failing(kind: &str, number: u64) -> (u64, u64, u64) {
    match kind {
        "input" => (number, NEVER, NEVER),
        "write" => (NEVER, number, NEVER),
        _ => (NEVER, NEVER, number),
    }
}

/// These runs end as told.
fn end_so(rt: &impl Abort, alloc: Global, files: &[File], runs: &Runs) {
    let &(words, piece, kind, from, end, want, taken, more) = runs;
    let whole = run_failing(rt, alloc, words, files, piece, (NEVER, NEVER, NEVER));
    let mut size = taken;
    for number in from..end {
        let ran = run_failing(rt, alloc, words, files, piece, failing(kind, number));
        assert_eq!(rt; ran.status, want, "{words}: {kind} {number}");
        assert_eq!(rt; ran.out.bytes.len(), size, "{words}: {kind} {number}");
        let front = whole.out.bytes.starts_with(&ran.out.bytes);
        assert!(rt; front, "{words}: {kind} {number}");
        size = size.wrapping_add(more);
    }
}

/// The files, and "six", a proved sample and five frames that are none.
fn files_and_six(rt: &impl Abort, alloc: Global) -> Vec<File> {
    let mut files = files(rt, alloc);
    let file = files.last().expect(rt, "there are files");
    let one = file.content.first_chunk::<703>();
    let six = refused(rt, alloc, one.expect(rt, "the last is a sample"));
    add(rt, alloc, &mut files, "six", &six);
    files
}

/// All of these runs end as told.
fn end_all(rt: &impl Abort, alloc: Global, rows: &[Runs]) {
    let files = files_and_six(rt, alloc);
    for runs in rows {
        end_so(rt, alloc, &files, runs);
    }
}

#[test]
fn failed_picks_and_reads_of_check(rt: HostRuntime) {
    let cases: [Runs; 5] = [
        ("check h six", 100, "input", 0, 1, PickFault(0), 0, 0),
        ("check h six", 100, "input", 1, 3, ReadFault(0), 0, 0),
        ("check h six", 100, "input", 3, 4, PickFault(1), 0, 0),
        ("check h six", 100, "input", 4, 9, ReadFault(1), 0, 0),
        ("check h six", 100, "input", 9, 10, Refused, 53, 0),
    ];
    end_all(&rt, rt.alloc(), &cases);
}

#[test]
fn failed_picks_and_reads_of_repair(rt: HostRuntime) {
    let cases: [Runs; 5] = [
        ("repair h four", 100, "input", 0, 1, PickFault(0), 0, 0),
        ("repair h four", 100, "input", 1, 3, ReadFault(0), 0, 0),
        ("repair h four", 100, "input", 3, 4, PickFault(1), 0, 0),
        ("repair h four", 100, "input", 4, 8, ReadFault(1), 0, 0),
        ("repair h four", 100, "input", 8, 9, Done, 2055, 0),
    ];
    end_all(&rt, rt.alloc(), &cases);
}

/// Failed writes of notes, and writes of `demo`, which aren't of one size.
#[test]
fn failed_notes_and_unequal_writes(rt: HostRuntime) {
    let cases: [Runs; 4] = [
        ("repair h three", 100, "note", 0, 2, Missing(13, 0), 63, 0),
        ("repair h three", 4, "note", 0, 8, Missing(13, 0), 63, 0),
        ("demo 7 2", 4096, "write", 0, 2, WriteFault, 0, 8),
        ("demo 7 2", 4096, "write", 2, 3, WriteFault, 17, 0),
    ];
    end_all(&rt, rt.alloc(), &cases);
}

/// Words, how many bytes the sink takes at a time, how many writes there are and how many bytes each has but the last; then
/// how the run ends, and the bytes of its output.
type Writes = (&'static str, usize, u64, usize, Status, usize);

/// Each write fails in a run of its own.
fn each_write_fails(rt: &impl Abort, alloc: Global, rows: &[Writes]) {
    let files = files_and_six(rt, alloc);
    for &(words, piece, count, more, ended, taken) in rows {
        let fails = (words, piece, "write", 0, count, WriteFault, 0, more);
        end_so(rt, alloc, &files, &fails);
        let behind = count.saturating_add(1);
        let ends = (words, piece, "write", count, behind, ended, taken, 0);
        end_so(rt, alloc, &files, &ends);
    }
}

#[test]
fn failed_writes_of_squares_and_samples(rt: HostRuntime) {
    let rows: [Writes; 8] = [
        ("check h six", 100, 1, 0, Refused, 53),
        ("check h six", 10, 6, 10, Refused, 53),
        ("repair h four", 100, 21, 100, Done, 2055),
        ("build block", 4096, 1, 0, Done, 2055),
        ("header s", 4096, 1, 0, Done, 727),
        ("sample s cells", 4096, 4, 703, Done, 2812),
        ("namespace s name", 4096, 1, 0, Done, 1436),
        ("wanted missing row", 4096, 1, 0, Done, 130),
    ];
    each_write_fails(&rt, rt.alloc(), &rows);
}

#[test]
fn failed_writes_of_views(rt: HostRuntime) {
    let rows: [Writes; 9] = [
        ("show cells", 4096, 1, 0, Done, 112),
        ("show cells", 28, 4, 28, Done, 112),
        ("json cells", 4096, 1, 0, Done, 188),
        ("json cells", 47, 4, 47, Done, 188),
        ("root h", 4096, 1, 0, Done, 65),
        ("export dah h", 4096, 1, 0, Done, 736),
        (OTHER_ROOT, 4096, 1, 0, Refused, 10),
        ("help", 4096, 1, 0, Done, 1316),
        ("version", 4096, 1, 0, Done, 9),
    ];
    each_write_fails(&rt, rt.alloc(), &rows);
}

#[test]
fn failed_writes_of_proofs_and_nodes(rt: HostRuntime) {
    let rows: [Writes; 10] = [
        ("verify h one", 4096, 1, 0, Done, 3),
        (LIGHT, 4096, 1, 0, Done, 10),
        ("net h one script", 4096, 1, 0, Done, 44),
        ("compact h claim", 4096, 1, 0, Refused, 10),
        ("verify h one corner", 4096, 1, 0, Done, 3),
        ("blobs s", 4096, 1, 0, Done, 602),
        ("commit block", 4096, 1, 0, Done, 195),
        ("prove s cells", 4096, 4, 892, Done, 3568),
        ("prove s 1 2", 4096, 1, 0, Done, 969),
        ("follow name h", 4096, 1, 0, Waiting(1), 86),
    ];
    each_write_fails(&rt, rt.alloc(), &rows);
}
