//! The line that goes with a status.

ghost use Rattle.std.specs.Prelude.{◌≡◌, ◌+◌, ◌≤◌, ◌++◌, length, decimal};
ghost use Rattle.da_status.specs.Notes.{ns_refusal_number, block_note, two_numbers, list_note, join_number, join_share, back_note, axis_note, note_of, Notes};

use crate::line::Line;
use crate::status::{Asked, Status};
use da_io::{Sink, write_all};
use namespace_id::{Axis, NsError};
use share_split::JoinError;
use square_layout::LayError;
use tx_list::{BackError, ListError};

/// Puts a number, in decimal digits, between two texts. The line needs capacity for both texts and
/// for 20 digits, as many as a `u64` may have.
#[tactic(auto, using(crate::proofs::DigitLemmas::digits_fit))]
pub fn around(line: &mut Line, front: &[u8], number: u64, back: &[u8])
    requires { length line.old + length front.now + 20 + length back.now ≤ 96 }
    ensures { line.new ≡ line.old ++ front.now ++ decimal number ++ back.now }
{
    line.put(front);
    line.put_number(number);
    line.put(back);
}

/// The number of a refusal of a namespace.
fn refusal_number(why: NsError) -> u64
    ensures { result ≡ ns_refusal_number why }
{
    match why {
        NsError::Length => 1,
        NsError::Version => 2,
        NsError::Prefix => 3,
        NsError::Reserved => 4,
    }
}

/// The line of a block that can't be laid out.
#[tactic(auto, using(crate::proofs::DigitLemmas::digits_fit))]
fn note_block(line: &mut Line, why: LayError)
    requires { length line.old ≤ 11 }
    ensures value { line.new ≡ line.old ++ block_note why }
    ensures few { length line.new ≤ 64 }
{
    match why {
        LayError::BadBlob(i, why) => {
            around(line, b"1 ", i, b" ");
            around(line, b"", refusal_number(why), b"");
        }
        LayError::EmptyBlob(i) => around(line, b"2 ", i, b""),
        LayError::TooLarge(needed) => around(line, b"3 ", needed, b""),
        LayError::WidthTooSmall(needed) => around(line, b"4 ", needed, b""),
        LayError::BadWidth => line.put(b"5"),
        LayError::NoMemory => line.put(b"6"),
    }
}

/// Puts two numbers behind a text, with a space between them. The line needs capacity for the text, for 20
/// digits of each, and for the space.
#[tactic(auto, using(crate::proofs::DigitLemmas::digits_fit))]
fn put_two(line: &mut Line, front: &[u8], i: u64, j: u64)
    requires { length line.old + length front.now + 41 ≤ 96 }
    ensures value { line.new ≡ line.old ++ front.now ++ two_numbers i j }
    ensures few { length line.new ≤ length line.old + length front.now + 41 }
{
    around(line, front, i, b" ");
    around(line, b"", j, b"");
}

/// The line of a list of transactions that can't be laid out.
#[tactic(auto, using(crate::proofs::DigitLemmas::digits_fit))]
fn note_list(line: &mut Line, why: ListError)
    requires { length line.old ≤ 11 }
    ensures value { line.new ≡ line.old ++ list_note why }
    ensures few { length line.new ≤ 75 }
{
    match why {
        ListError::Behind(i) => around(line, b"6 ", i, b""),
        ListError::NoBlobs(i) => around(line, b"7 ", i, b""),
        ListError::BadBlob(i, j, why) => {
            put_two(line, b"8 ", i, j);
            around(line, b" ", refusal_number(why), b"");
        }
        ListError::BadVersion(i, j) => put_two(line, b"9 ", i, j),
        ListError::NoBytes(i, j) => put_two(line, b"10 ", i, j),
        ListError::TooLarge(needed) => around(line, b"3 ", needed, b""),
        ListError::NoMemory => line.put(b"11"),
    }
}

/// The number of a refusal of shares.
pub fn join_number(why: JoinError) -> u64
    ensures { result ≡ join_number why }
{
    match why {
        JoinError::NoStart(_) => 1,
        JoinError::Short(_) => 2,
        JoinError::BadVersion(_) => 3,
        JoinError::NonZeroFill(_) => 4,
        JoinError::BadVarint(_) => 5,
        JoinError::BadReserved(_) => 6,
        JoinError::MixedNamespace(_) => 7,
        JoinError::NoMemory => 8,
    }
}

/// The share that a refusal of shares names.
pub fn join_share(why: JoinError) -> u64
    ensures { result ≡ join_share why }
{
    match why {
        JoinError::BadVersion(i) => i,
        JoinError::MixedNamespace(i) => i,
        JoinError::Short(i) => i,
        JoinError::NoStart(i) => i,
        JoinError::NonZeroFill(i) => i,
        JoinError::BadVarint(i) => i,
        JoinError::BadReserved(i) => i,
        JoinError::NoMemory => 0,
    }
}

/// The line of a square that no list of transactions is laid out as.
#[tactic(auto, using(crate::proofs::DigitLemmas::digits_fit))]
fn note_back(line: &mut Line, why: BackError)
    requires { length line.old ≤ 26 }
    ensures value { line.new ≡ line.old ++ back_note why }
    ensures few { length line.new ≤ 75 }
{
    match why {
        BackError::Units(why) => put_two(line, b"1 ", join_number(why), join_share(why)),
        BackError::Payments(why) => put_two(line, b"2 ", join_number(why), join_share(why)),
        BackError::Wrapper(i) => around(line, b"3 ", i, b""),
        BackError::Index(i, j) => put_two(line, b"4 ", i, j),
        BackError::Unlike(at) => around(line, b"5 ", at, b""),
        BackError::NoMemory => line.put(b"7"),
    }
}

/// The kind of an axis, in a word and a space: `row `, `col `.
pub fn axis_note(axis: Axis) -> &'static [u8]
    ensures { result.now ≡ axis_note axis }
{
    match axis {
        Axis::Row => b"row ",
        Axis::Col => b"col ",
    }
}

/// The line that goes with a status. It takes no memory.
#[tactic(auto, using(crate::proofs::DigitLemmas::digits_fit))]
fn note_of(status: Status) -> Line
    ensures { result ≡ note_of status }
{
    let mut line = Line::new();
    match status {
        Status::Done => {}
        Status::Usage => line.put(b"usage: da COMMAND WORDS\n"),
        Status::PickFault(i) => around(&mut line, b"cannot open file ", u64::from(i), b"\n"),
        Status::ReadFault(i) => around(&mut line, b"cannot read file ", u64::from(i), b"\n"),
        Status::WriteFault => line.put(b"cannot write\n"),
        Status::NoMemory => line.put(b"out of memory\n"),
        Status::BadInput(i, at) => {
            around(&mut line, b"bad input: file ", u64::from(i), b" at ");
            around(&mut line, b"", at, b"\n");
        }
        Status::TooLong(i) => around(&mut line, b"too long: file ", u64::from(i), b"\n"),
        Status::BadBlock(why) => {
            line.put(b"bad block: ");
            note_block(&mut line, why);
            line.put(b"\n");
        }
        Status::BadList(why) => {
            line.put(b"bad block: ");
            note_list(&mut line, why);
            line.put(b"\n");
        }
        Status::BadRequest(Asked::NoHeader) => line.put(b"bad request: no header\n"),
        Status::BadRequest(Asked::At(i)) => around(&mut line, b"bad request: ", i, b"\n"),
        Status::BadRequest(Asked::Count) => line.put(b"bad request: count\n"),
        Status::BadRequest(Asked::Nodes) => line.put(b"bad request: nodes\n"),
        Status::BadRequest(Asked::Range) => line.put(b"bad request: range\n"),
        Status::BadRequest(Asked::Shares(why)) => {
            around(&mut line, b"bad request: shares ", join_number(why), b" ");
            around(&mut line, b"", join_share(why), b"\n");
        }
        Status::BadRequest(Asked::NoList(why)) => {
            line.put(b"bad request: transactions ");
            note_back(&mut line, why);
            line.put(b"\n");
        }
        Status::BadRequest(Asked::LongList) => line.put(b"bad request: transactions 6\n"),
        Status::BadRequest(Asked::Form) => line.put(b"bad request: form\n"),
        Status::Fraud(axis, i) => {
            line.put(b"fraud: ");
            line.put(axis_note(axis));
            around(&mut line, b"", u64::from(i), b"\n");
        }
        Status::Missing(cells, lies) => {
            around(&mut line, b"missing: ", u64::from(cells), b" cells, ");
            around(&mut line, b"", lies, b" lies\n");
        }
        Status::Clash => line.put(b"clash\n"),
        Status::Refused => line.put(b"refused\n"),
        Status::Waiting(cells) => around(&mut line, b"waiting: ", cells, b"\n"),
    }
    line
}

/// Gives the line of a status to `notes`. A write that fails here changes no status: the notes have
/// counted it, and hold a proper prefix of the line.
pub fn note<N: Sink>(status: Status, notes: &mut N)
    ensures { Notes (note_of status) (N.taken notes.old) (N.taken notes.new) (N.faults notes.old)
        (N.faults notes.new) }
{
    let line = note_of(status);
    let _noted = write_all(notes, line.as_bytes());
}
