//! What is found of a namespace in rows as a stream of messages RowNamespaceData.

ghost use Rattle.std.specs.Prelude.{◌≡◌, ◌↔◌, ℕ, ◌+◌, ◌*◌, ◌≤◌, ◌++◌, length, vec_len, vec_capacity, true, false, None, Some, Ok, Err, IfOk, IfErr, IfSome, IsErrOf};
ghost use Rattle.std.specs.List.{list_all};
ghost use Rattle.namespace_id.specs.Answers.{Gives, HasCapacity, refusal_in};
ghost use Rattle.namespace_id.specs.Sizes.{greatest_width};
ghost use Rattle.proto_fields.specs.Canonical.{shortest_at, part_at};
ghost use Rattle.celestia_pb.specs.Reading.{ReadsMessage};
ghost use Rattle.celestia_pb.specs.RowShares.{share_entry_size};
ghost use Rattle.celestia_pb.specs.RowParts.{entry_by};
ghost use Rattle.celestia_pb.specs.NamespaceData.{ns_entry_text, namespace_data_text, has_part, has_stream, entry_at, entries_left, namespace_data_value, NamespaceDataIsRead, ReadIsNamespaceData};

use crate::errors::PbError;
use crate::row_data::{RowParts, entry_of, put_row_data, row_at, row_data_size};
use axis_roots::{NsAnswer, NsEntry};
use namespace_id::{GREATEST_WIDTH, NoMemory, bytes_law};
use proto_fields::{number_at, put_varint, varint_size};
use std::alloc::Global;

/// The most entries, one for each row of the widest square.
const MOST_ENTRIES: usize = GREATEST_WIDTH as usize;

/// The number that a shortest varint states at the front, and the bytes after it.
fn shortest_at(bytes: &[u8]) -> Option<(u64, &[u8])>
    ensures value { Gives (λ x. (x.0, x.1.now)) result (shortest_at bytes.now) }
    ensures shorter { IfSome result (λ x. length x.1.now ≤ length bytes.now) }
{
    let (number, rest) = number_at(bytes)?;
    if varint_size(number) + rest.len() != bytes.len() {
        return None;
    }
    Some((number, rest))
}

/// The bytes behind their length at the front, and the bytes after them.
fn part_at(bytes: &[u8]) -> Option<(&[u8], &[u8])>
    ensures value { Gives (λ x. (x.0.now, x.1.now)) result (part_at bytes.now) }
    ensures shorter { IfSome result (λ x. length x.0.now + length x.1.now ≤ length bytes.now) }
{
    let (len, rest) = shortest_at(bytes)?;
    if len > rest.len() as u64 {
        return None;
    }
    Some(rest.split_at(len as usize))
}

/// What the message in front is made of, its bytes, and the bytes after it; where a field is wrong, how many bytes are left from it
/// on.
fn entry_parts(bytes: &[u8]) -> Result<(RowParts, &[u8], &[u8]), usize>
    ensures value { (row : ℕ) → ReadsMessage (λ x. (entry_by row x.0 x.1.now, x.2.now)) result (entry_at row bytes.now) }
    ensures size { IfOk result (λ x. share_entry_size * x.0.count ≤ length x.1.now) }
{
    let Some((part, rest)) = part_at(bytes) else {
        return Err(bytes.len());
    };
    match row_at(part) {
        Ok(parts) => Ok((parts, part, rest)),
        Err(left) => Err(left + rest.len()),
    }
}

/// Where the messages aren't one for each of these rows, and nothing else, how many bytes are left from the first field on that is
/// wrong.
fn look_along(rows: &[u16], bytes: &[u8]) -> Result<(), usize>
    ensures { refusal_in result ≡ refusal_in (entries_left rows.now bytes.now) }
{
    let mut rest = bytes;
    for _ in 0..rows.len() {
        let (_parts, _part, after) = entry_parts(rest)?;
        rest = after;
    }
    if !rest.is_empty() {
        return Err(rest.len());
    }
    Ok(())
}

/// The entry of a row whose message is in front, which is right, and the bytes after it. The one refusal is that it is out of
/// memory.
fn next_entry(alloc: Global, row: u16, bytes: &[u8]) -> Result<(NsEntry, &[u8]), NoMemory>
    requires { refusal_in (entry_at row bytes.now) ≡ None }
    ensures { IfOk result (λ x. entry_at row bytes.now ≡ Ok (x.0, x.1.now)) }
{
    let Ok((parts, part, rest)) = entry_parts(bytes) else {
        // Never taken: the message is right.
        unreachable!();
    };
    let entry = entry_of(alloc, row, parts, part)?;
    Ok((entry, rest))
}

/// The entries of these rows whose messages the bytes are, which are right. The one refusal is that it is out of memory.
fn entries_in(alloc: Global, rows: &[u16], bytes: &[u8]) -> Result<Vec<NsEntry>, NoMemory>
    requires { refusal_in (entries_left rows.now bytes.now) ≡ None }
    ensures { IfOk result (λ entries. entries_left rows.now bytes.now ≡ Ok entries.items) }
{
    let mut entries = Vec::with_capacity(alloc, rows.len())?;
    let mut rest = bytes;
    for i in 0..rows.len() {
        let (entry, after) = next_entry(alloc, rows[i], rest)?;
        let Ok(()) = entries.push(entry) else {
            return Err(NoMemory);
        };
        rest = after;
    }
    Ok(entries)
}

/// The entries of these rows that a stream of messages RowNamespaceData is: each message behind its length, the first that of the
/// first row, and nothing behind the last. The messages don't name their rows: these are the rows of a header that may hold the
/// namespace, ascending.
///
/// Refuses bytes that aren't the one spelling of entries of these rows, with the offset of the first field that is wrong: a length
/// that isn't a shortest varint or runs past the end, and one behind the messages of all rows, with the offset of the length; a
/// field of a message, as `read_row_data` does, with its offset in the stream. Then messages that aren't there, with the offset of
/// the end. Whether the entries open, and are complete, is for a check. It takes memory for the entries and their shares, once all
/// bytes are known to be right.
///
/// CIP-19, "RowNamespaceData"; protobuf, "Encoding"; docs/RULES.md, "Celestia's messages".
pub fn read_namespace_data(alloc: Global, rows: &[u16], bytes: &[u8]) -> Result<NsAnswer, PbError>
    ensures answer { IfOk result (λ answer. namespace_data_value rows.now bytes.now ≡ Ok answer) }
    ensures at { (at : ℕ) → IsErrOf result (PbError.At at) ↔ (namespace_data_value rows.now bytes.now ≡ Err at) }
{
    match look_along(rows, bytes) {
        Ok(()) => {
            let entries = entries_in(alloc, rows, bytes)?;
            Ok(NsAnswer { entries })
        }
        Err(left) => Err(PbError::at(bytes, left)),
    }
}

/// How many bytes the messages of these entries take, each behind its length. None where one has no message.
fn entries_size(entries: &[NsEntry]) -> Option<usize>
    requires few { length entries.now ≤ greatest_width }
    ensures none { (result ≡ None) ↔ (list_all has_part entries.now ≡ false) }
    ensures size { IfSome result (λ size. size ≡ length (namespace_data_text entries.now)) }
{
    let mut size = 0;
    for entry in entries {
        let message = row_data_size(entry)?;
        size += varint_size(message as u64) + message;
    }
    Some(size)
}

/// How many bytes `put_namespace_data` appends. None where the entries have no stream: one of them has no message, or there are
/// more than `GREATEST_WIDTH`.
///
/// CIP-19, "RowNamespaceData"; protobuf, "Encoding".
pub fn namespace_data_size(answer: &NsAnswer) -> Option<usize>
    ensures none { (result ≡ None) ↔ (has_stream answer.now ≡ false) }
    ensures size { IfSome result (λ size. size ≡ length (namespace_data_text answer.now)) }
{
    if answer.entries.len() > MOST_ENTRIES {
        return None;
    }
    entries_size(&answer.entries)
}

/// Appends the message of an entry that has one, behind its length, for which there is capacity.
fn put_entry(entry: &NsEntry, out: &mut Vec<u8>)
    requires has { has_part entry.now ≡ true }
    requires capacity { HasCapacity out.old (length (ns_entry_text entry.now)) }
    ensures appended { out.new.items ≡ out.old.items ++ ns_entry_text entry.now }
    ensures len { vec_len out.new ≡ vec_len out.old + length (ns_entry_text entry.now) }
    ensures capacity { vec_capacity out.old ≤ vec_capacity out.new }
{
    let size = row_data_size(entry).unwrap();
    put_varint(out, size as u64);
    put_row_data(entry, out);
}

/// Appends the messages of entries that have one, each behind its length, for which there is capacity.
fn put_entries(entries: &[NsEntry], out: &mut Vec<u8>)
    requires have { list_all has_part entries.now ≡ true }
    requires capacity { HasCapacity out.old (length (namespace_data_text entries.now)) }
    ensures appended { out.new.items ≡ out.old.items ++ namespace_data_text entries.now }
    ensures len { vec_len out.new ≡ vec_len out.old + length (namespace_data_text entries.now) }
    ensures capacity { vec_capacity out.old ≤ vec_capacity out.new }
{
    for entry in entries {
        put_entry(entry, out);
    }
}

/// Appends the stream of entries that have one, for which there is capacity (`namespace_data_size`). It doesn't name their rows.
///
/// CIP-19, "RowNamespaceData"; protobuf, "Encoding".
pub fn put_namespace_data(answer: &NsAnswer, out: &mut Vec<u8>)
    requires has { has_stream answer.now ≡ true }
    requires capacity { HasCapacity out.old (length (namespace_data_text answer.now)) }
    ensures appended { out.new.items ≡ out.old.items ++ namespace_data_text answer.now }
    ensures len { vec_len out.new ≡ vec_len out.old + length (namespace_data_text answer.now) }
    ensures capacity { vec_capacity out.old ≤ vec_capacity out.new }
{
    put_entries(&answer.entries, out);
}

/// The laws of the streams of entries. It changes nothing. `row_data_laws` says what a message of one is.
pub fn namespace_data_laws()
    ensures read { NamespaceDataIsRead }
    ensures spelled { ReadIsNamespaceData }
{}
