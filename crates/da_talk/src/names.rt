//! The frame of a namespace answer, written where its shares stand.

ghost use Rattle.std.specs.Prelude.{◌≡◌, ◌≤◌, ◌<◌, ◌+◌, ◌-◌, ◌*◌, ◌^◌, ◌++◌, [], length, take, drop, vec_len, vec_capacity, true, false};
ghost use Rattle.std.specs.Int.{w32, to_be_bytes};
ghost use Rattle.std.specs.List.{flat_map};
ghost use Rattle.namespace_id.specs.Answers.{HasCapacity};
ghost use Rattle.namespace_id.specs.Cells.{is_width};
ghost use Rattle.namespace_id.specs.Names.{is_parity};
ghost use Rattle.square_serve.specs.Serving.{row_entry, answer_for};
ghost use Rattle.frame_payloads.specs.kinds.Names.{entry_bytes, names_payload};
ghost use Rattle.da_wire.specs.Spelling.{frame, names_kind};
ghost use Rattle.da_talk.specs.Replies.{most_entry, most_names};
ghost use Rattle.da_talk.specs.Replies.{row_reply};

use crate::frames::HEAD_SIZE;
use frame_payloads::{put_absence, put_range};
use namespace_id::{
    Namespace, append, digest_law, digests_law, namespace_law, shares_law, write_at,
};
use square_serve::{Held, RowFound};

/// Appends the entry of a row for a namespace.
fn put_entry(text: &mut Vec<u8>, held: &mut Held, row: u16, name: &Namespace)
    requires width { is_width held.old.k ≡ true }
    requires row { row < held.old.k }
    requires other { is_parity name.now ≡ false }
    requires capacity { HasCapacity text.old (most_entry held.old.k) }
    ensures kept { held.new ≡ held.old }
    ensures appended { text.new.items ≡ text.old.items
        ++ entry_bytes (row_entry held.old.k held.old.grid name.now row) }
    ensures len { vec_len text.new ≤ vec_len text.old + most_entry held.old.k }
    ensures capacity { vec_capacity text.old ≤ vec_capacity text.new }
{
    match held.find(row, name) {
        RowFound::Range {
            start,
            count,
            nodes,
        } => {
            let shares = held.shares(row, start, count);
            let path = nodes.nodes();
            shares_law(shares);
            digests_law(path);
            put_range(text, row, start, shares, path);
        }
        RowFound::Absence { pos, leaf, nodes } => {
            let path = nodes.nodes();
            digest_law(&leaf);
            digests_law(path);
            put_absence(text, row, pos, &leaf, path);
        }
    }
}

/// Appends the entry of a row for a namespace, where the row may hold it.
fn put_row(text: &mut Vec<u8>, held: &mut Held, row: u16, name: &Namespace)
    requires width { is_width held.old.k ≡ true }
    requires row { row < held.old.k }
    requires other { is_parity name.now ≡ false }
    requires capacity { HasCapacity text.old (most_entry held.old.k) }
    ensures kept { held.new ≡ held.old }
    ensures appended { text.new.items ≡ text.old.items ++ row_reply held.old name.now row }
    ensures len { vec_len text.new ≤ vec_len text.old + most_entry held.old.k }
    ensures capacity { vec_capacity text.old ≤ vec_capacity text.new }
{
    if !held.wants(row, name) {
        return;
    }
    put_entry(text, held, row, name);
}

/// Appends the entries of the answer for a namespace, one after another.
fn put_entries(text: &mut Vec<u8>, held: &mut Held, name: &Namespace)
    requires width { is_width held.old.k ≡ true }
    requires other { is_parity name.now ≡ false }
    requires capacity { HasCapacity text.old (most_entry held.old.k * held.old.k) }
    ensures kept { held.new ≡ held.old }
    ensures appended { text.new.items ≡ text.old.items
        ++ flat_map entry_bytes (answer_for held.old name.now) }
    ensures len { vec_len text.new ≤ vec_len text.old + most_entry held.old.k * held.old.k }
    ensures capacity { vec_capacity text.old ≤ vec_capacity text.new }
{
    for row in 0..held.width() {
        put_row(text, held, row, name);
    }
}

/// How many entries the answer for a namespace has.
fn count_entries(held: &Held, name: &Namespace) -> u16
    ensures { result ≡ length (answer_for held.now name.now) }
{
    let mut count = 0;
    for row in 0..held.width() {
        if held.wants(row, name) {
            count += 1;
        }
    }
    count
}

/// Appends the payload of the answer for a namespace.
fn put_payload(text: &mut Vec<u8>, held: &mut Held, name: &Namespace)
    requires width { is_width held.old.k ≡ true }
    requires other { is_parity name.now ≡ false }
    requires capacity { HasCapacity text.old (most_names held.old.k) }
    ensures kept { held.new ≡ held.old }
    ensures appended { text.new.items ≡ text.old.items
        ++ names_payload name.now (answer_for held.old name.now) }
    ensures len { vec_len text.new ≤ vec_len text.old + most_names held.old.k }
    ensures capacity { vec_capacity text.old ≤ vec_capacity text.new }
{
    namespace_law(name);
    append(text, &name.0);
    append(text, &count_entries(held, name).to_be_bytes());
    put_entries(text, held, name);
}

/// States the length of the payload of the frame that a text is.
fn put_size(text: &mut Vec<u8>)
    requires head { 5 ≤ length text.old.items }
    requires few { length text.old.items < 2 ^ 32 }
    ensures stated { text.new.items ≡ take 1 text.old.items
        ++ to_be_bytes w32 (length text.old.items - 5) ++ drop 5 text.old.items }
    ensures capacity { vec_capacity text.new ≡ vec_capacity text.old }
{
    let size = (text.len() - HEAD_SIZE) as u32;
    write_at(text, 1, &size.to_be_bytes());
}

/// Writes the frame of the answer for a namespace into an empty text. It takes no memory.
pub(crate) fn put_names(text: &mut Vec<u8>, held: &mut Held, name: &Namespace)
    requires empty { text.old.items ≡ [] }
    requires width { is_width held.old.k ≡ true }
    requires other { is_parity name.now ≡ false }
    requires capacity { HasCapacity text.old (5 + most_names held.old.k) }
    ensures kept { held.new ≡ held.old }
    ensures written { text.new.items ≡
        frame names_kind (names_payload name.now (answer_for held.old name.now)) }
    ensures capacity { vec_capacity text.old ≤ vec_capacity text.new }
{
    append(text, b"N\0\0\0\0");
    put_payload(text, held, name);
    put_size(text);
}
