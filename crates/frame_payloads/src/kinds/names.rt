//! The payload of a namespace answer: judged where it lies, then read; and written.

ghost use Rattle.std.specs.Prelude.{◌≡◌, ◌≤◌, length, map, vec_len, None, Some, IfOk, IfSome, MatchOption, ◌+◌, ◌++◌, vec_capacity, IsSome, ◌*◌, false, ◌↔◌, IsTrue};
ghost use Rattle.std.specs.List.{list_any};
ghost use Rattle.std.specs.Option.{option_map};
ghost use Rattle.namespace_id.specs.Answers.{Gives, HasCapacity};
ghost use Rattle.axis_roots.specs.declared.answers.Found.TheVariants.{Range, Absence};
ghost use Rattle.frame_fields.specs.Fields.{read_items, shares_of};
ghost use Rattle.namespace_id.specs.Sizes.{most_nodes};
ghost use Rattle.frame_payloads.specs.Payloads.{GivesUnlessFull, IsSize, Puts};
ghost use Rattle.frame_payloads.specs.kinds.Names.{most_shares_shown, is_long_found, is_long_entry, is_long_answer, entry_bytes, names_payload, share_list_at, range_at, absence_at, found_at, entry_at, entries_at, names_at, found_place, entry_place, answer_places, place_at, found_seen, HasShares, HasFewNodes, HasNodeBytes};

use crate::codec::appending::put_short;
use crate::codec::items::{Item, after_list16, list16};
use crate::codec::outs::{Counter, Full, Out};
use crate::codec::writing::{Text, put_list16};
use crate::shown::{EntryPlace, FoundPlace, PlaceList};
use axis_roots::{Found, NsAnswer, NsEntry, ShareList};
use frame_fields::{
    count16_at, digest_at, name_at, node_list_at, nodes_of, shares_at, shares_of, u8_at, u16_at,
};
use namespace_id::{Digest, GREATEST_WIDTH, Namespace, Share};
use std::alloc::{AllocError, Global};

/// The most entries of an answer, a row each.
const MOST_ENTRIES: u16 = GREATEST_WIDTH;

/// The most shares of a range, all of the original half of a row.
const MOST_SHARES_SHOWN: u16 = GREATEST_WIDTH;

/// The byte in front of a range.
const RANGE: u8 = 0;

/// The byte in front of an absence.
const ABSENCE: u8 = 1;

/// What is found in a row. The shares of a range and the nodes are still bytes, behind their counts.
#[derive(Clone, Copy)]
pub(crate) enum FoundFields<'a> {
    Range {
        start: u16,
        count: u16,
        shares: &'a [u8],
        node_count: u8,
        nodes: &'a [u8],
    },
    Absence {
        pos: u16,
        leaf: Digest,
        node_count: u8,
        nodes: &'a [u8],
    },
}

/// The count of shares, their bytes, and the bytes after them.
#[tactic(auto, unfolding(crate::specs::kinds::Names::share_list_at))]
fn share_list_at(bytes: &[u8]) -> Option<(u16, &[u8], &[u8])>
    ensures value { Gives (λ x. (shares_of x.0 x.1.now, x.2.now))
        result (share_list_at bytes.now) }
    ensures all { IfSome result (λ x. length x.1.now ≡ 512 * x.0) }
{
    let Some((count, rest)) = count16_at(bytes, MOST_SHARES_SHOWN) else {
        return None;
    };
    let Some((shares, rest)) = shares_at(count, rest) else {
        return None;
    };
    Some((count, shares, rest))
}

/// A range behind its tag, and the bytes after it.
#[tactic(auto, unfolding(crate::specs::kinds::Names::range_at))]
fn range_at(bytes: &[u8]) -> Option<(FoundFields<'_>, &[u8])>
    ensures value { Gives (λ x. (found_seen x.0, x.1.now)) result (range_at bytes.now) }
    ensures shares { IfSome result (λ x. HasShares x.0) }
    ensures few { IfSome result (λ x. HasFewNodes x.0) }
    ensures nodes { IfSome result (λ x. HasNodeBytes x.0) }
{
    let Some((start, rest)) = u16_at(bytes) else {
        return None;
    };
    let Some((count, shares, rest)) = share_list_at(rest) else {
        return None;
    };
    let Some((node_count, nodes, rest)) = node_list_at(rest) else {
        return None;
    };
    let found = FoundFields::Range {
        start,
        count,
        shares,
        node_count,
        nodes,
    };
    Some((found, rest))
}

/// An absence behind its tag, and the bytes after it.
#[tactic(auto, unfolding(crate::specs::kinds::Names::absence_at))]
fn absence_at(bytes: &[u8]) -> Option<(FoundFields<'_>, &[u8])>
    ensures value { Gives (λ x. (found_seen x.0, x.1.now)) result (absence_at bytes.now) }
    ensures shares { IfSome result (λ x. HasShares x.0) }
    ensures few { IfSome result (λ x. HasFewNodes x.0) }
    ensures nodes { IfSome result (λ x. HasNodeBytes x.0) }
{
    let Some((pos, rest)) = u16_at(bytes) else {
        return None;
    };
    let Some((leaf, rest)) = digest_at(rest) else {
        return None;
    };
    let Some((node_count, nodes, rest)) = node_list_at(rest) else {
        return None;
    };
    let found = FoundFields::Absence {
        pos,
        leaf,
        node_count,
        nodes,
    };
    Some((found, rest))
}

/// What is found in a row, and the bytes after it.
#[tactic(auto, unfolding(crate::specs::kinds::Names::found_at))]
fn found_at(bytes: &[u8]) -> Option<(FoundFields<'_>, &[u8])>
    ensures value { Gives (λ x. (found_seen x.0, x.1.now)) result (found_at bytes.now) }
    ensures shares { IfSome result (λ x. HasShares x.0) }
    ensures few { IfSome result (λ x. HasFewNodes x.0) }
    ensures nodes { IfSome result (λ x. HasNodeBytes x.0) }
{
    let (tag, rest) = u8_at(bytes)?;
    match tag {
        RANGE => range_at(rest),
        ABSENCE => absence_at(rest),
        _ => None,
    }
}

/// A row, what is found in it, and the bytes after it.
#[tactic(auto, unfolding(crate::specs::kinds::Names::entry_at))]
fn entry_at(bytes: &[u8]) -> Option<(u16, FoundFields<'_>, &[u8])>
    ensures value { Gives (λ x. (record { row = x.0; found = found_seen x.1 }, x.2.now))
        result (entry_at bytes.now) }
    ensures shares { IfSome result (λ x. HasShares x.1) }
    ensures few { IfSome result (λ x. HasFewNodes x.1) }
    ensures nodes { IfSome result (λ x. HasNodeBytes x.1) }
{
    let Some((row, rest)) = u16_at(bytes) else {
        return None;
    };
    let Some((found, rest)) = found_at(rest) else {
        return None;
    };
    Some((row, found, rest))
}

/// The namespace of an answer, and the bytes of its entries from their count on, of which all are
/// there. It takes no memory.
#[tactic(auto, unfolding(crate::specs::kinds::Names::names_at))]
fn names_parts(payload: &[u8]) -> Option<(Namespace, &[u8])>
    ensures parts { MatchOption result (names_at payload.now ≡ None)
        (λ x. names_at payload.now ≡ Some (x.0, read_items (entries_at x.1.now))) }
    ensures entries { IfSome result (λ x. IsSome (entries_at x.1.now)) }
{
    let (name, entries) = name_at(payload)?;
    let rest = after_list16::<NsEntry>(entries, MOST_ENTRIES)?;
    if !rest.is_empty() {
        return None;
    }
    Some((name, entries))
}

/// Whether the bytes are the payload of a namespace answer. It takes no memory.
pub fn is_names(payload: &[u8]) -> bool
    ensures { IsTrue result ↔ IsSome (names_at payload.now) }
{
    names_parts(payload).is_some()
}

/// What is found in a row, with memory for the shares of a range.
fn found_of(alloc: Global, found: FoundFields<'_>) -> Result<Found, AllocError>
    requires shares { HasShares found }
    requires few { HasFewNodes found }
    requires nodes { HasNodeBytes found }
    ensures { IfOk result (λ made. made ≡ found_seen found.entry) }
{
    match found {
        FoundFields::Range {
            start,
            count,
            shares,
            node_count,
            nodes,
        } => {
            let list = shares_of(alloc, count as usize, shares)?;
            Ok(Found::Range {
                start,
                shares: ShareList { list },
                nodes: nodes_of(node_count, nodes),
            })
        }
        FoundFields::Absence {
            pos,
            leaf,
            node_count,
            nodes,
        } => Ok(Found::Absence {
            pos,
            leaf,
            nodes: nodes_of(node_count, nodes),
        }),
    }
}

impl Item for NsEntry {
    ghost at = { entry_at };

    fn after(bytes: &[u8]) -> Option<&[u8]> {
        let (_row, _found, rest) = entry_at(bytes)?;
        Some(rest)
    }

    fn read(alloc: Global, bytes: &[u8]) -> Result<(NsEntry, &[u8]), AllocError> {
        let (row, fields, rest) = entry_at(bytes).unwrap();
        let found = found_of(alloc, fields)?;
        Ok((NsEntry { row, found }, rest))
    }
}

/// The namespace answer whose payload the bytes are, and the namespace. No memory is taken before they are
/// known to be one.
pub fn names(alloc: Global, payload: &[u8]) -> Result<Option<(Namespace, NsAnswer)>, AllocError>
    ensures { GivesUnlessFull result (names_at payload.now) }
{
    let Some((name, bytes)) = names_parts(payload) else {
        return Ok(None);
    };
    let entries = list16::<NsEntry>(alloc, bytes, MOST_ENTRIES)?;
    Ok(Some((name, NsAnswer { entries })))
}

/// The place of what is found in a row.
fn place_of(found: FoundFields<'_>) -> FoundPlace
    ensures { result ≡ found_place (found_seen found.entry) }
{
    match found {
        FoundFields::Range { start, count, .. } => FoundPlace::Range { start, count },
        FoundFields::Absence { pos, .. } => FoundPlace::Absence { pos },
    }
}

/// The place of an entry, and the bytes after it.
fn place_at(bytes: &[u8]) -> Option<(EntryPlace, &[u8])>
    ensures { Gives (λ x. (x.0, x.1.now)) result (place_at bytes.now) }
{
    let (row, found, rest) = entry_at(bytes)?;
    let found = place_of(found);
    Some((EntryPlace { row, found }, rest))
}

impl Item for EntryPlace {
    ghost at = { place_at };

    fn after(bytes: &[u8]) -> Option<&[u8]> {
        let (_place, rest) = place_at(bytes)?;
        Some(rest)
    }

    fn read(_alloc: Global, bytes: &[u8]) -> Result<(EntryPlace, &[u8]), AllocError> {
        Ok(place_at(bytes).unwrap())
    }
}

/// The places of a list of entries.
fn place_list(alloc: Global, bytes: &[u8]) -> Result<Vec<EntryPlace>, AllocError>
    requires { IsSome (entries_at bytes.now) }
    ensures { IfOk result (λ places.
        places.items ≡ map entry_place (read_items (entries_at bytes.now))) }
{
    list16::<EntryPlace>(alloc, bytes, MOST_ENTRIES)
}

/// What is shown of the namespace answer whose payload the bytes are: its namespace, and where its entries
/// found something. No memory is taken before they are known to be one.
pub fn places(alloc: Global, payload: &[u8]) -> Result<Option<(Namespace, PlaceList)>, AllocError>
    ensures { GivesUnlessFull result (option_map answer_places (names_at payload.now)) }
{
    let Some((name, bytes)) = names_parts(payload) else {
        return Ok(None);
    };
    let list = place_list(alloc, bytes)?;
    Ok(Some((name, PlaceList { list })))
}

/// Whether what is found has more shares than can be written.
fn is_long_found(found: &Found) -> bool
    ensures { result ≡ is_long_found found.now }
{
    match found {
        Found::Range { shares, .. } => shares.list.len() > MOST_SHARES_SHOWN as usize,
        Found::Absence { .. } => false,
    }
}

/// Whether an entry has more shares than can be written.
fn has_long_entry(entries: &[NsEntry]) -> bool
    ensures { result ≡ list_any is_long_entry entries.now }
{
    entries.iter().any(|entry| is_long_found(&entry.found))
}

/// Whether an answer has more entries than can be written, or more shares in one of them.
fn is_long_answer(answer: &NsAnswer) -> bool
    ensures { result ≡ is_long_answer answer.now }
{
    answer.entries.len() > MOST_ENTRIES as usize || has_long_entry(&answer.entries)
}

/// Puts an entry: a row, and the range that is found in it.
fn write_range<O: Out>(
    out: &mut O,
    row: u16,
    start: u16,
    shares: &[Share],
    nodes: &[Digest],
) -> Result<(), Full>
    requires nodes { length nodes.now ≤ most_nodes }
    ensures { Puts O.byte O.held O.taken O.limit out.old out.new
        (entry_bytes (record { row = row; found = Range start shares.now nodes.now })) result }
{
    out.put(&row.to_be_bytes())?;
    out.put(&[RANGE])?;
    out.put(&start.to_be_bytes())?;
    put_list16(out, shares)?;
    put_short(out, nodes)
}

/// Puts an entry: a row, and the absence that is found in it.
fn write_absence<O: Out>(
    out: &mut O,
    row: u16,
    pos: u16,
    leaf: &Digest,
    nodes: &[Digest],
) -> Result<(), Full>
    requires nodes { length nodes.now ≤ most_nodes }
    ensures { Puts O.byte O.held O.taken O.limit out.old out.new
        (entry_bytes (record { row = row; found = Absence pos leaf.now nodes.now })) result }
{
    out.put(&row.to_be_bytes())?;
    out.put(&[ABSENCE])?;
    out.put(&pos.to_be_bytes())?;
    out.put(&leaf.0)?;
    put_short(out, nodes)
}

impl Text for NsEntry {
    ghost text = { entry_bytes };

    fn put<O: Out>(&self, out: &mut O) -> Result<(), Full> {
        match &self.found {
            Found::Range {
                start,
                shares,
                nodes,
            } => write_range(out, self.row, *start, &shares.list, nodes.nodes()),
            Found::Absence { pos, leaf, nodes } => {
                write_absence(out, self.row, *pos, leaf, nodes.nodes())
            }
        }
    }
}

/// Puts the payload of a namespace answer.
fn write_names<O: Out>(out: &mut O, name: &Namespace, answer: &NsAnswer) -> Result<(), Full>
    ensures { Puts O.byte O.held O.taken O.limit out.old out.new (names_payload name.now answer.now)
        result }
{
    out.put(&name.0)?;
    put_list16(out, &answer.entries)
}

/// The length of the payload of a namespace answer, none where it has too many entries or too many
/// shares in one of them.
pub fn names_size(name: &Namespace, answer: &NsAnswer) -> Option<u32>
    ensures { IsSize (is_long_answer answer.now) (names_payload name.now answer.now) result }
{
    if is_long_answer(answer) {
        return None;
    }
    let mut count = Counter { size: 0 };
    match write_names(&mut count, name, answer) {
        Ok(()) => Some(count.size),
        Err(Full) => None,
    }
}

/// Appends an entry: a row, and the range that is found in it.
pub fn put_range(out: &mut Vec<u8>, row: u16, start: u16, shares: &[Share], nodes: &[Digest])
    requires few { length shares.now ≤ most_shares_shown }
    requires nodes { length nodes.now ≤ most_nodes }
    requires capacity { HasCapacity out.old
        (length (entry_bytes (record { row = row; found = Range start shares.now nodes.now }))) }
    ensures appended { out.new.items ≡ out.old.items
        ++ entry_bytes (record { row = row; found = Range start shares.now nodes.now }) }
    ensures len { vec_len out.new ≡ vec_len out.old
        + length (entry_bytes (record { row = row; found = Range start shares.now nodes.now })) }
    ensures capacity { vec_capacity out.old ≤ vec_capacity out.new }
{
    write_range(out, row, start, shares, nodes).unwrap();
}

/// Appends an entry: a row, and the absence that is found in it.
pub fn put_absence(out: &mut Vec<u8>, row: u16, pos: u16, leaf: &Digest, nodes: &[Digest])
    requires nodes { length nodes.now ≤ most_nodes }
    requires capacity { HasCapacity out.old
        (length (entry_bytes (record { row = row; found = Absence pos leaf.now nodes.now }))) }
    ensures appended { out.new.items ≡ out.old.items
        ++ entry_bytes (record { row = row; found = Absence pos leaf.now nodes.now }) }
    ensures len { vec_len out.new ≡ vec_len out.old
        + length (entry_bytes (record { row = row; found = Absence pos leaf.now nodes.now })) }
    ensures capacity { vec_capacity out.old ≤ vec_capacity out.new }
{
    write_absence(out, row, pos, leaf, nodes).unwrap();
}

/// Appends the payload of a namespace answer.
pub fn put_names(out: &mut Vec<u8>, name: &Namespace, answer: &NsAnswer)
    requires short { is_long_answer answer.now ≡ false }
    requires capacity { HasCapacity out.old (length (names_payload name.now answer.now)) }
    ensures appended { out.new.items ≡ out.old.items ++ names_payload name.now answer.now }
{
    write_names(out, name, answer).unwrap();
}
