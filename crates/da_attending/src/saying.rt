//! What an attender says, written into a text.

ghost use Rattle.std.specs.Prelude.{◌≡◌, ◌≤◌, ◌+◌, ◌*◌, ◌^◌, ◌++◌, None, Some, length, vec_len, vec_capacity, MatchOption, OnOk};
ghost use Rattle.std.specs.List.{flat_map};
ghost use Rattle.namespace_id.specs.Answers.{HasCapacity};
ghost use Rattle.da_following.specs.Follow.{place_text};
ghost use Rattle.da_attending.specs.Attended.{height_lines, most_missing_lines};
ghost use Rattle.da_attending.specs.Attenders.{unknown};

use da_following::place_text;
use namespace_id::{Namespace, NoMemory, append};
use std::collections::BTreeSet;

/// The most bytes of a line that says that there is nothing.
const MISSING_SIZE: usize = 105;

/// The most bytes of what is said of a height at its end: a text needs room for so many. None where that is no `usize`.
pub fn most_missing(names: &[Namespace]) -> Option<usize>
    ensures { MatchOption result (2 ^ 64 ≤ most_missing_lines names.now) (λ most. most ≡ most_missing_lines names.now) }
{
    MISSING_SIZE.checked_mul(names.len())
}

/// Appends the line of a namespace of which nothing is had at a height.
fn put_missing_line(text: &mut Vec<u8>, number: u64, name: &Namespace)
    requires capacity { HasCapacity text.old 105 }
    ensures appended { text.new.items ≡ text.old.items ++ height_lines number name.now None }
    ensures len { vec_len text.new ≤ vec_len text.old + 105 }
    ensures capacity { vec_capacity text.old ≤ vec_capacity text.new }
{
    append(text, place_text(number, name).as_bytes());
    append(text, b" missing\n");
}

/// Appends the lines of the namespaces of which nothing is had at a height, in their order, and answers how many these are.
pub(crate) fn put_missing(
    text: &mut Vec<u8>,
    number: u64,
    names: &[Namespace],
    known: &BTreeSet<Namespace>,
) -> u64
    requires capacity { HasCapacity text.old (most_missing_lines names.now) }
    ensures appended { text.new.items ≡ text.old.items ++
        flat_map (λ name. height_lines number name None) (unknown known.now.keys names.now) }
    ensures count { result ≡ length (unknown known.now.keys names.now) }
    ensures capacity { vec_capacity text.old ≤ vec_capacity text.new }
{
    let mut rest = names;
    let mut count = 0;
    while let Some((name, after)) = rest.split_first() {
        if !known.contains(name) {
            put_missing_line(text, number, name);
            count += 1;
        }
        rest = after;
    }
    count
}

/// Appends bytes to a text.
fn put(text: &mut Vec<u8>, part: &[u8]) -> Result<(), NoMemory>
    ensures appended { OnOk result (text.new.items ≡ text.old.items ++ part.now) }
    ensures capacity { vec_capacity text.old ≤ vec_capacity text.new }
{
    match text.extend_from_slice(part) {
        Ok(()) => Ok(()),
        Err(_) => Err(NoMemory),
    }
}

/// Appends the lines of a namespace of which something is had at a height, which go on so.
pub(crate) fn put_known(
    text: &mut Vec<u8>,
    number: u64,
    name: &Namespace,
    lines: &[u8],
) -> Result<(), NoMemory>
    ensures appended { OnOk result (text.new.items ≡ text.old.items ++ (place_text number name.now ++ lines.now)) }
    ensures capacity { vec_capacity text.old ≤ vec_capacity text.new }
{
    put(text, place_text(number, name).as_bytes())?;
    put(text, lines)
}
