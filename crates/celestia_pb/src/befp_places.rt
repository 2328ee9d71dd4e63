//! The places of messages BadEncoding, one after another.

ghost use Rattle.std.specs.Prelude.{◌≡◌, ◌+◌, ◌≤◌, ◌++◌, [], ◌∷◌, length, true, Ok, IfOk};
ghost use Rattle.namespace_id.specs.Sizes.{greatest_width};
ghost use Rattle.celestia_pb.specs.Reading.{ReadsMessage};
ghost use Rattle.celestia_pb.specs.BefpEntries.{none_seen, places_at, cells_of, cells_read, seen_read, has_read};
ghost use Rattle.celestia_pb.specs.Befp.{count_at};

use crate::befp_entries::{Accused, PLACE, Seen, next_place};
use crate::messages::part_at;
use crate::sample::Sample;
use axis_roots::{Message, cell_on};
use namespace_id::{GREATEST_WIDTH, NoMemory};
use proto_fields::begins_part;
use std::alloc::Global;

/// The most places of an axis.
const MOST_PLACES: u16 = 2 * GREATEST_WIDTH;

/// Before the first place.
const NONE_SEEN: Seen = Seen {
    place: 0,
    shares: 0,
    mark: None,
};

/// How many fields of places are at the front, at most `MOST_PLACES`, and the bytes after them; where the length of one is
/// wrong, how many bytes are left from it on.
pub(crate) fn count_places(bytes: &[u8]) -> Result<(u16, &[u8]), usize>
    ensures value { ReadsMessage (λ x. (x.0, x.1.now)) result (count_at 0 1024 bytes.now) }
    ensures few { IfOk result (λ x. x.0 ≤ 1024) }
{
    let mut count = 0;
    let mut rest = bytes;
    while count < MOST_PLACES {
        if !begins_part(PLACE, rest) {
            return Ok((count, rest));
        }
        let Some((_part, after)) = part_at(PLACE, rest) else {
            return Err(rest.len());
        };
        count += 1;
        rest = after;
    }
    Ok((count, rest))
}

/// What is seen of the places at the front, at most `MOST_PLACES`, with at most so many shares, and the bytes after them; where
/// a field is wrong, how many bytes are left from it on.
pub(crate) fn look_along(
    accused: Option<Accused>,
    most: u16,
    bytes: &[u8],
) -> Result<(Seen, &[u8]), usize>
    ensures value { ReadsMessage (λ x. (x.0, x.1.now)) result (seen_read (places_at accused most 1024 none_seen bytes.now)) }
    ensures few { IfOk result (λ x. x.0.place ≤ 1024) }
{
    let mut seen = NONE_SEEN;
    let mut rest = bytes;
    while seen.place < MOST_PLACES {
        if !begins_part(PLACE, rest) {
            return Ok((seen, rest));
        }
        let (_sample, next, after) = next_place(accused, most, seen, rest)?;
        seen = next;
        rest = after;
    }
    Ok((seen, rest))
}

/// Adds the sample of a place of the accused axis, if it has one. The one refusal is that it is out of memory.
fn add_cell(
    accused: Accused,
    place: u16,
    sample: Option<Sample>,
    cells: &mut Vec<Message>,
) -> Result<(), NoMemory>
    ensures { IfOk result (λ _. cells.new.items ≡ cells.old.items ++ cells_of accused place (sample ∷ [])) }
{
    let Some(sample) = sample else {
        return Ok(());
    };
    let cell = cell_on(accused.axis, accused.index, place);
    let message = Message {
        cell,
        axis: sample.axis,
        share: sample.share,
        path: sample.path,
    };
    let Ok(()) = cells.push(message) else {
        return Err(NoMemory);
    };
    Ok(())
}

/// The samples of the places at the front, which are right, with at most so many shares. The one refusal is that it is out of
/// memory.
pub(crate) fn cells_in(
    alloc: Global,
    accused: Accused,
    known: Option<Accused>,
    most: u16,
    bytes: &[u8],
) -> Result<Vec<Message>, NoMemory>
    requires { has_read (places_at known most 1024 none_seen bytes.now) ≡ true }
    ensures { IfOk result (λ cells. cells.items ≡ cells_read accused 0 (places_at known most 1024 none_seen bytes.now)) }
{
    let mut cells = Vec::with_capacity(alloc, most as usize)?;
    let mut seen = NONE_SEEN;
    let mut rest = bytes;
    while seen.place < MOST_PLACES {
        if !begins_part(PLACE, rest) {
            return Ok(cells);
        }
        let Ok((sample, next, after)) = next_place(known, most, seen, rest) else {
            return Err(NoMemory);
        };
        add_cell(accused, seen.place, sample, &mut cells)?;
        seen = next;
        rest = after;
    }
    Ok(cells)
}
