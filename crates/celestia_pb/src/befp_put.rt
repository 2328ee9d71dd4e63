//! Fraud claims written as messages BadEncoding.

ghost use Rattle.std.specs.Prelude.{◌≡◌, ◌↔◌, ℕ, List, ◌+◌, ◌*◌, ◌≤◌, ◌<◌, ◌++◌, length, true, nat_lt, vec_len, vec_capacity, IsSome, IfSome};
ghost use Rattle.std.specs.List.{list_all};
ghost use Rattle.namespace_id.specs.Answers.{Gives, HasCapacity};
ghost use Rattle.namespace_id.specs.Cells.{is_width};
ghost use Rattle.proto_fields.specs.Spelled.{bytes_field};
ghost use Rattle.axis_roots.specs.Messages.{position};
ghost use Rattle.axis_roots.specs.Claims.{is_on, has_shape};
ghost use Rattle.celestia_pb.specs.BefpEntries.{befp_entry, befp_place, places_text, shown_at, behind_place, places_of};
ghost use Rattle.celestia_pb.specs.Befp.{claim_has_message, befp_text};

use crate::befp_entries::{AXIS, DATA, PLACE, PROOF};
use crate::entries::{number_size, part_size, put_entry, put_front};
use crate::inclusions::inclusion_size;
use crate::sample::{axis_number, put_path};
use axis_roots::{FraudClaim, Message, are_ascending, index, message_law, position};
use namespace_id::{Axis, SHARE_SIZE, is_width};
use proto_fields::put_canonical_number;

/// The bytes of a hash.
const HASH_SIZE: usize = 32;

/// The fields of the hash of a header and of its height, and of the index and of the kind of the accused axis.
const HASH: u8 = 1;

const HEIGHT: u8 = 2;

const INDEX: u8 = 4;

const KIND: u8 = 5;

/// Whether each cell is on the accused axis.
fn are_on(claim: &FraudClaim) -> bool
    ensures { result ≡ list_all (is_on claim.now) claim.now.cells }
{
    claim
        .cells
        .iter()
        .all(|message| index(claim.axis, message.cell) == claim.index)
}

/// Whether the position of each cell on the accused axis is below this one.
fn are_below(claim: &FraudClaim, count: u16) -> bool
    ensures { result ≡ list_all (λ m. nat_lt (position claim.now.axis m.cell) count) claim.now.cells }
{
    claim
        .cells
        .iter()
        .all(|message| position(claim.axis, message.cell) < count)
}

/// Whether a claim accuses an axis of a square of width `k` by exactly k cells of it, at ascending positions.
fn has_shape(k: u16, claim: &FraudClaim) -> bool
    requires { is_width k ≡ true }
    ensures { result ≡ has_shape k claim.now }
{
    claim.index < 2 * k
        && claim.cells.len() == k as usize
        && are_on(claim)
        && are_ascending(claim.axis, &claim.cells)
}

/// Whether a claim has a message.
fn has_message(k: u16, claim: &FraudClaim) -> bool
    ensures { result ≡ claim_has_message k claim.now }
{
    is_width(k) && claim.set.is_none() && has_shape(k, claim) && are_below(claim, 2 * k)
}

/// How many bytes the message of a share with its proof takes.
fn entry_size(message: &Message) -> usize
    ensures value { result ≡ length (befp_entry 1 message.now) }
    ensures few { result ≤ 2000 }
{
    message_law(message);
    let place = u64::from(position(message.axis, message.cell));
    let proof = part_size(PROOF, inclusion_size(place, message.path.nodes()));
    let share = part_size(DATA, SHARE_SIZE);
    share + (proof + number_size(AXIS, axis_number(message.axis)))
}

/// Appends the message of a share with its proof, for which there is capacity.
fn put_message(message: &Message, out: &mut Vec<u8>)
    requires capacity { HasCapacity out.old (length (befp_entry 1 message.now)) }
    ensures appended { out.new.items ≡ out.old.items ++ befp_entry 1 message.now }
    ensures len { vec_len out.new ≡ vec_len out.old + length (befp_entry 1 message.now) }
    ensures capacity { vec_capacity out.old ≤ vec_capacity out.new }
{
    put_entry(DATA, &message.share.0, out);
    put_path(position(message.axis, message.cell), &message.path, out);
    put_canonical_number(AXIS, axis_number(message.axis), out);
}

/// The sample at a place: the first of these, if its cell is there.
fn shown_at(axis: Axis, place: u16, cells: &[Message]) -> Option<&Message>
    ensures { Gives (λ m. m.now) result (shown_at axis place cells.now) }
{
    let [message, ..] = cells else {
        return None;
    };
    if position(axis, message.cell) != place {
        return None;
    }
    Some(message)
}

/// Those behind the place.
fn behind_place(axis: Axis, place: u16, cells: &[Message]) -> &[Message]
    ensures { result.now ≡ behind_place axis place cells.now }
{
    let [message, others @ ..] = cells else {
        return cells;
    };
    if position(axis, message.cell) != place {
        return cells;
    }
    others
}

/// How many bytes the field of a place takes.
fn place_size(axis: Axis, place: u16, cells: &[Message]) -> usize
    ensures value { result ≡ length (bytes_field 3 (befp_place 1 (shown_at axis place cells.now))) }
    ensures few { result ≤ 3000 }
{
    match shown_at(axis, place, cells) {
        None => part_size(PLACE, 0),
        Some(message) => part_size(PLACE, entry_size(message)),
    }
}

/// Appends the field of a place, for which there is capacity.
fn put_place(axis: Axis, place: u16, cells: &[Message], out: &mut Vec<u8>)
    requires capacity { HasCapacity out.old (length (bytes_field 3 (befp_place 1 (shown_at axis place cells.now)))) }
    ensures appended { out.new.items ≡ out.old.items ++ bytes_field 3 (befp_place 1 (shown_at axis place cells.now)) }
    ensures len { vec_len out.new ≡ vec_len out.old + length (bytes_field 3 (befp_place 1 (shown_at axis place cells.now))) }
    ensures capacity { vec_capacity out.old ≤ vec_capacity out.new }
{
    match shown_at(axis, place, cells) {
        None => put_entry(PLACE, &[], out),
        Some(message) => {
            put_front(PLACE, entry_size(message), out);
            put_message(message, out);
        }
    }
}

/// How many bytes the fields of all places take.
fn places_size(k: u16, axis: Axis, cells: &[Message]) -> usize
    requires width { is_width k ≡ true }
    ensures value { result ≡ length (places_text 1 (places_of axis (2 * k) 0 cells.now)) }
    ensures few { result ≤ 3000 * 1024 }
{
    let mut total = 0;
    let mut rest = cells;
    for place in 0..2 * k {
        total += place_size(axis, place, rest);
        rest = behind_place(axis, place, rest);
    }
    total
}

/// Appends the fields of all places, for which there is capacity.
fn put_places(k: u16, axis: Axis, cells: &[Message], out: &mut Vec<u8>)
    requires width { is_width k ≡ true }
    requires capacity { HasCapacity out.old (length (places_text 1 (places_of axis (2 * k) 0 cells.now))) }
    ensures appended { out.new.items ≡ out.old.items ++ places_text 1 (places_of axis (2 * k) 0 cells.now) }
    ensures len { vec_len out.new ≡ vec_len out.old + length (places_text 1 (places_of axis (2 * k) 0 cells.now)) }
    ensures capacity { vec_capacity out.old ≤ vec_capacity out.new }
{
    let mut rest = cells;
    for place in 0..2 * k {
        put_place(axis, place, rest, out);
        rest = behind_place(axis, place, rest);
    }
}

/// How many bytes `put_befp` appends, with a hash of 32 bytes.
///
/// None where the claim has no message: `k` is no width; the claim has a set; or it doesn't accuse an axis of a square of width
/// `k` by exactly k cells of it at ascending places of the square.
///
/// Celestia specifications, "Fraud Proofs", bad encoding; protobuf, "Encoding".
pub fn befp_size(k: u16, height: u64, claim: &FraudClaim) -> Option<usize>
    ensures which { IsSome result ↔ (claim_has_message k claim.now ≡ true) }
    ensures size { (hash : List ℕ) → length hash ≡ 32 → IfSome result (λ size. size ≡ length (befp_text 1 k hash height claim.now)) }
{
    if !has_message(k, claim) {
        return None;
    }
    let hash = part_size(HASH, HASH_SIZE);
    let places = places_size(k, claim.axis, &claim.cells);
    let axis = number_size(INDEX, u64::from(claim.index))
        + number_size(KIND, axis_number(claim.axis));
    Some(hash + (number_size(HEIGHT, height) + (places + axis)))
}

/// Appends the message of a claim with this hash of a header and this height, for which there is capacity (`befp_size`).
///
/// Celestia specifications, "Fraud Proofs", bad encoding; protobuf, "Encoding".
pub fn put_befp(k: u16, hash: &[u8; 32], height: u64, claim: &FraudClaim, out: &mut Vec<u8>)
    requires which { claim_has_message k claim.now ≡ true }
    requires capacity { HasCapacity out.old (length (befp_text 1 k hash.now height claim.now)) }
    ensures appended { out.new.items ≡ out.old.items ++ befp_text 1 k hash.now height claim.now }
    ensures len { vec_len out.new ≡ vec_len out.old + length (befp_text 1 k hash.now height claim.now) }
    ensures capacity { vec_capacity out.old ≤ vec_capacity out.new }
{
    put_entry(HASH, &hash[..], out);
    put_canonical_number(HEIGHT, height, out);
    put_places(k, claim.axis, &claim.cells, out);
    put_canonical_number(INDEX, u64::from(claim.index), out);
    put_canonical_number(KIND, axis_number(claim.axis), out);
}
