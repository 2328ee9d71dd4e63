//! Fraud claims as messages BadEncoding.

ghost use Rattle.std.specs.Prelude.{◌≡◌, ◌==◌, ◌&&◌, ◌↔◌, ℕ, ◌≤◌, true, Ok, Err, IfOk, IsErrOf};
ghost use Rattle.celestia_pb.specs.Reading.{ReadsMessage, then_read};
ghost use Rattle.celestia_pb.specs.Messages.{number_left};
ghost use Rattle.celestia_pb.specs.BefpEntries.{has_read};
ghost use Rattle.celestia_pb.specs.Befp.{is_index, accused_left, outline_at, has_places, claim_read, places_by, befp_axis, is_height, hash_matches, befp_left, befp_value};
ghost use Rattle.celestia_pb.specs.BefpLaws.{BefpIsRead, ReadIsBefp, BefpIsCommon, EntryIsCommon, FlaggedIsCommon};

use crate::befp_entries::{Accused, Seen, axis_in};
use crate::befp_places::{cells_in, count_places, look_along};
use crate::errors::PbError;
use crate::messages::{number_at, part_at};
use axis_roots::FraudClaim;
use namespace_id::{GREATEST_WIDTH, NoMemory, is_width};
use proto_fields::begins_part;
use std::alloc::Global;

/// The fields of the hash of a header and of its height, and of the index and of the kind of the accused axis.
const HASH: u8 = 1;

const HEIGHT: u8 = 2;

const INDEX: u8 = 4;

const KIND: u8 = 5;

/// What is looked up before the places are read: how many of them may have shares, and the accused axis.
#[derive(Clone, Copy)]
struct Outline {
    most: u16,
    accused: Option<Accused>,
}

/// The index at the front, and the bytes after it; where it is wrong, how many bytes are left.
fn index_at(count: u16, bytes: &[u8]) -> Result<(u64, &[u8]), usize>
    ensures value { ReadsMessage (λ x. (x.0, x.1.now)) result (number_left (is_index count) 4 bytes.now) }
    ensures few { IfOk result (λ x. x.0 ≤ count) }
{
    let (index, rest) = number_at(INDEX, bytes)?;
    if index != 0 && index >= u64::from(count) {
        return Err(bytes.len());
    }
    Ok((index, rest))
}

/// The axis that the fields behind so many places accuse, and what is left, nothing; where a field is wrong, how many bytes
/// are left from it on.
fn accused_at(count: u16, bytes: &[u8]) -> Result<(Accused, &[u8]), usize>
    ensures value { ReadsMessage (λ x. (x.0, x.1.now)) result (accused_left count bytes.now) }
{
    let (index, behind) = index_at(count, bytes)?;
    let Some((axis, rest)) = axis_in(KIND, behind) else {
        return Err(behind.len());
    };
    if !rest.is_empty() {
        return Err(rest.len());
    }
    let index = index as u16;
    Ok((Accused { axis, index }, rest))
}

/// What is looked up before places are read.
fn outline_at(bytes: &[u8]) -> Outline
    ensures { result ≡ outline_at bytes.now }
{
    let Ok((count, rest)) = count_places(bytes) else {
        return Outline {
            most: GREATEST_WIDTH,
            accused: None,
        };
    };
    let accused = match accused_at(count, rest) {
        Ok((accused, _none)) => Some(accused),
        Err(_left) => None,
    };
    Outline {
        most: count / 2,
        accused,
    }
}

/// Whether these are 2k places with k shares for a width k.
fn has_places(seen: Seen) -> bool
    ensures { result ≡ has_places seen.place seen.shares }
{
    let k = seen.place / 2;
    is_width(k) && seen.place == 2 * k && seen.shares == k
}

/// Whether the hash and this height were there.
fn is_told(told: bool, number: u64, height: u64) -> bool
    ensures { result ≡ (told && (number == height)) }
{
    told && number == height
}

/// Whether all is told, and these are the places.
fn is_all(told: bool, seen: Seen) -> bool
    ensures { result ≡ (told && has_places seen.place seen.shares) }
{
    told && has_places(seen)
}

/// Whether this hash is at the front, and the bytes after it; where another one is, how many bytes are left.
fn hash_at<'a>(hash: &[u8; 32], bytes: &'a [u8]) -> Result<(bool, &'a [u8]), usize>
    ensures value { ReadsMessage (λ x. (x.0, x.1.now)) result (hash_matches hash.now bytes.now) }
{
    if !begins_part(HASH, bytes) {
        return Ok((false, bytes));
    }
    let Some((part, rest)) = part_at(HASH, bytes) else {
        return Err(bytes.len());
    };
    if part != &hash[..] {
        return Err(bytes.len());
    }
    Ok((true, rest))
}

/// The height at the front, and the bytes after it; where it is another one, how many bytes are left.
fn height_at(height: u64, bytes: &[u8]) -> Result<(u64, &[u8]), usize>
    ensures value { ReadsMessage (λ x. (x.0, x.1.now)) result (number_left (is_height height) 2 bytes.now) }
{
    let (number, rest) = number_at(HEIGHT, bytes)?;
    if number != 0 && number != height {
        return Err(bytes.len());
    }
    Ok((number, rest))
}

/// The axis that a message accuses, and what was looked up of it, where these are the bytes from its places on; where a field is
/// wrong, how many bytes are left from it on.
fn places_in(told: bool, bytes: &[u8]) -> Result<(Accused, Outline), usize>
    ensures claim { ReadsMessage (λ x. claim_read x.0 (places_by x.1 bytes.now)) result (then_read (befp_axis told) (places_by (outline_at bytes.now) bytes.now)) }
    ensures read { IfOk result (λ x. has_read (places_by x.1 bytes.now) ≡ true) }
{
    let outline = outline_at(bytes);
    let (seen, after) = look_along(outline.accused, outline.most, bytes)?;
    let (accused, rest) = accused_at(seen.place, after)?;
    if !is_all(told, seen) {
        return Err(rest.len());
    }
    Ok((accused, outline))
}

/// The axis that a message accuses, what was looked up of it, and the bytes from its places on; where a field is wrong, how many
/// bytes are left from it on.
fn plan_in<'a>(
    hash: &[u8; 32],
    height: u64,
    bytes: &'a [u8],
) -> Result<(Accused, Outline, &'a [u8]), usize>
    ensures claim { ReadsMessage (λ x. claim_read x.0 (places_by x.1 x.2.now)) result (befp_left hash.now height bytes.now) }
    ensures read { IfOk result (λ x. has_read (places_by x.1 x.2.now) ≡ true) }
{
    let (told, behind) = hash_at(hash, bytes)?;
    let (number, places) = height_at(height, behind)?;
    let (accused, outline) = places_in(is_told(told, number, height), places)?;
    Ok((accused, outline, places))
}

/// The claim against an axis whose places these bytes are, which are right.
fn claim_in(
    alloc: Global,
    accused: Accused,
    outline: Outline,
    bytes: &[u8],
) -> Result<FraudClaim, NoMemory>
    requires { has_read (places_by outline bytes.now) ≡ true }
    ensures { IfOk result (λ claim. claim ≡ claim_read accused (places_by outline bytes.now)) }
{
    let cells = cells_in(alloc, accused, outline.accused, outline.most, bytes)?;
    let Accused { axis, index } = accused;
    Ok(FraudClaim {
        axis,
        index,
        cells,
        set: None,
    })
}

/// The claim that a message BadEncoding of this hash of a header and this height is: a sample for each place that has a share,
/// by ascending places.
///
/// Refuses bytes that aren't the one spelling of a claim with this hash and this height, with the offset of the first field
/// that is wrong: one that isn't in its one spelling; another hash or height; a place behind 1,024 others, and one that has a
/// share behind as many as half of the places; a share of another length than 512; a proof that begins at another place of
/// its axis than the share has, ends behind another one than the next, has more than `MOST_DEPTH` nodes or one of another
/// length than 90, has a leaf hash, or has not the flag of the proofs before it; an axis other than 0 and 1; an index of
/// no place; and any other field. Then fields that aren't there, with the offset of the end of their message: also where
/// the places aren't 2k for a width k, or have fewer shares than k. Where the accused axis or that of a proof can't be read
/// any place is taken for the proof's, and where the places can't be counted any of them may have a share. Whether the proofs
/// open the shares is for a verifier. It takes memory once all bytes are known to be right.
///
/// Celestia specifications, "Fraud Proofs", bad encoding; protobuf, "Encoding"; docs/RULES.md, "Celestia's messages".
pub fn read_befp(
    alloc: Global,
    hash: &[u8; 32],
    height: u64,
    bytes: &[u8],
) -> Result<FraudClaim, PbError>
    ensures claim { IfOk result (λ claim. befp_value hash.now height bytes.now ≡ Ok claim) }
    ensures at { (at : ℕ) → IsErrOf result (PbError.At at) ↔ (befp_value hash.now height bytes.now ≡ Err at) }
{
    match plan_in(hash, height, bytes) {
        Ok((accused, outline, places)) => Ok(claim_in(alloc, accused, outline, places)?),
        Err(left) => Err(PbError::at(bytes, left)),
    }
}

/// The laws of the messages of claims. It changes nothing.
pub fn befp_laws()
    ensures read { BefpIsRead }
    ensures spelled { ReadIsBefp }
    ensures common { BefpIsCommon }
    ensures entry_common { EntryIsCommon }
    ensures proof_common { FlaggedIsCommon }
{}
