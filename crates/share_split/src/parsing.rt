//! The text of units: the units in it, and the places where they start.

ghost use Rattle.std.specs.Prelude.{◌≡◌, ◌+◌, ◌<◌, ◌≤◌, ◌*◌, ◌^◌, ◌∷◌, [], ◌++◌, length, Ok, IfOk, IfSome, OnOk};
ghost use Rattle.share_split.specs.Units.{starts_from, starts_on, first_place};
ghost use Rattle.share_split.specs.Walks.{Joins, text_unit, units_from, bad_reserved};
ghost use Rattle.namespace_id.specs.Answers.{Gives};
ghost use Rattle.proto_fields.specs.Varints.{varint_in};
ghost use Rattle.share_split.specs.Steps.{units_placed};

use crate::fields::reserved;
use crate::places::{content_start, place_in, share_with};
use crate::{JoinError, Unit};
use namespace_id::Share;
use std::alloc::{AllocError, Global};

/// A byte of a varint has seven bits of its number; the upper bit says that another byte follows.
const RADIX: u64 = 128;

/// The bytes of the longest varint of a length below 2^32, at seven bits a byte.
const LONGEST_VARINT: u8 = 5;

/// The lengths of units have up to 32 bits.
const MAX_UNIT_LENGTH: u64 = 4_294_967_295;

/// The number that a shortest varint of at most so many bytes states at the front, and the bytes
/// after it.
#[tactic(auto, unfolding(proto_fields::specs::Varints::varint_in))]
fn varint_in(most: u8, bytes: &[u8]) -> Option<(u64, &[u8])>
    requires { most ≤ 5 }
    ensures value { Gives (λ x. (x.0, x.1.now)) result (varint_in most bytes.now) }
    ensures bound { IfSome result (λ x. x.0 < 128 ^ most) }
{
    if most == 0 {
        return None;
    }
    let [byte, rest @ ..] = bytes else {
        return None;
    };
    let byte = u64::from(*byte);
    if byte < RADIX {
        return Some((byte, rest));
    }
    let (high, after) = varint_in(most - 1, rest)?;
    if high == 0 {
        return None;
    }
    Some((byte - RADIX + RADIX * high, after))
}

/// The unit at the front, and how many bytes it takes with its length.
fn unit_at(text: &[u8]) -> Option<(&[u8], usize)>
    ensures value { Gives (λ x. (x.0.now, x.1)) result (text_unit text.now) }
    ensures some { IfSome result (λ x. 1 ≤ x.1) }
    ensures within { IfSome result (λ x. x.1 ≤ length text.now) }
{
    let (len, rest) = varint_in(LONGEST_VARINT, text)?;
    if len > MAX_UNIT_LENGTH || len > rest.len() as u64 {
        return None;
    }
    let (unit, after) = rest.split_at(len as usize);
    Some((unit, text.len() - after.len()))
}

/// Units that were read, and where they start in their text.
#[derive(Drop)]
pub(crate) struct Placed {
    pub units: Vec<Unit>,
    pub starts: Vec<usize>,
}

impl Placed {
    /// Appends a unit that starts here.
    fn keep(&mut self, alloc: Global, unit: &[u8], at: usize) -> Result<(), AllocError>
        ensures units { OnOk result (self.new.units.items ≡ self.old.units.items ++ unit.now ∷ []) }
        ensures starts { OnOk result (self.new.starts.items ≡ self.old.starts.items ++ at ∷ []) }
    {
        let bytes = Vec::from_slice(alloc, unit)?;
        self.units.push(Unit { bytes })?;
        self.starts.push(at)?;
        Ok(())
    }
}

/// The units of a text, one after another.
///
/// Refuses the first length that is none or whose unit isn't all there (`BadVarint`).
pub(crate) fn units_of_text(alloc: Global, text: &[u8]) -> Result<Placed, JoinError>
    ensures units { Joins (λ placed. placed.units.items) result
        (units_placed (units_from 0 0 text.now)) }
    ensures starts { IfOk result (λ placed.
        placed.starts.items ≡ starts_from 0 placed.units.items) }
{
    let mut placed = Placed {
        units: Vec::new(alloc),
        starts: Vec::new(alloc),
    };
    let mut at = 0;
    while at < text.len() {
        let Some((unit, size)) = unit_at(text.split_at(at).1) else {
            return Err(JoinError::BadVarint(share_with(at)));
        };
        placed.keep(alloc, unit, at)?;
        at += size;
    }
    Ok(placed)
}

/// The starts from a place of the text on.
fn starts_on(starts: &[usize], from: usize) -> &[usize]
    ensures { result.now ≡ starts_on from starts.now }
{
    let mut before = 0;
    while before < starts.len() && starts[before] < from {
        before += 1;
    }
    starts.split_at(before).1
}

/// The place in a share of the first of some units, by where they start; 0 where there are none.
fn first_place(share: usize, starts: &[usize]) -> u32
    requires { share < 2 ^ 54 }
    ensures { result ≡ first_place share starts.now }
{
    match starts {
        [start, ..] => place_in(share, *start),
        [] => 0,
    }
}

/// The first share whose reserved bytes don't state what they should, for units that start there.
pub(crate) fn bad_reserved(shares: &[Share], starts: &[usize]) -> Option<u64>
    ensures { result ≡ bad_reserved 0 starts.now shares.now }
{
    let mut left = starts;
    for i in 0..shares.len() {
        left = starts_on(left, content_start(i));
        if reserved(&shares[i]) != first_place(i, left) {
            return Some(i as u64);
        }
    }
    None
}
