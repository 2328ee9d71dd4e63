//! Lists of values, of which each is read where the one before ended: passed over where they lie, and then made.

ghost use Rattle.std.specs.Prelude.{◌≡◌, ℕ, List, Option, Some, None, IfOk, IsSome, MatchOption};
ghost use Rattle.std.specs.Int.{w16, w32};
ghost use Rattle.std.specs.Option.{option_map};
ghost use Rattle.namespace_id.specs.Answers.{Gives};
ghost use Rattle.frame_fields.specs.Fields.{many_at, list_at, read_items};

use frame_fields::{count_at, count16_at};
use std::alloc::{AllocError, Global};

/// A value that may stand in a list.
pub(crate) trait Item: Drop {
    /// What is read of the front of bytes: a value, and the bytes after it.
    ghost at: { List ℕ → Option (Self × List ℕ) };

    /// The bytes after the value at the front. It takes no memory.
    fn after(bytes: &[u8]) -> Option<&[u8]>
        ensures { Gives (λ x. x.now) result (option_map (λ x. x.1) (at bytes.now)) };

    /// The value at the front, and the bytes after it.
    fn read(alloc: Global, bytes: &[u8]) -> Result<(Self, &[u8]), AllocError>
        requires { IsSome (at bytes.now) }
        ensures { IfOk result (λ x. at bytes.now ≡ Some (x.0, x.1.now)) };
}

/// The bytes after so many values.
fn after_many<T: Item>(count: u32, bytes: &[u8]) -> Option<&[u8]>
    ensures { MatchOption result (many_at T.at count bytes.now ≡ None) (λ rest.
        (items : List T) × (many_at T.at count bytes.now ≡ Some (items, rest.now))) }
{
    let mut rest = bytes;
    for _ in 0..count {
        let after = T::after(rest)?;
        rest = after;
    }
    Some(rest)
}

/// So many values, one after another.
#[tactic(auto, using(crate::proofs::Fields::Many::kept_end))]
fn many_of<T: Item>(alloc: Global, count: u32, bytes: &[u8]) -> Result<Vec<T>, AllocError>
    requires { IsSome (many_at T.at count bytes.now) }
    ensures { IfOk result (λ items. items.items ≡ read_items (many_at T.at count bytes.now)) }
{
    let mut items = Vec::with_capacity(alloc, count as usize)?;
    let mut rest = bytes;
    for _ in 0..count {
        let (item, after) = T::read(alloc, rest)?;
        items.push(item)?;
        rest = after;
    }
    Ok(items)
}

/// The bytes after values behind their count in four bytes.
#[tactic(auto, unfolding(frame_fields::specs::Fields::list_at))]
pub(crate) fn after_list<T: Item>(bytes: &[u8], most: u32) -> Option<&[u8]>
    ensures { MatchOption result (list_at w32 most T.at bytes.now ≡ None) (λ rest.
        (items : List T) × (list_at w32 most T.at bytes.now ≡ Some (items, rest.now))) }
{
    let (count, rest) = count_at(bytes, most)?;
    after_many::<T>(count, rest)
}

/// The bytes after values behind their count in two bytes.
#[tactic(auto, unfolding(frame_fields::specs::Fields::list_at))]
pub(crate) fn after_list16<T: Item>(bytes: &[u8], most: u16) -> Option<&[u8]>
    ensures { MatchOption result (list_at w16 most T.at bytes.now ≡ None) (λ rest.
        (items : List T) × (list_at w16 most T.at bytes.now ≡ Some (items, rest.now))) }
{
    let (count, rest) = count16_at(bytes, most)?;
    after_many::<T>(u32::from(count), rest)
}

/// The values behind their count in four bytes.
#[tactic(auto, unfolding(frame_fields::specs::Fields::list_at))]
pub(crate) fn list<T: Item>(alloc: Global, bytes: &[u8], most: u32) -> Result<Vec<T>, AllocError>
    requires { IsSome (list_at w32 most T.at bytes.now) }
    ensures { IfOk result (λ items.
        items.items ≡ read_items (list_at w32 most T.at bytes.now)) }
{
    let (count, rest) = count_at(bytes, most).unwrap();
    many_of::<T>(alloc, count, rest)
}

/// The values behind their count in two bytes.
#[tactic(auto, unfolding(frame_fields::specs::Fields::list_at))]
pub(crate) fn list16<T: Item>(alloc: Global, bytes: &[u8], most: u16) -> Result<Vec<T>, AllocError>
    requires { IsSome (list_at w16 most T.at bytes.now) }
    ensures { IfOk result (λ items.
        items.items ≡ read_items (list_at w16 most T.at bytes.now)) }
{
    let (count, rest) = count16_at(bytes, most).unwrap();
    many_of::<T>(alloc, u32::from(count), rest)
}
