//! Values that are written as bytes: one of them, or a list.

ghost use Rattle.std.specs.Prelude.{◌≡◌, ◌≤◌, ◌+◌, ◌++◌, ℕ, List, length, vec_len, vec_capacity};
ghost use Rattle.std.specs.Int.{w16, w32, to_be_bytes};
ghost use Rattle.std.specs.List.{flat_map};
ghost use Rattle.namespace_id.specs.Answers.{HasCapacity};
ghost use Rattle.frame_payloads.specs.Payloads.{IsWithin, Puts};
ghost use Rattle.frame_payloads.specs.codec.Texts.{list_bytes};

use crate::codec::outs::{Counter, Full, Out};

/// A value that is written as bytes.
pub(crate) trait Text {
    /// The bytes that it is written as.
    ghost text: { Self → List ℕ };

    /// Puts its bytes.
    fn put<O: Out>(&self, out: &mut O) -> Result<(), Full>
        ensures { Puts O.byte O.held O.taken O.limit out.old out.new (text self.now) result };
}

/// A count in two bytes.
pub(crate) fn count16(count: usize) -> [u8; 2]
    ensures { result ≡ to_be_bytes w16 count }
{
    let all = count.to_be_bytes();
    [all[6], all[7]]
}

/// A count in four bytes.
pub(crate) fn count32(count: usize) -> [u8; 4]
    ensures { result ≡ to_be_bytes w32 count }
{
    let all = count.to_be_bytes();
    [all[4], all[5], all[6], all[7]]
}

/// Puts values, one after another.
pub(crate) fn put_all<T: Text, O: Out>(out: &mut O, values: &[T]) -> Result<(), Full>
    ensures { Puts O.byte O.held O.taken O.limit out.old out.new (flat_map T.text values.now)
        result }
{
    for value in values {
        value.put(out)?;
    }
    Ok(())
}

/// Puts values behind their count in two bytes.
pub(crate) fn put_list16<T: Text, O: Out>(out: &mut O, values: &[T]) -> Result<(), Full>
    ensures { Puts O.byte O.held O.taken O.limit out.old out.new (list_bytes w16 T.text values.now)
        result }
{
    out.put(&count16(values.len()))?;
    put_all(out, values)
}

/// Puts values behind their count in four bytes.
pub(crate) fn put_list<T: Text, O: Out>(out: &mut O, values: &[T]) -> Result<(), Full>
    ensures { Puts O.byte O.held O.taken O.limit out.old out.new (list_bytes w32 T.text values.now)
        result }
{
    out.put(&count32(values.len()))?;
    put_all(out, values)
}

/// The length of a value's bytes, none where it is above the limit of a payload.
pub(crate) fn size_of<T: Text>(value: &T) -> Option<u32>
    ensures { IsWithin (length (T.text value.now)) result }
{
    let mut count = Counter { size: 0 };
    match value.put(&mut count) {
        Ok(()) => Some(count.size),
        Err(Full) => None,
    }
}

/// Appends a value.
pub(crate) fn append_text<T: Text>(out: &mut Vec<u8>, value: &T)
    requires capacity { HasCapacity out.old (length (T.text value.now)) }
    ensures appended { out.new.items ≡ out.old.items ++ T.text value.now }
    ensures len { vec_len out.new ≡ vec_len out.old + length (T.text value.now) }
    ensures capacity { vec_capacity out.old ≤ vec_capacity out.new }
{
    value.put(out).unwrap();
}

/// Appends values, one after another.
pub(crate) fn append_all<T: Text>(out: &mut Vec<u8>, values: &[T])
    requires capacity { HasCapacity out.old (length (flat_map T.text values.now)) }
    ensures appended { out.new.items ≡ out.old.items ++ flat_map T.text values.now }
    ensures len { vec_len out.new ≡ vec_len out.old + length (flat_map T.text values.now) }
    ensures capacity { vec_capacity out.old ≤ vec_capacity out.new }
{
    put_all(out, values).unwrap();
}
