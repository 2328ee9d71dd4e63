//! Byte strings: what is known of their numbers, and writing a part into one or behind it.

ghost use Rattle.std.specs.Prelude.{◌≡◌, ◌+◌, ◌≤◌, ◌++◌, length, take, drop, vec_len, vec_capacity};
ghost use Rattle.namespace_id.specs.Answers.{HasCapacity};
ghost use Rattle.namespace_id.specs.Bytes.{AreBytes};

/// Says that the bytes of a slice are below 256. It does nothing: a proof that needs the fact of
/// a slice that it doesn't read calls it.
pub fn bytes_law(bytes: &[u8])
    ensures { AreBytes bytes.now }
{}

/// Overwrites the bytes from place `at` on by those of `part`.
pub fn write_at(bytes: &mut [u8], at: usize, part: &[u8])
    requires { at + length part.now ≤ length bytes.old }
    ensures { bytes.new ≡ take at bytes.old ++ part.now ++ drop (at + length part.now) bytes.old }
{
    bytes[at..at + part.len()].copy_from_slice(part);
}

/// Appends bytes for which there is capacity.
pub fn append(out: &mut Vec<u8>, bytes: &[u8])
    requires capacity { HasCapacity out.old (length bytes.now) }
    ensures appended { out.new.items ≡ out.old.items ++ bytes.now }
    ensures len { vec_len out.new ≡ vec_len out.old + length bytes.now }
    ensures capacity { vec_capacity out.old ≤ vec_capacity out.new }
{
    out.extend_from_slice(bytes).unwrap();
}
