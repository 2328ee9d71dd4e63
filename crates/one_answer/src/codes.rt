//! Of the field, the transforms and the code.

ghost use Rattle.std.specs.Prelude.{◌≡◌, ◌<◌, ◌≤◌, ◌+◌, ◌*◌, ◌%◌, ℕ, IsTrue, length, slice_index};
ghost use Rattle.gf_cantor.specs.Field.{size};
ghost use Rattle.namespace_id.specs.Cells.{is_width};
ghost use Rattle.leopard_code.specs.Codewords.{are_positions};
ghost use Rattle.gf_cantor.specs.Words.{word};
ghost use Rattle.lch_fft.specs.Transforms.{column, is_count};

use gf_cantor::{ByteFactor, WordFactor, field_laws, inv, mul_row};
use lch_fft::{Factor, derive, forward, inverse, transform_laws};
use leopard_code::{Room, code_laws, extend, rebuild};
use namespace_id::{Share, shares_law};

/// A label has one inverse.
pub fn inv_twice(a: u8) -> (u8, u8)
    requires { 0 < a }
    ensures { result.0 ≡ result.1 }
{
    field_laws();
    let first = inv(a);
    let second = inv(a);
    (first, second)
}

/// The multiple of a row is added in one way.
pub fn mul_row_twice(one: &mut [u8; 512], other: &mut [u8; 512], row: &[u8; 512], by: u8)
    requires same { other.old ≡ one.old }
    ensures state { (i : ℕ) → i < 512 → slice_index other.new i ≡ slice_index one.new i }
{
    mul_row(one, row, by);
    mul_row(other, row, by);
}

/// So is it by a factor whose tables are made.
pub fn byte_multiple_twice(
    factor: &ByteFactor,
    one: &mut [u8; 512],
    other: &mut [u8; 512],
    row: &[u8; 512],
)
    requires same { other.old ≡ one.old }
    ensures state { (i : ℕ) → i < 512 → slice_index other.new i ≡ slice_index one.new i }
{
    factor.add_multiple(one, row);
    factor.add_multiple(other, row);
}

/// So is it of words.
pub fn word_multiple_twice(
    factor: &WordFactor,
    one: &mut [u8; 512],
    other: &mut [u8; 512],
    row: &[u8; 512],
)
    requires same { other.old ≡ one.old }
    ensures state { (i : ℕ) → i < 256 → word other.new i ≡ word one.new i }
{
    factor.add_multiple(one, row);
    factor.add_multiple(other, row);
}

/// Known shares have one codeword.
pub fn rebuild_twice(
    room: &mut Room,
    known: &[u16],
    shares: &[Share],
    one: &mut [Share],
    other: &mut [Share],
)
    requires width { IsTrue (is_width room.old) }
    requires known { length known.now ≡ room.old }
    requires positions { IsTrue (are_positions room.old known.now) }
    requires shares { length shares.now ≡ room.old }
    requires one { length one.old ≡ 2 * room.old }
    requires other { length other.old ≡ 2 * room.old }
    ensures state { one.new ≡ other.new }
{
    code_laws();
    rebuild(room, known, shares, one);
    rebuild(room, known, shares, other);
}

/// Originals have one list of recovery shares.
pub fn extend_twice(room: &mut Room, originals: &[Share], one: &mut [Share], other: &mut [Share])
    requires width { IsTrue (is_width room.old) }
    requires originals { length originals.now ≡ room.old }
    requires one { length one.old ≡ room.old }
    requires other { length other.old ≡ room.old }
    ensures state { one.new ≡ other.new }
{
    code_laws();
    extend(room, originals, one);
    extend(room, originals, other);
}

/// Coefficients have one list of values, over each field.
pub fn forward_twice<M: Factor>(one: &mut [Share], other: &mut [Share], shift: u16)
    requires count { IsTrue (is_count (length one.old)) }
    requires block { shift % length one.old ≡ 0 }
    requires fits { shift + length one.old ≤ size M.reading.field }
    requires same { other.old ≡ one.old }
    ensures state { one.new ≡ other.new }
{
    transform_laws::<M>();
    forward::<M>(one, shift);
    forward::<M>(other, shift);
    shares_law(one);
    shares_law(other);
}

/// Values have one list of coefficients, over each field.
pub fn inverse_twice<M: Factor>(one: &mut [Share], other: &mut [Share], shift: u16)
    requires count { IsTrue (is_count (length one.old)) }
    requires block { shift % length one.old ≡ 0 }
    requires fits { shift + length one.old ≤ size M.reading.field }
    requires same { other.old ≡ one.old }
    ensures state { one.new ≡ other.new }
{
    transform_laws::<M>();
    inverse::<M>(one, shift);
    inverse::<M>(other, shift);
    shares_law(one);
    shares_law(other);
}

/// Coefficients have one derivative, over each field.
pub fn derive_twice<M: Factor>(one: &mut [Share], other: &mut [Share])
    requires count { IsTrue (is_count (length one.old)) }
    requires same { other.old ≡ one.old }
    ensures count { length one.new ≡ length other.new }
    ensures labels { (c m : ℕ) → c < M.reading.columns → m < length one.new →
        slice_index (column M.reading c one.new) m ≡ slice_index (column M.reading c other.new) m }
{
    derive::<M>(one);
    derive::<M>(other);
}
