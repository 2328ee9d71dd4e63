//! Words of eight messages: the functions of FIPS 180-4, section 4.1.2, lane by lane.

ghost use Rattle.std.specs.Prelude.{◌≡◌, ℕ, ◌<◌, ◌*◌, ◌/◌, ◌%◌, ◌^◌, bit_and, bit_or, bit_xor, slice_index};
ghost use Rattle.std.specs.Int.{w32, bit_not, rotate_right};
ghost use Rattle.sha2.specs.Sha256.{add32, big_sigma0, big_sigma1, ch, maj, small_sigma0, small_sigma1};

use std::simd::u32x8;

#[inline(always)]
pub(crate) fn add(x: u32x8, y: u32x8) -> u32x8
    ensures { (j : ℕ) → j < 8 → slice_index result j ≡ add32 (slice_index x j) (slice_index y j) }
{
    x + y
}

#[inline(always)]
fn xor(x: u32x8, y: u32x8) -> u32x8
    ensures { (j : ℕ) → j < 8 → slice_index result j ≡ bit_xor (slice_index x j) (slice_index y j) }
{
    x ^ y
}

#[inline(always)]
fn and(x: u32x8, y: u32x8) -> u32x8
    ensures { (j : ℕ) → j < 8 → slice_index result j ≡ bit_and (slice_index x j) (slice_index y j) }
{
    x & y
}

#[inline(always)]
fn or(x: u32x8, y: u32x8) -> u32x8
    ensures { (j : ℕ) → j < 8 → slice_index result j ≡ bit_or (slice_index x j) (slice_index y j) }
{
    x | y
}

#[inline(always)]
fn not(x: u32x8) -> u32x8
    ensures { (j : ℕ) → j < 8 → slice_index result j ≡ bit_not w32 (slice_index x j) }
{
    !x
}

#[inline(always)]
fn shift_right(x: u32x8, by: u32) -> u32x8
    requires { by < 32 }
    ensures { (j : ℕ) → j < 8 → slice_index result j ≡ slice_index x j / 2 ^ by }
{
    x >> u32x8::splat(by)
}

#[inline(always)]
fn shift_left(x: u32x8, by: u32) -> u32x8
    requires { by < 32 }
    ensures { (j : ℕ) → j < 8 → slice_index result j ≡ slice_index x j * 2 ^ by % 2 ^ 32 }
{
    x << u32x8::splat(by)
}

#[inline(always)]
fn rotate_right(x: u32x8, by: u32) -> u32x8
    requires low { 0 < by }
    requires high { by < 32 }
    ensures { (j : ℕ) → j < 8 → slice_index result j ≡ rotate_right w32 (slice_index x j) by }
{
    or(shift_right(x, by), shift_left(x, 32 - by))
}

#[inline(always)]
pub(crate) fn ch(x: u32x8, y: u32x8, z: u32x8) -> u32x8
    ensures { (j : ℕ) → j < 8 →
        slice_index result j ≡ ch (slice_index x j) (slice_index y j) (slice_index z j) }
{
    xor(and(x, y), and(not(x), z))
}

// One round's `x ^ y` is the next round's `y ^ z`.
#[inline(always)]
pub(crate) fn maj(x: u32x8, y: u32x8, z: u32x8) -> u32x8
    ensures { (j : ℕ) → j < 8 →
        slice_index result j ≡ maj (slice_index x j) (slice_index y j) (slice_index z j) }
{
    xor(y, and(xor(x, y), xor(y, z)))
}

// The four functions below nest their rotations, so that fewer copies of `x` are made: on x86-64-v2 a shift goes over what it
// shifts.
#[inline(always)]
pub(crate) fn big_sigma0(x: u32x8) -> u32x8
    ensures { (j : ℕ) → j < 8 → slice_index result j ≡ big_sigma0 (slice_index x j) }
{
    let pair = xor(x, rotate_right(x, 9));
    let three = xor(x, rotate_right(pair, 11));
    rotate_right(three, 2)
}

#[inline(always)]
pub(crate) fn big_sigma1(x: u32x8) -> u32x8
    ensures { (j : ℕ) → j < 8 → slice_index result j ≡ big_sigma1 (slice_index x j) }
{
    let pair = xor(x, rotate_right(x, 14));
    let three = xor(x, rotate_right(pair, 5));
    rotate_right(three, 6)
}

#[inline(always)]
pub(crate) fn small_sigma0(x: u32x8) -> u32x8
    ensures { (j : ℕ) → j < 8 → slice_index result j ≡ small_sigma0 (slice_index x j) }
{
    let pair = xor(x, rotate_right(x, 11));
    xor(rotate_right(pair, 7), shift_right(x, 3))
}

#[inline(always)]
pub(crate) fn small_sigma1(x: u32x8) -> u32x8
    ensures { (j : ℕ) → j < 8 → slice_index result j ≡ small_sigma1 (slice_index x j) }
{
    let pair = xor(x, rotate_right(x, 2));
    xor(rotate_right(pair, 17), shift_right(x, 10))
}
