//! Vectors of 32 bytes: loads, sums, and look-ups of bytes by their halves.

ghost use Rattle.std.specs.Prelude.{◌≡◌, ◌<◌, ◌≤◌, ◌+◌, ◌/◌, ◌%◌, ℕ, length, bit_xor, slice_index};

use std::simd::{u8x16, u8x32};

/// The 32 bytes of a share from `at` on. It takes no memory.
#[inline(always)]
pub(crate) fn load(bytes: &[u8; 512], at: usize) -> u8x32
    requires { at + 32 ≤ 512 }
    ensures { (k : ℕ) → k < 32 → slice_index result k ≡ slice_index bytes.now (at + k) }
{
    u8x32::from_slice(&bytes[at..])
}

/// Adds each lane to the byte of a share at its place, from `at` on. It takes no memory.
#[inline(always)]
pub(crate) fn add(bytes: &mut [u8; 512], at: usize, lanes: u8x32)
    requires { at + 32 ≤ 512 }
    ensures sums { (k : ℕ) → k < 32 →
        slice_index bytes.new (at + k) ≡
        bit_xor (slice_index bytes.old (at + k)) (slice_index lanes k) }
    ensures before { (k : ℕ) → k < at → slice_index bytes.new k ≡ slice_index bytes.old k }
    ensures behind { (k : ℕ) → at + 32 ≤ k → slice_index bytes.new k ≡ slice_index bytes.old k }
{
    (load(bytes, at) ^ lanes).copy_to_slice(&mut bytes[at..]);
}

/// The table of 16 bytes at `at`, twice over: a look-up stays within the 16 lanes that a lane stands
/// in. It takes no memory.
#[inline(always)]
fn twice(tables: &[u8], at: usize) -> u8x32
    requires { at + 16 ≤ length tables.now }
    ensures { (k : ℕ) → k < 32 → slice_index result k ≡ slice_index tables.now (at + k % 16) }
{
    u8x16::from_slice(&tables[at..]).swizzle([
        0, 1, 2, 3, 4, 5, 6, 7, 8, 9, 10, 11, 12, 13, 14, 15, 0, 1, 2, 3, 4, 5, 6, 7, 8, 9, 10, 11,
        12, 13, 14, 15,
    ])
}

/// For each lane the entry of the table at `at` at the lane's four low bits. It takes no memory.
#[inline(always)]
fn by_low_half(tables: &[u8], at: usize, lanes: u8x32) -> u8x32
    requires { at + 16 ≤ length tables.now }
    ensures { (k : ℕ) → k < 32 →
        slice_index result k ≡ slice_index tables.now (at + slice_index lanes k % 16) }
{
    twice(tables, at).swizzle_dyn_within::<16>(lanes & u8x32::splat(15))
}

/// For each lane the entry of the table at `at` at the lane's four high bits. It takes no memory.
#[inline(always)]
fn by_high_half(tables: &[u8], at: usize, lanes: u8x32) -> u8x32
    requires { at + 16 ≤ length tables.now }
    ensures { (k : ℕ) → k < 32 →
        slice_index result k ≡ slice_index tables.now (at + slice_index lanes k / 16) }
{
    twice(tables, at).swizzle_dyn_within::<16>(lanes >> u8x32::splat(4))
}

/// For each lane the sum of two entries at its halves, of the tables at `low_at` and at `high_at`. It
/// takes no memory.
#[inline(always)]
pub(crate) fn by_halves(
    low: &[u8],
    low_at: usize,
    high: &[u8],
    high_at: usize,
    lanes: u8x32,
) -> u8x32
    requires low { low_at + 16 ≤ length low.now }
    requires high { high_at + 16 ≤ length high.now }
    ensures { (k : ℕ) → k < 32 →
        slice_index result k ≡
        bit_xor (slice_index low.now (low_at + slice_index lanes k % 16))
        (slice_index high.now (high_at + slice_index lanes k / 16)) }
{
    by_low_half(low, low_at, lanes) ^ by_high_half(high, high_at, lanes)
}
