//! Butterflies: what a stage of a transform does to both halves of a list.

ghost use Rattle.std.specs.Prelude.{◌≡◌, ◌<◌, ℕ, length, bit_xor, slice_index};
ghost use Rattle.gf_cantor.specs.Field.{product, size};
ghost use Rattle.namespace_id.specs.Sizes.{share_size};
ghost use Rattle.lch_fft.specs.Transforms.{column};
ghost use Rattle.lch_fft.specs.Butterflies.{bytes_sum, multiple};

use crate::factor::Factor;
use namespace_id::{SHARE_SIZE, Share};

/// Adds each byte of `row` to the byte of `acc` at its place.
fn add_bytes(acc: &mut [u8; SHARE_SIZE], row: &[u8; SHARE_SIZE])
    ensures { (b : ℕ) → b < share_size →
        slice_index acc.new b ≡ bit_xor (slice_index acc.old b) (slice_index row.now b) }
{
    for i in 0..SHARE_SIZE {
        acc[i] ^= row[i];
    }
}

/// Adds the label in each column of `row` to that of `acc`.
pub(crate) fn add_row<M: Factor>(acc: &mut [u8; SHARE_SIZE], row: &[u8; SHARE_SIZE])
    ensures { (c : ℕ) → c < M.reading.columns → M.reading.label_at acc.new c ≡
        bit_xor (M.reading.label_at acc.old c) (M.reading.label_at row.now c) }
{
    add_bytes(acc, row);
}

/// Adds the multiple of the high share to the low one, and then the low share to the high one.
fn spread_pair<M: Factor>(low: &mut Share, high: &mut Share, by: &M)
    ensures low { (c : ℕ) → c < M.reading.columns → M.reading.label_at low.new.0 c ≡
        bit_xor (M.reading.label_at low.old.0 c)
        (product M.reading.field (M.label by.now) (M.reading.label_at high.old.0 c)) }
    ensures high { (c : ℕ) → c < M.reading.columns → M.reading.label_at high.new.0 c ≡
        bit_xor (M.reading.label_at low.new.0 c) (M.reading.label_at high.old.0 c) }
{
    by.add_multiple(&mut low.0, &high.0);
    add_row::<M>(&mut high.0, &low.0);
}

/// Undoes `spread_pair`.
fn gather_pair<M: Factor>(low: &mut Share, high: &mut Share, by: &M)
    ensures high { (c : ℕ) → c < M.reading.columns → M.reading.label_at high.new.0 c ≡
        bit_xor (M.reading.label_at low.old.0 c) (M.reading.label_at high.old.0 c) }
    ensures low { (c : ℕ) → c < M.reading.columns → M.reading.label_at low.new.0 c ≡
        bit_xor (M.reading.label_at low.old.0 c)
        (product M.reading.field (M.label by.now) (M.reading.label_at high.new.0 c)) }
{
    add_row::<M>(&mut high.0, &low.0);
    by.add_multiple(&mut low.0, &high.0);
}

/// A stage of `forward`: both halves of the coefficients become those of the two halves of the
/// points. The factor is made ready once for the stage.
pub(crate) fn spread_stage<M: Factor>(low: &mut [Share], high: &mut [Share], by: usize)
    requires same { length high.old ≡ length low.old }
    requires by { by < size M.reading.field }
    ensures low { (c : ℕ) → c < M.reading.columns → column M.reading c low.new ≡
        bytes_sum (column M.reading c low.old)
        (multiple M.reading.field by (column M.reading c high.old)) }
    ensures high { (c : ℕ) → c < M.reading.columns → column M.reading c high.new ≡
        bytes_sum (column M.reading c low.new) (column M.reading c high.old) }
{
    let factor = M::new(by);
    for i in 0..low.len() {
        spread_pair(&mut low[i], &mut high[i], &factor);
    }
}

/// A stage of `inverse`, which undoes `spread_stage`.
pub(crate) fn gather_stage<M: Factor>(low: &mut [Share], high: &mut [Share], by: usize)
    requires same { length high.old ≡ length low.old }
    requires by { by < size M.reading.field }
    ensures high { (c : ℕ) → c < M.reading.columns → column M.reading c high.new ≡
        bytes_sum (column M.reading c low.old) (column M.reading c high.old) }
    ensures low { (c : ℕ) → c < M.reading.columns → column M.reading c low.new ≡
        bytes_sum (column M.reading c low.old)
        (multiple M.reading.field by (column M.reading c high.new)) }
{
    let factor = M::new(by);
    for i in 0..low.len() {
        gather_pair(&mut low[i], &mut high[i], &factor);
    }
}
