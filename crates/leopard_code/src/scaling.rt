//! Multiples and quotients of shares by powers of x.

ghost use Rattle.std.specs.Prelude.{◌≡◌, ◌≢◌, ◌<◌, ◌*◌, ℕ, IsTrue, length, bit_xor, slice_index};
ghost use Rattle.gf_cantor.specs.Field.{product, size};
ghost use Rattle.lch_fft.specs.Transforms.{column};
ghost use Rattle.leopard_code.specs.Codewords.{are_positions};
ghost use Rattle.leopard_code.specs.Locators.{label_of_power};

use lch_fft::Factor;
use namespace_id::{SHARE_SIZE, Share};

/// Adds the multiple of a share by a power of x to another share.
fn add_power<M: Factor>(acc: &mut Share, share: &Share, exponent: u32)
    ensures { (c : ℕ) → c < M.reading.columns → M.reading.label_at acc.new.0 c ≡
        bit_xor (M.reading.label_at acc.old.0 c)
        (product M.reading.field (label_of_power M.reading.field exponent)
        (M.reading.label_at share.now.0 c)) }
{
    let factor = M::of_power(exponent);
    factor.add_multiple(&mut acc.0, &share.0);
}

/// Multiplies each label of a share by a power of x.
fn multiply<M: Factor>(share: &mut Share, exponent: u32)
    ensures { (c : ℕ) → c < M.reading.columns → M.reading.label_at share.new.0 c ≡
        product M.reading.field (label_of_power M.reading.field exponent)
        (M.reading.label_at share.old.0 c) }
{
    let mut multiple = Share([0; SHARE_SIZE]);
    add_power::<M>(&mut multiple, share, exponent);
    *share = multiple;
}

/// Divides each label of a share by a power of x: where a label is a multiple, its factor is left.
fn divide<M: Factor>(share: &mut Share, exponent: u32)
    ensures { (c y : ℕ) → c < M.reading.columns → y < size M.reading.field →
        M.reading.label_at share.old.0 c ≡
        product M.reading.field y (label_of_power M.reading.field exponent) →
        M.reading.label_at share.new.0 c ≡ y }
{
    // x to the number of labels but 0 is 1
    let turn = M::order();
    multiply::<M>(share, turn - exponent % turn);
}

/// Adds to the share at each known position the multiple of the known share by the power there, and
/// leaves the other positions as they are.
pub(crate) fn add_multiples<M: Factor>(
    known: &[u16],
    shares: &[Share],
    exponents: &[u32],
    all: &mut [Share],
)
    requires shares { length shares.now ≡ length known.now }
    requires all { length all.old ≡ 2 * length known.now }
    requires exponents { length exponents.now ≡ length all.old }
    requires positions { IsTrue (are_positions (length known.now) known.now) }
    ensures known { (c i : ℕ) → c < M.reading.columns → i < length known.now →
        slice_index (column M.reading c all.new) (slice_index known.now i) ≡
        bit_xor (slice_index (column M.reading c all.old) (slice_index known.now i))
        (product M.reading.field
        (label_of_power M.reading.field (slice_index exponents.now (slice_index known.now i)))
        (slice_index (column M.reading c shares.now) i)) }
    ensures others { (c pos : ℕ) → c < M.reading.columns → pos < length all.old →
        ((i : ℕ) → i < length known.now → slice_index known.now i ≢ pos) →
        slice_index (column M.reading c all.new) pos ≡
        slice_index (column M.reading c all.old) pos }
{
    for i in 0..known.len() {
        let pos = known[i] as usize;
        add_power::<M>(&mut all[pos], &shares[i], exponents[pos]);
    }
}

/// Divides the share at each position that isn't known by the power there: where a label is a
/// multiple, its factor is left.
pub(crate) fn divide_missing<M: Factor>(known: &[u16], exponents: &[u32], all: &mut [Share])
    requires same { length exponents.now ≡ length all.old }
    ensures { (c pos y : ℕ) → c < M.reading.columns → pos < length all.old →
        y < size M.reading.field →
        ((i : ℕ) → i < length known.now → slice_index known.now i ≢ pos) →
        slice_index (column M.reading c all.old) pos ≡ product M.reading.field y
        (label_of_power M.reading.field (slice_index exponents.now pos)) →
        slice_index (column M.reading c all.new) pos ≡ y }
{
    let mut next = 0;
    for pos in 0..all.len() {
        if next < known.len() && known[next] as usize == pos {
            next += 1;
        } else {
            divide::<M>(&mut all[pos], exponents[pos]);
        }
    }
}
