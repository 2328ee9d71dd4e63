//! The locator of the missing positions: the polynomial that is 0 exactly there.

ghost use Rattle.std.specs.Prelude.{◌≡◌, ◌<◌, ◌≤◌, ◌+◌, ◌*◌, ℕ, length, slice_index};
ghost use Rattle.gf_cantor.specs.Field.{product, size};
ghost use Rattle.leopard_code.specs.Locators.{missing_from, label_of_power, difference, apart_from};

use lch_fft::Factor;

/// Makes all exponents 0, those of the product of no labels.
fn clear_exponents(exponents: &mut [u32])
    ensures { (x : ℕ) → x < length exponents.old → slice_index exponents.new x ≡ 0 }
{
    for x in 0..exponents.len() {
        exponents[x] = 0;
    }
}

/// Adds the exponent of the difference of each place and `pos` to that at the place, but none to
/// that at `pos` itself. One is below 65,535, so those of 1,024 positions fit.
fn add_exponents<M: Factor>(exponents: &mut [u32], pos: usize)
    requires count { length exponents.old ≤ 1024 }
    requires fits { length exponents.old ≤ size M.reading.field }
    requires pos { pos < length exponents.old }
    requires room { (x : ℕ) → x < length exponents.old →
        slice_index exponents.old x ≤ 65534 * pos }
    ensures products { (x : ℕ) → x < length exponents.old →
        label_of_power M.reading.field (slice_index exponents.new x) ≡
        product M.reading.field
        (label_of_power M.reading.field (slice_index exponents.old x))
        (difference x pos) }
    ensures bound { (x : ℕ) → x < length exponents.old →
        slice_index exponents.new x ≤ 65534 * (pos + 1) }
{
    for x in 0..exponents.len() {
        if x != pos {
            exponents[x] += M::exponent(x ^ pos);
        }
    }
}

/// Writes the locator of the missing positions as exponents of powers of x: for each place that of
/// the product of its differences to all other missing ones. It is the locator's value, and at a
/// missing position that of its derivative.
pub(crate) fn locate<M: Factor>(known: &[u16], exponents: &mut [u32])
    requires count { length exponents.old ≤ 1024 }
    requires fits { length exponents.old ≤ size M.reading.field }
    ensures { (x : ℕ) → x < length exponents.old →
        label_of_power M.reading.field (slice_index exponents.new x) ≡
        apart_from M.reading.field (missing_from 0 (length exponents.old) known.now) x }
{
    clear_exponents(exponents);
    let mut next = 0;
    for pos in 0..exponents.len() {
        if next < known.len() && known[next] as usize == pos {
            next += 1;
        } else {
            // a product of powers is a sum of exponents
            add_exponents::<M>(exponents, pos);
        }
    }
}
