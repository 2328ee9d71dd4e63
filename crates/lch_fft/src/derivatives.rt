//! The derivative.

ghost use Rattle.std.specs.Prelude.{◌≡◌, ◌<◌, ℕ, IsTrue, length};
ghost use Rattle.lch_fft.specs.Transforms.{column, is_count};
ghost use Rattle.lch_fft.specs.Butterflies.{bytes_sum, transform_halvings};
ghost use Rattle.lch_fft.specs.Derivatives.{slopes, IsDerived};

use crate::butterflies::add_row;
use crate::factor::Factor;
use namespace_id::{SHARE_SIZE, Share};

/// Adds each share of `high` to that of `low` at its place.
fn add_shares<M: Factor>(low: &mut [Share], high: &[Share])
    requires { length high.now ≡ length low.old }
    ensures { (c : ℕ) → c < M.reading.columns → column M.reading c low.new ≡
        bytes_sum (column M.reading c low.old) (column M.reading c high.now) }
{
    for i in 0..low.len() {
        add_row::<M>(&mut low[i].0, &high[i].0);
    }
}

/// Makes all bytes of a share 0, and so all labels.
fn clear<M: Factor>(share: &mut Share)
    ensures { (c : ℕ) → c < M.reading.columns → M.reading.label_at share.new.0 c ≡ 0 }
{
    *share = Share([0; SHARE_SIZE]);
}

/// The derivative by halves: that of the low half with the high half added, and that of the high half.
fn derive_halves<M: Factor>(shares: &mut [Share])
    requires { IsTrue (is_count (length shares.old)) }
    ensures { (c : ℕ) → c < M.reading.columns → column M.reading c shares.new ≡
        slopes (transform_halvings (length shares.old)) (column M.reading c shares.old) }
{
    let half = shares.len() / 2;
    if half == 0 {
        clear::<M>(&mut shares[0]);
    } else {
        let (low, high) = shares.split_at_mut(half);
        derive_halves::<M>(low);
        add_shares::<M>(low, high);
        derive_halves::<M>(high);
    }
}

/// The coefficients of the formal derivative: entry m becomes the sum of the entries m + 2^i over
/// all i whose bit isn't set in m, since each s_i has the derivative 1. It takes no memory.
///
/// Lin, Chung, Han (2014), "Novel polynomial basis and its application to Reed-Solomon erasure
/// codes".
pub fn derive<M: Factor>(shares: &mut [Share])
    requires { IsTrue (is_count (length shares.old)) }
    ensures { IsDerived M.reading shares.old shares.new }
{
    derive_halves::<M>(shares);
}
