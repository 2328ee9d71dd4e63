//! The transforms, by halves.
//!
//! Points are labels, and a label is a vector of bits. So the polynomials s_i with s_0(x) = x and
//! s_(i+1) = s_i^2 + s_i are linear over xor, and over the Cantor basis s_i shifts a label right by
//! i places. X_j is the product of the s_i over the set bits of j, of degree j: the X_j below n
//! span the polynomials of n coefficients.
//!
//! A sum of d_j * X_j over 2m coefficients, m being 2^b, is on a block of 2m points the sum over
//! the lower half plus s_b times the one over the upper half. s_b takes one value on each half of
//! the block, and the two differ by 1. That is one butterfly for each pair of shares. `forward`
//! goes on in both halves, `inverse` undoes it from below. Of n shares about n / 2 * log n
//! multiples are taken, where a sum for each point would take n * n.

ghost use Rattle.std.specs.Prelude.{◌≡◌, ◌+◌, ◌/◌, ◌%◌, ◌^◌, ◌<◌, ◌≤◌, ℕ, List, IsTrue, length};
ghost use Rattle.gf_cantor.specs.Field.{size};
ghost use Rattle.namespace_id.specs.Shares.{AreShares};
ghost use Rattle.namespace_id.specs.declared.shares.Share.{Share as ShareValue};
ghost use Rattle.lch_fft.specs.Readings.{AreReadingLaws};
ghost use Rattle.lch_fft.specs.Transforms.{column, subspace, is_count, Evaluates};
ghost use Rattle.lch_fft.specs.Butterflies.{spread, gather, transform_halvings};
ghost use Rattle.lch_fft.specs.Laws.{OneListOfCoefficients};

use crate::butterflies::{gather_stage, spread_stage};
use crate::factor::Factor;
use namespace_id::{Share, shares_law};

/// From coefficients to values, by halves: a stage of butterflies, and then each half apart.
fn spread_halves<M: Factor>(shares: &mut [Share], shift: usize)
    requires count { IsTrue (is_count (length shares.old)) }
    requires fits { shift + length shares.old ≤ size M.reading.field }
    requires small { shift + length shares.old < 2 ^ 17 }
    ensures { (c : ℕ) → c < M.reading.columns → column M.reading c shares.new ≡ spread M.reading.field
        (transform_halvings (length shares.old)) (column M.reading c shares.old) shift }
{
    let half = shares.len() / 2;
    if half > 0 {
        let (low, high) = shares.split_at_mut(half);
        spread_stage::<M>(low, high, shift / half);
        spread_halves::<M>(low, shift);
        spread_halves::<M>(high, shift + half);
    }
}

/// From values to coefficients, by halves: each half apart, and then the stage undone.
fn gather_halves<M: Factor>(shares: &mut [Share], shift: usize)
    requires count { IsTrue (is_count (length shares.old)) }
    requires fits { shift + length shares.old ≤ size M.reading.field }
    requires small { shift + length shares.old < 2 ^ 17 }
    ensures { (c : ℕ) → c < M.reading.columns → column M.reading c shares.new ≡ gather M.reading.field
        (transform_halvings (length shares.old)) (column M.reading c shares.old) shift }
{
    let half = shares.len() / 2;
    if half > 0 {
        let (low, high) = shares.split_at_mut(half);
        gather_halves::<M>(low, shift);
        gather_halves::<M>(high, shift + half);
        gather_stage::<M>(low, high, shift / half);
    }
}

/// Evaluates: entry j held the coefficient of X_j, and afterwards entry i holds the sum of all
/// multiples of the X_j at the point `shift + i`. It takes no memory.
///
/// Lin, Chung, Han (2014), "Novel polynomial basis and its application to Reed-Solomon erasure
/// codes".
pub fn forward<M: Factor>(shares: &mut [Share], shift: u16)
    requires count { IsTrue (is_count (length shares.old)) }
    requires block { shift % length shares.old ≡ 0 }
    requires fits { shift + length shares.old ≤ size M.reading.field }
    ensures { Evaluates M.reading shift shares.old shares.new }
{
    shares_law(shares);
    spread_halves::<M>(shares, shift as usize);
}

/// Undoes `forward`: entry i held the value at the point `shift + i`, and afterwards entry j holds
/// the coefficient of X_j. No other coefficients have these values. It takes no memory.
///
/// Lin, Chung, Han (2014), "Novel polynomial basis and its application to Reed-Solomon erasure
/// codes".
pub fn inverse<M: Factor>(shares: &mut [Share], shift: u16)
    requires count { IsTrue (is_count (length shares.old)) }
    requires block { shift % length shares.old ≡ 0 }
    requires fits { shift + length shares.old ≤ size M.reading.field }
    ensures evaluates { Evaluates M.reading shift shares.new shares.old }
    ensures undoes { (coefficients : List ShareValue) → AreShares coefficients →
        Evaluates M.reading shift coefficients shares.old → shares.new ≡ coefficients }
{
    shares_law(shares);
    gather_halves::<M>(shares, shift as usize);
    shares_law(shares);
}

/// What the polynomials of the transforms are: s_i shifts a label right by i places. Coefficients
/// have one list of values at a block of points, and values one list of coefficients. Labels are a
/// field, and a share is told by them. It does nothing, and takes no memory.
pub fn transform_laws<M: Factor>()
    ensures shifts { (i x : ℕ) → x < size M.reading.field →
        subspace M.reading.field i x ≡ x / 2 ^ i }
    ensures only_values { (shift : ℕ) (coefficients values others : List ShareValue) →
        AreShares values → AreShares others → Evaluates M.reading shift coefficients values →
        Evaluates M.reading shift coefficients others → values ≡ others }
    ensures only_coefficients { OneListOfCoefficients M.reading }
    ensures laws { AreReadingLaws M.reading }
{}
