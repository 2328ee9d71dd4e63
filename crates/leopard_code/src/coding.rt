//! The code of one axis, by transforms.
//!
//! `extend` finds the coefficients of the originals at the points k up to 2k, and evaluates them at
//! 0 up to k. Both are of one codeword, since a sum of X_j for j below k is a polynomial of k
//! coefficients (`proofs/TransformLemmas.antt`).
//!
//! `rebuild` divides a derivative. Let f be the polynomial of a column. Let L be the product of
//! x + m over the missing positions m. The values of f * L at all 2k positions are known, since L
//! is 0 at the missing ones. Its derivative, f' * L + f * L', is f * L' there, and L'(m) is the
//! product of m + n over the other missing n. That isn't 0, so a division gives f(m). The
//! derivative is one of coefficients: each s_i has the derivative 1, so that of X_j is the sum of
//! the X_m with one set bit of j taken away.
//!
//! A position is its point xor k, so over positions f has the same degree, and nothing is put in
//! the order of points. One array of 2k exponents, kept in `Room`, has L at the known positions and
//! L' at the missing ones as powers of x: products of differences are sums of exponents. So the known
//! shares alone are multiplied, and the missing ones alone divided, by the power whose exponent is a
//! whole turn less.
//!
//! Sums by Lagrange's weights would take k * k multiples of shares in place of about k * log k.

ghost use Rattle.std.specs.Prelude.{◌≡◌, ◌++◌, ◌*◌, ◌≤◌, IsTrue, length};
ghost use Rattle.gf_cantor.specs.Field.{size};
ghost use Rattle.lch_fft.specs.Transforms.{is_count};
ghost use Rattle.namespace_id.specs.Cells.{is_width};
ghost use Rattle.leopard_code.specs.Codewords.{reading_of, are_positions, IsCodeword, HasEntries};
ghost use Rattle.leopard_code.specs.Locators.{AreDerivatives};

use crate::Room;
use crate::locators::locate;
use crate::places::{clear_all, place};
use crate::scaling::{add_multiples, divide_missing};
use gf_cantor::{ByteFactor, WordFactor};
use lch_fft::{Factor, derive, forward, inverse};
use namespace_id::{Share, shares_law};

/// The greatest width whose code is over bytes: there are no more points than bytes.
const BYTE_WIDTH: u16 = 128;

/// Makes the k recovery shares of k original ones, over the field of the width. It takes no memory.
fn extend_over<M: Factor>(k: u16, originals: &[Share], recovery: &mut [Share])
    requires width { IsTrue (is_width k) }
    requires reading { M.reading ≡ reading_of k }
    requires originals { length originals.now ≡ k }
    requires recovery { length recovery.old ≡ k }
    ensures { IsCodeword k (originals.now ++ recovery.new) }
{
    shares_law(originals);
    recovery.copy_from_slice(originals);
    inverse::<M>(recovery, k);
    shares_law(recovery);
    forward::<M>(recovery, 0);
    shares_law(recovery);
}

/// Reed-Solomon encoding of one axis: makes the k recovery (parity) shares of k original ones. The
/// originals followed by them are a codeword. It takes no memory.
///
/// Celestia specifications, "Data Structures", 2D Reed-Solomon encoding scheme; docs/RULES.md, "The
/// code".
pub fn extend(room: &mut Room, originals: &[Share], recovery: &mut [Share])
    requires originals { length originals.now ≡ room.old }
    requires recovery { length recovery.old ≡ room.old }
    ensures codeword { IsCodeword room.old (originals.now ++ recovery.new) }
    ensures kept { room.new ≡ room.old }
{
    if room.k <= BYTE_WIDTH {
        extend_over::<ByteFactor>(room.k, originals, recovery);
    } else {
        extend_over::<WordFactor>(room.k, originals, recovery);
    }
}

/// From the values of polynomials at 0, 1, .. to those of their formal derivatives, over a field.
fn differentiate<M: Factor>(shares: &mut [Share])
    requires count { IsTrue (is_count (length shares.old)) }
    requires fits { length shares.old ≤ size M.reading.field }
    ensures { AreDerivatives M.reading shares.old shares.new }
{
    inverse::<M>(shares, 0);
    shares_law(shares);
    derive::<M>(shares);
    forward::<M>(shares, 0);
}

/// Makes all 2k shares of the codeword that has the k shares at the k known positions, over the field
/// of the width. The exponents are the room for a locator. It takes no memory.
fn rebuild_over<M: Factor>(
    k: u16,
    known: &[u16],
    shares: &[Share],
    exponents: &mut [u32],
    all: &mut [Share],
)
    requires width { IsTrue (is_width k) }
    requires reading { M.reading ≡ reading_of k }
    requires known { length known.now ≡ k }
    requires positions { IsTrue (are_positions k known.now) }
    requires shares { length shares.now ≡ k }
    requires exponents { length exponents.old ≡ 2 * k }
    requires all { length all.old ≡ 2 * k }
    ensures codeword { IsCodeword k all.new }
    ensures known { HasEntries known.now shares.now all.new }
{
    shares_law(shares);
    // A position is its point plus k: over positions a column is a polynomial of the same degree.
    locate::<M>(known, exponents);
    clear_all::<M>(all);
    add_multiples::<M>(known, shares, exponents, all);
    differentiate::<M>(all);
    divide_missing::<M>(known, exponents, all);
    place(known, shares, all);
    shares_law(all);
}

/// Reed-Solomon recovery of one axis: makes all 2k shares of the codeword that has the k shares at the
/// k known positions. The positions ascend, share i stands at the i-th of them, and `all` is in the
/// order of positions: k originals, then k recovery (parity) shares. It takes no memory.
///
/// Celestia specifications, "Data Structures", 2D Reed-Solomon encoding scheme; docs/RULES.md, "The
/// code".
pub fn rebuild(room: &mut Room, known: &[u16], shares: &[Share], all: &mut [Share])
    requires known { length known.now ≡ room.old }
    requires positions { IsTrue (are_positions room.old known.now) }
    requires shares { length shares.now ≡ room.old }
    requires all { length all.old ≡ 2 * room.old }
    ensures codeword { IsCodeword room.old all.new }
    ensures known { HasEntries known.now shares.now all.new }
    ensures kept { room.new ≡ room.old }
{
    if room.k <= BYTE_WIDTH {
        rebuild_over::<ByteFactor>(room.k, known, shares, &mut room.exponents, all);
    } else {
        rebuild_over::<WordFactor>(room.k, known, shares, &mut room.exponents, all);
    }
}
