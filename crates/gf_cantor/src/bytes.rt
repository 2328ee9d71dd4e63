//! Multiples of the bytes of a share.

ghost use Rattle.std.specs.Prelude.{◌≡◌, ◌<◌, ◌≤◌, ◌+◌, ◌*◌, ℕ, [], ◌∷◌, bit_xor, slice_index};
ghost use Rattle.gf_cantor.specs.Field.{combine, product, byte_field};

use crate::field::mul;
use crate::lanes::{add, by_halves, load};
use std::marker::Model;

/// The sums of four parts: entry `n` is the sum of those that the set bits of `n` pick, the lowest
/// bit for the first. It takes no memory.
fn sums(one: u8, two: u8, four: u8, eight: u8) -> [u8; 16]
    ensures { (n : ℕ) → n < 16 →
        slice_index result n ≡ combine (one ∷ two ∷ four ∷ eight ∷ []) n }
{
    let three = one ^ two;
    let twelve = four ^ eight;
    [
        0,
        one,
        two,
        three,
        four,
        one ^ four,
        two ^ four,
        three ^ four,
        eight,
        one ^ eight,
        two ^ eight,
        three ^ eight,
        twelve,
        one ^ twelve,
        two ^ twelve,
        three ^ twelve,
    ]
}

/// The products of `by` with 0, 1, 2, .., 15: the factors are the sums of 1, 2, 4 and 8, and so their
/// products are the sums of those four products. It takes no memory.
fn low_products(by: u8) -> [u8; 16]
    ensures { (n : ℕ) → n < 16 → slice_index result n ≡ product byte_field by n }
{
    sums(mul(by, 1), mul(by, 2), mul(by, 4), mul(by, 8))
}

/// The products of `by` with 0, 16, 32, .., 240, in the same manner. It takes no memory.
fn high_products(by: u8) -> [u8; 16]
    ensures { (n : ℕ) → n < 16 → slice_index result n ≡ product byte_field by (16 * n) }
{
    sums(mul(by, 16), mul(by, 32), mul(by, 64), mul(by, 128))
}

/// A byte as a factor, with the tables of its products. Contracts see it as the byte.
#[derive(Drop)]
pub struct ByteFactor {
    by: u8,
    low: [u8; 16],
    high: [u8; 16],
}

impl Model for ByteFactor {
    ghost use Rattle.std.specs.Prelude.{ℕ};
    ghost use Rattle.gf_cantor.specs.Tables.{AreByteTables};

    ghost Value = { ℕ };

    ghost view = { λ f. f.by };

    ghost invariant = { λ f. AreByteTables f.by f.low f.high };
}

impl ByteFactor {
    /// The factor with its tables. It takes no memory.
    pub fn new(by: u8) -> ByteFactor
        ensures { result ≡ by }
    {
        ByteFactor {
            by,
            low: low_products(by),
            high: high_products(by),
        }
    }

    /// Adds the products with 32 bytes, from `at` on: a byte is the sum of its low four bits and its high
    /// four bits, so its product is the sum of an entry of each table.
    #[inline(always)]
    fn add_lanes(&self, acc: &mut [u8; 512], row: &[u8; 512], at: usize)
        requires { at + 32 ≤ 512 }
        ensures sums { (k : ℕ) → k < 32 → slice_index acc.new (at + k) ≡
            bit_xor (slice_index acc.old (at + k))
            (product byte_field self.now (slice_index row.now (at + k))) }
        ensures before { (k : ℕ) → k < at → slice_index acc.new k ≡ slice_index acc.old k }
        ensures behind { (k : ℕ) → at + 32 ≤ k → slice_index acc.new k ≡ slice_index acc.old k }
    {
        let lanes = load(row, at);
        add(acc, at, by_halves(&self.low, 0, &self.high, 0, lanes));
    }

    /// Adds the products, 64 bytes a turn. The tables are copied first, so that they stay in registers
    /// while the shares are written.
    fn add_products(&self, acc: &mut [u8; 512], row: &[u8; 512])
        ensures { (i : ℕ) → i < 512 → slice_index acc.new i ≡
            bit_xor (slice_index acc.old i) (product byte_field self.now (slice_index row.now i)) }
    {
        let factor = ByteFactor {
            by: self.by,
            low: self.low,
            high: self.high,
        };
        for i in 0..8 {
            factor.add_lanes(acc, row, 64 * i);
            factor.add_lanes(acc, row, 64 * i + 32);
        }
    }

    /// Adds the product with each byte of `row` to the byte of `acc` at its place: nothing where the
    /// factor is 0, as in the first block of each stage of a transform at 0. It takes no memory.
    ///
    /// docs/RULES.md, "The byte field" (profile, in the manner of Leopard's 8-bit field).
    pub fn add_multiple(&self, acc: &mut [u8; 512], row: &[u8; 512])
        ensures { (i : ℕ) → i < 512 → slice_index acc.new i ≡
            bit_xor (slice_index acc.old i) (product byte_field self.now (slice_index row.now i)) }
    {
        if self.by != 0 {
            self.add_products(acc, row);
        }
    }
}

/// Adds `by` times each byte of `row` to the byte of `acc` at its place: one term of a weighted sum
/// of shares, 512 being the length of a share. It takes no memory.
///
/// docs/RULES.md, "The byte field" (profile, in the manner of Leopard's 8-bit field).
pub fn mul_row(acc: &mut [u8; 512], row: &[u8; 512], by: u8)
    ensures { (i : ℕ) → i < 512 →
        slice_index acc.new i ≡
        bit_xor (slice_index acc.old i) (product byte_field by (slice_index row.now i)) }
{
    ByteFactor::new(by).add_multiple(acc, row);
}
