//! Multiples of the words of a share.

ghost use Rattle.std.specs.Prelude.{◌≡◌, ◌<◌, ◌≤◌, ◌+◌, ◌*◌, ◌/◌, ◌%◌, ℕ, bit_xor, slice_index};
ghost use Rattle.gf_cantor.specs.Field.{product, word_field};
ghost use Rattle.gf_cantor.specs.Words.{word};

use crate::lanes::{add, by_halves, load};
use crate::word_rows::products;
use std::marker::Model;
use std::simd::u8x32;

/// For each lane the sum of the four entries at the halves of a lower and a higher byte, of the
/// tables from `at` on.
#[inline(always)]
fn look_up(tables: &[u8; 128], at: usize, low: u8x32, high: u8x32) -> u8x32
    requires { at + 64 ≤ 128 }
    ensures { (k : ℕ) → k < 32 →
        slice_index result k ≡
        bit_xor (bit_xor (slice_index tables.now (at + slice_index low k % 16))
        (slice_index tables.now (at + 16 + slice_index low k / 16)))
        (bit_xor (slice_index tables.now (at + 32 + slice_index high k % 16))
        (slice_index tables.now (at + 32 + 16 + slice_index high k / 16))) }
{
    by_halves(tables, at, tables, at + 16, low)
        ^ by_halves(tables, at + 32, tables, at + 32 + 16, high)
}

/// A word as a factor, with the tables of its products. Contracts see it as the word.
#[derive(Drop)]
pub struct WordFactor {
    by: u16,
    tables: [u8; 128],
}

impl Model for WordFactor {
    ghost use Rattle.std.specs.Prelude.{◌≡◌, ◌<◌, ℕ, slice_index};
    ghost use Rattle.gf_cantor.specs.Tables.{table_entry};

    ghost Value = { ℕ };

    ghost view = { λ f. f.by };

    ghost invariant = { λ f. (i : ℕ) → i < 128 → slice_index f.tables i ≡ table_entry i f.by };
}

impl WordFactor {
    /// The factor with its tables. It takes no memory.
    pub fn new(by: u16) -> WordFactor
        ensures { result ≡ by }
    {
        WordFactor {
            by,
            tables: products(by),
        }
    }

    /// The product with a word. It takes no memory.
    ///
    /// docs/RULES.md, "The word field" (profile, in the manner of Leopard's 16-bit field).
    pub fn times(&self, a: u16) -> u16
        ensures { result ≡ product word_field self.now a }
    {
        let low = (a % 256) as usize;
        let high = (a / 256) as usize;
        let t = &self.tables;
        let first = t[low % 16] ^ t[16 + low / 16] ^ (t[32 + high % 16] ^ t[48 + high / 16]);
        let second = t[64 + low % 16] ^ t[80 + low / 16] ^ (t[96 + high % 16] ^ t[112 + high / 16]);
        first as u16 + 256 * second as u16
    }

    /// Adds the products with the 32 words of a block of a share, from `at` on, to those of another.
    #[inline(always)]
    fn add_block(&self, acc: &mut [u8; 512], row: &[u8; 512], at: usize)
        requires { at + 64 ≤ 512 }
        ensures low { (k : ℕ) → k < 32 → slice_index acc.new (at + k) ≡
            bit_xor (slice_index acc.old (at + k))
            (product word_field self.now
            (slice_index row.now (at + k) + 256 * slice_index row.now (at + 32 + k)) % 256) }
        ensures high { (k : ℕ) → k < 32 → slice_index acc.new (at + 32 + k) ≡
            bit_xor (slice_index acc.old (at + 32 + k))
            (product word_field self.now
            (slice_index row.now (at + k) + 256 * slice_index row.now (at + 32 + k)) / 256) }
        ensures before { (k : ℕ) → k < at → slice_index acc.new k ≡ slice_index acc.old k }
        ensures behind { (k : ℕ) → at + 64 ≤ k → slice_index acc.new k ≡ slice_index acc.old k }
    {
        let low = load(row, at);
        let high = load(row, at + 32);
        add(acc, at, look_up(&self.tables, 0, low, high));
        add(acc, at + 32, look_up(&self.tables, 64, low, high));
    }

    /// Adds the products, 32 words at a time.
    fn add_products(&self, acc: &mut [u8; 512], row: &[u8; 512])
        ensures { (i : ℕ) → i < 256 → word acc.new i ≡
            bit_xor (word acc.old i) (product word_field self.now (word row.now i)) }
    {
        for b in 0..8 {
            self.add_block(acc, row, 64 * b);
        }
    }

    /// Adds the product with each word of `row` to the word of `acc` at its place: nothing where the
    /// factor is 0, as in the first block of each stage of a transform at 0. It takes no memory.
    ///
    /// docs/RULES.md, "The word field" (profile, in the manner of Leopard's 16-bit field).
    pub fn add_multiple(&self, acc: &mut [u8; 512], row: &[u8; 512])
        ensures { (i : ℕ) → i < 256 → word acc.new i ≡
            bit_xor (word acc.old i) (product word_field self.now (word row.now i)) }
    {
        if self.by != 0 {
            self.add_products(acc, row);
        }
    }
}
