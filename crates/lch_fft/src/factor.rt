//! What a transform asks of a field, and of a share.

ghost use Rattle.std.specs.Prelude.{◌≡◌, ◌<◌, ◌-◌, ℕ, bit_xor};
ghost use Rattle.gf_cantor.specs.Field.{label as label_in, power, product, size};
ghost use Rattle.gf_cantor.specs.Laws.{ArePowerLaws};
ghost use Rattle.lch_fft.specs.Readings.{LabelReading, AreReadingLaws, byte_reading, word_reading};
ghost use Rattle.lch_fft.specs.ReadingLaws.{byte_reading_laws, word_reading_laws, byte_reading_powers, word_reading_powers};

use gf_cantor::{ByteFactor, WordFactor, exp, log, word_exp, word_log};
use namespace_id::SHARE_SIZE;

/// A label of a field, made ready to multiply shares by, and with it how a share is read as labels of
/// that field, column by column: `ByteFactor` as bytes, `WordFactor` as words.
///
/// docs/RULES.md, "The code".
pub trait Factor: Drop {
    /// How shares are read.
    ghost reading: { LabelReading };

    /// The label.
    ghost label: { Self → ℕ };

    /// Makes a label ready. It takes no memory.
    fn new(by: usize) -> Self
        requires { by < size reading.field }
        ensures { label result ≡ by };

    /// How many labels but 0 there are: x to that number is 1. It takes no memory.
    fn order() -> u32
        ensures least { 0 < result }
        ensures value { result ≡ size reading.field - 1 };

    /// The exponent of the power of x that a label stands for: of a difference of two positions of a
    /// codeword. It takes no memory.
    fn exponent(of: usize) -> u32
        requires least { 0 < of }
        requires below { of < size reading.field }
        requires position { of < 1024 }
        ensures bound { result < 65535 }
        ensures power { label_in reading.field (power reading.field result) ≡ of };

    /// Makes the label of a power of x ready. It takes no memory.
    fn of_power(exponent: u32) -> Self
        ensures { label result ≡ label_in reading.field (power reading.field exponent) };

    /// Adds the product with the label in each column of `row` to the label in that column of `acc`.
    /// It takes no memory.
    fn add_multiple(&self, acc: &mut [u8; SHARE_SIZE], row: &[u8; SHARE_SIZE])
        ensures { (c : ℕ) → c < reading.columns → reading.label_at acc.new c ≡
            bit_xor (reading.label_at acc.old c)
            (product reading.field (label self.now) (reading.label_at row.now c)) };

    /// What holds of the field, and of how shares are read.
    ghost laws: { AreReadingLaws reading };

    /// What holds of the powers of x.
    ghost powers: { ArePowerLaws reading.field };
}

impl Factor for ByteFactor {
    ghost reading = { byte_reading };

    ghost label = { λ f. f };

    fn new(by: usize) -> ByteFactor {
        ByteFactor::new(by as u8)
    }

    fn order() -> u32 {
        255
    }

    fn exponent(of: usize) -> u32 {
        log(of as u8) as u32
    }

    fn of_power(exponent: u32) -> ByteFactor {
        ByteFactor::new(exp(exponent as usize % 255))
    }

    fn add_multiple(&self, acc: &mut [u8; SHARE_SIZE], row: &[u8; SHARE_SIZE]) {
        ByteFactor::add_multiple(self, acc, row);
    }

    ghost laws = { byte_reading_laws };

    ghost powers = { byte_reading_powers };
}

impl Factor for WordFactor {
    ghost reading = { word_reading };

    ghost label = { λ f. f };

    fn new(by: usize) -> WordFactor {
        WordFactor::new(by as u16)
    }

    fn order() -> u32 {
        65535
    }

    fn exponent(of: usize) -> u32 {
        word_log(of as u16) as u32
    }

    fn of_power(exponent: u32) -> WordFactor {
        WordFactor::new(word_exp((exponent % 65535) as u16))
    }

    fn add_multiple(&self, acc: &mut [u8; SHARE_SIZE], row: &[u8; SHARE_SIZE]) {
        WordFactor::add_multiple(self, acc, row);
    }

    ghost laws = { word_reading_laws };

    ghost powers = { word_reading_powers };
}
