//! A line of text with numbers, put together without memory.

ghost use Rattle.std.specs.Prelude.{◌≡◌, ℕ, ◌+◌, ◌≤◌, [], ◌++◌, length, decimal};

use std::marker::Model;

/// A line of at most 96 bytes, which contracts see as the list of its bytes. It takes no memory.
#[derive(Drop)]
pub struct Line {
    bytes: [u8; 96],
    len: usize,
}

impl Model for Line {
    ghost use Rattle.std.specs.Prelude.{ℕ, List, ◌≤◌, take};

    ghost Value = { List ℕ };

    ghost view = { λ line. take line.len line.bytes };

    ghost invariant = { λ line. line.len ≤ 96 };
}

impl Line {
    /// The empty line.
    pub fn new() -> Line
        ensures { result ≡ [] }
    {
        Line {
            bytes: [0; 96],
            len: 0,
        }
    }

    /// Puts a text that fits in the line.
    pub fn put(&mut self, text: &[u8])
        requires { length self.old + length text.now ≤ 96 }
        ensures { self.new ≡ self.old ++ text.now }
    {
        self.bytes[self.len..self.len + text.len()].copy_from_slice(text);
        self.len += text.len();
    }

    /// Puts a number in decimal digits, which fit in the line.
    #[tactic(auto, using(crate::proofs::DigitLemmas::digits_room, std::proofs::lemmas::Fmt::decimal_step, std::proofs::lemmas::Fmt::decimal_digit))]
    pub fn put_number(&mut self, number: u64)
        requires { length self.old + length (decimal number) ≤ 96 }
        ensures { self.new ≡ self.old ++ decimal number }
    {
        if number < 10 {
            self.put(&[48 + number as u8]);
            return;
        }
        self.put_number(number / 10);
        self.put(&[48 + (number % 10) as u8]);
    }

    /// The bytes that were put.
    pub fn as_bytes(&self) -> &[u8]
        ensures { result.now ≡ self.now }
    {
        &self.bytes[..self.len]
    }
}
