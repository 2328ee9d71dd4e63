//! Words that are values.

ghost use Rattle.std.specs.Prelude.{◌≡◌, IfSome, true};
ghost use Rattle.da_words.specs.Commands.{is_trial_width};
ghost use Rattle.da_words.specs.Values.{is_digit, digits_in, number_in, key_in, is_key_name, key_name, width_in, axis_in, word_place, height_in, word_name, square_width_in};

use hex::FromHex;
use namespace_id::{Axis, GREATEST_WIDTH, NAMESPACE_SIZE, Namespace, is_width};

/// Whether a byte is a decimal digit.
fn is_digit(byte: u8) -> bool
    ensures { result ≡ is_digit byte }
{
    byte >= b'0' && byte <= b'9'
}

/// The number that decimal digits make; none where a byte is none, or the number is above `most`.
fn digits_value(digits: &[u8], most: u64) -> Option<u64>
    ensures { result ≡ digits_in most digits.now }
{
    let mut value = 0u64;
    let mut rest = digits;
    while let Some((digit, after)) = rest.split_first() {
        if !is_digit(*digit) {
            return None;
        }
        let next = 10 * u128::from(value) + u128::from(*digit - b'0');
        if next > u128::from(most) {
            return None;
        }
        value = next as u64;
        rest = after;
    }
    Some(value)
}

/// The number that a word is: decimal digits without a leading zero, or 0. None where it is none, or
/// is above `most`.
pub fn number_in(word: &str, most: u64) -> Option<u64>
    ensures { result ≡ number_in most word.now }
{
    let digits = word.as_bytes();
    if digits.is_empty() || (digits[0] == b'0' && digits.len() > 1) {
        return None;
    }
    digits_value(digits, most)
}

/// The key that a word is: 64 hexadecimal digits of either case.
pub fn key_in(word: &str) -> Option<[u8; 32]>
    ensures { result ≡ key_in word.now }
{
    <[u8; 32]>::from_hex(word).ok()
}

/// Whether a word in the place of KEY names a file: an `@`, and the name behind it.
pub fn is_key_name(word: &str) -> bool
    ensures { result ≡ is_key_name word.now }
{
    let bytes = word.as_bytes();
    bytes.len() > 1 && bytes[0] == b'@'
}

/// The name of the file that such a word names.
pub fn key_name(word: &str) -> &str
    ensures { result.now ≡ key_name word.now }
{
    match word.strip_prefix('@') {
        Some(name) => name,
        None => word,
    }
}

/// The width of a trial that a word is: a width from 2 on.
pub(crate) fn width_in(word: &str) -> Option<u16>
    ensures value { result ≡ width_in word.now }
    ensures width { IfSome result (λ k. is_trial_width k ≡ true) }
{
    let k = number_in(word, u64::from(GREATEST_WIDTH))? as u16;
    if is_width(k) && k >= 2 { Some(k) } else { None }
}

/// The axis that a word is: `row` or `col`.
pub(crate) fn axis_in(word: &str) -> Option<Axis>
    ensures { result ≡ axis_in word.now }
{
    if word == "row" {
        return Some(Axis::Row);
    }
    if word == "col" {
        return Some(Axis::Col);
    }
    None
}

/// The row or the column that a word is.
pub(crate) fn place_in(word: &str) -> Option<u16>
    ensures { result ≡ word_place word.now }
{
    let place = number_in(word, u64::from(u16::MAX))?;
    Some(place as u16)
}

/// The height that a word is: a number from 1 on.
pub(crate) fn height_in(word: &str) -> Option<u64>
    ensures { result ≡ height_in word.now }
{
    let height = number_in(word, u64::MAX)?;
    if height >= 1 { Some(height) } else { None }
}

/// The namespace that a word is: 58 hexadecimal digits of either case.
pub(crate) fn name_in(word: &str) -> Option<Namespace>
    ensures { result ≡ word_name word.now }
{
    let bytes = <[u8; NAMESPACE_SIZE]>::from_hex(word).ok()?;
    Some(Namespace(bytes))
}

/// The width of a square that a word is.
pub(crate) fn square_width_in(word: &str) -> Option<u16>
    ensures { result ≡ square_width_in word.now }
{
    let k = number_in(word, u64::from(GREATEST_WIDTH))? as u16;
    if is_width(k) { Some(k) } else { None }
}
