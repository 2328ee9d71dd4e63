//! Products of bytes, inverses, and the laws of both fields.

ghost use Rattle.std.specs.Prelude.{◌≡◌, ◌<◌, ◌/◌, ℕ, bit_xor};
ghost use Rattle.gf_cantor.specs.Field.{element, times, product, byte_field, word_field};
ghost use Rattle.gf_cantor.specs.Laws.{AreFieldLaws};

use crate::tables::{exp, log};

/// The product of two labels: the label whose element is the product of their elements. It takes no
/// memory.
///
/// docs/RULES.md, "The byte field" (profile, in the manner of Leopard's 8-bit field).
pub fn mul(a: u8, b: u8) -> u8
    ensures { result ≡ product byte_field a b }
{
    if a == 0 || b == 0 {
        0
    } else {
        exp(log(a) + log(b))
    }
}

/// The inverse of a label that isn't 0: the label whose product with it is 1. `field_laws` says
/// that there is no other. It takes no memory.
///
/// docs/RULES.md, "The byte field" (profile, in the manner of Leopard's 8-bit field).
pub fn inv(a: u8) -> u8
    requires { 0 < a }
    ensures { product byte_field a result ≡ 1 }
{
    exp(255 - log(a))
}

/// The bytes are a field, with xor as the sum and `product` as the product, and so, by `words`, are
/// the numbers below 65,536. A law that names no bound holds of all numbers: one above 255 counts
/// as the label of its lowest 8 bits. It does nothing, and takes no memory.
///
/// docs/RULES.md, "The byte field" and "The word field" (profile, in the manner of Leopard's fields
/// of 8 and of 16 bits).
pub fn field_laws()
    // What a product is: a label below 256 is told by its element.
    ensures product_element { (a b : ℕ) → element byte_field (product byte_field a b) ≡
        times byte_field (element byte_field a) (element byte_field b) }
    ensures same_element { (a b : ℕ) → a < 256 → b < 256 →
        element byte_field a ≡ element byte_field b → a ≡ b }
    ensures closed { (a b : ℕ) → product byte_field a b < 256 }

    // A field.
    ensures commutative { (a b : ℕ) → product byte_field a b ≡ product byte_field b a }
    ensures associative { (a b c : ℕ) → product byte_field (product byte_field a b) c ≡
        product byte_field a (product byte_field b c) }
    ensures distributive { (a b c : ℕ) → product byte_field a (bit_xor b c) ≡
        bit_xor (product byte_field a b) (product byte_field a c) }
    ensures zero { (a : ℕ) → product byte_field 0 a ≡ 0 }
    ensures one { (a : ℕ) → a < 256 → product byte_field 1 a ≡ a }
    ensures inverse { (a : ℕ) → 0 < a → a < 256 →
        (b : ℕ) × (b < 256) × (product byte_field a b ≡ 1) }
    ensures only_inverse { (a b c : ℕ) → b < 256 → c < 256 →
        product byte_field a b ≡ 1 → product byte_field a c ≡ 1 → b ≡ c }
    ensures zero_factor { (a b : ℕ) → 0 < a → a < 256 → b < 256 →
        product byte_field a b ≡ 0 → b ≡ 0 }
    ensures cancellation { (a b c : ℕ) → 0 < a → a < 256 → b < 256 → c < 256 →
        product byte_field a b ≡ product byte_field a c → b ≡ c }

    // The basis is a Cantor basis: a label's square and the label itself sum to the label at half.
    ensures cantor { (a : ℕ) → a < 256 → bit_xor (product byte_field a a) a ≡ a / 2 }

    // The same in one fact, of bytes and of words.
    ensures bytes { AreFieldLaws byte_field }
    ensures words { AreFieldLaws word_field }
{}
