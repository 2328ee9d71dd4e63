//! The fields that codewords are made in: the byte field, of 256 elements, for up to 256 shares in
//! all, and the word field, of 65,536, for more. Their elements are the binary polynomials modulo
//! x^8 + x^4 + x^3 + x^2 + 1 and modulo x^16 + x^5 + x^3 + x^2 + 1; a byte, or a number of two
//! bytes, is the label of one in a Cantor basis. The sum of two labels is their xor. `ByteFactor`
//! and `WordFactor` are labels with the tables of their products: they add multiples of one
//! share's labels to another's, and take no memory.
//!
//! Of bytes `mul` gives a product, `inv` an inverse, `mul_row` adds one multiple. `log` tells which
//! power of x a label stands for, and `exp` gives the label of a power: a product of many labels is
//! a sum of numbers. Of words `word_log` and `word_exp` do. `field_laws` says that these are fields,
//! and `power_laws` how exponents add.
//!
//! The definitions are those of docs/RULES.md, "The byte field" and "The word field".
#![tactic(auto)]

mod bytes;
mod field;
mod lanes;
mod tables;
mod word_powers;
mod word_rows;
mod words;

pub use bytes::{ByteFactor, mul_row};
pub use field::{field_laws, inv, mul};
pub use tables::{exp, log, power_laws};
pub use word_powers::{word_exp, word_log};
pub use words::WordFactor;
