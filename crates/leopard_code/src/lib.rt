//! The erasure code of one axis: k original shares and k recovery shares are a codeword, and any k
//! of its 2k entries determine the rest.
//!
//! Each column of labels of a codeword is a polynomial of k coefficients: over the byte field a byte
//! column, up to width 128, and above, up to width 512, over the word field. The calls go by additive
//! transforms, about k * log k products of a share and a label for one axis; `rebuild`
//! multiplies by the locator of the missing positions and divides its formal derivative by the
//! locator's. docs/RULES.md, "The code", has the definition.
#![tactic(auto)]

mod coding;
mod laws;
mod locators;
mod places;
mod positions;
mod room;
mod scaling;

pub use coding::{extend, rebuild};
pub use laws::code_laws;
pub use positions::are_positions;
pub use room::Room;
