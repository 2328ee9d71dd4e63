//! SHA-256 of eight messages of one size side by side (the field's "multi-buffer SHA-256").
//!
//! Each word of the hash function's state is a vector with one lane for each message, so one step works on
//! all eight. The digests are those that the crate `sha2` defines, which hashes single messages. The standard's
//! functions are taken in the shorter forms that `sha2` has, lane by lane, but for Ch.
#![tactic(auto)]

mod constants;
mod hashing;
mod lanes;
mod rounds;

pub use hashing::{LANES, digests};
