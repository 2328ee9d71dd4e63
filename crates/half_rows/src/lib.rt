//! The samples of a row of an extended data square, made of one half of the row: of its original shares, or of its recovery
//! shares.
//!
//! A half is all that a node sends of a row; it has no proof. `row_samples` makes the other half by the erasure code, and the
//! row's tree, of which each sample has its nodes. Whether the row is that of a header is for the check of its samples.
#![tactic(auto)]

mod lines;
mod samples;

pub use samples::{RowError, RowSamples, row_laws, row_samples};
