//! What the commands of `da` that make and serve answer over the contents of their files: squares, headers,
//! commitments and blobs, the samples and shares that are asked for, proofs, and requests.
//!
//! A command is a file of its own here and in `specs/`. The forms of its files are those of `da_files`. Requests over a
//! square are answered by the one walk of `serving`; samples and root proofs are made from an `extension`.
#![tactic(auto)]

pub mod blobs;
pub mod build;
pub mod commit;
mod extension;
pub mod find;
pub mod header;
pub mod namespace;
pub mod prove;
pub mod sample;
mod serving;
mod stated;
pub mod transactions;
pub mod wanted;

pub use blobs::blobs_laws;
pub use header::header_frame;
pub use stated::stated_laws;
