//! `da` for C, and for each language that can call C: exports over byte slices that are frames.
//!
//! Each export is a call of a crate below, with that call's clauses stated of the bytes. `include/da.h`
//! declares them, and says what a caller has to keep to; docs/C.md says how to build and call them.
#![tactic(auto)]

mod exports;
mod judging;
mod replies;
mod writing;

pub use exports::{da_check, da_data_root, da_header, da_holds, da_verify};
pub use replies::Detail;
