//! Cells that a key draws, and blocks that a number makes: what a light node asks for, and what a
//! trial of the whole core works on.
//!
//! Both are made of the key stream of ChaCha20. That nobody can tell its words beforehand is not
//! stated anywhere: a key draws the same cells each time.
#![tactic(auto)]

mod draws;
mod generating;
mod taken;
mod words;

pub use draws::{DrawError, cells, draw_laws};
pub use generating::block;
