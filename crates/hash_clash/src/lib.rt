//! SHA-256 collisions that two openings, or two lists of leaves, with one root name.
//!
//! `Clash` is the certificate: a value of it is two different strings with one digest. Where an
//! opening or a list contradicts a root that another list has, a collision is the only reason, and
//! the calls of `finding` name it. They hash anew, and take no memory.
#![tactic(auto)]

mod clashes;
mod finding;
mod openings;
mod preimages;
mod sides;

pub use clashes::Clash;
pub use finding::{clash_between, clash_leaves, clash_path_leaves, clash_paths};
pub use openings::Opening;
pub use preimages::Preimage;
