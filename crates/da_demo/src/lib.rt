//! A trial of the whole core by a number: a block is made, laid out and extended; half of its cells
//! are lent among lies, and the square is repaired; a share is spoiled behind a header of its own,
//! and what repair says to that is verified.
#![tactic(auto)]

mod gathering;
mod outcomes;
mod sessions;
mod telling;
mod trials;

pub use outcomes::{Outcome, Trial, Upheld};
pub use trials::trial;
