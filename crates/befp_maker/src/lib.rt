//! What k proved cells of a row or a column say of the rest of it: that it matches the header, or a fraud
//! proof; and what a share against a line says that matches: a fraud proof, or a SHA-256 collision.
//!
//! `AxisRoom` has the buffers for one axis, and makes the proved samples of a line that matches.
//! `from_half` decides an axis, `from_conflict` takes a share against one that was decided.
#![tactic(auto)]

mod conflicts;
mod halves;
mod rooms;

pub use conflicts::from_conflict;
pub use halves::{Decided, from_half};
pub use rooms::AxisRoom;
