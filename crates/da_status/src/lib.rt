//! How a run ends: its status, the line that goes with it, and what a command leaves of its output.
//!
//! `specs/Statuses.antt` has the table of statuses. `specs/Outcome.antt` says what a status tells of
//! the output, for any relation of outputs and statuses: a command's contract is `Ends` at its own.
//! The number and the line of a status are `Status::number` and `note`.
#![tactic(auto)]

mod line;
mod notes;
mod status;

pub use line::Line;
pub use notes::{around, axis_note, join_number, join_share, note};
pub use status::{Asked, Status};
