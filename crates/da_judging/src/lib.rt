//! What the commands of `da` that judge answer over the contents of their files: samples, claims, answers and
//! data roots under a header, and light runs.
//!
//! A command is a file of its own here and in `specs/`. `forms` has the shape of files with an answer; the others
//! are those of `da_files`. `repair` has what is written for a verdict, since its second file is read two crates
//! above.
#![tactic(auto)]

mod ahead;
mod answers;
pub mod check;
pub mod compact;
mod forms;
mod keys;
pub mod light;
mod repair;
pub mod root;
pub mod verify;

pub use answers::{Answer, Request, is_answer_to};
pub use check::Finding;
pub use keys::read_key;
pub use repair::give_verdict;
pub use verify::{answer_in, check_number, refusal_for, refusal_of, request_in, states_commitment};
