//! Watching: a sampling light node that is fed the frames of a talk, and tells lies, its state and its verdict.
//!
//! A talk over a watcher ends with the bytes, or with the first fraud claim that is accepted under the header. Its last words
//! are the verdict over all frames, as the command `light` gives it.
#![tactic(auto)]

mod handed;
mod laws;
mod saying;
mod sizes;
mod watchers;
mod watching;

pub use laws::watch_laws;
pub use sizes::{MOST_CLAIM, most_said};
pub use watchers::Watcher;
pub use watching::watch;
