//! Frames for people and for programs: as lines of text, and as JSON.
//!
//! Both are definitions on the value of a frame (docs/FORMATS.md); nothing is judged.
#![tactic(auto)]

mod objects;
mod text;
mod words;

pub use objects::{put_brief_json, show_json};
pub use text::{put_brief, show};
