//! The top call of the commands that stay: words, a file and a talk in; replies, a status and a note out.
//!
//! `run` of `da_cli` has read all files of a command before its output begins. A talk is heard and answered piece by piece, so
//! these commands have a call of their own, `converse`, and what `run` promises stays as it is.
#![tactic(auto)]

mod attending;
mod conversing;
mod gathering;
mod holding;
mod laws;
mod reading;
mod squares;
mod talking;
mod tellings;
mod watching;
mod words;

pub use conversing::converse;
pub use laws::reply_laws;
pub use words::is_talk;
