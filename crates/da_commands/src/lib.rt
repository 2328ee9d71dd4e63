//! The commands of `da` over the contents of their files: an output and a status.
//!
//! A command is a case of `Command`, of `Meaning` and of `execute`. `show`, `json`, `net`, `demo`, `cells`, `help`
//! and `version` stand here, each with a file of its own here and in `specs/`; the others are those of
//! `da_serving`, `da_judging`, `da_following` and `da_exchanging`.
#![tactic(auto)]

mod cells;
mod command;
mod demo;
mod help;
mod laws;
mod net;
mod show;

pub use command::execute;
pub use da_files::{Unread, header_in, message_in, square_in};
pub use da_following::follow_laws;
pub use da_judging::{
    Answer, Finding, Request, answer_in, check_number, give_verdict, is_answer_to, refusal_for,
    refusal_of, request_in,
};
pub use da_serving::{blobs_laws, header_frame};
pub use da_words::{Command, ExportForm, ImportForm};
pub use laws::answering_laws;
