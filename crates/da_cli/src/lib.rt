//! The top call of `da`: words and files in; an output, a status and a note out.
//!
//! `run` picks and reads the files of a command and gives the line of its status, in one way for
//! every command; which words are a command says `da_words`, what each writes `da_commands`. `repair` alone is fed as its second
//! file is read, by `feed_all`. `run_laws` says what belongs to a run.
#![tactic(auto)]

mod feeding;
mod files;
mod laws;
mod passes;
mod repair;
mod running;

pub use da_status::{Asked, Status};
pub use da_words::{is_key_name, key_in, key_name, number_in};
pub use feeding::{FeedFault, feed_all};
pub use files::FILE_LIMIT;
pub use laws::run_laws;
pub use passes::STREAM_LIMIT;
pub use running::run;
