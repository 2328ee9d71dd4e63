//! The words of `da`: which are a command, with the values among them, and which of them name its files.
//!
//! `call_of` tells the command of words, exactly, and how many files it has; `file_words`, `plain_count` and
//! `name_at` tell the names of these. `Command` has a variant for each command that is run over its files,
//! `ImportForm` and `ExportForm` one for each form of Celestia's bytes. `key_in`, `number_in` and the others of
//! `values` read one word. What a command answers stands above, in `da_commands`.
#![tactic(auto)]

mod command;
mod forms;
mod values;
mod words;

pub use command::Command;
pub use forms::{ExportForm, ImportForm};
pub use values::{is_key_name, key_in, key_name, number_in};
pub use words::{Call, call_of, file_words, name_at, plain_count};
