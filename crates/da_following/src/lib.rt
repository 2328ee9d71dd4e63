//! What the command `follow` answers over the contents of its files: the blobs of namespaces from height to height,
//! complete.
//!
//! `feed_lines` has its lines, `heights` the way through the headers and answers,
//! `listed` what is read of the squares of lists of transactions.
#![tactic(auto)]

mod feed_lines;
pub mod follow;
mod heights;
mod listed;

pub use feed_lines::{place_text, text_of};
pub use follow::{feed_status, first_other, follow_laws, wanted_names};
pub use listed::listed_laws;
