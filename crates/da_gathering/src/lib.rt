//! Talks of a repair: frames that come one after another, with which a session is fed.
//!
//! A proved sample is taken without a word, any other frame is refused at once, and a frame that asks is told the missing
//! cells. The talk is over with the session: its last words are the answer, as that of `repair`.
#![tactic(auto)]

mod feeding;
mod gatherer;
mod gathering;
mod last_words;
mod laws;
mod talking;

pub use gatherer::Gatherer;
pub use gathering::gather;
pub use last_words::most_gathered;
pub use laws::gathering_laws;
