//! Talks: frames that come one after another, each replied to before more bytes are waited for.
//!
//! A process that holds a square answers over two pipes as long as its client likes. What it does stands in one
//! list of events, so that a contract can say in which order it hears and says. There is one loop, `talk`, over
//! whatever replies to frames; a held square is one that does.
#![tactic(auto)]

mod asking;
mod ended;
mod frames;
mod handed;
mod holding;
mod laws;
mod line;
mod logged;
mod names;
mod pipe;
mod reasons;
mod replies;
mod room;
mod talk_end;
mod talker;
mod talking;

pub use asking::{Asked, asks_for};
pub use ended::Ended;
pub use frames::{
    REFUSAL_FRAME_SIZE, most_missing, put_head, put_missing_frame, put_refusal_frame,
    put_state_frame,
};
pub use handed::{asks_state, sample_in};
pub use holding::hold;
pub use laws::talk_laws;
pub use line::Line;
pub use logged::{Happened, Logged};
pub use pipe::Pipe;
pub use reasons::sample_reason;
pub use replies::most_reply;
pub use talk_end::TalkEnd;
pub use talker::{Talker, Turn};
pub use talking::talk;
