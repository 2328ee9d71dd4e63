//! The frames that `da` reads and writes: one spelling for each value.
//!
//! A reader answers Ok exactly where the bytes at the front spell the value, and otherwise the first
//! refusal of the stated order. A writer appends the one spelling.
#![tactic(auto)]

mod bounds;
mod briefs;
mod frames;
mod kinds;
mod laws;
mod reading;
mod single;
mod streams;
mod writing;

pub use bounds::frame_law;
pub use briefs::{Brief, next_brief};
pub use frame_payloads::{
    EntryPlace, FoundPlace, MAX_PAYLOAD, PlaceList, Reason, Refusal, UnitList, claim,
};
pub use frames::{Frame, FrameError, RawFrame, SpellError};
pub use laws::{limit_laws, stream_laws, value_laws, wire_laws};
pub use reading::{bad_frame, bad_value, next_frame, next_value, raw, read_frame, read_only};
pub use single::{
    next_request, next_sample, read_block, read_claim, read_header, read_message, read_missing,
    read_square,
};
pub use streams::{FrameStream, Pushed};
pub use writing::{write_frame, write_proof};
