//! Inputs and sinks whose failures are counted.
//!
//! A call over them answers a failed pick, read or write only where the count of failures of what
//! it was lent rose. Those in memory tell their bytes to contracts, and fail where they are told
//! to; those over real files and streams tell nothing of content.
#![tactic(auto)]

mod blocking;
mod file_inputs;
mod inputs;
mod line_room;
mod mem_inputs;
mod mem_sink;
mod out_sink;
mod sink;
mod whole;

pub use blocking::Blocking;
pub use file_inputs::{FileInputs, is_standard_input};
pub use inputs::{Inputs, LastCall, PickFailed, ReadFailed};
pub use line_room::LineRoom;
pub use mem_inputs::MemInputs;
pub use mem_sink::MemSink;
pub use out_sink::OutSink;
pub use sink::{Sink, WriteFailed};
pub use whole::{InputFault, NoMemory, PIECE_SIZE, read_all, write_all};
