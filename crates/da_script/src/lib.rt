//! Scripts: what comes of a list of events over a network, under a header and with the items of a list of frames.
//!
//! A script has the nodes and the events of a network (docs/FORMATS.md, "Scripts"). `play` takes the network through
//! them and answers a line for each event and for each node (docs/COMMANDS.md, "Output").
#![tactic(auto)]

mod items;
mod laws;
mod lines;
mod nodes;
mod playing;
mod reading;

pub use laws::{alarm_laws, script_laws};
pub use playing::{PlayError, play};
