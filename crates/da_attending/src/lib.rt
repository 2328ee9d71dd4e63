//! Attending: what came to be known of wanted namespaces, told while headers and answers come.
//!
//! A talk over an attender ends with the bytes, or at the first frame that is neither a header nor an answer behind one. Its lines
//! are those of the command `follow`, at each height in the order in which they became known.
#![tactic(auto)]

mod attenders;
mod attending;
mod handed;
mod laws;
mod saying;

pub use attenders::Attender;
pub use attending::attend;
pub use laws::attend_laws;
pub use saying::most_missing;
