//! A block of the network: a list of transactions, as the network's nodes give it, read, and laid out as its square.
//!
//! Some transactions are payments for blobs, which carry their blobs with them. The square has the other transactions, the
//! payments, each wrapped with the places of its blobs, and the blobs. Since these places decide how long the payments are,
//! room is reserved for them as if each place took three bytes, and the width is for as much padding as the blobs may need.
#![tactic(auto)]

mod bounding;
mod bounds;
mod checking;
mod finding;
mod gaps;
mod laws;
mod laying;
mod measuring;
mod payments;
mod placing;
mod ranges;
mod reading;
mod refusals;
mod spelling;
mod taking;
mod unlaying;
mod unwrapping;
mod wrapping;

pub use gaps::block_laws;
pub use laws::{back_laws, list_laws, namespace_laws, read_laws, square_laws};
pub use laying::{lay_list, places};
pub use payments::{Payment, TxList};
pub use ranges::place_laws;
pub use refusals::{BackError, ListError};
pub use spelling::spell_list;
pub use taking::read_list;
pub use unlaying::unlay_list;
