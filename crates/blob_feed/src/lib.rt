//! Following namespaces: from header to header, a follower keeps the blobs of the namespaces that
//! its filter wants, complete and with their signers, or why their shares are no blobs.
//!
//! An answer counts only where it is complete under the header of the last height, and the first
//! such answer for a namespace stays.
//!
//! Celestia specifications, "Data Structures", namespace proofs; docs/RULES.md, "Following
//! namespaces".
#![tactic(auto)]

mod entries;
mod feeds;
mod filters;
mod followers;
mod gathering;
mod laws;
mod reading;

pub use entries::{Entry, FollowError, Taken};
pub use filters::Filter;
pub use followers::Follower;
pub use laws::feed_laws;
pub use reading::{ReadError, read_answer};
