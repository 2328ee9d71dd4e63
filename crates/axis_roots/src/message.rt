//! Samples, whether one is proved under a header, certificates of those that are, and the
//! digests that they have shown.
//!
//! All but `making` stand on the header and on inclusion proofs, and not on grids.

mod certificates;
mod laws;
mod making;
mod messages;
mod partials;
mod proved;

pub use certificates::{RefusedMessage, check};
pub use laws::{message_laws, own_laws};
pub use making::{made_laws, message_from, message_of};
pub use messages::{CheckRefusal, Message, are_ascending, index, message_law, opens, position};
pub use partials::{PartialTrees, opens_by, opens_hashed_by};
pub use proved::Proved;
