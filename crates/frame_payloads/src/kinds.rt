//! The kinds of payloads, each with what reads, measures and appends it.

pub(crate) mod accused;
pub(crate) mod block;
pub(crate) mod claim_room;
pub(crate) mod clash;
pub(crate) mod commit;
pub(crate) mod fraud;
pub(crate) mod fraud_set;
pub(crate) mod header;
pub(crate) mod message;
pub(crate) mod missing;
pub(crate) mod names;
pub(crate) mod refusal;
pub(crate) mod requests;
pub(crate) mod rooted;
pub(crate) mod square;
pub(crate) mod state;
pub(crate) mod transactions;
pub(crate) mod units;
