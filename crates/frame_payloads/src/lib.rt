//! The payloads of frames, of each kind: one spelling for each value.
//!
//! A reader answers the value that the bytes spell, none where they spell none of its kind, and out of memory in
//! place of a value alone: none is taken before all of the payload is judged. A length is that of the payload,
//! none where the value has no spelling or its payload is above the limit. A writer appends the payload to a
//! list that has the capacity for it. Samples are read by `frame_fields`.
//!
//! docs/FORMATS.md, "Payloads", has the grammar of each kind.
#![tactic(auto)]

mod bounds;
mod codec;
mod kinds;
mod refusals;
mod shown;

pub use bounds::{hash_law, proof_law};
pub use codec::sizes::MAX_PAYLOAD;
pub use kinds::block::{block, block_size, is_block, put_block};
pub use kinds::claim_room::ClaimRoom;
pub use kinds::clash::{clash, clash_size, put_clash};
pub use kinds::commit::{commit, commit_size, is_commit, put_commit};
pub use kinds::fraud::{claim, fraud, fraud_size, is_fraud, proof_size, put_fraud, put_proof};
pub use kinds::header::{header, header_size, is_header, put_header};
pub use kinds::message::{MOST_MESSAGE, message_size, put_message};
pub use kinds::missing::{is_missing, missing, missing_size, put_missing};
pub use kinds::names::{is_names, names, names_size, places, put_absence, put_names, put_range};
pub use kinds::refusal::{REFUSAL_SIZE, put_refusal, refusal};
pub use kinds::requests::{SAMPLE_SIZE, put_sample, request, request_size, sample};
pub use kinds::rooted::{put_rooted, rooted, rooted_size};
pub use kinds::square::{is_square, put_square, square, square_size};
pub use kinds::state::state;
pub use kinds::transactions::{is_transactions, put_transactions, transactions, transactions_size};
pub use kinds::units::UnitList;
pub use refusals::{Reason, Refusal};
pub use shown::{EntryPlace, FoundPlace, PlaceList};
