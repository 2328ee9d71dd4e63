//! The fields of the payloads of frames, read from the front of bytes, and the sample that a payload is.
//!
//! A reader answers the value that the front of the bytes is, and the bytes after it, and none exactly where they aren't
//! in its grammar. docs/FORMATS.md, "Payloads", has the fields of each kind.
#![tactic(auto)]

mod fields;
mod messages;

pub use fields::{
    add, axis_at, cell_at, count_at, count16_at, digest_at, digest_list_at, digests_of,
    fill_digests, hash_at, hashes_at, name_at, name_of, node_list_at, nodes_at, nodes_of, path_at,
    share_at, shares_at, shares_of, text_at, text16_at, u8_at, u16_at, u32_at,
};
pub use messages::{message, message_front, shown_front};
