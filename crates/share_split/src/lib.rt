//! Blobs and units as shares, and shares read back as blobs and units: how many shares they take, the
//! shares themselves, what a list of shares is or the first check that fails, and how wide the subtrees
//! are over the shares of a blob.
//!
//! The shares of a blob have version 1 where it names its signer, and version 0 where it doesn't, as
//! compact shares have. The length of a sequence and the signer stand in its first share alone, and
//! zeros fill the last one up. Units, as transactions, stand one after another in compact shares, each
//! behind its length.
#![tactic(auto)]

mod blobs;
mod compact;
mod fields;
mod joining;
mod laws;
mod parsing;
mod places;
mod texts;
mod units;
mod walking;
mod widths;

pub use blobs::{
    Blob, FIRST_CONTENT, FIRST_SIGNED_CONTENT, LATER_CONTENT, LENGTH_PLACE, MAX_SEQUENCE_LENGTH,
    SIGNER_SIZE, SplitError, blob_share_count, blob_shares, blobs_law, padding_share,
    signed_padding_share,
};
pub use joining::{JoinError, join_blobs, join_laws, join_units};
pub use laws::{blob_laws, refusal_laws, size_laws};
pub use units::{
    FIRST_COMPACT_CONTENT, LATER_COMPACT_CONTENT, Unit, unit_laws, unit_share_count, unit_shares,
};
pub use widths::{SUBTREE_ROOT_THRESHOLD, subtree_width, width_laws};
