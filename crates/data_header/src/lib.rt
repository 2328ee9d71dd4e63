//! Data availability headers (DAH) of extended data squares: the roots of all axes, the data root
//! over them, and proofs that an axis root is under a data root, one by one or from a tree that is kept.
#![tactic(auto)]

mod batches;
mod hashing;
mod headers;
mod paths;
mod proving;
mod trees;

pub use hashing::{inner_hash, leaf_hash};
pub use headers::{Header, HeaderError};
pub use paths::{MOST_HASHES, RootPath};
pub use proving::{data_root, make_root_proof, open_root};
pub use trees::DataTree;
