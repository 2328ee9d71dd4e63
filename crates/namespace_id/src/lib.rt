//! Namespaces, shares, digests and cells: the values that every other crate speaks of.
//!
//! It also has what proofs about them need in every crate: what is known of the bytes and lengths
//! of shares and digests inside lists, the order of namespaces as a total order, and the call that
//! writes a part into an array.
#![tactic(auto)]

mod bytes;
mod cells;
mod digests;
mod memory;
mod namespaces;
mod rooms;
mod shares;
mod sizes;

pub use bytes::{append, bytes_law, write_at};
pub use cells::{
    Axis, Cell, Cells, cell_numbered, cells_laws, is_before, is_in_square, is_width, leaf_namespace,
};
pub use digests::{BLANK_DIGEST, Digest, digest_law, digests_law};
pub use memory::NoMemory;
pub use namespaces::{
    Namespace, NsError, PARITY, PAY_FOR_BLOB, PRIMARY_RESERVED_PADDING, TAIL_PADDING, TRANSACTION,
    is_zeros, namespace_law, namespace_order, namespaces_law, reserved_namespaces,
};
pub use rooms::CellRoom;
pub use shares::{Share, share_law, shares_law};
pub use sizes::{
    DIGEST_SIZE, GREATEST_WIDTH, HASH_SIZE, MOST_DEPTH, MOST_LEAVES, MOST_SHARES, NAMESPACE_SIZE,
    SHARE_SIZE, sizes_laws,
};
