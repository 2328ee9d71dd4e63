//! Namespaced Merkle trees (NMT): the digests of leaves and nodes, the roots of leaf lists, and
//! stored trees.
//!
//! `leaf`, `node` and `join` make one digest; `plain_root` and `strict_root` are the plain
//! recursions that say what the root of a list is. A `Tree` keeps the digests of all levels,
//! `fold_root` joins digests of leaves in place, `fold_leaves` makes these first, a
//! `LeafQueue` hashes leaves as they come, and `HashedNodes` are nodes that are hashed ahead.
#![tactic(auto)]

mod batches;
mod folding;
mod hashed;
mod hashing;
mod levels;
mod queues;
mod roots;
mod trees;

pub use folding::{fold_leaves, fold_root};
pub use hashed::HashedNodes;
pub use hashing::{Unordered, join, leaf, node};
pub use levels::put_leaves;
pub use queues::LeafQueue;
pub use roots::{are_ordered, halvings, is_leaf_count, leaf_count, plain_root, strict_root};
pub use trees::{Tree, span_laws, tree_laws};
