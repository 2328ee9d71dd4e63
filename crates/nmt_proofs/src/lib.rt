//! Openings of a namespaced Merkle tree, which are the NMT's proofs: whether the nodes that were
//! sent open what is shown under a root, and the nodes that do.
//!
//! Every kind of opening is one notion, a partial tree: parts that are shown at their places, and
//! nodes for the intervals that hold nothing shown. `joining` has the plain recursion over it,
//! `opening` the public calls, `completing` which nodes leave a place for a namespace, `partial`
//! what openings showed of one tree, so that later ones are cheaper, `making` what makes openings
//! from a stored tree, and `agreeing` the law between two parts with one digest: a SHA-256
//! collision is found where they first differ.
#![tactic(auto)]

mod agreeing;
mod completing;
mod joining;
mod making;
mod opening;
mod partial;
mod paths;

pub use agreeing::clash_laws;
pub use completing::complete_laws;
pub use making::{make_absent, make_leaf, make_nodes, make_range, making_laws};
pub use opening::{OpenRefusal, open_absent, open_leaf, open_nodes, open_range, open_set};
pub use partial::PartialTree;
pub use paths::{Absent, Nodes, Path};
