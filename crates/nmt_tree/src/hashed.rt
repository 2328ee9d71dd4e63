//! Nodes that are hashed ahead, side by side.

ghost use Rattle.std.specs.Prelude.{◌≡◌, ◌↔◌, ◌*◌, ◌+◌, ◌%◌, get_or, IsOk, IsErr, IfOk, IsTrue, true, false};
ghost use Rattle.namespace_id.specs.Digests.{no_digest};
ghost use Rattle.nmt_tree.specs.Digests.{is_ordered_join, node_digest};

use crate::batches::{BATCH, NODE_MESSAGES, eight_nodes};
use crate::hashing::{Unordered, is_ordered, join};
use namespace_id::Digest;
use std::marker::Model;

/// Eight nodes of namespaced Merkle trees (NMT) that were hashed side by side, each with the two digests
/// that it is over. It takes no memory.
///
/// They make joins cheaper and decide nothing. Contracts see the sixteen digests.
#[derive(Drop)]
pub struct HashedNodes {
    halves: [Digest; 16],
    nodes: [Digest; BATCH],
}

impl Model for HashedNodes {
    ghost use Rattle.std.specs.Prelude.{◌≡◌, List};
    ghost use Rattle.namespace_id.specs.declared.digests.Digest.{Digest};
    ghost use Rattle.nmt_tree.specs.Levels.{pairs};

    ghost Value = { List Digest };

    ghost view = { λ n. n.halves };

    ghost invariant = { λ n. n.nodes ≡ pairs n.halves };
}

impl HashedNodes {
    /// The nodes over sixteen digests, joined in pairs.
    ///
    /// Celestia specifications, "Data Structures", namespaced Merkle trees.
    pub fn over(halves: [Digest; 16]) -> HashedNodes
        ensures { result ≡ halves }
    {
        let mut messages = NODE_MESSAGES;
        let nodes = eight_nodes(&mut messages, &halves);
        HashedNodes { halves, nodes }
    }

    /// Whether the node at a place modulo 8 is over these two digests.
    fn is_over(&self, place: usize, left: &Digest, right: &Digest) -> bool
        ensures left { result ≡ true → left.now ≡ get_or self.now (2 * (place % 8)) no_digest }
        ensures right { result ≡ true → right.now ≡ get_or self.now (2 * (place % 8) + 1) no_digest }
    {
        let first = 2 * (place % BATCH);
        *left == self.halves[first] && *right == self.halves[first + 1]
    }

    /// The digest of the node over two digests, where their join is ordered, as the function `join`
    /// answers it. Nothing is hashed where the node at `place` modulo 8 is over them.
    ///
    /// Refuses every other join. It takes no memory.
    ///
    /// Celestia specifications, "Data Structures", namespaced Merkle trees.
    pub fn join(&self, place: usize, left: &Digest, right: &Digest) -> Result<Digest, Unordered>
        ensures ordered { IsOk result ↔ IsTrue (is_ordered_join left.now right.now) }
        ensures unordered { IsErr result ↔ (is_ordered_join left.now right.now ≡ false) }
        ensures value { IfOk result (λ digest. digest ≡ node_digest left.now right.now) }
    {
        if !self.is_over(place, left, right) {
            return join(left, right);
        }
        if is_ordered(left, right) {
            Ok(self.nodes[place % BATCH])
        } else {
            Err(Unordered)
        }
    }
}
