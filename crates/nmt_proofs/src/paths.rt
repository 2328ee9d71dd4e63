//! The nodes of openings: of one leaf, and of a range or an absence.
//!
//! They stand in an array, not a `Vec`, so that a proof is made and read with no memory.

ghost use Rattle.std.specs.Prelude.{◌≡◌, ◌*◌, ◌<◌, ◌≤◌, [], ◌∷◌, ◌++◌, length};
ghost use Rattle.namespace_id.specs.Sizes.{most_depth};

use namespace_id::{BLANK_DIGEST, Digest, MOST_DEPTH};
use std::marker::Model;

/// An NMT inclusion proof of one leaf: the digests of the greatest subtrees that don't hold its
/// place, left to right, up to `MOST_DEPTH` of 90 bytes. Any digests may stand in it: whether they
/// open a leaf is for `open_leaf`.
///
/// Celestia specifications, "Data Structures", namespaced Merkle tree inclusion proofs.
#[derive(Clone, Debug, Drop)]
pub struct Path {
    count: u8,
    nodes: [Digest; MOST_DEPTH],
}

impl Model for Path {
    ghost use Rattle.std.specs.Prelude.{List};
    ghost use Rattle.namespace_id.specs.declared.digests.Digest.{Digest};
    ghost use Rattle.namespace_id.specs.Sizes.{most_depth};
    ghost use Rattle.nmt_proofs.specs.Paths.{used_nodes, AreUsed};

    ghost Value = { List Digest };

    ghost view = { λ p. used_nodes p.count p.nodes };

    ghost invariant = { λ p. AreUsed most_depth p.count p.nodes };
}

impl Path {
    /// No nodes.
    pub fn new() -> Path
        ensures { result ≡ [] }
    {
        Path {
            count: 0,
            nodes: [BLANK_DIGEST; MOST_DEPTH],
        }
    }

    /// Adds a node at the right end. There are fewer than `MOST_DEPTH` before it.
    pub fn push(&mut self, node: Digest)
        requires { length self.old < most_depth }
        ensures { self.new ≡ self.old ++ node ∷ [] }
    {
        self.nodes[self.count as usize] = node;
        self.count += 1;
    }

    /// The nodes, left to right.
    pub fn nodes(&self) -> &[Digest]
        ensures value { result.now ≡ self.now }
        ensures bound { length result.now ≤ most_depth }
    {
        &self.nodes[..self.count as usize]
    }
}

/// The nodes of an NMT range proof or absence proof: the digests of the greatest subtrees that hold
/// nothing shown, left to right, up to `2 * MOST_DEPTH` of 90 bytes. Any digests may stand in it:
/// whether they open something is for `open_range` and `open_absent`.
///
/// Celestia specifications, "Data Structures", namespace proofs.
#[derive(Clone, Debug, Drop)]
pub struct Nodes {
    count: u8,
    nodes: [Digest; 2 * MOST_DEPTH],
}

impl Model for Nodes {
    ghost use Rattle.std.specs.Prelude.{◌*◌, List};
    ghost use Rattle.namespace_id.specs.declared.digests.Digest.{Digest};
    ghost use Rattle.namespace_id.specs.Sizes.{most_depth};
    ghost use Rattle.nmt_proofs.specs.Paths.{used_nodes, AreUsed};

    ghost Value = { List Digest };

    ghost view = { λ n. used_nodes n.count n.nodes };

    ghost invariant = { λ n. AreUsed (2 * most_depth) n.count n.nodes };
}

impl Nodes {
    /// No nodes.
    pub fn new() -> Nodes
        ensures { result ≡ [] }
    {
        Nodes {
            count: 0,
            nodes: [BLANK_DIGEST; 2 * MOST_DEPTH],
        }
    }

    /// Adds a node at the right end. There are fewer than `2 * MOST_DEPTH` before it.
    pub fn push(&mut self, node: Digest)
        requires { length self.old < 2 * most_depth }
        ensures { self.new ≡ self.old ++ node ∷ [] }
    {
        let at = self.count as usize;
        self.nodes[at] = node;
        self.count += 1;
    }

    /// The nodes, left to right.
    pub fn nodes(&self) -> &[Digest]
        ensures value { result.now ≡ self.now }
        ensures bound { length result.now ≤ 2 * most_depth }
    {
        &self.nodes[..self.count as usize]
    }
}

/// An NMT absence proof: the digest of the first leaf above the namespace that is absent, and the
/// nodes that open it.
///
/// Celestia specifications, "Data Structures", namespace proofs.
#[derive(Clone, Debug, Drop)]
pub struct Absent {
    pub leaf: Digest,
    pub nodes: Nodes,
}
