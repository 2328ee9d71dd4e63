//! The digests of a namespaced Merkle tree that samples have shown under its root.
//!
//! Openings of neighboring leaves have nodes in common. A partial tree keeps the digests that
//! earlier ones showed, so that a later one is hashed only up to its first digest that is kept, and
//! is compared above it. Equal parts have one digest, so the judgement is that of `open_leaf`.
//!
//! What is kept is local: each node that is marked is joined, in order, of its halves. A node is
//! known under the root where all nodes over it are marked. Digests are written only below a node
//! that isn't marked, so nothing that is known is lost, and what a refused opening leaves there is
//! not known.

ghost use Rattle.std.specs.Prelude.{◌≡◌, ◌<◌, ◌≤◌, ◌+◌, ◌*◌, ◌^◌, ◌↔◌, ℕ, length, IsTrue, IsOk, IsErrOf, IfOk, IfSome, Some, None, true, false, if◌then◌else◌};
ghost use Rattle.namespace_id.specs.Sizes.{most_depth, most_leaves};
ghost use Rattle.nmt_tree.specs.Digests.{is_ordered_join, leaf_digest, node_digest};
ghost use Rattle.nmt_tree.specs.Roots.{is_leaf_count, halvings};
ghost use Rattle.nmt_proofs.specs.Parts.{ordered_digest};
ghost use Rattle.nmt_proofs.specs.Openings.{opened, one_digest, one_leaf, has_count, has_order, has_root, Opens};
ghost use Rattle.nmt_proofs.specs.Causes.{HasCause};
ghost use Rattle.nmt_proofs.specs.Partial.{digest_at, AreHalves, AreJoined, KeepDigests, IsPartial, KeepsPartial};

use crate::joining::{Piece, ordered_node};
use crate::opening::OpenRefusal;
use namespace_id::{DIGEST_SIZE, Digest, Namespace, NoMemory, Share};
use nmt_tree::{HashedNodes, halvings, leaf, leaf_count};
use std::alloc::Global;
use std::marker::Model;

/// A node of a partial tree: its digest, and whether its halves are kept too.
#[derive(Clone, Copy, Debug, PartialEq, Eq)]
pub(crate) struct Node {
    pub(crate) digest: Digest,
    pub(crate) is_joined: bool,
}

/// Writes the digest of a node; then no halves are kept of it, nor of the node over it.
fn write(nodes: &mut [Node], i: usize, digest: &Digest)
    requires place { 0 < i }
    requires bound { i < length nodes.old }
    requires joined { AreJoined nodes.old }
    ensures length { length nodes.new ≡ length nodes.old }
    ensures joined { AreJoined nodes.new }
    ensures digest { digest_at nodes.new i ≡ digest.now }
    ensures others { (j : ℕ) → (j ≡ i → ⊥) → digest_at nodes.new j ≡ digest_at nodes.old j }
{
    nodes[i] = Node {
        digest: *digest,
        is_joined: false,
    };
    nodes[i / 2].is_joined = false;
}

/// Marks a node whose halves are kept.
fn mark(nodes: &mut [Node], i: usize)
    requires bound { i < length nodes.old }
    requires joined { AreJoined nodes.old }
    requires halves { AreHalves nodes.old i (digest_at nodes.old i) }
    ensures length { length nodes.new ≡ length nodes.old }
    ensures joined { AreJoined nodes.new }
    ensures others { (j : ℕ) → digest_at nodes.new j ≡ digest_at nodes.old j }
{
    nodes[i].is_joined = true;
}

/// Writes the digest of a node over an interval of this depth, and marks it where it has halves;
/// these are kept already.
fn put(nodes: &mut [Node], depth: u8, i: usize, digest: &Digest)
    requires place { 0 < i }
    requires bound { i < length nodes.old }
    requires joined { AreJoined nodes.old }
    requires halves { 0 < depth → AreHalves nodes.old i digest.now }
    ensures length { length nodes.new ≡ length nodes.old }
    ensures joined { AreJoined nodes.new }
    ensures digest { digest_at nodes.new i ≡ digest.now }
    ensures others { (j : ℕ) → (j ≡ i → ⊥) → digest_at nodes.new j ≡ digest_at nodes.old j }
{
    write(nodes, i, digest);
    if depth > 0 {
        mark(nodes, i);
    }
}

/// Whether these digests are the ones that are kept of the halves of a node.
fn has_halves(nodes: &[Node], i: usize, left: &Digest, right: &Digest) -> bool
    requires bound { 2 * i + 1 < length nodes.now }
    requires memory { length nodes.now ≤ 2 * most_leaves }
    ensures left { result ≡ true → left.now ≡ digest_at nodes.now (2 * i) }
    ensures right { result ≡ true → right.now ≡ digest_at nodes.now (2 * i + 1) }
{
    *left == nodes[2 * i].digest && *right == nodes[2 * i + 1].digest
}

/// The node over two digests, where the join is ordered: the one that was hashed ahead for the place
/// where its right half begins, if it is over these, and hashed otherwise.
fn next_node(
    ahead: Option<&HashedNodes>,
    middle: u16,
    left: &Digest,
    right: &Digest,
) -> Option<Digest>
    ensures { result ≡ (if is_ordered_join left.now right.now then Some (node_digest left.now right.now) else None) }
{
    match ahead {
        Some(hashed) => hashed.join(middle as usize, left, right).ok(),
        None => ordered_node(left, right),
    }
}

/// The node over two digests, where the join is ordered: the one that is kept where these are its
/// halves, and that of `next_node` otherwise.
fn known_node(
    nodes: &[Node],
    ahead: Option<&HashedNodes>,
    i: usize,
    middle: u16,
    left: &Digest,
    right: &Digest,
) -> Option<Digest>
    requires bound { 2 * i + 1 < length nodes.now }
    requires memory { length nodes.now ≤ 2 * most_leaves }
    requires joined { AreJoined nodes.now }
    ensures { result ≡ (if is_ordered_join left.now right.now then Some (node_digest left.now right.now) else None) }
{
    if nodes[i].is_joined && has_halves(nodes, i, left, right) {
        return Some(nodes[i].digest);
    }
    next_node(ahead, middle, left, right)
}

/// The digest of the interval of a node, where every join in it is ordered: one leaf is shown, and
/// the path has the other nodes. All are hashed, and the digests of all nodes below it are written.
fn fold_anew(
    nodes: &mut [Node],
    ahead: Option<&HashedNodes>,
    i: usize,
    depth: u8,
    start: u16,
    leaf: &Piece,
    path: &[Digest],
) -> Option<Digest>
    requires place { 0 < i }
    requires depth { depth ≤ most_depth }
    requires interval { start + 2 ^ depth ≤ most_leaves }
    requires bound { (i + 1) * 2 ^ depth ≤ length nodes.old }
    requires memory { length nodes.old ≤ 2 * most_leaves }
    requires count { length path.now ≡ depth }
    requires joined { AreJoined nodes.old }
    ensures value { result ≡ ordered_digest (opened depth start
        (one_digest leaf.now.from leaf.now.digest) path.now) }
    ensures length { length nodes.new ≡ length nodes.old }
    ensures joined { AreJoined nodes.new }
    ensures kept { KeepDigests i nodes.old nodes.new }
    ensures halves { 0 < depth → IfSome result (λ digest. AreHalves nodes.new i digest) }
{
    if depth == 0 {
        return Some(leaf.digest);
    }
    let middle = start + leaf_count(depth - 1);
    if leaf.from < middle {
        let last = path.len() - 1;
        let below = fold_anew(nodes, ahead, 2 * i, depth - 1, start, leaf, &path[..last])?;
        put(nodes, depth - 1, 2 * i, &below);
        write(nodes, 2 * i + 1, &path[last]);
        next_node(ahead, middle, &below, &path[last])
    } else {
        let below = fold_anew(nodes, ahead, 2 * i + 1, depth - 1, middle, leaf, &path[1..])?;
        put(nodes, depth - 1, 2 * i + 1, &below);
        write(nodes, 2 * i, &path[0]);
        next_node(ahead, middle, &path[0], &below)
    }
}

/// The digest of the interval of a node of which no halves are kept. Where it is the one that is
/// kept of the node, the digests below it are kept from now on.
fn learn(
    nodes: &mut [Node],
    ahead: Option<&HashedNodes>,
    i: usize,
    depth: u8,
    start: u16,
    leaf: &Piece,
    path: &[Digest],
) -> Option<Digest>
    requires place { 0 < i }
    requires depth { depth ≤ most_depth }
    requires deep { 0 < depth }
    requires interval { start + 2 ^ depth ≤ most_leaves }
    requires bound { (i + 1) * 2 ^ depth ≤ length nodes.old }
    requires memory { length nodes.old ≤ 2 * most_leaves }
    requires count { length path.now ≡ depth }
    requires joined { AreJoined nodes.old }
    ensures value { result ≡ ordered_digest (opened depth start
        (one_digest leaf.now.from leaf.now.digest) path.now) }
    ensures length { length nodes.new ≡ length nodes.old }
    ensures joined { AreJoined nodes.new }
    ensures kept { KeepDigests i nodes.old nodes.new }
{
    let digest = fold_anew(nodes, ahead, i, depth, start, leaf, path)?;
    if digest == nodes[i].digest {
        mark(nodes, i);
    }
    Some(digest)
}

/// The digest of the interval of a node, where every join in it is ordered: one leaf is shown, and
/// the path has the other nodes. What is kept already isn't hashed. The digests of the nodes up to
/// this one stay as they are.
fn fold(
    nodes: &mut [Node],
    ahead: Option<&HashedNodes>,
    i: usize,
    depth: u8,
    start: u16,
    leaf: &Piece,
    path: &[Digest],
) -> Option<Digest>
    requires place { 0 < i }
    requires depth { depth ≤ most_depth }
    requires interval { start + 2 ^ depth ≤ most_leaves }
    requires bound { (i + 1) * 2 ^ depth ≤ length nodes.old }
    requires memory { length nodes.old ≤ 2 * most_leaves }
    requires count { length path.now ≡ depth }
    requires joined { AreJoined nodes.old }
    ensures value { result ≡ ordered_digest (opened depth start
        (one_digest leaf.now.from leaf.now.digest) path.now) }
    ensures length { length nodes.new ≡ length nodes.old }
    ensures joined { AreJoined nodes.new }
    ensures kept { KeepDigests i nodes.old nodes.new }
{
    if depth == 0 {
        return Some(leaf.digest);
    }
    if !nodes[i].is_joined {
        return learn(nodes, ahead, i, depth, start, leaf, path);
    }
    let middle = start + leaf_count(depth - 1);
    if leaf.from < middle {
        let last = path.len() - 1;
        let below = fold(nodes, ahead, 2 * i, depth - 1, start, leaf, &path[..last])?;
        known_node(nodes, ahead, i, middle, &below, &path[last])
    } else {
        let below = fold(nodes, ahead, 2 * i + 1, depth - 1, middle, leaf, &path[1..])?;
        known_node(nodes, ahead, i, middle, &path[0], &below)
    }
}

/// Writes those nodes of a partial tree that weren't written yet. There is capacity for them, which isn't touched before.
fn write_rest(nodes: &mut Vec<Node>, count: u16)
    requires { KeepsPartial count nodes.old }
    ensures keeps { KeepsPartial count nodes.new }
    ensures partial { IsPartial count nodes.new.items }
    ensures root { digest_at nodes.new.items 1 ≡ digest_at nodes.old.items 1 }
{
    let all = 2 * count as usize;
    if nodes.len() < all {
        let blank = Node {
            digest: nodes[1].digest,
            is_joined: false,
        };
        nodes.resize(all, blank).unwrap();
    }
}

/// Whether the path opens the digest of a leaf under the root, and why not.
fn open_under(
    count: u16,
    nodes: &mut [Node],
    ahead: Option<&HashedNodes>,
    leaf: &Piece,
    path: &[Digest],
) -> Result<(), OpenRefusal>
    requires { IsPartial count nodes.old }
    ensures cause { HasCause result
        (has_count (halvings count) (one_digest leaf.now.from leaf.now.digest) path.now)
        (has_order (halvings count) (one_digest leaf.now.from leaf.now.digest) path.now)
        (has_root (halvings count) (one_digest leaf.now.from leaf.now.digest) path.now
        (digest_at nodes.old 1)) None }
    ensures partial { IsPartial count nodes.new }
    ensures root { digest_at nodes.new 1 ≡ digest_at nodes.old 1 }
{
    let depth = halvings(count as usize);
    if path.len() != depth as usize {
        return Err(OpenRefusal::NodeCount);
    }
    let Some(value) = fold(nodes, ahead, 1, depth, 0, leaf, path) else {
        return Err(OpenRefusal::Unordered);
    };
    if value == nodes[1].digest {
        Ok(())
    } else {
        Err(OpenRefusal::OtherRoot)
    }
}

/// The digests of a namespaced Merkle tree (NMT) that samples have shown under its root. The tree
/// has a power of two of leaves, from 1 to `MOST_LEAVES`.
///
/// They make the verification of many openings under one root cheaper, and decide nothing: what
/// contracts see is the number of leaves and the root.
///
/// Celestia specifications, "Data Structures", namespaced Merkle trees.
#[derive(Drop)]
pub struct PartialTree {
    count: u16,
    // By their numbers: the root is 1, the halves of i are 2i and 2i + 1, and 0 is not used. Those below
    // the root are written when the first leaf is opened: a tree of which no sample comes has no page for them.
    nodes: Vec<Node>,
}

impl Model for PartialTree {
    ghost use Rattle.nmt_proofs.specs.Partial.{RootedTree, KeepsPartial, rooted_tree};

    ghost Value = { RootedTree };

    ghost view = { λ t. rooted_tree t.count t.nodes.items };

    ghost invariant = { λ t. KeepsPartial t.count t.nodes };
}

impl PartialTree {
    /// The root alone, of a tree of `n` leaves, a power of two from 1 to `MOST_LEAVES`. It takes all memory at
    /// its start, 2n nodes of 91 bytes, and refuses only where there is none.
    pub fn new(alloc: Global, n: u16, root: &Digest) -> Result<PartialTree, NoMemory>
        requires { IsTrue (is_leaf_count n) }
        ensures count { IfOk result (λ tree. tree.count ≡ n) }
        ensures root { IfOk result (λ tree. tree.root ≡ root.now) }
    {
        let blank = Node {
            digest: *root,
            is_joined: false,
        };
        let mut nodes = Vec::with_capacity(alloc, 2 * n as usize)?;
        nodes.resize(2, blank).unwrap();
        Ok(PartialTree { count: n, nodes })
    }

    /// The root.
    pub fn root(&self) -> Digest
        ensures { result ≡ self.now.root }
    {
        self.nodes[1].digest
    }

    /// Verifies an NMT inclusion proof of one leaf under the root as the call `open_leaf` of this tree
    /// does, where the digest of the leaf was hashed before, and maybe nodes ahead: of these, the one at a
    /// place modulo 8 is taken for the node whose right half begins at that leaf, if it is over its halves.
    ///
    /// Refuses what that refuses, in the same order. It takes no memory, and keeps what the path shows.
    ///
    /// Celestia specifications, "Data Structures", namespaced Merkle tree inclusion proofs.
    pub fn open_ahead(
        &mut self,
        pos: u16,
        name: &Namespace,
        share: &Share,
        leaf: &Digest,
        nodes: &[Digest],
        ahead: Option<&HashedNodes>,
    ) -> Result<(), OpenRefusal>
        requires place { pos < self.old.count }
        requires leaf { leaf.now ≡ leaf_digest name.now share.now }
        ensures accepts { IsOk result ↔ Opens (halvings self.old.count)
            (one_leaf pos name.now share.now) nodes.now self.old.root }

        // Each refusal comes exactly where its test is the first that fails.
        ensures node_count { IsErrOf result OpenRefusal.NodeCount ↔
            (has_count (halvings self.old.count) (one_leaf pos name.now share.now) nodes.now
            ≡ false) }
        ensures unordered { IsErrOf result OpenRefusal.Unordered ↔
            (has_count (halvings self.old.count) (one_leaf pos name.now share.now) nodes.now ≡ true)
            × (has_order (halvings self.old.count) (one_leaf pos name.now share.now) nodes.now
            ≡ false) }
        ensures other_root { IsErrOf result OpenRefusal.OtherRoot ↔
            (has_count (halvings self.old.count) (one_leaf pos name.now share.now) nodes.now ≡ true)
            × (has_order (halvings self.old.count) (one_leaf pos name.now share.now) nodes.now
            ≡ true)
            × (has_root (halvings self.old.count) (one_leaf pos name.now share.now) nodes.now
            self.old.root ≡ false) }

        // One leaf has nothing to be complete for.
        ensures never { (i : ℕ) → IsErrOf result (OpenRefusal.Incomplete i) → ⊥ }

        // It stays the partial tree under this root.
        ensures kept { self.new ≡ self.old }
    {
        let shown = Piece {
            from: pos,
            size: 1,
            digest: *leaf,
        };
        write_rest(&mut self.nodes, self.count);
        open_under(self.count, &mut self.nodes, ahead, &shown, nodes)
    }

    /// Verifies an NMT inclusion proof of one leaf under the root as the call `open_leaf` of this tree
    /// does, where the digest of the leaf was hashed before.
    ///
    /// Refuses what that refuses, in the same order. It takes no memory, and keeps what the path shows.
    ///
    /// Celestia specifications, "Data Structures", namespaced Merkle tree inclusion proofs.
    pub fn open_hashed(
        &mut self,
        pos: u16,
        name: &Namespace,
        share: &Share,
        leaf: &Digest,
        nodes: &[Digest],
    ) -> Result<(), OpenRefusal>
        requires place { pos < self.old.count }
        requires leaf { leaf.now ≡ leaf_digest name.now share.now }
        ensures accepts { IsOk result ↔ Opens (halvings self.old.count)
            (one_leaf pos name.now share.now) nodes.now self.old.root }

        // Each refusal comes exactly where its test is the first that fails.
        ensures node_count { IsErrOf result OpenRefusal.NodeCount ↔
            (has_count (halvings self.old.count) (one_leaf pos name.now share.now) nodes.now
            ≡ false) }
        ensures unordered { IsErrOf result OpenRefusal.Unordered ↔
            (has_count (halvings self.old.count) (one_leaf pos name.now share.now) nodes.now ≡ true)
            × (has_order (halvings self.old.count) (one_leaf pos name.now share.now) nodes.now
            ≡ false) }
        ensures other_root { IsErrOf result OpenRefusal.OtherRoot ↔
            (has_count (halvings self.old.count) (one_leaf pos name.now share.now) nodes.now ≡ true)
            × (has_order (halvings self.old.count) (one_leaf pos name.now share.now) nodes.now
            ≡ true)
            × (has_root (halvings self.old.count) (one_leaf pos name.now share.now) nodes.now
            self.old.root ≡ false) }

        // One leaf has nothing to be complete for.
        ensures never { (i : ℕ) → IsErrOf result (OpenRefusal.Incomplete i) → ⊥ }

        // It stays the partial tree under this root.
        ensures kept { self.new ≡ self.old }
    {
        self.open_ahead(pos, name, share, leaf, nodes, None)
    }

    /// Verifies an NMT inclusion proof of one leaf under the root, as `open_leaf` does: whether the
    /// nodes open the leaf over `share`, with namespace `name`, at place `pos`, which is below the
    /// number of leaves. The nodes are the digests of the greatest subtrees that don't hold the
    /// place, left to right.
    ///
    /// Refuses another number of nodes, then a join that is not ordered, then another root. It takes
    /// no memory. What the path shows under the root is kept, so that later ones are hashed only up
    /// to their first digest that is kept; the answers are the same whatever is kept. A refused
    /// opening costs no more joins than without.
    ///
    /// Celestia specifications, "Data Structures", namespaced Merkle tree inclusion proofs.
    pub fn open_leaf(
        &mut self,
        pos: u16,
        name: &Namespace,
        share: &Share,
        nodes: &[Digest],
    ) -> Result<(), OpenRefusal>
        requires place { pos < self.old.count }
        ensures accepts { IsOk result ↔ Opens (halvings self.old.count)
            (one_leaf pos name.now share.now) nodes.now self.old.root }

        // Each refusal comes exactly where its test is the first that fails.
        ensures node_count { IsErrOf result OpenRefusal.NodeCount ↔
            (has_count (halvings self.old.count) (one_leaf pos name.now share.now) nodes.now
            ≡ false) }
        ensures unordered { IsErrOf result OpenRefusal.Unordered ↔
            (has_count (halvings self.old.count) (one_leaf pos name.now share.now) nodes.now ≡ true)
            × (has_order (halvings self.old.count) (one_leaf pos name.now share.now) nodes.now
            ≡ false) }
        ensures other_root { IsErrOf result OpenRefusal.OtherRoot ↔
            (has_count (halvings self.old.count) (one_leaf pos name.now share.now) nodes.now ≡ true)
            × (has_order (halvings self.old.count) (one_leaf pos name.now share.now) nodes.now
            ≡ true)
            × (has_root (halvings self.old.count) (one_leaf pos name.now share.now) nodes.now
            self.old.root ≡ false) }

        // One leaf has nothing to be complete for.
        ensures never { (i : ℕ) → IsErrOf result (OpenRefusal.Incomplete i) → ⊥ }

        // It stays the partial tree under this root.
        ensures kept { self.new ≡ self.old }
    {
        self.open_hashed(pos, name, share, &leaf(name, share), nodes)
    }
}
