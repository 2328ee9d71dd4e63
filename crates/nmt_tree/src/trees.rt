//! Trees that keep the digests of all their levels.
//!
//! An inclusion proof is made of the digests over subtrees. From a stored tree they are read;
//! without one, each proof would hash all leaves anew, which for the proofs of a whole axis is 2k
//! times as much.

ghost use Rattle.std.specs.Prelude.{◌≡◌, ◌≤◌, ◌<◌, ◌+◌, ◌%◌, ◌^◌, ℕ, List, [], length, take, drop, get_or, IsTrue, true, Some, None, IsSome, IfOk, IfSome, if◌then◌else◌};
ghost use Rattle.std.specs.Option.{ForSome};
ghost use Rattle.namespace_id.specs.Digests.{no_digest};
ghost use Rattle.namespace_id.specs.Names.{AreNamespaces};
ghost use Rattle.namespace_id.specs.declared.namespaces.Namespace.{Namespace};
ghost use Rattle.namespace_id.specs.declared.shares.Share.{Share};
ghost use Rattle.nmt_tree.specs.Digests.{leaf_digest};
ghost use Rattle.nmt_tree.specs.Roots.{is_leaf_count, halvings, is_ordered, root, strict_root};
ghost use Rattle.nmt_tree.specs.Levels.{HasOrderedJoins, leaf_digests, span};
ghost use Rattle.nmt_tree.specs.Spans.{IsOver, IsAbove};
ghost use Rattle.nmt_tree.specs.Trees.{AreTreeLeaves, digest_over};

use crate::are_ordered;
use crate::levels::{put_above, put_tree, read};
use namespace_id::{BLANK_DIGEST, Digest, Namespace, NoMemory, Share, namespaces_law};
use std::alloc::Global;
use std::marker::Model;

/// A namespaced Merkle tree (NMT) that keeps the digests of all its levels. It is for a power of
/// two of leaves from 1 to `MOST_LEAVES`, and either empty or over leaves whose namespaces never
/// fall.
///
/// Celestia specifications, "Data Structures", namespaced Merkle trees.
#[derive(Drop)]
pub struct Tree {
    count: u16,
    is_full: bool,
    // the leaves first, then each level above them, the root last
    digests: Vec<Digest>,
}

impl Model for Tree {
    ghost use Rattle.nmt_tree.specs.Trees.{StoredTree, IsTree, stored_tree};

    ghost Value = { StoredTree };

    ghost view = { λ t. stored_tree t.count t.is_full t.digests.items };

    ghost invariant = { λ t. IsTree t.count t.is_full t.digests.items };
}

impl Tree {
    /// An empty tree for `n` leaves, a power of two from 1 to `MOST_LEAVES`. It takes all memory at
    /// its start, 2n - 1 digests of 90 bytes, and refuses only where there is none.
    pub fn new(alloc: Global, n: u16) -> Result<Tree, NoMemory>
        requires { IsTrue (is_leaf_count n) }
        ensures count { IfOk result (λ tree. tree.count ≡ n) }
        ensures empty { IfOk result (λ tree. tree.leaves ≡ None) }
    {
        let digests = vec![in alloc; BLANK_DIGEST; 2 * n as usize - 1]?;
        Ok(Tree {
            count: n,
            is_full: false,
            digests,
        })
    }

    /// How many leaves the tree is for.
    pub fn len(&self) -> u16
        ensures value { result ≡ self.now.count }

        // What is true of every tree.
        ensures count { IsTrue (is_leaf_count self.now.count) }
        ensures leaves { IfSome self.now.leaves (λ leaves. AreTreeLeaves self.now.count leaves) }
    {
        self.count
    }

    /// Puts leaves in place of all that the tree held: as many namespaces and shares as the tree is
    /// for, leaf by leaf. Where a namespace is followed by a smaller one it answers false, and the
    /// tree is empty.
    ///
    /// It takes no memory.
    ///
    /// Celestia specifications, "Data Structures", namespaced Merkle trees.
    pub fn fill(&mut self, names: &[Namespace], shares: &[Share]) -> bool
        requires names { length names.now ≡ self.old.count }
        requires shares { length shares.now ≡ self.old.count }
        ensures ordered { result ≡ is_ordered names.now }
        ensures count { self.new.count ≡ self.old.count }
        ensures leaves { self.new.leaves ≡
            (if is_ordered names.now then Some (leaf_digests names.now shares.now) else None) }

        // So `root` answers the strict root afterwards.
        ensures root { digest_over self.new 0 self.new.count ≡
            strict_root (halvings (length names.now)) names.now shares.now }
    {
        self.is_full = false;
        if !are_ordered(names) {
            return false;
        }
        namespaces_law(names);
        put_tree(names, shares, &mut self.digests);
        self.is_full = true;
        true
    }

    /// Puts digests of leaves in place of all that the tree held: as many as the tree is for, and
    /// every join over them is ordered. No leaf is hashed anew.
    ///
    /// It takes no memory.
    ///
    /// Celestia specifications, "Data Structures", namespaced Merkle trees.
    pub fn put(&mut self, leaves: &[Digest])
        requires number { length leaves.now ≡ self.old.count }
        requires ordered { HasOrderedJoins leaves.now 0 (halvings self.old.count) }
        ensures count { self.new.count ≡ self.old.count }
        ensures leaves { self.new.leaves ≡ Some leaves.now }
    {
        put_above(leaves, &mut self.digests);
        self.is_full = true;
    }

    /// The digest over the `size` leaves from place `from` on, counted from 0; none exactly where
    /// the tree is empty. `size` is a power of two, and `from` a multiple of it. Nothing is hashed.
    pub fn digest(&self, from: u16, size: u16) -> Option<Digest>
        requires size { IsTrue (is_leaf_count size) }
        requires aligned { from % size ≡ 0 }
        requires within { from + size ≤ self.now.count }
        ensures { result ≡ digest_over self.now from size }
    {
        if self.is_full {
            Some(read(
                self.count as usize,
                &self.digests,
                from as usize,
                size as usize,
            ))
        } else {
            None
        }
    }

    /// The digest over the `size` leaves from place `from` on, of a tree that isn't empty.
    pub fn full_digest(&self, from: u16, size: u16) -> Digest
        requires filled { IsSome self.now.leaves }
        requires size { IsTrue (is_leaf_count size) }
        requires aligned { from % size ≡ 0 }
        requires within { from + size ≤ self.now.count }
        ensures { ForSome self.now.leaves (λ leaves. result ≡ span leaves from (halvings size)) }
    {
        self.digest(from, size).unwrap()
    }

    /// The root, which is the digest over all leaves; none exactly where the tree is empty.
    pub fn root(&self) -> Option<Digest>
        ensures { result ≡ digest_over self.now 0 self.now.count }
    {
        self.digest(0, self.count)
    }
}

/// A digest of a list of leaves is that of the leaf at its place; the root is the digest over all
/// of them, and the root of some neighbors is the digest over these; and where their namespaces
/// never fall, every join over them is ordered.
pub fn tree_laws()
    ensures leaf { (names : List Namespace) (shares : List Share) (pos : ℕ) →
        (name : Namespace) (share : Share) → length names ≡ length shares → pos < length names →
        get_or (leaf_digests names shares) pos no_digest ≡
        leaf_digest (get_or names pos name) (get_or shares pos share) }
    ensures root { (depth : ℕ) (names : List Namespace) (shares : List Share) →
        length names ≡ 2 ^ depth → length shares ≡ 2 ^ depth →
        root depth names shares ≡ span (leaf_digests names shares) 0 depth }
    ensures part { (depth start : ℕ) (names : List Namespace) (shares : List Share) →
        length names ≡ length shares → start + 2 ^ depth ≤ length names →
        root depth (take (2 ^ depth) (drop start names)) (take (2 ^ depth) (drop start shares))
        ≡ span (leaf_digests names shares) start depth }
    ensures ordered { (depth : ℕ) (names : List Namespace) (shares : List Share) →
        length names ≡ 2 ^ depth → length shares ≡ 2 ^ depth → AreNamespaces names →
        is_ordered names ≡ true → HasOrderedJoins (leaf_digests names shares) 0 depth }
{}

/// The namespaces of the digest over some neighbors among leaves.
pub fn span_laws()
    ensures over { (depth start : ℕ) (names : List Namespace) (shares : List Share) →
        AreNamespaces names → length names ≡ length shares → start + 2 ^ depth ≤ length names →
        IsOver names start depth (span (leaf_digests names shares) start depth) }

    // Where the namespaces never fall, none of these leaves but PARITY is above the greatest.
    ensures above { (depth start : ℕ) (names : List Namespace) (shares : List Share) →
        AreNamespaces names → length names ≡ length shares → start + 2 ^ depth ≤ length names →
        is_ordered names ≡ true →
        IsAbove names start depth (span (leaf_digests names shares) start depth) }
{}
