//! Leaves that are hashed side by side when a digest of one is asked for.

ghost use Rattle.std.specs.Prelude.{◌≡◌, ◌<◌, ◌≤◌, ◌↔◌, [], ◌∷◌, ◌++◌, length, take, IsTrue, IsNone, IfSome};
ghost use Rattle.nmt_tree.specs.Digests.{leaf_digest};
ghost use Rattle.nmt_tree.specs.Levels.{leaf_digests};
ghost use Rattle.nmt_tree.specs.Queues.{no_leaves, queued};

use crate::batches::BATCH;
use crate::levels::put_leaves;
use namespace_id::{BLANK_DIGEST, Digest, NAMESPACE_SIZE, Namespace, SHARE_SIZE, Share};
use std::marker::Model;

/// A namespace of zeros, for a place that nothing has been written to.
const BLANK_NAMESPACE: Namespace = Namespace([0; NAMESPACE_SIZE]);

/// A share of zeros, for a place that nothing has been written to.
const BLANK_SHARE: Share = Share([0; SHARE_SIZE]);

/// Writes the digests of leaves, given as two slices of one length, to the front of as many or more.
fn put_front(names: &[Namespace], shares: &[Share], digests: &mut [Digest])
    requires names { length names.now ≤ length digests.old }
    requires shares { length shares.now ≡ length names.now }
    ensures length { length digests.new ≡ length digests.old }
    ensures front { take (length names.now) digests.new ≡ leaf_digests names.now shares.now }
{
    put_leaves(names, shares, &mut digests[..names.len()]);
}

/// Leaves of namespaced Merkle trees (NMT) in the order in which they were added. At most 8 wait to be
/// hashed; where a digest is asked for and none is ready, those that wait are hashed side by side. It
/// takes no memory.
///
/// Contracts see the digests of the leaves, those that are ready and those that wait.
#[derive(Drop)]
pub struct LeafQueue {
    // Those that wait stand at the front of `names` and `shares`.
    waiting: usize,
    names: [Namespace; BATCH],
    shares: [Share; BATCH],
    // The digests that were hashed stand at the front of `digests`, first those that were given.
    given: usize,
    hashed: usize,
    digests: [Digest; BATCH],
}

impl Model for LeafQueue {
    ghost use Rattle.std.specs.Prelude.{take, drop};
    ghost use Rattle.nmt_tree.specs.Levels.{leaf_digests};
    ghost use Rattle.nmt_tree.specs.Queues.{QueuedLeaves, IsQueue};

    ghost Value = { QueuedLeaves };

    ghost view = { λ q. record {
      ready = drop q.given (take q.hashed q.digests);
      waiting = leaf_digests (take q.waiting q.names) (take q.waiting q.shares);
    } };

    ghost invariant = { λ q. IsQueue q.waiting q.given q.hashed q.names q.shares q.digests };
}

impl LeafQueue {
    /// No leaves.
    pub fn new() -> LeafQueue
        ensures { result ≡ no_leaves }
    {
        LeafQueue {
            waiting: 0,
            names: [BLANK_NAMESPACE; BATCH],
            shares: [BLANK_SHARE; BATCH],
            given: 0,
            hashed: 0,
            digests: [BLANK_DIGEST; BATCH],
        }
    }

    /// Whether it has no leaves.
    pub fn is_empty(&self) -> bool
        ensures { IsTrue result ↔ (queued self.now ≡ []) }
    {
        self.given == self.hashed && self.waiting == 0
    }

    /// Whether one more leaf can wait.
    pub fn has_room(&self) -> bool
        ensures { IsTrue result ↔ (length self.now.waiting < 8) }
    {
        self.waiting < BATCH
    }

    /// Adds a leaf, which waits. There are fewer than 8 that do.
    ///
    /// Celestia specifications, "Data Structures", namespaced Merkle trees.
    pub fn add(&mut self, name: &Namespace, share: &Share)
        requires room { length self.old.waiting < 8 }
        ensures ready { self.new.ready ≡ self.old.ready }
        ensures waiting { self.new.waiting ≡
            self.old.waiting ++ leaf_digest name.now share.now ∷ [] }
    {
        self.names[self.waiting] = *name;
        self.shares[self.waiting] = *share;
        self.waiting += 1;
    }

    /// Hashes the leaves that wait, side by side. No digest is ready before.
    fn hash(&mut self)
        requires { self.old.ready ≡ [] }
        ensures ready { self.new.ready ≡ self.old.waiting }
        ensures waiting { self.new.waiting ≡ [] }
    {
        let count = self.waiting;
        put_front(
            &self.names[..count],
            &self.shares[..count],
            &mut self.digests,
        );
        self.given = 0;
        self.hashed = count;
        self.waiting = 0;
    }

    /// Sees to it that a digest is ready where the queue has leaves.
    fn make_ready(&mut self)
        ensures leaves { queued self.new ≡ queued self.old }
        ensures ready { self.new.ready ≡ [] → self.new.waiting ≡ [] }
    {
        if self.given == self.hashed {
            self.hash();
        }
    }

    /// The digest of the first leaf, which leaves the queue; none where it has no leaves.
    pub fn next(&mut self) -> Option<Digest>
        ensures none { IsNone result ↔ (queued self.old ≡ []) }
        ensures first { IfSome result (λ leaf. queued self.old ≡ leaf ∷ queued self.new) }
        ensures empty { IsNone result → queued self.new ≡ [] }
    {
        self.make_ready();
        if self.given == self.hashed {
            return None;
        }
        let leaf = self.digests[self.given];
        self.given += 1;
        Some(leaf)
    }
}
