//! Short lists in arrays, so that commitments take no memory.

ghost use Rattle.std.specs.Prelude.{◌≡◌, ◌<◌, ◌≤◌, [], ◌∷◌, ◌++◌, length};
ghost use Rattle.blob_commit.specs.Bounds.{most_subtrees};

use namespace_id::{GREATEST_WIDTH, MOST_DEPTH};
use std::marker::Model;

/// The most subtrees that cover the shares of a square: of the widest as many as a row has shares,
/// and one of each lesser width.
const MOST_SUBTREES: usize = GREATEST_WIDTH as usize + MOST_DEPTH - 1;

/// The sizes of subtrees, up to `MOST_SUBTREES`.
#[derive(Drop)]
pub(crate) struct Sizes {
    count: u16,
    sizes: [u16; MOST_SUBTREES],
}

impl Model for Sizes {
    ghost use Rattle.std.specs.Prelude.{List, ℕ, ◌≤◌, take};
    ghost use Rattle.blob_commit.specs.Bounds.{most_subtrees};

    ghost Value = { List ℕ };

    ghost view = { λ s. take s.count s.sizes };

    ghost invariant = { λ s. s.count ≤ most_subtrees };
}

impl Sizes {
    /// No sizes.
    pub(crate) fn new() -> Sizes
        ensures { result ≡ [] }
    {
        Sizes {
            count: 0,
            sizes: [0; MOST_SUBTREES],
        }
    }

    /// Adds a size. There are fewer than `MOST_SUBTREES` before it.
    pub(crate) fn push(&mut self, size: u16)
        requires { length self.old < most_subtrees }
        ensures { self.new ≡ self.old ++ size ∷ [] }
    {
        self.sizes[self.count as usize] = size;
        self.count += 1;
    }

    /// The sizes, in order.
    pub(crate) fn sizes(&self) -> &[u16]
        ensures value { result.now ≡ self.now }
        ensures bound { length result.now ≤ most_subtrees }
    {
        &self.sizes[..self.count as usize]
    }
}

/// Hashes of leaves, up to `MOST_SUBTREES`.
#[derive(Drop)]
pub(crate) struct Hashes {
    count: u16,
    hashes: [[u8; 32]; MOST_SUBTREES],
}

impl Model for Hashes {
    ghost use Rattle.std.specs.Prelude.{List, ℕ, ◌≤◌, take};
    ghost use Rattle.blob_commit.specs.Bounds.{most_subtrees};

    ghost Value = { List (List ℕ) };

    ghost view = { λ h. take h.count h.hashes };

    ghost invariant = { λ h. h.count ≤ most_subtrees };
}

impl Hashes {
    /// No hashes.
    pub(crate) fn new() -> Hashes
        ensures { result ≡ [] }
    {
        Hashes {
            count: 0,
            hashes: [[0; 32]; MOST_SUBTREES],
        }
    }

    /// Adds a hash. There are fewer than `MOST_SUBTREES` before it.
    pub(crate) fn push(&mut self, hash: [u8; 32])
        requires { length self.old < most_subtrees }
        ensures { self.new ≡ self.old ++ hash ∷ [] }
    {
        self.hashes[self.count as usize] = hash;
        self.count += 1;
    }

    /// The hashes, in order.
    pub(crate) fn hashes(&self) -> &[[u8; 32]]
        ensures value { result.now ≡ self.now }
        ensures bound { length result.now ≤ most_subtrees }
    {
        &self.hashes[..self.count as usize]
    }
}
