//! The hashes that lead from an axis root to a data root, in an array, so that they take no memory.

ghost use Rattle.std.specs.Prelude.{◌≡◌, ◌<◌, ◌≤◌, [], ◌∷◌, ◌++◌, length};
ghost use Rattle.data_header.specs.Paths.{most_hashes};

use namespace_id::MOST_DEPTH;
use std::marker::Model;

/// The most hashes that lead from an axis root to a data root: as many as the 4k roots of the widest
/// header have halvings.
pub const MOST_HASHES: usize = MOST_DEPTH + 1;

/// A Merkle proof of an axis root under a data root: the hashes that lead from the leaf upwards, of
/// 32 bytes each, as many as a header's 4k roots have halvings, up to `MOST_HASHES`. Any hashes may
/// stand in it: whether they lead to a data root is for `open_root`.
///
/// RFC 6962, 2.1.1.
#[derive(Clone, Debug, Drop)]
pub struct RootPath {
    count: u8,
    hashes: [[u8; 32]; MOST_HASHES],
}

impl Model for RootPath {
    ghost use Rattle.std.specs.Prelude.{List, ℕ};
    ghost use Rattle.data_header.specs.Paths.{used_hashes, IsRootPath};

    ghost Value = { List (List ℕ) };

    ghost view = { λ p. used_hashes p.count p.hashes };

    ghost invariant = { λ p. IsRootPath p.count p.hashes };
}

impl RootPath {
    /// No hashes.
    pub fn new() -> RootPath
        ensures { result ≡ [] }
    {
        RootPath {
            count: 0,
            hashes: [[0; 32]; MOST_HASHES],
        }
    }

    /// Adds a hash at the upper end. There are fewer than `MOST_HASHES` before it.
    pub fn push(&mut self, hash: [u8; 32])
        requires { length self.old < most_hashes }
        ensures { self.new ≡ self.old ++ hash ∷ [] }
    {
        self.hashes[self.count as usize] = hash;
        self.count += 1;
    }

    /// The hashes, from the leaf upwards.
    pub fn hashes(&self) -> &[[u8; 32]]
        ensures value { result.now ≡ self.now }
        ensures bound { length result.now ≤ most_hashes }
    {
        &self.hashes[..self.count as usize]
    }
}
