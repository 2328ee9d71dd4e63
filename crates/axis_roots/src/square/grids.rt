//! Extended data squares, as values: shares in one row-major list.

ghost use Rattle.std.specs.Prelude.{◌≡◌, ◌+◌, ◌*◌, ◌<◌, IsTrue};
ghost use Rattle.namespace_id.specs.Cells.{is_width, is_in_square};

use namespace_id::{Cell, Share};
use std::marker::Model;

/// An extended data square (EDS): 2k by 2k shares of 512 bytes, row-major. Its type keeps that `k`
/// is a width and that there are so many shares, and nothing of codewords: any shares may stand in
/// it.
///
/// Celestia specifications, "Data Structures", erasure coding.
#[derive(Debug, Drop)]
pub struct Grid {
    pub k: u16,
    pub shares: Vec<Share>,
}

impl Model for Grid {
    ghost use Rattle.square_layout.specs.Blocks.{SquareShares};
    ghost use Rattle.axis_roots.specs.Grids.{IsGrid};

    ghost Value = { SquareShares };

    ghost view = { λ g. record { k = g.k; shares = g.shares.items } };

    ghost invariant = { λ g. IsGrid (record { k = g.k; shares = g.shares.items }) };
}

/// The place of a cell in the row-major list of the shares of an extended square.
pub(crate) fn place(k: u16, cell: Cell) -> usize
    requires width { IsTrue (is_width k) }
    requires cell { IsTrue (is_in_square k cell) }
    ensures place { result ≡ cell.row * (2 * k) + cell.col }
    ensures within { result < 2 * k * (2 * k) }
{
    cell.row as usize * (2 * k as usize) + cell.col as usize
}

impl Grid {
    ghost use Rattle.std.specs.Prelude.{◌≢◌, vec_len};
    ghost use Rattle.namespace_id.specs.declared.cells.Cell.{Cell as Place};
    ghost use Rattle.axis_roots.specs.Grids.{IsGrid, share_at};

    /// Takes the shares as they are, 4 * k * k of them, row-major, for a width `k`. It takes no
    /// memory.
    pub fn of(k: u16, shares: Vec<Share>) -> Grid
        requires width { IsTrue (is_width k) }
        requires count { vec_len shares ≡ 2 * k * (2 * k) }
        ensures { result ≡ record { k = k; shares = shares.items } }
    {
        Grid { k, shares }
    }

    /// Says what is true of every grid. It changes nothing.
    pub(crate) fn law(&self)
        ensures { IsGrid self.now }
    {
        let _k = self.k;
    }

    /// The width k of the original square; the grid has twice as many rows and columns. What is
    /// true of every grid is said with it.
    pub fn width(&self) -> u16
        ensures value { result ≡ self.now.k }
        ensures grid { IsGrid self.now }
    {
        self.k
    }

    /// The share of a cell, whose row and column are below 2k.
    pub fn cell(&self, cell: Cell) -> &Share
        requires { IsTrue (is_in_square self.now.k cell) }
        ensures { result.now ≡ share_at (2 * self.now.k) self.now.shares cell }
    {
        &self.shares[place(self.k, cell)]
    }

    /// Puts a share into a cell, whose row and column are below 2k, in place of what stood there.
    pub fn set(&mut self, cell: Cell, share: &Share)
        requires { IsTrue (is_in_square self.old.k cell) }
        ensures k { self.new.k ≡ self.old.k }
        ensures cell { share_at (2 * self.old.k) self.new.shares cell ≡ share.now }

        // Every other cell is as it was.
        ensures others { (other : Place) → IsTrue (is_in_square self.old.k other) → other ≢ cell →
            share_at (2 * self.old.k) self.new.shares other
            ≡ share_at (2 * self.old.k) self.old.shares other }
    {
        self.shares[place(self.k, cell)] = *share;
    }
}
