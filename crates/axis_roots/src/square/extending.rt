//! The extension of a square: the two-dimensional Reed-Solomon code.
//!
//! The square is copied into the upper left quarter, then the first k rows are extended, and then
//! all 2k columns. The k lower rows are codewords then too, since the code is linear. The first half of each
//! axis is copied into a line, the other half is made there by `leopard_code`, and written behind it.

ghost use Rattle.std.specs.Prelude.{◌≡◌, ◌≢◌, ◌*◌, ◌<◌, ◌≤◌, ◌⊎◌, ℕ, IsTrue, IfOk, length, take, map};
ghost use Rattle.namespace_id.specs.declared.cells.Cell.{Cell as Place};
ghost use Rattle.namespace_id.specs.Cells.{is_width, is_in_square};
ghost use Rattle.leopard_code.specs.Codewords.{IsCodeword};
ghost use Rattle.axis_roots.specs.Messages.{position, index as index_of};
ghost use Rattle.axis_roots.specs.Grids.{share_at, axis_shares, Extends};

use super::lines::{read_front, write_back};
use crate::Grid;
use leopard_code::{Room, extend};
use namespace_id::{Axis, Cell, NoMemory, Share};
use square_layout::Square;
use std::alloc::Global;

/// Makes an axis a codeword: its first k shares stay, and the others are made from them.
fn extend_axis(room: &mut Room, grid: &mut Grid, axis: Axis, index: u16, line: &mut [Share])
    requires room { room.old ≡ grid.old.k }
    requires index { index < 2 * grid.old.k }
    requires line { length line.old ≡ 2 * grid.old.k }
    ensures room { room.new ≡ room.old }
    ensures k { grid.new.k ≡ grid.old.k }
    ensures codeword { IsCodeword grid.old.k
        (axis_shares grid.old.k grid.new.shares axis index) }

    // Every cell of another axis is as it was, and so are the first k of this one.
    ensures kept { (cell : Place) → IsTrue (is_in_square grid.old.k cell) →
        (index_of axis cell ≢ index) ⊎ (position axis cell < grid.old.k) →
        share_at (2 * grid.old.k) grid.new.shares cell
        ≡ share_at (2 * grid.old.k) grid.old.shares cell }
{
    let (originals, recovery) = line.split_at_mut(grid.k as usize);
    read_front(grid, axis, index, originals);
    extend(room, originals, recovery);
    write_back(grid, axis, index, recovery);
}

/// Makes the first `count` rows or columns codewords, one after another.
fn extend_axes(room: &mut Room, grid: &mut Grid, axis: Axis, count: u16, line: &mut [Share])
    requires room { room.old ≡ grid.old.k }
    requires count { count ≤ 2 * grid.old.k }
    requires line { length line.old ≡ 2 * grid.old.k }
    ensures room { room.new ≡ room.old }
    ensures k { grid.new.k ≡ grid.old.k }
    ensures codewords { (index : ℕ) → index < count → IsCodeword grid.old.k
        (axis_shares grid.old.k grid.new.shares axis index) }

    // Every cell of a later axis is as it was, and so are the first k of each.
    ensures kept { (cell : Place) → IsTrue (is_in_square grid.old.k cell) →
        (count ≤ index_of axis cell) ⊎ (position axis cell < grid.old.k) →
        share_at (2 * grid.old.k) grid.new.shares cell
        ≡ share_at (2 * grid.old.k) grid.old.shares cell }
{
    for index in 0..count {
        extend_axis(room, grid, axis, index, line);
    }
}

/// Copies a square into the upper left quarter of a grid.
fn copy_square(grid: &mut Grid, square: &Square)
    requires { grid.old.k ≡ square.now.k }
    ensures k { grid.new.k ≡ grid.old.k }
    ensures quarter { (cell : Place) → cell.row < grid.old.k → cell.col < grid.old.k →
        share_at (2 * grid.old.k) grid.new.shares cell
        ≡ share_at grid.old.k square.now.shares cell }
{
    let k = square.k as usize;
    for number in 0..square.shares.len() {
        let cell = Cell {
            row: (number / k) as u16,
            col: (number % k) as u16,
        };
        grid.set(cell, &square.shares[number]);
    }
}

/// Makes a grid the extension of a square, whatever it held.
fn fill_grid(room: &mut Room, grid: &mut Grid, square: &Square, line: &mut [Share])
    requires room { room.old ≡ square.now.k }
    requires grid { grid.old.k ≡ square.now.k }
    requires line { length line.old ≡ 2 * square.now.k }
    ensures k { grid.new.k ≡ square.now.k }
    ensures extends { Extends square.now.k square.now.shares grid.new.shares }
{
    copy_square(grid, square);
    extend_axes(room, grid, Axis::Row, square.k, line);
    extend_axes(room, grid, Axis::Col, 2 * square.k, line);
    grid.law();
}

impl Grid {
    /// A grid of zeros.
    fn blank(alloc: Global, k: u16) -> Result<Grid, NoMemory>
        requires { IsTrue (is_width k) }
        ensures { IfOk result (λ grid. grid.k ≡ k) }
    {
        let side = 2 * k as usize;
        let shares = vec![in alloc; Share([0; 512]); side * side]?;
        Ok(Grid::of(k, shares))
    }

    /// Extends a square: makes the extended data square (EDS) of which all rows and columns are
    /// codewords, and in whose upper left quarter the square stands.
    ///
    /// It takes all memory at its start: 4 * k * k shares for the grid, 2k to work in, and what a
    /// room for the code needs. The one refusal is that it is out of memory.
    ///
    /// Celestia specifications, "Data Structures", erasure coding; Al-Bassam, Sonnino, Buterin and
    /// Khoffi, 2-dimensional Reed-Solomon encoded Merkle tree.
    pub fn extend(alloc: Global, square: &Square) -> Result<Grid, NoMemory>
        ensures k { IfOk result (λ grid. grid.k ≡ square.now.k) }
        ensures extends { IfOk result (λ grid.
            Extends square.now.k square.now.shares grid.shares) }
    {
        let mut grid = Grid::blank(alloc, square.k)?;
        let mut room = Room::new(alloc, square.k)?;
        let mut line = vec![in alloc; Share([0; 512]); 2 * square.k as usize]?;
        fill_grid(&mut room, &mut grid, square, &mut line);
        Ok(grid)
    }
}
