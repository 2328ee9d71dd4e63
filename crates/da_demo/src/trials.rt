//! Trials.

ghost use Rattle.std.specs.Prelude.{◌≡◌, IsTrue, IsSome, IfOk, None, map, true};
ghost use Rattle.namespace_id.specs.Cells.{is_width};
ghost use Rattle.namespace_id.specs.Lists.{holds_along};
ghost use Rattle.namespace_id.specs.Names.{is_at_most};
ghost use Rattle.namespace_id.specs.Shares.{name_in};
ghost use Rattle.square_layout.specs.Layout.{block_square};
ghost use Rattle.square_layout.specs.Refusals.{layout_refusal};
ghost use Rattle.axis_roots.specs.Grids.{Extends, header_of_grid};
ghost use Rattle.da_demo.specs.Sessions.{IsCheat};
ghost use Rattle.da_demo.specs.Trials.{IsTrial};

use crate::Trial;
use crate::gathering::spoil;
use crate::sessions::{first_session, second_session};
use axis_roots::{Grid, grid_laws};
use namespace_id::{Cell, NoMemory};
use sampling::block;
use square_layout::{Block, LayError, Square, lay};
use std::alloc::Global;

/// The square of a block that has one.
fn laid(alloc: Global, block: &Block) -> Result<Square, NoMemory>
    requires { layout_refusal block.now ≡ None }
    ensures square { IfOk result (λ square. square ≡ block_square block.now) }
    ensures names { IfOk result (λ square.
        holds_along is_at_most (map name_in square.shares) ≡ true) }
{
    match lay(alloc, block) {
        Ok(square) => Ok(square),
        Err(LayError::NoMemory) => Err(NoMemory),
        Err(_) => unreachable!(),
    }
}

/// The extension of a square whose namespaces never fall: it has a header.
fn extended(alloc: Global, square: &Square) -> Result<Grid, NoMemory>
    requires { holds_along is_at_most (map name_in square.now.shares) ≡ true }
    ensures k { IfOk result (λ grid. grid.k ≡ square.now.k) }
    ensures extends { IfOk result (λ grid.
        Extends square.now.k square.now.shares grid.shares) }
    ensures header { IfOk result (λ grid. IsSome (header_of_grid grid.k grid.shares)) }
{
    grid_laws();
    let _k = square.k;
    Grid::extend(alloc, square)
}

/// Spoils the last share of a grid. It is outside the original square, so a header stays.
fn spoil_last(grid: &mut Grid)
    ensures k { grid.new.k ≡ grid.old.k }
    ensures cheat { IsCheat grid.old.k grid.old.shares grid.new.shares }
    ensures header { IsSome (header_of_grid grid.old.k grid.old.shares) →
        IsSome (header_of_grid grid.new.k grid.new.shares) }
{
    let last = 2 * grid.width() - 1;
    let cell = Cell {
        row: last,
        col: last,
    };
    let mut share = *grid.cell(cell);
    spoil(&mut share);
    grid.set(cell, &share);
    let _k = grid.width();
}

/// Tries the whole core on the block that a number makes for a width: its square is repaired from
/// half of its cells, k * k of them along rows and as many along columns, among k samples whose
/// share was changed; then a share of the extension is changed, and the square of that grid's
/// header is repaired from k cells of its last row, proved along columns, and a fraud proof
/// verified.
///
/// It refuses only where there is no memory.
///
/// docs/FORMATS.md, "The trial of a number".
pub fn trial(alloc: Global, number: u64, k: u16) -> Result<Trial, NoMemory>
    requires width { IsTrue (is_width k) }
    ensures { IfOk result (IsTrial number k) }
{
    let block = block(alloc, number, k)?;
    let square = laid(alloc, &block)?;
    let mut grid = extended(alloc, &square)?;
    let first = first_session(alloc, &grid, &square)?;
    let root = first.root;
    spoil_last(&mut grid);
    let (second, upheld) = second_session(alloc, &grid, &square)?;
    Ok(Trial {
        k,
        blobs: block.blobs.len() as u32,
        root,
        proved: first.proved,
        lies: first.lies,
        first: first.outcome,
        second,
        upheld,
    })
}
