//! Of squares and their extensions.

ghost use Rattle.std.specs.Prelude.{◌≡◌, ◌<◌, ℕ, List, IsTrue, IfOk, IfSome, Some};
ghost use Rattle.namespace_id.specs.declared.shares.Share.{Share as ShareOf};
ghost use Rattle.namespace_id.specs.Cells.{is_in_square};
ghost use Rattle.axis_roots.specs.Trees.{trees_of_grid};
ghost use Rattle.square_layout.specs.Blocks.{IsSquare};
ghost use Rattle.square_layout.specs.declared.laying.LayError.TheVariants.{NoMemory as Full};
ghost use Rattle.square_serve.specs.declared.held.HeldError.TheVariants as held;
ghost use Rattle.one_answer.specs.Ones.{AreOne};

use axis_roots::{Grid, Trees, grid_laws, header_of_square};
use data_header::Header;
use namespace_id::{Cell, NoMemory, Share};
use square_layout::{Block, LayError, Square, lay};
use square_serve::{Held, HeldError, HeldRows, serve_laws};
use std::alloc::Global;

/// A block has one square.
pub fn lay_twice(
    alloc: Global,
    block: &Block,
) -> (Result<Square, LayError>, Result<Square, LayError>)
    ensures { AreOne (λ x. x) Full result.0 result.1 }
{
    let first = lay(alloc, block);
    let second = lay(alloc, block);
    (first, second)
}

/// A square has one extension.
pub fn extend_twice(
    alloc: Global,
    square: &Square,
) -> (Result<Grid, NoMemory>, Result<Grid, NoMemory>)
    requires { IsSquare square.now }
    ensures { IfOk result.0 (λ one. IfOk result.1 (λ other. one ≡ other)) }
{
    grid_laws();
    let first = Grid::extend(alloc, square);
    let second = Grid::extend(alloc, square);
    (first, second)
}

/// Its trees have one header, whatever they are the trees of.
pub fn trees_header_twice(
    alloc: Global,
    trees: &Trees,
) -> (Result<Header, NoMemory>, Result<Header, NoMemory>)
    ensures { (k : ℕ) (shares : List ShareOf) → trees_of_grid k shares ≡ Some trees.now →
        IfOk result.0 (λ one. IfOk result.1 (λ other. one ≡ other)) }
{
    let first = trees.header(alloc);
    let second = trees.header(alloc);
    (first, second)
}

/// A share is put into a grid in one way.
pub fn set_twice(one: &mut Grid, other: &mut Grid, cell: Cell, share: &Share)
    requires cell { IsTrue (is_in_square one.old.k cell) }
    requires same { other.old ≡ one.old }
    ensures state { one.new ≡ other.new }
{
    one.set(cell, share);
    other.set(cell, share);
    one.width();
    other.width();
}

/// It has one header, or none.
pub fn header_of_square_twice(
    alloc: Global,
    square: &Square,
) -> (
    Result<Option<Header>, NoMemory>,
    Result<Option<Header>, NoMemory>,
)
    ensures { IfOk result.0 (λ one. IfOk result.1 (λ other. one ≡ other)) }
{
    grid_laws();
    let first = header_of_square(alloc, square);
    let second = header_of_square(alloc, square);
    (first, second)
}

/// A square is held in one way, or has no header.
pub fn held_of_twice(
    alloc: Global,
    square: Square,
    copy: Square,
) -> (Result<Held, HeldError>, Result<Held, HeldError>)
    requires copy { copy ≡ square }
    ensures { AreOne (λ x. x) held.NoMemory result.0 result.1 }
{
    grid_laws();
    serve_laws();
    let first = Held::of(alloc, square);
    let second = Held::of(alloc, copy);
    (first, second)
}

/// So is one that is held without its extension.
pub fn held_rows_of_twice(
    alloc: Global,
    square: Square,
    copy: Square,
) -> (Result<HeldRows, HeldError>, Result<HeldRows, HeldError>)
    requires copy { copy ≡ square }
    ensures { AreOne (λ x. x) held.NoMemory result.0 result.1 }
{
    let first = HeldRows::of(alloc, square);
    let second = HeldRows::of(alloc, copy);
    (first, second)
}
