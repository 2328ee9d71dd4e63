//! The two sessions of a trial.

ghost use Rattle.std.specs.Prelude.{◌≡◌, ◌≤◌, IsSome, IfOk, Some};
ghost use Rattle.axis_roots.specs.Grids.{header_of_grid};
ghost use Rattle.axis_roots.specs.Trees.{trees_of_grid};
ghost use Rattle.da_demo.specs.Sessions.{first_messages, second_messages};
ghost use Rattle.da_demo.specs.Gathered.{IsGathered};
ghost use Rattle.da_demo.specs.Steps.{IsFirst, IsSecond};

use crate::gathering::{Gathered, gather_half, gather_lies, gather_low};
use crate::telling::{judge, tell};
use crate::{Outcome, Upheld};
use axis_roots::{Grid, Trees};
use data_header::{Header, data_root};
use namespace_id::NoMemory;
use square_layout::Square;
use std::alloc::Global;

/// What came of the first session.
#[derive(Clone, Copy)]
pub(crate) struct First {
    /// The data root of the grid's header.
    pub(crate) root: [u8; 32],
    /// How many samples were proved, and how many were refused.
    pub(crate) proved: u64,
    pub(crate) lies: u64,
    pub(crate) outcome: Outcome,
}

/// The trees of a grid that has a header.
fn trees_of(alloc: Global, grid: &Grid) -> Result<Trees, NoMemory>
    requires { IsSome (header_of_grid grid.now.k grid.now.shares) }
    ensures { IfOk result (λ trees. trees_of_grid grid.now.k grid.now.shares ≡ Some trees) }
{
    let trees = Trees::of(alloc, grid)?;
    Ok(trees.unwrap())
}

/// The first session, fed: with lies, and half of the cells.
fn first_gathered(
    alloc: Global,
    grid: &Grid,
    trees: &Trees,
    header: &Header,
) -> Result<Gathered, NoMemory>
    requires trees { trees_of_grid grid.now.k grid.now.shares ≡ Some trees.now }
    ensures { IfOk result
        (IsGathered header.now (first_messages grid.now.k grid.now.shares)) }
{
    let mut gathered = Gathered::new(alloc, header)?;
    gather_lies(grid, trees, header, &mut gathered)?;
    gather_half(grid, trees, header, &mut gathered)?;
    Ok(gathered)
}

/// The second session, fed.
fn second_gathered(
    alloc: Global,
    grid: &Grid,
    trees: &Trees,
    header: &Header,
) -> Result<Gathered, NoMemory>
    requires trees { trees_of_grid grid.now.k grid.now.shares ≡ Some trees.now }
    ensures { IfOk result
        (IsGathered header.now (second_messages grid.now.k grid.now.shares)) }
{
    let mut gathered = Gathered::new(alloc, header)?;
    gather_low(grid, trees, header, &mut gathered)?;
    Ok(gathered)
}

/// The first session over a grid that has a header: it is repaired from half of its cells, among
/// lies.
pub(crate) fn first_session(alloc: Global, grid: &Grid, square: &Square) -> Result<First, NoMemory>
    requires { IsSome (header_of_grid grid.now.k grid.now.shares) }
    ensures { IfOk result (IsFirst grid.now.k grid.now.shares square.now) }
{
    let trees = trees_of(alloc, grid)?;
    let header = trees.header(alloc)?;
    let Gathered {
        session,
        proved,
        lies,
    } = first_gathered(alloc, grid, &trees, &header)?;
    let (outcome, _proof) = tell(session.finish(), square);
    let root = data_root(&header);
    Ok(First {
        root,
        proved,
        lies,
        outcome,
    })
}

/// The second session over a grid that has a header: it is repaired from k cells of its last row,
/// and a fraud proof is verified.
pub(crate) fn second_session(
    alloc: Global,
    grid: &Grid,
    square: &Square,
) -> Result<(Outcome, Upheld), NoMemory>
    requires { IsSome (header_of_grid grid.now.k grid.now.shares) }
    ensures { IfOk result (λ told. IsSecond grid.now.k grid.now.shares square.now told.0 told.1) }
{
    let trees = trees_of(alloc, grid)?;
    let header = trees.header(alloc)?;
    let gathered = second_gathered(alloc, grid, &trees, &header)?;
    let (outcome, proof) = tell(gathered.session.finish(), square);
    Ok((outcome, judge(alloc, &header, proof)?))
}
