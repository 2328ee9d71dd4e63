//! The samples of the two sessions of a trial, as they are made from a grid, checked under its header
//! and fed.

ghost use Rattle.std.specs.Prelude.{◌≡◌, ◌+◌, ◌*◌, ◌<◌, ◌≤◌, ◌^◌, ◌++◌, List, [], ◌∷◌, IsTrue, IfSome, IsNone, IfOk, OnOk, Some, None};
ghost use Rattle.namespace_id.specs.Cells.{is_width, is_in_square};
ghost use Rattle.namespace_id.specs.Sizes.{most_leaves};
ghost use Rattle.axis_roots.specs.declared.message.messages.Message.{Message as Sent};
ghost use Rattle.axis_roots.specs.Messages.{message_refusal};
ghost use Rattle.axis_roots.specs.Proved.{IsUnder, kept_message};
ghost use Rattle.axis_roots.specs.Trees.{trees_of_grid, message_at};
ghost use Rattle.da_demo.specs.Sessions.{spoiled, lies_of, is_even, axis_of, half_among, first_messages, second_messages};
ghost use Rattle.da_demo.specs.Gathered.{IsGathered};

use axis_roots::{
    Grid, Message, Proved, Trees, check, grid_laws, index, message_from, message_laws,
};
use data_header::Header;
use namespace_id::{Axis, Cell, NoMemory, SHARE_SIZE, Share, cell_numbered};
use repair_queue::GrowingSession;
use std::alloc::Global;

/// A session that is fed with the samples that are proved, how many these are, and how many aren't. Few
/// of them are kept at once, and it takes memory for no more.
#[derive(Drop)]
pub(crate) struct Gathered {
    pub(crate) session: GrowingSession,
    pub(crate) proved: u64,
    pub(crate) lies: u64,
}

/// Xors the last byte of a share with 1.
pub(crate) fn spoil(share: &mut Share)
    ensures { share.new ≡ spoiled share.old }
{
    share.0[SHARE_SIZE - 1] ^= 1;
}

/// The certificate of a sample; none where it isn't proved.
fn proved(header: &Header, message: Message) -> Option<Proved>
    ensures under { IfSome result (IsUnder header.now) }
    ensures message { IfSome result (λ proved. kept_message proved ≡ message) }
    ensures holds { IfSome result (λ _. message_refusal header.now message ≡ None) }
    ensures fails { IsNone result → message_refusal header.now message ≡ None → ⊥ }
{
    message_laws();
    let _k = header.k;
    check(header, message).ok()
}

impl Gathered {
    /// A session under a header that is fed with nothing yet.
    pub(crate) fn new(alloc: Global, header: &Header) -> Result<Gathered, NoMemory>
        ensures gathered { IfOk result (IsGathered header.now []) }
        ensures none { IfOk result (λ gathered. gathered.proved + gathered.lies ≡ 0) }
    {
        let session = GrowingSession::new(alloc, header)?;
        Ok(Gathered {
            session,
            proved: 0,
            lies: 0,
        })
    }

    /// Feeds the session with a sample where it is proved, and counts it.
    fn take_in(&mut self, header: &Header, message: Message) -> Result<(), NoMemory>
        requires header { self.old.session.header ≡ header.now }
        requires few { self.old.proved + self.old.lies < 2 ^ 32 }
        ensures header { self.new.session.header ≡ header.now }
        ensures gathered { OnOk result ((ms : List Sent) → IsGathered header.now ms self.old →
            IsGathered header.now (ms ++ message ∷ []) self.new) }
        ensures near { self.new.proved + self.new.lies ≤ self.old.proved + self.old.lies + 1 }
    {
        match proved(header, message) {
            Some(proved) => {
                self.session.feed(proved)?;
                self.proved += 1;
            }
            None => self.lies += 1,
        }
        Ok(())
    }
}

/// The sample of a cell along an axis.
fn message_at(grid: &Grid, trees: &Trees, cell: Cell, axis: Axis) -> Message
    requires cell { IsTrue (is_in_square grid.now.k cell) }
    requires trees { trees_of_grid grid.now.k grid.now.shares ≡ Some trees.now }
    ensures { result ≡ message_at grid.now.k grid.now.shares cell axis }
{
    grid_laws();
    message_from(grid, cell, axis, trees.tree(axis, index(axis, cell)))
}

/// Takes in the sample of the first cell of each odd row, along its row, with its share spoiled.
pub(crate) fn gather_lies(
    grid: &Grid,
    trees: &Trees,
    header: &Header,
    gathered: &mut Gathered,
) -> Result<(), NoMemory>
    requires trees { trees_of_grid grid.now.k grid.now.shares ≡ Some trees.now }
    requires header { gathered.old.session.header ≡ header.now }
    requires none { gathered.old.proved + gathered.old.lies ≡ 0 }
    ensures header { gathered.new.session.header ≡ header.now }
    ensures gathered { OnOk result (IsGathered header.now [] gathered.old →
        IsGathered header.now (lies_of grid.now.k grid.now.shares) gathered.new) }
    ensures few { OnOk result (gathered.new.proved + gathered.new.lies ≤ grid.now.k) }
{
    for i in 0..grid.width() {
        let cell = Cell {
            row: 2 * i + 1,
            col: 0,
        };
        let mut message = message_at(grid, trees, cell, Axis::Row);
        spoil(&mut message.share);
        gathered.take_in(header, message)?;
    }
    Ok(())
}

/// Whether row and column of a cell add up to an even number.
fn is_even(cell: Cell) -> bool
    requires row { cell.row < most_leaves }
    requires col { cell.col < most_leaves }
    ensures { result ≡ is_even cell }
{
    (cell.row + cell.col) % 2 == 0
}

/// The row of a cell where that is even, else its column.
fn axis_of(cell: Cell) -> Axis
    ensures { result ≡ axis_of cell }
{
    if cell.row % 2 == 0 {
        Axis::Row
    } else {
        Axis::Col
    }
}

/// Takes in the sample of a cell where its row and its column add up to an even number.
fn gather_even(
    grid: &Grid,
    trees: &Trees,
    header: &Header,
    cell: Cell,
    gathered: &mut Gathered,
) -> Result<(), NoMemory>
    requires width { IsTrue (is_width grid.now.k) }
    requires trees { trees_of_grid grid.now.k grid.now.shares ≡ Some trees.now }
    requires cell { IsTrue (is_in_square grid.now.k cell) }
    requires header { gathered.old.session.header ≡ header.now }
    requires few { gathered.old.proved + gathered.old.lies < 2 ^ 32 }
    ensures header { gathered.new.session.header ≡ header.now }
    ensures gathered { OnOk result ((ms : List Sent) → IsGathered header.now ms gathered.old →
        IsGathered header.now (ms ++ half_among grid.now.k grid.now.shares (cell ∷ []))
        gathered.new) }
    ensures near { gathered.new.proved + gathered.new.lies
        ≤ gathered.old.proved + gathered.old.lies + 1 }
{
    if is_even(cell) {
        gathered.take_in(header, message_at(grid, trees, cell, axis_of(cell)))?;
    }
    Ok(())
}

/// Takes in the samples of half of the cells, from the last one back: of those whose row and
/// column add up to an even number.
pub(crate) fn gather_half(
    grid: &Grid,
    trees: &Trees,
    header: &Header,
    gathered: &mut Gathered,
) -> Result<(), NoMemory>
    requires trees { trees_of_grid grid.now.k grid.now.shares ≡ Some trees.now }
    requires header { gathered.old.session.header ≡ header.now }
    requires few { gathered.old.proved + gathered.old.lies ≤ grid.now.k }
    ensures { OnOk result (IsGathered header.now (lies_of grid.now.k grid.now.shares) gathered.old →
        IsGathered header.now (first_messages grid.now.k grid.now.shares) gathered.new) }
{
    let side = 2 * grid.width();
    let mut left = side as usize * side as usize;
    while left > 0 {
        left -= 1;
        gather_even(grid, trees, header, cell_numbered(side, left), gathered)?;
    }
    Ok(())
}

/// Takes in the samples of the first k cells of the last row, along their columns.
pub(crate) fn gather_low(
    grid: &Grid,
    trees: &Trees,
    header: &Header,
    gathered: &mut Gathered,
) -> Result<(), NoMemory>
    requires trees { trees_of_grid grid.now.k grid.now.shares ≡ Some trees.now }
    requires header { gathered.old.session.header ≡ header.now }
    requires none { gathered.old.proved + gathered.old.lies ≡ 0 }
    ensures { OnOk result (IsGathered header.now [] gathered.old →
        IsGathered header.now (second_messages grid.now.k grid.now.shares) gathered.new) }
{
    let k = grid.width();
    for col in 0..k {
        let cell = Cell {
            row: 2 * k - 1,
            col,
        };
        gathered.take_in(header, message_at(grid, trees, cell, Axis::Col))?;
    }
    Ok(())
}
