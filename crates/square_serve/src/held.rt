//! A square that is held, and its answers.

ghost use Rattle.std.specs.Prelude.{◌≡◌, ◌↔◌, ◌*◌, ◌+◌, ◌<◌, ◌≤◌, IsErr, IsErrOf, IfOk, map, take, drop, true, false};
ghost use Rattle.namespace_id.specs.declared.cells.Axis.TheVariants.{Row};
ghost use Rattle.namespace_id.specs.Names.{is_parity};
ghost use Rattle.namespace_id.specs.Cells.{is_in_square};
ghost use Rattle.square_layout.specs.Blocks.{SquareShares};
ghost use Rattle.axis_roots.specs.Grids.{axis_shares, share_at, grid_roots, HasNoHeader};
ghost use Rattle.axis_roots.specs.Openings.{IsProved};
ghost use Rattle.axis_roots.specs.Trees.{message_at};
ghost use Rattle.square_serve.specs.Shares.{namespace_shares};
ghost use Rattle.square_serve.specs.Answers.{shown, is_wanted, wanted_rows, IsComplete};
ghost use Rattle.square_serve.specs.Needed.{AreNeeded};
ghost use Rattle.square_serve.specs.RowNames.{row_names};
ghost use Rattle.square_serve.specs.Finding.{found_on, HasColumns};
ghost use Rattle.square_serve.specs.Serving.{IsHeld, Holds, row_entry, found_in, answer_for};

use crate::finding::{RowFound, found_in, place_in};
use crate::needed::NeededTrees;
use crate::ordering::has_header;
use crate::rows::{RowNames, front_of, row_names};
use crate::serve_laws;
use axis_roots::{Grid, Message, NsAnswer, NsEntry, index, message_from};
use data_header::Header;
use namespace_id::{Axis, Cell, Namespace, NoMemory, Share, is_in_square, namespace_law};
use square_layout::Square;
use std::alloc::{AllocError, Global};
use std::marker::Model;
use thiserror::Error;

/// Why a square isn't held.
#[derive(Clone, Copy, Debug, PartialEq, Eq, Error)]
pub enum HeldError {
    /// The square has no header: the namespaces of a row or a column of its extension fall somewhere.
    #[error("the square has no header")]
    NoHeader,
    /// There was no memory.
    #[error("out of memory")]
    NoMemory,
}

/// The cell is not in the extended square.
#[derive(Clone, Copy, Debug, PartialEq, Eq, Error)]
#[error("the cell is outside the square")]
pub struct OutOfSquare;

/// Why a namespace request has no answer.
#[derive(Clone, Copy, Debug, PartialEq, Eq, Error)]
pub enum ServeError {
    /// The shares of PARITY are asked for.
    #[error("the namespace of parity shares")]
    Parity,
    /// There was no memory.
    #[error("out of memory")]
    NoMemory,
}

impl From<NoMemory> for HeldError {
    ghost use Rattle.square_serve.specs.declared.held.HeldError.TheVariants.{NoMemory as Full};

    ghost from_gives = { λ _ e. e ≡ Full };

    fn from(_error: NoMemory) -> HeldError {
        HeldError::NoMemory
    }
}

impl From<AllocError> for ServeError {
    ghost use Rattle.square_serve.specs.declared.held.ServeError.TheVariants.{NoMemory as Full};

    ghost from_gives = { λ _ e. e ≡ Full };

    fn from(_error: AllocError) -> ServeError {
        ServeError::NoMemory
    }
}

/// An extended data square (EDS) that a node holds and serves. The namespaced Merkle tree (NMT) of a row
/// or a column is made when an answer first needs it.
///
/// Celestia specifications, "Data Structures".
pub struct Held {
    grid: Grid,
    // one for each row of the original square
    names: Vec<RowNames>,
    trees: NeededTrees,
}

impl Model for Held {
    ghost use Rattle.axis_roots.specs.Grids.{grid_roots};
    ghost use Rattle.square_serve.specs.Needed.{AreKept};
    ghost use Rattle.square_serve.specs.Serving.{HeldParts};

    ghost Value = { HeldParts };

    ghost view = { λ h. record { k = h.grid.k; grid = h.grid.shares; header = grid_roots h.grid.k h.grid.shares } };

    ghost invariant = { λ h. AreKept h.grid.k h.grid.shares h.names.items h.trees };
}

impl Drop for Held {
    fn drop(self) {
        let Held {
            grid: _,
            names: _,
            trees: _,
        } = self;
    }
}

/// The entries of the rows of a grid that may hold a namespace. The trees over these rows are made,
/// those of other rows aren't.
fn entries_of(
    alloc: Global,
    grid: &Grid,
    names: &[RowNames],
    trees: &mut NeededTrees,
    namespace: &Namespace,
) -> Result<Vec<NsEntry>, AllocError>
    requires names { names.now ≡ row_names grid.now.k grid.now.shares }
    requires trees { AreNeeded grid.now.k grid.now.shares trees.old }
    requires other { is_parity namespace.now ≡ false }
    ensures trees { AreNeeded grid.now.k grid.now.shares trees.new }
    ensures entries { IfOk result (λ entries. entries.items ≡
        map (row_entry grid.now.k grid.now.shares namespace.now)
        (wanted_rows (grid_roots grid.now.k grid.now.shares) namespace.now)) }
{
    let mut entries = Vec::new(alloc);
    for row in 0..grid.width() {
        if names[row as usize].may_hold(namespace) {
            trees.make(grid, Axis::Row, row);
            let tree = trees.tree(Axis::Row, row);
            let found = found_in(alloc, front_of(grid, row), tree, namespace)?;
            entries.push(NsEntry { row, found })?;
        }
    }
    Ok(entries)
}

impl Held {
    ghost use Rattle.std.specs.Borrow.{sem};
    ghost use Rattle.std.specs.Io.BufRead.{Rests};
    ghost use Rattle.square_serve.specs.contracts.held.Held.{the_row};

    /// Sees that a square has a header, and extends it. Nothing is hashed yet.
    ///
    /// Refuses a square without a header, which drops it. It takes all memory but that of namespace
    /// answers: for 4 * k * k shares, as many digests of leaves, 4k trees of 4k - 1 digests each, a
    /// header, 2k namespaces, and for what it works with besides.
    ///
    /// Celestia specifications, "Data Structures", available data header.
    pub fn of(alloc: Global, square: Square) -> Result<Held, HeldError>
        ensures no_header { IsErrOf result HeldError.NoHeader → HasNoHeader square }
        ensures held { IfOk result (λ held. Holds held square) }
    {
        if !has_header(&square) {
            return Err(HeldError::NoHeader);
        }
        let names = row_names(alloc, &square)?;
        let grid = Grid::extend(alloc, &square)?;
        let trees = NeededTrees::of(alloc, &grid)?;
        Ok(Held { grid, names, trees })
    }

    /// Says what is true of every held square. It changes nothing.
    pub fn held_law(&self)
        ensures held { IsHeld self.now }
    {
        // The width of a grid is told with what is true of every grid.
        let _k = self.grid.width();
    }

    /// The data availability header (DAH) of the square, which is kept. Where it is first asked for, the
    /// trees that weren't needed yet are made: each leaf is hashed once, for its row and its column, and
    /// each node once. It takes no memory.
    ///
    /// Celestia specifications, "Data Structures", available data header.
    pub fn header(&mut self) -> &Header
        ensures value { result.now ≡ self.old.header }
        ensures* kept { sem 𝓛 (Rests the_row self.entry (λ new. new ≡ self.old)) }
    {
        self.trees.make_header(&self.grid);
        self.trees.header()
    }

    /// The sample of a cell: its share with the inclusion proof along an axis. It takes no memory, and
    /// hashes nothing where the tree of that axis was needed before.
    ///
    /// Refuses exactly a cell whose row or column isn't below 2k.
    ///
    /// Celestia specifications, "Data Structures", namespaced Merkle tree inclusion proofs.
    pub fn sample(&mut self, cell: Cell, axis: Axis) -> Result<Message, OutOfSquare>
        ensures out_of_square { IsErr result ↔ (is_in_square self.old.k cell ≡ false) }

        // The sample is that of the cell and the axis, shows the extension's share, and is proved
        // under the header.
        ensures value { IfOk result (λ message.
            message ≡ message_at self.old.k self.old.grid cell axis) }
        ensures cell { IfOk result (λ message. message.cell ≡ cell) }
        ensures axis { IfOk result (λ message. message.axis ≡ axis) }
        ensures share { IfOk result (λ message.
            message.share ≡ share_at (2 * self.old.k) self.old.grid cell) }
        ensures proved { IfOk result (IsProved self.old.header) }
        ensures kept { self.new ≡ self.old }
    {
        if !is_in_square(self.grid.width(), cell) {
            return Err(OutOfSquare);
        }
        let number = index(axis, cell);
        self.trees.make(&self.grid, axis, number);
        let tree = self.trees.tree(axis, number);
        Ok(message_from(&self.grid, cell, axis, tree))
    }

    /// The width k of the original square.
    pub fn width(&self) -> u16
        ensures value { result ≡ self.now.k }
        ensures header { result ≡ self.now.header.k }
    {
        self.grid.width()
    }

    /// Whether a row of the original square may hold a namespace. The answer for the namespace has an entry
    /// for each such row, from the first down.
    ///
    /// docs/RULES.md, "Namespace answers".
    pub fn wants(&self, row: u16, namespace: &Namespace) -> bool
        requires { row < self.now.k }
        ensures { result ≡ is_wanted self.now.header namespace.now row }
    {
        let names: &[RowNames] = &self.names;
        names[row as usize].may_hold(namespace)
    }

    /// What is found of a namespace that isn't `PARITY` in a row of the original square. It takes no memory, and
    /// hashes nothing where the tree of that row was needed before.
    ///
    /// Celestia specifications, "Data Structures", namespace proofs.
    pub fn find(&mut self, row: u16, namespace: &Namespace) -> RowFound
        requires row { row < self.old.k }
        requires other { is_parity namespace.now ≡ false }
        ensures found { found_on self.old.k self.old.grid row result ≡
            found_in self.old.k self.old.grid namespace.now row }
        ensures columns { HasColumns self.old.k result }
        ensures kept { self.new ≡ self.old }
    {
        // The width of a grid is told with what is true of every grid.
        let _k = self.grid.width();
        self.trees.make(&self.grid, Axis::Row, row);
        let tree = self.trees.tree(Axis::Row, row);
        place_in(front_of(&self.grid, row), tree, namespace)
    }

    /// So many shares of a row of the original square, from a column on.
    pub fn shares(&self, row: u16, start: u16, count: u16) -> &[Share]
        requires row { row < self.now.k }
        requires columns { start + count ≤ self.now.k }
        ensures { result.now ≡ take count (drop start (axis_shares self.now.k self.now.grid Row row)) }
    {
        let first = start as usize;
        &front_of(&self.grid, row)[first..first + count as usize]
    }

    /// The answer to a namespace request: for each row of the original square that may hold the
    /// namespace, from the first down, its shares there with the range proof, or an absence proof. It
    /// hashes nothing where the trees of these rows were needed before.
    ///
    /// Refuses exactly `PARITY`. It takes memory for the entries and for the shares that they show.
    ///
    /// Celestia specifications, "Data Structures", namespace proofs; docs/RULES.md, "Namespace answers".
    pub fn namespace(
        &mut self,
        alloc: Global,
        namespace: &Namespace,
    ) -> Result<NsAnswer, ServeError>
        ensures parity { IsErrOf result ServeError.Parity ↔ (is_parity namespace.now ≡ true) }
        ensures value { IfOk result (λ answer. answer ≡ answer_for self.old namespace.now) }

        // The answer is complete under the header, and shows exactly the shares of the square that is held.
        ensures complete { IfOk result (λ answer.
            IsComplete self.old.header namespace.now answer) }
        ensures shares { IfOk result (λ answer. (square : SquareShares) → Holds self.old square →
            shown answer ≡ namespace_shares square namespace.now) }
        ensures kept { self.new ≡ self.old }
    {
        if namespace.is_parity() {
            return Err(ServeError::Parity);
        }
        self.held_law();
        let entries = entries_of(alloc, &self.grid, &self.names, &mut self.trees, namespace)?;
        // These tell that the answer is complete, and what it shows.
        namespace_law(namespace);
        serve_laws();
        Ok(NsAnswer { entries })
    }
}
