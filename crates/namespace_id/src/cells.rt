//! Cells of an extended data square, and the namespace of the leaf over one.

ghost use Rattle.std.specs.Prelude.{◌≡◌, ◌↔◌, ◌+◌, ◌*◌, ◌<◌, ◌≤◌, ℕ, List, length, true, IsTrue, IsSome, IfSome};
ghost use Rattle.std.specs.List.{Contains, list_all};
ghost use Rattle.namespace_id.specs.declared.cells.Cell.{Cell as Place};
ghost use Rattle.namespace_id.specs.Cells.{crossing, is_width, is_in_square, leaf_namespace, is_before, are_cells, cell_numbered, all_cells};
ghost use Rattle.namespace_id.specs.Lists.{holds_along};

use crate::{Namespace, PARITY, Share};
use std::marker::Model;

/// A cell of an extended data square (EDS) of 2k by 2k shares.
///
/// The numbers may be any: `is_in_square` says whether a square has the cell.
#[derive(Clone, Copy, Debug, PartialEq, Eq, Hash)]
pub struct Cell {
    pub row: u16,
    pub col: u16,
}

/// Whether an axis of a square is a row or a column.
#[derive(Clone, Copy, Debug, PartialEq, Eq)]
pub enum Axis {
    Row,
    Col,
}

impl Axis {
    /// The crossing kind: that of the columns for a row, and that of the rows for a column.
    pub fn crossing(self) -> Axis
        ensures { result ≡ crossing self }
    {
        match self {
            Axis::Row => Axis::Col,
            Axis::Col => Axis::Row,
        }
    }
}

/// Whether a square may have this width k: a power of two from 1 to 512.
///
/// docs/RULES.md, "Widths".
pub fn is_width(k: u16) -> bool
    ensures { result ≡ is_width k }
{
    matches!(k, 1 | 2 | 4 | 8 | 16 | 32 | 64 | 128 | 256 | 512)
}

/// Whether the extended square of width `k` has the cell.
pub fn is_in_square(k: u16, cell: Cell) -> bool
    requires { IsTrue (is_width k) }
    ensures { result ≡ is_in_square k cell }
{
    cell.row < 2 * k && cell.col < 2 * k
}

/// The cell with a number, counted from 0 in row-major order, where so many cells are in a row and
/// in a column.
pub fn cell_numbered(in_row: u16, number: usize) -> Cell
    requires { number < in_row * in_row }
    ensures value { result ≡ cell_numbered in_row number }
    ensures number { result.row * in_row + result.col ≡ number }
    ensures row { result.row < in_row }
    ensures col { result.col < in_row }
{
    Cell {
        row: (number / in_row as usize) as u16,
        col: (number % in_row as usize) as u16,
    }
}

/// The namespace of the leaf over a cell: in the original square the first 29 bytes of its share,
/// outside of it `PARITY`.
///
/// Celestia specifications, "Data Structures", erasure coding.
pub fn leaf_namespace(k: u16, cell: Cell, share: &Share) -> Namespace
    requires width { IsTrue (is_width k) }
    requires cell { IsTrue (is_in_square k cell) }
    ensures { result ≡ leaf_namespace k cell share.now }
{
    if cell.row >= k || cell.col >= k {
        return PARITY;
    }
    share.namespace()
}

/// Cells of the extended square of width `k`, strictly ascending in row-major order.
#[derive(Debug, Drop)]
pub struct Cells {
    pub k: u16,
    pub list: Vec<Cell>,
}

impl Model for Cells {
    ghost use Rattle.namespace_id.specs.Cells.{CellList};

    ghost Value = { CellList };

    ghost use Rattle.namespace_id.specs.Cells.{AreCells};

    ghost view = { λ c. record { k = c.k; list = c.list.items } };

    ghost invariant = { λ c. AreCells (record { k = c.k; list = c.list.items }) };
}

/// Whether the first cell comes before the second in row-major order.
pub fn is_before(a: Cell, b: Cell) -> bool
    ensures { result ≡ is_before a b }
{
    a.row < b.row || (a.row == b.row && a.col < b.col)
}

/// Whether each cell comes before the next.
fn are_ascending(cells: &[Cell]) -> bool
    ensures { result ≡ holds_along is_before cells.now }
{
    for i in 1..cells.len() {
        if !is_before(cells[i - 1], cells[i]) {
            return false;
        }
    }
    true
}

/// Whether each cell is in the extended square of width `k`.
fn are_inside(k: u16, cells: &[Cell]) -> bool
    requires { IsTrue (is_width k) }
    ensures { result ≡ list_all (is_in_square k) cells.now }
{
    cells.iter().all(|cell| is_in_square(k, *cell))
}

impl Cells {
    /// The cells of a list; none where `k` is no width, a cell is outside its square, or a cell doesn't
    /// come after the one before it in row-major order, and then the list is dropped. It takes no memory.
    pub fn of(k: u16, list: Vec<Cell>) -> Option<Cells>
        ensures some { IsSome result ↔ IsTrue (are_cells k list.items) }
        ensures k { IfSome result (λ cells. cells.k ≡ k) }
        ensures list { IfSome result (λ cells. cells.list ≡ list.items) }
    {
        if !is_width(k) {
            return None;
        }
        if !are_inside(k, &list) {
            return None;
        }
        if !are_ascending(&list) {
            return None;
        }
        Some(Cells { k, list })
    }
}

/// What is known of lists of the cells of a square, strictly ascending in row-major order, and of
/// the numbers of cells. It does nothing.
pub fn cells_laws()
    // All cells of a square are such a list.
    ensures all { (k : ℕ) → is_width k ≡ true → are_cells k (all_cells k) ≡ true }
    ensures member { (k : ℕ) (cell : Place) → is_width k ≡ true →
        Contains (all_cells k) cell ↔ (is_in_square k cell ≡ true) }

    // Such a list is at most as long, and its cells alone say which it is.
    ensures count { (k : ℕ) (list : List Place) → are_cells k list ≡ true →
        length list ≤ 2 * k * (2 * k) }
    ensures once { (k : ℕ) (list other : List Place) → are_cells k list ≡ true →
        are_cells k other ≡ true →
        ((cell : Place) → Contains list cell ↔ Contains other cell) → list ≡ other }

    // Each cell has one number, and cells come in the order of their numbers.
    ensures number { (k : ℕ) (cell : Place) → is_in_square k cell ≡ true →
        (cell.row * (2 * k) + cell.col < 2 * k * (2 * k))
        × (cell_numbered (2 * k) (cell.row * (2 * k) + cell.col) ≡ cell) }
    ensures order { (in_row less more : ℕ) → less < more →
        is_before (cell_numbered in_row less) (cell_numbered in_row more) ≡ true }
{}
