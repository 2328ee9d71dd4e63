//! Marks of the cells that samples showed: one for each cell of the square, row-major.

ghost use Rattle.std.specs.Prelude.{◌≡◌, ◌↔◌, ◌⊎◌, ◌+◌, ◌*◌, ◌<◌, ◌≤◌, ℕ, length, true, IsTrue};
ghost use Rattle.std.specs.List.{Contains, list_all};
ghost use Rattle.namespace_id.specs.declared.cells.Cell.{Cell as Place};
ghost use Rattle.namespace_id.specs.Cells.{is_width, is_in_square};
ghost use Rattle.light_node.specs.Nodes.{is_marked, AreMarkedBefore, IsUnmarkedAt, IsUnmarkedIn};

use indexmap::IndexSet;
use namespace_id::{Cell, CellRoom, cell_numbered, is_in_square};

/// The place of a cell's mark.
fn place(k: u16, cell: Cell) -> usize
    requires width { IsTrue (is_width k) }
    requires cell { IsTrue (is_in_square k cell) }
    ensures value { result ≡ cell.row * (2 * k) + cell.col }
    ensures within { result < 2 * k * (2 * k) }
{
    cell.row as usize * (2 * k as usize) + cell.col as usize
}

/// Whether a cell is marked.
fn is_marked(k: u16, shown: &[bool], cell: Cell) -> bool
    requires width { IsTrue (is_width k) }
    requires cell { IsTrue (is_in_square k cell) }
    requires marks { length shown.now ≡ 2 * k * (2 * k) }
    ensures { result ≡ is_marked k shown.now cell }
{
    shown[place(k, cell)]
}

/// Whether a cell, which may be any, is one of the square and marked.
pub(crate) fn has_mark(k: u16, shown: &[bool], cell: Cell) -> bool
    requires width { IsTrue (is_width k) }
    requires marks { length shown.now ≡ 2 * k * (2 * k) }
    ensures inside { result ≡ true → is_in_square k cell ≡ true }
    ensures marked { result ≡ true → is_marked k shown.now cell ≡ true }
{
    is_in_square(k, cell) && is_marked(k, shown, cell)
}

/// Marks a cell.
pub(crate) fn mark(k: u16, shown: &mut [bool], cell: Cell)
    requires width { IsTrue (is_width k) }
    requires cell { IsTrue (is_in_square k cell) }
    requires marks { length shown.old ≡ 2 * k * (2 * k) }
    ensures marks { length shown.new ≡ length shown.old }
    ensures marked { (other : Place) → is_in_square k other ≡ true →
        (is_marked k shown.new other ≡ true)
        ↔ ((is_marked k shown.old other ≡ true) ⊎ (cell ≡ other)) }
{
    shown[place(k, cell)] = true;
}

/// The first place of an unmarked cell in a list, where all in front of `from` are marked; the
/// length of the list where all are.
pub(crate) fn first_unmarked(k: u16, shown: &[bool], cells: &[Cell], from: usize) -> usize
    requires width { IsTrue (is_width k) }
    requires marks { length shown.now ≡ 2 * k * (2 * k) }
    requires inside { IsTrue (list_all (is_in_square k) cells.now) }
    requires within { from ≤ length cells.now }
    requires before { AreMarkedBefore k shown.now cells.now from }
    ensures within { result ≤ length cells.now }
    ensures before { AreMarkedBefore k shown.now cells.now result }
    ensures unmarked { IsUnmarkedAt k shown.now cells.now result }
{
    let mut next = from;
    while next < cells.len() && is_marked(k, shown, cells[next]) {
        next += 1;
    }
    next
}

/// Whether a cell is in a set and isn't marked.
fn is_unmarked_in(k: u16, shown: &[bool], cells: &IndexSet<Cell>, cell: Cell) -> bool
    requires width { IsTrue (is_width k) }
    requires cell { IsTrue (is_in_square k cell) }
    requires marks { length shown.now ≡ 2 * k * (2 * k) }
    ensures { IsTrue result ↔ IsUnmarkedIn k shown.now cells.now.keys cell }
{
    !is_marked(k, shown, cell) && cells.contains(&cell)
}

/// Fills the room with the unmarked cells of a set, row-major, in place of what it held.
pub(crate) fn fill_unmarked(k: u16, shown: &[bool], cells: &IndexSet<Cell>, room: &mut CellRoom)
    requires width { IsTrue (is_width k) }
    requires marks { length shown.now ≡ 2 * k * (2 * k) }
    requires room { room.old.k ≡ k }
    ensures width { room.new.k ≡ k }
    ensures filled { (cell : Place) →
        Contains room.new.list cell ↔ IsUnmarkedIn k shown.now cells.now.keys cell }
{
    room.clear();
    let in_row = 2 * k;
    let count = in_row as usize * in_row as usize;
    for number in 0..count {
        let cell = cell_numbered(in_row, number);
        if is_unmarked_in(k, shown, cells, cell) {
            room.add(cell);
        }
    }
}
