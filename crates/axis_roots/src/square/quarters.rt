//! The header of a square, of whose extension a quarter is kept.
//!
//! The lower left quarter has the recovery shares of the square's columns. A row of the extension is the
//! codeword of a row of the square or of that quarter: its other half is made in one line of k shares, and
//! its leaves are hashed from where the shares lie. So no share is copied but those of the columns,
//! and there is memory for k * k shares in place of 4 * k * k.

ghost use Rattle.std.specs.Prelude.{◌≡◌, ◌≢◌, ◌⊎◌, ◌+◌, ◌*◌, ◌<◌, ◌≤◌, ℕ, List, IsTrue, IfOk, IfSome, IsNone, length, get_or};
ghost use Rattle.namespace_id.specs.declared.shares.Share.{Share as ShareOf};
ghost use Rattle.namespace_id.specs.Cells.{is_width, is_in_square, cell_in, leaf_namespace};
ghost use Rattle.namespace_id.specs.Digests.{no_digest};
ghost use Rattle.namespace_id.specs.Names.{parity};
ghost use Rattle.nmt_tree.specs.Digests.{leaf_digest};
ghost use Rattle.axis_roots.specs.Lines.{blank};
ghost use Rattle.axis_roots.specs.Grids.{share_at, Extends, AreLeafDigests, IsHeaderOf, HasNoHeader};
ghost use Rattle.axis_roots.specs.Quarters.{quarter_column, IsLowerLeft, left_half};

use super::rooting::header_over;
use data_header::Header;
use leopard_code::{Room, extend};
use namespace_id::{
    BLANK_DIGEST, Cell, Digest, GREATEST_WIDTH, Namespace, NoMemory, PARITY, Share, leaf_namespace,
    shares_law,
};
use square_layout::Square;
use std::alloc::Global;

/// Copies a column of a square.
fn read_column(square: &Square, col: u16, line: &mut [Share])
    requires col { col < square.now.k }
    requires line { length line.old ≡ square.now.k }
    ensures { line.new ≡ quarter_column square.now.k square.now.shares col }
{
    let k = square.k as usize;
    for row in 0..k {
        line[row] = square.shares[row * k + col as usize];
    }
}

/// Writes a column of a quarter.
fn write_column(k: u16, col: u16, line: &[Share], quarter: &mut [Share])
    requires width { IsTrue (is_width k) }
    requires col { col < k }
    requires line { length line.now ≡ k }
    requires quarter { length quarter.old ≡ k * k }
    ensures column { quarter_column k quarter.new col ≡ line.now }

    // Every other column is as it was.
    ensures others { (other : ℕ) → other < k → other ≢ col →
        quarter_column k quarter.new other ≡ quarter_column k quarter.old other }
{
    for row in 0..k as usize {
        quarter[row * k as usize + col as usize] = line[row];
    }
}

/// Makes the lower left quarter of the extension of a square, by way of a line of 2k shares.
fn fill_quarter(room: &mut Room, square: &Square, line: &mut [Share], quarter: &mut [Share])
    requires room { room.old ≡ square.now.k }
    requires line { length line.old ≡ 2 * square.now.k }
    requires quarter { length quarter.old ≡ square.now.k * square.now.k }
    ensures room { room.new ≡ room.old }
    ensures quarter { IsLowerLeft square.now.k square.now.shares quarter.new }
{
    for col in 0..square.k {
        let (originals, recovery) = line.split_at_mut(square.k as usize);
        read_column(square, col, originals);
        extend(room, originals, recovery);
        write_column(square.k, col, recovery, quarter);
    }
}

/// The left half of a row of the extension.
fn left_half<'a>(square: &'a Square, quarter: &'a [Share], row: u16) -> &'a [Share]
    requires quarter { length quarter.now ≡ square.now.k * square.now.k }
    requires row { row < 2 * square.now.k }
    ensures half { result.now ≡ left_half square.now.k square.now.shares quarter.now row }
    ensures count { length result.now ≡ square.now.k }
{
    let (k, row) = (square.k as usize, row as usize);
    if row < k {
        &square.shares[row * k..(row + 1) * k]
    } else {
        &quarter[(row - k) * k..(row - k + 1) * k]
    }
}

/// Writes the namespaces of the leaves over k cells of a row beside each other, from this column on.
fn name_cells(k: u16, row: u16, col: u16, shares: &[Share], names: &mut [Namespace])
    requires width { IsTrue (is_width k) }
    requires row { row < 2 * k }
    requires col { col ≤ k }
    requires shares { length shares.now ≡ k }
    requires names { length names.old ≡ k }
    ensures { (pos : ℕ) → pos < k → get_or names.new pos parity
        ≡ leaf_namespace k (cell_in row (col + pos)) (get_or shares.now pos blank) }
{
    for pos in 0..k {
        let cell = Cell {
            row,
            col: col + pos,
        };
        names[pos as usize] = leaf_namespace(k, cell, &shares[pos as usize]);
    }
}

/// Hashes the leaves over k cells of a row beside each other, from this column on, by way of a line of
/// k namespaces.
fn put_leaves(
    k: u16,
    row: u16,
    col: u16,
    shares: &[Share],
    names: &mut [Namespace],
    leaves: &mut [Digest],
)
    requires width { IsTrue (is_width k) }
    requires row { row < 2 * k }
    requires col { col ≤ k }
    requires shares { length shares.now ≡ k }
    requires names { length names.old ≡ k }
    requires leaves { length leaves.old ≡ 2 * k * (2 * k) }
    ensures leaves { (pos : ℕ) → pos < k →
        get_or leaves.new (row * (2 * k) + (col + pos)) no_digest
        ≡ leaf_digest (leaf_namespace k (cell_in row (col + pos)) (get_or shares.now pos blank))
        (get_or shares.now pos blank) }

    // Every other leaf is as it was.
    ensures others { (number : ℕ) →
        (number < row * (2 * k) + col) ⊎ (row * (2 * k) + (col + k) ≤ number) →
        get_or leaves.new number no_digest ≡ get_or leaves.old number no_digest }
{
    name_cells(k, row, col, shares, names);
    let first = row as usize * (2 * k as usize) + col as usize;
    nmt_tree::put_leaves(names, shares, &mut leaves[first..first + k as usize]);
}

/// Hashes the leaves over all cells of the extension, row by row, by way of a line of k shares and one
/// of k namespaces.
fn fill_rows(
    room: &mut Room,
    square: &Square,
    quarter: &[Share],
    line: &mut [Share],
    names: &mut [Namespace],
    leaves: &mut [Digest],
)
    requires room { room.old ≡ square.now.k }
    requires quarter { IsLowerLeft square.now.k square.now.shares quarter.now }
    requires line { length line.old ≡ square.now.k }
    requires names { length names.old ≡ square.now.k }
    requires leaves { length leaves.old ≡ 2 * square.now.k * (2 * square.now.k) }
    ensures room { room.new ≡ room.old }
    ensures leaves { (grid : List ShareOf) → Extends square.now.k square.now.shares grid →
        AreLeafDigests square.now.k grid leaves.new }
{
    for row in 0..2 * square.k {
        let left = left_half(square, quarter, row);
        extend(room, left, line);
        put_leaves(square.k, row, 0, left, names, leaves);
        put_leaves(square.k, row, square.k, line, names, leaves);
    }
}

/// The lower left quarter of the extension of a square, and the digests of the leaves over all of its
/// cells.
pub(crate) fn quarter_and_leaves(
    alloc: Global,
    square: &Square,
) -> Result<(Vec<Share>, Vec<Digest>), NoMemory>
    ensures quarter { IfOk result (λ made. IsLowerLeft square.now.k square.now.shares made.0.items) }
    ensures leaves { IfOk result (λ made. (grid : List ShareOf) →
        Extends square.now.k square.now.shares grid → AreLeafDigests square.now.k grid made.1.items) }
    ensures count { IfOk result (λ made. length made.1.items ≡ 2 * square.now.k * (2 * square.now.k)) }
{
    let k = square.k as usize;
    let mut room = Room::new(alloc, square.k)?;
    let mut leaves = vec![in alloc; BLANK_DIGEST; 2 * k * (2 * k)]?;
    let mut quarter = vec![in alloc; Share([0; 512]); k * k]?;
    let mut line = vec![in alloc; Share([0; 512]); 2 * k]?;
    let mut names = vec![in alloc; PARITY; k]?;
    fill_quarter(&mut room, square, &mut line, &mut quarter);
    fill_rows(
        &mut room,
        square,
        &quarter,
        &mut line[..k],
        &mut names,
        &mut leaves,
    );
    Ok((quarter, leaves))
}

/// The share of a cell of the extension: one of the left half, or a recovery share of its row. It takes
/// no memory.
pub(crate) fn share_of(room: &mut Room, square: &Square, quarter: &[Share], cell: Cell) -> Share
    requires room { room.old ≡ square.now.k }
    requires quarter { IsLowerLeft square.now.k square.now.shares quarter.now }
    requires cell { IsTrue (is_in_square square.now.k cell) }
    ensures room { room.new ≡ room.old }
    ensures share { (grid : List ShareOf) → Extends square.now.k square.now.shares grid →
        result ≡ share_at (2 * square.now.k) grid cell }
{
    let (k, col) = (square.k as usize, cell.col as usize);
    let left = left_half(square, quarter, cell.row);
    if col < k {
        return left[col];
    }
    let mut line = [Share([0; 512]); GREATEST_WIDTH as usize];
    let right = &mut line[..k];
    extend(room, left, right);
    right[col - k]
}

/// The data availability header (DAH) of a square: that of its extension, none exactly where the namespaces
/// of a row or a column fall. Each leaf is hashed once, for its row and its column, and the extension is
/// never whole in memory.
///
/// It takes memory for k * k shares and for 4 * k * k digests of leaves, besides 2k shares and k namespaces
/// to work in, 6k digests and what a room for the code needs. The one refusal is that it is out of memory.
///
/// Celestia specifications, "Data Structures", available data header.
pub fn header_of_square(alloc: Global, square: &Square) -> Result<Option<Header>, NoMemory>
    ensures header { IfOk result (λ found. IfSome found (λ header. IsHeaderOf header square.now)) }
    ensures none { IfOk result (λ found. IsNone found → HasNoHeader square.now) }
{
    shares_law(&square.shares);
    let (_, leaves) = quarter_and_leaves(alloc, square)?;
    header_over(alloc, square.k, &leaves)
}
