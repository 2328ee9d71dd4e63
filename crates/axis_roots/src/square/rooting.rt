//! The header of a grid.
//!
//! An axis copies its line of the table of leaves and folds it in place: stored trees take more
//! memory, and are for who reads their levels.

ghost use Rattle.std.specs.Prelude.{◌≡◌, ◌*◌, ◌<◌, List, IsTrue, IfOk, IfSome, length, vec_len, true, Some, None, if◌then◌else◌};
ghost use Rattle.std.specs.List.{list_all};
ghost use Rattle.std.specs.Option.{option_map};
ghost use Rattle.namespace_id.specs.declared.shares.Share.{Share as ShareOf};
ghost use Rattle.namespace_id.specs.Shares.{AreShares};
ghost use Rattle.namespace_id.specs.Cells.{is_width};
ghost use Rattle.namespace_id.specs.Lists.{ascending};
ghost use Rattle.axis_roots.specs.Lines.{line_strict_root};
ghost use Rattle.axis_roots.specs.Grids.{AreLeafDigests, axis_shares, axis_roots, is_ordered_axis, header_of_grid};

use super::leaves::{are_ordered, leaves_of, read_leaves};
use crate::Grid;
use data_header::Header;
use namespace_id::{Axis, BLANK_DIGEST, Digest, NoMemory, shares_law};
use nmt_tree::fold_root;
use std::alloc::Global;

/// The strict root of an axis, by the digests of the leaves over all cells.
fn root_along(
    k: u16,
    leaves: &[Digest],
    axis: Axis,
    index: u16,
    line: &mut [Digest],
) -> Option<Digest>
    requires width { IsTrue (is_width k) }
    requires leaves { length leaves.now ≡ 2 * k * (2 * k) }
    requires index { index < 2 * k }
    requires line { length line.old ≡ 2 * k }
    ensures { (shares : List ShareOf) → AreShares shares → AreLeafDigests k shares leaves.now →
        result ≡ line_strict_root k axis index (axis_shares k shares axis index) }
{
    read_leaves(k, leaves, axis, index, line);
    if are_ordered(line) {
        Some(fold_root(line))
    } else {
        None
    }
}

/// Writes the strict roots of all axes of one kind; false where one of them has none.
fn put_roots(
    k: u16,
    leaves: &[Digest],
    axis: Axis,
    line: &mut [Digest],
    roots: &mut [Digest],
) -> bool
    requires width { IsTrue (is_width k) }
    requires leaves { length leaves.now ≡ 2 * k * (2 * k) }
    requires line { length line.old ≡ 2 * k }
    requires roots { length roots.old ≡ 2 * k }
    ensures ordered { (shares : List ShareOf) → AreShares shares →
        AreLeafDigests k shares leaves.now →
        result ≡ list_all (is_ordered_axis k shares axis) (ascending 0 (2 * k)) }
    ensures roots { (shares : List ShareOf) → AreShares shares →
        AreLeafDigests k shares leaves.now → result ≡ true →
        roots.new ≡ axis_roots k shares axis }
{
    for index in 0..2 * k {
        let Some(root) = root_along(k, leaves, axis, index, line) else {
            return false;
        };
        roots[index as usize] = root;
    }
    true
}

/// The strict roots of all axes of one kind, where each of them has one.
fn roots_of(
    alloc: Global,
    k: u16,
    leaves: &[Digest],
    axis: Axis,
    line: &mut [Digest],
) -> Result<Option<Vec<Digest>>, NoMemory>
    requires width { IsTrue (is_width k) }
    requires leaves { length leaves.now ≡ 2 * k * (2 * k) }
    requires line { length line.old ≡ 2 * k }
    ensures count { IfOk result (λ roots. IfSome roots (λ v. vec_len v ≡ 2 * k)) }
    ensures roots { IfOk result (λ roots. (shares : List ShareOf) → AreShares shares →
        AreLeafDigests k shares leaves.now → option_map (λ v. v.items) roots ≡
        (if list_all (is_ordered_axis k shares axis) (ascending 0 (2 * k))
        then Some (axis_roots k shares axis) else None)) }
{
    let mut roots = vec![in alloc; BLANK_DIGEST; 2 * k as usize]?;
    if put_roots(k, leaves, axis, line, &mut roots) {
        Ok(Some(roots))
    } else {
        Ok(None)
    }
}

/// The header over the digests of the leaves over all cells.
pub(crate) fn header_over(
    alloc: Global,
    k: u16,
    leaves: &[Digest],
) -> Result<Option<Header>, NoMemory>
    requires width { IsTrue (is_width k) }
    requires leaves { length leaves.now ≡ 2 * k * (2 * k) }
    ensures { IfOk result (λ header. (shares : List ShareOf) → AreShares shares →
        AreLeafDigests k shares leaves.now → header ≡ header_of_grid k shares) }
{
    let mut line = vec![in alloc; BLANK_DIGEST; 2 * k as usize]?;
    let Some(rows) = roots_of(alloc, k, leaves, Axis::Row, &mut line)? else {
        return Ok(None);
    };
    let Some(cols) = roots_of(alloc, k, leaves, Axis::Col, &mut line)? else {
        return Ok(None);
    };
    Ok(Some(Header { k, rows, cols }))
}

/// The data availability header (DAH) of a grid: the strict roots of all 2k rows and 2k columns,
/// over their shares under the leaf namespaces of their cells. There is none exactly where the
/// namespaces of a row or a column fall. Each leaf is hashed once, for its row and its column.
///
/// It takes memory for 4 * k * k digests of leaves, and for 6k digests besides. The one refusal is
/// that it is out of memory.
///
/// Celestia specifications, "Data Structures", available data header.
pub fn header_of(alloc: Global, grid: &Grid) -> Result<Option<Header>, NoMemory>
    ensures { IfOk result (λ header. header ≡ header_of_grid grid.now.k grid.now.shares) }
{
    shares_law(&grid.shares);
    let leaves = leaves_of(alloc, grid)?;
    header_over(alloc, grid.k, &leaves)
}
